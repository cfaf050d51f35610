//! The words of all blocks of an image in a row, block behind block.
#![tactic(auto)]

ghost use Rattle.std.specs.Prelude.{◌≡◌, ◌+◌, ◌<◌, length};
ghost use Rattle.swi_image.specs.Place.{length_at};
ghost use Rattle.swi_image.specs.Row.{row_index, row_length};
ghost use Rattle.swi_image_ops.specs.ImageOp.{row_of};

use swi_image::ImageView;

/// The index in the row of the first word that stands for the text word at an address. None where no text word does.
pub fn index_in_row(image: &ImageView<'_>, a: u32) -> Option<u32>
    ensures { result ≡ row_of image.now a }
{
    let (block, offset) = image.place(a)?;
    Some(image.begin(block) + offset)
}

/// The block and the offset of the word with an index in the row, by halving.
pub fn place_in_row(image: &ImageView<'_>, k: u32) -> (u32, u32)
    requires { k < row_length image.now }
    ensures index { row_index image.now result.0 result.1 ≡ k }
    ensures block { result.0 < length image.now.starts }
    ensures offset { result.1 < length_at image.now result.0 }
{
    let mut low = 0;
    let mut high = image.blocks();
    while low < high {
        let middle = low + (high - low) / 2;
        if image.begin(middle) <= k {
            low = middle + 1;
        } else {
            high = middle;
        }
    }
    let block = low - 1;
    (block, k - image.begin(block))
}
