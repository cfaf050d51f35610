//! Images that own their bytes.
#![tactic(auto)]

ghost use Rattle.std.specs.Prelude.{get_or, ◌≡◌, ◌<◌, ◌≤◌, ◌^◌, ℕ, [], None, IfOk, length};
ghost use Rattle.swi_program.specs.ProgramOf.{bytes_of_words};
ghost use Rattle.swi_image.specs.Words.{part};
ghost use Rattle.swi_image.specs.Format.{image_of, pieces};
ghost use Rattle.swi_image.specs.Checks.{first_refusal, begin_of, length_of};
ghost use Rattle.swi_image.specs.Sound.{IsImage, AreTables, image_of_tables, image_words};

use crate::checks::MAGIC;
use crate::image::ImageView;
use std::alloc::Global;
use std::marker::Model;
use swi_outside::Memory;
use swi_program::append_words;

/// An image with its bytes. Contracts see it as these.
#[derive(Drop)]
pub struct Image {
    bytes: Vec<u8>,
}

impl Model for Image {
    ghost use Rattle.std.specs.Prelude.{List, ℕ, ◌≡◌, None};
    ghost use Rattle.swi_image.specs.Checks.{first_refusal};

    ghost Value = { List ℕ };

    ghost view = { λ i. i.bytes.items };

    ghost invariant = { λ i. first_refusal i.bytes.items ≡ None };
}

impl Image {
    /// The image that these bytes are: they pass the checks of an image.
    pub fn of(bytes: Vec<u8>) -> Image
        requires { first_refusal bytes.items ≡ None }
        ensures { result ≡ bytes.items }
    {
        Image { bytes }
    }

    /// The bytes: fewer than 2^32.
    #[tactic(auto, using(crate::proofs::Views::few_bytes))]
    pub fn bytes(&self) -> &[u8]
        ensures value { result.now ≡ self.now }
        ensures accepted { first_refusal self.now ≡ None }
        ensures few { length self.now < 2 ^ 32 }
    {
        &self.bytes
    }

    /// What the bytes say, read in place.
    #[tactic(auto, using(crate::proofs::Accepted::viewed))]
    pub fn view(&self) -> ImageView<'_>
        ensures value { result ≡ image_of self.now }
        ensures sound { IsImage result }
    {
        ImageView::of_accepted(&self.bytes)
    }

    /// The version 2 image of these tables: of each block the number of its first text word, and its
    /// end, which is the number of words of all blocks up to it, itself included; of each text word
    /// its offset in its block; and the words of all blocks.
    ///
    /// The only error is want of memory.
    pub fn of_tables(
        alloc: Global,
        block_words: u32,
        base: u32,
        starts: &[u32],
        ends: &[u32],
        offsets: &[u32],
        words: &[u32],
    ) -> Result<Image, Memory>
        requires { AreTables block_words starts.now ends.now offsets.now words.now }
        ensures image { let made = image_of_tables block_words base starts.now ends.now offsets.now words.now in
            IfOk result (λ i. image_of i ≡ made) }
        ensures blocks { (b : ℕ) → b < length starts.now →
            get_or (pieces 0 ends.now words.now) b [] ≡ part (begin_of ends.now b) (length_of ends.now b) words.now }
    {
        let bytes = table_bytes(alloc, block_words, base, starts, ends, offsets, words)?;
        Ok(Image { bytes })
    }
}

/// The bytes of the version 2 image of these tables.
fn table_bytes(
    alloc: Global,
    block_words: u32,
    base: u32,
    starts: &[u32],
    ends: &[u32],
    offsets: &[u32],
    words: &[u32],
) -> Result<Vec<u8>, Memory>
    requires blocks { length starts.now ≤ 2 ^ 19 }
    requires text { length offsets.now ≤ 2 ^ 19 }
    ensures { let all = image_words block_words base starts.now ends.now offsets.now words.now in
        IfOk result (λ b. b.items ≡ bytes_of_words all) }
{
    let mut bytes = Vec::new(alloc);
    let header = [
        MAGIC,
        2,
        block_words,
        starts.len() as u32,
        offsets.len() as u32,
        base,
    ];
    append_words(&mut bytes, &header)?;
    append_words(&mut bytes, starts)?;
    append_words(&mut bytes, ends)?;
    append_words(&mut bytes, offsets)?;
    append_words(&mut bytes, words)?;
    Ok(bytes)
}
