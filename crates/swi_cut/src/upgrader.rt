//! From an image of a program to its version 2.
#![tactic(auto)]

ghost use Rattle.std.specs.Prelude.{◌≡◌, IfOk};
ghost use Rattle.swi_image.specs.Format.{image_of};
ghost use Rattle.swi_program.specs.Text.{text_of};
ghost use Rattle.swi_render.specs.ImageOf.{IsImageOf};
ghost use Rattle.swi_cut.specs.Upgrades.{IsUpgrade};

use crate::draft::Draft;
use std::alloc::Global;
use swi_image::{Image, ImageView};
use swi_outside::Memory;
use swi_program::{Program, TextView};

/// A copy of an image.
fn copied(alloc: Global, view: &ImageView<'_>) -> Result<Image, Memory>
    ensures { IfOk result (λ i. image_of i ≡ view.now) }
{
    let mut bytes = Vec::new(alloc);
    if bytes.extend_from_slice(view.bytes()).is_err() {
        return Err(Memory);
    }
    Ok(Image::of(bytes))
}

/// The version 2 image of a text with the blocks of another image of it.
fn upgrade_text(alloc: Global, text: &TextView<'_>, view: &ImageView<'_>) -> Result<Image, Memory>
    requires { IsImageOf text.now view.now }
    ensures { IfOk result (λ i. IsUpgrade text.now view.now (image_of i)) }
{
    let most = view.block_words();
    let mut draft = Draft::new(alloc);
    for block in 0..view.blocks() {
        draft.add_block(text, view.first(block), view.next(block), most)?;
    }
    draft.image(alloc, text, most)
}

/// The version 2 image with the most words, the starts and the renderings of an image of the program;
/// a version 2 image itself, copied byte for byte.
///
/// The only error is want of memory. The time is linear in the text and the image.
pub fn upgrade(alloc: Global, p: &Program<'_>, view: &ImageView<'_>) -> Result<Image, Memory>
    requires { IsImageOf (text_of p.now.segments) view.now }
    ensures upgraded { IfOk result (λ i. IsUpgrade (text_of p.now.segments) view.now (image_of i)) }
    ensures same { view.now.version ≡ 2 → IfOk result (λ i. image_of i ≡ view.now) }
{
    if view.version() == 2 {
        return copied(alloc, view);
    }
    upgrade_text(alloc, &p.text(), view)
}
