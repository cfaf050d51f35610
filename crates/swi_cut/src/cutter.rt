//! The cutter.
#![tactic(auto)]

ghost use Rattle.std.specs.Prelude.{◌≡◌, ℕ, ◌≤◌, ◌<◌, length, Err, IfOk, IfErr, OnOk};
ghost use Rattle.swi_image.specs.Format.{image_of};
ghost use Rattle.swi_program.specs.Text.{text_of};
ghost use Rattle.swi_render.specs.Cut.{IsCut, Fits, needs_of};
ghost use Rattle.swi_render.specs.Loops.{HasNoLr};
ghost use Rattle.swi_cut.specs.declared.refusal.CutRefusal.TheVariants.{Long};
ghost use Rattle.swi_cut.specs.Causes.{IsCutCause};
ghost use Rattle.swi_cut.specs.Cuts.{IsCutBy, IsSound};
ghost use Rattle.swi_cut.specs.Drafts.{IsRun, IsBlockEnd};

use crate::cutting::Cutting;
use crate::draft::Draft;
use crate::greedy::longest_end;
use crate::loops::whole_end;
use crate::refusal::CutRefusal;
use std::alloc::Global;
use swi_image::Image;
use swi_program::{Program, TextView};
use swi_render::address_of;

/// Where the block that begins at a text word ends, or what that word needs where it does not fit.
fn block_end(text: &TextView<'_>, first: u32, most: u32, cutting: Cutting) -> Result<u32, u32>
    requires first { first < length text.now.words }
    requires most { most ≤ 1024 }
    ensures run { IfOk result (IsRun text.now most first) }
    ensures ends { IfOk result (IsBlockEnd cutting text.now most first) }
    ensures long { IfErr result (λ needed. (needed ≡ needs_of text.now first) × (most < needed)) }
{
    match longest_end(text, first, most) {
        Ok(end) => match cutting {
            Cutting::Greedy => Ok(end),
            Cutting::WholeLoops => Ok(whole_end(text, first, end, most)),
        },
        Err(needs) => Err(needs),
    }
}

/// Cuts a text into blocks of at most `most` words.
fn cut_text(
    alloc: Global,
    text: &TextView<'_>,
    most: u32,
    cutting: Cutting,
) -> Result<Image, CutRefusal>
    requires least { 2 ≤ most }
    requires highest { most ≤ 1024 }
    ensures cut { IfOk result (λ i. IsCutBy cutting text.now most (image_of i)) }
    ensures sound { IfOk result (λ i. IsSound (image_of i)) }
    ensures fits { OnOk result (Fits text.now most) }
    ensures refused { IfErr result (IsCutCause text.now most) }
{
    let mut draft = Draft::new(alloc);
    let mut done = 0;
    while done < text.len() {
        let end = match block_end(text, done, most, cutting) {
            Ok(end) => end,
            Err(needs) => {
                let address = address_of(text, done);
                return Err(CutRefusal::Long { address, needs });
            }
        };
        let Ok(()) = draft.add_block(text, done, end, most) else {
            return Err(CutRefusal::Memory);
        };
        done = end;
    }
    draft
        .image(alloc, text, most)
        .map_err(|_| CutRefusal::Memory)
}

/// Cuts a program's text into a version 2 image whose blocks have at most `block_words` words, 2 to
/// 1024: each block but the last has as many text words as fit.
///
/// Long comes exactly where some text word needs more words than that, at the first such word, unless
/// memory runs out before. The only other error is want of memory. The time is linear in the text.
pub fn cut(alloc: Global, p: &Program<'_>, block_words: u32) -> Result<Image, CutRefusal>
    requires least { 2 ≤ block_words }
    requires most { block_words ≤ 1024 }
    ensures cut { IfOk result (λ i. IsCut (text_of p.now.segments) block_words (image_of i)) }
    ensures sound { IfOk result (λ i. IsSound (image_of i)) }
    ensures fits { OnOk result (Fits (text_of p.now.segments) block_words) }
    ensures refused { IfErr result (IsCutCause (text_of p.now.segments) block_words) }
    ensures unfit { (address needs : ℕ) → result ≡ Err (Long address needs) →
        Fits (text_of p.now.segments) block_words → ⊥ }
{
    cut_by(alloc, p, block_words, Cutting::Greedy)
}

/// Cuts a program's text as `cut` does, in the way that is asked for. By `WholeLoops` each LR.W stands
/// in one block with its SC.W, where a block of the two and what is between has at most `block_words`
/// words: an SC.W at most 15 words behind, with no other LR.W or SC.W between. A text without LR.W is cut
/// as by `cut`. Errors and time are those of `cut`.
pub fn cut_by(
    alloc: Global,
    p: &Program<'_>,
    block_words: u32,
    cutting: Cutting,
) -> Result<Image, CutRefusal>
    requires least { 2 ≤ block_words }
    requires most { block_words ≤ 1024 }
    ensures cut { IfOk result (λ i. IsCutBy cutting (text_of p.now.segments) block_words (image_of i)) }
    ensures plain { HasNoLr (text_of p.now.segments) →
        IfOk result (λ i. IsCut (text_of p.now.segments) block_words (image_of i)) }
    ensures sound { IfOk result (λ i. IsSound (image_of i)) }
    ensures fits { OnOk result (Fits (text_of p.now.segments) block_words) }
    ensures refused { IfErr result (IsCutCause (text_of p.now.segments) block_words) }
    ensures unfit { (address needs : ℕ) → result ≡ Err (Long address needs) →
        Fits (text_of p.now.segments) block_words → ⊥ }
{
    cut_text(alloc, &p.text(), block_words, cutting)
}
