//! The checker.
#![tactic(auto)]

ghost use Rattle.std.specs.Prelude.{◌≡◌, ◌+◌, ◌≤◌, ◌<◌, ◌^◌, List, length, IfOk, IfErr, OnOk, OnErr, IfSome, IfNone};
ghost use Rattle.swi_image.specs.Sound.{IsImage};
ghost use Rattle.swi_image.specs.Place.{block_at};
ghost use Rattle.swi_program.specs.Text.{text_of};
ghost use Rattle.swi_render.specs.Rendering.{Slot, AreThe};
ghost use Rattle.swi_render.specs.ImageOf.{OffsetsRight, block_between, IsImageOf, IsBlockOf};
ghost use Rattle.swi_render.specs.Among.{StandIn};
ghost use Rattle.swi_check.specs.Parts.{IsMisplaced, IsDifference, IsPaddedFrom, IsRightBetween};
ghost use Rattle.swi_check.specs.Mismatches.{Covers, IsUncovered, asked_between, WordsRight, IsWrongBetween, IsWrongIn, IsMismatch};

use crate::mismatch::Mismatch;
use swi_image::ImageView;
use swi_program::{Program, TextView};
use swi_render::{address_of, exit_behind, render_word, sizes_of};

// This and `Difference` are no `Mismatch`, so that a contract speaks only of what its function can find.

/// A text word with a wrong offset.
#[derive(Clone, Copy)]
struct Misplaced {
    address: u32,
    held: u32,
    required: u32,
}

/// The first text word, from one up to another, whose offset is wrong; or else how many words the block
/// of these text words has.
fn check_places(
    text: &TextView<'_>,
    view: &ImageView<'_>,
    first: u32,
    end: u32,
) -> Result<u32, Misplaced>
    requires some { first < end }
    requires within { end ≤ length text.now.words }
    requires few { length text.now.words ≤ 2 ^ 19 }
    requires covered { length view.now.offsets ≡ length text.now.words }
    ensures needs { IfOk result (λ needs. needs ≡ length (block_between text.now first end)) }
    ensures right { OnOk result (OffsetsRight text.now view.now.offsets first end) }
    ensures wrong { IfErr result (IsMisplaced text.now view.now.offsets first end) }
{
    let mut required = 0;
    let mut needs = 0;
    for k in first..end {
        let held = view.offset(k);
        if held != required {
            let address = address_of(text, k);
            return Err(Misplaced {
                address,
                held,
                required,
            });
        }
        let sizes = sizes_of(text, k);
        needs = required + sizes.needs;
        required += sizes.len;
    }
    Ok(needs)
}

/// A wrong word of a block.
#[derive(Clone, Copy)]
struct Difference {
    offset: u32,
    held: u32,
    required: u32,
}

/// Compares the words of a block from an offset on with these, and gives the offset behind them.
fn check_part(view: &ImageView<'_>, block: u32, from: u32, words: &[u32]) -> Result<u32, Difference>
    requires block { block < length view.now.starts }
    requires fits { from + length words.now ≤ length (block_at view.now block) }
    requires short { length (block_at view.now block) ≤ 1024 }
    ensures to { IfOk result (λ to. to ≡ from + length words.now) }
    ensures right { (ss rr : List Slot) → AreThe rr words.now → StandIn ss rr from →
        WordsRight ss (block_at view.now block) from → IfOk result (WordsRight ss (block_at view.now block)) }
    ensures wrong { (ss rr : List Slot) → AreThe rr words.now → StandIn ss rr from →
        WordsRight ss (block_at view.now block) from → IfErr result (IsDifference ss (block_at view.now block)) }
{
    for j in 0..words.len() {
        let offset = from + j as u32;
        let held = view.word(block, offset);
        let required = words[j];
        if held != required {
            return Err(Difference {
                offset,
                held,
                required,
            });
        }
    }
    Ok(from + words.len() as u32)
}

/// Compares the first words of a block with the renderings and the exit of the text words from one up
/// to another, and gives the offset behind them.
fn check_front(
    text: &TextView<'_>,
    view: &ImageView<'_>,
    block: u32,
    first: u32,
    end: u32,
) -> Result<u32, Difference>
    requires some { first < end }
    requires text { end ≤ length text.now.words }
    requires block { block < length view.now.starts }
    requires short { length (block_at view.now block) ≤ 1024 }
    requires fits { length (block_between text.now first end) ≤ length (block_at view.now block) }
    ensures to { IfOk result (λ to. to ≡ length (block_between text.now first end)) }
    ensures right { IfOk result (WordsRight (asked_between text.now view.now first end) (block_at view.now block)) }
    ensures wrong { IfErr result (IsDifference (asked_between text.now view.now first end) (block_at view.now block)) }
{
    let mut from = 0;
    for k in first..end {
        from = check_part(view, block, from, &render_word(text, k))?;
    }
    match exit_behind(text, end - 1) {
        Some(exit) => check_part(view, block, from, &exit),
        None => Ok(from),
    }
}

/// The first word of a block from an offset on that is not 0.
fn check_zeros(view: &ImageView<'_>, block: u32, from: u32) -> Result<(), Difference>
    requires block { block < length view.now.starts }
    ensures right { (ss : List Slot) → IsPaddedFrom ss from → WordsRight ss (block_at view.now block) from →
        OnOk result (WordsRight ss (block_at view.now block) (length (block_at view.now block))) }
    ensures wrong { (ss : List Slot) → IsPaddedFrom ss from → WordsRight ss (block_at view.now block) from →
        length (block_at view.now block) ≤ length ss → IfErr result (IsDifference ss (block_at view.now block)) }
{
    for offset in from..view.length(block) {
        let held = view.word(block, offset);
        if held != 0 {
            return Err(Difference {
                offset,
                held,
                required: 0,
            });
        }
    }
    Ok(())
}

/// Compares the words of a block with the renderings and the exit of the text words from one up to
/// another, and with zeros behind them.
fn check_words(
    text: &TextView<'_>,
    view: &ImageView<'_>,
    block: u32,
    first: u32,
    end: u32,
) -> Result<(), Difference>
    requires some { first < end }
    requires text { end ≤ length text.now.words }
    requires block { block < length view.now.starts }
    requires short { length (block_at view.now block) ≤ 1024 }
    requires whole { length (block_at view.now block) ≡ length (asked_between text.now view.now first end) }
    ensures right { OnOk result (WordsRight (asked_between text.now view.now first end) (block_at view.now block)
        (length (block_at view.now block))) }
    ensures wrong { IfErr result (IsDifference (asked_between text.now view.now first end) (block_at view.now block)) }
{
    let from = check_front(text, view, block, first, end)?;
    check_zeros(view, block, from)
}

/// Compares a block with what its text words, from one up to another, ask for.
fn check_between(
    text: &TextView<'_>,
    view: &ImageView<'_>,
    block: u32,
    first: u32,
    end: u32,
) -> Result<(), Mismatch>
    requires some { first < end }
    requires text { end ≤ length text.now.words }
    requires few { length text.now.words ≤ 2 ^ 19 }
    requires covered { length view.now.offsets ≡ length text.now.words }
    requires image { IsImage view.now }
    requires block { block < length view.now.starts }
    ensures right { OnOk result (IsRightBetween text.now view.now block first end) }
    ensures wrong { IfErr result (IsWrongBetween text.now view.now block first end) }
{
    let needs = match check_places(text, view, first, end) {
        Ok(needs) => needs,
        Err(wrong) => {
            return Err(Mismatch::Place {
                address: wrong.address,
                held: wrong.held,
                required: wrong.required,
            });
        }
    };
    if needs > view.block_words() {
        return Err(Mismatch::Long { block, needs });
    }
    let held = view.length(block);
    if view.version() == 2 && held != needs {
        return Err(Mismatch::Length {
            block,
            held,
            required: needs,
        });
    }
    match check_words(text, view, block, first, end) {
        Ok(()) => Ok(()),
        Err(wrong) => Err(Mismatch::Word {
            block,
            offset: wrong.offset,
            held: wrong.held,
            required: wrong.required,
        }),
    }
}

/// Compares a block with what the text asks for.
fn check_block(text: &TextView<'_>, view: &ImageView<'_>, block: u32) -> Result<(), Mismatch>
    requires few { length text.now.words ≤ 2 ^ 19 }
    requires covered { length view.now.offsets ≡ length text.now.words }
    requires image { IsImage view.now }
    requires block { block < length view.now.starts }
    ensures right { OnOk result (IsBlockOf text.now view.now block) }
    ensures wrong { IfErr result (IsWrongIn text.now view.now block) }
{
    check_between(text, view, block, view.first(block), view.next(block))
}

/// The first address, of the text or behind it, at which the image does not cover the text.
fn uncovered(text: &TextView<'_>, view: &ImageView<'_>) -> Option<u32>
    ensures some { IfSome result (IsUncovered text.now view.now) }
    ensures none { IfNone result (Covers text.now view.now) }
{
    let base = text.base();
    if view.base() != base {
        return Some(base);
    }
    let (len, held) = (text.len(), view.len());
    if held != len {
        return Some(base.wrapping_add(4 * len.min(held)));
    }
    None
}

/// Compares an image with what the text asks for.
fn check_text(text: &TextView<'_>, view: &ImageView<'_>) -> Result<(), Mismatch>
    ensures right { OnOk result (IsImageOf text.now view.now) }
    ensures wrong { IfErr result (IsMismatch text.now view.now) }
{
    if let Some(address) = uncovered(text, view) {
        return Err(Mismatch::Cover { address });
    }
    for block in 0..view.blocks() {
        check_block(text, view, block)?;
    }
    Ok(())
}

/// Whether the image is one of the program's text: Ok exactly where it is, otherwise the first
/// difference.
///
/// Each word of the text and of the image is read a fixed number of times, so the time is linear in
/// their lengths. No memory is taken.
pub fn check(p: &Program<'_>, view: &ImageView<'_>) -> Result<(), Mismatch>
    ensures right { OnOk result (IsImageOf (text_of p.now.segments) view.now) }
    ensures wrong { IfErr result (IsMismatch (text_of p.now.segments) view.now) }
    ensures not { OnErr result (IsImageOf (text_of p.now.segments) view.now → ⊥) }
{
    check_text(&p.text(), view)
}
