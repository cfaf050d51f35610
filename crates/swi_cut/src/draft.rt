//! The blocks of an image, written one after the other.
#![tactic(auto)]

ghost use Rattle.std.specs.Prelude.{[], ◌∷◌, ◌≡◌, ℕ, ◌+◌, ◌≤◌, ◌<◌, ◌^◌, ◌++◌, length, IfOk, OnOk};
ghost use Rattle.swi_image.specs.Format.{image_of};
ghost use Rattle.swi_image.specs.Sound.{AreTables, image_of_tables};
ghost use Rattle.swi_program.specs.Text.{TextData};
ghost use Rattle.swi_render.specs.ImageOf.{rendering_at, renderings_between, block_between};
ghost use Rattle.swi_cut.specs.Cuts.{IsSound};
ghost use Rattle.swi_cut.specs.Upgrades.{IsMade};
ghost use Rattle.swi_cut.specs.Drafts.{IsDraft, IsRun, IsWritten, IsAppended};

use std::alloc::Global;
use swi_image::Image;
use swi_outside::Memory;
use swi_program::TextView;
use swi_render::{exit_behind, render_word};

/// Appends a number.
fn push(list: &mut Vec<u32>, number: u32) -> Result<(), Memory>
    ensures { OnOk result (list.new.items ≡ list.old.items ++ number ∷ []) }
{
    if list.push(number).is_err() {
        return Err(Memory);
    }
    Ok(())
}

/// Appends numbers.
fn append(list: &mut Vec<u32>, numbers: &[u32]) -> Result<(), Memory>
    ensures { OnOk result (list.new.items ≡ list.old.items ++ numbers.now) }
{
    if list.extend_from_slice(numbers).is_err() {
        return Err(Memory);
    }
    Ok(())
}

/// The image of these tables.
fn image_by(
    alloc: Global,
    most: u32,
    base: u32,
    starts: &[u32],
    ends: &[u32],
    offsets: &[u32],
    words: &[u32],
) -> Result<Image, Memory>
    requires { AreTables most starts.now ends.now offsets.now words.now }
    ensures image { let made = image_of_tables most base starts.now ends.now offsets.now words.now in
        IfOk result (λ i. image_of i ≡ made) }
    ensures sound { IfOk result (λ i. IsSound (image_of i)) }
{
    let image = Image::of_tables(alloc, most, base, starts, ends, offsets, words)?;
    Ok(image)
}

/// Writes the rendering of text word `k`.
fn write_word(text: &TextView<'_>, k: u32, words: &mut Vec<u32>) -> Result<(), Memory>
    requires { k < length text.now.words }
    ensures { OnOk result (IsAppended (rendering_at text.now k) words.old.items words.new.items) }
{
    append(words, &render_word(text, k))
}

/// Writes the offsets and the renderings of the text words from one up to another, behind the offsets
/// of all before.
fn write_words(
    text: &TextView<'_>,
    first: u32,
    end: u32,
    offsets: &mut Vec<u32>,
    words: &mut Vec<u32>,
) -> Result<(), Memory>
    requires some { first < end }
    requires within { end ≤ length text.now.words }
    requires covered { length offsets.old.items ≡ first }
    requires few { length words.old.items ≤ 2 ^ 29 }
    requires fits { length (block_between text.now first end) ≤ 1024 }
    ensures { OnOk result (IsWritten text.now first end (renderings_between text.now first end)
        offsets.old.items offsets.new.items words.old.items words.new.items) }
{
    let begin = words.len();
    for k in first..end {
        push(offsets, (words.len() - begin) as u32)?;
        write_word(text, k, words)?;
    }
    Ok(())
}

/// Writes the offsets and the block of the text words from one up to another.
fn write_block(
    text: &TextView<'_>,
    first: u32,
    end: u32,
    offsets: &mut Vec<u32>,
    words: &mut Vec<u32>,
) -> Result<(), Memory>
    requires some { first < end }
    requires within { end ≤ length text.now.words }
    requires covered { length offsets.old.items ≡ first }
    requires few { length words.old.items ≤ 2 ^ 29 }
    requires fits { length (block_between text.now first end) ≤ 1024 }
    ensures { OnOk result (IsWritten text.now first end (block_between text.now first end)
        offsets.old.items offsets.new.items words.old.items words.new.items) }
{
    write_words(text, first, end, offsets, words)?;
    if let Some(exit) = exit_behind(text, end - 1) {
        append(words, &exit)?;
    }
    Ok(())
}

/// The tables of the blocks of the first text words, as a version 2 image has them.
#[derive(Drop)]
pub(crate) struct Draft {
    pub starts: Vec<u32>,
    pub ends: Vec<u32>,
    pub offsets: Vec<u32>,
    pub words: Vec<u32>,
}

impl Draft {
    /// No blocks.
    pub fn new(alloc: Global) -> Draft
        ensures draft { (t : TextData) (most : ℕ) → IsDraft t most 0 result }
        ensures starts { result.starts.items ≡ [] }
    {
        Draft {
            starts: Vec::new(alloc),
            ends: Vec::new(alloc),
            offsets: Vec::new(alloc),
            words: Vec::new(alloc),
        }
    }

    /// Adds the block of the text words from `done`, up to which all have blocks, up to another.
    pub fn add_block(
        &mut self,
        text: &TextView<'_>,
        done: u32,
        end: u32,
        most: u32,
    ) -> Result<(), Memory>
        requires most { most ≤ 1024 }
        requires text { length text.now.words ≤ 2 ^ 19 }
        requires draft { IsDraft text.now most done self.old }
        requires run { IsRun text.now most done end }
        ensures starts { OnOk result (self.new.starts.items ≡ self.old.starts.items ++ done ∷ []) }
        ensures draft { OnOk result (IsDraft text.now most end self.new) }
    {
        write_block(text, done, end, &mut self.offsets, &mut self.words)?;
        push(&mut self.starts, done)?;
        push(&mut self.ends, self.words.len() as u32)
    }

    /// The image, where all text words have blocks.
    pub fn image(&self, alloc: Global, text: &TextView<'_>, most: u32) -> Result<Image, Memory>
        requires least { 2 ≤ most }
        requires highest { most ≤ 1024 }
        requires draft { IsDraft text.now most (length text.now.words) self.now }
        requires some { 0 < length text.now.words }
        requires few { length text.now.words ≤ 2 ^ 19 }
        ensures made { IfOk result (λ i. IsMade text.now most self.now.starts.items (image_of i)) }
        ensures sound { IfOk result (λ i. IsSound (image_of i)) }
    {
        image_by(
            alloc,
            most,
            text.base(),
            &self.starts,
            &self.ends,
            &self.offsets,
            &self.words,
        )
    }
}
