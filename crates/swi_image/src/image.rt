//! Images, and views of them.
#![tactic(auto)]

ghost use Rattle.std.specs.Prelude.{ℕ, ◌/◌, ◌≡◌, ◌<◌, ◌≤◌, ◌+◌, ◌*◌, ◌^◌, ◌-◌, None, Some, IfOk, IfErr, IfSome, IsTrue, OnOk, length, slice_index};
ghost use Rattle.swi_image.specs.Format.{image_of};
ghost use Rattle.swi_image.specs.Checks.{first_refusal, block_of};
ghost use Rattle.swi_image.specs.Place.{distance, IsWordOf, word_before, place_of, origin_of, block_at, length_at, next_start, word_at};
ghost use Rattle.swi_image.specs.Row.{row_begin, row_index, row_length};
ghost use Rattle.swi_image.specs.Sound.{IsImage};

use crate::block::Block;
use crate::checks::{
    Header, begin_at, end_at, header_of, header_refusal, offset_at, start_at, tables_refusal,
    word_inside,
};
use crate::refusal::ImageRefusal;
use crate::steps::Steps;
use std::marker::{Brand, Model};
use std::sync::ledger::{Blank, Ledger};

/// An image that stays in its bytes: reading it takes no memory. Contracts see it as what the bytes
/// say.
///
/// Blocks and text words are counted from 0, and offsets count the words of a block.
#[derive(Drop)]
pub struct ImageView<'a> {
    bytes: &'a [u8],
    header: Header,
}

impl<'a> Model for ImageView<'a> {
    ghost use Rattle.swi_image.specs.Format.{ImageData, image_of};
    ghost use Rattle.swi_image.specs.Kept.{IsView};

    ghost Value = { ImageData };

    ghost view = { λ v. image_of v.bytes.now };

    // Hidden from other crates: so what holds of every image is a clause, `sound`, of readers as `blocks`.
    ghost invariant = { λ v. IsView v.bytes.now v.header };
}

/// Checks the bytes of an image of either version, which stay borrowed and may begin at any address.
/// The error is the first check that fails, in the order of `ImageRefusal`. Source: own format.
///
/// What an image keeps (`sound`): its blocks share out the text words in order, and each text word
/// stands inside its block.
#[tactic(auto, unfolding(crate::specs::Checks::first_refusal), using(crate::proofs::Accepted::passed, crate::proofs::Views::sound))]
pub fn read_image<'a>(bytes: &'a [u8]) -> Result<ImageView<'a>, ImageRefusal>
    requires { length bytes.now < 2 ^ 34 }
    ensures read { IfOk result (λ v. v ≡ image_of bytes.now) }
    ensures ok { OnOk result (first_refusal bytes.now ≡ None) }
    ensures refused { IfErr result (λ r. first_refusal bytes.now ≡ Some r) }
    ensures sound { IfOk result (λ v. IsImage v) }
{
    let header = header_of(bytes);
    if let Some(refusal) = header_refusal(bytes, &header) {
        return Err(refusal);
    }
    if let Some(refusal) = tables_refusal(bytes, &header) {
        return Err(refusal);
    }
    Ok(ImageView { bytes, header })
}

impl<'a> ImageView<'a> {
    /// A view of bytes that pass the checks.
    #[tactic(auto, using(crate::proofs::Accepted::viewed, crate::proofs::Views::sound))]
    pub(crate) fn of_accepted(bytes: &'a [u8]) -> ImageView<'a>
        requires { first_refusal bytes.now ≡ None }
        ensures value { result ≡ image_of bytes.now }
        ensures sound { IsImage result }
    {
        ImageView {
            bytes,
            header: header_of(bytes),
        }
    }

    /// The same view once more.
    #[inline]
    pub fn again(&self) -> ImageView<'_>
        ensures { result ≡ self.now }
    {
        ImageView {
            bytes: self.bytes,
            header: self.header,
        }
    }

    /// The bytes of the image.
    pub fn bytes(&self) -> &[u8]
        ensures value { image_of result.now ≡ self.now }
        ensures accepted { first_refusal result.now ≡ None }
    {
        self.bytes
    }

    /// The version: 1 or 2.
    #[inline]
    #[tactic(auto, unfolding(crate::specs::Format::image_of))]
    pub fn version(&self) -> u32
        ensures { result ≡ self.now.version }
    {
        self.header.version
    }

    /// The most words of a block: 2 to 1024.
    #[inline]
    #[tactic(auto, unfolding(crate::specs::Format::image_of))]
    pub fn block_words(&self) -> u32
        ensures value { result ≡ self.now.block_words }
        ensures least { 2 ≤ result }
        ensures most { result ≤ 1024 }
    {
        self.header.block_words
    }

    /// How many blocks there are: 1 to 2^19.
    #[inline]
    #[tactic(auto, unfolding(crate::specs::Format::image_of), using(crate::proofs::Views::views))]
    pub fn blocks(&self) -> u32
        ensures value { result ≡ length self.now.starts }
        ensures sound { IsImage self.now }
    {
        self.header.blocks
    }

    /// The address of the first text word.
    #[inline]
    #[tactic(auto, unfolding(crate::specs::Format::image_of))]
    pub fn base(&self) -> u32
        ensures { result ≡ self.now.base }
    {
        self.header.base
    }

    /// How many text words there are: 1 to 2^19.
    #[inline]
    #[tactic(auto, unfolding(crate::specs::Format::image_of), using(crate::proofs::Views::views))]
    pub fn len(&self) -> u32
        ensures value { result ≡ length self.now.offsets }
        ensures some { 1 ≤ result }
        ensures few { result ≤ 2 ^ 19 }
        ensures sound { IsImage self.now }
    {
        self.header.len
    }

    /// The number of a block's first text word, counted as one step.
    #[inline]
    #[tactic(auto, unfolding(crate::specs::Format::image_of), using(crate::proofs::Views::views))]
    pub fn start<L: Ledger>(&self, block: u32, steps: &mut Steps<L>) -> u32
        requires { block < length self.now.starts }
        ensures value { result ≡ slice_index self.now.starts block }
        ensures within { result < length self.now.offsets }
        ensures step { steps.new ≡ steps.old + 1 }
    {
        steps.tick();
        start_at(self.bytes, &self.header, block)
    }

    /// The number of a block's first text word.
    #[inline]
    #[tactic(auto, unfolding(crate::specs::Format::image_of), using(crate::proofs::Views::views))]
    pub fn first(&self, block: u32) -> u32
        requires { block < length self.now.starts }
        ensures value { result ≡ slice_index self.now.starts block }
        ensures within { result < length self.now.offsets }
    {
        start_at(self.bytes, &self.header, block)
    }

    /// The number of the first text word behind a block, which for the last block is `len()`.
    #[inline]
    pub fn next(&self, block: u32) -> u32
        requires { block < length self.now.starts }
        ensures value { result ≡ next_start self.now block }
        ensures within { result ≤ length self.now.offsets }
        ensures sound { IsImage self.now }
    {
        let blocks = self.blocks();
        if block + 1 < blocks {
            self.first(block + 1)
        } else {
            self.len()
        }
    }

    /// The offset at which a text word stands in its block.
    #[inline]
    #[tactic(auto, unfolding(crate::specs::Format::image_of), using(crate::proofs::Views::views))]
    pub fn offset(&self, k: u32) -> u32
        requires { k < length self.now.offsets }
        ensures { result ≡ slice_index self.now.offsets k }
    {
        offset_at(self.bytes, &self.header, k)
    }

    /// How many words a block has: 1 to `block_words()`, in version 1 always as many.
    #[inline]
    #[tactic(auto, unfolding(crate::specs::Format::image_of, crate::specs::Place::block_at), using(crate::proofs::Views::views))]
    pub fn length(&self, block: u32) -> u32
        requires { block < length self.now.starts }
        ensures value { result ≡ length (block_at self.now block) }
        ensures some { 1 ≤ result }
        ensures most { result ≤ self.now.block_words }
    {
        (end_at(self.bytes, &self.header, block) - begin_at(self.bytes, &self.header, block)) as u32
    }

    /// A word of a block. The offset is below `length(block)`.
    #[inline]
    #[tactic(auto, unfolding(crate::specs::Format::image_of, crate::specs::Place::block_at), using(crate::proofs::Views::views))]
    pub fn word(&self, block: u32, offset: u32) -> u32
        requires block { block < length self.now.starts }
        requires offset { offset < length (block_at self.now block) }
        ensures { result ≡ slice_index (block_at self.now block) offset }
    {
        let begin = begin_at(self.bytes, &self.header, block);
        word_inside(self.bytes, self.header.body + begin + offset as usize)
    }

    /// How many words stand before a block's in the row of the words of all blocks, block behind block.
    #[inline]
    #[tactic(auto, unfolding(crate::specs::Format::image_of), using(crate::proofs::Rows::rows))]
    pub fn begin(&self, block: u32) -> u32
        requires { block < length self.now.starts }
        ensures value { result ≡ row_begin self.now block }
        ensures small { result < 2 ^ 30 }
        ensures sound { IsImage self.now }
    {
        begin_at(self.bytes, &self.header, block) as u32
    }

    /// How many words stand in the row.
    #[tactic(auto, unfolding(crate::specs::Format::image_of), using(crate::proofs::Rows::rows))]
    pub fn words(&self) -> u32
        ensures value { result ≡ row_length self.now }
        ensures small { result < 2 ^ 30 }
    {
        end_at(self.bytes, &self.header, self.header.blocks - 1) as u32
    }

    /// A word of the row.
    #[inline(always)]
    #[tactic(auto, unfolding(crate::specs::Format::image_of), using(crate::proofs::Rows::rows))]
    pub fn word_in_row(&self, k: u32) -> u32
        requires { k < row_length self.now }
        ensures { (b o : ℕ) → b < length self.now.starts → o < length_at self.now b → k ≡ row_index self.now b o →
            result ≡ word_at self.now b o }
    {
        word_inside(self.bytes, self.header.body + k as usize)
    }

    /// The words of a block, for a caller that reads many of them.
    #[inline]
    #[tactic(auto, unfolding(crate::specs::Format::image_of, crate::specs::Place::block_at), using(crate::proofs::Views::views))]
    pub fn block(&self, block: u32) -> Block<'a>
        requires { block < length self.now.starts }
        ensures { result ≡ block_at self.now block }
    {
        let begin = self.header.body + begin_at(self.bytes, &self.header, block);
        let end = self.header.body + end_at(self.bytes, &self.header, block);
        Block::of(&self.bytes[4 * begin..4 * end])
    }

    /// The block of a text word, by halving: each step leaves half the blocks at most.
    fn block_of<L: Ledger>(&self, k: u32, steps: &mut Steps<L>) -> u32
        requires { k < length self.now.offsets }
        ensures block { result ≡ block_of self.now.starts k }
        ensures within { result < length self.now.starts }
        ensures own { IsWordOf self.now result k }
        ensures cost { 2 ^ (steps.new - steps.old) ≤ 2 * length self.now.starts }
        ensures counted { steps.old ≤ steps.new }
    {
        let mut low = 0;
        let mut high = self.blocks();
        while low < high {
            let middle = low + (high - low) / 2;
            if self.start(middle, steps) <= k {
                low = middle + 1;
            } else {
                high = middle;
            }
        }
        low - 1
    }

    /// The place of the text word at an address, as `place` tells it. Of K blocks the search looks at
    /// p starts, each a step, where 2^p is at most 2K.
    #[tactic(auto, unfolding(crate::specs::Place::place_of))]
    pub fn place_steps<L: Ledger>(&self, a: u32, steps: &mut Steps<L>) -> Option<(u32, u32)>
        ensures place { result ≡ place_of self.now a }
        ensures within { IfSome result (λ p. p.0 < length self.now.starts) }
        ensures own { IfSome result (λ p. IsWordOf self.now p.0 (distance self.now a / 4)) }
        ensures cost { 2 ^ (steps.new - steps.old) ≤ 2 * length self.now.starts }
        ensures counted { steps.old ≤ steps.new }
    {
        let distance = a.wrapping_sub(self.base());
        let len = self.len();
        let k = distance / 4;
        if distance % 4 != 0 || k >= len {
            return None;
        }
        let block = self.block_of(k, steps);
        Some((block, self.offset(k)))
    }

    /// The place with a counter of its own, which takes no bytes when it runs.
    fn place_counted<L: Ledger>(&self, a: u32, blank: Blank) -> Option<(u32, u32)>
        requires name { blank.name ≡ L.name }
        requires parts { blank.parts ≡ L.parts }
        requires some { 0 < blank.parts }
        ensures place { result ≡ place_of self.now a }
        ensures within { IfSome result (λ p. p.0 < length self.now.starts) }
        ensures own { IfSome result (λ p. IsWordOf self.now p.0 (distance self.now a / 4)) }
    {
        let mut steps = Steps::<L>::new(blank);
        self.place_steps(a, &mut steps)
    }

    /// The place of the text word at an address: its block, and the offset of its first rendered word
    /// there. None exactly where no text word stands at the address.
    pub fn place(&self, a: u32) -> Option<(u32, u32)>
        ensures place { result ≡ place_of self.now a }
        ensures within { IfSome result (λ p. p.0 < length self.now.starts) }
        ensures own { IfSome result (λ p. IsWordOf self.now p.0 (distance self.now a / 4)) }
    {
        self.place_counted::<Brand>(a, Blank::new(1))
    }

    /// Whether there is a block of this number that has a text word.
    #[inline(always)]
    fn has(&self, block: u32, k: u32) -> bool
        requires { k < length self.now.offsets }
        ensures within { IsTrue result → block < length self.now.starts }
        ensures own { IsTrue result → (block ≡ block_of self.now.starts k) × IsWordOf self.now block k }
    {
        if block >= self.blocks() {
            return false;
        }
        if k < self.first(block) {
            return false;
        }
        k < self.next(block)
    }

    /// The place of the text word at an address, as `place` tells it, in constant time where the block `near` has the word:
    /// so who has been there before need not search. Where no block of that number has it, the number is no harm.
    #[inline]
    #[tactic(auto, unfolding(crate::specs::Place::place_of))]
    pub fn place_near(&self, a: u32, near: u32) -> Option<(u32, u32)>
        ensures place { result ≡ place_of self.now a }
        ensures within { IfSome result (λ p. p.0 < length self.now.starts) }
        ensures own { IfSome result (λ p. IsWordOf self.now p.0 (distance self.now a / 4)) }
    {
        let distance = a.wrapping_sub(self.base());
        let k = distance / 4;
        if distance % 4 == 0 && k < self.len() && self.has(near, k) {
            return Some((near, self.offset(k)));
        }
        self.place(a)
    }

    /// The last text word of a block that begins at or before an offset, by halving.
    fn word_before(&self, block: u32, offset: u32) -> u32
        requires block { block < length self.now.starts }
        ensures word { result ≡ word_before self.now block offset }
        ensures within { result < length self.now.offsets }
        ensures few { result < 2 ^ 19 }
        ensures before { slice_index self.now.offsets result ≤ offset }
    {
        let mut low = self.first(block);
        let mut high = self.next(block);
        while low < high {
            let middle = low + (high - low) / 2;
            if self.offset(middle) <= offset {
                low = middle + 1;
            } else {
                high = middle;
            }
        }
        low - 1
    }

    /// The address of the last text word of a block that begins at or before an offset, and how far
    /// the offset lies behind its first rendered word. The offset is below `length(block)`.
    pub fn origin(&self, block: u32, offset: u32) -> (u32, u32)
        requires block { block < length self.now.starts }
        requires offset { offset < length (block_at self.now block) }
        ensures { result ≡ origin_of self.now block offset }
    {
        let k = self.word_before(block, offset);
        (self.base().wrapping_add(4 * k), offset - self.offset(k))
    }
}
