//! The checks of an image, in their order.
#![tactic(auto)]

ghost use Rattle.std.specs.Prelude.{◌⊎◌, IfSome, List, drop, ◌≡◌, ◌≤◌, ◌<◌, ◌+◌, ◌*◌, ◌^◌, ℕ, length, slice_index};
ghost use Rattle.byteorder.specs.Endian.{little_number};
ghost use Rattle.swi_image.specs.Words.{words_of};
ghost use Rattle.swi_image.specs.Format.{version_of, block_words_of, blocks_of, len_of, starts_of, ends_of, offsets_of, offsets_at};
ghost use Rattle.swi_image.specs.Checks.{has_length, header_refusal, tables_refusal, size_of, first_wrong_start, first_wrong_end, first_wrong_offset, begin_of, is_start_wrong, is_end_wrong, is_offset_wrong, block_of};
ghost use Rattle.swi_image.specs.Kept.{IsHeader, HasSizes, StartsRight};

use crate::refusal::ImageRefusal;
use byteorder::{ByteOrder, LittleEndian};

/// The word that an image begins with: the bytes `SIC1`.
pub(crate) const MAGIC: u32 = 0x3143_4953;

/// How many text words there may be.
const TEXT_LIMIT: u32 = 1 << 19;

/// The numbers of an image's header, and what follows from them: the indexes of the first offset and of the blocks'
/// first word, which each read of a table would else add up again.
#[derive(Clone, Copy)]
pub(crate) struct Header {
    pub version: u32,
    pub block_words: u32,
    pub blocks: u32,
    pub len: u32,
    pub base: u32,
    pub offsets: usize,
    pub body: usize,
}

/// The index of the first offset.
#[tactic(auto, unfolding(crate::specs::Format::offsets_at))]
fn offsets_index(version: u32, blocks: u32) -> usize
    ensures tables { (w : List ℕ) → version ≡ version_of w → blocks ≡ blocks_of w → result ≡ offsets_at w }
    ensures small { result ≤ 6 + 2 * blocks }
{
    if version == 2 {
        6 + 2 * blocks as usize
    } else {
        6 + blocks as usize
    }
}

/// The number of the four bytes from a place on, the lowest first.
#[inline]
fn number_at(bytes: &[u8], at: usize) -> u32
    requires { at + 4 ≤ length bytes.now }
    ensures { result ≡ little_number 4 (drop at bytes.now) }
{
    LittleEndian::read_u32(&bytes[at..])
}

/// The i-th word; 0 where it is not there.
// Each check of the header refuses 0, so none of them needs a case for a missing word.
#[inline]
#[tactic(auto, using(crate::proofs::Reading::reading))]
pub(crate) fn word_at(bytes: &[u8], i: usize) -> u32
    ensures { result ≡ slice_index (words_of bytes.now) i }
{
    if i < bytes.len() / 4 {
        number_at(bytes, 4 * i)
    } else {
        0
    }
}

/// The i-th word, which is there.
#[inline]
#[tactic(auto, using(crate::proofs::Reading::reading, crate::proofs::Reading::length_words))]
pub(crate) fn word_inside(bytes: &[u8], i: usize) -> u32
    requires { i < length (words_of bytes.now) }
    ensures { result ≡ slice_index (words_of bytes.now) i }
{
    number_at(bytes, 4 * i)
}

/// The header's numbers.
pub(crate) fn header_of(bytes: &[u8]) -> Header
    ensures { IsHeader result (words_of bytes.now) }
{
    let version = word_at(bytes, 1);
    let blocks = word_at(bytes, 3);
    let len = word_at(bytes, 4);
    let offsets = offsets_index(version, blocks);
    Header {
        version,
        block_words: word_at(bytes, 2),
        blocks,
        len,
        base: word_at(bytes, 5),
        offsets,
        body: offsets + len as usize,
    }
}

/// How many words the whole image has.
#[tactic(auto, unfolding(crate::specs::Checks::size_of, crate::specs::Format::offsets_at))]
fn size_of(bytes: &[u8], h: &Header) -> usize
    requires header { IsHeader h.now (words_of bytes.now) }
    requires blocks { h.now.blocks ≤ 2 ^ 19 }
    requires most { h.now.block_words ≤ 1024 }
    ensures size { result ≡ size_of (words_of bytes.now) }
    ensures small { result < 2 ^ 40 }
{
    let blocks = h.blocks as usize;
    if h.version == 2 {
        h.body + word_at(bytes, 5 + 2 * blocks) as usize
    } else {
        h.body + blocks * h.block_words as usize
    }
}

/// Whether the numbers of blocks and text words are allowed, and there are the bytes that they ask for.
fn has_length(bytes: &[u8], h: &Header) -> bool
    requires header { IsHeader h.now (words_of bytes.now) }
    requires most { h.now.block_words ≤ 1024 }
    ensures { result ≡ has_length bytes.now (words_of bytes.now) }
{
    h.len >= 1
        && h.len <= TEXT_LIMIT
        && h.blocks >= 1
        && h.blocks <= h.len
        && bytes.len() == 4 * size_of(bytes, h)
}

/// The first check of the header that fails.
#[tactic(auto, unfolding(crate::specs::Checks::header_refusal))]
pub(crate) fn header_refusal(bytes: &[u8], h: &Header) -> Option<ImageRefusal>
    requires short { length bytes.now < 2 ^ 34 }
    requires header { IsHeader h.now (words_of bytes.now) }
    ensures { result ≡ header_refusal bytes.now }
{
    if word_at(bytes, 0) != MAGIC {
        return Some(ImageRefusal::Magic(0));
    }
    if h.version != 1 && h.version != 2 {
        return Some(ImageRefusal::Version(1));
    }
    if h.block_words < 2 || h.block_words > 1024 {
        return Some(ImageRefusal::BlockSize(2));
    }
    if !has_length(bytes, h) {
        return Some(ImageRefusal::Length((bytes.len() / 4) as u32));
    }
    None
}

/// The start of a block.
#[inline]
#[tactic(auto, using(crate::proofs::Reading::tables))]
pub(crate) fn start_at(bytes: &[u8], h: &Header, i: u32) -> u32
    requires header { IsHeader h.now (words_of bytes.now) }
    requires within { i < h.now.blocks }
    requires sizes { HasSizes (words_of bytes.now) }
    ensures { result ≡ slice_index (starts_of (words_of bytes.now)) i }
{
    word_inside(bytes, 6 + i as usize)
}

/// The end of a block.
#[inline]
#[tactic(auto, using(crate::proofs::Reading::tables))]
pub(crate) fn end_at(bytes: &[u8], h: &Header, i: u32) -> usize
    requires header { IsHeader h.now (words_of bytes.now) }
    requires within { i < h.now.blocks }
    requires sizes { HasSizes (words_of bytes.now) }
    ensures end { result ≡ slice_index (ends_of (words_of bytes.now)) i }
    ensures small { result < 2 ^ 32 }
{
    if h.version == 2 {
        word_inside(bytes, 6 + h.blocks as usize + i as usize) as usize
    } else {
        h.block_words as usize * (i as usize + 1)
    }
}

/// Where a block begins among the words of the blocks.
#[inline]
pub(crate) fn begin_at(bytes: &[u8], h: &Header, i: u32) -> usize
    requires header { IsHeader h.now (words_of bytes.now) }
    requires within { i < h.now.blocks }
    requires sizes { HasSizes (words_of bytes.now) }
    ensures begin { result ≡ begin_of (ends_of (words_of bytes.now)) i }
    ensures small { result < 2 ^ 32 }
{
    if i == 0 { 0 } else { end_at(bytes, h, i - 1) }
}

/// The offset of a text word.
#[inline]
#[tactic(auto, using(crate::proofs::Reading::tables))]
pub(crate) fn offset_at(bytes: &[u8], h: &Header, k: u32) -> u32
    requires header { IsHeader h.now (words_of bytes.now) }
    requires within { k < h.now.len }
    requires sizes { HasSizes (words_of bytes.now) }
    ensures { result ≡ slice_index (offsets_of (words_of bytes.now)) k }
{
    word_inside(bytes, h.offsets + k as usize)
}

/// Whether a start is not 0 for the first, not above the one before for another, or past the text.
#[tactic(auto, unfolding(crate::specs::Checks::is_start_wrong))]
fn is_start_wrong(bytes: &[u8], h: &Header, i: u32) -> bool
    requires header { IsHeader h.now (words_of bytes.now) }
    requires within { i < h.now.blocks }
    requires sizes { HasSizes (words_of bytes.now) }
    ensures { result ≡ is_start_wrong (len_of (words_of bytes.now)) (starts_of (words_of bytes.now)) i }
{
    let start = start_at(bytes, h, i);
    let out_of_order = if i == 0 {
        start != 0
    } else {
        start <= start_at(bytes, h, i - 1)
    };
    out_of_order || start >= h.len
}

/// The first start that is wrong.
#[tactic(auto, using(crate::proofs::Reading::first_steps))]
fn first_wrong_start(bytes: &[u8], h: &Header) -> Option<u32>
    requires header { IsHeader h.now (words_of bytes.now) }
    requires sizes { HasSizes (words_of bytes.now) }
    ensures first { result ≡ first_wrong_start (words_of bytes.now) }
    ensures within { IfSome result (λ i. i < h.now.blocks) }
{
    for i in 0..h.blocks {
        if is_start_wrong(bytes, h, i) {
            return Some(i);
        }
    }
    None
}

/// Whether a block's length is not 1 to the most.
#[tactic(auto, unfolding(crate::specs::Checks::is_end_wrong))]
fn is_end_wrong(bytes: &[u8], h: &Header, i: u32) -> bool
    requires header { IsHeader h.now (words_of bytes.now) }
    requires within { i < h.now.blocks }
    requires sizes { HasSizes (words_of bytes.now) }
    ensures { result ≡ is_end_wrong (block_words_of (words_of bytes.now)) (ends_of (words_of bytes.now)) i }
{
    let begin = begin_at(bytes, h, i);
    let end = end_at(bytes, h, i);
    end <= begin || end > begin + h.block_words as usize
}

/// The first end that is wrong.
#[tactic(auto, using(crate::proofs::Reading::first_steps))]
fn first_wrong_end(bytes: &[u8], h: &Header) -> Option<u32>
    requires header { IsHeader h.now (words_of bytes.now) }
    requires sizes { HasSizes (words_of bytes.now) }
    ensures first { result ≡ first_wrong_end (words_of bytes.now) }
    ensures within { IfSome result (λ i. i < h.now.blocks) }
{
    for i in 0..h.blocks {
        if is_end_wrong(bytes, h, i) {
            return Some(i);
        }
    }
    None
}

/// Whether the offset of text word k of a block is not 0 for the block's first, not above the one
/// before for another, or past the block.
#[tactic(auto, unfolding(crate::specs::Checks::is_offset_wrong))]
fn is_offset_wrong(bytes: &[u8], h: &Header, block: u32, k: u32) -> bool
    requires header { IsHeader h.now (words_of bytes.now) }
    requires sizes { HasSizes (words_of bytes.now) }
    requires block { block < h.now.blocks }
    requires within { k < h.now.len }
    requires own { block_of (starts_of (words_of bytes.now)) k ≡ block }
    requires first { 0 < k ⊎ slice_index (starts_of (words_of bytes.now)) block ≡ k }
    ensures { let w = words_of bytes.now in
        result ≡ is_offset_wrong (starts_of w) (ends_of w) (offsets_of w) k }
{
    let offset = offset_at(bytes, h, k);
    let out_of_order = if start_at(bytes, h, block) == k {
        offset != 0
    } else {
        offset <= offset_at(bytes, h, k - 1)
    };
    let length = end_at(bytes, h, block).saturating_sub(begin_at(bytes, h, block));
    out_of_order || offset as usize >= length
}

/// The block of text word k, where the word before is of `block` (or k is 0).
#[tactic(auto, using(crate::proofs::Counting::counted))]
fn next_block(bytes: &[u8], h: &Header, block: u32, k: u32) -> u32
    requires header { IsHeader h.now (words_of bytes.now) }
    requires sizes { HasSizes (words_of bytes.now) }
    requires block { block < h.now.blocks }
    requires starts { StartsRight (len_of (words_of bytes.now)) (starts_of (words_of bytes.now)) }
    requires low { slice_index (starts_of (words_of bytes.now)) block ≤ k }
    requires high { block + 1 < h.now.blocks → k ≤ slice_index (starts_of (words_of bytes.now)) (block + 1) }
    ensures own { block_of (starts_of (words_of bytes.now)) k ≡ result }
    ensures within { result < h.now.blocks }
    ensures low { slice_index (starts_of (words_of bytes.now)) result ≤ k }
    ensures high { result + 1 < h.now.blocks → k < slice_index (starts_of (words_of bytes.now)) (result + 1) }
{
    if block + 1 < h.blocks && start_at(bytes, h, block + 1) == k {
        block + 1
    } else {
        block
    }
}

/// The first offset that is wrong.
#[tactic(auto, using(crate::proofs::Reading::first_steps, crate::proofs::Counting::first_is))]
fn first_wrong_offset(bytes: &[u8], h: &Header) -> Option<u32>
    requires header { IsHeader h.now (words_of bytes.now) }
    requires sizes { HasSizes (words_of bytes.now) }
    requires starts { StartsRight (len_of (words_of bytes.now)) (starts_of (words_of bytes.now)) }
    ensures first { result ≡ first_wrong_offset (words_of bytes.now) }
    ensures within { IfSome result (λ k. k < h.now.len) }
{
    let mut block = 0;
    for k in 0..h.len {
        block = next_block(bytes, h, block, k);
        if is_offset_wrong(bytes, h, block, k) {
            return Some(k);
        }
    }
    None
}

/// The first check of the tables that fails.
#[tactic(auto, unfolding(crate::specs::Checks::tables_refusal), using(crate::proofs::Accepted::passing))]
pub(crate) fn tables_refusal(bytes: &[u8], h: &Header) -> Option<ImageRefusal>
    requires header { IsHeader h.now (words_of bytes.now) }
    requires sizes { HasSizes (words_of bytes.now) }
    ensures { result ≡ tables_refusal (words_of bytes.now) }
{
    if let Some(i) = first_wrong_start(bytes, h) {
        return Some(ImageRefusal::Table(6 + i));
    }
    if h.version == 2 {
        if let Some(i) = first_wrong_end(bytes, h) {
            return Some(ImageRefusal::Lengths(6 + h.blocks + i));
        }
    }
    if let Some(k) = first_wrong_offset(bytes, h) {
        return Some(ImageRefusal::Offsets(h.offsets as u32 + k));
    }
    None
}
