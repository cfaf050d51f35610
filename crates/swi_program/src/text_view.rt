//! The instruction words of a program.
#![tactic(auto)]

ghost use Rattle.std.specs.Prelude.{◌≡◌, ◌+◌, ◌-◌, ◌*◌, ◌/◌, ◌%◌, ◌^◌, ◌≤◌, ◌<◌, length, take, drop, Some, slice_index};
ghost use Rattle.byteorder.specs.Endian.{little_number};
ghost use Rattle.swi_program.specs.Text.{text_in, HasText, IsSized};

use byteorder::{ByteOrder, LittleEndian};
use std::marker::Model;
use swi_memory::Segment;

/// The text of a program: the address of its first instruction word, and the words. Contracts see
/// it as these two.
#[derive(Drop)]
pub struct TextView<'a> {
    base: u32,
    bytes: &'a [u8],
}

impl<'a> Model for TextView<'a> {
    ghost use Rattle.swi_program.specs.Text.{TextData};

    ghost Value = { TextData };

    ghost use Rattle.swi_program.specs.Viewed.{seen, IsWhole};

    ghost view = { λ t. seen t.base t.bytes.now };

    ghost invariant = { λ t. IsWhole t.base t.bytes.now };
}

impl<'a> TextView<'a> {
    /// The address of the first instruction word: a multiple of 4.
    #[tactic(auto, using(crate::proofs::Words::word_views))]
    pub fn base(&self) -> u32
        ensures value { result ≡ self.now.base }
        ensures aligned { result % 4 ≡ 0 }
        ensures end { result + 4 * length self.now.words ≤ 2 ^ 32 }
    {
        self.base
    }

    /// How many instruction words there are: 1 to 2^19.
    #[tactic(auto, using(crate::proofs::Words::word_views))]
    pub fn len(&self) -> u32
        ensures value { result ≡ length self.now.words }
        ensures some { 0 < result }
        ensures few { result ≤ 2 ^ 19 }
    {
        (self.bytes.len() / 4) as u32
    }

    /// The k-th instruction word: k counts from 0 and is below `len()`.
    #[tactic(auto, using(crate::proofs::Words::word_views))]
    pub fn word(&self, k: u32) -> u32
        requires { k < length self.now.words }
        ensures { result ≡ slice_index self.now.words k }
    {
        word_at(self.bytes, 4 * k as usize)
    }
}

/// The number of the four bytes from a place on, the lowest first.
fn word_at(bytes: &[u8], at: usize) -> u32
    requires { at + 4 ≤ length bytes.now }
    ensures { result ≡ little_number 4 (drop at bytes.now) }
{
    LittleEndian::read_u32(&bytes[at..])
}

/// The whole words behind the first bytes.
fn whole_words(bytes: &[u8], skipped: usize) -> &[u8]
    requires { skipped ≤ length bytes.now }
    ensures { result.now ≡ take ((length bytes.now - skipped) / 4 * 4) (drop skipped bytes.now) }
{
    let rest = &bytes[skipped..];
    &rest[..rest.len() / 4 * 4]
}

/// The text of an executable segment.
pub(crate) fn text_of<'a>(segment: &Segment<'a>) -> TextView<'a>
    requires { HasText segment.now }
    ensures value { result ≡ text_in (Some segment.now) }
    ensures sized { IsSized (text_in (Some segment.now)) }
{
    let first = segment.base();
    let base = (first + 3) / 4 * 4;
    let bytes = whole_words(segment.bytes(), (base - first) as usize);
    TextView { base, bytes }
}
