//! The words of one block.
#![tactic(auto)]

ghost use Rattle.std.specs.Prelude.{◌≡◌, ◌<◌, ◌^◌, length, slice_index};
ghost use Rattle.swi_image.specs.Words.{words_of};

use crate::checks::word_inside;
use std::marker::Model;
use swi_outside::Words;

/// The words of a block, which stay in the bytes of the image: where the block stands is looked up once, and a word is then
/// one read. Contracts see them as a list.
#[derive(Drop)]
pub struct Block<'a> {
    bytes: &'a [u8],
}

impl<'a> Model for Block<'a> {
    ghost use Rattle.std.specs.Prelude.{◌<◌, ◌^◌, List, ℕ, length};
    ghost use Rattle.swi_image.specs.Words.{words_of};

    ghost Value = { List ℕ };

    ghost view = { λ b. words_of b.bytes.now };

    ghost invariant = { λ b. length b.bytes.now < 2 ^ 34 };
}

impl<'a> Block<'a> {
    /// The block whose words these bytes are.
    #[inline]
    pub(crate) fn of(bytes: &'a [u8]) -> Block<'a>
        requires { length bytes.now < 2 ^ 34 }
        ensures { result ≡ words_of bytes.now }
    {
        Block { bytes }
    }

    /// The word at an offset, which is below the block's length.
    #[inline]
    pub fn word(&self, offset: u32) -> u32
        requires { offset < length self.now }
        ensures { result ≡ slice_index self.now offset }
    {
        word_inside(self.bytes, offset as usize)
    }
}

impl<'a> Words for Block<'a> {
    ghost items = { λ b. b };

    #[inline]
    #[tactic(auto, using(crate::proofs::Reading::length_words))]
    fn count(&self) -> u32 {
        (self.bytes.len() / 4) as u32
    }

    #[inline(always)]
    fn word(&self, k: u32) -> u32 {
        word_inside(self.bytes, k as usize)
    }
}
