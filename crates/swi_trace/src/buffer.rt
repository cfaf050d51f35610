//! A line of text whose parts are put in place without a call.
#![tactic(auto)]

ghost use Rattle.std.specs.Prelude.{◌≡◌, ◌+◌, ◌≤◌, ◌<◌, ◌++◌, [], ◌∷◌, length, take};
ghost use Rattle.std.specs.Int.{w32, to_le_bytes};
ghost use Rattle.swi_line.specs.Hex.{hex_byte, hex_word};

use crate::digits::hex_pair;
use std::marker::Model;

/// The most bytes that a line holds.
pub(crate) const LINE_ROOM: usize = 96;

/// A line of text, which is written in parts. It takes no memory. A part that is known where the line is written is
/// stored by one or two of the computer's instructions, where a call of `swi_line::Line` and its copy take some 35.
#[derive(Drop)]
pub struct LineBuffer {
    bytes: [u8; LINE_ROOM],
    used: usize,
}

impl Model for LineBuffer {
    ghost use Rattle.std.specs.Prelude.{List, ℕ, ◌≤◌, take};

    ghost Value = { List ℕ };

    ghost view = { λ l. take l.used l.bytes };

    ghost invariant = { λ l. l.used ≤ 96 };
}

/// Puts a part from a place on.
#[inline(always)]
fn put(bytes: &mut [u8], at: usize, part: &[u8])
    requires { at + length part.now ≤ length bytes.old }
    ensures front { take (at + length part.now) bytes.new ≡ take at bytes.old ++ part.now }
    ensures size { length bytes.new ≡ length bytes.old }
{
    bytes[at..at + part.len()].copy_from_slice(part);
}

impl LineBuffer {
    /// An empty line.
    #[inline(always)]
    pub(crate) fn new() -> LineBuffer
        ensures { result ≡ [] }
    {
        LineBuffer {
            bytes: [0; LINE_ROOM],
            used: 0,
        }
    }

    /// The bytes so far.
    pub fn as_bytes(&self) -> &[u8]
        ensures { result.now ≡ self.now }
    {
        &self.bytes[..self.used]
    }

    /// Appends a text, for which there must be room.
    #[inline(always)]
    pub(crate) fn push_text(&mut self, text: &str)
        requires { length self.old + length text.now ≤ LINE_ROOM }
        ensures bytes { self.new ≡ self.old ++ text.now }
        ensures size { length self.new ≡ length self.old + length text.now }
    {
        put(&mut self.bytes, self.used, text.as_bytes());
        self.used += text.len();
    }

    /// Appends the first bytes of a number, the lowest first. There must be room for all four.
    #[inline(always)]
    pub(crate) fn push_front(&mut self, bytes: u32, count: usize)
        requires room { length self.old + 4 ≤ LINE_ROOM }
        requires count { count ≤ 4 }
        ensures bytes { self.new ≡ self.old ++ take count (to_le_bytes w32 bytes) }
        ensures size { length self.new ≡ length self.old + count }
    {
        put(&mut self.bytes, self.used, &bytes.to_le_bytes());
        self.used += count;
    }

    /// Appends a byte, for which there must be room.
    #[inline(always)]
    pub(crate) fn push_byte(&mut self, byte: u8)
        requires { length self.old < LINE_ROOM }
        ensures bytes { self.new ≡ self.old ++ byte ∷ [] }
        ensures size { length self.new ≡ length self.old + 1 }
    {
        put(&mut self.bytes, self.used, &[byte]);
        self.used += 1;
    }

    /// Appends a byte in two lower-case hexadecimal digits, the highest first, for which there must be room.
    #[inline(always)]
    fn push_pair(&mut self, byte: u8)
        requires { length self.old + 2 ≤ LINE_ROOM }
        ensures bytes { self.new ≡ self.old ++ hex_byte byte }
        ensures size { length self.new ≡ length self.old + 2 }
    {
        put(&mut self.bytes, self.used, hex_pair(byte));
        self.used += 2;
    }

    /// Appends a word in eight lower-case hexadecimal digits, the highest first, for which there must be room.
    #[inline(always)]
    #[tactic(auto, unfolding(hex::specs::Hex::encode_with))]
    pub(crate) fn push_hex_word(&mut self, word: u32)
        requires { length self.old + 8 ≤ LINE_ROOM }
        ensures bytes { self.new ≡ self.old ++ hex_word word }
        ensures size { length self.new ≡ length self.old + 8 }
    {
        let [a, b, c, d] = word.to_be_bytes();
        self.push_pair(a);
        self.push_pair(b);
        self.push_pair(c);
        self.push_pair(d);
    }
}
