//! A line of text, made without memory.
#![tactic(auto)]

ghost use Rattle.std.specs.Prelude.{◌≡◌, ◌+◌, ◌≤◌, ◌++◌, [], decimal, length};
ghost use Rattle.swi_line.specs.Hex.{hex_byte, hex_word};

use arrayvec::ArrayVec;
use std::marker::Model;

/// The most bytes that a line holds.
pub const LINE_ROOM: usize = 128;

/// A line of text, which is written in parts. It takes no memory.
#[derive(Drop)]
pub struct Line {
    bytes: ArrayVec<u8, LINE_ROOM>,
}

impl Model for Line {
    ghost use Rattle.std.specs.Prelude.{List, ℕ};

    ghost Value = { List ℕ };

    ghost view = { λ l. l.bytes.items };
}

impl Line {
    /// An empty line.
    pub fn new() -> Line
        ensures { result ≡ [] }
    {
        Line {
            bytes: ArrayVec::new(),
        }
    }

    /// The bytes so far.
    pub fn as_bytes(&self) -> &[u8]
        ensures { result.now ≡ self.now }
    {
        self.bytes.as_slice()
    }

    /// Appends a text, for which there must be room.
    pub fn push_text(&mut self, text: &str)
        requires { length self.old + length text.now ≤ LINE_ROOM }
        ensures bytes { self.new ≡ self.old ++ text.now }
        ensures size { length self.new ≡ length self.old + length text.now }
    {
        // there is room, so this doesn't fail
        let _ = self.bytes.try_extend_from_slice(text.as_bytes());
    }

    /// Appends a number in decimal digits, at most 20 of them, for which there must be room.
    pub fn push_decimal(&mut self, number: u64)
        requires { length self.old + 20 ≤ LINE_ROOM }
        ensures bytes { self.new ≡ self.old ++ decimal number }
        ensures size { length self.new ≤ length self.old + 20 }
    {
        let mut buffer = itoa::Buffer::new();
        // there is room, so this doesn't fail
        let _ = self
            .bytes
            .try_extend_from_slice(buffer.format(number).as_bytes());
    }

    /// Appends a word in eight lower-case hexadecimal digits, the highest first, for which there must be room.
    pub fn push_hex_word(&mut self, word: u32)
        requires { length self.old + 8 ≤ LINE_ROOM }
        ensures bytes { self.new ≡ self.old ++ hex_word word }
        ensures size { length self.new ≡ length self.old + 8 }
    {
        let mut digits = [0u8; 8];
        let bytes = word.to_be_bytes();
        // eight digits for four bytes, and room for them, so neither fails
        let _ = hex::encode_to_slice(&bytes, &mut digits);
        let _ = self.bytes.try_extend_from_slice(&digits);
    }
    /// Appends a byte in two lower-case hexadecimal digits, the highest first, for which there must be room.
    pub fn push_hex_byte(&mut self, byte: u8)
        requires { length self.old + 2 ≤ LINE_ROOM }
        ensures bytes { self.new ≡ self.old ++ hex_byte byte }
        ensures size { length self.new ≡ length self.old + 2 }
    {
        let mut digits = [0u8; 2];
        // two digits for a byte, and room for them, so neither fails
        let _ = hex::encode_to_slice(&[byte], &mut digits);
        let _ = self.bytes.try_extend_from_slice(&digits);
    }
}
