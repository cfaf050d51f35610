//! The texts and the files that the tests run.

use std::alloc::Global;
use std::test::Fail;

/// A file with `SEVEN` in one segment at 0x10000, by hand from the ELF document.
pub const PLAIN: [u32; 24] = [
    0x464C457F, 0x00010101, 0, 0, 0x00F30002, 1, 0x00010000, 52, 0, 0, 0x00200034, 1, 0, 1, 0x54,
    0x00010000, 0x00010000, 12, 12, 5, 4, 0x05D00893, 0x00700513, 0x00000073,
];

/// As `PLAIN`, with the segment's header twice.
pub const DOUBLE: [u32; 32] = [
    0x464C457F, 0x00010101, 0, 0, 0x00F30002, 1, 0x00010000, 52, 0, 0, 0x00200034, 2, 0, 1, 0x74,
    0x00010000, 0x00010000, 12, 12, 5, 4, 1, 0x74, 0x00010000, 0x00010000, 12, 12, 5, 4,
    0x05D00893, 0x00700513, 0x00000073,
];

/// A file that jumps by a table in its text to a routine, which writes `hi` from there. It has a second
/// segment with a zeroed tail.
pub const TABLE: [u32; 65] = [
    0x464C457F, 0x00010101, 0, 0, 0x00F30002, 1, 0x000100B4, 52, 0, 0, 0x00200034, 4, 0,
    0x70000003, 0, 0, 0, 0, 0, 4, 1, 1, 0, 0x00010000, 0x00010000, 256, 256, 5, 4096, 1, 256,
    0x00011100, 0x00011100, 4, 64, 6, 4096, 0x6474E551, 0, 0, 0, 0, 0, 6, 16, 0x00400313,
    0x000102B7, 0x006282B3, 0x0F42A283, 0x00028067, 0x00100513, 0x05D00893, 0x00000073, 0x00100513,
    0x000105B7, 0x0FC58593, 0x00300613, 0x04000893, 0x00000073, 0x00000513, 0xFDDFF06F, 0x000100C8,
    0x000100D4, 0x000A6968, 1,
];

/// Exits with 7.
pub const SEVEN: &[u32] = &[0x05D00893, 0x00700513, 0x00000073];

/// Counts from 3 down to 0, and exits with 0.
pub const COUNT: &[u32] = &[0x00300293, 0xFFF28293, 0xFE029EE3, 0x05D00893, 0x00000073];

/// The state after four steps of `COUNT`.
pub const STATE_AFTER_4: &str =
    "pc 00010008\nx0 00000000\nx1 00000000\nx2 00121fc0\nx3 00000000\nx4 00000000\nx5 00000001\n\
    x6 00000000\nx7 00000000\nx8 00000000\nx9 00000000\nx10 00000000\nx11 00000000\n\
    x12 00000000\nx13 00000000\nx14 00000000\nx15 00000000\nx16 00000000\nx17 00000000\n\
    x18 00000000\nx19 00000000\nx20 00000000\nx21 00000000\nx22 00000000\nx23 00000000\n\
    x24 00000000\nx25 00000000\nx26 00000000\nx27 00000000\nx28 00000000\nx29 00000000\n\
    x30 00000000\nx31 00000000\nbreak 00010014\n";

/// Jumps over one word, over one more, and back to the first.
pub const ROUND: &[u32] = &[0x0040006F, 0x0040006F, 0xFF9FF06F];

/// Calls a routine that exits with the address behind the call.
pub const CALL: &[u32] = &[
    0x00000097, 0x00C080E7, 0x00000000, 0x05D00893, 0x00008513, 0x00000073,
];

/// Jumps to 0x20000, beside the text.
pub const BESIDE: &[u32] = &[0x000202B7, 0x000280E7];

/// Stores 0 at the text's first word, and exits with 0.
pub const STORE: &[u32] = &[0x00000297, 0x0002A023, 0x05D00893, 0x00000073];

/// Swaps the text's first word with 0.
pub const SWAP: &[u32] = &[0x00000297, 0x08A2A52F];

/// Reads up to 16 bytes of the input to the stack, writes them to the output, and exits with 0.
pub const ECHO: &[u32] = &[
    0x03F00893, 0x00000513, 0x00010593, 0x01000613, 0x00000073, 0x00050613, 0x00100513, 0x04000893,
    0x00000073, 0x00000513, 0x05D00893, 0x00000073,
];

/// As `ECHO`, of up to 1000 bytes.
pub const LONG_ECHO: &[u32] = &[
    0x03F00893, 0x00000513, 0xC0010593, 0x3E800613, 0x00000073, 0x00050613, 0x00100513, 0x04000893,
    0x00000073, 0x00000513, 0x05D00893, 0x00000073,
];

/// `PLAIN` rewritten with blocks of 8 words, in version 1.
pub const FIRST: [u32; 50] = [
    0x464C457F, 0x00010101, 0, 0, 0x00F30002, 1, 0x00010000, 52, 0, 0, 0x00200034, 2, 0, 1, 0x74,
    0x00010000, 0x00010000, 12, 12, 5, 1, 0x6C434953, 0x80, 0, 0, 72, 72, 4, 4, 0x05D00893,
    0x00700513, 0x00000073, 0x31434953, 1, 8, 1, 3, 0x00010000, 0, 0, 1, 2, 0x05D00893, 0x00700513,
    0x00000073, 0x00100073, 0x0001000C, 0, 0, 0,
];

/// The same in version 2.
pub const SECOND: [u32; 48] = [
    0x464C457F, 0x00010101, 0, 0, 0x00F30002, 1, 0x00010000, 52, 0, 0, 0x00200034, 2, 0, 1, 0x74,
    0x00010000, 0x00010000, 12, 12, 5, 1, 0x6C434953, 0x80, 0, 0, 64, 64, 4, 4, 0x05D00893,
    0x00700513, 0x00000073, 0x31434953, 2, 8, 1, 3, 0x00010000, 0, 5, 0, 1, 2, 0x05D00893,
    0x00700513, 0x00000073, 0x00100073, 0x0001000C,
];

/// A word that no image has at most of its places.
pub const NONE: u32 = 0xFFFF_FFFF;

pub const USAGE: &str =
    "usage: swic rewrite, cached, plain, trace, list, check, measure, upgrade, share, prefetch, survey, profile\n";

/// The names of the counts, in their order.
const COUNTS: [&str; 9] = [
    "steps",
    "instructions",
    "services",
    "misses",
    "evictions",
    "links",
    "unlinks",
    "fetches",
    "writes",
];

/// The lines of these counts, behind a text.
pub fn with_counts(alloc: Global, text: &str, counts: &[u64; 9]) -> Result<String, Fail> {
    let mut lines = String::from_str(alloc, text)?;
    for (name, count) in COUNTS.iter().zip(counts.iter()) {
        lines.push_str(&format!(in alloc; "{name} {count}\n")?)?;
    }
    Ok(lines)
}

/// The bytes of a file of these words.
pub fn bytes_of(alloc: Global, words: &[u32]) -> Result<Vec<u8>, Fail> {
    let mut bytes = Vec::new(alloc);
    for word in words {
        bytes.extend_from_slice(word.to_le_bytes().as_slice())?;
    }
    Ok(bytes)
}

/// The same where one of the words is another.
pub fn bytes_with(alloc: Global, words: &[u32], at: usize, word: u32) -> Result<Vec<u8>, Fail> {
    let mut words = Vec::from_slice(alloc, words)?;
    if let Some(place) = words.get_mut(at) {
        *place = word;
    }
    bytes_of(alloc, &words)
}

/// A file of one segment with this text and these rights at this address, where its run begins.
pub fn file_of(alloc: Global, text: &[u32], rights: u32, base: u32) -> Result<Vec<u8>, Fail> {
    if text.len() > 60 {
        return Err(Fail::from("too many words for a test"));
    }
    let size = 4 * text.len() as u32;
    let segment = [base, base, size, size, rights, 4];
    let words = [&PLAIN[..6], &[base], &PLAIN[7..15], &segment, text].concat(alloc)?;
    bytes_of(alloc, &words)
}
