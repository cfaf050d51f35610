//! What is read off an accepted file.
#![tactic(auto)]

// Apart from the calls `kind` and `loaded`: names that differ only in case are refused in one module.

/// What a file is: a program alone, or one with a cache image.
#[derive(Clone, Copy, PartialEq, Eq, Debug)]
pub enum Kind {
    /// No program header is of the cache image's type.
    Original,
    /// A program header is (p_type 6C434953).
    Rewritten,
}

/// A segment that a run loads.
#[derive(Clone, Copy, PartialEq, Eq, Debug)]
pub struct Loaded<'a> {
    /// Its first address.
    pub base: u32,
    /// Its rights: 4 read, 2 write, 1 execute, added up.
    pub flags: u32,
    /// How many bytes it takes in memory.
    pub size: u32,
    /// The bytes at its front that the file has.
    pub bytes: &'a [u8],
}
