//! A range of words.
#![tactic(auto)]

/// A range of words: so many from the address `from` on, a multiple of 4. None ends past 2^32.
#[derive(Clone, Copy, PartialEq, Eq, Debug)]
pub struct WordRange {
    pub from: u32,
    pub words: u32,
}
