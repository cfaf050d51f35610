//! Why bytes are not an image.
#![tactic(auto)]

/// The first check that an image fails, in the order in which they are made. Each carries one
/// number; words are counted from 0. Source: own format.
#[derive(Clone, Copy, PartialEq, Eq, Debug)]
pub enum ImageRefusal {
    /// Word 0 is not `SIC1`. Carries 0.
    Magic(u32),
    /// The version is neither 1 nor 2. Carries 1.
    Version(u32),
    /// The most words of a block are not 2 to 1024. Carries 2.
    BlockSize(u32),
    /// There are not 1 to 2^19 text words, not 1 to as many blocks, or not just the bytes that the
    /// image's numbers ask for. Carries how many whole words there are.
    Length(u32),
    /// The first start is not 0, or a start is not above the one before or not below the number of
    /// text words. Carries the index of the first such start's word.
    Table(u32),
    /// Of version 2: a block has no word or more than the most. Carries the index of the first such
    /// end's word.
    Lengths(u32),
    /// The offset of a block's first text word is not 0, another is not above the one before, or one
    /// is not below its block's length. Carries the index of the first such offset's word.
    Offsets(u32),
}
