//! Where an image differs from what a text asks for.
#![tactic(auto)]

/// The first difference between an image and what a program's text asks of it, in the order of the
/// variants: Cover, then block by block Place, Long, Length, Word. Blocks and offsets count from 0.
#[derive(Clone, Copy, PartialEq, Eq, Debug)]
pub enum Mismatch {
    /// The image is of a text at another base, or of more or fewer words: the text's base, or the
    /// address behind the shorter of the two.
    Cover {
        address: u32,
    },
    /// The offset of the text word at the address is not the number of rendered words before it in
    /// its block.
    Place {
        address: u32,
        held: u32,
        required: u32,
    },
    /// The renderings of a block's text words and its exit are more words than a block may have.
    Long {
        block: u32,
        needs: u32,
    },
    /// A block of version 2 has more or fewer words than the renderings of its text words and its
    /// exit.
    Length {
        block: u32,
        held: u32,
        required: u32,
    },
    /// A word of a block is not the one that is rendered there; behind a block's exit it is not 0.
    Word {
        block: u32,
        offset: u32,
        held: u32,
        required: u32,
    },
}
