//! What a word of a block does.
#![tactic(auto)]

/// What the execution of a word of a block does.
#[derive(Clone, Copy, PartialEq, Eq, Debug)]
pub enum Part {
    /// A word of a text word's rendering that does not complete it yet.
    Lead,
    /// A word that completes its text word.
    Step,
    /// A branch's opposite, which skips the exit behind it where the branch is not taken.
    Skip,
    /// The exit of a jump or of a taken branch.
    Leave,
    /// The exit of a JALR.
    Indirect,
    /// A jump to an address that is not a multiple of 4.
    Misaligned,
    /// A trap: an EBREAK of the text, or a word that is no instruction.
    Trap,
    /// The exit to the text word behind the block.
    Fall,
    /// A word that is not executed: a descriptor, a link value, a zero behind the block's exit.
    Inert,
}
