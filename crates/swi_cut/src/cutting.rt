//! The ways to cut a text.
#![tactic(auto)]

/// Where the blocks of a text end.
#[derive(Clone, Copy, PartialEq, Eq, Debug)]
pub enum Cutting {
    /// Each block but the last has as many text words as fit.
    Greedy,
    /// The same, but LR.W and its SC.W stand in one block where a block has room for them: one that
    /// would end between the two ends before the LR.W.
    WholeLoops,
}
