//! An access that is refused.
#![tactic(auto)]

/// A load or a store of bytes of which one lies past the last address, or in no area with the right
/// that it takes. Nothing changes then.
#[derive(Clone, Copy, PartialEq, Eq, Debug)]
pub struct Access;
