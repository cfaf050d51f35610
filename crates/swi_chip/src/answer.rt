//! What a call answers: the address at which the program goes on, a multiple of 4; or why there is none.
#![tactic(auto)]

/// The target is no text word.
pub const NO_TEXT: u32 = 1;
/// Eight links were undone, and there are more: the caller may let an interrupt in, and makes the same call again.
pub const AGAIN: u32 = 2;
/// The address is none of the cache.
pub const DAMAGED: u32 = 3;
/// The target is no multiple of 4.
pub const MISALIGNED: u32 = 5;
