//! Where the heap and the stack of a program lie.
#![tactic(auto)]

/// The two regions that a program gets beside its segments, both of zero bytes at the start, which
/// can be read and written. Addresses and lengths are in bytes.
#[derive(Clone, Copy, PartialEq, Eq, Debug)]
pub struct Layout {
    /// The heap's first address.
    pub heap: u32,
    /// The heap's length, which may be 0.
    pub heap_len: u32,
    /// The stack's first address.
    pub stack: u32,
    /// The stack's length.
    pub stack_len: u32,
    /// The stack pointer at the start: by `lay_out` a multiple of 16.
    pub sp: u32,
}
