//! Windows: banks in which an access is looked for first.
#![tactic(auto)]

ghost use Rattle.std.specs.Prelude.{◌+◌, ◌≤◌, ◌^◌};

/// A bank by its place, which can be read and written and of which no byte is a text word's: the `starts` addresses from
/// `base` on are those at which four bytes of it begin. Where there is no such bank, `starts` is 0.
// One bound for accesses of all sizes, so that none adds its size to its address. The last three addresses are left out.
#[derive(Clone, Copy)]
pub struct Window {
    pub base: u32,
    pub starts: u32,
    pub bank: usize,
    ghost end: { base + starts ≤ 2 ^ 32 },
}

/// The last window of the banks, as a rule the stack, and the first, as a rule the data segment. One may be both.
#[derive(Clone, Copy)]
pub struct Windows {
    pub last: Window,
    pub first: Window,
}
