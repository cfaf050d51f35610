//! Where the heap and the stack of a program lie.
#![tactic(auto)]

ghost use Rattle.std.specs.Prelude.{◌≡◌, ◌+◌, ◌%◌, ◌^◌, ◌≤◌, IfOk};
ghost use Rattle.swi_program.specs.Layout.{laid_out, highest_end, IsLayoutOf, IsRoomy};

use crate::programs::Program;
use swi_memory::{Layout, Segment};

/// The stack of a program does not end within 2^32 bytes of memory.
#[derive(Clone, Copy, PartialEq, Eq, Debug)]
pub struct Room {
    /// The address past the stack's last byte.
    pub end: u64,
}

/// The highest address past a segment.
#[tactic(auto, using(crate::proofs::Ends::end_steps))]
fn highest_end(segments: &[Segment<'_>]) -> u64
    ensures highest { result ≡ highest_end segments.now }
    ensures small { result ≤ 2 ^ 32 }
{
    let mut highest = 0;
    for segment in segments {
        let end = u64::from(segment.base()) + u64::from(segment.size());
        highest = highest.max(end);
    }
    highest
}

/// The layout above these segments.
#[tactic(auto, unfolding(crate::specs::Layout::laid_out))]
fn place(segments: &[Segment<'_>], heap: u32, stack: u32) -> Result<Layout, Room>
    requires heap_range { heap ≤ 2 ^ 26 }
    requires stack_least { 4096 ≤ stack }
    requires stack_most { stack ≤ 2 ^ 24 }
    ensures layout { result ≡ laid_out segments.now heap stack }
    ensures own { IfOk result (IsLayoutOf segments.now) }
{
    let start = highest_end(segments);
    let stack_start = (start + u64::from(heap)).div_ceil(4096) * 4096 + 4096;
    let end = stack_start + u64::from(stack);
    if end > 1 << 32 {
        return Err(Room { end });
    }
    Ok(Layout {
        heap: start as u32,
        heap_len: heap,
        stack: stack_start as u32,
        stack_len: stack,
        sp: ((end - 64) / 16 * 16) as u32,
    })
}

/// The layout of a program with a heap and a stack of these lengths in bytes.
///
/// The heap begins at the highest segment's end and has at most 67108864 bytes. The stack begins
/// 4096 bytes after the heap's end rounded up to a multiple of 4096, and has 4096 to 16777216 bytes,
/// a multiple of 16. The stack pointer is 64 below the stack's end, rounded down to a multiple of
/// 16. The refusal comes exactly where the stack's end passes 2^32.
///
/// Own rule, but for the stack pointer's 16 (RISC-V ELF psABI, "Integer Calling Convention").
pub fn lay_out(p: &Program<'_>, heap: u32, stack: u32) -> Result<Layout, Room>
    requires heap_range { heap ≤ 2 ^ 26 }
    requires stack_least { 4096 ≤ stack }
    requires stack_most { stack ≤ 2 ^ 24 }
    requires stack_step { stack % 16 ≡ 0 }
    ensures layout { result ≡ laid_out p.now.segments heap stack }
    ensures own { IfOk result (IsLayoutOf p.now.segments) }
    ensures roomy { IfOk result (IsRoomy p.now.segments) }
{
    place(p.segments(), heap, stack)
}
