//! What a guest asks for by a system call, and how the call goes on.
#![tactic(auto)]

ghost use Rattle.std.specs.Prelude.{◌≡◌};
ghost use Rattle.swi_calls.specs.Call.{request_of};

use swi_exec::{A0, A1, A2, A7, Regs};
use swi_isa::Reg;

/// A call's number and its arguments.
#[derive(Clone, Copy)]
pub(crate) struct Request {
    /// The number, in a7.
    pub(crate) number: u32,
    /// The argument in a0.
    pub(crate) first: u32,
    /// The argument in a1.
    pub(crate) second: u32,
    /// The argument in a2.
    pub(crate) third: u32,
}

/// How a call that was served goes on.
#[derive(Clone, Copy)]
pub(crate) enum Called {
    /// It returns to the guest with this answer.
    Returned(u32),
    /// It ends the run with this code.
    Exited(u32),
}

impl Request {
    /// The request that stands in the registers.
    pub(crate) fn of(regs: &Regs) -> Request
        ensures { result ≡ request_of regs.now }
    {
        Request {
            number: regs.get(Reg::of(A7)),
            first: regs.get(Reg::of(A0)),
            second: regs.get(Reg::of(A1)),
            third: regs.get(Reg::of(A2)),
        }
    }
}
