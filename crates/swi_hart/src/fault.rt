//! What stops a step.
#![tactic(auto)]

ghost use Rattle.std.specs.Prelude.{◌≡◌};
ghost use Rattle.swi_hart.specs.Faults.{fault_of};

use swi_calls::CallFault;

/// A device that failed in a step.
#[derive(Clone, Copy, Debug, PartialEq, Eq)]
pub enum BoardFault {
    RamFault,
    SourceFault,
    SinkFault,
}

/// The same fault of a system call.
pub(crate) fn fault_of(fault: CallFault) -> BoardFault
    ensures { result ≡ fault_of fault }
{
    match fault {
        CallFault::SourceFault => BoardFault::SourceFault,
        CallFault::SinkFault => BoardFault::SinkFault,
    }
}
