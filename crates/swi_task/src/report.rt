//! What is told of a run when it is over.
#![tactic(auto)]

ghost use Rattle.std.specs.Prelude.{◌≡◌, OnErr, []};
ghost use Rattle.std.specs.Option.{option_copied};
ghost use Rattle.swi_outside.specs.Causes.{HasCause};
ghost use Rattle.swi_outside.specs.Sink.{WritesPiece};
ghost use Rattle.swi_task.specs.Runs.{ending_by, refusal_of, report_of};

use swi_answer::{Ending, Refusal};
use swi_calls::End;
use swi_command::Reports;
use swi_hart::BoardFault;
use swi_outside::{Failed, Sink};
use swi_report::{FinalState, Work, state_text, stats_text};

/// How a run ended that stands at this pc after so many steps: as its program did, or, where that has not ended, with its
/// steps spent.
pub fn ending_by(end: Option<End>, pc: u32, steps: u64) -> Ending
    ensures { result ≡ ending_by end pc steps }
{
    match end {
        None => Ending::Spent(steps, pc),
        Some(End::Exited(code)) => Ending::Exited(code, steps),
        Some(End::Faulted(kind, address)) => Ending::Faulted(kind, pc, address, steps),
        Some(End::StoreText(address)) => Ending::StoreText(pc, address, steps),
    }
}

/// What a run is refused with in which a device failed so.
pub fn refusal_of(fault: BoardFault) -> Refusal
    ensures { result ≡ refusal_of fault }
{
    match fault {
        BoardFault::RamFault => Refusal::RamFault,
        BoardFault::SourceFault => Refusal::SourceFault,
        BoardFault::SinkFault => Refusal::SinkFault,
    }
}

/// Writes what is told of a run when it is over, as far as it is asked for, to the output: the state (pc, registers, break and
/// memory), and then the counts, the steps first. A run on the flat machine has no counts but its steps.
///
/// Failed comes only where the output's count of faults rose, and only where something is to be written; the output then
/// holds a front of it.
#[tactic(auto, using(swi_outside::proofs::SinkLemmas::prefix_first, swi_outside::proofs::SinkLemmas::prefix_last, crate::proofs::Due::state_due, crate::proofs::Due::stats_due))]
pub fn write_report<O: Sink>(
    reports: &Reports,
    state: &FinalState<'_>,
    work: Option<&Work>,
    out: &mut O,
) -> Result<(), Failed>
    ensures bytes { WritesPiece (O.state out.old).held (O.state out.new).held result
        (report_of reports.now state.now.pc state.now.regs.now state.now.bus.now state.now.heap.now state.now.steps (option_copied work.entry)) }
    ensures cause { HasCause (O.state out.old).faults (O.state out.new).faults result }
    ensures asked { OnErr result
        (report_of reports.now state.now.pc state.now.regs.now state.now.bus.now state.now.heap.now state.now.steps (option_copied work.entry) ≡ [] → ⊥) }
{
    if reports.state {
        state_text(state, out)?;
    }
    if reports.stats {
        stats_text(state.steps, work, out)?;
    }
    Ok(())
}
