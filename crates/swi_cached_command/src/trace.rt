//! The lines of a run's last steps.
#![tactic(auto)]

ghost use Rattle.std.specs.Prelude.{◌≡◌, OnErr, [], slice_get};
ghost use Rattle.swi_outside.specs.Causes.{HasCause};
ghost use Rattle.swi_outside.specs.Sink.{WritesPiece};
ghost use Rattle.swi_cached.specs.Told.{lines_at};
ghost use Rattle.swi_cached_command.specs.RunCached.{addresses_in, last_told, one_of};

use swi_line::Trace;
use swi_memory::Bus;
use swi_outside::{Failed, Sink};
use swi_trace::{History, trace_line};

/// Writes the line of the step at one of a history's addresses.
fn write_step<E: Sink>(history: &History, k: u32, bus: &Bus, err: &mut E) -> Result<(), Failed>
    ensures bytes { WritesPiece (E.state err.old).held (E.state err.new).held result
        (lines_at bus.now (one_of (slice_get history.now k))) }
    ensures cause { HasCause (E.state err.old).faults (E.state err.new).faults result }
{
    match history.get(k) {
        Some(a) => err.write(trace_line(a, bus.fetch(a)).as_bytes()),
        None => Ok(()),
    }
}

/// Writes the lines of the steps at a history's addresses.
#[tactic(auto, using(crate::proofs::Tracing::lines_due))]
fn write_history<E: Sink>(history: &History, bus: &Bus, err: &mut E) -> Result<(), Failed>
    ensures bytes { WritesPiece (E.state err.old).held (E.state err.new).held result (lines_at bus.now history.now) }
    ensures cause { HasCause (E.state err.old).faults (E.state err.new).faults result }
    ensures asked { OnErr result (lines_at bus.now history.now ≡ [] → ⊥) }
{
    for k in 0..history.len() {
        if write_step(history, k, bus, err).is_err() {
            return Err(Failed);
        }
    }
    Ok(())
}

/// The same where the last steps are to be told.
pub(crate) fn write_last<E: Sink>(
    trace: Trace,
    history: &Option<History>,
    bus: &Bus,
    err: &mut E,
) -> Result<(), Failed>
    ensures bytes { WritesPiece (E.state err.old).held (E.state err.new).held result
        (last_told trace bus.now (addresses_in history.now)) }
    ensures cause { HasCause (E.state err.old).faults (E.state err.new).faults result }
    ensures asked { OnErr result (last_told trace bus.now (addresses_in history.now) ≡ [] → ⊥) }
{
    match trace {
        Trace::Last => match history {
            Some(history) => write_history(history, bus, err),
            None => Ok(()),
        },
        Trace::Off | Trace::Each => Ok(()),
    }
}
