//! The summary of a run of a program that was made from a number.

ghost use Rattle.swi_outside.specs.Sink.{WasWritten};
ghost use Rattle.swi_report.specs.Summary.{head_text, summary_text_of};

use crate::stats::{Work, stats_text, write_counts};
use swi_outside::{Failed, Sink};

/// A program that was made and has run to its exit.
#[derive(Clone, Copy, Debug, PartialEq, Eq)]
pub struct Measured {
    /// How many functions it has.
    pub functions: u32,
    /// How many words its text has.
    pub text: u32,
    /// How many blocks its text was cut into.
    pub blocks: u32,
    /// What it exited with.
    pub exit: u32,
}

/// Writes what the program is, and what it exited with.
#[tactic(auto, unfolding(crate::specs::Summary::head_counts))]
fn write_head<S: Sink>(measured: &Measured, sink: &mut S) -> Result<(), Failed>
    ensures { WasWritten (S.state sink.old) (S.state sink.new) result (head_text measured.now) }
{
    let lines = [
        ("functions", u64::from(measured.functions)),
        ("text", u64::from(measured.text)),
        ("blocks", u64::from(measured.blocks)),
        ("exit", u64::from(measured.exit)),
    ];
    write_counts(&lines, sink)
}

/// Writes the summary of a run on the cached machine to the sink, a line each: how many functions the
/// program has, the words of its text, the blocks that these were cut into, the number that it exited
/// with; then the counts of the run, as `stats_text` does.
///
/// Failed only where the sink's count of faults rose; it then holds a front of the text.
pub fn summary_text<S: Sink>(
    measured: &Measured,
    steps: u64,
    work: &Work,
    sink: &mut S,
) -> Result<(), Failed>
    ensures { WasWritten (S.state sink.old) (S.state sink.new) result
        (summary_text_of measured.now steps work.now) }
{
    write_head(measured, sink)?;
    stats_text(steps, Some(work), sink)
}
