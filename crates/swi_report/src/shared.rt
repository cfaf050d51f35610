//! The counts of programs that share a cache.

ghost use Rattle.swi_outside.specs.Sink.{WasWritten};
ghost use Rattle.swi_report.specs.Shared.{shared_text_of};

use crate::stats::write_counts;
use swi_outside::{Failed, Sink};

/// What programs that share a cache have done, all together.
#[derive(Clone, Copy, Debug, PartialEq, Eq)]
pub struct SharedWork {
    /// The machine instructions of all programs.
    pub instructions: u64,
    /// Blocks that were copied into the ram.
    pub misses: u64,
    /// Blocks that made room for another.
    pub evictions: u64,
    /// Exits that became jumps to their target's place.
    pub links: u64,
    /// Links that became exits again, since their target's block was evicted.
    pub unlinks: u64,
    /// The words that were written to the ram.
    pub writes: u64,
}

/// Writes the counts of programs that share a cache to the sink, a line each.
///
/// Failed only where the sink's count of faults rose; it then holds a front of the text.
#[tactic(auto, unfolding(crate::specs::Shared::shared_counts))]
pub fn shared_text<S: Sink>(work: &SharedWork, sink: &mut S) -> Result<(), Failed>
    ensures { WasWritten (S.state sink.old) (S.state sink.new) result (shared_text_of work.now) }
{
    let lines = [
        ("instructions", work.instructions),
        ("misses", work.misses),
        ("evictions", work.evictions),
        ("links", work.links),
        ("unlinks", work.unlinks),
        ("writes", work.writes),
    ];
    write_counts(&lines, sink)
}
