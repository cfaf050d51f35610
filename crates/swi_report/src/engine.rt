//! The counts of a copy engine beside the cache's service.

ghost use Rattle.swi_outside.specs.Sink.{WasWritten};
ghost use Rattle.swi_report.specs.Engine.{engine_text_of};

use crate::stats::write_counts;
use swi_outside::{Failed, Sink};

/// What a copy engine has done beside the cache's service.
#[derive(Clone, Copy, Debug, PartialEq, Eq)]
pub struct EngineWork {
    /// The words that it wrote to copy.
    pub words: u64,
    /// The copies that it completed.
    pub copies: u64,
}

/// Writes the counts of a copy engine to the sink, a line each: the words that it wrote to copy, and the
/// copies that it completed.
///
/// Failed only where the sink's count of faults rose; it then holds a front of the text.
#[tactic(auto, unfolding(crate::specs::Engine::engine_counts))]
pub fn engine_text<S: Sink>(work: &EngineWork, sink: &mut S) -> Result<(), Failed>
    ensures { WasWritten (S.state sink.old) (S.state sink.new) result (engine_text_of work.now) }
{
    let lines = [("engine", work.words), ("prefetched", work.copies)];
    write_counts(&lines, sink)
}
