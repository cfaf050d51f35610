//! Laws of schedules, which follow from their definitions.
#![tactic(auto)]

ghost use Rattle.swi_prefetch.specs.Laws.{BeginsWritten, BoardApart, KeepsFetched, StandsInSteps, StaysApart, StaysFew, StaysWritten};

/// Laws of what [`Prefetch`](crate::Prefetch) does, whatever its events are and in whatever order; it does nothing.
///
/// The flat machine stands at some of its steps over the fixed text, and the machine instructions are what those cost.
/// The words set are those that service and engine copied, the links, and those undone; no word fetched is taken back.
/// No placed block stands in the slot that has a copy. Between any two events the machine instructions are at most three
/// for each original step, and three.
pub fn laws_of_prefetch()
    ensures stands { StandsInSteps }
    ensures begins_written { BeginsWritten }
    ensures stays_written { StaysWritten }
    ensures keeps_fetched { KeepsFetched }
    ensures stays_apart { StaysApart }
    ensures board_apart { BoardApart }
    ensures few { StaysFew }
{}
