//! Laws of programs that share a cache, which follow from what [`Share`](crate::Share) answers.
#![tactic(auto)]

ghost use Rattle.swi_share.specs.Cuts.{AsksFew, CutsByRam, CutsBySink, EachFollows, FetchesWords};
ghost use Rattle.swi_share.specs.Pieces.{EachWritesAlone, IsSplit};

/// Laws of events and of schedules, for who reads their contracts; it does nothing.
///
/// What stands where a sink or the ram broke off an event is told in the words of that event. Each program stands where as
/// many steps of the flat machine lead as it had events, whatever the others did. What a schedule writes is what its events
/// write, in their order, and those of one program write what it writes alone. The words fetched are the machine
/// instructions that fetch one, and an event asks for three services at most.
pub fn laws_of_share()
    ensures sink { CutsBySink }
    ensures ram { CutsByRam }
    ensures follows { EachFollows }
    ensures split { IsSplit }
    ensures alone { EachWritesAlone }
    ensures fetched { FetchesWords }
    ensures services { AsksFew }
{}
