//! Laws of a memory that holds a cache's words but for those behind links, and of a run over it.
#![tactic(auto)]

ghost use Rattle.swi_chip_laws.specs.Holding.{FetchesHeld, LinksLead, ReadsExits};
ghost use Rattle.swi_chip_laws.specs.Running.{FollowsEvents, RunsInSteps};
ghost use Rattle.swi_chip_laws.specs.Stepping.{FollowsFlat, StepsAsModel};

/// Laws of what a processor finds in such a memory, for who reads them; it does nothing.
///
/// The word under control of a hart that the image fits never stands behind a link: so the processor fetches the word that
/// the model's hart fetches. At an exit that isn't linked, the words that a vector and its service read behind it are the
/// image's. At a linked one stands a jump that leads to its target's place, and changes nothing else. So a processor's step
/// over such a memory is a step of the model's board, and follows the flat machine.
pub fn laws_of_chips()
    ensures fetches { FetchesHeld }
    ensures exits { ReadsExits }
    ensures links { LinksLead }
    ensures steps { StepsAsModel }
    ensures follows { FollowsFlat }
{}

/// Laws of a run of such steps, for who reads them; it does nothing.
///
/// Over any policy that changes nothing over a link, and a memory that holds a cache's words so before each step: behind
/// each machine instruction the processor stands where the flat machine does, or midway to its next step. And behind so
/// many original steps it stands behind them, with their bytes, the record of their transfers and their cost.
pub fn laws_of_chip_runs()
    ensures events { FollowsEvents }
    ensures runs { RunsInSteps }
{}
