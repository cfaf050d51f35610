//! The laws as a function that does nothing.
#![tactic(auto)]

ghost use Rattle.swi_chip.specs.Bounded.{BoundsNothing, KeepsBound};
ghost use Rattle.swi_chip_run_laws.specs.Files.{RunsFromFile};
ghost use Rattle.swi_chip_run_laws.specs.Runs.{EntersRight, ProcessorFollows, ProcessorRunsInSteps};

/// Laws of a processor with the service of `swi_chip`, for who reads them; it does nothing.
///
/// The service stands for slots, the processor executes words where they stand, and its vector calls the service at an
/// EBREAK. Then behind each machine instruction it stands where the flat machine does, or midway to its next step; and
/// behind as many as so many original steps cost it stands behind these.
pub fn laws_of_processors()
    ensures enters { EntersRight }
    ensures follows { ProcessorFollows }
    ensures runs { ProcessorRunsInSteps }
{}

/// The law of a processor's run from a file on, for who reads it; it does nothing.
///
/// The file passes its checks, and its image is one of a program's text. Its tables are handed in as they stand there, and
/// the service was started and entered at the program's pc. Then behind as many machine instructions as so many original
/// steps cost the processor stands behind these, with a record that began with nothing.
pub fn laws_of_files()
    ensures { RunsFromFile }
{}

/// Laws of the policy with a bound on the links into a block, for who reads them; it does nothing.
///
/// No more links than the bound lead into a block, if none did before a transfer. Where the bound is at least the number of
/// the slots' words, the policy is that of the slots, and nothing is refused.
pub fn laws_of_bounds()
    ensures keeps { KeepsBound }
    ensures nothing { BoundsNothing }
{}
