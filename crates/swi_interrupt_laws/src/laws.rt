//! Laws of a run that is left before a word of the ram, and goes on later.
#![tactic(auto)]

ghost use Rattle.swi_interrupt_laws.specs.Interrupts.{GoesOnRight, RunsOnRight, EntersAgain};

/// Laws of interrupts, for who reads them; it does nothing.
///
/// Before any word of the ram, also midway in what stands for an instruction, a run may be left with the registers and the
/// memory as they are, and go on later from one text address, which the image tells. Then it goes on as the original
/// machine does. What was begun is begun again and leaves the same; at a direct exit the instruction is done. A service
/// that enters the ram at that address brings control to where all this holds again.
pub fn laws_of_interrupts()
    ensures right { GoesOnRight }
    ensures runs { RunsOnRight }
    ensures enters { EntersAgain }
{}
