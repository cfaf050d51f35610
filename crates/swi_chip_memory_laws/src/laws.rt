//! The law as a function that does nothing.
#![tactic(auto)]

ghost use Rattle.swi_chip_memory_laws.specs.Memory.{HoldsItsCache};

/// The cache of a chip that stands for a service holds the words of its ram, but for those behind links, and the ram is
/// coherent.
pub fn laws_of_memory()
    ensures { HoldsItsCache }
{}
