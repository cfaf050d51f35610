//! The law of calls that are made again, as a function that does nothing.
#![tactic(auto)]

ghost use Rattle.swi_chip.specs.Repeated.{EntersRepeated, ExitsRepeated, LeavesRepeated};

/// The law of [`crate::enter`], [`crate::exit`] and [`crate::leave`], for who reads it; it does nothing.
///
/// A call is made again while it answers [`crate::AGAIN`]. Behind the last one the chip stands for what the model's one call
/// leaves; and as many links led into the slot that was filled next as a portion has, for each time that it was made again.
pub fn laws_of_calls()
    ensures enters { EntersRepeated }
    ensures exits { ExitsRepeated }
    ensures leaves { LeavesRepeated }
{}
