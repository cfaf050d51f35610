//! The law of a memory that `swi_chip` serves: it is one that `swi_chip_laws` asks of a processor's cache.
#![tactic(auto)]

mod laws;

pub use laws::laws_of_memory;
