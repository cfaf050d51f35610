//! Laws of a cache that runs on a processor, whose service uses the words behind links itself.
#![tactic(auto)]

mod laws;

pub use laws::{laws_of_chip_runs, laws_of_chips};
