//! Laws of a processor whose service is `swi_chip`: it runs the original.
#![tactic(auto)]

mod laws;

pub use laws::{laws_of_bounds, laws_of_files, laws_of_processors};
