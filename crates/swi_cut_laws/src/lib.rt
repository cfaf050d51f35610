//! Laws of cuts: a text has one cut, and one image has one sequence of bytes.
#![tactic(auto)]

mod laws;

pub use laws::{laws_of_bytes, laws_of_cuts};
