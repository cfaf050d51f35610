//! The words of the original steps in which a run of machine instructions can be told.
#![tactic(auto)]

mod laws;

pub use laws::{laws_of_moments, laws_of_runs};
