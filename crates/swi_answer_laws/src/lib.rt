//! Laws of answers: what is asked of the commands has one answer.
#![tactic(auto)]

mod laws;

pub use laws::{laws_of_answers, laws_of_counts, laws_of_parts};
