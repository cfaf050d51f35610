//! The checker: whether a cache image is one of a program's text.
#![tactic(auto)]

mod checker;
mod mismatch;

pub use checker::check;
pub use mismatch::Mismatch;
