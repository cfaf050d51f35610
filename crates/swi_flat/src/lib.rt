//! The flat machine: it runs the words of a program where they stand.
#![tactic(auto)]

mod advance;
mod coast;
mod flat;

pub use coast::{Coasted, Gate};
pub use flat::Flat;
