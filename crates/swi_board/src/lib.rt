//! The machine that runs out of a cache ram.
#![tactic(auto)]

mod advance;
mod board;
mod learnt;
mod links;
mod stepwise;
mod targets;
mod ways;

pub use board::{Board, BootStop};
pub use stepwise::{enter, run_stepwise};
pub use swi_hart::{BoardFault, Control, Hart, Stage};
