//! The command `measure`: a made program on the cached machine.
#![tactic(auto)]

mod command;
mod nowhere;

pub use command::measure;
