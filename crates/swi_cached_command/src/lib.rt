//! The commands `cached` and `trace`.
#![tactic(auto)]

mod command;
mod report;
mod trace;

pub use command::cached;
