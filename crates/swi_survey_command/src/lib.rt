//! The command `survey`: one run of a program, counted for many caches.
#![tactic(auto)]

mod command;
mod rows;

pub use command::survey;
