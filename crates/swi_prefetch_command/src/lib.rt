//! The command `prefetch`: the program of a file on the cached machine, beside an engine that copies the next block.
#![tactic(auto)]

mod command;

pub use command::prefetch;
