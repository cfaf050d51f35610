//! The command `share`: the programs of several files over one cache.
#![tactic(auto)]

mod command;

pub use command::share;
