//! Caches without a ram: what a policy keeps and counts, for many caches of one image.
#![tactic(auto)]

mod exits;
mod groups;
mod masks;
mod tallies;
mod tally;

pub use exits::{Exit, Exits};
pub use masks::CACHES;
pub use tallies::{Frame, Tallies};
pub use tally::{Placing, Tally};
