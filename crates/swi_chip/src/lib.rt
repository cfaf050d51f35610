//! The cache service for a processor: over memory that the caller hands in, without an allocation.
#![tactic(auto)]

mod answer;
mod beginning;
mod chip;
mod eviction;
mod jumps;
mod laws;
mod leaving;
mod linking;
mod lists;
mod memo;
mod missing;
mod origins;
mod own;
mod replacing;
mod serving;
mod undo;
mod waiting;
mod words;

pub use answer::{AGAIN, DAMAGED, MISALIGNED, NO_TEXT};
pub use beginning::start;
pub use chip::{Chip, ChipCounts, Registers, Size};
pub use laws::laws_of_calls;
pub use leaving::leave;
pub use origins::{origin, resume};
pub use replacing::put;
pub use serving::{cross, enter, exit};
