//! The cache service whose blocks stand one after the other, each in as many words as it has.
#![tactic(auto)]

mod queue;
mod ring;

pub use queue::BlockQueue;
pub use ring::{RingRom, chains};
