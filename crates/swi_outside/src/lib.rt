//! The outside of `swic`: sources, sinks, shelves and cache rams, which the caller hands in.
//!
//! Each trait says what a device does by ghost members, and that each failed call has its cause: the
//! device's count of faults rose. `swi_devices` has devices in memory, and adapters over the system's.
#![tactic(auto)]

mod cache_ram;
mod failure;
mod shelf;
mod sink;
mod source;
mod steady_ram;
mod words;

pub use cache_ram::CacheRam;
pub use failure::{Failed, Memory};
pub use shelf::{Shelf, ShelfError};
pub use sink::Sink;
pub use source::Source;
pub use steady_ram::SteadyRam;
pub use words::Words;
