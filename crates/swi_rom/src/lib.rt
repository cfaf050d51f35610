//! A cache service: the trait that keeps blocks of an image in a cache ram on demand, the words in which services are told,
//! and what each of them writes into the ram.
#![tactic(auto)]

mod rom;
mod write;

pub use rom::{CacheRom, Counts, RomStop};
pub use write::{copy, jump, reach};
