//! A cache service with slots of one size, beside which an engine copies the next block while the program runs.
#![tactic(auto)]

mod copying;
mod engine;
mod joints;

pub use engine::EngineRom;
