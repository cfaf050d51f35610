//! A run of a program on the cached machine, with its steps told or not.
#![tactic(auto)]

mod laws;
mod ring;
mod run;
mod slots;
mod told;

pub use laws::laws_of_cached_runs;
pub use ring::ring_for;
pub use run::{AskedRun, CachedStop, run_cached};
pub use slots::slots_for;
