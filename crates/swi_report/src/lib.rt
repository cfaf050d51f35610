//! What is written of a run when it is over: the state, the counts, those of a copy engine and of programs that share a
//! cache, and the summary of a program that was made.
//!
//! Each text goes to a sink line by line, a line a write. No memory is taken.
#![tactic(auto)]

mod engine;
mod memory;
mod shared;
mod state;
mod stats;
mod summary;

pub use engine::{EngineWork, engine_text};
pub use shared::{SharedWork, shared_text};
pub use state::{FinalState, state_text};
pub use stats::{Work, stats_text};
pub use summary::{Measured, summary_text};
