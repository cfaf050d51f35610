//! A machine out of a cache ram beside whose hart an engine copies the next block.
#![tactic(auto)]

mod beside;
mod engine;
mod laws;
mod prefetch;

pub use beside::{step, turn};
pub use engine::CopyEngine;
pub use laws::laws_of_prefetch;
pub use prefetch::Prefetch;
