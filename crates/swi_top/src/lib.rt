//! The commands of `swic`, as one call over the devices that are handed in.
#![tactic(auto)]

mod call;
mod commands;
mod laws;

pub use call::top;
pub use laws::laws_of_top;
pub use swi_answer::{Ending, Refusal, status_of};
