//! Lists of links: which words are linked to which slot; and what a service undoes when a block leaves the ram.
#![tactic(auto)]

mod chains;
mod links;

pub use chains::Chains;
pub use links::undo;
