//! Laws of rewritten files and of caches: what they leave of a program is its own.
#![tactic(auto)]

mod laws;

pub use laws::laws_of_rewriting;
