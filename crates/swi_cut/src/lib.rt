//! The cutter: from the text of a program to its cache image, and from an image to its version 2.
#![tactic(auto)]

mod cutter;
mod cutting;
mod draft;
mod greedy;
mod loops;
mod refusal;
mod upgrader;

pub use cutter::{cut, cut_by};
pub use cutting::Cutting;
pub use refusal::CutRefusal;
pub use upgrader::upgrade;
