//! The micro-ops of an image's words: what a step at each text word of the image does, wherever its block stands.
#![tactic(auto)]

mod op;
mod row;
mod words;

pub use op::{is_exit, is_marked};
pub use row::{index_in_row, place_in_row};
pub use words::ImageOps;
