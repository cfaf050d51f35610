//! Lines of text that are made without memory: words, numbers in decimal, words and bytes in hexadecimal;
//! and which steps of a run are told in lines.
#![tactic(auto)]

mod line;
mod trace;

pub use line::{LINE_ROOM, Line};
pub use trace::Trace;
