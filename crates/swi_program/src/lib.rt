//! A program: its segments, its text, and where its heap and its stack lie.
#![tactic(auto)]

mod placement;
mod programs;
mod text_view;
mod word_bytes;

pub use placement::{Room, lay_out};
pub use programs::{Program, one_text, program_of};
pub use text_view::TextView;
pub use word_bytes::append_words;
