//! The rendering of text words in the blocks of a cache image: which words stand there for each, what
//! each of these does, and how many there are.
#![tactic(auto)]

mod parts;
mod renderer;
mod text_words;

pub use parts::Part;
pub use renderer::{falls, needs, part, render};
pub use text_words::{Sizes, address_of, exit_behind, render_word, sizes_of};
