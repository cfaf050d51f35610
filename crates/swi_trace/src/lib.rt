//! Instructions as text, and what is told by them of a program and its run: the line of a step, the listing of
//! a block, the last addresses. Apart from the history's ring no memory is taken.
#![tactic(auto)]

mod block;
mod buffer;
mod digits;
mod history;
mod mnemonics;
mod text;

pub use block::list_block;
pub use buffer::LineBuffer;
pub use history::History;
pub use text::{text_of, trace_line};
