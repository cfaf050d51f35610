//! System calls of a guest, and what a flat machine is.
#![tactic(auto)]

mod end;
mod heap;
mod machine;
mod moves;
mod request;
mod stores_text;
mod system_call;

pub use end::{CallFault, End};
pub use heap::Heap;
pub use machine::Machine;
pub use stores_text::text_store;
