//! What each instruction of RV32IMA does to the registers and the memory of a hart.
#![tactic(auto)]

mod arithmetic;
mod atomic;
mod done;
mod executor;
mod registers;
mod stores_text;
mod values;

pub use done::{Done, FaultKind};
pub use executor::exec;
pub use registers::{A0, A1, A2, A7, Regs, SP, Slot};
pub use stores_text::{store_into_text, text_access};
pub use values::{size_of_load, takes, value_of_load, value_of_op};
