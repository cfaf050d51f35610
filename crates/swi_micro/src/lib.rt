//! A range of words, decoded: for each of them a micro-op of eight bytes, which says all that a step at the word takes,
//! and what a micro-op does to the registers and the memory of a hart.
#![tactic(auto)]

mod class;
mod decoded;
mod source;
mod stepper;
mod storer;
mod translator;

pub use class::Class;
pub use decoded::{Decoded, forget, forget_all};
pub use stepper::{goes, step, step_as};
pub use storer::store;
pub use translator::{MicroOp, address, branch_to, index_of, micro_op, stop};
