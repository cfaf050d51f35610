//! The writer of ELF files that hold a program and its cache image.
#![tactic(auto)]

mod program_header;
mod writer;

pub use writer::write_elf;
