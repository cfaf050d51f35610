//! The reader of static 32-bit RISC-V ELF files: which files are accepted, and what they say.
//!
//! A file is read in place. Nothing is allocated.
#![tactic(auto)]

mod checks;
mod elf_header;
mod parts;
mod program_header;
mod reader;
mod refusal;

pub use parts::{Kind, Loaded};
pub use program_header::ProgramHeader;
pub use reader::{Elf, elf_entry, elf_flags, image_bytes, kind, loaded, loaded_at, read_elf};
pub use refusal::ElfRefusal;
