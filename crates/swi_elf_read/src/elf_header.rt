//! Where the fields of the ELF header stand, in bytes from the file's start.
//!
//! Source: System V ABI, "ELF Header".
#![tactic(auto)]

/// The size of the ELF header in bytes.
pub(crate) const ELF_HEADER_SIZE: usize = 52;

/// `e_ident[EI_CLASS]`: how wide addresses are.
pub(crate) const EI_CLASS: usize = 4;

/// `e_ident[EI_DATA]`: the order of a number's bytes.
pub(crate) const EI_DATA: usize = 5;

/// `e_ident[EI_VERSION]`.
pub(crate) const EI_VERSION: usize = 6;

/// The file's type.
pub(crate) const E_TYPE: usize = 16;

pub(crate) const E_MACHINE: usize = 18;

pub(crate) const E_VERSION: usize = 20;

/// The address at which a run begins.
pub(crate) const E_ENTRY: usize = 24;

/// Where the program header table begins.
pub(crate) const E_PHOFF: usize = 28;

pub(crate) const E_FLAGS: usize = 36;

/// The size of this header.
pub(crate) const E_EHSIZE: usize = 40;

/// The size of a program header.
pub(crate) const E_PHENTSIZE: usize = 42;

/// How many program headers there are.
pub(crate) const E_PHNUM: usize = 44;
