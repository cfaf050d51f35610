//! Why a file is not accepted.
#![tactic(auto)]

/// The first check that a file fails, in the order of the variants. Each carries one number: an
/// offset in bytes from the file's start, the index of a program header, or what the variant says.
#[derive(Clone, Copy, PartialEq, Eq, Debug)]
pub enum ElfRefusal {
    /// Fewer bytes than the ELF header has. Carries the file's length.
    Short(u32),
    /// Not the four bytes that an ELF file begins with. Carries 0.
    Magic(u32),
    /// Not 32-bit. Carries the offset of `e_ident[EI_CLASS]`.
    Class(u32),
    /// Not little-endian. Carries the offset of `e_ident[EI_DATA]`.
    Order(u32),
    /// Not version 1. Carries the offset of `e_ident[EI_VERSION]` or of `e_version`.
    Version(u32),
    /// Not an executable file. Carries the offset of `e_type`.
    FileType(u32),
    /// Not RISC-V. Carries the offset of `e_machine`.
    Machine(u32),
    /// Compressed instructions, a floating-point ABI, or 16 registers. Carries the offset of
    /// `e_flags`.
    Flags(u32),
    /// Headers of another size. Carries the offset of `e_ehsize` or of `e_phentsize`.
    HeaderSize(u32),
    /// More than 64 program headers. Carries the offset of `e_phnum`.
    Many(u32),
    /// A program header table that does not end within the file. Carries the offset of `e_phoff`.
    Table(u32),
    /// A file to be linked at run time. Carries the index of the header that says so.
    Dynamic(u32),
    /// A `PT_LOAD` header, or one of a cache image, with more bytes in the file than in memory or bytes
    /// past the file's end; or a `PT_LOAD` header that passes address 2^32. Carries the header's index.
    Extent(u32),
    /// A loaded segment that shares an address with one before it. Carries the header's index.
    Overlap(u32),
    /// No executable segment with a whole instruction word. Carries 0.
    NoText(u32),
    /// A second executable segment. Carries the header's index.
    TwoTexts(u32),
    /// Loaded segments of more than 2^25 bytes together, or more than 2^21 bytes of text. Carries
    /// the index of the header that passes the limit.
    Large(u32),
    /// An entry address at which no instruction word stands. Carries the offset of `e_entry`.
    Entry(u32),
}
