//! Program headers: segments as the file describes them.
#![tactic(auto)]

ghost use Rattle.std.specs.Prelude.{◌≡◌, ◌≤◌, ◌+◌, ◌*◌, ◌^◌, length};
ghost use Rattle.swi_elf_read.specs.ProgramHeaders.{half_at, word_at, header_at, table_at, is_loaded, is_text, is_image, is_dynamic, is_extent_wrong, shares_address, is_text_word, has_text_word};

use arrayvec::ArrayVec;
use byteorder::{ByteOrder, LittleEndian};

/// How many program headers a file may have.
pub const MAX_HEADERS: usize = 64;

/// The size of a program header in bytes.
pub const HEADER_SIZE: usize = 32;

const PT_LOAD: u32 = 1;

const PT_DYNAMIC: u32 = 2;

const PT_INTERP: u32 = 3;

/// The project's own type of a segment that holds a cache image.
const PT_IMAGE: u32 = 0x6C43_4953;

/// A program header, under the field names of the System V ABI. `p_paddr` and `p_align` are left
/// out: a static program on a machine without pages needs neither.
#[derive(Clone, Copy, PartialEq, Eq, Debug, Default)]
pub struct ProgramHeader {
    /// What the header describes.
    pub p_type: u32,
    /// Where its bytes stand in the file.
    pub p_offset: u32,
    /// Its first address in memory.
    pub p_vaddr: u32,
    /// How many bytes it has in the file.
    pub p_filesz: u32,
    /// How many bytes it takes in memory.
    pub p_memsz: u32,
    /// Its rights: 4 read, 2 write, 1 execute; other bits have no meaning here.
    pub p_flags: u32,
}

impl ProgramHeader {
    /// Whether the segment takes memory at the start of a run.
    #[tactic(auto, unfolding(crate::specs::ProgramHeaders::is_loaded))]
    pub fn is_loaded(&self) -> bool
        ensures { result ≡ is_loaded self.now }
    {
        self.p_type == PT_LOAD && self.p_memsz > 0
    }

    /// Whether the segment is loaded and executable.
    #[tactic(auto, unfolding(crate::specs::ProgramHeaders::is_text))]
    pub fn is_text(&self) -> bool
        ensures { result ≡ is_text self.now }
    {
        self.is_loaded() && self.p_flags % 2 == 1
    }

    /// Whether the segment is a cache image.
    #[tactic(auto, unfolding(crate::specs::ProgramHeaders::is_image))]
    pub fn is_image(&self) -> bool
        ensures { result ≡ is_image self.now }
    {
        self.p_type == PT_IMAGE
    }

    /// Whether the header asks for a dynamic linker.
    #[tactic(auto, unfolding(crate::specs::ProgramHeaders::is_dynamic))]
    pub fn is_dynamic(&self) -> bool
        ensures { result ≡ is_dynamic self.now }
    {
        self.p_type == PT_DYNAMIC || self.p_type == PT_INTERP
    }

    /// The address past its last byte in memory.
    fn memory_end(&self) -> u64
        ensures { result ≡ self.now.p_vaddr + self.now.p_memsz }
    {
        u64::from(self.p_vaddr) + u64::from(self.p_memsz)
    }

    /// Whether the header is `PT_LOAD` or a cache image's and has more bytes in the file than in
    /// memory, or bytes past the end of a file of so many; or is `PT_LOAD` and passes address 2^32.
    #[tactic(auto, unfolding(crate::specs::ProgramHeaders::is_extent_wrong))]
    pub fn is_extent_wrong(&self, file_size: usize) -> bool
        ensures { result ≡ is_extent_wrong file_size self.now }
    {
        let load = self.p_type == PT_LOAD;
        let file_end = u64::from(self.p_offset) + u64::from(self.p_filesz);
        let outside = self.p_filesz > self.p_memsz
            || (self.p_filesz > 0 && file_end > file_size as u64);
        ((load || self.is_image()) && outside) || (load && self.memory_end() > 1 << 32)
    }

    /// Whether some address is in both segments.
    #[tactic(auto, unfolding(crate::specs::ProgramHeaders::shares_address))]
    pub fn shares_address(&self, other: &ProgramHeader) -> bool
        ensures { result ≡ shares_address self.now other.now }
    {
        u64::from(self.p_vaddr) < other.memory_end() && u64::from(other.p_vaddr) < self.memory_end()
    }

    /// Whether the segment is text, and a whole instruction word of its file bytes stands at the
    /// address (at most 2^32).
    #[tactic(auto, unfolding(crate::specs::ProgramHeaders::is_text_word, crate::specs::ProgramHeaders::is_word_address))]
    pub fn is_text_word(&self, address: u64) -> bool
        requires { address ≤ 2 ^ 32 }
        ensures { result ≡ is_text_word address self.now }
    {
        let end = u64::from(self.p_vaddr) + u64::from(self.p_filesz);
        self.is_text()
            && address % 4 == 0
            && u64::from(self.p_vaddr) <= address
            && address + 4 <= end
    }

    /// Whether the segment has a whole instruction word.
    #[tactic(auto, unfolding(crate::specs::ProgramHeaders::has_text_word))]
    pub fn has_text_word(&self) -> bool
        ensures { result ≡ has_text_word self.now }
    {
        self.is_text_word((u64::from(self.p_vaddr) + 3) / 4 * 4)
    }
}

/// The 16-bit number at an offset.
#[tactic(auto, unfolding(crate::specs::ProgramHeaders::half_at))]
pub(crate) fn half_at(bytes: &[u8], offset: usize) -> u16
    requires { offset + 2 ≤ length bytes.now }
    ensures { result ≡ half_at bytes.now offset }
{
    LittleEndian::read_u16(&bytes[offset..])
}

/// The 32-bit number at an offset.
#[tactic(auto, unfolding(crate::specs::ProgramHeaders::word_at))]
pub(crate) fn word_at(bytes: &[u8], offset: usize) -> u32
    requires { offset + 4 ≤ length bytes.now }
    ensures { result ≡ word_at bytes.now offset }
{
    LittleEndian::read_u32(&bytes[offset..])
}

/// The program header at an offset.
fn header_at(bytes: &[u8], offset: usize) -> ProgramHeader
    requires { offset + 32 ≤ length bytes.now }
    ensures { result ≡ header_at bytes.now offset }
{
    ProgramHeader {
        p_type: word_at(bytes, offset),
        p_offset: word_at(bytes, offset + 4),
        p_vaddr: word_at(bytes, offset + 8),
        p_filesz: word_at(bytes, offset + 16),
        p_memsz: word_at(bytes, offset + 20),
        p_flags: word_at(bytes, offset + 24),
    }
}

/// The program header table of `count` entries at an offset.
#[tactic(auto, using(crate::proofs::Scans::table_steps))]
pub(crate) fn table_at(
    bytes: &[u8],
    offset: usize,
    count: usize,
) -> ArrayVec<ProgramHeader, MAX_HEADERS>
    requires few { count ≤ 64 }
    requires inside { offset + 32 * count ≤ length bytes.now }
    ensures { result.items ≡ table_at bytes.now offset count }
{
    let mut headers = ArrayVec::new();
    for k in 0..count {
        headers.push(header_at(bytes, offset + HEADER_SIZE * k));
    }
    headers
}
