//! Program headers.
#![tactic(auto)]

ghost use Rattle.std.specs.Prelude.{◌≡◌, ◌<◌, ◌^◌, ◌++◌, length, OnOk};
ghost use Rattle.swi_elf_write.specs.FileHeader.{program_header_bytes};
ghost use Rattle.swi_elf_write.specs.Rewritten.{segment_header, image_header};

use swi_memory::Segment;
use swi_outside::Memory;
use swi_program::append_words;

const PT_LOAD: u32 = 1;

/// The project's own type of a segment that holds a cache image.
const PT_IMAGE: u32 = 0x6C43_4953;

/// The right to read.
const PF_R: u32 = 4;

/// A program header, under the field names of the System V ABI.
#[derive(Clone, Copy)]
pub(crate) struct ProgramHeader {
    pub p_type: u32,
    pub p_offset: u32,
    pub p_vaddr: u32,
    pub p_paddr: u32,
    pub p_filesz: u32,
    pub p_memsz: u32,
    pub p_flags: u32,
    pub p_align: u32,
}

/// The header of a segment whose bytes stand at an offset of the file.
pub(crate) fn segment_header(segment: &Segment<'_>, offset: u32) -> ProgramHeader
    ensures { result ≡ segment_header offset segment.now }
{
    let p_memsz = segment.size();
    ProgramHeader {
        p_type: PT_LOAD,
        p_offset: offset,
        p_vaddr: segment.base(),
        p_paddr: segment.base(),
        p_filesz: segment.bytes().len() as u32,
        p_memsz,
        p_flags: segment.flags(),
        p_align: 1,
    }
}

/// The header of an image that stands at an offset of the file.
pub(crate) fn image_header(image: &[u8], offset: u32) -> ProgramHeader
    requires { length image.now < 2 ^ 32 }
    ensures { result ≡ image_header offset image.now }
{
    let size = image.len() as u32;
    ProgramHeader {
        p_type: PT_IMAGE,
        p_offset: offset,
        p_vaddr: 0,
        p_paddr: 0,
        p_filesz: size,
        p_memsz: size,
        p_flags: PF_R,
        p_align: 4,
    }
}

/// Appends a program header.
#[tactic(auto, unfolding(swi_program::specs::ProgramOf::bytes_of_words))]
pub(crate) fn append_program_header(file: &mut Vec<u8>, h: ProgramHeader) -> Result<(), Memory>
    ensures { OnOk result (file.new.items ≡ file.old.items ++ program_header_bytes h) }
{
    let words = [
        h.p_type, h.p_offset, h.p_vaddr, h.p_paddr, h.p_filesz, h.p_memsz, h.p_flags, h.p_align,
    ];
    append_words(file, &words)
}
