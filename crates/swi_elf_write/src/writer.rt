//! A program and its cache image as a file.
#![tactic(auto)]

ghost use Rattle.std.specs.Prelude.{◌≡◌, ◌+◌, ◌≤◌, ◌<◌, ◌^◌, ◌++◌, length, IfOk, OnOk};
ghost use Rattle.swi_elf_write.specs.FileHeader.{file_header_bytes, table_bytes};
ghost use Rattle.swi_elf_write.specs.Rewritten.{contents, executable_header, segment_headers, rewritten_file};
ghost use Rattle.swi_elf_write.specs.ReadsAs.{ReadsAs};

use crate::program_header::{append_program_header, image_header, segment_header};
use std::alloc::Global;
use swi_image::Image;
use swi_memory::Segment;
use swi_outside::Memory;
use swi_program::{Program, append_words};

/// The first four bytes of a file: 0x7F, `E`, `L` and `F`.
const MAGIC: u32 = 0x464C_457F;

/// ELFCLASS32, ELFDATA2LSB and EV_CURRENT, a byte each.
const IDENTIFICATION: u32 = 0x0001_0101;

/// ET_EXEC and EM_RISCV, a half each.
const ET_EXEC_EM_RISCV: u32 = 0x00F3_0002;

const EV_CURRENT: u32 = 1;

/// The size of the ELF header.
const EHSIZE: u32 = 52;

/// The size of a program header.
const PHENTSIZE: u32 = 32;

/// Both sizes, a half each.
const EHSIZE_PHENTSIZE: u32 = 0x0020_0034;

/// Appends bytes.
fn append_bytes(file: &mut Vec<u8>, bytes: &[u8]) -> Result<(), Memory>
    ensures { OnOk result (file.new.items ≡ file.old.items ++ bytes.now) }
{
    if file.extend_from_slice(bytes).is_err() {
        return Err(Memory);
    }
    Ok(())
}

/// Appends the ELF header of an executable with this entry address, these flags and so many program
/// headers.
fn append_file_header(file: &mut Vec<u8>, entry: u32, flags: u32, count: u32) -> Result<(), Memory>
    ensures { let header = executable_header entry flags count in
        OnOk result (file.new.items ≡ file.old.items ++ file_header_bytes header) }
{
    let words = [
        MAGIC,
        IDENTIFICATION,
        0,
        0,
        ET_EXEC_EM_RISCV,
        EV_CURRENT,
        entry,
        EHSIZE,
        0,
        flags,
        EHSIZE_PHENTSIZE,
        count % (1 << 16),
        0,
    ];
    append_words(file, &words)
}

/// Appends the headers of segments whose bytes stand one after the other from an offset on.
#[tactic(auto, using(crate::proofs::Headers::segment_steps))]
fn append_segment_headers(
    file: &mut Vec<u8>,
    segments: &[Segment<'_>],
    first: u32,
) -> Result<(), Memory>
    requires { first + length (contents segments.now) < 2 ^ 32 }
    ensures { OnOk result (file.new.items ≡ file.old.items ++ table_bytes (segment_headers first segments.now)) }
{
    let mut offset = first;
    for segment in segments {
        append_program_header(file, segment_header(segment, offset))?;
        offset += segment.bytes().len() as u32;
    }
    Ok(())
}

/// How many bytes of the file the segments have together.
#[tactic(auto, using(crate::proofs::Headers::size_steps))]
fn contents_size(segments: &[Segment<'_>]) -> u32
    requires { length (contents segments.now) ≤ 2 ^ 25 }
    ensures { result ≡ length (contents segments.now) }
{
    let mut size = 0;
    for segment in segments {
        size += segment.bytes().len() as u32;
    }
    size
}

/// Appends the bytes of the segments.
#[tactic(auto, using(crate::proofs::Headers::content_steps))]
fn append_contents(file: &mut Vec<u8>, segments: &[Segment<'_>]) -> Result<(), Memory>
    ensures { OnOk result (file.new.items ≡ file.old.items ++ contents segments.now) }
{
    for segment in segments {
        append_bytes(file, segment.bytes())?;
    }
    Ok(())
}

/// The file of a program and its cache image: the ELF header, a header for each segment and one for
/// the image, the bytes of the segments, and the image at a multiple of 4.
///
/// The file of a program of at most 63 segments is accepted, and read as the program and the image.
/// A file may have no more than 64 headers, so that of a longer program is refused.
///
/// The only error is want of memory. Source: System V ABI, "ELF Header" and "Program Header"; the
/// order of the parts and the image's header.
#[tactic(auto, using(crate::proofs::Headers::sizes))]
pub fn write_elf(alloc: Global, p: &Program<'_>, image: &Image) -> Result<Vec<u8>, Memory>
    ensures bytes { IfOk result (λ file. file.items ≡ rewritten_file p.now image.now) }
    ensures read_back { length p.now.segments ≤ 63 → IfOk result (λ file. ReadsAs file.items p.now image.now) }
{
    let (segments, bytes) = (p.segments(), image.bytes());
    let count = segments.len() as u32 + 1;
    let begin = EHSIZE + PHENTSIZE * count;
    let end = begin + contents_size(segments);
    let image_at = (end + 3) / 4 * 4;
    let mut file = Vec::new(alloc);
    append_file_header(&mut file, p.entry(), p.flags(), count)?;
    append_segment_headers(&mut file, segments, begin)?;
    append_program_header(&mut file, image_header(bytes, image_at))?;
    append_contents(&mut file, segments)?;
    append_bytes(&mut file, &[0; 3][..(image_at - end) as usize])?;
    append_bytes(&mut file, bytes)?;
    Ok(file)
}
