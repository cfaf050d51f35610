//! An accepted file and what it says.
#![tactic(auto)]

ghost use Rattle.std.specs.Prelude.{◌≡◌, ◌≤◌, ◌<◌, ◌+◌, ◌%◌, ◌^◌, ◌↔◌, ℕ, List, None, Some, IfOk, IfErr, OnOk, IsSome, IsTrue, IsFalse, find, filter, length, slice_get, option_copied, sum_by};
ghost use Rattle.std.specs.List.{list_any};
ghost use Rattle.swi_elf_read.specs.Elf.{first_refusal, e_entry, e_flags, program_headers};
ghost use Rattle.swi_elf_read.specs.ProgramHeaders.{is_loaded, is_image};
ghost use Rattle.swi_elf_read.specs.Loaded.{loaded_segments, image_of, can_execute, has_word_at, AreLoadable, AreApart, bytes_of};

use crate::checks::{header_refusal, identification_refusal, table_refusal};
use crate::elf_header::{E_ENTRY, E_FLAGS, E_PHNUM, E_PHOFF};
use crate::parts::{Kind, Loaded};
use crate::program_header::{MAX_HEADERS, ProgramHeader, half_at, table_at, word_at};
use crate::refusal::ElfRefusal;
use arrayvec::ArrayVec;
use std::marker::Model;

/// An accepted file. Contracts see it as the file's bytes.
#[derive(Drop)]
pub struct Elf<'a> {
    bytes: &'a [u8],
    headers: ArrayVec<ProgramHeader, MAX_HEADERS>,
}

impl<'a> Model for Elf<'a> {
    ghost use Rattle.std.specs.Prelude.{List, ℕ};

    ghost Value = { List ℕ };

    ghost use Rattle.swi_elf_read.specs.Accepted.{IsRead};

    ghost view = { λ e. e.bytes.now };

    // Hidden from callers: so what holds of every accepted file stands as clauses of its readers.
    ghost invariant = { λ e. IsRead e.bytes.now e.headers.items };
}

/// Checks a whole file of at most 2^26 bytes, which stays borrowed. The error is the first check
/// that fails, in the order of `ElfRefusal`.
///
/// Source: System V ABI, "ELF Header" and "Program Header"; RISC-V ELF psABI, "File Header". The
/// limits and the order.
#[tactic(auto, unfolding(crate::specs::Elf::first_refusal))]
pub fn read_elf<'a>(bytes: &'a [u8]) -> Result<Elf<'a>, ElfRefusal>
    requires { length bytes.now ≤ 2 ^ 26 }
    ensures accepted { IfOk result (λ e. e ≡ bytes.now) }
    ensures ok { OnOk result (first_refusal bytes.now ≡ None) }
    ensures refused { IfErr result (λ r. first_refusal bytes.now ≡ Some r) }
{
    if let Some(refusal) = identification_refusal(bytes) {
        return Err(refusal);
    }
    if let Some(refusal) = header_refusal(bytes) {
        return Err(refusal);
    }
    let headers = table_at(
        bytes,
        word_at(bytes, E_PHOFF) as usize,
        half_at(bytes, E_PHNUM) as usize,
    );
    if let Some(refusal) = table_refusal(bytes.len(), word_at(bytes, E_ENTRY), &headers) {
        return Err(refusal);
    }
    Ok(Elf { bytes, headers })
}

/// The first header of a cache image.
fn first_image(headers: &[ProgramHeader]) -> Option<&ProgramHeader>
    ensures { option_copied result ≡ find is_image headers.now }
{
    headers.iter().find(|h| h.is_image())
}

/// Whether there is a header of a cache image.
fn has_image(headers: &[ProgramHeader]) -> bool
    ensures { result ≡ list_any is_image headers.now }
{
    headers.iter().any(|h| h.is_image())
}

/// How many headers are loaded.
#[tactic(auto, using(crate::proofs::Segments::count_steps))]
fn count_loaded(headers: &[ProgramHeader]) -> u32
    requires { length headers.now ≤ 64 }
    ensures { result ≡ length (filter is_loaded headers.now) }
{
    let mut count = 0;
    for header in headers {
        if header.is_loaded() {
            count += 1;
        }
    }
    count
}

/// The k-th loaded header.
#[tactic(auto, using(crate::proofs::Segments::nth_steps))]
fn nth_loaded(headers: &[ProgramHeader], k: usize) -> Option<&ProgramHeader>
    ensures { option_copied result ≡ slice_get (filter is_loaded headers.now) k }
{
    let mut left = k;
    for header in headers {
        if header.is_loaded() {
            if left == 0 {
                return Some(header);
            }
            left -= 1;
        }
    }
    None
}

/// The bytes that a header has in the file, as far as the file goes.
fn bytes_of<'a>(bytes: &'a [u8], header: &ProgramHeader) -> &'a [u8]
    ensures { result.now ≡ bytes_of bytes.now header.now }
{
    let (offset, size) = (header.p_offset as usize, header.p_filesz as usize);
    if bytes.len() <= offset {
        return &[];
    }
    let rest = &bytes[offset..];
    if size < rest.len() {
        &rest[..size]
    } else {
        rest
    }
}

/// Whether the file has a cache image.
pub fn kind(e: &Elf) -> Kind
    ensures original { (result ≡ Kind.Original) ↔ IsFalse (list_any is_image (program_headers e.now)) }
    ensures rewritten { (result ≡ Kind.Rewritten) ↔ IsTrue (list_any is_image (program_headers e.now)) }
{
    if has_image(&e.headers) {
        Kind::Rewritten
    } else {
        Kind::Original
    }
}

/// The bytes of the file that its first cache image has. None where the file has no cache image.
#[tactic(auto, unfolding(crate::specs::Loaded::image_of), using(crate::proofs::Segments::image_there))]
pub fn image_bytes<'a>(e: &Elf<'a>) -> Option<&'a [u8]>
    ensures value { option_copied result ≡ image_of e.now }
    ensures some { IsSome result ↔ IsTrue (list_any is_image (program_headers e.now)) }
{
    match first_image(&e.headers) {
        Some(header) => Some(bytes_of(e.bytes, header)),
        None => None,
    }
}

/// The address at which a run begins: that of an instruction word.
#[tactic(auto, using(crate::proofs::AcceptedFacts::accepted_facts))]
pub fn elf_entry(e: &Elf) -> u32
    ensures value { result ≡ e_entry e.now }
    ensures word { IsTrue (list_any (has_word_at result) (loaded_segments e.now)) }
{
    word_at(e.bytes, E_ENTRY)
}

/// The flags of the ELF header, of which bits 0 to 3 are clear.
#[tactic(auto, using(crate::proofs::AcceptedFacts::accepted_facts))]
pub fn elf_flags(e: &Elf) -> u32
    ensures value { result ≡ e_flags e.now }
    ensures plain { result % 16 ≡ 0 }
{
    word_at(e.bytes, E_FLAGS)
}

/// How many segments a run loads.
#[tactic(auto, using(crate::proofs::AcceptedFacts::accepted_facts), unfolding(crate::specs::Loaded::loaded_segments))]
pub fn loaded(e: &Elf) -> u32
    ensures count { result ≡ length (loaded_segments e.now) }
    ensures each { AreLoadable (loaded_segments e.now) }
    ensures apart { AreApart (loaded_segments e.now) }
    ensures one_text { length (filter can_execute (loaded_segments e.now)) ≡ 1 }
    ensures memory { sum_by (λ s. s.size) (loaded_segments e.now) ≤ 2 ^ 25 }
{
    count_loaded(&e.headers)
}

/// The k-th segment that a run loads, in the order of the program headers: k counts from 0 and is
/// below `loaded(e)`.
#[tactic(auto, unfolding(crate::specs::Loaded::loaded_segments))]
pub fn loaded_at<'a>(e: &Elf<'a>, k: u32) -> Loaded<'a>
    requires { k < length (loaded_segments e.now) }
    ensures { slice_get (loaded_segments e.now) k ≡ Some (record {
      base = result.base;
      flags = result.flags;
      size = result.size;
      bytes = result.bytes.now;
    }) }
{
    match nth_loaded(&e.headers, k as usize) {
        Some(header) => Loaded {
            base: header.p_vaddr,
            flags: header.p_flags % 8,
            size: header.p_memsz,
            bytes: bytes_of(e.bytes, header),
        },
        None => unreachable!(),
    }
}
