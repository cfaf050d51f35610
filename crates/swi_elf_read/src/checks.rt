//! The checks of a file, in their order.
#![tactic(auto)]

ghost use Rattle.std.specs.Prelude.{◌≡◌, ◌≤◌, ◌<◌, ◌+◌, ◌*◌, ◌^◌, ◌&&◌, ◌↔◌, true, false, length, position, IfSome, IfNone, IsNone};
ghost use Rattle.std.specs.List.{list_any};
ghost use Rattle.swi_elf_read.specs.ProgramHeaders.{word_at, half_at, is_dynamic, is_extent_wrong, is_overlap, is_second_text, is_too_large, passes_limit, memory_taken, first_among, shares_address, is_text, is_loaded, has_text_word, is_text_word};
ghost use Rattle.swi_elf_read.specs.Elf.{identification_refusal, header_refusal, table_refusal, e_phoff, e_phnum};

use crate::elf_header::{
    E_EHSIZE, E_ENTRY, E_FLAGS, E_MACHINE, E_PHENTSIZE, E_PHNUM, E_PHOFF, E_TYPE, E_VERSION,
    EI_CLASS, EI_DATA, EI_VERSION, ELF_HEADER_SIZE,
};
use crate::program_header::{HEADER_SIZE, MAX_HEADERS, ProgramHeader, half_at, word_at};
use crate::refusal::ElfRefusal;

/// How many bytes of memory the loaded segments may take together.
const MEMORY_LIMIT: u64 = 1 << 25;

/// How many bytes the executable segment may have in the file.
const TEXT_LIMIT: u32 = 1 << 21;

/// The type of an executable file.
const ET_EXEC: u16 = 2;

/// The machine RISC-V.
const EM_RISCV: u16 = 243;

/// The bytes that an ELF file begins with.
const MAGIC: [u8; 4] = [0x7F, b'E', b'L', b'F'];

/// The first check of the ELF identification that fails.
pub(crate) fn identification_refusal(bytes: &[u8]) -> Option<ElfRefusal>
    requires { length bytes.now ≤ 2 ^ 26 }
    ensures refusal { result ≡ identification_refusal bytes.now }
    ensures whole { IfNone result (52 ≤ length bytes.now) }
{
    if bytes.len() < ELF_HEADER_SIZE {
        return Some(ElfRefusal::Short(bytes.len() as u32));
    }
    if !bytes.starts_with(&MAGIC) {
        return Some(ElfRefusal::Magic(0));
    }
    if bytes[EI_CLASS] != 1 {
        return Some(ElfRefusal::Class(EI_CLASS as u32));
    }
    if bytes[EI_DATA] != 1 {
        return Some(ElfRefusal::Order(EI_DATA as u32));
    }
    if bytes[EI_VERSION] != 1 {
        return Some(ElfRefusal::Version(EI_VERSION as u32));
    }
    None
}

/// The first check of the other fields of the ELF header that fails.
pub(crate) fn header_refusal(bytes: &[u8]) -> Option<ElfRefusal>
    requires { 52 ≤ length bytes.now }
    ensures refusal { result ≡ header_refusal bytes.now }
    ensures few { IfNone result (e_phnum bytes.now ≤ 64) }
    ensures inside { IfNone result (e_phoff bytes.now + 32 * e_phnum bytes.now ≤ length bytes.now) }
{
    if word_at(bytes, E_VERSION) != 1 {
        return Some(ElfRefusal::Version(E_VERSION as u32));
    }
    if half_at(bytes, E_TYPE) != ET_EXEC {
        return Some(ElfRefusal::FileType(E_TYPE as u32));
    }
    if half_at(bytes, E_MACHINE) != EM_RISCV {
        return Some(ElfRefusal::Machine(E_MACHINE as u32));
    }
    if word_at(bytes, E_FLAGS) % 16 != 0 {
        return Some(ElfRefusal::Flags(E_FLAGS as u32));
    }
    if usize::from(half_at(bytes, E_EHSIZE)) != ELF_HEADER_SIZE {
        return Some(ElfRefusal::HeaderSize(E_EHSIZE as u32));
    }
    if usize::from(half_at(bytes, E_PHENTSIZE)) != HEADER_SIZE {
        return Some(ElfRefusal::HeaderSize(E_PHENTSIZE as u32));
    }
    let count = usize::from(half_at(bytes, E_PHNUM));
    if count > MAX_HEADERS {
        return Some(ElfRefusal::Many(E_PHNUM as u32));
    }
    if word_at(bytes, E_PHOFF) as usize + HEADER_SIZE * count > bytes.len() {
        return Some(ElfRefusal::Table(E_PHOFF as u32));
    }
    None
}

/// The index of the first header that asks for a dynamic linker.
fn first_dynamic(headers: &[ProgramHeader]) -> Option<usize>
    ensures { result ≡ position is_dynamic headers.now }
{
    headers.iter().position(|h| h.is_dynamic())
}

/// The index of the first header with a wrong extent in a file of so many bytes.
fn first_wrong_extent(headers: &[ProgramHeader], file_size: usize) -> Option<usize>
    ensures { result ≡ position (is_extent_wrong file_size) headers.now }
{
    headers.iter().position(|h| h.is_extent_wrong(file_size))
}

/// Whether the segment shares an address with a loaded one of these.
fn shares_with_any(others: &[ProgramHeader], header: &ProgramHeader) -> bool
    ensures { result ≡ list_any (λ g. is_loaded g && shares_address g header.now) others.now }
{
    others
        .iter()
        .any(|g| g.is_loaded() && g.shares_address(header))
}

/// Whether one of these segments is loaded and executable.
fn has_text(headers: &[ProgramHeader]) -> bool
    ensures { result ≡ list_any is_text headers.now }
{
    headers.iter().any(|h| h.is_text())
}

/// Whether the segment is loaded and shares an address with a loaded one of those before it.
#[tactic(auto, unfolding(crate::specs::ProgramHeaders::is_overlap))]
fn is_overlap(before: &[ProgramHeader], header: &ProgramHeader) -> bool
    ensures { result ≡ is_overlap before.now header.now }
{
    header.is_loaded() && shares_with_any(before, header)
}

/// The index of the first loaded header that shares an address with one before it.
#[tactic(auto, using(crate::proofs::Scans::scan_steps))]
fn first_overlap(headers: &[ProgramHeader]) -> Option<usize>
    ensures first { result ≡ first_among is_overlap headers.now }
    ensures index { IfSome result (λ i. i < length headers.now) }
{
    for (i, header) in headers.iter().enumerate() {
        if is_overlap(&headers[..i], header) {
            return Some(i);
        }
    }
    None
}

/// Whether the segment is loaded and executable and comes after another such.
#[tactic(auto, unfolding(crate::specs::ProgramHeaders::is_second_text))]
fn is_second_text(before: &[ProgramHeader], header: &ProgramHeader) -> bool
    ensures { result ≡ is_second_text before.now header.now }
{
    header.is_text() && has_text(before)
}

/// The index of the second executable segment.
#[tactic(auto, using(crate::proofs::Scans::scan_steps))]
fn second_text(headers: &[ProgramHeader]) -> Option<usize>
    ensures first { result ≡ first_among is_second_text headers.now }
    ensures index { IfSome result (λ i. i < length headers.now) }
{
    for (i, header) in headers.iter().enumerate() {
        if is_second_text(&headers[..i], header) {
            return Some(i);
        }
    }
    None
}

/// The bytes of memory that the loaded segments take together with one more, or None where that one
/// passes a limit.
#[tactic(auto, unfolding(crate::specs::ProgramHeaders::passes_limit, crate::specs::ProgramHeaders::memory_taken))]
fn total_with(total: u64, header: &ProgramHeader) -> Option<u64>
    requires { total ≤ 2 ^ 25 }
    ensures passes { IsNone result ↔ (passes_limit total header.now ≡ true) }
    ensures kept { IfSome result (λ _. passes_limit total header.now ≡ false) }
    ensures total { IfSome result (λ sum. sum ≡ total + memory_taken header.now) }
    ensures within { IfSome result (λ sum. sum ≤ 2 ^ 25) }
{
    if !header.is_loaded() {
        return Some(total);
    }
    let sum = total + u64::from(header.p_memsz);
    if sum > MEMORY_LIMIT {
        return None;
    }
    if header.p_flags % 2 == 1 && header.p_filesz > TEXT_LIMIT {
        return None;
    }
    Some(sum)
}

/// The index of the first loaded header that passes a limit on sizes.
#[tactic(auto, using(crate::proofs::Scans::size_steps))]
fn first_too_large(headers: &[ProgramHeader]) -> Option<usize>
    ensures first { result ≡ first_among is_too_large headers.now }
    ensures index { IfSome result (λ i. i < length headers.now) }
{
    let mut total = 0;
    for (i, header) in headers.iter().enumerate() {
        let Some(sum) = total_with(total, header) else {
            return Some(i)
        };
        total = sum;
    }
    None
}

/// Whether there is an instruction word at all.
fn has_text_word(headers: &[ProgramHeader]) -> bool
    ensures { result ≡ list_any has_text_word headers.now }
{
    headers.iter().any(|h| h.has_text_word())
}

/// Whether an instruction word stands at the address.
fn has_text_word_at(headers: &[ProgramHeader], address: u32) -> bool
    ensures { result ≡ list_any (is_text_word address) headers.now }
{
    headers.iter().any(|h| h.is_text_word(u64::from(address)))
}

/// The first check of the program headers that fails, in a file of so many bytes with this entry
/// address.
#[tactic(auto, unfolding(crate::specs::Elf::table_refusal))]
pub(crate) fn table_refusal(
    file_size: usize,
    entry: u32,
    headers: &[ProgramHeader],
) -> Option<ElfRefusal>
    requires { length headers.now ≤ 64 }
    ensures { result ≡ table_refusal file_size entry headers.now }
{
    if let Some(i) = first_dynamic(headers) {
        return Some(ElfRefusal::Dynamic(i as u32));
    }
    if let Some(i) = first_wrong_extent(headers, file_size) {
        return Some(ElfRefusal::Extent(i as u32));
    }
    if let Some(i) = first_overlap(headers) {
        return Some(ElfRefusal::Overlap(i as u32));
    }
    if !has_text_word(headers) {
        return Some(ElfRefusal::NoText(0));
    }
    if let Some(i) = second_text(headers) {
        return Some(ElfRefusal::TwoTexts(i as u32));
    }
    if let Some(i) = first_too_large(headers) {
        return Some(ElfRefusal::Large(i as u32));
    }
    if !has_text_word_at(headers, entry) {
        return Some(ElfRefusal::Entry(E_ENTRY as u32));
    }
    None
}
