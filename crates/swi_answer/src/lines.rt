//! The lines that tell of an answer.
#![tactic(auto)]

ghost use Rattle.std.specs.Prelude.{◌≡◌, ◌≤◌, ◌++◌, codes, decimal, length};
ghost use Rattle.swi_answer.specs.Lines.{kind_name, ending_line, guest_line, numbered, elf_check, image_check, check_line, mismatch_line, refusal_line, image_line};

use crate::{Ending, Refusal};
use swi_check::Mismatch;
use swi_elf_read::ElfRefusal;
use swi_exec::FaultKind;
use swi_image::ImageRefusal;
use swi_line::Line;

fn kind_text(kind: FaultKind) -> &'static str
    ensures name { result.now ≡ kind_name kind }
    ensures short { length result.now ≤ 16 }
{
    match kind {
        FaultKind::FetchMisaligned => "fetch-misaligned",
        FaultKind::FetchAccess => "fetch-access",
        FaultKind::Illegal => "illegal",
        FaultKind::Break => "break",
        FaultKind::LoadAccess => "load-access",
        FaultKind::StoreAccess => "store-access",
    }
}

fn spent_line(steps: u64, pc: u32) -> Line
    ensures { result ≡ ending_line (Ending.Spent steps pc) }
{
    let mut line = Line::new();
    line.push_text("spent: ");
    line.push_decimal(steps);
    line.push_text(" steps, pc ");
    line.push_hex_word(pc);
    line.push_text("\n");
    line
}

fn fault_line(kind: FaultKind, pc: u32, address: u32, steps: u64) -> Line
    ensures { result ≡ ending_line (Ending.Faulted kind pc address steps) }
{
    let mut line = Line::new();
    line.push_text("fault: ");
    line.push_text(kind_text(kind));
    line.push_text(" at ");
    line.push_hex_word(pc);
    line.push_text(", address ");
    line.push_hex_word(address);
    line.push_text(", ");
    line.push_decimal(steps);
    line.push_text(" steps\n");
    line
}

fn store_line(pc: u32, address: u32, steps: u64) -> Line
    ensures { result ≡ ending_line (Ending.StoreText pc address steps) }
{
    let mut line = Line::new();
    line.push_text("store into text: pc ");
    line.push_hex_word(pc);
    line.push_text(", address ");
    line.push_hex_word(address);
    line.push_text(", ");
    line.push_decimal(steps);
    line.push_text(" steps\n");
    line
}

/// The line of an ending, empty where it has none: a guest that exited, and a command that is done.
pub fn line_of_ending(ending: &Ending) -> Line
    ensures { result ≡ ending_line ending.now }
{
    match *ending {
        Ending::Exited(_, _) | Ending::Done => Line::new(),
        Ending::Spent(steps, pc) => spent_line(steps, pc),
        Ending::Faulted(kind, pc, address, steps) => fault_line(kind, pc, address, steps),
        Ending::StoreText(pc, address, steps) => store_line(pc, address, steps),
    }
}

fn guest_exited(guest: u32, code: u32, steps: u64) -> Line
    ensures { result ≡ guest_line guest (Ending.Exited code steps) }
{
    let mut line = Line::new();
    line.push_decimal(u64::from(guest));
    line.push_text(" exited ");
    line.push_decimal(u64::from(code));
    line.push_text(" ");
    line.push_decimal(steps);
    line.push_text("\n");
    line
}

fn guest_spent(guest: u32, steps: u64, pc: u32) -> Line
    ensures { result ≡ guest_line guest (Ending.Spent steps pc) }
{
    let mut line = Line::new();
    line.push_decimal(u64::from(guest));
    line.push_text(" spent ");
    line.push_decimal(steps);
    line.push_text(" ");
    line.push_hex_word(pc);
    line.push_text("\n");
    line
}

fn guest_faulted(guest: u32, kind: FaultKind, pc: u32, address: u32, steps: u64) -> Line
    ensures { result ≡ guest_line guest (Ending.Faulted kind pc address steps) }
{
    let mut line = Line::new();
    line.push_decimal(u64::from(guest));
    line.push_text(" faulted ");
    line.push_text(kind_text(kind));
    line.push_text(" ");
    line.push_hex_word(pc);
    line.push_text(" ");
    line.push_hex_word(address);
    line.push_text(" ");
    line.push_decimal(steps);
    line.push_text("\n");
    line
}

fn guest_store(guest: u32, pc: u32, address: u32, steps: u64) -> Line
    ensures { result ≡ guest_line guest (Ending.StoreText pc address steps) }
{
    let mut line = Line::new();
    line.push_decimal(u64::from(guest));
    line.push_text(" store ");
    line.push_hex_word(pc);
    line.push_text(" ");
    line.push_hex_word(address);
    line.push_text(" ");
    line.push_decimal(steps);
    line.push_text("\n");
    line
}

/// The line of a program that shared a cache with others: its number among them, from 0, and its ending.
pub fn line_of_guest(guest: u32, ending: &Ending) -> Line
    ensures { result ≡ guest_line guest ending.now }
{
    match *ending {
        Ending::Exited(code, steps) => guest_exited(guest, code, steps),
        Ending::Spent(steps, pc) => guest_spent(guest, steps, pc),
        Ending::Faulted(kind, pc, address, steps) => {
            guest_faulted(guest, kind, pc, address, steps)
        }
        Ending::StoreText(pc, address, steps) => guest_store(guest, pc, address, steps),
        Ending::Done => Line::new(),
    }
}

/// A check of a file: its number, its name, and what it carries.
fn elf_parts(refusal: ElfRefusal) -> (u64, &'static str, u32)
    ensures number { result.0 ≡ (elf_check refusal).number }
    ensures name { result.1.now ≡ (elf_check refusal).name }
    ensures carried { result.2 ≡ (elf_check refusal).carried }
    ensures short { length result.1.now ≤ 16 }
{
    match refusal {
        ElfRefusal::Short(carried) => (1, "Short", carried),
        ElfRefusal::Magic(carried) => (2, "Magic", carried),
        ElfRefusal::Class(carried) => (3, "Class", carried),
        ElfRefusal::Order(carried) => (4, "Order", carried),
        ElfRefusal::Version(carried) => (5, "Version", carried),
        ElfRefusal::FileType(carried) => (6, "FileType", carried),
        ElfRefusal::Machine(carried) => (7, "Machine", carried),
        ElfRefusal::Flags(carried) => (8, "Flags", carried),
        ElfRefusal::HeaderSize(carried) => (9, "HeaderSize", carried),
        ElfRefusal::Many(carried) => (10, "Many", carried),
        ElfRefusal::Table(carried) => (11, "Table", carried),
        ElfRefusal::Dynamic(carried) => (12, "Dynamic", carried),
        ElfRefusal::Extent(carried) => (13, "Extent", carried),
        ElfRefusal::Overlap(carried) => (14, "Overlap", carried),
        ElfRefusal::NoText(carried) => (15, "NoText", carried),
        ElfRefusal::TwoTexts(carried) => (16, "TwoTexts", carried),
        ElfRefusal::Large(carried) => (17, "Large", carried),
        ElfRefusal::Entry(carried) => (18, "Entry", carried),
    }
}

/// A check of an image: its number, its name, and what it carries.
fn image_parts(refusal: ImageRefusal) -> (u64, &'static str, u32)
    ensures number { result.0 ≡ (image_check refusal).number }
    ensures name { result.1.now ≡ (image_check refusal).name }
    ensures carried { result.2 ≡ (image_check refusal).carried }
    ensures short { length result.1.now ≤ 16 }
{
    match refusal {
        ImageRefusal::Magic(carried) => (1, "Magic", carried),
        ImageRefusal::Version(carried) => (2, "Version", carried),
        ImageRefusal::BlockSize(carried) => (3, "BlockSize", carried),
        ImageRefusal::Length(carried) => (4, "Length", carried),
        ImageRefusal::Table(carried) => (5, "Table", carried),
        ImageRefusal::Offsets(carried) => (6, "Offsets", carried),
        ImageRefusal::Lengths(carried) => (7, "Lengths", carried),
    }
}

/// The line of a check that has a number.
fn check_line(subject: &str, number: u64, name: &str, carried: u64) -> Line
    requires subject { length subject.now ≤ 16 }
    requires name { length name.now ≤ 16 }
    ensures { result ≡ check_line subject.now (numbered number name.now carried) }
{
    let mut line = Line::new();
    line.push_text(subject);
    line.push_text(" ");
    line.push_decimal(number);
    line.push_text(" ");
    line.push_text(name);
    line.push_text(" ");
    line.push_decimal(carried);
    line.push_text("\n");
    line
}

fn elf_line(refusal: ElfRefusal) -> Line
    ensures { result ≡ refusal_line (Refusal.Elf refusal) }
{
    let (number, name, carried) = elf_parts(refusal);
    check_line("elf", number, name, u64::from(carried))
}

fn image_refusal_line(refusal: ImageRefusal) -> Line
    ensures { result ≡ refusal_line (Refusal.Image refusal) }
{
    let (number, name, carried) = image_parts(refusal);
    check_line("image", number, name, u64::from(carried))
}

fn text_line(text: &str) -> Line
    requires { length text.now ≤ 128 }
    ensures { result ≡ text.now }
{
    let mut line = Line::new();
    line.push_text(text);
    line
}

/// The line of one number in decimal.
fn number_line(text: &str, number: u64) -> Line
    requires { length text.now ≤ 32 }
    ensures { result ≡ text.now ++ decimal number ++ codes "\n" }
{
    let mut line = Line::new();
    line.push_text(text);
    line.push_decimal(number);
    line.push_text("\n");
    line
}

/// The line of two numbers in decimal.
fn numbers_line(text: &str, first: u64, second: u64) -> Line
    requires { length text.now ≤ 32 }
    ensures { result ≡ text.now ++ decimal first ++ codes " " ++ decimal second ++ codes "\n" }
{
    let mut line = Line::new();
    line.push_text(text);
    line.push_decimal(first);
    line.push_text(" ");
    line.push_decimal(second);
    line.push_text("\n");
    line
}

fn cover_line(address: u32) -> Line
    ensures { result ≡ mismatch_line (Mismatch.Cover address) }
{
    let mut line = Line::new();
    line.push_text("mismatch: cover ");
    line.push_hex_word(address);
    line.push_text("\n");
    line
}

fn place_line(address: u32, held: u32, required: u32) -> Line
    ensures { result ≡ mismatch_line (Mismatch.Place address held required) }
{
    let mut line = Line::new();
    line.push_text("mismatch: place ");
    line.push_hex_word(address);
    line.push_text(" ");
    line.push_decimal(u64::from(held));
    line.push_text(" ");
    line.push_decimal(u64::from(required));
    line.push_text("\n");
    line
}

fn length_line(block: u32, held: u32, required: u32) -> Line
    ensures { result ≡ mismatch_line (Mismatch.Length block held required) }
{
    let mut line = Line::new();
    line.push_text("mismatch: length ");
    line.push_decimal(u64::from(block));
    line.push_text(" ");
    line.push_decimal(u64::from(held));
    line.push_text(" ");
    line.push_decimal(u64::from(required));
    line.push_text("\n");
    line
}

fn word_line(block: u32, offset: u32, held: u32, required: u32) -> Line
    ensures { result ≡ mismatch_line (Mismatch.Word block offset held required) }
{
    let mut line = Line::new();
    line.push_text("mismatch: word ");
    line.push_decimal(u64::from(block));
    line.push_text(" ");
    line.push_decimal(u64::from(offset));
    line.push_text(" ");
    line.push_hex_word(held);
    line.push_text(" ");
    line.push_hex_word(required);
    line.push_text("\n");
    line
}

fn line_of_mismatch(mismatch: Mismatch) -> Line
    ensures { result ≡ mismatch_line mismatch }
{
    match mismatch {
        Mismatch::Cover { address } => cover_line(address),
        Mismatch::Place {
            address,
            held,
            required,
        } => place_line(address, held, required),
        Mismatch::Long { block, needs } => {
            numbers_line("mismatch: long ", u64::from(block), u64::from(needs))
        }
        Mismatch::Length {
            block,
            held,
            required,
        } => length_line(block, held, required),
        Mismatch::Word {
            block,
            offset,
            held,
            required,
        } => word_line(block, offset, held, required),
    }
}

fn long_line(address: u32, needs: u32) -> Line
    ensures { result ≡ refusal_line (Refusal.Long address needs) }
{
    let mut line = Line::new();
    line.push_text("long: ");
    line.push_hex_word(address);
    line.push_text(" ");
    line.push_decimal(u64::from(needs));
    line.push_text("\n");
    line
}

/// The line of a refusal.
pub fn line_of_refusal(refusal: &Refusal) -> Line
    ensures { result ≡ refusal_line refusal.now }
{
    match *refusal {
        Refusal::Usage => text_line(
            "usage: swic rewrite, cached, plain, trace, list, check, measure, upgrade, share, prefetch, survey, profile\n",
        ),
        Refusal::CacheLarge { bytes } => number_line("cache large: ", u64::from(bytes)),
        Refusal::RamSmall { bytes, held } => numbers_line("ram small: ", u64::from(bytes), held),
        Refusal::ShelfFault => text_line("shelf fault\n"),
        Refusal::FileLong { .. } => text_line("file too long\n"),
        Refusal::Elf(refusal) => elf_line(refusal),
        Refusal::Room { end } => check_line("elf", 19, "Room", end),
        Refusal::NoImage => text_line("no image\n"),
        Refusal::Image(refusal) => image_refusal_line(refusal),
        Refusal::Mismatch(mismatch) => line_of_mismatch(mismatch),
        Refusal::Long { address, needs } => long_line(address, needs),
        Refusal::CacheSmall { bytes, least } => {
            numbers_line("cache small: ", u64::from(bytes), u64::from(least))
        }
        Refusal::SourceFault => text_line("source fault\n"),
        Refusal::SinkFault => text_line("sink fault\n"),
        Refusal::RamFault => text_line("ram fault\n"),
        Refusal::Memory => text_line("no memory\n"),
    }
}

/// The line of an image that was checked: how many blocks it has, and the most words of a block.
pub fn image_line(blocks: u32, words: u32) -> Line
    ensures { result ≡ image_line blocks words }
{
    let mut line = Line::new();
    line.push_text("ok: ");
    line.push_decimal(u64::from(blocks));
    line.push_text(" blocks of ");
    line.push_decimal(u64::from(words));
    line.push_text(" words\n");
    line
}
