//! Files that are no program, and those at the ends of what is one.

use crate::devices::{ANY, QUIET, Row, Wanted, expect, expect_wanted};
use crate::texts::{DOUBLE, FIRST, PLAIN, bytes_of, bytes_with, file_of};
use std::test::Fail;
use swi_elf_read::ElfRefusal::{self, *};
use swi_top::Ending::{self, *};
use swi_top::Refusal::{self, *};

/// How many of the first bytes of `FIRST` are there; and then what `cached` answers.
static FRONTS: [(usize, Result<Ending, Refusal>); 9] = [
    (0, Err(Elf(Short(0)))),
    (51, Err(Elf(Short(51)))),
    (52, Err(Elf(Table(28)))),
    (115, Err(Elf(Table(28)))),
    (116, Err(Elf(Extent(0)))),
    (127, Err(Elf(Extent(0)))),
    (128, Err(Elf(Extent(1)))),
    (199, Err(Elf(Extent(1)))),
    (200, Ok(Exited(7, 3))),
];

#[test]
fn the_front_of_a_file_is_refused(rt: HostRuntime) -> Result<(), Fail> {
    for &(size, answer) in FRONTS.iter() {
        let wanted = Wanted {
            answer: Some(answer),
            ..ANY
        };
        let mut file = bytes_of(rt.alloc(), &FIRST)?;
        file.truncate(size);
        expect_wanted(rt.alloc(), "cached A", &QUIET, file, &wanted)?;
    }
    Ok(())
}

/// The place of a word of `PLAIN` and what stands there instead; and then the check that fails, and its line.
static CHANGED: [(usize, u32, ElfRefusal, &str); 18] = [
    (0, 0x464C4580, Magic(0), "elf 2 Magic 0\n"),
    (1, 0x00010102, Class(4), "elf 3 Class 4\n"),
    (1, 0x00010201, Order(5), "elf 4 Order 5\n"),
    (1, 0x00020101, Version(6), "elf 5 Version 6\n"),
    (5, 2, Version(20), "elf 5 Version 20\n"),
    (4, 0x00F30003, FileType(16), "elf 6 FileType 16\n"),
    (4, 0x003E0002, Machine(18), "elf 7 Machine 18\n"),
    (9, 1, Flags(36), "elf 8 Flags 36\n"),
    (10, 0x00200040, HeaderSize(40), "elf 9 HeaderSize 40\n"),
    (10, 0x00380034, HeaderSize(42), "elf 9 HeaderSize 42\n"),
    (11, 65, Many(44), "elf 10 Many 44\n"),
    (7, 0xFFFFFFFF, Table(28), "elf 11 Table 28\n"),
    (13, 2, Dynamic(0), "elf 12 Dynamic 0\n"),
    (18, 11, Extent(0), "elf 13 Extent 0\n"),
    (19, 4, NoText(0), "elf 15 NoText 0\n"),
    (18, 33_554_433, Large(0), "elf 17 Large 0\n"),
    (6, 0x00010002, Entry(24), "elf 18 Entry 24\n"),
    (6, 0x0001000C, Entry(24), "elf 18 Entry 24\n"),
];

/// The same of the words of `DOUBLE`.
static DOUBLE_CHANGED: [(usize, u32, ElfRefusal, &str); 5] = [
    (26, 0, Extent(1), "elf 13 Extent 1\n"),
    (23, 0x0001000B, Overlap(1), "elf 14 Overlap 1\n"),
    (23, 0x0001000C, TwoTexts(1), "elf 16 TwoTexts 1\n"),
    (23, 0x00010000, Overlap(1), "elf 14 Overlap 1\n"),
    (23, 0x00020000, TwoTexts(1), "elf 16 TwoTexts 1\n"),
];

#[test]
fn a_changed_file_is_refused_with_its_line(rt: HostRuntime) -> Result<(), Fail> {
    let alloc = rt.alloc();
    for &(at, word, refusal, line) in CHANGED.iter() {
        let file = bytes_with(alloc, &PLAIN, at, word)?;
        expect(alloc, &row!(answer: Err(Elf(refusal)), err: line), file)?;
    }
    for &(at, word, refusal, line) in DOUBLE_CHANGED.iter() {
        let file = bytes_with(alloc, &DOUBLE, at, word)?;
        expect(alloc, &row!(answer: Err(Elf(refusal)), err: line), file)?;
    }
    Ok(())
}

/// Files of 2^26 and of 2^26 + 1 bytes, all of them 0: only the longer one is refused for its length.
static LONG_ROWS: [Row; 2] = [
    row!(answer: Err(Elf(Magic(0))), err: "elf 2 Magic 0\n"),
    row!(answer: Err(FileLong { limit: 67_108_864 }), err: "file too long\n"),
];

#[test]
fn a_file_may_have_two_to_the_26_bytes(rt: HostRuntime) -> Result<(), Fail> {
    for (longer, row) in LONG_ROWS.iter().enumerate() {
        let mut file = [0u8; 65_536].as_slice().repeat(rt.alloc(), 1024)?;
        if longer == 1 {
            file.push(0)?;
        }
        expect(rt.alloc(), row, file)?;
    }
    Ok(())
}

/// A file of `SEVEN` at 0xFFFF0000: the stack's place decides whether it has room.
static HIGH_ROWS: [Row; 2] = [
    row!(answer: Err(Room { end: 4_296_024_064 }), err: "elf 19 Room 4296024064\n"),
    row!(words: "cached A --heap 0 --stack 4096"),
];

#[test]
fn a_text_at_the_top_has_room_for_a_small_stack(rt: HostRuntime) -> Result<(), Fail> {
    for row in HIGH_ROWS.iter() {
        let file = file_of(rt.alloc(), row.text, row.rights, 0xFFFF0000)?;
        expect(rt.alloc(), row, file)?;
    }
    Ok(())
}
