//! The command `list`.

use crate::devices::{ANY, QUIET, Row, Wanted, expect_rows, expect_wanted};
use crate::texts::{COUNT, FIRST, SECOND, SEVEN, USAGE, bytes_of, file_of};
use std::test::Fail;
use swi_elf_read::ElfRefusal::*;
use swi_top::Ending::*;
use swi_top::Refusal::*;

/// The listing of `SEVEN` in one block, a line for each of its words.
const LINES: [&str; 5] = [
    "0 0 05d00893 00010000 addi a7, zero, 93\n",
    "0 1 00700513 00010004 addi a0, zero, 7\n",
    "0 2 00000073 00010008 ecall\n",
    "0 3 00100073 00010008 fall\n",
    "0 4 0001000c 00010008 .\n",
];

/// What fills that block in version 1, up to its eight words.
const PADS: &str =
    "0 5 00000000 -------- pad\n0 6 00000000 -------- pad\n0 7 00000000 -------- pad\n";

/// `COUNT` in blocks of five words.
const COUNT_BY_FIVE: &str =
    "0 0 00300293 00010000 addi t0, zero, 3\n0 1 fff28293 00010004 addi t0, t0, -1\n\
    0 2 00100073 00010004 fall\n0 3 00010008 00010004 .\n\
    1 0 00028663 00010008 bne t0, zero, 00010004\n1 1 00100073 00010008 .\n\
    1 2 00010004 00010008 .\n1 3 00100073 00010008 fall\n1 4 0001000c 00010008 .\n\
    2 0 05d00893 0001000c addi a7, zero, 93\n2 1 00000073 00010010 ecall\n\
    2 2 00100073 00010010 fall\n2 3 00010014 00010010 .\n";

/// Listings of files without an image, and files that are refused; none needs a ram.
static LISTINGS: [Row; 7] = [
    Row {
        words: "list A --block 5",
        text: COUNT,
        ram: 0,
        answer: Ok(Done),
        out: COUNT_BY_FIVE,
        ..QUIET
    },
    Row {
        words: "list --block=2 A",
        text: &[0xFFFFFFFF],
        ram: 0,
        answer: Ok(Done),
        out: "0 0 00100073 00010000 .word\n0 1 00010001 00010000 .\n",
        ..QUIET
    },
    Row {
        words: "list A --block 4",
        text: COUNT,
        answer: Err(Long {
            address: 0x10008,
            needs: 5,
        }),
        err: "long: 00010008 5\n",
        ..QUIET
    },
    Row {
        words: "list A",
        text: &[],
        answer: Err(Elf(NoText(0))),
        err: "elf 15 NoText 0\n",
        ..QUIET
    },
    Row {
        words: "list B",
        answer: Err(ShelfFault),
        err: "shelf fault\n",
        ..QUIET
    },
    Row {
        words: "list A",
        shelf_fails: 1,
        answer: Err(ShelfFault),
        err: "shelf fault\n",
        ..QUIET
    },
    Row {
        words: "list A --cache 64",
        answer: Err(Usage),
        err: USAGE,
        ..QUIET
    },
];

#[test]
fn blocks_of_a_cut_are_listed(rt: HostRuntime) -> Result<(), Fail> {
    expect_rows(rt.alloc(), &LISTINGS)
}

/// A text for which heap and stack find no room.
#[test]
fn a_listing_needs_no_room(rt: HostRuntime) -> Result<(), Fail> {
    let alloc = rt.alloc();
    let file = file_of(alloc, &[0x00000073], 5, 0xFFFF0000)?;
    let lines =
        "0 0 00000073 ffff0000 ecall\n0 1 00100073 ffff0000 fall\n0 2 ffff0004 ffff0000 .\n";
    let wanted = Wanted {
        answer: Some(Ok(Done)),
        out: Some(lines.as_bytes()),
        ..ANY
    };
    expect_wanted(alloc, "list A", &QUIET, file, &wanted)
}

/// The option has no effect where the file has an image: these blocks of eight words are listed as they are.
#[test]
fn the_blocks_of_an_image_are_listed(rt: HostRuntime) -> Result<(), Fail> {
    let alloc = rt.alloc();
    let lines = LINES.concat(alloc)?;
    let padded = [lines.as_str(), PADS].concat(alloc)?;
    for (words, file, expected) in [
        ("list A", &FIRST[..], &padded),
        ("list A --block 2", &FIRST[..], &padded),
        ("list A", &SECOND[..], &lines),
        ("list A --block 2", &SECOND[..], &lines),
    ] {
        let wanted = Wanted {
            answer: Some(Ok(Done)),
            out: Some(expected.as_bytes()),
            sets: Some(0),
            ..ANY
        };
        expect_wanted(alloc, words, &QUIET, bytes_of(alloc, file)?, &wanted)?;
    }
    Ok(())
}

/// Each line is one write: where the n-th fails, the lines before it have been written.
#[test]
fn a_listing_whose_output_fails_has_its_first_lines(rt: HostRuntime) -> Result<(), Fail> {
    let alloc = rt.alloc();
    for call in 1..=5u32 {
        let row = Row {
            words: "list A",
            out_fails: call,
            ..QUIET
        };
        let written = LINES[..(call - 1) as usize].concat(alloc)?;
        let wanted = Wanted {
            answer: Some(Err(SinkFault)),
            out: Some(written.as_bytes()),
            err: Some(b"sink fault\n"),
            ..ANY
        };
        let file = file_of(alloc, SEVEN, 5, 0x10000)?;
        expect_wanted(alloc, "list A", &row, file, &wanted)?;
    }
    Ok(())
}
