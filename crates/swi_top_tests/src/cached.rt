//! The command `cached`: the counts of its runs, and what stands in the ram.

use crate::devices::{ANY, QUIET, Row, Wanted, expect_wanted, holds, run_words};
use crate::texts::{BESIDE, CALL, COUNT, ROUND, SEVEN, STORE, file_of, with_counts};
use std::alloc::Global;
use std::test::Fail;
use swi_exec::FaultKind::*;
use swi_top::Ending::{self, *};

/// A command on the cached machine and its text; and then the answer and the counts, worked by hand from
/// the rules of the cache.
static COUNTED: [(&str, &[u32], Ending, [u64; 9]); 16] = [
    (
        "--block 8",
        SEVEN,
        Exited(7, 3),
        [3, 4, 0, 1, 0, 0, 0, 3, 5],
    ),
    // the block is linked to itself; in the midst, and not begun
    (
        "--block 16 --cache 64",
        COUNT,
        Exited(0, 9),
        [9, 12, 1, 1, 0, 1, 0, 11, 10],
    ),
    (
        "--block 16 --cache 64 --steps 4",
        COUNT,
        Spent(4, 0x10008),
        [4, 6, 1, 1, 0, 1, 0, 5, 10],
    ),
    (
        "--block 16 --cache 64 --steps 0",
        COUNT,
        Spent(0, 0x10000),
        [0, 1, 0, 1, 0, 0, 0, 0, 9],
    ),
    // one slot: each exit's block is evicted by its target; and two slots, with a link undone
    (
        "--block 5 --cache 20",
        COUNT,
        Exited(0, 9),
        [9, 16, 6, 7, 6, 0, 0, 15, 31],
    ),
    (
        "--block 5 --cache 40",
        COUNT,
        Exited(0, 9),
        [9, 16, 3, 3, 1, 3, 1, 15, 17],
    ),
    // the same blocks in a ring, also in one that has no room for two of 5 words
    (
        "--block 5 --cache 40 --ring",
        COUNT,
        Exited(0, 9),
        [9, 16, 3, 3, 1, 3, 1, 15, 17],
    ),
    (
        "--ring --block 5 --cache 36",
        COUNT,
        Exited(0, 9),
        [9, 16, 3, 3, 1, 3, 1, 15, 17],
    ),
    // first in, first out at its worst
    (
        "--block 2 --cache 16 --steps 6",
        ROUND,
        Spent(6, 0x10000),
        [6, 7, 6, 7, 5, 6, 0, 6, 20],
    ),
    // a jump to an address in a register, in one block and in three
    (
        "--block 16",
        CALL,
        Exited(65544, 5),
        [5, 7, 1, 1, 0, 0, 0, 6, 12],
    ),
    (
        "--block 5 --cache 60",
        CALL,
        Exited(65544, 5),
        [5, 8, 2, 3, 0, 1, 0, 7, 15],
    ),
    // outside the text nothing is fetched
    (
        "--steps 2",
        BESIDE,
        Spent(2, 0x20000),
        [2, 3, 0, 1, 0, 0, 0, 2, 4],
    ),
    (
        "--steps 3",
        BESIDE,
        Faulted(FetchAccess, 0x20000, 0x20000, 3),
        [3, 4, 0, 1, 0, 0, 0, 2, 4],
    ),
    (
        "--heap 0",
        &[0x00000363],
        Faulted(FetchMisaligned, 0x10000, 0x10006, 1),
        [1, 3, 0, 1, 0, 0, 0, 2, 5],
    ),
    // a stop before a store into the text is an instruction, but no step
    (
        "--heap 1",
        STORE,
        StoreText(0x10004, 0x10000, 1),
        [1, 4, 0, 1, 0, 0, 0, 3, 7],
    ),
    (
        "--steps 9",
        &[
            0x00500613, 0x1001252F, 0x18C125AF, 0x18C126AF, 0x00C1252F, 0x00012503, 0x00D50533,
            0x05D00893, 0x00000073,
        ],
        Exited(11, 9),
        [9, 10, 0, 1, 0, 0, 0, 9, 11],
    ),
];

#[test]
fn cached_runs_have_their_counts(rt: HostRuntime) -> Result<(), Fail> {
    let alloc = rt.alloc();
    for &(options, text, ending, numbers) in COUNTED.iter() {
        let words = ["cached A --stats ", options].concat(alloc)?;
        let lines = with_counts(alloc, "", &numbers)?;
        let wanted = Wanted {
            answer: Some(Ok(ending)),
            out: Some(lines.as_bytes()),
            fetches: Some(numbers[7]),
            sets: Some(numbers[8]),
            ..ANY
        };
        let file = file_of(alloc, text, 7, 0x10000)?;
        expect_wanted(alloc, &words, &QUIET, file, &wanted)?;
    }
    Ok(())
}

/// Options of a cached run, its text and the failing call of its ram; and the words that then stand in
/// the ram, with zeros behind.
static RAMS: [(&str, &[u32], u32, &[u32]); 5] = [
    (
        "--block 8 --cache 64",
        SEVEN,
        0,
        &[0x05D00893, 0x00700513, 0x00000073, 0x00100073, 0x0001000C],
    ),
    // the block is linked to itself; and its link can't be written
    (
        "--block 16 --cache 64",
        COUNT,
        0,
        &[
            0x00300293, 0xFFF28293, 0x00028663, 0xFF9FF06F, 0x00010004, 0x05D00893, 0x00000073,
            0x00100073, 0x00010014,
        ],
    ),
    (
        "--block 16 --cache 64",
        COUNT,
        14,
        &[
            0x00300293, 0xFFF28293, 0x00028663, 0x00100073, 0x00010004, 0x05D00893, 0x00000073,
            0x00100073, 0x00010014,
        ],
    ),
    // a link undone, whose word is an exit again, and links that stand
    (
        "--block 5 --cache 40",
        COUNT,
        0,
        &[
            0x05D00893, 0x00000073, 0x00100073, 0x00010014, 0, 0x00028663, 0x00100073, 0x00010004,
            0xFE1FF06F, 0x0001000C,
        ],
    ),
    // in a ring the blocks stand one behind the other
    (
        "--block 5 --cache 40 --ring",
        COUNT,
        0,
        &[
            0x05D00893, 0x00000073, 0x00100073, 0x00010014, 0x00028663, 0x00100073, 0x00010004,
            0xFE5FF06F, 0x0001000C,
        ],
    ),
];

/// Whether these words stand in a ram of 16 words, with zeros behind.
fn has_words(ram: &[u32], words: &[u32]) -> bool {
    let rest = ram.get(words.len()..).unwrap_or(&[]);
    ram.len() == 16 && ram.starts_with(words) && rest.iter().all(|word| *word == 0)
}

#[test]
fn blocks_and_links_stand_in_the_ram(rt: HostRuntime) -> Result<(), Fail> {
    let alloc = rt.alloc();
    for &(options, text, fails, words) in RAMS.iter() {
        let row = row!(ram: 16, ram_fails: fails);
        let command = ["cached A ", options].concat(alloc)?;
        let done = run_words(alloc, &command, &row, file_of(alloc, text, 5, 0x10000)?)?;
        let fact = done.answer.is_err() == (fails != 0) && has_words(&done.words, words);
        holds(&command, fact)?;
    }
    Ok(())
}
