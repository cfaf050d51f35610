//! Traces, worked by hand from the texts of instructions.

use crate::devices::{
    ANY, QUIET, Row, Stands, Wanted, agrees, expect_rows, expect_wanted, holds, run, run_words,
};
use crate::texts::{BESIDE, CALL, COUNT, ECHO, ROUND, SEVEN, STORE, file_of};
use std::alloc::Global;
use std::test::Fail;
use swi_exec::FaultKind::*;
use swi_top::Ending::*;
use swi_top::Refusal::*;

/// Three lines.
const SEVEN_LINES: &str =
    "00010000 05d00893 addi a7, zero, 93\n00010004 00700513 addi a0, zero, 7\n00010008 00000073 ecall\n";

const SPENT_LINES: &str =
    "00010000 00300293 addi t0, zero, 3\n00010004 fff28293 addi t0, t0, -1\nspent: 2 steps, pc 00010008\n";

/// Lines of each step, or of the last ones, behind the run: whole runs, and runs that end before their text does.
static TRACES: [Row; 15] = [
    row!(words: "trace A --block 8", err: SEVEN_LINES),
    row!(words: "trace A --block 8 --last", err: SEVEN_LINES),
    row!(words: "trace A --block 16 --steps 2 --last", text: COUNT, answer: Ok(Spent(2, 0x10008)), err: SPENT_LINES),
    row!(words: "trace A --block 16 --steps 2", text: COUNT, answer: Ok(Spent(2, 0x10008)), err: SPENT_LINES),
    row!(words: "trace A --block 5 --cache 36 --ring --steps 2", text: COUNT, answer: Ok(Spent(2, 0x10008)), err: SPENT_LINES),
    row!(words: "trace A --steps 0", text: COUNT, answer: Ok(Spent(0, 0x10000)), err: "spent: 0 steps, pc 00010000\n"),
    row!(words: "trace A --steps 0 --last", text: COUNT, answer: Ok(Spent(0, 0x10000)), err: "spent: 0 steps, pc 00010000\n"),
    // a step that would store into the text has its line, and is not made; at the limit it isn't told
    row!(words: "trace A", text: STORE, rights: 7, answer: Ok(StoreText(0x10004, 0x10000, 1)),
        err: "00010000 00000297 auipc t0, 0x0\n00010004 0002a023 sw zero, 0(t0)\n\
            store into text: pc 00010004, address 00010000, 1 steps\n"),
    row!(words: "trace A --last", text: STORE, rights: 7, answer: Ok(StoreText(0x10004, 0x10000, 1)),
        err: "00010000 00000297 auipc t0, 0x0\n00010004 0002a023 sw zero, 0(t0)\n\
            store into text: pc 00010004, address 00010000, 1 steps\n"),
    row!(words: "trace A --steps 1", text: STORE, rights: 7, answer: Ok(Spent(1, 0x10004)),
        err: "00010000 00000297 auipc t0, 0x0\nspent: 1 steps, pc 00010004\n"),
    // steps that end the run by a fault have theirs, also one beside the text
    row!(words: "trace A", text: STORE, answer: Ok(Faulted(StoreAccess, 0x10004, 0x10000, 2)),
        err: "00010000 00000297 auipc t0, 0x0\n00010004 0002a023 sw zero, 0(t0)\n\
            fault: store-access at 00010004, address 00010000, 2 steps\n"),
    row!(words: "trace A", text: BESIDE, answer: Ok(Faulted(FetchAccess, 0x20000, 0x20000, 3)),
        err: "00010000 000202b7 lui t0, 0x20\n00010004 000280e7 jalr ra, 0(t0)\n00020000 -------- outside\n\
            fault: fetch-access at 00020000, address 00020000, 3 steps\n"),
    row!(words: "trace A --last", text: BESIDE, answer: Ok(Faulted(FetchAccess, 0x20000, 0x20000, 3)),
        err: "00010000 000202b7 lui t0, 0x20\n00010004 000280e7 jalr ra, 0(t0)\n00020000 -------- outside\n\
            fault: fetch-access at 00020000, address 00020000, 3 steps\n"),
    // an instruction that is rendered as several words has one line
    row!(words: "trace A --block 5 --cache 20", text: &[0x008000EF, 0, 0x05D00893, 0x00000073], answer: Ok(Exited(0, 3)),
        err: "00010000 008000ef jal ra, 00010008\n00010008 05d00893 addi a7, zero, 93\n0001000c 00000073 ecall\n"),
    row!(words: "trace B", answer: Err(ShelfFault), err: "shelf fault\n"),
];

#[test]
fn steps_have_their_lines(rt: HostRuntime) -> Result<(), Fail> {
    expect_rows(rt.alloc(), &TRACES)
}

/// Devices that fail: the lines so far stand before the last line, that of the broken step included.
static BROKEN: [Row; 11] = [
    row!(words: "trace A --block 8", err_fails: 1, answer: Err(SinkFault), err: "sink fault\n"),
    row!(words: "trace A --block 8", err_fails: 2, answer: Err(SinkFault),
        err: "00010000 05d00893 addi a7, zero, 93\nsink fault\n"),
    row!(words: "trace A --block 8", err_fails: 3, answer: Err(SinkFault),
        err: "00010000 05d00893 addi a7, zero, 93\n00010004 00700513 addi a0, zero, 7\nsink fault\n"),
    row!(words: "trace A --block 8 --last", err_fails: 3, answer: Err(SinkFault),
        err: "00010000 05d00893 addi a7, zero, 93\n00010004 00700513 addi a0, zero, 7\nsink fault\n"),
    // the ending's line
    row!(words: "trace A --steps 1", err_fails: 2, answer: Err(SinkFault),
        err: "00010000 05d00893 addi a7, zero, 93\nsink fault\n"),
    // five words are set, and then each step fetches one
    row!(words: "trace A --block 8", ram_fails: 5, answer: Err(RamFault), err: "ram fault\n"),
    row!(words: "trace A --block 8", ram_fails: 6, answer: Err(RamFault),
        err: "00010000 05d00893 addi a7, zero, 93\nram fault\n"),
    row!(words: "trace A --block 8", ram_fails: 8, answer: Err(RamFault),
        err: "00010000 05d00893 addi a7, zero, 93\n00010004 00700513 addi a0, zero, 7\n00010008 00000073 ecall\nram fault\n"),
    row!(words: "trace A --block 8 --last", ram_fails: 8, answer: Err(RamFault), err: "ram fault\n"),
    // a call whose device fails
    row!(words: "trace A", text: ECHO, input: "abc", input_fails: 1, answer: Err(SourceFault),
        err: "00010000 03f00893 addi a7, zero, 63\n00010004 00000513 addi a0, zero, 0\n00010008 00010593 addi a1, sp, 0\n\
            0001000c 01000613 addi a2, zero, 16\n00010010 00000073 ecall\nsource fault\n"),
    row!(words: "trace A --last", text: ECHO, input: "abc", out_fails: 1, answer: Err(SinkFault), err: "sink fault\n"),
];

#[test]
fn lines_stand_where_a_device_fails(rt: HostRuntime) -> Result<(), Fail> {
    for row in BROKEN.iter() {
        let file = file_of(rt.alloc(), row.text, row.rights, 0x10000)?;
        let wanted = Wanted {
            answer: Some(row.answer),
            err: Some(row.err.as_bytes()),
            ..ANY
        };
        expect_wanted(rt.alloc(), row.words, row, file, &wanted)?;
    }
    Ok(())
}

/// Counts from 20 down to 0, and exits with 0: 43 steps.
const LONG_COUNT: &[u32] = &[0x01400293, 0xFFF28293, 0xFE029EE3, 0x05D00893, 0x00000073];

const ROUND_LINES: &str =
    "00010004 fff28293 addi t0, t0, -1\n00010008 fe029ee3 bne t0, zero, 00010004\n";

const END_LINES: &str = "0001000c 05d00893 addi a7, zero, 93\n00010010 00000073 ecall\n";

/// A command on `LONG_COUNT`, and its first line, how many rounds it then tells, and its last lines.
static ROUNDS: [(&str, &str, u32, &str); 3] = [
    (
        "trace A --block 5 --cache 20",
        "00010000 01400293 addi t0, zero, 20\n",
        20,
        END_LINES,
    ),
    ("trace A --last", "", 15, END_LINES),
    (
        "trace A --steps 40 --last",
        "00010008 fe029ee3 bne t0, zero, 00010004\n",
        15,
        "00010004 fff28293 addi t0, t0, -1\nspent: 40 steps, pc 00010008\n",
    ),
];

#[test]
fn the_last_lines_are_32(rt: HostRuntime) -> Result<(), Fail> {
    let alloc = rt.alloc();
    for &(words, first, rounds, last) in ROUNDS.iter() {
        let mut lines = String::from_str(alloc, first)?;
        for _ in 0..rounds {
            lines.push_str(ROUND_LINES)?;
        }
        lines.push_str(last)?;
        let wanted = Wanted {
            err: Some(lines.as_bytes()),
            ..ANY
        };
        let file = file_of(alloc, LONG_COUNT, 5, 0x10000)?;
        expect_wanted(alloc, words, &QUIET, file, &wanted)?;
    }
    Ok(())
}

/// Writes `hi` and a newline to the errors from its text's last word, and exits with their number.
const TELLS: &[u32] = &[
    0x00200513, 0x000105B7, 0x02058593, 0x00300613, 0x04000893, 0x00000073, 0x05D00893, 0x00000073,
    0x000A6968,
];

const TELLING: &str =
    "00010000 00200513 addi a0, zero, 2\n00010004 000105b7 lui a1, 0x10\n00010008 02058593 addi a1, a1, 32\n\
    0001000c 00300613 addi a2, zero, 3\n00010010 04000893 addi a7, zero, 64\n00010014 00000073 ecall\n";

/// What the program writes to the errors stands behind its step's line, or before the last lines.
#[test]
fn the_programs_errors_stand_among_the_lines(rt: HostRuntime) -> Result<(), Fail> {
    let alloc = rt.alloc();
    let rest = "00010018 05d00893 addi a7, zero, 93\n0001001c 00000073 ecall\n";
    let each = [TELLING, "hi\n", rest].concat(alloc)?;
    let last = ["hi\n", TELLING, rest].concat(alloc)?;
    for (words, wanted) in [("trace A", &each), ("trace A --last", &last)] {
        let wanted = Wanted {
            answer: Some(Ok(Exited(3, 8))),
            err: Some(wanted.as_bytes()),
            ..ANY
        };
        let file = file_of(alloc, TELLS, 5, 0x10000)?;
        expect_wanted(alloc, words, &QUIET, file, &wanted)?;
    }
    Ok(())
}

/// Fails where a command answers or writes otherwise on a text than `cached` does, but for the lines before the errors, or
/// leaves another ram.
fn expect_same(alloc: Global, words: &str, row: &Row, whole: &Stands) -> Result<(), Fail> {
    let done = run_words(alloc, words, row, file_of(alloc, row.text, 7, 0x10000)?)?;
    let wanted = Wanted {
        answer: Some(whole.answer),
        out: Some(&whole.out),
        fetches: Some(whole.fetches),
        sets: Some(whole.sets),
        ..ANY
    };
    agrees(words, &done, &wanted)?;
    holds(
        words,
        done.err.ends_with(&whole.err) && done.words.as_slice() == whole.words.as_slice(),
    )
}

#[test]
fn a_trace_is_the_run_of_cached(rt: HostRuntime) -> Result<(), Fail> {
    let alloc = rt.alloc();
    for text in [SEVEN, COUNT, ROUND, CALL, STORE, ECHO, LONG_COUNT] {
        let row = row!(words: "cached A --steps 50 --block 6 --cache 48", text: text, input: "abc");
        let whole = run(alloc, &row, file_of(alloc, text, 7, 0x10000)?)?;
        for words in [
            "trace A --steps 50 --block 6 --cache 48",
            "trace A --steps 50 --block 6 --cache 48 --last",
        ] {
            expect_same(alloc, words, &row, &whole)?;
        }
    }
    Ok(())
}
