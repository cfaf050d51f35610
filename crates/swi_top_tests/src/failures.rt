//! Devices that fail.

use crate::devices::{
    ANY, QUIET, Row, Wanted, expect, expect_rows, expect_wanted, holds, is_other, run, run_words,
};
use crate::texts::{COUNT, ECHO, FIRST, SECOND, TABLE, bytes_of, file_of};
use std::test::Fail;
use swi_top::Ending::*;
use swi_top::Refusal::*;

/// The ram of 16 words fails at each call in turn, until the run makes fewer.
#[test]
fn each_call_of_the_ram_may_fail(rt: HostRuntime) -> Result<(), Fail> {
    let alloc = rt.alloc();
    for call in 1..=22u32 {
        let row =
            row!(words: "cached A --block 16 --cache 64 --stats", text: COUNT, ram: 16, ram_fails: call);
        let wanted = if call == 22 {
            Wanted {
                answer: Some(Ok(Exited(0, 9))),
                ..ANY
            }
        } else {
            Wanted {
                answer: Some(Err(RamFault)),
                out: Some(b""),
                err: Some(b"ram fault\n"),
                ..ANY
            }
        };
        let file = file_of(alloc, COUNT, 5, 0x10000)?;
        expect_wanted(alloc, row.words, &row, file, &wanted)?;
    }
    Ok(())
}

#[test]
fn a_run_whose_ram_fails_has_written_what_its_steps_wrote(rt: HostRuntime) -> Result<(), Fail> {
    let alloc = rt.alloc();
    for call in 1..=27u32 {
        let row = row!(words: "cached A --block 16", text: ECHO, input: "abc", ram_fails: call);
        let answer = if call == 27 {
            Ok(Exited(0, 12))
        } else {
            Err(RamFault)
        };
        let out: &str = if call < 24 { "" } else { "abc" };
        let wanted = Wanted {
            answer: Some(answer),
            out: Some(out.as_bytes()),
            ..ANY
        };
        let file = file_of(alloc, ECHO, 5, 0x10000)?;
        expect_wanted(alloc, row.words, &row, file, &wanted)?;
    }
    Ok(())
}

/// An echo whose input or output fails.
static BROKEN_ECHOES: [Row; 4] = [
    row!(words: "plain A", text: ECHO, input: "abc", input_fails: 1, answer: Err(SourceFault), err: "source fault\n"),
    row!(words: "plain A", text: ECHO, input: "abc", out_fails: 1, answer: Err(SinkFault), err: "sink fault\n"),
    row!(words: "cached A", text: ECHO, input: "abc", input_fails: 1, answer: Err(SourceFault), err: "source fault\n"),
    row!(words: "cached A", text: ECHO, input: "abc", out_fails: 1, answer: Err(SinkFault), err: "sink fault\n"),
];

#[test]
fn a_source_or_a_sink_that_fails_is_answered(rt: HostRuntime) -> Result<(), Fail> {
    expect_rows(rt.alloc(), &BROKEN_ECHOES)
}

#[test]
fn counts_of_which_a_write_fails_have_their_first_lines(rt: HostRuntime) -> Result<(), Fail> {
    let alloc = rt.alloc();
    let whole = run_words(alloc, "cached A --stats", &QUIET, bytes_of(alloc, &TABLE)?)?;
    for call in 1..=10u32 {
        let row = row!(words: "cached A --stats", out_fails: call);
        let done = run(alloc, &row, bytes_of(alloc, &TABLE)?)?;
        let fact = done.answer == Err(SinkFault)
            && whole.out.starts_with(&done.out)
            && !is_other(&done.err, Some(b"sink fault\n"));
        holds(row.words, fact)?;
    }
    Ok(())
}

#[test]
fn an_output_without_room_holds_what_came_first(rt: HostRuntime) -> Result<(), Fail> {
    for words in ["plain A --stats", "cached A --stats"] {
        let row =
            row!(words: words, room: 10, answer: Err(SinkFault), out: "hi\nsteps 1", err: "sink fault\n");
        expect(rt.alloc(), &row, bytes_of(rt.alloc(), &TABLE)?)?;
    }
    Ok(())
}

#[test]
fn a_shelf_that_fails_changes_no_other_name(rt: HostRuntime) -> Result<(), Fail> {
    let alloc = rt.alloc();
    let first = bytes_of(alloc, &FIRST)?;
    for words in ["rewrite A B --block 8", "upgrade A B"] {
        for call in 1..=3u32 {
            let row = row!(shelf_fails: call);
            let wanted = Wanted {
                answer: Some(if call < 3 { Err(ShelfFault) } else { Ok(Done) }),
                first: Some(&first),
                ..ANY
            };
            expect_wanted(alloc, words, &row, first.clone()?, &wanted)?;
        }
    }
    Ok(())
}

/// Commands on `SECOND` that ask the shelf for one file: where its first call fails, and where its second
/// would, which is never made.
static SHELF_ROWS: [Row; 10] = [
    row!(words: "plain A", shelf_fails: 1, answer: Err(ShelfFault), err: "shelf fault\n"),
    row!(words: "cached A", shelf_fails: 1, answer: Err(ShelfFault), err: "shelf fault\n"),
    row!(words: "trace A", shelf_fails: 1, answer: Err(ShelfFault), err: "shelf fault\n"),
    row!(words: "list A", shelf_fails: 1, answer: Err(ShelfFault), err: "shelf fault\n"),
    row!(words: "check A", shelf_fails: 1, answer: Err(ShelfFault), err: "shelf fault\n"),
    row!(words: "plain A", shelf_fails: 2),
    row!(words: "cached A", shelf_fails: 2),
    row!(words: "trace A", shelf_fails: 2,
        err: "00010000 05d00893 addi a7, zero, 93\n00010004 00700513 addi a0, zero, 7\n\
            00010008 00000073 ecall\n"),
    row!(words: "list A", shelf_fails: 2, answer: Ok(Done),
        out: "0 0 05d00893 00010000 addi a7, zero, 93\n0 1 00700513 00010004 addi a0, zero, 7\n\
            0 2 00000073 00010008 ecall\n0 3 00100073 00010008 fall\n0 4 0001000c 00010008 .\n"),
    row!(words: "check A", shelf_fails: 2, answer: Ok(Done), out: "ok: 1 blocks of 8 words\n"),
];

#[test]
fn a_command_that_reads_asks_the_shelf_once(rt: HostRuntime) -> Result<(), Fail> {
    for row in SHELF_ROWS.iter() {
        expect(rt.alloc(), row, bytes_of(rt.alloc(), &SECOND)?)?;
    }
    Ok(())
}
