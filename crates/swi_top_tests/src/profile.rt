//! The command `profile`.

use crate::devices::{QUIET, Row, expect_rows};
use crate::texts::{BESIDE, COUNT, ECHO, STORE, USAGE};
use std::test::Fail;
use swi_exec::FaultKind::*;
use swi_top::Ending::*;
use swi_top::Refusal::*;

/// The counts are worked by hand from what each program does.
static ROWS: [Row; 13] = [
    row!(words: "profile A", text: COUNT, answer: Ok(Exited(0, 9)),
        out: "00010000 1\n00010004 3\n00010008 3\n0001000c 1\n00010010 1\n"),
    // in the midst of a run, and not begun
    row!(words: "profile A --steps 4", text: COUNT, answer: Ok(Spent(4, 0x10008)),
        out: "00010000 1\n00010004 2\n00010008 1\n", err: "spent: 4 steps, pc 00010008\n"),
    row!(words: "profile A --steps 0", text: COUNT, answer: Ok(Spent(0, 0x10000)), err: "spent: 0 steps, pc 00010000\n"),
    // the step beside the text is counted at no word, and one that faults where it stands
    row!(words: "profile A", text: BESIDE, answer: Ok(Faulted(FetchAccess, 0x20000, 0x20000, 3)),
        out: "00010000 1\n00010004 1\n", err: "fault: fetch-access at 00020000, address 00020000, 3 steps\n"),
    row!(words: "profile A", text: STORE, answer: Ok(Faulted(StoreAccess, 0x10004, 0x10000, 2)),
        out: "00010000 1\n00010004 1\n", err: "fault: store-access at 00010004, address 00010000, 2 steps\n"),
    // a program that changes its text goes on, as by `plain`
    row!(words: "profile A", text: STORE, rights: 7, answer: Ok(Exited(0, 4)),
        out: "00010000 1\n00010004 1\n00010008 1\n0001000c 1\n"),
    // the program's own bytes stand before the lines
    row!(words: "profile A --steps 9", text: ECHO, input: "abc", answer: Ok(Spent(9, 0x10024)),
        out: "abc00010000 1\n00010004 1\n00010008 1\n0001000c 1\n00010010 1\n00010014 1\n00010018 1\n0001001c 1\n00010020 1\n",
        err: "spent: 9 steps, pc 00010024\n"),
    row!(words: "profile A", text: ECHO, input: "abc", input_fails: 1, answer: Err(SourceFault), err: "source fault\n"),
    row!(words: "profile A", text: COUNT, room: 16, answer: Err(SinkFault), out: "00010000 1\n00010", err: "sink fault\n"),
    row!(words: "profile B", answer: Err(ShelfFault), err: "shelf fault\n"),
    row!(words: "profile", answer: Err(Usage), err: USAGE),
    row!(words: "profile A --stats", answer: Err(Usage), err: USAGE),
    row!(words: "profile A --block 8", answer: Err(Usage), err: USAGE),
];

#[test]
fn each_word_is_counted(rt: HostRuntime) -> Result<(), Fail> {
    expect_rows(rt.alloc(), &ROWS)
}
