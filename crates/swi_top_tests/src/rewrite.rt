//! The commands `rewrite`, `upgrade` and `check`.

use crate::devices::{ANY, QUIET, Row, Wanted, expect, expect_wanted, holds, run_words};
use crate::texts::{FIRST, PLAIN, SECOND, bytes_of, file_of};
use std::alloc::Global;
use std::test::Fail;
use swi_top::Ending::*;

/// Commands that write the same file under `B`.
static REWRITTEN: [(&str, &[u32]); 4] = [
    ("rewrite A B --block 8", &PLAIN),
    ("rewrite A B --block=8", &FIRST),
    ("upgrade A B", &FIRST),
    ("upgrade A B", &SECOND),
];

#[test]
fn files_are_rewritten_and_upgraded(rt: HostRuntime) -> Result<(), Fail> {
    let alloc = rt.alloc();
    let second = bytes_of(alloc, &SECOND)?;
    let wanted = Wanted {
        answer: Some(Ok(Done)),
        out: Some(b""),
        err: Some(b""),
        second: Some(&second),
        ..ANY
    };
    for &(words, file) in REWRITTEN.iter() {
        expect_wanted(alloc, words, &QUIET, bytes_of(alloc, file)?, &wanted)?;
    }
    Ok(())
}

#[test]
fn files_of_both_versions_are_checked(rt: HostRuntime) -> Result<(), Fail> {
    let row = row!(words: "check A", answer: Ok(Done), out: "ok: 1 blocks of 8 words\n");
    for file in [&FIRST[..], &SECOND[..]] {
        expect(rt.alloc(), &row, bytes_of(rt.alloc(), file)?)?;
    }
    Ok(())
}

/// An LR.W at the fourth word and its SC.W at the seventh; exits with what the SC.W says, 0 for a success.
const ATOMIC: &[u32] = &[
    0x00500613, 0x00000013, 0x00000013, 0x1001252F, 0x00000013, 0x00000013, 0x18C125AF, 0x00058513,
    0x05D00893, 0x00000073,
];

/// How a text is cut, what `check` then says of it, and where `list` shows its LR.W.
static CUTS: [(&str, &str, &str); 2] = [
    (
        "rewrite A B --block 8",
        "ok: 2 blocks of 8 words\n",
        "\n0 3 1001252f 0001000c ",
    ),
    (
        "rewrite A B --block 8 --whole-loops",
        "ok: 3 blocks of 8 words\n",
        "\n1 0 1001252f 0001000c ",
    ),
];

/// What a command writes under `B`, of this file.
fn rewritten(alloc: Global, words: &str, file: Vec<u8>) -> Result<Vec<u8>, Fail> {
    let done = run_words(alloc, words, &QUIET, file)?;
    Ok(done.second.clone()?)
}

/// Fails where `list` does not show this text.
fn expect_shown(alloc: Global, file: Vec<u8>, shown: &str) -> Result<(), Fail> {
    let done = run_words(alloc, "list A", &QUIET, file)?;
    let is_shown = match str::from_utf8(&done.out) {
        Ok(text) => text.contains(shown),
        Err(_) => false,
    };
    holds(shown, is_shown)
}

#[test]
fn a_loop_of_lr_and_sc_stays_whole_where_that_is_asked(rt: HostRuntime) -> Result<(), Fail> {
    let alloc = rt.alloc();
    for &(words, line, shown) in CUTS.iter() {
        let file = rewritten(alloc, words, file_of(alloc, ATOMIC, 5, 0x10000)?)?;
        let row = row!(words: "check A", answer: Ok(Done), out: line);
        expect(alloc, &row, file.clone()?)?;
        let row = row!(words: "cached A --cache 32", answer: Ok(Exited(0, 10)));
        expect(alloc, &row, file.clone()?)?;
        expect_shown(alloc, file, shown)?;
    }
    Ok(())
}

#[test]
fn a_file_may_be_rewritten_in_its_place(rt: HostRuntime) -> Result<(), Fail> {
    let alloc = rt.alloc();
    let second = bytes_of(alloc, &SECOND)?;
    let wanted = Wanted {
        first: Some(&second),
        ..ANY
    };
    let file = bytes_of(alloc, &PLAIN)?;
    expect_wanted(alloc, "rewrite A A --block 8", &QUIET, file, &wanted)
}
