//! The command `measure`.

use crate::devices::{ANY, QUIET, Row, Wanted, expect, expect_wanted, holds, run_words};
use crate::texts::USAGE;
use std::alloc::Global;
use std::test::Fail;
use swi_top::Ending::*;
use swi_top::Refusal::*;

/// The summary of one function of four additions, worked by hand.
const SUMMARY: &str =
    "functions 1\ntext 16\nblocks 1\nexit 32\nsteps 106\ninstructions 124\nservices 11\nmisses 1\n\
    evictions 0\nlinks 3\nunlinks 0\nfetches 123\nwrites 27\n";

/// Summaries, and what is refused. No shelf and no input is asked.
static ROWS: [Row; 15] = [
    Row {
        words: "measure 1 1",
        shelf_fails: 1,
        input_fails: 1,
        answer: Ok(Done),
        out: SUMMARY,
        ..QUIET
    },
    Row {
        words: "measure --cache=256 1 1",
        ram: 64,
        answer: Ok(Done),
        out: SUMMARY,
        ..QUIET
    },
    Row {
        words: "measure 1 1 --ring",
        answer: Ok(Done),
        out: SUMMARY,
        ..QUIET
    },
    Row {
        words: "measure 1 1 --block 4",
        answer: Err(Long {
            address: 0x1000C,
            needs: 5,
        }),
        err: "long: 0001000c 5\n",
        ..QUIET
    },
    Row {
        words: "measure 1 1 --block 4 --cache 8",
        answer: Err(Long {
            address: 0x1000C,
            needs: 5,
        }),
        err: "long: 0001000c 5\n",
        ..QUIET
    },
    Row {
        words: "measure 1 1 --cache 255",
        answer: Err(CacheSmall {
            bytes: 255,
            least: 256,
        }),
        err: "cache small: 255 256\n",
        ..QUIET
    },
    Row {
        words: "measure 1 1 --cache 8388609",
        answer: Err(CacheLarge { bytes: 8388609 }),
        err: "cache large: 8388609\n",
        ..QUIET
    },
    Row {
        words: "measure 1 1 --cache 4100",
        answer: Err(RamSmall {
            bytes: 4100,
            held: 4096,
        }),
        err: "ram small: 4100 4096\n",
        ..QUIET
    },
    Row {
        words: "measure 1 1",
        out_fails: 1,
        answer: Err(SinkFault),
        err: "sink fault\n",
        ..QUIET
    },
    Row {
        words: "measure 1 1",
        out_fails: 4,
        answer: Err(SinkFault),
        out: "functions 1\ntext 16\nblocks 1\n",
        err: "sink fault\n",
        ..QUIET
    },
    Row {
        words: "measure 1 1",
        ram_fails: 1,
        answer: Err(RamFault),
        err: "ram fault\n",
        ..QUIET
    },
    Row {
        words: "measure 1 1",
        ram_fails: 150,
        answer: Err(RamFault),
        err: "ram fault\n",
        ..QUIET
    },
    Row {
        words: "measure 1 0",
        answer: Err(Usage),
        err: USAGE,
        ..QUIET
    },
    Row {
        words: "measure 1 4097",
        answer: Err(Usage),
        err: USAGE,
        ..QUIET
    },
    Row {
        words: "measure 1",
        answer: Err(Usage),
        err: USAGE,
        ..QUIET
    },
];

#[test]
fn made_programs_are_measured(rt: HostRuntime) -> Result<(), Fail> {
    let alloc = rt.alloc();
    for row in ROWS.iter() {
        expect(alloc, row, Vec::new(alloc))?;
    }
    Ok(())
}

/// The report's counts are those that the ram has counted.
#[test]
fn the_ram_has_counted_the_same(rt: HostRuntime) -> Result<(), Fail> {
    let alloc = rt.alloc();
    let wanted = Wanted {
        fetches: Some(123),
        sets: Some(27),
        ..ANY
    };
    expect_wanted(alloc, "measure 1 1", &QUIET, Vec::new(alloc), &wanted)
}

/// A seed, a number of functions and the words of the text that a script outside made of them.
const MADE: [(u32, u64, u64); 10] = [
    (1, 1, 16),
    (0, 1, 16),
    (2, 3, 40),
    (7, 2048, 29394),
    (4294967295, 5, 70),
    (12345, 17, 245),
    (99, 64, 947),
    (3, 4096, 59021),
    (2147483648, 1000, 14511),
    (42, 255, 3812),
];

/// A text of 6 + 6 C + s words, with s additions in C functions, makes 26 + 8 (6 C + s) steps and exits with 8 s.
fn expect_made(alloc: Global, seed: u32, functions: u64, text: u64) -> Result<(), Fail> {
    let additions = text.saturating_sub(functions.saturating_mul(6).saturating_add(6));
    let exit = additions.saturating_mul(8);
    let steps = text.saturating_mul(8).saturating_sub(22);
    let head = format!(in alloc; "functions {functions}\ntext {text}\nblocks ")?;
    let tail = format!(in alloc; "\nexit {exit}\nsteps {steps}\ninstructions ")?;
    let words = format!(in alloc; "measure {seed} {functions}")?;
    expect_ends(alloc, &words, &head, &tail)
}

/// Fails where a summary does not begin with one text and have the other.
fn expect_ends(alloc: Global, words: &str, head: &str, tail: &str) -> Result<(), Fail> {
    let done = run_words(alloc, words, &QUIET, Vec::new(alloc))?;
    let is_so = match str::from_utf8(&done.out) {
        Ok(out) => out.starts_with(head) && out.contains(tail),
        Err(_) => false,
    };
    holds(
        words,
        is_so && done.answer == Ok(Done) && done.err.is_empty(),
    )
}

#[test]
fn made_programs_end_after_the_steps_and_with_the_sum_that_their_text_says(
    rt: HostRuntime,
) -> Result<(), Fail> {
    for (seed, functions, text) in MADE {
        expect_made(rt.alloc(), seed, functions, text)?;
    }
    Ok(())
}

/// The counts of a large program in a small cache; the same at each run.
#[test]
fn a_large_program_has_its_counts(rt: HostRuntime) -> Result<(), Fail> {
    let alloc = rt.alloc();
    let expected =
        "functions 2048\ntext 29394\nblocks 634\nexit 136800\nsteps 235130\ninstructions 271140\n\
        services 36016\nmisses 5073\nevictions 5065\nlinks 19632\nunlinks 2320\nfetches 271139\nwrites 345590\n";
    let wanted = Wanted {
        answer: Some(Ok(Done)),
        out: Some(expected.as_bytes()),
        ..ANY
    };
    for _ in 0..2 {
        let words = "measure 7 2048 --cache 2048";
        expect_wanted(alloc, words, &QUIET, Vec::new(alloc), &wanted)?;
    }
    Ok(())
}
