//! The command `prefetch`.

use crate::devices::{QUIET, Row, expect_rows};
use crate::texts::{BESIDE, COUNT, SEVEN, STATE_AFTER_4, STORE, USAGE};
use std::test::Fail;
use swi_exec::FaultKind::*;
use swi_top::Ending::*;
use swi_top::Refusal::*;

/// Runs of the same program by the rate of the engine, worked by hand from its rules, and what is refused.
static ROWS: [Row; 9] = [
    Row {
        words: "prefetch A --block 5 --cache 60 --stats --rate 5",
        text: COUNT,
        answer: Ok(Exited(0, 9)),
        out: "steps 9\ninstructions 16\nservices 3\nmisses 1\nevictions 0\nlinks 3\nunlinks 0\nfetches 15\nwrites 16\n\
            engine 9\nprefetched 2\n",
        ..QUIET
    },
    // the service completes the copy of a block that the engine has begun
    Row {
        words: "prefetch A --block 5 --cache 60 --stats",
        text: COUNT,
        answer: Ok(Exited(0, 9)),
        out: "steps 9\ninstructions 16\nservices 3\nmisses 2\nevictions 0\nlinks 3\nunlinks 0\nfetches 15\nwrites 16\n\
            engine 6\nprefetched 1\n",
        ..QUIET
    },
    Row {
        words: "prefetch A --block 5 --cache 60 --stats --rate 0",
        text: COUNT,
        answer: Ok(Exited(0, 9)),
        out: "steps 9\ninstructions 16\nservices 3\nmisses 3\nevictions 0\nlinks 3\nunlinks 0\nfetches 15\nwrites 16\n\
            engine 0\nprefetched 0\n",
        ..QUIET
    },
    // the state, without counts, and in the midst of the run
    Row {
        words: "prefetch A --steps=4 --state --rate 1024",
        text: COUNT,
        answer: Ok(Spent(4, 0x10008)),
        out: STATE_AFTER_4,
        err: "spent: 4 steps, pc 00010008\n",
        ..QUIET
    },
    Row {
        words: "prefetch A",
        text: BESIDE,
        answer: Ok(Faulted(FetchAccess, 0x20000, 0x20000, 3)),
        err: "fault: fetch-access at 00020000, address 00020000, 3 steps\n",
        ..QUIET
    },
    Row {
        words: "prefetch A",
        text: STORE,
        rights: 7,
        answer: Ok(StoreText(0x10004, 0x10000, 1)),
        err: "store into text: pc 00010004, address 00010000, 1 steps\n",
        ..QUIET
    },
    Row {
        words: "prefetch A --ring",
        text: SEVEN,
        answer: Err(Usage),
        err: USAGE,
        ..QUIET
    },
    Row {
        words: "prefetch A --rate 1025",
        text: SEVEN,
        answer: Err(Usage),
        err: USAGE,
        ..QUIET
    },
    // the boot copies its block: the fourth set fails
    Row {
        words: "prefetch A --block 8",
        text: SEVEN,
        ram_fails: 4,
        answer: Err(RamFault),
        err: "ram fault\n",
        ..QUIET
    },
];

#[test]
fn an_engine_copies_ahead_of_the_run(rt: HostRuntime) -> Result<(), Fail> {
    expect_rows(rt.alloc(), &ROWS)
}
