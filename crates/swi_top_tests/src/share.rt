//! Programs that share a cache.

use crate::devices::{QUIET, Row, expect_rows};
use crate::texts::{BESIDE, STORE, USAGE};
use std::test::Fail;
use swi_top::Ending::*;
use swi_top::Refusal::*;

/// Worked by hand. The order of seed 0 begins with programs 0 0 0 1 0 0 0 1 1, that of seed 147 with 0 1 0 1 0 1, and that of
/// seed 84 with 0 0 0 1 1 1.
static ROWS: [Row; 12] = [
    row!(words: "share A A --block 8 --cache 32 --stats", answer: Ok(Done),
        out: "0 exited 7 3\n1 exited 7 3\ninstructions 8\nmisses 2\nevictions 1\nlinks 0\nunlinks 0\nwrites 10\n"),
    row!(words: "share A A --block 8 --cache 32 --stats --events 6 --seed 147", answer: Ok(Done),
        out: "0 exited 7 3\n1 exited 7 3\ninstructions 12\nmisses 6\nevictions 5\nlinks 0\nunlinks 0\nwrites 30\n"),
    row!(words: "share A A --block 8 --cache 32 --stats --events 6 --seed 84", answer: Ok(Done),
        out: "0 exited 7 3\n1 exited 7 3\ninstructions 8\nmisses 2\nevictions 1\nlinks 0\nunlinks 0\nwrites 10\n"),
    row!(words: "share A A A", answer: Ok(Done), out: "0 exited 7 3\n1 exited 7 3\n2 exited 7 3\n"),
    row!(words: "share A A --events 0", answer: Ok(Done), out: "0 spent 0 00010000\n1 spent 0 00010000\n"),
    row!(words: "share A A --events 2", answer: Ok(Done), out: "0 spent 2 00010008\n1 spent 0 00010000\n"),
    row!(words: "share A A", text: BESIDE, answer: Ok(Done),
        out: "0 faulted fetch-access 00020000 00020000 3\n1 faulted fetch-access 00020000 00020000 3\n"),
    row!(words: "share A A", text: STORE, rights: 7, answer: Ok(Done),
        out: "0 store 00010004 00010000 1\n1 store 00010004 00010000 1\n"),
    row!(words: "share A A --block 8 --cache 31", answer: Err(CacheSmall { bytes: 31, least: 32 }), err: "cache small: 31 32\n"),
    row!(words: "share A B", answer: Err(ShelfFault), err: "shelf fault\n"),
    row!(words: "share A A", room: 10, answer: Err(SinkFault), out: "0 exited 7", err: "sink fault\n"),
    row!(words: "share A", answer: Err(Usage), err: USAGE),
];

#[test]
fn programs_share_a_cache(rt: HostRuntime) -> Result<(), Fail> {
    expect_rows(rt.alloc(), &ROWS)
}
