//! The command `survey`.

use crate::devices::{QUIET, Row, expect_rows};
use crate::texts::{BESIDE, COUNT, ECHO, SEVEN, STORE, USAGE};
use std::test::Fail;
use swi_exec::FaultKind::*;
use swi_top::Ending::*;
use swi_top::Refusal::*;

/// The counts are those of `cached`, worked by hand from the rules of the cache.
static ROWS: [Row; 16] = [
    row!(words: "survey A 20 40 60 --block 5", text: COUNT, answer: Ok(Exited(0, 9)),
        out: "20 9 16 6 7 6 0 0 15 31\n40 9 16 3 3 1 3 1 15 17\n60 9 16 3 3 0 3 0 15 16\n"),
    // in the order given, one size twice, and one with bytes that no slot has
    row!(words: "survey A 43 20 43 --block 5", text: COUNT, answer: Ok(Exited(0, 9)),
        out: "43 9 16 3 3 1 3 1 15 17\n20 9 16 6 7 6 0 0 15 31\n43 9 16 3 3 1 3 1 15 17\n"),
    row!(words: "survey A --ring 36 40 --block 5", text: COUNT, answer: Ok(Exited(0, 9)),
        out: "36 9 16 3 3 1 3 1 15 17\n40 9 16 3 3 1 3 1 15 17\n"),
    // in the midst of a run, and not begun
    row!(words: "survey A 64 --block 16 --steps 4", text: COUNT, answer: Ok(Spent(4, 0x10008)),
        out: "64 4 6 1 1 0 1 0 5 10\n", err: "spent: 4 steps, pc 00010008\n"),
    row!(words: "survey A 64 --block 16 --steps 0", text: COUNT, answer: Ok(Spent(0, 0x10000)),
        out: "64 0 1 0 1 0 0 0 0 9\n", err: "spent: 0 steps, pc 00010000\n"),
    row!(words: "survey A 256 4096", text: BESIDE, answer: Ok(Faulted(FetchAccess, 0x20000, 0x20000, 3)),
        out: "256 3 4 0 1 0 0 0 2 4\n4096 3 4 0 1 0 0 0 2 4\n", err: "fault: fetch-access at 00020000, address 00020000, 3 steps\n"),
    row!(words: "survey A 256", text: STORE, rights: 7, answer: Ok(StoreText(0x10004, 0x10000, 1)),
        out: "256 1 4 0 1 0 0 0 3 7\n", err: "store into text: pc 00010004, address 00010000, 1 steps\n"),
    // the first size that is refused, by the ram before the file is read
    row!(words: "survey B 4096 4100 8388609", answer: Err(RamSmall { bytes: 4100, held: 4096 }), err: "ram small: 4100 4096\n"),
    row!(words: "survey B 4096 8388609 4100", answer: Err(CacheLarge { bytes: 8388609 }), err: "cache large: 8388609\n"),
    row!(words: "survey A 32 24 31 --block 8", text: SEVEN, answer: Err(CacheSmall { bytes: 24, least: 32 }), err: "cache small: 24 32\n"),
    row!(words: "survey B 4096 8", answer: Err(ShelfFault), err: "shelf fault\n"),
    row!(words: "survey A 256 --block 8", text: SEVEN, room: 10, answer: Err(SinkFault), out: "256 3 4 0 ", err: "sink fault\n"),
    // the program's own bytes stand before the line
    row!(words: "survey A 4096 --steps 9", text: ECHO, input: "abc", answer: Ok(Spent(9, 0x10024)),
        out: "abc4096 9 10 0 1 0 0 0 9 14\n", err: "spent: 9 steps, pc 00010024\n"),
    row!(words: "survey A", answer: Err(Usage), err: USAGE),
    row!(words: "survey A 7", answer: Err(Usage), err: USAGE),
    row!(words: "survey A 64 --cache 64", answer: Err(Usage), err: USAGE),
];

#[test]
fn many_caches_are_counted_in_one_run(rt: HostRuntime) -> Result<(), Fail> {
    expect_rows(rt.alloc(), &ROWS)
}
