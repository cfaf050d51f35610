//! Runs on both machines, and single commands.

use crate::devices::{QUIET, Row, expect, expect_rows, expect_words};
use crate::texts::{
    BESIDE, COUNT, ECHO, STATE_AFTER_4, STORE, SWAP, TABLE, USAGE, bytes_of, file_of,
};
use std::test::Fail;
use swi_elf_read::ElfRefusal::*;
use swi_exec::FaultKind::*;
use swi_top::Ending::*;
use swi_top::Refusal::*;

/// Options and texts with known answers, on both machines: worked by hand from the specification of the
/// instructions and of this program's texts.
static ROWS: [Row; 20] = [
    row!(words: "--steps 10"),
    row!(words: "--calls", err: "call 93 00000007 00000000 00000000\n"),
    // a loop: whole, in its midst and not begun
    row!(words: "--steps 100", text: COUNT, answer: Ok(Exited(0, 9))),
    row!(words: "--steps=4 --state", text: COUNT, answer: Ok(Spent(4, 0x10008)), out: STATE_AFTER_4,
        err: "spent: 4 steps, pc 00010008\n"),
    row!(words: "--steps 0", text: COUNT, answer: Ok(Spent(0, 0x10000)), err: "spent: 0 steps, pc 00010000\n"),
    // a jump beside the text, before the fetch and after it
    row!(words: "--steps 2", text: BESIDE, answer: Ok(Spent(2, 0x20000)), err: "spent: 2 steps, pc 00020000\n"),
    row!(words: "--steps 3", text: BESIDE, answer: Ok(Faulted(FetchAccess, 0x20000, 0x20000, 3)),
        err: "fault: fetch-access at 00020000, address 00020000, 3 steps\n"),
    // a branch to an address that is no multiple of 4, taken and not taken
    row!(words: "--heap=0", text: &[0x00000363], answer: Ok(Faulted(FetchMisaligned, 0x10000, 0x10006, 1)),
        err: "fault: fetch-misaligned at 00010000, address 00010006, 1 steps\n"),
    row!(words: "--heap=0", text: &[0x00001363, 0x05D00893, 0x00000073], answer: Ok(Exited(0, 3))),
    // a store into a text that can't be written, and the same by an atomic swap
    row!(words: "--heap=0", text: STORE, answer: Ok(Faulted(StoreAccess, 0x10004, 0x10000, 2)),
        err: "fault: store-access at 00010004, address 00010000, 2 steps\n"),
    row!(words: "--heap=0", text: SWAP, answer: Ok(Faulted(StoreAccess, 0x10004, 0x10000, 2)),
        err: "fault: store-access at 00010004, address 00010000, 2 steps\n"),
    // an echo: its calls told, of a longer input and of none; then each of its devices fails
    row!(words: "--calls", text: ECHO, input: "abc", answer: Ok(Exited(0, 12)), out: "abc",
        err: "call 63 00000000 00121fc0 00000010 = 00000003\n\
            call 64 00000001 00121fc0 00000003 = 00000003\n\
            call 93 00000000 00121fc0 00000003\n"),
    row!(words: "--heap 0", text: ECHO, input: "abcdefghijklmnopqrst", answer: Ok(Exited(0, 12)), out: "abcdefghijklmnop"),
    row!(words: "--heap 0", text: ECHO, answer: Ok(Exited(0, 12))),
    row!(words: "--calls", text: ECHO, input: "abc", err_fails: 1, answer: Err(SinkFault), err: "sink fault\n"),
    // brk(0), and call 80
    row!(words: "--stack 4096", text: &[0x0D600893, 0x00000073, 0x05D00893, 0x00000073], answer: Ok(Exited(65552, 4))),
    row!(words: "--stack 4096", text: &[0x05000893, 0x00000073, 0x05D00893, 0x00000073], answer: Ok(Exited(4294967258, 4))),
    // lr.w, two sc.w of which the second fails, lw, add; an sc.w with nothing reserved; a misaligned lr.w
    row!(words: "--steps 9", text: &[0x00500613, 0x1001252F, 0x18C125AF, 0x18C126AF, 0x00C1252F, 0x00012503, 0x00D50533,
        0x05D00893, 0x00000073], answer: Ok(Exited(11, 9))),
    row!(words: "--steps 8", text: &[0x00000297, 0x18A2A52F, 0x05D00893, 0x00000073], rights: 7, answer: Ok(Exited(1, 4))),
    row!(words: "--steps 7", text: &[0x00210293, 0x1002A52F], answer: Ok(Faulted(LoadAccess, 0x10004, 0x121FC2, 2)),
        err: "fault: load-access at 00010004, address 00121fc2, 2 steps\n"),
];

#[test]
fn runs_answer_and_write_on_both_machines(rt: HostRuntime) -> Result<(), Fail> {
    let alloc = rt.alloc();
    for row in ROWS.iter() {
        for command in ["plain A ", "cached A "] {
            let words = [command, row.words].concat(alloc)?;
            let file = file_of(alloc, row.text, row.rights, 0x10000)?;
            expect_words(alloc, &words, row, file)?;
        }
    }
    Ok(())
}

/// Commands that are refused, that fail, or that only one machine has.
static SINGLE_ROWS: [Row; 19] = [
    // a store into a text that can be written: the cached machine stops before it
    row!(text: STORE, rights: 7, answer: Ok(Exited(0, 4))),
    row!(words: "cached A", text: STORE, rights: 7, answer: Ok(StoreText(0x10004, 0x10000, 1)),
        err: "store into text: pc 00010004, address 00010000, 1 steps\n"),
    row!(words: "cached A", text: SWAP, rights: 7, answer: Ok(StoreText(0x10004, 0x10000, 1)),
        err: "store into text: pc 00010004, address 00010000, 1 steps\n"),
    // a block that is too small, and caches that are too small, too large, and larger than the ram
    row!(words: "cached A --block 4", text: COUNT, answer: Err(Long { address: 0x10008, needs: 5 }),
        err: "long: 00010008 5\n"),
    row!(words: "rewrite A B --block 4", text: COUNT, answer: Err(Long { address: 0x10008, needs: 5 }),
        err: "long: 00010008 5\n"),
    row!(words: "cached A --block 64 --cache 255", answer: Err(CacheSmall { bytes: 255, least: 256 }),
        err: "cache small: 255 256\n"),
    row!(words: "cached B --cache 8388609", answer: Err(CacheLarge { bytes: 8388609 }), err: "cache large: 8388609\n"),
    row!(words: "cached B --cache 20", ram: 4, answer: Err(RamSmall { bytes: 20, held: 16 }), err: "ram small: 20 16\n"),
    row!(words: "cached B --cache 1048577", ram: 262_144, answer: Err(RamSmall { bytes: 1_048_577, held: 1_048_576 }),
        err: "ram small: 1048577 1048576\n"),
    // words that are no command, a file that isn't there, and one without an image
    row!(words: "cashed A", answer: Err(Usage), err: USAGE),
    row!(words: "cached A --steps x", answer: Err(Usage), err: USAGE),
    row!(words: "cached", answer: Err(Usage), err: USAGE),
    row!(words: "", answer: Err(Usage), err: USAGE),
    row!(words: "plain B", answer: Err(ShelfFault), err: "shelf fault\n"),
    row!(words: "plain B", err_fails: 1, answer: Err(ShelfFault)),
    row!(words: "check A", answer: Err(NoImage), err: "no image\n"),
    row!(words: "upgrade A B", answer: Err(NoImage), err: "no image\n"),
    row!(text: &[], answer: Err(Elf(NoText(0))), err: "elf 15 NoText 0\n"),
    // the error sink fails at the ending's line, and takes the next
    row!(words: "cached A --steps 1", err_fails: 1, answer: Err(SinkFault), err: "sink fault\n"),
];

#[test]
fn commands_answer_and_write(rt: HostRuntime) -> Result<(), Fail> {
    expect_rows(rt.alloc(), &SINGLE_ROWS)
}

#[test]
fn a_jump_table_is_run(rt: HostRuntime) -> Result<(), Fail> {
    for words in ["plain A", "cached A"] {
        let row = row!(words: words, answer: Ok(Exited(0, 15)), out: "hi\n");
        expect(rt.alloc(), &row, bytes_of(rt.alloc(), &TABLE)?)?;
    }
    Ok(())
}
