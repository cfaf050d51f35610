//! Runs over devices in memory, with known answers: worked by hand from the rules of the machine and of the cache.

ghost use Rattle.std.specs.Prelude.{◌≡◌, ◌<◌, ◌≤◌, length, IfOk};
ghost use Rattle.swi_program.specs.Layout.{IsLayoutOf};
ghost use Rattle.swi_program.specs.Text.{text_of};
ghost use Rattle.swi_render.specs.ImageOf.{IsImageOf};

use crate::programs::{COUNT, carry, file_with, program_in};
use std::alloc::Global;
use std::test::Fail;
use swi_board::{Board, BoardFault};
use swi_cached::{AskedRun, CachedStop, run_cached, slots_for};
use swi_calls::End::{self, *};
use swi_cut::cut;
use swi_devices::{FaultRam, MemSink, MemSource};
use swi_exec::FaultKind::*;
use swi_image::ImageView;
use swi_line::Trace;
use swi_memory::Layout;
use swi_outside::CacheRam;
use swi_program::{Program, lay_out};
use swi_rom::CacheRom;
use swi_slots::FifoRom;
use swi_trace::History;

mod board;
mod foreign;

/// Exits with 7.
const SEVEN: &[u32] = &[0x05D00893, 0x00700513, 0x00000073];

/// Jumps over one word, over one more, and back to the first.
const ROUND: &[u32] = &[0x0040006F, 0x0040006F, 0xFF9FF06F];

/// Calls a routine that exits with the address behind the call.
const CALL: &[u32] = &[
    0x00000097, 0x00C080E7, 0x00000000, 0x05D00893, 0x00008513, 0x00000073,
];

/// Jumps to 0x20000, beside the text.
const BESIDE: &[u32] = &[0x000202B7, 0x000280E7];

/// Stores 0 at the text's first word, and exits with 0.
const STORE: &[u32] = &[0x00000297, 0x0002A023, 0x05D00893, 0x00000073];

/// Swaps the text's first word with 0.
const SWAP: &[u32] = &[0x00000297, 0x08A2A52F];

/// Reads up to 16 bytes of the input to the stack, writes them to the output, and exits with 0.
const ECHO: &[u32] = &[
    0x03F00893, 0x00000513, 0x00010593, 0x01000613, 0x00000073, 0x00050613, 0x00100513, 0x04000893,
    0x00000073, 0x00000513, 0x05D00893, 0x00000073,
];

/// A run: its text and the rights of its segment, the words of a block, the bytes of the cache, what is told of its
/// steps, the most steps, and the failing calls of the ram, the input and the output: the number of one, 0 for none.
#[derive(Clone, Copy)]
struct Run {
    text: &'static [u32],
    rights: u32,
    block_words: u32,
    cache_bytes: u32,
    trace: Trace,
    limit: u64,
    ram_fails: u32,
    input_fails: u32,
    out_fails: u32,
}

/// What a run says where it says nothing else.
const PLAIN: Run = Run {
    text: SEVEN,
    rights: 5,
    block_words: 16,
    cache_bytes: 4096,
    trace: Trace::Off,
    limit: 1000,
    ram_fails: 0,
    input_fails: 0,
    out_fails: 0,
};

/// What stands after a run: the fault that stopped it, the ending and the address, the counts as in `Row`, the addresses
/// that were told, what the output and the errors hold, and the ram's first 64 words.
#[derive(Drop)]
struct Stands {
    stop: Option<CachedStop>,
    ending: Option<End>,
    pc: u32,
    counts: [u64; 9],
    told: Option<Vec<u32>>,
    out: Vec<u8>,
    err: Vec<u8>,
    words: Vec<u32>,
}

/// The devices of a run.
#[derive(Drop)]
struct Devices {
    input: MemSource,
    out: MemSink,
    err: MemSink,
    ram: FaultRam,
}

/// A sink of which one call fails.
fn sink_of(alloc: Global, fails: u32) -> Result<MemSink, Fail> {
    Ok(MemSink::new(alloc, 4096, [fails].to_vec(alloc)?)?)
}

/// A ram of so many words, of which one call fails.
fn ram_of(alloc: Global, words: u32, fails: u32) -> Result<FaultRam, Fail>
    ensures { IfOk result (λ r. length r.ram.words ≡ words) }
{
    Ok(FaultRam::new(alloc, words, [fails].to_vec(alloc)?)?)
}

/// The input `abc`, two sinks, and a ram of so many words, with a run's failing calls.
fn devices_of(alloc: Global, run: &Run, words: u32) -> Result<Devices, Fail>
    ensures { IfOk result (λ d. length d.ram.ram.words ≡ words) }
{
    let input = MemSource::new(b"abc".to_vec(alloc)?, [run.input_fails].to_vec(alloc)?);
    Ok(Devices {
        input,
        out: sink_of(alloc, run.out_fails)?,
        err: sink_of(alloc, 0)?,
        ram: ram_of(alloc, words, run.ram_fails)?,
    })
}

/// What stands in the devices after a run.
fn stands_of(
    alloc: Global,
    answer: &Result<(Board<FifoRom>, Option<History>), CachedStop>,
    out: &MemSink,
    err: &MemSink,
    ram: &FaultRam,
) -> Result<Stands, Fail> {
    let mut stands = Stands {
        stop: None,
        ending: None,
        pc: 0,
        counts: [0; 9],
        told: None,
        out: out.held().to_vec(alloc)?,
        err: err.held().to_vec(alloc)?,
        words: front_of(alloc, ram)?,
    };
    match answer {
        Ok((board, history)) => {
            stands.ending = board.ending();
            stands.pc = board.origin_pc();
            let counts = counts_of(board, ram);
            stands.counts = counts;
            stands.told = told_by(alloc, history)?;
        }
        Err(stop) => stands.stop = Some(*stop),
    }
    Ok(stands)
}

/// Runs a text over a ram of so many words.
fn stands_after(alloc: Global, run: &Run, words: u32) -> Result<Stands, Fail> {
    let file = file_with(alloc, run.text, run.rights)?;
    let program = program_in(alloc, &file)?;
    let Ok(layout) = lay_out(&program, 1 << 20, 1 << 16) else {
        return Err(Fail::from("no room"));
    };
    stands_of_program(alloc, run, words, &program, &layout)
}

/// The same of a program.
fn stands_of_program(
    alloc: Global,
    run: &Run,
    words: u32,
    program: &Program<'_>,
    layout: &Layout,
) -> Result<Stands, Fail>
    requires laid_out { IsLayoutOf program.now.segments layout.now }
{
    if run.block_words < 2 || run.block_words > 1024 {
        return Err(Fail::from("no block"));
    }
    let Ok(image) = cut(alloc, program, run.block_words) else {
        return Err(Fail::from("no image"));
    };
    stands_over(alloc, run, words, &image.view(), program, layout)
}

/// The same over an image of it.
fn stands_over(
    alloc: Global,
    run: &Run,
    words: u32,
    image: &ImageView<'_>,
    program: &Program<'_>,
    layout: &Layout,
) -> Result<Stands, Fail>
    requires laid_out { IsLayoutOf program.now.segments layout.now }
    requires own { IsImageOf (text_of program.now.segments) image.now }
{
    if run.cache_bytes < 4 * image.block_words()
        || run.cache_bytes > 1 << 20
        || words < run.cache_bytes / 4 + 1
        || run.limit > 1000
    {
        return Err(Fail::from("no cache"));
    }
    let rom = slots_for(alloc, image, run.cache_bytes)?;
    let asked = AskedRun {
        limit: run.limit,
        calls: false,
        trace: run.trace,
    };
    let Devices {
        mut input,
        mut out,
        mut err,
        mut ram,
    } = devices_of(alloc, run, words)?;
    let answer = run_cached(
        alloc, image, program, layout, rom, asked, &mut input, &mut out, &mut err, &mut ram,
    );
    stands_of(alloc, &answer, &out, &err, &ram)
}

/// The first 64 words of a ram, or all.
fn front_of(alloc: Global, ram: &FaultRam) -> Result<Vec<u32>, Fail> {
    let mut words = Vec::new(alloc);
    for i in 0..64 {
        if i < ram.words() {
            words.push(ram.word(i))?;
        }
    }
    Ok(words)
}

/// The addresses of a history.
fn told_by(alloc: Global, history: &Option<History>) -> Result<Option<Vec<u32>>, Fail> {
    let Some(history) = history else {
        return Ok(None);
    };
    let mut told = Vec::new(alloc);
    for k in 0..history.len() {
        told.push(history.get(k).unwrap_or(0))?;
    }
    Ok(Some(told))
}

/// The ending and the address of a run, and its counts: steps, instructions, services, misses, evictions, links,
/// unlinks, fetches, writes.
struct Row {
    run: Run,
    ending: Option<End>,
    pc: u32,
    counts: [u64; 9],
}

/// The counts of a board and its ram.
fn counts_of<R: CacheRom>(board: &Board<R>, ram: &FaultRam) -> [u64; 9] {
    let counts = board.rom().counts();
    [
        board.steps(),
        board.machine_steps(),
        counts.services,
        counts.misses,
        counts.evictions,
        counts.links,
        counts.unlinks,
        ram.fetches(),
        ram.sets(),
    ]
}

/// Runs with known answers.
static ROWS: [Row; 15] = [
    Row {
        run: Run {
            text: SEVEN,
            block_words: 8,
            ..PLAIN
        },
        ending: Some(Exited(7)),
        pc: 0x10008,
        counts: [3, 4, 0, 1, 0, 0, 0, 3, 5],
    },
    // the block is linked to itself: whole, in its midst, and not begun
    Row {
        run: Run {
            text: COUNT,
            cache_bytes: 64,
            ..PLAIN
        },
        ending: Some(Exited(0)),
        pc: 0x10010,
        counts: [9, 12, 1, 1, 0, 1, 0, 11, 10],
    },
    Row {
        run: Run {
            text: COUNT,
            cache_bytes: 64,
            limit: 4,
            ..PLAIN
        },
        ending: None,
        pc: 0x10008,
        counts: [4, 6, 1, 1, 0, 1, 0, 5, 10],
    },
    Row {
        run: Run {
            text: COUNT,
            cache_bytes: 64,
            limit: 0,
            ..PLAIN
        },
        ending: None,
        pc: 0x10000,
        counts: [0, 1, 0, 1, 0, 0, 0, 0, 9],
    },
    // one slot: each exit's block is evicted by its target; and two slots, with a link undone
    Row {
        run: Run {
            text: COUNT,
            block_words: 5,
            cache_bytes: 20,
            ..PLAIN
        },
        ending: Some(Exited(0)),
        pc: 0x10010,
        counts: [9, 16, 6, 7, 6, 0, 0, 15, 31],
    },
    Row {
        run: Run {
            text: COUNT,
            block_words: 5,
            cache_bytes: 40,
            ..PLAIN
        },
        ending: Some(Exited(0)),
        pc: 0x10010,
        counts: [9, 16, 3, 3, 1, 3, 1, 15, 17],
    },
    // first in, first out at its worst
    Row {
        run: Run {
            text: ROUND,
            block_words: 2,
            cache_bytes: 16,
            limit: 6,
            ..PLAIN
        },
        ending: None,
        pc: 0x10000,
        counts: [6, 7, 6, 7, 5, 6, 0, 6, 20],
    },
    // a jump to an address in a register, in one block and in three
    Row {
        run: Run {
            text: CALL,
            ..PLAIN
        },
        ending: Some(Exited(65544)),
        pc: 0x10014,
        counts: [5, 7, 1, 1, 0, 0, 0, 6, 12],
    },
    Row {
        run: Run {
            text: CALL,
            block_words: 5,
            cache_bytes: 60,
            ..PLAIN
        },
        ending: Some(Exited(65544)),
        pc: 0x10014,
        counts: [5, 8, 2, 3, 0, 1, 0, 7, 15],
    },
    // outside the text nothing is fetched
    Row {
        run: Run {
            text: BESIDE,
            limit: 2,
            ..PLAIN
        },
        ending: None,
        pc: 0x20000,
        counts: [2, 3, 0, 1, 0, 0, 0, 2, 4],
    },
    Row {
        run: Run {
            text: BESIDE,
            limit: 3,
            ..PLAIN
        },
        ending: Some(Faulted(FetchAccess, 0x20000)),
        pc: 0x20000,
        counts: [3, 4, 0, 1, 0, 0, 0, 2, 4],
    },
    // a branch to an address that is no multiple of 4, taken
    Row {
        run: Run {
            text: &[0x00000363],
            ..PLAIN
        },
        ending: Some(Faulted(FetchMisaligned, 0x10006)),
        pc: 0x10000,
        counts: [1, 3, 0, 1, 0, 0, 0, 2, 5],
    },
    // a stop before a store into the text is an instruction, but no step
    Row {
        run: Run {
            text: STORE,
            rights: 7,
            ..PLAIN
        },
        ending: Some(StoreText(0x10000)),
        pc: 0x10004,
        counts: [1, 4, 0, 1, 0, 0, 0, 3, 7],
    },
    Row {
        run: Run {
            text: SWAP,
            rights: 7,
            ..PLAIN
        },
        ending: Some(StoreText(0x10000)),
        pc: 0x10004,
        counts: [1, 4, 0, 1, 0, 0, 0, 3, 5],
    },
    // lr.w, two sc.w of which the second fails, lw, add
    Row {
        run: Run {
            text: &[
                0x00500613, 0x1001252F, 0x18C125AF, 0x18C126AF, 0x00C1252F, 0x00012503, 0x00D50533,
                0x05D00893, 0x00000073,
            ],
            ..PLAIN
        },
        ending: Some(Exited(11)),
        pc: 0x10020,
        counts: [9, 10, 0, 1, 0, 0, 0, 9, 11],
    },
];

#[test]
fn runs_end_and_count(rt: HostRuntime) -> Result<(), Fail> {
    for (k, row) in ROWS.iter().enumerate() {
        let done = stands_after(rt.alloc(), &row.run, 2048)?;
        let came = (done.stop, done.ending, done.pc);
        assert_eq!(rt; came, (None, row.ending, row.pc), "row {k}");
        assert_eq!(rt; done.counts, row.counts, "row {k}");
    }
    Ok(())
}

/// The steps at which a run of `COUNT` stops by its limit; and the ending, the address and the counts, as in `Row`, to which
/// its board goes on.
fn in_two_runs(
    alloc: Global,
    image: &ImageView<'_>,
    program: &Program<'_>,
    layout: &Layout,
    limit: u64,
) -> Result<(u64, Option<End>, u32, [u64; 9]), Fail>
    requires laid_out { IsLayoutOf program.now.segments layout.now }
    requires own { IsImageOf (text_of program.now.segments) image.now }
    requires short { image.now.block_words ≤ 16 }
    requires limit { limit < 9 }
{
    let rom = slots_for(alloc, image, 64)?;
    let Devices {
        mut input,
        mut out,
        mut err,
        mut ram,
    } = devices_of(alloc, &PLAIN, 16)?;
    let asked = AskedRun {
        limit,
        calls: false,
        trace: Trace::Off,
    };
    let answer = run_cached(
        alloc, image, program, layout, rom, asked, &mut input, &mut out, &mut err, &mut ram,
    );
    let Ok((mut board, _history)) = answer else {
        return Err(Fail::from("no run"));
    };
    let steps = board.steps();
    if board.ending().is_some()
        || board
            .run(image, &mut ram, &mut input, &mut out, &mut err, 1000)
            .is_err()
    {
        return Err(Fail::from("no second run"));
    }
    Ok((
        steps,
        board.ending(),
        board.origin_pc(),
        counts_of(&board, &ram),
    ))
}

/// A run that stops at a limit goes on with its board, and comes to the end of one run.
#[test]
fn boards_run_on(rt: HostRuntime) -> Result<(), Fail> {
    let (alloc, row) = (rt.alloc(), &ROWS[1]);
    let file = file_with(alloc, COUNT, 5)?;
    let program = program_in(alloc, &file)?;
    let Ok(layout) = lay_out(&program, 1 << 20, 1 << 16) else {
        return Err(Fail::from("no room"));
    };
    let Ok(image) = cut(alloc, &program, 16) else {
        return Err(Fail::from("no image"));
    };
    let view = image.view();
    if view.block_words() > 16 {
        return Err(Fail::from("long blocks"));
    }
    for limit in 0..9 {
        let came = in_two_runs(alloc, &view, &program, &layout, limit)?;
        let wanted = (limit, row.ending, row.pc, row.counts);
        assert_eq!(rt; came, wanted, "limit {limit}");
    }
    Ok(())
}

/// What is told of the run of `SEVEN`: nothing; the addresses of its steps; these, and their lines.
static TOLD: [(Trace, Option<&[u32]>, &[u8]); 3] = [
    (Trace::Off, None, b""),
    (Trace::Last, Some(&[0x10000, 0x10004, 0x10008]), b""),
    (
        Trace::Each,
        Some(&[0x10000, 0x10004, 0x10008]),
        b"00010000 05d00893 addi a7, zero, 93\n00010004 00700513 addi a0, zero, 7\n00010008 00000073 ecall\n",
    ),
];

#[test]
fn steps_are_told_as_is_asked(rt: HostRuntime) -> Result<(), Fail> {
    for &(trace, addresses, lines) in TOLD.iter() {
        let run = Run { trace, ..PLAIN };
        let done = stands_after(rt.alloc(), &run, 2048)?;
        let told = done.told.as_ref().map(|it| it.as_slice());
        assert_eq!(rt; told, addresses);
        assert_eq!(rt; (done.stop, done.counts[0]), (None, 3));
        assert_eq!(rt; done.err.as_slice(), lines);
    }
    Ok(())
}

/// The first words of the ram after `COUNT` in blocks of 5 words, in one slot and in two.
static WORDS: [(u32, &[u32]); 2] = [
    (
        20,
        &[
            0x05D00893, 0x00000073, 0x00100073, 0x00010014, 0x0001000C, 0,
        ],
    ),
    // the seventh word was linked, and has been restored
    (
        40,
        &[
            0x05D00893, 0x00000073, 0x00100073, 0x00010014, 0, 0x00028663, 0x00100073, 0x00010004,
            0xFE1FF06F, 0x0001000C, 0,
        ],
    ),
];

#[test]
fn blocks_stand_in_the_ram(rt: HostRuntime) -> Result<(), Fail> {
    for &(cache_bytes, words) in WORDS.iter() {
        let run = Run {
            text: COUNT,
            block_words: 5,
            cache_bytes,
            ..PLAIN
        };
        let done = stands_after(rt.alloc(), &run, 64)?;
        assert!(rt; done.words.starts_with(words), "{cache_bytes} bytes");
    }
    Ok(())
}

/// A run, the first call of the ram whose failing leaves the output whole, and the first that it doesn't make.
static FAILING: [(&[u32], u32, u32, &[u8]); 2] = [(COUNT, 1, 22, b""), (ECHO, 24, 27, b"abc")];

#[test]
fn each_call_of_the_ram_fails(rt: HostRuntime) -> Result<(), Fail> {
    for &(text, whole, calls, bytes) in FAILING.iter() {
        for ram_fails in 1..=calls {
            let run = Run {
                text,
                cache_bytes: 64,
                ram_fails,
                ..PLAIN
            };
            let done = stands_after(rt.alloc(), &run, 17)?;
            let stop = (ram_fails < calls).then_some(CachedStop::Fault(BoardFault::RamFault));
            assert_eq!(rt; done.stop, stop, "call {ram_fails}");
            let held: &[u8] = if ram_fails < whole { b"" } else { bytes };
            assert_eq!(rt; done.out.as_slice(), held, "call {ram_fails}");
        }
    }
    Ok(())
}

/// An echo whose input fails, and one whose output does.
static BROKEN: [(Run, CachedStop); 2] = [
    (
        Run {
            text: ECHO,
            input_fails: 1,
            ..PLAIN
        },
        CachedStop::Fault(BoardFault::SourceFault),
    ),
    (
        Run {
            text: ECHO,
            out_fails: 1,
            ..PLAIN
        },
        CachedStop::Fault(BoardFault::SinkFault),
    ),
];

#[test]
fn source_and_sink_fail(rt: HostRuntime) -> Result<(), Fail> {
    for (run, stop) in BROKEN.iter() {
        let done = stands_after(rt.alloc(), run, 2048)?;
        assert_eq!(rt; done.stop, Some(*stop));
        assert!(rt; done.out.is_empty());
    }
    Ok(())
}
