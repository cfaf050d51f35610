//! The texts of hand-made machines, on sinks of which each call fails in turn.

use self::Counted::*;
use std::alloc::Global;
use std::process::Abort;
use std::test::Fail;
use swi_calls::Heap;
use swi_devices::MemSink;
use swi_exec::Regs;
use swi_isa::Reg;
use swi_memory::{Bus, Layout, Segment};
use swi_report::{
    EngineWork, FinalState, Measured, SharedWork, Work, engine_text, shared_text, state_text,
    stats_text, summary_text,
};
use swi_rom::Counts;

const HEAP: Heap = Heap {
    base: 0x10010,
    limit: 0x110010,
    now: 0x10014,
};

const HEAD: &str = "pc 00010008\n\
    x0 00000000\nx1 00000000\nx2 00121fc0\nx3 00000000\nx4 00000000\nx5 00000001\nx6 00000000\nx7 00000000\n\
    x8 00000000\nx9 00000000\nx10 00000000\nx11 00000000\nx12 00000000\nx13 00000000\nx14 00000000\nx15 00000000\n\
    x16 00000000\nx17 00000000\nx18 00000000\nx19 00000000\nx20 00000000\nx21 00000000\nx22 00000000\nx23 00000000\n\
    x24 00000000\nx25 00000000\nx26 00000000\nx27 00000000\nx28 00000000\nx29 00000000\nx30 00000000\nx31 ffffffff\n\
    break 00010014\n";

const MEMORY: &str = "00002000: -- -- -- -- -- -- 11 00 00 22 00 ff -- -- -- --\n\
    00002000: -- -- -- -- -- -- -- -- -- -- -- -- 00 00 00 33\n\
    00003020: 5a 00 00 00 00 00 00 00 00 00 00 00 00 00 00 00\n\
    00003030: 00 01 00 00 00 00 00 00 00 00 00 00 00 00 00 00\n\
    fffffff0: -- -- -- -- -- -- -- -- -- -- 00 00 00 00 00 80\n";

fn regs() -> Regs {
    let mut regs = Regs::new();
    regs.set(Reg::of(2), 0x121FC0);
    regs.set(Reg::of(5), 1);
    regs.set(Reg::of(31), u32::MAX);
    regs
}

/// No byte that can be written isn't zero.
fn zeros(alloc: Global) -> Result<Bus, Fail> {
    let segments = [
        Segment::of(0x10000, 5, 3, &[0x93, 0x02, 0x30]),
        Segment::of(0x20000, 6, 40, &[]),
    ];
    let layout = Layout {
        heap: 0x30000,
        heap_len: 16,
        stack: 0x40000,
        stack_len: 16,
        sp: 0x40010,
    };
    Ok(Bus::new(alloc, &segments, &layout)?)
}

/// Two segments that adjoin inside a row, one with zero rows before and behind two others, which can't be
/// read, one that can't be written, and a stack that ends with the last address.
fn data(alloc: Global) -> Result<Bus, Fail> {
    let mut late = [0; 34];
    late[16] = 0x5A;
    late[33] = 1;
    let segments = [
        Segment::of(0x3010, 2, 64, &late),
        Segment::of(0x200C, 6, 8, &[0, 0, 0, 0x33]),
        Segment::of(0x2006, 6, 6, &[0x11, 0, 0, 0x22, 0, 0xFF]),
        Segment::of(0x1000, 5, 4, &[0x13, 0, 0, 0]),
    ];
    let layout = Layout {
        heap: 0x4000,
        heap_len: 0,
        stack: 0xFFFFFFFA,
        stack_len: 6,
        sp: 0,
    };
    let mut bus = Bus::new(alloc, &segments, &layout)?;
    let _ = bus.store(0xFFFFFFFF, 1, 0x80);
    Ok(bus)
}

/// A sink with room, of which the call of this number fails.
fn sink(alloc: Global, failing: u32) -> Result<MemSink, Fail> {
    Ok(MemSink::new(alloc, 2000, [failing].to_vec(alloc)?)?)
}

/// The state's text over this memory, on a sink of which one call fails: whether it was written, and the sink.
fn state(alloc: Global, bus: &Bus, failing: u32) -> Result<(bool, MemSink), Fail> {
    let mut out = sink(alloc, failing)?;
    let state = FinalState {
        pc: 0x10008,
        regs: &regs(),
        bus,
        heap: HEAP,
        steps: 0,
    };
    let is_ok = state_text(&state, &mut out).is_ok();
    Ok((is_ok, out))
}

#[test]
fn the_state_has_a_line_for_each_register_and_each_row_that_is_not_all_zero(
    rt: HostRuntime,
) -> Result<(), Fail> {
    let (is_ok, out) = state(rt.alloc(), &zeros(rt.alloc())?, 0)?;
    assert_eq!(rt; (is_ok, out.held()), (true, HEAD.as_bytes()));
    let (is_ok, out) = state(rt.alloc(), &data(rt.alloc())?, 0)?;
    let memory = out.held().strip_prefix(HEAD.as_bytes());
    assert_eq!(rt; (is_ok, memory), (true, Some(MEMORY.as_bytes())));
    Ok(())
}

/// Checks that the call of each line's number, when it fails, leaves the lines before it, and answers how many lines there are.
fn assert_fronts(rt: &impl Abort, alloc: Global, bus: &Bus, whole: &str) -> Result<u32, Fail> {
    let mut front = 0;
    let mut call = 0u32;
    for line in whole.lines() {
        call = call.saturating_add(1);
        let (is_ok, out) = state(alloc, bus, call)?;
        assert_eq!(rt;
            (is_ok, Some(out.held())),
            (false, whole.as_bytes().get(..front)),
            "{call}"
        );
        front = front.saturating_add(line.len() + 1);
    }
    Ok(call)
}

#[test]
fn each_line_of_the_state_is_one_write_and_none_follows_a_failed_one(
    rt: HostRuntime,
) -> Result<(), Fail> {
    let bus = data(rt.alloc())?;
    let whole = format!(in rt.alloc(); "{HEAD}{MEMORY}")?;
    let lines = assert_fronts(&rt, rt.alloc(), &bus, whole.as_str())?;
    assert!(rt; state(rt.alloc(), &bus, lines.saturating_add(1))?.0);
    Ok(())
}

/// A loop of three rounds through two slots, which nine steps leave.
const WORK: Work = Work {
    machine: 16,
    fetches: 15,
    writes: 19,
    counts: Counts {
        services: 3,
        misses: 3,
        evictions: 1,
        links: 3,
        unlinks: 1,
        copied: 15,
    },
};

/// One function of four additions, which eight rounds call out of a cache of one block.
const MEASURED: Measured = Measured {
    functions: 1,
    text: 16,
    blocks: 1,
    exit: 32,
};

const MEASURED_WORK: Work = Work {
    machine: 124,
    fetches: 123,
    writes: 27,
    counts: Counts {
        services: 11,
        misses: 1,
        evictions: 0,
        links: 3,
        unlinks: 0,
        copied: 24,
    },
};

const ENGINE: EngineWork = EngineWork {
    words: 9,
    copies: 2,
};

/// Two programs that evict each other once.
const SHARED: SharedWork = SharedWork {
    instructions: 16,
    misses: 5,
    evictions: 3,
    links: 4,
    unlinks: 2,
    writes: 21,
};

const STATS: &str =
    "steps 9\ninstructions 16\nservices 3\nmisses 3\nevictions 1\nlinks 3\nunlinks 1\nfetches 15\nwrites 19\n";

const SUMMARY: &str =
    "functions 1\ntext 16\nblocks 1\nexit 32\nsteps 106\ninstructions 124\nservices 11\nmisses 1\nevictions 0\nlinks 3\nunlinks 0\nfetches 123\nwrites 27\n";

const SHARED_TEXT: &str = "instructions 16\nmisses 5\nevictions 3\nlinks 4\nunlinks 2\nwrites 21\n";

/// The texts of counts.
#[derive(Clone, Copy, Debug)]
enum Counted {
    /// A run of the flat machine, which has steps alone.
    Flat,
    Cached,
    Summary,
    Engine,
    Shared,
}

/// A text, the call of its sink that fails, 0 for none, and then whether all was written, and what was.
static COUNTED: [(Counted, u32, bool, &str); 23] = [
    (Cached, 0, true, STATS),
    (Flat, 0, true, "steps 9\n"),
    (Cached, 1, false, ""),
    (Cached, 2, false, "steps 9\n"),
    (
        Cached,
        9,
        false,
        "steps 9\ninstructions 16\nservices 3\nmisses 3\nevictions 1\nlinks 3\nunlinks 1\nfetches 15\n",
    ),
    (Cached, 10, true, STATS),
    (Flat, 1, false, ""),
    (Flat, 2, true, "steps 9\n"),
    (Summary, 0, true, SUMMARY),
    (Summary, 1, false, ""),
    (Summary, 2, false, "functions 1\n"),
    (
        Summary,
        5,
        false,
        "functions 1\ntext 16\nblocks 1\nexit 32\n",
    ),
    (
        Summary,
        13,
        false,
        "functions 1\ntext 16\nblocks 1\nexit 32\nsteps 106\ninstructions 124\nservices 11\nmisses 1\nevictions 0\nlinks 3\nunlinks 0\nfetches 123\n",
    ),
    (Summary, 14, true, SUMMARY),
    (Engine, 0, true, "engine 9\nprefetched 2\n"),
    (Engine, 1, false, ""),
    (Engine, 2, false, "engine 9\n"),
    (Engine, 3, true, "engine 9\nprefetched 2\n"),
    (Shared, 0, true, SHARED_TEXT),
    (Shared, 1, false, ""),
    (Shared, 2, false, "instructions 16\n"),
    (
        Shared,
        6,
        false,
        "instructions 16\nmisses 5\nevictions 3\nlinks 4\nunlinks 2\n",
    ),
    (Shared, 7, true, SHARED_TEXT),
];

/// A text on a sink of which one call fails: whether it was written, and the sink.
fn written(alloc: Global, text: Counted, failing: u32) -> Result<(bool, MemSink), Fail> {
    let mut out = sink(alloc, failing)?;
    let result = match text {
        Flat => stats_text(9, None, &mut out),
        Cached => stats_text(9, Some(&WORK), &mut out),
        Summary => summary_text(&MEASURED, 106, &MEASURED_WORK, &mut out),
        Engine => engine_text(&ENGINE, &mut out),
        Shared => shared_text(&SHARED, &mut out),
    };
    Ok((result.is_ok(), out))
}

#[test]
fn each_count_has_its_line_and_none_follows_a_failed_write(rt: HostRuntime) -> Result<(), Fail> {
    for &(text, failing, is_ok, held) in COUNTED.iter() {
        let (wrote, out) = written(rt.alloc(), text, failing)?;
        assert_eq!(rt; wrote, is_ok, "{text:?}, {failing}");
        assert_eq!(rt; out.held(), held.as_bytes(), "{text:?}, {failing}");
    }
    Ok(())
}

#[test]
fn a_full_sink_holds_a_front_of_the_counts(rt: HostRuntime) -> Result<(), Fail> {
    let mut out = MemSink::new(rt.alloc(), 7, Vec::new(rt.alloc()))?;
    assert!(rt; stats_text(1, Some(&WORK), &mut out).is_err());
    assert_eq!(rt; out.held(), "steps 1".as_bytes());
    Ok(())
}
