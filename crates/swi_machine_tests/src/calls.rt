//! System calls on a small memory. The calls' numbers and answers are Linux's on RISC-V.
#![tactic(auto)]

ghost use Rattle.std.specs.Prelude.{◌≡◌, None, IfOk};

use std::alloc::Global;
use std::io;
use std::test::Fail;
use swi_calls::{CallFault, End, Heap, Machine, text_store};
use swi_devices::{MemSink, MemSource, RealSource};
use swi_exec::Regs;
use swi_isa::{Instr, Reg, decode};
use swi_memory::{Bus, Layout, Segment};
use swi_outside::Source;

/// A text of two words that can be written, "wxyz" with four zeros that adjoin a heap of 1016 bytes, and four zeros
/// that can be read and four that can be written.
fn small_bus(alloc: Global) -> Result<Bus, Fail> {
    let segments = [
        Segment::of(0x10000, 7, 8, &[0; 8]),
        Segment::of(0x20000, 6, 8, b"wxyz"),
        Segment::of(0x30000, 4, 4, &[]),
        Segment::of(0x40000, 2, 4, &[]),
    ];
    let layout = Layout {
        heap: 0x20008,
        heap_len: 1016,
        stack: 0x50000,
        stack_len: 0,
        sp: 0,
    };
    Ok(Bus::new(alloc, &segments, &layout)?)
}

const HEAP: Heap = Heap {
    base: 0x20008,
    limit: 0x20400,
    now: 0x20100,
};

/// A call's number and arguments.
type Call = (u32, u32, u32, u32);

/// Registers with a call's number and arguments.
fn regs_of(call: Call) -> Regs {
    let (number, a0, a1, a2) = call;
    let mut regs = Regs::new();
    regs.set(Reg::of(17), number);
    regs.set(Reg::of(10), a0);
    regs.set(Reg::of(11), a1);
    regs.set(Reg::of(12), a2);
    regs
}

/// A machine over the small memory, at a call.
fn machine_at(alloc: Global, call: Call, log: bool) -> Result<Machine, Fail>
    ensures { IfOk result (λ m. m.steps ≡ 0) }
{
    Ok(Machine {
        pc: 0x10000,
        regs: regs_of(call),
        bus: small_bus(alloc)?,
        heap: HEAP,
        log,
        ending: None,
        steps: 0,
    })
}

/// -9, EBADF.
const BAD_DESCRIPTOR: u32 = u32::MAX - 8;

/// -14, EFAULT.
const BAD_ADDRESS: u32 = u32::MAX - 13;

/// -38, ENOSYS.
const UNKNOWN_CALL: u32 = u32::MAX - 37;

/// The word at 0x20000 before a call.
const WXYZ: u32 = 0x7A797877;

/// The word at 0x20000 with three bytes of the input over it.
const ABCZ: u32 = 0x7A636261;

/// The word at 0x20000 with four bytes of the input over it.
const ABCD: u32 = 0x64636261;

/// The devices of a call: an input, and sinks of 64 bytes for the output and the errors.
#[derive(Drop)]
struct Devices {
    input: MemSource,
    out: MemSink,
    err: MemSink,
}

/// What stands around a call: the input, the calls that fail of the input, the output and the errors, 0 for none, and
/// whether calls are told.
#[derive(Clone, Copy)]
struct Around {
    input: &'static str,
    fails: (u32, u32, u32),
    log: bool,
}

const QUIET: Around = Around {
    input: "abcdef",
    fails: (0, 0, 0),
    log: false,
};

fn devices_of(alloc: Global, around: Around) -> Result<Devices, Fail> {
    let (input, out, err) = around.fails;
    Ok(Devices {
        input: MemSource::new(
            around.input.as_bytes().to_vec(alloc)?,
            [input].to_vec(alloc)?,
        ),
        out: MemSink::new(alloc, 64, [out].to_vec(alloc)?)?,
        err: MemSink::new(alloc, 64, [err].to_vec(alloc)?)?,
    })
}

/// A call that was made: its answer, what the machine is then, and its devices.
#[derive(Drop)]
struct Made {
    answer: Result<(), CallFault>,
    machine: Machine,
    devices: Devices,
}

/// Makes a call over the small memory.
fn after_call(alloc: Global, call: Call, around: Around) -> Result<Made, Fail> {
    let mut machine = machine_at(alloc, call, around.log)?;
    let mut devices = devices_of(alloc, around)?;
    let answer = machine.call_step(&mut devices.input, &mut devices.out, &mut devices.err);
    Ok(Made {
        answer,
        machine,
        devices,
    })
}

/// What a call leaves: its answer, how the run has ended, a0, the break, the word at 0x20000, and what went to the
/// output and to the errors.
#[derive(Clone, Copy, PartialEq, Debug)]
struct Left<'a> {
    answer: Result<(), CallFault>,
    ending: Option<End>,
    a0: u32,
    brk: u32,
    word: u32,
    out: &'a [u8],
    err: &'a [u8],
}

fn left_by(made: &Made) -> Left<'_> {
    Left {
        answer: made.answer,
        ending: made.machine.ending,
        a0: made.machine.regs.get(Reg::of(10)),
        brk: made.machine.heap.now,
        word: made.machine.bus.load(0x20000, 4).unwrap_or(0),
        out: made.devices.out.held(),
        err: made.devices.err.held(),
    }
}

/// What a call leaves that answers 0 and changes nothing.
const UNCHANGED: Left<'static> = Left {
    answer: Ok(()),
    ending: None,
    a0: 0,
    brk: HEAP.now,
    word: WXYZ,
    out: b"",
    err: b"",
};

/// A read's descriptor, buffer and count, its answer, and the word at 0x20000 after it.
static READS: [((u32, u32, u32), u32, u32); 12] = [
    ((0, 0x20000, 3), 3, ABCZ),
    ((0, 0x20000, 6), 6, ABCD),
    ((0, 0x20000, 1024), 6, ABCD),
    ((0, 0x20000, 1025), BAD_ADDRESS, WXYZ),
    ((0, 0x20006, 4), 4, WXYZ),
    ((0, 0x30000, 1), BAD_ADDRESS, WXYZ),
    ((0, 0x40000, 4), 4, WXYZ),
    ((0, 0xFFFFFFFF, 2), BAD_ADDRESS, WXYZ),
    ((0, 0, 0), 0, WXYZ),
    ((1, 0x20000, 3), BAD_DESCRIPTOR, WXYZ),
    ((1, 0, 1), BAD_DESCRIPTOR, WXYZ),
    ((1, 0, 0), BAD_DESCRIPTOR, WXYZ),
];

#[test]
fn reads_answer_their_count_and_store_it(rt: HostRuntime) -> Result<(), Fail> {
    for (k, &((descriptor, buffer, count), a0, word)) in READS.iter().enumerate() {
        let read = after_call(rt.alloc(), (63, descriptor, buffer, count), QUIET)?;
        let left = Left {
            a0,
            word,
            ..UNCHANGED
        };
        assert_eq!(rt; left_by(&read), left, "row {k}");
    }
    Ok(())
}

/// A write's descriptor, buffer and count, its answer, and what it gives to the output and to the errors.
static WRITES: [((u32, u32, u32), u32, &str, &str); 10] = [
    ((1, 0x20000, 4), 4, "wxyz", ""),
    ((2, 0x20000, 3), 3, "", "wxy"),
    ((1, 0x20003, 7), 7, "z\0\0\0\0\0\0", ""),
    ((1, 0x30000, 4), 4, "\0\0\0\0", ""),
    ((1, 0x30000, 5), BAD_ADDRESS, "", ""),
    ((2, 0x40000, 1), BAD_ADDRESS, "", ""),
    ((1, 0, 0), 0, "", ""),
    ((0, 0x20000, 4), BAD_DESCRIPTOR, "", ""),
    ((3, 0, 1), BAD_DESCRIPTOR, "", ""),
    ((3, 0, 0), BAD_DESCRIPTOR, "", ""),
];

#[test]
fn writes_answer_their_count_and_give_it_to_their_sink(rt: HostRuntime) -> Result<(), Fail> {
    for (k, &((descriptor, buffer, count), a0, out, err)) in WRITES.iter().enumerate() {
        let written = after_call(rt.alloc(), (64, descriptor, buffer, count), QUIET)?;
        let left = Left {
            a0,
            out: out.as_bytes(),
            err: err.as_bytes(),
            ..UNCHANGED
        };
        assert_eq!(rt; left_by(&written), left, "row {k}");
    }
    Ok(())
}

// The first read takes all, the second finds the end, and the third would fail.
#[test]
fn a_read_asks_no_more_after_the_end(rt: HostRuntime) -> Result<(), Fail> {
    let around = Around {
        input: "abc",
        fails: (3, 0, 0),
        log: false,
    };
    let left = Left {
        a0: 3,
        word: ABCZ,
        ..UNCHANGED
    };
    let read = after_call(rt.alloc(), (63, 0, 0x20000, 8), around)?;
    assert_eq!(rt; left_by(&read), left);
    Ok(())
}

/// The address to which the break is to move, and where it then is.
static BREAKS: [(u32, u32); 6] = [
    (0, 0x20100),
    (0x20007, 0x20100),
    (0x20008, 0x20008),
    (0x20222, 0x20222),
    (0x20400, 0x20400),
    (0x20401, 0x20100),
];

#[test]
fn the_break_moves_in_the_heap_and_is_the_answer(rt: HostRuntime) -> Result<(), Fail> {
    for (k, &(address, brk)) in BREAKS.iter().enumerate() {
        let moved = after_call(rt.alloc(), (214, address, 0, 0), QUIET)?;
        let left = Left {
            a0: brk,
            brk,
            ..UNCHANGED
        };
        assert_eq!(rt; left_by(&moved), left, "row {k}");
    }
    Ok(())
}

/// Numbers that no call has, with arguments.
static UNKNOWN: [Call; 3] = [(0, 0, 0, 0), (80, 0, 0, 0), (65599, 0, 0x20000, 3)];

#[test]
fn unknown_calls_are_refused(rt: HostRuntime) -> Result<(), Fail> {
    for (k, call) in UNKNOWN.iter().enumerate() {
        let refused = after_call(rt.alloc(), *call, QUIET)?;
        let left = Left {
            a0: UNKNOWN_CALL,
            ..UNCHANGED
        };
        assert_eq!(rt; left_by(&refused), left, "row {k}");
    }
    Ok(())
}

/// A call's number and arguments, and what it leaves where calls are told and the input is "abc".
static TOLD: [(Call, Left<'static>); 5] = [
    (
        (63, 0, 0x20000, 16),
        Left {
            a0: 3,
            word: ABCZ,
            err: b"call 63 00000000 00020000 00000010 = 00000003\n",
            ..UNCHANGED
        },
    ),
    (
        (64, 1, 0x20000, 3),
        Left {
            a0: 3,
            out: b"wxy",
            err: b"call 64 00000001 00020000 00000003 = 00000003\n",
            ..UNCHANGED
        },
    ),
    (
        (64, 2, 0x20000, 3),
        Left {
            a0: 3,
            err: b"wxycall 64 00000002 00020000 00000003 = 00000003\n",
            ..UNCHANGED
        },
    ),
    (
        (93, 0xFFFFFFFF, 0x20000, 3),
        Left {
            ending: Some(End::Exited(0xFFFFFFFF)),
            a0: 0xFFFFFFFF,
            err: b"call 93 ffffffff 00020000 00000003\n",
            ..UNCHANGED
        },
    ),
    (
        (4294967295, 1, 2, 3),
        Left {
            a0: UNKNOWN_CALL,
            err: b"call 4294967295 00000001 00000002 00000003 = ffffffda\n",
            ..UNCHANGED
        },
    ),
];

#[test]
fn calls_are_told_after_what_they_write(rt: HostRuntime) -> Result<(), Fail> {
    let around = Around {
        input: "abc",
        fails: (0, 0, 0),
        log: true,
    };
    for (k, (call, left)) in TOLD.iter().enumerate() {
        let told = after_call(rt.alloc(), *call, around)?;
        assert_eq!(rt; left_by(&told), *left, "row {k}");
    }
    Ok(())
}

/// A call's number and arguments, the calls that fail of the input, the output and the errors, 0 for none, and what the
/// call leaves where calls are told. A0 and the break stay.
static FAILURES: [(Call, (u32, u32, u32), Left<'static>); 5] = [
    (
        (63, 0, 0x20000, 3),
        (1, 0, 0),
        Left {
            answer: Err(CallFault::SourceFault),
            ..UNCHANGED
        },
    ),
    (
        (63, 0, 0x20000, 7),
        (2, 0, 0),
        Left {
            answer: Err(CallFault::SourceFault),
            word: ABCD,
            ..UNCHANGED
        },
    ),
    (
        (63, 0, 0x20000, 6),
        (0, 0, 1),
        Left {
            answer: Err(CallFault::SinkFault),
            word: ABCD,
            ..UNCHANGED
        },
    ),
    (
        (64, 1, 0x20000, 12),
        (0, 2, 0),
        Left {
            answer: Err(CallFault::SinkFault),
            a0: 1,
            out: b"wxyz\0\0\0\0",
            ..UNCHANGED
        },
    ),
    (
        (64, 2, 0x20000, 8),
        (0, 0, 2),
        Left {
            answer: Err(CallFault::SinkFault),
            a0: 2,
            err: b"wxyz\0\0\0\0",
            ..UNCHANGED
        },
    ),
];

#[test]
fn failed_devices_leave_a_prefix_a0_and_the_break(rt: HostRuntime) -> Result<(), Fail> {
    for (k, &(call, fails, left)) in FAILURES.iter().enumerate() {
        let around = Around {
            input: "abcdef",
            fails,
            log: true,
        };
        let failed = after_call(rt.alloc(), call, around)?;
        assert_eq!(rt; left_by(&failed), left, "row {k}");
        assert_eq!(rt; failed.machine.heap, HEAP, "row {k}");
    }
    Ok(())
}

/// A reader that gives at most so many bytes at once.
#[derive(Drop)]
struct Trickle<'a> {
    rest: &'a [u8],
    most: usize,
}

impl io::Read for Trickle<'_> {
    fn read(&mut self, buf: &mut [u8]) -> io::Result<usize> {
        let count = buf.len().min(self.most).min(self.rest.len());
        let (front, rest) = self.rest.split_at(count);
        buf[..count].copy_from_slice(front);
        self.rest = rest;
        Ok(count)
    }
}

/// Bytes of which no 251 that follow one another are the same.
fn counted_bytes(alloc: Global) -> Result<Vec<u8>, Fail> {
    let mut bytes = Vec::new(alloc);
    for j in 0..1500u32 {
        bytes.push((j % 251) as u8)?;
    }
    Ok(bytes)
}

/// A machine's answer to a call, and a0 then.
fn answer_to<I: Source>(
    machine: &mut Machine,
    call: Call,
    input: &mut I,
    out: &mut MemSink,
    err: &mut MemSink,
) -> (Result<(), CallFault>, u32) {
    machine.regs = regs_of(call);
    machine.steps = 0;
    let answer = machine.call_step(input, out, err);
    (answer, machine.regs.get(Reg::of(10)))
}

/// What a read and a write of what it read answered, and the output.
#[derive(Drop)]
struct Echoed {
    read: (Result<(), CallFault>, u32),
    written: (Result<(), CallFault>, u32),
    out: MemSink,
}

/// Reads up to 1000 bytes, as the reader gives them, and writes those that were read.
fn echo(alloc: Global, whole: &[u8], most: usize) -> Result<Echoed, Fail> {
    let mut machine = machine_at(alloc, (0, 0, 0, 0), false)?;
    let mut input = RealSource::new(Trickle { rest: whole, most });
    let mut out = MemSink::new(alloc, 1000, Vec::new(alloc))?;
    let mut err = MemSink::new(alloc, 0, Vec::new(alloc))?;
    let read = answer_to(
        &mut machine,
        (63, 0, 0x20010, 1000),
        &mut input,
        &mut out,
        &mut err,
    );
    let written = answer_to(
        &mut machine,
        (64, 1, 0x20010, read.1),
        &mut input,
        &mut out,
        &mut err,
    );
    Ok(Echoed { read, written, out })
}

/// How many bytes there are, how many the reader gives at once, and how many are read.
static ECHOES: [(usize, usize, u32); 5] = [
    (1500, 1500, 1000),
    (1500, 100, 1000),
    (300, 7, 300),
    (300, 256, 300),
    (0, 1, 0),
];

#[test]
fn reads_go_on_until_the_count_or_the_end(rt: HostRuntime) -> Result<(), Fail> {
    let bytes = counted_bytes(rt.alloc())?;
    for &(length, most, count) in ECHOES.iter() {
        let whole = bytes.get(..length).unwrap_or(&[]);
        let echoed = echo(rt.alloc(), whole, most)?;
        assert_eq!(rt;
            (echoed.read, echoed.written),
            ((Ok(()), count), (Ok(()), count))
        );
        assert_eq!(rt; Some(echoed.out.held()), whole.get(..count as usize));
    }
    Ok(())
}

/// Where the instruction of a word would store into the text of the small bus.
fn found(alloc: Global, word: u32, call: Call, reserved: Option<u32>) -> Result<Option<u32>, Fail> {
    let mut regs = regs_of(call);
    regs.reserve(reserved);
    let bus = small_bus(alloc)?;
    Ok(text_store(&decode(word).unwrap_or(Instr::Fence), &regs, &bus))
}

const ECALL: u32 = 0x00000073;

/// A word, x17 and x10 to x12, the address that is reserved, and the address at which the word would store into the text.
static STORES: [(u32, Call, Option<u32>, Option<u32>); 19] = [
    // sw, sh and sb of x11 at x10
    (0x00B52023, (0, 0x10000, 0, 0), None, Some(0x10000)),
    (0x00B52023, (0, 0x10006, 0, 0), None, None),
    (0x00B51023, (0, 0x10006, 0, 0), None, Some(0x10006)),
    (0x00B50023, (0, 0x10008, 0, 0), None, None),
    (0x00B52023, (0, 0x20000, 0, 0), None, None),
    // lw of x10
    (0x00052503, (0, 0x10000, 0, 0), None, None),
    // lr.w of x10
    (0x1005252F, (0, 0x10000, 0, 0), None, None),
    // sc.w of x11 at x10
    (0x18B5252F, (0, 0x10004, 0, 0), Some(0x10004), Some(0x10004)),
    (0x18B5252F, (0, 0x10004, 0, 0), Some(0x10000), None),
    (0x18B5252F, (0, 0x10004, 0, 0), None, None),
    // amoadd.w of x11 at x10
    (0x00B5252F, (0, 0x10004, 0, 0), None, Some(0x10004)),
    (0x00B5252F, (0, 0x10002, 0, 0), None, None),
    (0x00B5252F, (0, 0x20000, 0, 0), None, None),
    // reads into it and beside it, and a write
    (ECALL, (63, 0, 0x10004, 4), None, Some(0x10004)),
    (ECALL, (63, 0, 0x10006, 4), None, None),
    (ECALL, (63, 1, 0x10004, 4), None, None),
    (ECALL, (63, 0, 0x20000, 4), None, None),
    (ECALL, (64, 0, 0x10004, 4), None, None),
    (ECALL, (63, 0, 0x10004, 0), None, None),
];

#[test]
fn stores_into_the_text_are_found(rt: HostRuntime) -> Result<(), Fail> {
    for (k, &(word, call, reserved, address)) in STORES.iter().enumerate() {
        let found = found(rt.alloc(), word, call, reserved)?;
        assert_eq!(rt; found, address, "row {k}");
    }
    Ok(())
}
