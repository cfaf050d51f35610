//! Micro-ops against the executor: the same instruction on the same operands. That the two agree where a micro-op goes on
//! is proved; that it does go on where it can is not, and is asked here.
#![tactic(auto)]

ghost use Rattle.std.specs.Prelude.{◌<◌};

use std::alloc::Global;
use swi_exec::{Done, Regs, exec, text_access};
use swi_isa::{Instr, Reg, decode};
use swi_memory::{Bus, Layout, Segment, WordRange};
use swi_micro::{MicroOp, address, index_of, micro_op, step};

/// The words of the text of `bus_of_rows`.
const TEXT: WordRange = WordRange {
    from: 0x10000,
    words: 64,
};

/// 64 text words of zeros from 0x10000 on, which can be written too, 16 bytes from 0x20000 on that can be read and written,
/// and a stack.
fn bus_of_rows(alloc: Global) -> Option<Bus> {
    let file = [0u8; 256];
    let segments = [
        Segment::of(0x10000, 7, 256, &file),
        Segment::of(0x30000, 4, 4, &[]),
    ];
    let layout = Layout {
        heap: 0x20000,
        heap_len: 16,
        stack: 0x50000,
        stack_len: 16,
        sp: 0,
    };
    Bus::new(alloc, &segments, &layout).ok()
}

fn regs_of(x1: u32, x2: u32) -> Regs {
    let mut regs = Regs::new();
    regs.set(Reg::of(1), x1);
    regs.set(Reg::of(2), x2);
    regs.set(Reg::of(3), 0x55);
    regs
}

/// Words of all forms, with rd x3 or x0, rs1 x1 and rs2 x2.
static WORDS: [u32; 74] = [
    0x002081B3, 0x402081B3, 0x002091B3, 0x0020A1B3, 0x0020B1B3, 0x0020C1B3, 0x0020D1B3, 0x4020D1B3,
    0x0020E1B3, 0x0020F1B3, 0x022081B3, 0x022091B3, 0x0220A1B3, 0x0220B1B3, 0x0220C1B3, 0x0220D1B3,
    0x0220E1B3, 0x0220F1B3, 0x00208033, 0x0220C033, 0xFFF08193, 0x7FF0A193, 0xFFF0B193, 0xFFF0C193,
    0x0F00E193, 0x0F00F193, 0x00509193, 0x0050D193, 0x4050D193, 0x00000013, 0x800001B7, 0x12345037,
    0x80000197, 0x00012197, 0x0000A183, 0x0040A183, 0x00408183, 0x00209183, 0x0000C183, 0x0010D183,
    0xFFF08003, 0x0020A023, 0x002081A3, 0x00209123, 0x00208463, 0x00209463, 0x0020C463, 0x0020D463,
    0x0020E463, 0x0020F463, 0xFE208EE3, 0xFE209EE3, 0x00208363, 0x7E208EE3, 0x008001EF, 0x0080006F,
    0x006001EF, 0x7FE001EF, 0xFFDFF1EF, 0x000081E7, 0x00408067, 0x002081E7, 0x0FF0000F, 0x00000073,
    0x00100073, 0x1000A1AF, 0x1820A1AF, 0x0020A1AF, 0xFFC0A183, 0xFFC0A023, 0x00102023, 0x00002083,
    0x001080E7, 0x00010063,
];

/// Operands x1 and x2.
static OPERANDS: [(u32, u32); 14] = [
    (0, 0),
    (1, 0xFFFF_FFFF),
    (0xFFFF_FFFF, 1),
    (0x8000_0000, 0xFFFF_FFFF),
    (0x7FFF_FFFF, 0x8000_0000),
    (0x20000, 0x89AB_CDEF),
    (0x2000C, 0x1234_563F),
    (0x50004, 7),
    (0x10008, 0x10008),
    (0x10100, 0),
    (0x100FC, 5),
    (0xFFFF_FFFE, 0),
    (0x30000, 3),
    (0x10003, 9),
];

/// Whether an instruction at pc is one of those that a micro-op leaves: a call, a break, a fault, an atomic instruction, a
/// store into the text, a branch whose target is no word of the text, and what leads out of it.
fn is_left(instr: &Instr, pc: u32, done: Done, stores: bool) -> bool {
    let Done::Next(next) = done else {
        return true;
    };
    let outside = match *instr {
        Instr::Branch { off, .. } => index_of(&TEXT, pc.wrapping_add(off)).is_none(),
        Instr::Jal { .. } | Instr::Jalr { .. } => index_of(&TEXT, next).is_none(),
        _ => false,
    };
    stores || outside || matches!(*instr, Instr::Atomic { .. })
}

fn are_equal(one: &Regs, other: &Regs) -> bool {
    for number in 0..32 {
        if one.get(Reg::of(number)) != other.get(Reg::of(number)) {
            return false;
        }
    }
    true
}

/// Whether a step at the text word with this index leaves what the executor does, or is one of those that are left to it.
fn agrees(word: u32, k: u32, x: (u32, u32), one: &mut Bus, other: &mut Bus) -> bool
    requires { k < 64 }
{
    let Some(instr) = decode(word) else {
        return false;
    };
    let pc = 0x10000 + 4 * k;
    let mut regs = regs_of(x.0, x.1);
    let mut wanted = regs_of(x.0, x.1);
    let stores = text_access(&instr, &wanted, other).is_some();
    let done = exec(&instr, pc, &mut wanted, other);
    match step(
        &micro_op(&instr, &TEXT, k),
        &TEXT,
        u64::from(k),
        &mut regs,
        one,
    ) {
        Some(next) => {
            let Ok(next) = u32::try_from(next) else {
                return false;
            };
            done == Done::Next(address(&TEXT, next)) && are_equal(&regs, &wanted)
        }
        None => {
            // So that both memories stay the same.
            exec(&instr, pc, &mut regs, one);
            is_left(&instr, pc, done, stores)
        }
    }
}

/// The first word, place and operands at which they don't agree.
fn first_apart(one: &mut Bus, other: &mut Bus) -> Option<(u32, u32, (u32, u32))> {
    for word in WORDS {
        for x in OPERANDS {
            for k in [0, 2, 63] {
                if !agrees(word, k, x, one, other) {
                    return Some((word, k, x));
                }
            }
        }
    }
    None
}

/// The first address of the heap, or else of the stack, at which two memories hold different words.
fn first_unlike(one: &Bus, other: &Bus) -> Option<u32> {
    [
        0x20000, 0x20004, 0x20008, 0x2000C, 0x50000, 0x50004, 0x50008, 0x5000C,
    ]
    .into_iter()
    .find(|a| one.load(*a, 4) != other.load(*a, 4))
}

#[test]
fn micro_ops_do_what_the_executor_does(rt: HostRuntime) {
    let mut one = bus_of_rows(rt.alloc()).expect(&rt, "no memory");
    let mut other = bus_of_rows(rt.alloc()).expect(&rt, "no memory");
    assert_eq!(rt; first_apart(&mut one, &mut other), None);
    assert_eq!(rt; first_unlike(&one, &other), None);
}

#[test]
fn a_micro_op_has_eight_bytes(rt: HostRuntime) {
    assert_eq!(rt; size_of::<MicroOp>(), 8);
}
