//! Instructions that would store into the text.
#![tactic(auto)]

ghost use Rattle.std.specs.Prelude.{◌≡◌};
ghost use Rattle.swi_memory.specs.declared.right.Right.TheVariants.{Write};
ghost use Rattle.swi_memory.specs.Bus.{holds};
ghost use Rattle.swi_exec.specs.StoresText.{atomic_into_text, into_text, text_access_of};

use crate::registers::Regs;
use crate::values::size_of_store;
use swi_isa::{AtomicOp, Instr};
use swi_memory::Bus;

/// `a`, where the `n` bytes from there on can all be written and one of them is a text word's.
#[inline(always)]
pub fn store_into_text(bus: &Bus, a: u32, n: u32) -> Option<u32>
    ensures { result ≡ into_text bus.now (holds bus.now Write a n) a n }
{
    if bus.touches_text(a, n) && bus.writable(a, n) {
        Some(a)
    } else {
        None
    }
}

/// The address at which an atomic instruction on the word at `a` would store into the text.
#[cold]
#[inline(never)]
fn atomic_store(op: AtomicOp, a: u32, regs: &Regs, bus: &Bus) -> Option<u32>
    ensures { result ≡ atomic_into_text op a regs.now bus.now }
{
    if a % 4 != 0 {
        return None;
    }
    let stores = match op {
        AtomicOp::LrW => false,
        AtomicOp::ScW => regs.reserved() == Some(a),
        AtomicOp::SwapW
        | AtomicOp::AddW
        | AtomicOp::XorW
        | AtomicOp::AndW
        | AtomicOp::OrW
        | AtomicOp::MinW
        | AtomicOp::MaxW
        | AtomicOp::MinuW
        | AtomicOp::MaxuW => bus.readable(a, 4),
    };
    if stores {
        store_into_text(bus, a, 4)
    } else {
        None
    }
}

/// The address at which the instruction would store into the text: the first of its access, of which a later
/// byte may be the first that is a text word's. None where it would not; then executing it leaves every text
/// word as it is. It changes nothing.
///
/// A store does where it succeeds and one of its bytes is a text word's, an AMO where it doesn't fault, and SC.W
/// where it succeeds. An ECALL does not: its system call stores after it. A program's text is fixed for the
/// cached machine.
#[inline(always)]
pub fn text_access(instr: &Instr, regs: &Regs, bus: &Bus) -> Option<u32>
    ensures { result ≡ text_access_of instr.now regs.now bus.now }
{
    match *instr {
        Instr::Store { op, rs1, imm, .. } => {
            let size = u32::from(size_of_store(op));
            store_into_text(bus, regs.get(rs1).wrapping_add(imm), size)
        }
        Instr::Atomic { op, rs1, .. } => atomic_store(op, regs.get(rs1), regs, bus),
        _ => None,
    }
}
