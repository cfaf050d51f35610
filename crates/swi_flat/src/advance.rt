//! Steps that ask for no device.
#![tactic(auto)]

ghost use Rattle.std.specs.Prelude.{◌≡◌, ◌<◌, ◌≤◌, ◌%◌, ◌^◌, None, IfSome};
ghost use Rattle.swi_flat.specs.Advanced.{Advances, GoesOnAt, StandsAt};
ghost use Rattle.swi_memory.specs.Bus.{fetched};
ghost use Rattle.swi_micro.specs.Decoded.{AreDecoded};
ghost use Rattle.swi_micro.specs.MicroOp.{address_at};

use swi_calls::Machine;
use swi_exec::{Done, Regs, exec, text_access};
use swi_isa::{Instr, decode};
use swi_memory::{Bus, WordRange};
use swi_micro::{Decoded, MicroOp, address, forget, index_of, micro_op, step, store};

/// Executes a store or an atomic instruction, which is the word with index `k` of the range, and forgets the micro-ops of
/// the words that it changes. It gives the index of the next word; None, and nothing changed, where it is another
/// instruction, or faults.
fn store_word(
    ops: &mut [MicroOp],
    range: &WordRange,
    k: u32,
    instr: &Instr,
    regs: &mut Regs,
    bus: &mut Bus,
) -> Option<u64>
    requires within { k < range.now.words }
    requires decoded { AreDecoded (fetched bus.old) range.now ops.old }
    requires here { StandsAt bus.old range.now k instr.now }
    ensures step { IfSome result (λ next.
        GoesOnAt (address_at range.now k) regs.old bus.old (address_at range.now next) regs.new bus.new) }
    ensures within { IfSome result (λ next. next ≤ range.now.words) }
    ensures decoded { AreDecoded (fetched bus.new) range.now ops.new }
    ensures same_regs { result ≡ None → regs.new ≡ regs.old }
    ensures same_bus { result ≡ None → bus.new ≡ bus.old }
{
    if !matches!(*instr, Instr::Store { .. } | Instr::Atomic { .. }) {
        return None;
    }
    let stored = text_access(instr, regs, bus);
    match exec(instr, address(range, k), regs, bus) {
        Done::Next(_) => {
            if let Some(a) = stored {
                forget(ops, range, a);
            }
            Some(k as u64 + 1)
        }
        Done::Call | Done::Break | Done::Fault(_, _) => None,
    }
}

/// A step at the word with index `k` of the range, which is decoded. Where no micro-op of it is kept it gets its own. It
/// gives the index of the next word; None, and neither registers nor memory changed, where the step is a call, a break or
/// a fault, or leads out of the range.
fn decode_and_step(
    ops: &mut [MicroOp],
    range: &WordRange,
    k: u32,
    regs: &mut Regs,
    bus: &mut Bus,
) -> Option<u64>
    requires within { k < range.now.words }
    requires decoded { AreDecoded (fetched bus.old) range.now ops.old }
    ensures step { IfSome result (λ next.
        GoesOnAt (address_at range.now k) regs.old bus.old (address_at range.now next) regs.new bus.new) }
    ensures within { IfSome result (λ next. next ≤ range.now.words) }
    ensures decoded { AreDecoded (fetched bus.new) range.now ops.new }
    ensures same_regs { result ≡ None → regs.new ≡ regs.old }
    ensures same_bus { result ≡ None → bus.new ≡ bus.old }
{
    let word = bus.fetch(address(range, k))?;
    let instr = decode(word)?;
    if ops[k as usize].stops() {
        let m = micro_op(&instr, range, k);
        ops[k as usize] = m;
        if let Some(next) = step(&m, range, k as u64, regs, bus) {
            return Some(next);
        }
    }
    store_word(ops, range, k, &instr, regs, bus)
}

/// A step at the word with index `k` of the range, whose micro-op left it: at a word that no step has come to since it was
/// stored, and at one that micro-ops leave. A store into the text is made by its micro-op, and the micro-ops of the words
/// that it changes are forgotten; every other word is decoded. It gives the index of the next word; None, and neither
/// registers nor memory changed, where the step is a call, a break or a fault, or leads out of the range.
// Not inlined, so that it takes no register of the loop.
#[inline(never)]
fn step_anew(
    ops: &mut [MicroOp],
    range: &WordRange,
    k: u32,
    regs: &mut Regs,
    bus: &mut Bus,
) -> Option<u64>
    requires { AreDecoded (fetched bus.old) range.now ops.old }
    ensures step { IfSome result (λ next.
        GoesOnAt (address_at range.now k) regs.old bus.old (address_at range.now next) regs.new bus.new) }
    ensures within { IfSome result (λ next. next ≤ range.now.words) }
    ensures decoded { AreDecoded (fetched bus.new) range.now ops.new }
    ensures same_regs { result ≡ None → regs.new ≡ regs.old }
    ensures same_bus { result ≡ None → bus.new ≡ bus.old }
{
    if k >= range.words {
        return None;
    }
    if let Some(a) = store(&ops[k as usize], regs, bus) {
        forget(ops, range, a);
        return Some(k as u64 + 1);
    }
    decode_and_step(ops, range, k, regs, bus)
}

/// Steps up to `limit`, or to the first that is a call, a break or a fault, or that leads out of the text, which is not
/// made. The control of this loop is the index of a text word: no address stands in it, and nothing else but the
/// micro-ops and the count of the steps that are left.
#[inline(never)]
pub fn advance(machine: &mut Machine, decoded: &mut Decoded, limit: u64)
    requires going { machine.old.ending ≡ None }
    requires aligned { machine.old.pc % 4 ≡ 0 }
    requires within { machine.old.steps ≤ limit }
    requires few { limit ≤ 2 ^ 48 }
    requires decoded { AreDecoded (fetched machine.old.bus) decoded.old.range decoded.old.ops.items }
    ensures run { Advances machine.old machine.new }
    ensures going { machine.new.ending ≡ None }
    ensures aligned { machine.new.pc % 4 ≡ 0 }
    ensures within { machine.new.steps ≤ limit }
    ensures no_fewer { machine.old.steps ≤ machine.new.steps }
    ensures decoded { AreDecoded (fetched machine.new.bus) decoded.new.range decoded.new.ops.items }
{
    let range = decoded.range;
    let ops = decoded.ops.as_mut_slice();
    let Some(first) = index_of(&range, machine.pc) else {
        return;
    };
    // Of 64 bits: one of 32 would be extended at each step.
    let mut k = first as u64;
    let mut left = limit - machine.steps;
    while left > 0 {
        let m = &ops[k as usize];
        k = match step(m, &range, k, &mut machine.regs, &mut machine.bus) {
            Some(next) => next,
            None => match step_anew(ops, &range, k as u32, &mut machine.regs, &mut machine.bus) {
                Some(next) => next,
                None => break,
            },
        };
        left -= 1;
    }
    machine.pc = address(&range, k as u32);
    machine.steps = limit - left;
}
