//! The instructions of the A extension, on a hart that is alone with its memory.
#![tactic(auto)]

ghost use Rattle.std.specs.Prelude.{◌≡◌, ◌%◌, ℕ, None};
ghost use Rattle.swi_isa.specs.declared.instr.AtomicOp.TheVariants.{ScW};
ghost use Rattle.swi_memory.specs.Bus.{fetched};
ghost use Rattle.swi_exec.specs.declared.done.Done.TheVariants.{Call};
ghost use Rattle.swi_exec.specs.Execute.{loads_reserved, stores_conditionally, updates, atomic_effect, lets_update, IsAligned, StaysUnlessNext};
ghost use Rattle.swi_exec.specs.StoresText.{atomic_into_text, into_text};

use crate::done::{Done, FaultKind};
use crate::registers::Regs;
use crate::values::word_of_atomic;
use swi_isa::{AtomicOp, Reg};
use swi_memory::Bus;

/// LR.W: puts the word at `a` into rd, and reserves `a`.
fn load_reserved(rd: Reg, a: u32, pc: u32, regs: &mut Regs, bus: &Bus) -> Done
    requires { pc % 4 ≡ 0 }
    ensures done { result ≡ (loads_reserved rd a pc regs.old bus.now).done }
    ensures regs { regs.new ≡ (loads_reserved rd a pc regs.old bus.now).regs }
    ensures aligned { IsAligned result }
    ensures unchanged { StaysUnlessNext result regs.old regs.new bus.now bus.now }
{
    if a % 4 != 0 {
        return Done::Fault(FaultKind::LoadAccess, a);
    }
    let Ok(word) = bus.load(a, 4) else {
        return Done::Fault(FaultKind::LoadAccess, a);
    };
    regs.set(rd, word);
    regs.reserve(Some(a));
    Done::Next(pc.wrapping_add(4))
}

/// SC.W: stores `v` at `a` and puts 0 into rd where `a` is reserved, and else puts 1 into rd. Nothing
/// is reserved afterwards, unless it faults.
fn store_conditional(rd: Reg, a: u32, v: u32, pc: u32, regs: &mut Regs, bus: &mut Bus) -> Done
    requires { pc % 4 ≡ 0 }
    ensures done { result ≡ (stores_conditionally rd a v pc regs.old bus.old).done }
    ensures regs { regs.new ≡ (stores_conditionally rd a v pc regs.old bus.old).regs }
    ensures bus { bus.new ≡ (stores_conditionally rd a v pc regs.old bus.old).bus }
    ensures aligned { IsAligned result }
    ensures unchanged { StaysUnlessNext result regs.old regs.new bus.old bus.new }
    ensures text { atomic_into_text ScW a regs.old bus.old ≡ None → (x : ℕ) → fetched bus.new x ≡ fetched bus.old x }
{
    if a % 4 != 0 {
        return Done::Fault(FaultKind::StoreAccess, a);
    }
    if regs.reserved() == Some(a) {
        if bus.store(a, 4, v).is_err() {
            return Done::Fault(FaultKind::StoreAccess, a);
        }
        regs.set(rd, 0);
    } else {
        if !bus.writable(a, 4) {
            return Done::Fault(FaultKind::StoreAccess, a);
        }
        regs.set(rd, 1);
    }
    regs.reserve(None);
    Done::Next(pc.wrapping_add(4))
}

/// An AMO: puts the word at `a` into rd, and stores there the new word of it and `v`.
fn update(op: AtomicOp, rd: Reg, a: u32, v: u32, pc: u32, regs: &mut Regs, bus: &mut Bus) -> Done
    requires { pc % 4 ≡ 0 }
    ensures done { result ≡ (updates op rd a v pc regs.old bus.old).done }
    ensures regs { regs.new ≡ (updates op rd a v pc regs.old bus.old).regs }
    ensures bus { bus.new ≡ (updates op rd a v pc regs.old bus.old).bus }
    ensures aligned { IsAligned result }
    ensures unchanged { StaysUnlessNext result regs.old regs.new bus.old bus.new }
    ensures text { into_text bus.old (lets_update bus.old a) a 4 ≡ None →
        (x : ℕ) → fetched bus.new x ≡ fetched bus.old x }
{
    if a % 4 != 0 {
        return Done::Fault(FaultKind::StoreAccess, a);
    }
    let Ok(old) = bus.load(a, 4) else {
        return Done::Fault(FaultKind::StoreAccess, a);
    };
    if bus.store(a, 4, word_of_atomic(op, old, v)).is_err() {
        return Done::Fault(FaultKind::StoreAccess, a);
    }
    regs.set(rd, old);
    Done::Next(pc.wrapping_add(4))
}

/// The atomic instruction `op` on the word at `a`, the value of rs1, with `v`, the value of rs2.
// Not inlined, so that atomic instructions cost the others nothing.
#[inline(never)]
pub fn atomic(
    op: AtomicOp,
    rd: Reg,
    a: u32,
    v: u32,
    pc: u32,
    regs: &mut Regs,
    bus: &mut Bus,
) -> Done
    requires { pc % 4 ≡ 0 }
    ensures done { result ≡ (atomic_effect op rd a v pc regs.old bus.old).done }
    ensures regs { regs.new ≡ (atomic_effect op rd a v pc regs.old bus.old).regs }
    ensures bus { bus.new ≡ (atomic_effect op rd a v pc regs.old bus.old).bus }
    ensures aligned { IsAligned result }
    ensures unchanged { StaysUnlessNext result regs.old regs.new bus.old bus.new }
    ensures text { atomic_into_text op a regs.old bus.old ≡ None → (x : ℕ) → fetched bus.new x ≡ fetched bus.old x }
    ensures call { result ≡ Call → ⊥ }
{
    match op {
        AtomicOp::LrW => load_reserved(rd, a, pc, regs, bus),
        AtomicOp::ScW => store_conditional(rd, a, v, pc, regs, bus),
        AtomicOp::SwapW
        | AtomicOp::AddW
        | AtomicOp::XorW
        | AtomicOp::AndW
        | AtomicOp::OrW
        | AtomicOp::MinW
        | AtomicOp::MaxW
        | AtomicOp::MinuW
        | AtomicOp::MaxuW => update(op, rd, a, v, pc, regs, bus),
    }
}
