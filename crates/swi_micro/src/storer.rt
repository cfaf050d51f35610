//! Stores by micro-ops, into the text too.
#![tactic(auto)]

ghost use Rattle.std.specs.Prelude.{◌≡◌, None, IfSome};
ghost use Rattle.swi_memory.specs.Bus.{IsSize};
ghost use Rattle.swi_micro.specs.Stored.{size_of, wrote};

use crate::class::{Class, class_of_code};
use crate::translator::MicroOp;
use swi_exec::Regs;
use swi_memory::Bus;

/// How many bytes a micro-op of the class stores. None where it is no store's.
#[inline(always)]
fn size(class: Class) -> Option<u8>
    ensures value { result ≡ size_of class }
    ensures size { IfSome result (λ n. IsSize n) }
{
    match class {
        Class::Sw => Some(4),
        Class::Sb => Some(1),
        Class::Sh => Some(2),
        _ => None,
    }
}

/// Does what a store's micro-op does, also where `step` leaves it, at a store into the text: who calls has to see to the
/// micro-ops of the words that it changes. It gives the address of the store. None, and nothing changed, where the
/// micro-op is no store's, or the store is refused.
pub fn store(m: &MicroOp, regs: &Regs, bus: &mut Bus) -> Option<u32>
    ensures at { result ≡ (wrote m.now regs.now bus.old).at }
    ensures bus { bus.new ≡ (wrote m.now regs.now bus.old).bus }
    ensures refused { result ≡ None → bus.new ≡ bus.old }
{
    let n = size(class_of_code(m.code))?;
    let a = regs.get(m.rs1.register()).wrapping_add(m.imm);
    if bus.store(a, n, regs.get(m.rs2.register())).is_err() {
        return None;
    }
    Some(a)
}
