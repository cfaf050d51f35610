//! One instruction.
#![tactic(auto)]

ghost use Rattle.std.specs.Prelude.{◌≡◌, ◌%◌, ℕ, None};
ghost use Rattle.swi_isa.specs.declared.instr.Instr.TheVariants.{Ecall};
ghost use Rattle.swi_memory.specs.Bus.{fetched};
ghost use Rattle.swi_exec.specs.declared.done.Done.TheVariants.{Call};
ghost use Rattle.swi_exec.specs.Execute.{executed, IsAligned, StaysUnlessNext};
ghost use Rattle.swi_exec.specs.StoresText.{text_access_of};

use crate::atomic::atomic;
use crate::done::{Done, FaultKind};
use crate::registers::Regs;
use crate::values::{load, store, takes, value_of_imm, value_of_op};
use swi_isa::Instr;
use swi_memory::Bus;

/// Executes one instruction that stands at pc, a multiple of 4, and says what comes after it.
///
/// An ECALL, an EBREAK and a fault change neither registers nor memory: the caller does the system
/// call, or ends the run. Only ECALL answers Call. FENCE changes nothing. Where `text_access` is None every text
/// word stays as it is. The bits aq and rl of the atomic instructions have no meaning on one hart.
///
/// Source: RISC-V unprivileged specification, RV32I, and the M and A extensions. What a misaligned access
/// does, which accesses fault, and when SC.W stores.
#[inline(always)]
pub fn exec(instr: &Instr, pc: u32, regs: &mut Regs, bus: &mut Bus) -> Done
    requires { pc % 4 ≡ 0 }
    ensures done { result ≡ (executed instr.now pc regs.old bus.old).done }
    ensures regs { regs.new ≡ (executed instr.now pc regs.old bus.old).regs }
    ensures bus { bus.new ≡ (executed instr.now pc regs.old bus.old).bus }
    ensures aligned { IsAligned result }
    ensures unchanged { StaysUnlessNext result regs.old regs.new bus.old bus.new }
    ensures call { result ≡ Call → instr.now ≡ Ecall }
    ensures text { text_access_of instr.now regs.old bus.old ≡ None → (a : ℕ) → fetched bus.new a ≡ fetched bus.old a }
{
    let next = pc.wrapping_add(4);
    // Not cut into functions: one arm for each form of instruction, as in the definition.
    match *instr {
        Instr::Lui { rd, imm } => {
            regs.set(rd, imm);
            Done::Next(next)
        }
        Instr::Auipc { rd, imm } => {
            regs.set(rd, pc.wrapping_add(imm));
            Done::Next(next)
        }
        Instr::Jal { rd, off } => {
            let target = pc.wrapping_add(off);
            if target % 4 != 0 {
                return Done::Fault(FaultKind::FetchMisaligned, target);
            }
            regs.set(rd, next);
            Done::Next(target)
        }
        Instr::Jalr { rd, rs1, imm } => {
            let target = regs.get(rs1).wrapping_add(imm) & !1;
            if target % 4 != 0 {
                return Done::Fault(FaultKind::FetchMisaligned, target);
            }
            regs.set(rd, next);
            Done::Next(target)
        }
        Instr::Branch { op, rs1, rs2, off } => {
            if !takes(op, regs.get(rs1), regs.get(rs2)) {
                return Done::Next(next);
            }
            let target = pc.wrapping_add(off);
            if target % 4 != 0 {
                return Done::Fault(FaultKind::FetchMisaligned, target);
            }
            Done::Next(target)
        }
        Instr::Load { op, rd, rs1, imm } => {
            let a = regs.get(rs1).wrapping_add(imm);
            let Ok(v) = load(op, a, bus) else {
                return Done::Fault(FaultKind::LoadAccess, a);
            };
            regs.set(rd, v);
            Done::Next(next)
        }
        Instr::Store { op, rs1, rs2, imm } => {
            let a = regs.get(rs1).wrapping_add(imm);
            if store(op, a, regs.get(rs2), bus).is_err() {
                return Done::Fault(FaultKind::StoreAccess, a);
            }
            Done::Next(next)
        }
        Instr::Alu { op, rd, rs1, imm } => {
            let v = value_of_imm(op, regs.get(rs1), imm);
            regs.set(rd, v);
            Done::Next(next)
        }
        Instr::Op { op, rd, rs1, rs2 } => {
            let v = value_of_op(op, regs.get(rs1), regs.get(rs2));
            regs.set(rd, v);
            Done::Next(next)
        }
        Instr::Atomic { op, rd, rs1, rs2 } => {
            atomic(op, rd, regs.get(rs1), regs.get(rs2), pc, regs, bus)
        }
        Instr::Fence => Done::Next(next),
        Instr::Ecall => Done::Call,
        Instr::Ebreak => Done::Break,
    }
}
