//! What the operations of instructions give.
#![tactic(auto)]

ghost use Rattle.std.specs.Prelude.{◌≡◌, ◌<◌, ◌*◌, ◌^◌, ℕ, true, false, MatchResult, OnOk, OnErr};
ghost use Rattle.swi_exec.specs.Execute.{op_value, imm_value, is_taken, load_value, load_size, store_size, atomic_word};
ghost use Rattle.swi_memory.specs.declared.right.Right.TheVariants.{Read, Write};
ghost use Rattle.swi_memory.specs.Bus.{IsSize, fetched, holds, number_at, stored, touches_text};

use crate::arithmetic::{
    greatest, high_product, high_product_mixed, high_product_unsigned, least, less, quotient,
    quotient_unsigned, remainder, remainder_unsigned, signed_right_shift,
};
use swi_field::sign;
use swi_isa::{AtomicOp, BranchOp, ImmOp, LoadOp, RegOp, StoreOp};
use swi_memory::{Access, Bus};

/// The word that the operation `op` gives, where rs1 holds `a` and rs2 `b`. Each pair of words has one: sums, differences
/// and products are modulo 2^32, a shift takes the lowest five bits of `b`, a division by zero gives all ones and leaves
/// `a`, and that of -2^31 by -1 gives -2^31 and leaves 0. SLT, MULH, DIV and REM read both words as signed, MULHSU and
/// SRA `a` alone.
///
/// Source: RISC-V unprivileged specification, RV32I, "Integer Computational Instructions", and the M extension.
#[inline(always)]
pub fn value_of_op(op: RegOp, a: u32, b: u32) -> u32
    ensures { result ≡ op_value op a b }
{
    match op {
        RegOp::Add => a.wrapping_add(b),
        RegOp::Sub => a.wrapping_sub(b),
        RegOp::Sll => a << (b & 31),
        RegOp::Slt => less(a, b),
        RegOp::Sltu => u32::from(a < b),
        RegOp::Xor => a ^ b,
        RegOp::Srl => a >> (b & 31),
        RegOp::Sra => signed_right_shift(a, b),
        RegOp::Or => a | b,
        RegOp::And => a & b,
        RegOp::Mul => a.wrapping_mul(b),
        RegOp::Mulh => high_product(a, b),
        RegOp::Mulhsu => high_product_mixed(a, b),
        RegOp::Mulhu => high_product_unsigned(a, b),
        RegOp::Div => quotient(a, b),
        RegOp::Divu => quotient_unsigned(a, b),
        RegOp::Rem => remainder(a, b),
        RegOp::Remu => remainder_unsigned(a, b),
    }
}

/// What an operation gives of rs1 and the immediate.
#[inline(always)]
pub fn value_of_imm(op: ImmOp, a: u32, b: u32) -> u32
    ensures { result ≡ imm_value op a b }
{
    match op {
        ImmOp::Addi => a.wrapping_add(b),
        ImmOp::Slti => less(a, b),
        ImmOp::Sltiu => u32::from(a < b),
        ImmOp::Xori => a ^ b,
        ImmOp::Ori => a | b,
        ImmOp::Andi => a & b,
        ImmOp::Slli => a << (b & 31),
        ImmOp::Srli => a >> (b & 31),
        ImmOp::Srai => signed_right_shift(a, b),
    }
}

/// Whether a branch with the condition `op` is taken, where rs1 holds `a` and rs2 `b`. BLT and BGE read both words as
/// signed, BLTU and BGEU as unsigned.
///
/// Source: RISC-V unprivileged specification, RV32I, "Conditional Branches".
#[inline(always)]
pub fn takes(op: BranchOp, a: u32, b: u32) -> bool
    ensures { result ≡ is_taken op a b }
{
    match op {
        BranchOp::Beq => a == b,
        BranchOp::Bne => a != b,
        BranchOp::Blt => a.cast_signed() < b.cast_signed(),
        BranchOp::Bge => a.cast_signed() >= b.cast_signed(),
        BranchOp::Bltu => a < b,
        BranchOp::Bgeu => a >= b,
    }
}

/// The word that the load `op` gives: of the 1, 2 or 4 bytes from the address `a` on, the lowest first, extended to 32
/// bits with their sign by LB and LH, and with zeros by LBU and LHU. `a` need not be a multiple of the size. Access
/// exactly where one of the bytes can't be read.
///
/// Source: RISC-V unprivileged specification, RV32I, "Load and Store Instructions". That a misaligned load goes byte by
/// byte.
// Each size is a constant, so that the access of that size alone is compiled for it.
#[inline(always)]
pub fn load(op: LoadOp, a: u32, bus: &Bus) -> Result<u32, Access>
    ensures { MatchResult result
        (λ v. (holds bus.now Read a (load_size op) ≡ true)
        × (v ≡ load_value op (number_at bus.now a (load_size op))))
        (λ _. holds bus.now Read a (load_size op) ≡ false) }
{
    match op {
        LoadOp::Lb => Ok(sign::<8>(bus.load(a, 1)?)),
        LoadOp::Lh => Ok(sign::<16>(bus.load(a, 2)?)),
        LoadOp::Lw => bus.load(a, 4),
        LoadOp::Lbu => bus.load(a, 1),
        LoadOp::Lhu => bus.load(a, 2),
    }
}

/// How many bytes a load reads: 1, 2 or 4. Source: RISC-V unprivileged specification, RV32I, "Load and Store
/// Instructions".
#[inline(always)]
pub fn size_of_load(op: LoadOp) -> u8
    ensures value { result ≡ load_size op }
    ensures size { IsSize result }
{
    match op {
        LoadOp::Lb | LoadOp::Lbu => 1,
        LoadOp::Lh | LoadOp::Lhu => 2,
        LoadOp::Lw => 4,
    }
}

/// The word that a load makes of the number that it reads, which has `size_of_load` bytes: LB and LH extend its sign, LBU
/// and LHU put zeros above. Source: as of `size_of_load`.
#[inline(always)]
pub fn value_of_load(op: LoadOp, v: u32) -> u32
    requires { v < 2 ^ (8 * load_size op) }
    ensures { result ≡ load_value op v }
{
    match op {
        LoadOp::Lb => sign::<8>(v),
        LoadOp::Lh => sign::<16>(v),
        LoadOp::Lw | LoadOp::Lbu | LoadOp::Lhu => v,
    }
}

/// How many bytes a store writes.
#[inline(always)]
pub fn size_of_store(op: StoreOp) -> u8
    ensures value { result ≡ store_size op }
    ensures size { IsSize result }
{
    match op {
        StoreOp::Sb => 1,
        StoreOp::Sh => 2,
        StoreOp::Sw => 4,
    }
}

/// Does what a store does. A refusal changes nothing.
#[inline(always)]
pub fn store(op: StoreOp, a: u32, v: u32, bus: &mut Bus) -> Result<(), Access>
    ensures ok { OnOk result (holds bus.old Write a (store_size op) ≡ true) }
    ensures bytes { OnOk result (bus.new ≡ stored bus.old a (store_size op) v) }
    ensures refused { OnErr result (holds bus.old Write a (store_size op) ≡ false) }
    ensures unchanged { OnErr result (bus.new ≡ bus.old) }
    ensures text { touches_text bus.old a (store_size op) ≡ false →
        (x : ℕ) → fetched bus.new x ≡ fetched bus.old x }
{
    match op {
        StoreOp::Sb => bus.store(a, 1, v),
        StoreOp::Sh => bus.store(a, 2, v),
        StoreOp::Sw => bus.store(a, 4, v),
    }
}

/// The word that an atomic operation, where it is done, leaves in memory: of the word `a` that stood
/// there, and of rs2.
pub fn word_of_atomic(op: AtomicOp, a: u32, b: u32) -> u32
    ensures { result ≡ atomic_word op a b }
{
    match op {
        AtomicOp::LrW => a,
        AtomicOp::ScW | AtomicOp::SwapW => b,
        AtomicOp::AddW => a.wrapping_add(b),
        AtomicOp::XorW => a ^ b,
        AtomicOp::AndW => a & b,
        AtomicOp::OrW => a | b,
        AtomicOp::MinW => least(a, b),
        AtomicOp::MaxW => greatest(a, b),
        AtomicOp::MinuW => a.min(b),
        AtomicOp::MaxuW => a.max(b),
    }
}
