//! What a micro-op does.
#![tactic(auto)]

ghost use Rattle.std.specs.Prelude.{◌≡◌, ◌<◌, ◌/◌, ◌*◌, ◌+◌, ◌^◌, ℕ, true, false, None, IfSome, OnSome};
ghost use Rattle.swi_exec.specs.Execute.{address_of, load_size, load_value, op_value};
ghost use Rattle.swi_exec.specs.Registers.{reg, with_reg};
ghost use Rattle.swi_memory.specs.declared.right.Right.TheVariants.{Read};
ghost use Rattle.swi_memory.specs.Bus.{IsSize, fetched, holds, lets_store, number_at, stored};
ghost use Rattle.swi_micro.specs.MicroOp.{address_at, index_at};
ghost use Rattle.swi_micro.specs.Ran.{is_gone, multiplied, op_of, operated, ran, ran_as, StaysWhereLeft};

use crate::class::{Class, class_of_code};
use crate::translator::{MicroOp, address, index_of};
use swi_exec::{Regs, size_of_load, takes, value_of_load, value_of_op};
use swi_isa::{BranchOp, LoadOp, RegOp};
use swi_memory::{Bus, WordRange};

/// What an operation gives.
// Marked by a hint alone, as `loaded`: with what is always inlined into each arm `step` would be too large to be inlined
// itself, and then it is a call, with a jump through a table.
#[inline]
fn value(by: RegOp, a: u32, b: u32) -> u32
    ensures { result ≡ op_value by a b }
{
    value_of_op(by, a, b)
}

/// Puts what an operation gives of rs1, and of rs2 plus the immediate, into rd.
#[inline(always)]
#[tactic(auto, using(crate::proofs::Sums::joined_is))]
fn operate(by: RegOp, m: &MicroOp, regs: &mut Regs)
    ensures { regs.new ≡ operated by m.now regs.old }
{
    let second = regs.get(m.rs2.register()).wrapping_add(m.imm);
    let v = value(by, regs.get(m.rs1.register()), second);
    regs.put(m.rd, v);
}

/// The operation of the M extension with this funct3.
fn operation(number: u32) -> RegOp
    ensures { result ≡ op_of number }
{
    match number {
        1 => RegOp::Mulh,
        2 => RegOp::Mulhsu,
        3 => RegOp::Mulhu,
        4 => RegOp::Div,
        5 => RegOp::Divu,
        6 => RegOp::Rem,
        _ => RegOp::Remu,
    }
}

/// Puts what an operation of the M extension, but for MUL, gives into rd.
// Not inlined: these are executed seldom, and their choice by funct3 would stand in the loop.
#[inline(never)]
fn multiply(m: &MicroOp, regs: &mut Regs)
    ensures { regs.new ≡ multiplied m.now regs.old }
{
    let v = value_of_op(
        operation(m.imm),
        regs.get(m.rs1.register()),
        regs.get(m.rs2.register()),
    );
    regs.put(m.rd, v);
}

/// Whether a branch of the comparison goes to its target.
#[inline(always)]
pub fn goes(by: BranchOp, m: &MicroOp, regs: &Regs) -> bool
    ensures { result ≡ is_gone by m.now regs.now }
{
    takes(by, regs.get(m.rs1.register()), regs.get(m.rs2.register())) == m.rd.is_of_x0()
}

/// What a load gives where a window has its bytes.
#[inline]
fn loaded(by: LoadOp, a: u32, bus: &Bus) -> Option<u32>
    ensures { IfSome result (λ v. (holds bus.now Read a (load_size by) ≡ true)
        × (v ≡ load_value by (number_at bus.now a (load_size by)))) }
{
    let v = bus.load_in_window(a, size_of_load(by))?;
    Some(value_of_load(by, v))
}

/// Puts what a load reads into rd, wherever its bytes lie. False, and nothing changed, where it is refused.
// Not inlined, and cold, as the search in it: so a load in a window goes on by itself. Where both ways met behind the value, a
// step would ask again whether there was one: one to two of the computer's instructions a step.
#[cold]
#[inline(never)]
fn read_elsewhere(by: LoadOp, m: &MicroOp, regs: &mut Regs, bus: &Bus) -> bool
    ensures made { result ≡ holds bus.now Read (address_of regs.old m.now.rs1 m.now.imm) (load_size by) }
    ensures read { result ≡ true → regs.new ≡ with_reg regs.old m.now.rd
        (load_value by (number_at bus.now (address_of regs.old m.now.rs1 m.now.imm) (load_size by))) }
    ensures refused { result ≡ false → regs.new ≡ regs.old }
{
    let a = regs.get(m.rs1.register()).wrapping_add(m.imm);
    let Ok(v) = bus.load(a, size_of_load(by)) else {
        return false;
    };
    regs.put(m.rd, value_of_load(by, v));
    true
}

/// Puts what a load reads into rd. False, and nothing changed, where it is refused.
#[inline(always)]
fn read(by: LoadOp, m: &MicroOp, regs: &mut Regs, bus: &Bus) -> bool
    ensures made { result ≡ holds bus.now Read (address_of regs.old m.now.rs1 m.now.imm) (load_size by) }
    ensures read { result ≡ true → regs.new ≡ with_reg regs.old m.now.rd
        (load_value by (number_at bus.now (address_of regs.old m.now.rs1 m.now.imm) (load_size by))) }
    ensures refused { result ≡ false → regs.new ≡ regs.old }
{
    let a = regs.get(m.rs1.register()).wrapping_add(m.imm);
    let Some(v) = loaded(by, a, bus) else {
        return read_elsewhere(by, m, regs, bus);
    };
    regs.put(m.rd, v);
    true
}

/// Stores rs2. False, and nothing changed, where it is refused, or is a store into the text.
#[inline(always)]
fn write(size: u8, m: &MicroOp, regs: &Regs, bus: &mut Bus) -> bool
    requires { IsSize size }
    ensures made { result ≡ lets_store bus.old (address_of regs.now m.now.rs1 m.now.imm) size }
    ensures stored { result ≡ true → bus.new ≡ stored bus.old (address_of regs.now m.now.rs1 m.now.imm) size
        (reg regs.now m.now.rs2) }
    ensures refused { result ≡ false → bus.new ≡ bus.old }
    ensures text { (a : ℕ) → fetched bus.new a ≡ fetched bus.old a }
{
    let a = regs.get(m.rs1.register()).wrapping_add(m.imm);
    bus.store_beside_text(a, size, regs.get(m.rs2.register()))
}

/// The target of a JALR, and the address of the next word put into rd. None, and nothing changed, where it leads out of
/// the range.
#[inline(always)]
fn jump(range: &WordRange, m: &MicroOp, k: u64, regs: &mut Regs) -> Option<u64>
    requires { k < 2 ^ 31 }
    ensures target { result ≡ index_at range.now (address_of regs.old m.now.rs1 m.now.imm / 2 * 2) }
    ensures linked { OnSome result (regs.new ≡ with_reg regs.old m.now.rd (address_at range.now (k + 1))) }
    ensures refused { result ≡ None → regs.new ≡ regs.old }
{
    let target = regs.get(m.rs1.register()).wrapping_add(m.imm) & !1;
    let next = index_of(range, target)?;
    regs.put(m.rd, address(range, k as u32 + 1));
    Some(u64::from(next))
}

/// One step at the word with index `k` of the range, by its micro-op `m`: the index of the next one, which may be the one
/// behind the last. None, and nothing changed, where it is left to who executes instructions: a call, a break, an atomic
/// instruction, a fault, a store into the text of the memory, and what leads out of the range.
///
/// What is fetched stays.
// The index has 64 bits: one of 32 would be extended at each step.
#[inline(always)]
pub fn step(m: &MicroOp, range: &WordRange, k: u64, regs: &mut Regs, bus: &mut Bus) -> Option<u64>
    requires { k < 2 ^ 31 }
    ensures next { result ≡ (ran range.now m.now k regs.old bus.old).next }
    ensures regs { regs.new ≡ (ran range.now m.now k regs.old bus.old).regs }
    ensures bus { bus.new ≡ (ran range.now m.now k regs.old bus.old).bus }
    ensures unchanged { StaysWhereLeft result regs.old regs.new bus.old bus.new }
    ensures text { (a : ℕ) → fetched bus.new a ≡ fetched bus.old a }
{
    step_as(class_of_code(m.code), m, range, k, regs, bus)
}

/// The same for who has asked for the micro-op's class, and goes by it: both are compiled to one set of tests.
// Not cut into functions: one arm for each class, as in the definition. The fields are read one at a time, through the
// reference: a copy of the whole record costs five instructions more.
#[inline(always)]
pub fn step_as(
    class: Class,
    m: &MicroOp,
    range: &WordRange,
    k: u64,
    regs: &mut Regs,
    bus: &mut Bus,
) -> Option<u64>
    requires { k < 2 ^ 31 }
    ensures next { result ≡ (ran_as class range.now m.now k regs.old bus.old).next }
    ensures regs { regs.new ≡ (ran_as class range.now m.now k regs.old bus.old).regs }
    ensures bus { bus.new ≡ (ran_as class range.now m.now k regs.old bus.old).bus }
    ensures unchanged { StaysWhereLeft result regs.old regs.new bus.old bus.new }
    ensures text { (a : ℕ) → fetched bus.new a ≡ fetched bus.old a }
{
    macro_rules! operate {
        ($by:ident) => {{ operate(RegOp::$by, m, regs); Some(k + 1) }};
    }
    macro_rules! load {
        ($by:ident) => { if read(LoadOp::$by, m, regs, bus) { Some(k + 1) } else { None } };
    }
    macro_rules! store {
        ($size:literal) => { if write($size, m, regs, bus) { Some(k + 1) } else { None } };
    }
    macro_rules! branch {
        ($by:ident) => { Some(if goes(BranchOp::$by, m, regs) { u64::from(m.imm) } else { k + 1 }) };
    }
    match class {
        Class::Add => operate!(Add),
        Class::Sub => operate!(Sub),
        Class::And => operate!(And),
        Class::Or => operate!(Or),
        Class::Xor => operate!(Xor),
        Class::Sll => operate!(Sll),
        Class::Srl => operate!(Srl),
        Class::Sra => operate!(Sra),
        Class::Slt => operate!(Slt),
        Class::Sltu => operate!(Sltu),
        Class::Mul => operate!(Mul),
        Class::MulDiv => {
            multiply(m, regs);
            Some(k + 1)
        }
        Class::Lui => {
            regs.put(m.rd, m.imm);
            Some(k + 1)
        }
        Class::Lw => load!(Lw),
        Class::Lbu => load!(Lbu),
        Class::Lhu => load!(Lhu),
        Class::Lh => load!(Lh),
        Class::Lb => load!(Lb),
        Class::Sw => store!(4),
        Class::Sb => store!(1),
        Class::Sh => store!(2),
        Class::Equal => branch!(Beq),
        Class::Less => branch!(Blt),
        Class::Below => branch!(Bltu),
        Class::Jal => {
            regs.put(m.rd, address(range, k as u32 + 1));
            Some(u64::from(m.imm))
        }
        Class::Jalr => jump(range, m, k, regs),
        Class::Stop => None,
    }
}
