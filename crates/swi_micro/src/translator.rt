//! From an instruction to its micro-op.
#![tactic(auto)]

ghost use Rattle.std.specs.Prelude.{◌≡◌, ◌==◌, ◌↔◌, IsTrue};
ghost use Rattle.swi_micro.specs.Classes.{class_of, code_of};
ghost use Rattle.swi_micro.specs.MicroOp.{address_at, branch_op, class_of_imm, class_of_load, class_of_op, class_of_store, index_at, made_op, micro_op_of, number_of, stop_op};

use crate::class::{Class, class_of_code, code};
use crate::source::Source;
use swi_exec::Slot;
use swi_isa::{BranchOp, ImmOp, Instr, LoadOp, Reg, RegOp, StoreOp};
use swi_memory::WordRange;

/// The code of a JAL's class.
const JAL: u8 = 0b0_1101;

/// All that a step at a word of a range takes, in eight bytes: the class, the registers, and the immediate, already
/// extended. The immediate of a jump or a branch is the index of its target.
#[derive(Clone, Copy)]
pub struct MicroOp {
    /// The code of the class.
    pub(crate) code: u8,
    /// Where rd is written. For a branch: that of x0 where it is taken at a comparison that holds, else that of x1.
    pub(crate) rd: Slot,
    pub(crate) rs1: Source,
    pub(crate) rs2: Source,
    pub(crate) imm: u32,
}

impl MicroOp {
    /// That of a class, with these fields.
    pub fn of(class: Class, rd: Reg, rs1: Reg, rs2: Reg, imm: u32) -> MicroOp
        ensures { result ≡ made_op class rd rs1 rs2 imm }
    {
        made(class, rd, rs1, rs2, imm)
    }

    /// Whether its code is that of a JAL: fewer tests than its class asks for.
    #[inline(always)]
    pub fn is_jal(&self) -> bool
        ensures { IsTrue result ↔ self.now.code ≡ code_of Class.Jal }
    {
        self.code == JAL
    }

    /// Whether its rd is x0.
    #[inline(always)]
    pub fn writes_x0(&self) -> bool
        ensures { result ≡ (self.now.rd == 0) }
    {
        self.rd.is_of_x0()
    }

    /// Where rd is written.
    #[inline(always)]
    pub fn rd(&self) -> Slot
        ensures { result ≡ self.now.rd }
    {
        self.rd
    }

    /// The register that rs1 is.
    #[inline(always)]
    pub fn rs1(&self) -> Reg
        ensures { result ≡ self.now.rs1 }
    {
        self.rs1.register()
    }

    /// Its class.
    #[inline(always)]
    pub fn class(&self) -> Class
        ensures { result ≡ class_of self.now.code }
    {
        class_of_code(self.code)
    }

    /// The index to which a jump or a branch leads.
    #[inline(always)]
    pub fn target(&self) -> u32
        ensures { result ≡ self.now.imm }
    {
        self.imm
    }

    /// Whether it stops.
    #[inline(always)]
    pub fn stops(&self) -> bool
        ensures { IsTrue result ↔ class_of self.now.code ≡ Class.Stop }
    {
        matches!(class_of_code(self.code), Class::Stop)
    }
}

/// A micro-op of the class.
fn made(class: Class, rd: Reg, rs1: Reg, rs2: Reg, imm: u32) -> MicroOp
    ensures { result ≡ made_op class rd rs1 rs2 imm }
{
    MicroOp {
        code: code(class),
        rd: Slot::of(rd),
        rs1: Source::of(rs1),
        rs2: Source::of(rs2),
        imm,
    }
}

/// The micro-op that leaves its word to who executes instructions.
pub fn stop() -> MicroOp
    ensures { result ≡ stop_op }
{
    made(Class::Stop, Reg::of(0), Reg::of(0), Reg::of(0), 0)
}

/// The address of the word with this index, or the one behind the last.
#[inline(always)]
pub fn address(range: &WordRange, k: u32) -> u32
    ensures { result ≡ address_at range.now k }
{
    range.from.wrapping_add(k.wrapping_mul(4))
}

/// The index of the word at the address. None where none of the range stands there.
#[inline(always)]
pub fn index_of(range: &WordRange, a: u32) -> Option<u32>
    ensures { result ≡ index_at range.now a }
{
    let distance = a.wrapping_sub(range.from);
    if distance % 4 != 0 || distance / 4 >= range.words {
        return None;
    }
    Some(distance / 4)
}

fn class_of_immediate(op: ImmOp) -> Class
    ensures { result ≡ class_of_imm op }
{
    match op {
        ImmOp::Addi => Class::Add,
        ImmOp::Slti => Class::Slt,
        ImmOp::Sltiu => Class::Sltu,
        ImmOp::Xori => Class::Xor,
        ImmOp::Ori => Class::Or,
        ImmOp::Andi => Class::And,
        ImmOp::Slli => Class::Sll,
        ImmOp::Srli => Class::Srl,
        ImmOp::Srai => Class::Sra,
    }
}

fn class_of_operation(op: RegOp) -> Class
    ensures { result ≡ class_of_op op }
{
    match op {
        RegOp::Add => Class::Add,
        RegOp::Sub => Class::Sub,
        RegOp::Sll => Class::Sll,
        RegOp::Slt => Class::Slt,
        RegOp::Sltu => Class::Sltu,
        RegOp::Xor => Class::Xor,
        RegOp::Srl => Class::Srl,
        RegOp::Sra => Class::Sra,
        RegOp::Or => Class::Or,
        RegOp::And => Class::And,
        RegOp::Mul => Class::Mul,
        RegOp::Mulh
        | RegOp::Mulhsu
        | RegOp::Mulhu
        | RegOp::Div
        | RegOp::Divu
        | RegOp::Rem
        | RegOp::Remu => Class::MulDiv,
    }
}

/// The funct3 of an operation of the class MulDiv, else 0.
fn number(op: RegOp) -> u32
    ensures { result ≡ number_of op }
{
    match op {
        RegOp::Mulh => 1,
        RegOp::Mulhsu => 2,
        RegOp::Mulhu => 3,
        RegOp::Div => 4,
        RegOp::Divu => 5,
        RegOp::Rem => 6,
        RegOp::Remu => 7,
        _ => 0,
    }
}

fn class_of_reading(op: LoadOp) -> Class
    ensures { result ≡ class_of_load op }
{
    match op {
        LoadOp::Lb => Class::Lb,
        LoadOp::Lh => Class::Lh,
        LoadOp::Lw => Class::Lw,
        LoadOp::Lbu => Class::Lbu,
        LoadOp::Lhu => Class::Lhu,
    }
}

fn class_of_writing(op: StoreOp) -> Class
    ensures { result ≡ class_of_store op }
{
    match op {
        StoreOp::Sb => Class::Sb,
        StoreOp::Sh => Class::Sh,
        StoreOp::Sw => Class::Sw,
    }
}

/// A branch to the word with this index.
pub fn branch_to(op: BranchOp, rs1: Reg, rs2: Reg, k: u32) -> MicroOp
    ensures { result ≡ branch_op op rs1 rs2 k }
{
    let (class, turned) = match op {
        BranchOp::Beq => (Class::Equal, 0),
        BranchOp::Bne => (Class::Equal, 1),
        BranchOp::Blt => (Class::Less, 0),
        BranchOp::Bge => (Class::Less, 1),
        BranchOp::Bltu => (Class::Below, 0),
        BranchOp::Bgeu => (Class::Below, 1),
    };
    made(class, Reg::of(turned), rs1, rs2, k)
}

/// The micro-op of an instruction that is the word with index `k` of the range. That of a call, a break, an atomic
/// instruction, and of a jump or branch that leads out of the range, stops.
pub fn micro_op(instr: &Instr, range: &WordRange, k: u32) -> MicroOp
    ensures { result ≡ micro_op_of range.now k instr.now }
{
    let pc = address(range, k);
    let zero = Reg::of(0);
    match *instr {
        Instr::Lui { rd, imm } => made(Class::Lui, rd, zero, zero, imm),
        Instr::Auipc { rd, imm } => made(Class::Add, rd, zero, zero, pc.wrapping_add(imm)),
        Instr::Jal { rd, off } => match index_of(range, pc.wrapping_add(off)) {
            Some(target) => made(Class::Jal, rd, zero, zero, target),
            None => stop(),
        },
        Instr::Jalr { rd, rs1, imm } => made(Class::Jalr, rd, rs1, zero, imm),
        Instr::Branch { op, rs1, rs2, off } => match index_of(range, pc.wrapping_add(off)) {
            Some(target) => branch_to(op, rs1, rs2, target),
            None => stop(),
        },
        Instr::Load { op, rd, rs1, imm } => made(class_of_reading(op), rd, rs1, zero, imm),
        Instr::Store { op, rs1, rs2, imm } => made(class_of_writing(op), zero, rs1, rs2, imm),
        Instr::Alu { op, rd, rs1, imm } => made(class_of_immediate(op), rd, rs1, zero, imm),
        Instr::Op { op, rd, rs1, rs2 } => { made(class_of_operation(op), rd, rs1, rs2, number(op)) }
        Instr::Fence => made(Class::Add, zero, zero, zero, 0),
        Instr::Atomic { .. } | Instr::Ecall | Instr::Ebreak => stop(),
    }
}
