//! The names of instructions and registers.
#![tactic(auto)]

ghost use Rattle.std.specs.Prelude.{◌≡◌, ◌+◌, ◌≤◌, ◌++◌, ℕ, length, take};
ghost use Rattle.std.specs.Int.{w32, to_le_bytes};
ghost use Rattle.swi_isa.specs.declared.instr.Instr.TheVariants.{Branch, Load, Store, Alu, Op, Atomic};
ghost use Rattle.swi_trace.specs.Mnemonics.{name, register_name};

use crate::buffer::{LINE_ROOM, LineBuffer};
use swi_isa::{AtomicOp, BranchOp, ImmOp, Instr, LoadOp, Reg, RegOp, StoreOp};

/// The most bytes of an instruction's name.
pub const NAME_ROOM: usize = 9;

/// The name of a register, filled up to four bytes, as a number of which the first byte is the lowest, and its length. So
/// it is found in a table.
#[inline(always)]
fn register_text(register: Reg) -> (u32, usize)
    ensures name { take result.1 (to_le_bytes w32 result.0) ≡ register_name register }
    ensures short { result.1 ≤ 4 }
{
    macro_rules! name {
        ($bytes:literal, $count:literal) => { (u32::from_le_bytes(*$bytes), $count) };
    }
    match register.num() {
        0 => name!(b"zero", 4),
        1 => name!(b"ra  ", 2),
        2 => name!(b"sp  ", 2),
        3 => name!(b"gp  ", 2),
        4 => name!(b"tp  ", 2),
        5 => name!(b"t0  ", 2),
        6 => name!(b"t1  ", 2),
        7 => name!(b"t2  ", 2),
        8 => name!(b"s0  ", 2),
        9 => name!(b"s1  ", 2),
        10 => name!(b"a0  ", 2),
        11 => name!(b"a1  ", 2),
        12 => name!(b"a2  ", 2),
        13 => name!(b"a3  ", 2),
        14 => name!(b"a4  ", 2),
        15 => name!(b"a5  ", 2),
        16 => name!(b"a6  ", 2),
        17 => name!(b"a7  ", 2),
        18 => name!(b"s2  ", 2),
        19 => name!(b"s3  ", 2),
        20 => name!(b"s4  ", 2),
        21 => name!(b"s5  ", 2),
        22 => name!(b"s6  ", 2),
        23 => name!(b"s7  ", 2),
        24 => name!(b"s8  ", 2),
        25 => name!(b"s9  ", 2),
        26 => name!(b"s10 ", 3),
        27 => name!(b"s11 ", 3),
        28 => name!(b"t3  ", 2),
        29 => name!(b"t4  ", 2),
        30 => name!(b"t5  ", 2),
        _ => name!(b"t6  ", 2),
    }
}

/// Appends the name of a register.
#[inline(always)]
pub(crate) fn push_register(line: &mut LineBuffer, register: Reg)
    requires { length line.old + 4 ≤ LINE_ROOM }
    ensures bytes { line.new ≡ line.old ++ register_name register }
    ensures size { length line.new ≤ length line.old + 4 }
{
    let (bytes, count) = register_text(register);
    line.push_front(bytes, count);
}

fn push_branch(line: &mut LineBuffer, op: BranchOp)
    requires { length line.old + NAME_ROOM ≤ LINE_ROOM }
    ensures bytes { (rs1 rs2 off : ℕ) → line.new ≡ line.old ++ name (Branch op rs1 rs2 off) }
    ensures size { length line.new ≤ length line.old + NAME_ROOM }
{
    match op {
        BranchOp::Beq => line.push_text("beq"),
        BranchOp::Bne => line.push_text("bne"),
        BranchOp::Blt => line.push_text("blt"),
        BranchOp::Bge => line.push_text("bge"),
        BranchOp::Bltu => line.push_text("bltu"),
        BranchOp::Bgeu => line.push_text("bgeu"),
    }
}

fn push_load(line: &mut LineBuffer, op: LoadOp)
    requires { length line.old + NAME_ROOM ≤ LINE_ROOM }
    ensures bytes { (rd rs1 imm : ℕ) → line.new ≡ line.old ++ name (Load op rd rs1 imm) }
    ensures size { length line.new ≤ length line.old + NAME_ROOM }
{
    match op {
        LoadOp::Lb => line.push_text("lb"),
        LoadOp::Lh => line.push_text("lh"),
        LoadOp::Lw => line.push_text("lw"),
        LoadOp::Lbu => line.push_text("lbu"),
        LoadOp::Lhu => line.push_text("lhu"),
    }
}

fn push_store(line: &mut LineBuffer, op: StoreOp)
    requires { length line.old + NAME_ROOM ≤ LINE_ROOM }
    ensures bytes { (rs1 rs2 imm : ℕ) → line.new ≡ line.old ++ name (Store op rs1 rs2 imm) }
    ensures size { length line.new ≤ length line.old + NAME_ROOM }
{
    match op {
        StoreOp::Sb => line.push_text("sb"),
        StoreOp::Sh => line.push_text("sh"),
        StoreOp::Sw => line.push_text("sw"),
    }
}

fn push_immediate_name(line: &mut LineBuffer, op: ImmOp)
    requires { length line.old + NAME_ROOM ≤ LINE_ROOM }
    ensures bytes { (rd rs1 imm : ℕ) → line.new ≡ line.old ++ name (Alu op rd rs1 imm) }
    ensures size { length line.new ≤ length line.old + NAME_ROOM }
{
    match op {
        ImmOp::Addi => line.push_text("addi"),
        ImmOp::Slti => line.push_text("slti"),
        ImmOp::Sltiu => line.push_text("sltiu"),
        ImmOp::Xori => line.push_text("xori"),
        ImmOp::Ori => line.push_text("ori"),
        ImmOp::Andi => line.push_text("andi"),
        ImmOp::Slli => line.push_text("slli"),
        ImmOp::Srli => line.push_text("srli"),
        ImmOp::Srai => line.push_text("srai"),
    }
}

fn push_operation(line: &mut LineBuffer, op: RegOp)
    requires { length line.old + NAME_ROOM ≤ LINE_ROOM }
    ensures bytes { (rd rs1 rs2 : ℕ) → line.new ≡ line.old ++ name (Op op rd rs1 rs2) }
    ensures size { length line.new ≤ length line.old + NAME_ROOM }
{
    match op {
        RegOp::Add => line.push_text("add"),
        RegOp::Sub => line.push_text("sub"),
        RegOp::Sll => line.push_text("sll"),
        RegOp::Slt => line.push_text("slt"),
        RegOp::Sltu => line.push_text("sltu"),
        RegOp::Xor => line.push_text("xor"),
        RegOp::Srl => line.push_text("srl"),
        RegOp::Sra => line.push_text("sra"),
        RegOp::Or => line.push_text("or"),
        RegOp::And => line.push_text("and"),
        RegOp::Mul => line.push_text("mul"),
        RegOp::Mulh => line.push_text("mulh"),
        RegOp::Mulhsu => line.push_text("mulhsu"),
        RegOp::Mulhu => line.push_text("mulhu"),
        RegOp::Div => line.push_text("div"),
        RegOp::Divu => line.push_text("divu"),
        RegOp::Rem => line.push_text("rem"),
        RegOp::Remu => line.push_text("remu"),
    }
}

fn push_atomic_name(line: &mut LineBuffer, op: AtomicOp)
    requires { length line.old + NAME_ROOM ≤ LINE_ROOM }
    ensures bytes { (rd rs1 rs2 : ℕ) → line.new ≡ line.old ++ name (Atomic op rd rs1 rs2) }
    ensures size { length line.new ≤ length line.old + NAME_ROOM }
{
    match op {
        AtomicOp::LrW => line.push_text("lr.w"),
        AtomicOp::ScW => line.push_text("sc.w"),
        AtomicOp::SwapW => line.push_text("amoswap.w"),
        AtomicOp::AddW => line.push_text("amoadd.w"),
        AtomicOp::XorW => line.push_text("amoxor.w"),
        AtomicOp::AndW => line.push_text("amoand.w"),
        AtomicOp::OrW => line.push_text("amoor.w"),
        AtomicOp::MinW => line.push_text("amomin.w"),
        AtomicOp::MaxW => line.push_text("amomax.w"),
        AtomicOp::MinuW => line.push_text("amominu.w"),
        AtomicOp::MaxuW => line.push_text("amomaxu.w"),
    }
}

/// Appends the name of an instruction.
pub(crate) fn push_name(line: &mut LineBuffer, instr: &Instr)
    requires { length line.old + NAME_ROOM ≤ LINE_ROOM }
    ensures bytes { line.new ≡ line.old ++ name instr.now }
    ensures size { length line.new ≤ length line.old + NAME_ROOM }
{
    match *instr {
        Instr::Lui { .. } => line.push_text("lui"),
        Instr::Auipc { .. } => line.push_text("auipc"),
        Instr::Jal { .. } => line.push_text("jal"),
        Instr::Jalr { .. } => line.push_text("jalr"),
        Instr::Branch { op, .. } => push_branch(line, op),
        Instr::Load { op, .. } => push_load(line, op),
        Instr::Store { op, .. } => push_store(line, op),
        Instr::Alu { op, .. } => push_immediate_name(line, op),
        Instr::Op { op, .. } => push_operation(line, op),
        Instr::Atomic { op, .. } => push_atomic_name(line, op),
        Instr::Fence => line.push_text("fence"),
        Instr::Ecall => line.push_text("ecall"),
        Instr::Ebreak => line.push_text("ebreak"),
    }
}
