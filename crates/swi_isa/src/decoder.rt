//! From a word to its instruction.
#![tactic(auto)]

ghost use Rattle.std.specs.Prelude.{◌≡◌, ◌↔◌, ◌%◌, ℕ, IsTrue, IsSome, Some, length, if◌then◌else◌};
ghost use Rattle.swi_isa.specs.declared.instr.BranchOp.{BranchOp as Condition};
ghost use Rattle.swi_isa.specs.declared.instr.Instr.TheVariants.{Branch, Ebreak, Jal, Jalr};
ghost use Rattle.swi_isa.specs.Decode.{decoded};
ghost use Rattle.swi_isa.specs.Table.{matching};

use crate::fields::{b_value, i_value, j_value, rd, rs1, rs2, s_value, u_value};
use crate::instr::{AtomicOp, BranchOp, ImmOp, Instr, LoadOp, RegOp, StoreOp};
use swi_field::bits;

/// The RV32IMA instruction that the word `w` is; None where it is illegal, that is where it is none of the
/// 59 instructions of the RISC-V unprivileged specification's listings for RV32I, M and A.
#[inline(always)]
#[tactic(auto, using(crate::proofs::Apart::by_groups))]
pub fn decode(w: u32) -> Option<Instr>
    ensures { result ≡ decoded w }
{
    macro_rules! upper {
        ($variant:ident) => { Some(Instr::$variant { rd: rd(w), imm: u_value(w) }) };
    }
    macro_rules! jal {
        () => { Some(Instr::Jal { rd: rd(w), off: j_value(w) }) };
    }
    macro_rules! jalr {
        () => { Some(Instr::Jalr { rd: rd(w), rs1: rs1(w), imm: i_value(w) }) };
    }
    macro_rules! branch {
        ($op:ident) => { Some(Instr::Branch { op: BranchOp::$op, rs1: rs1(w), rs2: rs2(w), off: b_value(w) }) };
    }
    macro_rules! load {
        ($op:ident) => { Some(Instr::Load { op: LoadOp::$op, rd: rd(w), rs1: rs1(w), imm: i_value(w) }) };
    }
    macro_rules! store {
        ($op:ident) => { Some(Instr::Store { op: StoreOp::$op, rs1: rs1(w), rs2: rs2(w), imm: s_value(w) }) };
    }
    macro_rules! alu {
        ($op:ident) => { Some(Instr::Alu { op: ImmOp::$op, rd: rd(w), rs1: rs1(w), imm: i_value(w) }) };
    }
    macro_rules! shift {
        ($op:ident) => { Some(Instr::Alu { op: ImmOp::$op, rd: rd(w), rs1: rs1(w), imm: bits::<24, 20>(w) }) };
    }
    macro_rules! op {
        ($op:ident) => { Some(Instr::Op { op: RegOp::$op, rd: rd(w), rs1: rs1(w), rs2: rs2(w) }) };
    }
    macro_rules! atomic {
        ($op:ident) => { Some(Instr::Atomic { op: AtomicOp::$op, rd: rd(w), rs1: rs1(w), rs2: rs2(w) }) };
    }
    // Three bits of the opcode part the table's rows into five groups, so that few tests are made of a word. Within
    // a group the rows stand in the order in which programs execute them, since a test that comes early costs less:
    // no word matches two rows, so the order changes nothing else. Rows of another mask or group stand between those
    // of loads, branches and operations on immediates: of four tests in a row, a step apart, the compiler makes a
    // jump through a table, which on many machines costs more than they do.
    macro_rules! row {
        ($mask:literal, $value:literal, $instr:expr) => {
            if w & $mask == $value {
                return $instr;
            }
        };
    }
    if w & 0x10 != 0 {
        if w & 0x20 == 0 {
            // operations on immediates
            row!(0x0000_707F, 0x0000_0013, alu!(Addi));
            row!(0x0000_707F, 0x0000_7013, alu!(Andi));
            row!(0xFE00_707F, 0x0000_1013, shift!(Slli));
            row!(0xFE00_707F, 0x0000_5013, shift!(Srli));
            row!(0x0000_707F, 0x0000_4013, alu!(Xori));
            row!(0xFE00_707F, 0x4000_5013, shift!(Srai));
            row!(0x0000_707F, 0x0000_3013, alu!(Sltiu));
            row!(0x0000_707F, 0x0000_6013, alu!(Ori));
            row!(0x0000_707F, 0x0000_2013, alu!(Slti));
            row!(0x0000_007F, 0x0000_0017, upper!(Auipc));
            return None;
        }
        // operations on registers
        row!(0xFE00_707F, 0x0000_0033, op!(Add));
        row!(0xFE00_707F, 0x4000_0033, op!(Sub));
        row!(0x0000_007F, 0x0000_0037, upper!(Lui));
        // in cached code each exit that isn't a jump
        row!(0xFFFF_FFFF, 0x0010_0073, Some(Instr::Ebreak));
        row!(0xFE00_707F, 0x0000_4033, op!(Xor));
        row!(0xFE00_707F, 0x0000_7033, op!(And));
        row!(0xFE00_707F, 0x0000_6033, op!(Or));
        row!(0xFE00_707F, 0x0000_3033, op!(Sltu));
        row!(0xFE00_707F, 0x0200_0033, op!(Mul));
        row!(0xFE00_707F, 0x0000_1033, op!(Sll));
        row!(0xFE00_707F, 0x0000_5033, op!(Srl));
        row!(0xFE00_707F, 0x4000_5033, op!(Sra));
        row!(0xFE00_707F, 0x0000_2033, op!(Slt));
        row!(0xFE00_707F, 0x0200_1033, op!(Mulh));
        row!(0xFE00_707F, 0x0200_2033, op!(Mulhsu));
        row!(0xFE00_707F, 0x0200_3033, op!(Mulhu));
        row!(0xFE00_707F, 0x0200_4033, op!(Div));
        row!(0xFE00_707F, 0x0200_5033, op!(Divu));
        row!(0xFE00_707F, 0x0200_6033, op!(Rem));
        row!(0xFE00_707F, 0x0200_7033, op!(Remu));
        row!(0xFFFF_FFFF, 0x0000_0073, Some(Instr::Ecall));
        return None;
    }
    if w & 0x40 == 0 {
        if w & 0x20 == 0 {
            // loads
            row!(0x0000_707F, 0x0000_2003, load!(Lw));
            row!(0x0000_707F, 0x0000_4003, load!(Lbu));
            row!(0x0000_707F, 0x0000_5003, load!(Lhu));
            row!(0x0000_707F, 0x0000_000F, Some(Instr::Fence));
            row!(0x0000_707F, 0x0000_1003, load!(Lh));
            row!(0x0000_707F, 0x0000_0003, load!(Lb));
            return None;
        }
        // stores and atomic operations
        row!(0x0000_707F, 0x0000_2023, store!(Sw));
        row!(0x0000_707F, 0x0000_0023, store!(Sb));
        row!(0x0000_707F, 0x0000_1023, store!(Sh));
        row!(0xF9F0_707F, 0x1000_202F, atomic!(LrW));
        row!(0xF800_707F, 0x1800_202F, atomic!(ScW));
        row!(0xF800_707F, 0x0800_202F, atomic!(SwapW));
        row!(0xF800_707F, 0x0000_202F, atomic!(AddW));
        row!(0xF800_707F, 0x2000_202F, atomic!(XorW));
        row!(0xF800_707F, 0x6000_202F, atomic!(AndW));
        row!(0xF800_707F, 0x4000_202F, atomic!(OrW));
        row!(0xF800_707F, 0x8000_202F, atomic!(MinW));
        row!(0xF800_707F, 0xA000_202F, atomic!(MaxW));
        row!(0xF800_707F, 0xC000_202F, atomic!(MinuW));
        row!(0xF800_707F, 0xE000_202F, atomic!(MaxuW));
        return None;
    }
    // branches and jumps
    row!(0x0000_707F, 0x0000_1063, branch!(Bne));
    row!(0x0000_707F, 0x0000_0063, branch!(Beq));
    row!(0x0000_007F, 0x0000_006F, jal!());
    row!(0x0000_707F, 0x0000_4063, branch!(Blt));
    row!(0x0000_707F, 0x0000_6063, branch!(Bltu));
    row!(0x0000_707F, 0x0000_0067, jalr!());
    row!(0x0000_707F, 0x0000_5063, branch!(Bge));
    row!(0x0000_707F, 0x0000_7063, branch!(Bgeu));
    None
}

/// Whether the word `w` is an RV32IMA instruction. A legal word matches one row of the instruction table and
/// an illegal one none, so that a word never has two meanings. Of each word: where it is a JAL or a branch, its
/// offset is even; where it is a JALR, its two low bits are 11; and it is EBREAK where it is 0x00100073 and
/// nowhere else.
#[tactic(auto, using(crate::proofs::Apart::word_laws))]
pub fn is_legal(w: u32) -> bool
    ensures legal { IsTrue result ↔ IsSome (decoded w) }
    ensures one_row { length (matching w) ≡ (if result then 1 else 0) }
    ensures jal_even { (rd off : ℕ) → decoded w ≡ Some (Jal rd off) → off % 2 ≡ 0 }
    ensures branch_even { (op : Condition) → (rs1 rs2 off : ℕ) →
        decoded w ≡ Some (Branch op rs1 rs2 off) → off % 2 ≡ 0 }
    ensures jalr_low { (rd rs1 imm : ℕ) → decoded w ≡ Some (Jalr rd rs1 imm) → w % 4 ≡ 3 }
    ensures ebreak { decoded w ≡ Some Ebreak ↔ w ≡ 0x00100073 }
{
    decode(w).is_some()
}
