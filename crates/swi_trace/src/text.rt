//! An instruction as text, and the line of a step.
#![tactic(auto)]

ghost use Rattle.std.specs.Prelude.{◌≡◌, ℕ, ◌+◌, ◌≤◌, ◌++◌, codes, decimal, false, length};
ghost use Rattle.std.specs.Fmt.{digits};
ghost use Rattle.swi_isa.specs.declared.instr.Instr.TheVariants.{Atomic};
ghost use Rattle.swi_trace.specs.Mnemonics.{name, register_name};
ghost use Rattle.swi_trace.specs.Text.{number, upper, target, held_in, operands, listed, text_of_word, trace_line_of};

use crate::buffer::{LINE_ROOM, LineBuffer};
use crate::digits::hex_digit;
use crate::mnemonics::{push_name, push_register};
use swi_isa::{AtomicOp, Instr, Reg, decode};

/// The most bytes of an instruction as text.
pub const TEXT_ROOM: usize = 48;

/// The most bytes of its operands, with what stands before each.
const OPERANDS_ROOM: usize = 39;

/// Appends a number in hexadecimal, without leading zeros.
fn push_hex(line: &mut LineBuffer, number: u32)
    requires { length line.old + 8 ≤ LINE_ROOM }
    ensures bytes { line.new ≡ line.old ++ digits 16 false number }
    ensures size { length line.new ≤ length line.old + 8 }
{
    if number >= 16 {
        push_hex(line, number / 16);
    }
    line.push_byte(hex_digit((number % 16) as u8));
}

/// Appends a number in decimal digits.
pub(crate) fn push_decimal(line: &mut LineBuffer, number: u32)
    requires { length line.old + 10 ≤ LINE_ROOM }
    ensures bytes { line.new ≡ line.old ++ decimal number }
    ensures size { length line.new ≤ length line.old + 10 }
{
    if number >= 10 {
        push_decimal(line, number / 10);
    }
    line.push_byte(b'0' + (number % 10) as u8);
}

/// Appends 32 bits in two's complement as a decimal number, with a minus sign below 0.
fn push_number(line: &mut LineBuffer, imm: u32)
    requires { length line.old + 11 ≤ LINE_ROOM }
    ensures bytes { line.new ≡ line.old ++ number imm }
    ensures size { length line.new ≤ length line.old + 11 }
{
    let number = imm.cast_signed();
    if number < 0 {
        line.push_text("-");
    }
    push_decimal(line, number.unsigned_abs());
}

/// Appends the address that a register holds.
fn push_held(line: &mut LineBuffer, base: Reg)
    requires { length line.old + 6 ≤ LINE_ROOM }
    ensures bytes { line.new ≡ line.old ++ held_in base }
    ensures size { length line.new ≤ length line.old + 6 }
{
    line.push_text("(");
    push_register(line, base);
    line.push_text(")");
}

/// Appends the first operand, a register.
fn push_first(line: &mut LineBuffer, register: Reg)
    requires { length line.old + 5 ≤ LINE_ROOM }
    ensures bytes { line.new ≡ line.old ++ (codes " " ++ register_name register) }
    ensures size { length line.new ≤ length line.old + 5 }
{
    line.push_text(" ");
    push_register(line, register);
}

/// Appends a further operand, a register.
fn push_next(line: &mut LineBuffer, register: Reg)
    requires { length line.old + 6 ≤ LINE_ROOM }
    ensures bytes { line.new ≡ line.old ++ (codes ", " ++ register_name register) }
    ensures size { length line.new ≤ length line.old + 6 }
{
    line.push_text(", ");
    push_register(line, register);
}

/// Appends a further operand, a number.
fn push_immediate(line: &mut LineBuffer, imm: u32)
    requires { length line.old + 13 ≤ LINE_ROOM }
    ensures bytes { line.new ≡ line.old ++ (codes ", " ++ number imm) }
    ensures size { length line.new ≤ length line.old + 13 }
{
    line.push_text(", ");
    push_number(line, imm);
}

/// Appends a further operand, an upper immediate.
fn push_upper(line: &mut LineBuffer, imm: u32)
    requires { length line.old + 12 ≤ LINE_ROOM }
    ensures bytes { line.new ≡ line.old ++ (codes ", " ++ upper imm) }
    ensures size { length line.new ≤ length line.old + 12 }
{
    line.push_text(", 0x");
    push_hex(line, imm >> 12);
}

/// Appends a further operand, the address at an offset from the instruction's.
fn push_target(line: &mut LineBuffer, a: u32, off: u32)
    requires { length line.old + 10 ≤ LINE_ROOM }
    ensures bytes { line.new ≡ line.old ++ (codes ", " ++ target a off) }
    ensures size { length line.new ≤ length line.old + 10 }
{
    line.push_text(", ");
    line.push_hex_word(a.wrapping_add(off));
}

/// Appends a further operand, the address at an offset from the one that a register holds.
fn push_place(line: &mut LineBuffer, imm: u32, base: Reg)
    requires { length line.old + 19 ≤ LINE_ROOM }
    ensures bytes { line.new ≡ line.old ++ (codes ", " ++ (number imm ++ held_in base)) }
    ensures size { length line.new ≤ length line.old + 19 }
{
    push_immediate(line, imm);
    push_held(line, base);
}

/// Appends the operands of an instruction at the address `a`, with what stands before each.
fn push_operands(line: &mut LineBuffer, instr: &Instr, a: u32)
    requires { length line.old + OPERANDS_ROOM ≤ LINE_ROOM }
    ensures bytes { line.new ≡ line.old ++ listed (operands instr.now a) }
    ensures size { length line.new ≤ length line.old + OPERANDS_ROOM }
{
    match *instr {
        Instr::Lui { rd, imm } | Instr::Auipc { rd, imm } => {
            push_first(line, rd);
            push_upper(line, imm);
        }
        Instr::Jal { rd, off } => {
            push_first(line, rd);
            push_target(line, a, off);
        }
        Instr::Jalr { rd, rs1, imm } | Instr::Load { rd, rs1, imm, .. } => {
            push_first(line, rd);
            push_place(line, imm, rs1);
        }
        Instr::Store { rs1, rs2, imm, .. } => {
            push_first(line, rs2);
            push_place(line, imm, rs1);
        }
        Instr::Branch { rs1, rs2, off, .. } => {
            push_first(line, rs1);
            push_next(line, rs2);
            push_target(line, a, off);
        }
        Instr::Alu { rd, rs1, imm, .. } => {
            push_first(line, rd);
            push_next(line, rs1);
            push_immediate(line, imm);
        }
        Instr::Op { rd, rs1, rs2, .. } => {
            push_first(line, rd);
            push_next(line, rs1);
            push_next(line, rs2);
        }
        Instr::Atomic { op, rd, rs1, rs2 } => push_atomic(line, op, rd, rs1, rs2),
        Instr::Fence | Instr::Ecall | Instr::Ebreak => {}
    }
}

/// Appends the operands of an atomic operation: LR.W has no second register.
fn push_atomic(line: &mut LineBuffer, op: AtomicOp, rd: Reg, rs1: Reg, rs2: Reg)
    requires { length line.old + OPERANDS_ROOM ≤ LINE_ROOM }
    ensures bytes { (a : ℕ) → line.new ≡ line.old ++ listed (operands (Atomic op rd rs1 rs2) a) }
    ensures size { length line.new ≤ length line.old + OPERANDS_ROOM }
{
    push_first(line, rd);
    match op {
        AtomicOp::LrW => {}
        _ => push_next(line, rs2),
    }
    line.push_text(", ");
    push_held(line, rs1);
}

/// Appends the text of an instruction at the address `a`.
fn push_instr(line: &mut LineBuffer, instr: &Instr, a: u32)
    requires { length line.old + TEXT_ROOM ≤ LINE_ROOM }
    ensures bytes { line.new ≡ line.old ++ (name instr.now ++ listed (operands instr.now a)) }
    ensures size { length line.new ≤ length line.old + TEXT_ROOM }
{
    push_name(line, instr);
    push_operands(line, instr, a);
}

/// Appends the text of the word `w` at the address `a`, at most 48 bytes, for which there must be room.
#[tactic(auto, unfolding(crate::specs::Text::text_of_word))]
pub fn push_text_of(line: &mut LineBuffer, w: u32, a: u32)
    requires { length line.old + TEXT_ROOM ≤ LINE_ROOM }
    ensures bytes { line.new ≡ line.old ++ text_of_word w a }
    ensures size { length line.new ≤ length line.old + TEXT_ROOM }
{
    match decode(w) {
        None => line.push_text(".word"),
        Some(instr) => push_instr(line, &instr, a),
    }
}

/// The text of the word `w` at the address `a`: the name of the instruction that it is, and its operands; `.word`
/// where it is none. There is no newline, and there are at most 48 bytes.
///
/// | Instructions | Text |
/// |---|---|
/// | LUI, AUIPC | `lui t0, 0x10`: the upper 20 bits in hexadecimal |
/// | JAL, branches | `bne t0, zero, 00010004`: the target's address, modulo 2^32 |
/// | JALR, loads, stores | `sw ra, 12(sp)`: the register first that is written or stored |
/// | others with an immediate | `addi a7, zero, -93`, a shift's from 0 to 31 |
/// | others with two registers | `mul a0, a1, a2` |
/// | atomic ones | `amoadd.w a0, a2, (sp)`, `lr.w a0, (sp)`, whatever aq and rl are |
/// | FENCE, ECALL, EBREAK | `fence` |
///
/// Source: the names of instructions and registers, RISC-V unprivileged specification ("RV32/64G Instruction Set
/// Listings", "RISC-V Assembly Programmer's Handbook"); the forms are this project's.
pub fn text_of(w: u32, a: u32) -> LineBuffer
    ensures bytes { result ≡ text_of_word w a }
    ensures short { length result ≤ TEXT_ROOM }
{
    let mut line = LineBuffer::new();
    push_text_of(&mut line, w, a);
    line
}

/// The line of a step at the address `a`, with its newline: the address, the text word `w` that stands there, and
/// its text. Where no text word stands at the address, `w` is None.
///
/// ```text
/// 00010008 00000073 ecall
/// 00020000 -------- outside
/// ```
///
/// It is inlined where it is called, since a line that is given back by a call is copied twice.
#[inline(always)]
pub fn trace_line(a: u32, w: Option<u32>) -> LineBuffer
    ensures { result ≡ trace_line_of a w }
{
    let mut line = LineBuffer::new();
    line.push_hex_word(a);
    match w {
        Some(w) => {
            line.push_text(" ");
            line.push_hex_word(w);
            line.push_text(" ");
            push_text_of(&mut line, w, a);
            line.push_text("\n");
        }
        None => line.push_text(" -------- outside\n"),
    }
    line
}
