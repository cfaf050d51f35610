//! From an instruction of a text to the micro-op at its place in an image.
#![tactic(auto)]

ghost use Rattle.std.specs.Prelude.{◌≡◌, ◌==◌, ◌↔◌, IsTrue};
ghost use Rattle.swi_micro.specs.Classes.{code_of};
ghost use Rattle.swi_micro.specs.MicroOp.{branch_or_stop};
ghost use Rattle.swi_image_ops.specs.ImageOp.{fall_op, jump_or_stop, pair_op, text_op};

use crate::row::index_in_row;
use swi_image::ImageView;
use swi_isa::{BranchOp, Instr, Reg};
use swi_memory::WordRange;
use swi_micro::{Class, MicroOp, branch_to, micro_op, stop};

/// What stands for rs1 in the micro-op of an exit that is no step, and of a value that two words put into a register.
const MARK: u32 = 1;

/// An exit behind a block's last text word, which is no step, to the word with an index in the row.
pub(crate) fn fall(k: u32) -> MicroOp
    ensures { result ≡ fall_op k }
{
    let zero = Reg::of(0);
    MicroOp::of(Class::Jal, zero, Reg::of(MARK), zero, k)
}

/// A value that two words put into a register.
fn pair(rd: Reg, value: u32) -> MicroOp
    ensures { result ≡ pair_op rd value }
{
    let zero = Reg::of(0);
    MicroOp::of(Class::Lui, rd, Reg::of(MARK), zero, value)
}

/// A jump to the word with an index in the row, if one stands at its target, which keeps the return address in `rd`.
fn jump(rd: Reg, back: u32, to: Option<u32>) -> MicroOp
    ensures { result ≡ jump_or_stop rd back to }
{
    let Some(k) = to else {
        return stop();
    };
    let zero = Reg::of(0);
    if rd.num() == 0 {
        MicroOp::of(Class::Jal, zero, zero, zero, k)
    } else {
        MicroOp::of(Class::Jal, rd, zero, zero, back)
    }
}

/// A branch to the word with an index in the row, if one stands at its target.
fn branch(op: BranchOp, rs1: Reg, rs2: Reg, to: Option<u32>) -> MicroOp
    ensures { result ≡ branch_or_stop op rs1 rs2 to }
{
    match to {
        Some(k) => branch_to(op, rs1, rs2, k),
        None => stop(),
    }
}

/// The micro-op of the instruction at an address. That of a call, a break, an atomic instruction, and of a jump or branch
/// that leads out of the text, stops.
pub(crate) fn text_op(image: &ImageView<'_>, a: u32, instr: &Instr) -> MicroOp
    ensures { result ≡ text_op image.now a instr.now }
{
    match *instr {
        Instr::Auipc { rd, imm } => pair(rd, a.wrapping_add(imm)),
        Instr::Jal { rd, off } => jump(
            rd,
            a.wrapping_add(4),
            index_in_row(image, a.wrapping_add(off)),
        ),
        Instr::Branch { op, rs1, rs2, off } => {
            branch(op, rs1, rs2, index_in_row(image, a.wrapping_add(off)))
        }
        _ => micro_op(instr, &WordRange { from: 0, words: 0 }, 0),
    }
}

/// Whether a micro-op is that of an exit, and not of a jump that keeps its return address.
#[inline(always)]
pub fn is_exit(m: &MicroOp) -> bool
    ensures { IsTrue result ↔ (m.now.code ≡ code_of Class.Jal) × (m.now.rd ≡ 0) }
{
    m.is_jal() && m.writes_x0()
}

/// Whether an exit is no step; whether two words put a value into a register.
#[inline(always)]
pub fn is_marked(m: &MicroOp) -> bool
    ensures { result ≡ (m.now.rs1 == 1) }
{
    m.rs1().num() == MARK
}
