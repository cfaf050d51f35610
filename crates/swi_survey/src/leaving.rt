//! How a step leaves its text word.
#![tactic(auto)]

ghost use Rattle.std.specs.Prelude.{◌≡◌, Some};
ghost use Rattle.swi_isa.specs.Decode.{decoded};
ghost use Rattle.swi_survey.specs.Leaving.{branch_by, jal_words, leaving_by, untaken_by};

use swi_exec::{Regs, takes};
use swi_isa::{Instr, decode};

/// Where control goes behind an instruction that goes on.
#[derive(Clone, Copy, Debug, PartialEq, Eq)]
pub enum Way {
    /// To the next text word.
    Next,
    /// Over the exit of a JAL or of a branch that is taken.
    Over,
    /// By a JALR, or nowhere: an EBREAK, and a word that is no instruction, end the run.
    Away,
}

/// How many words of its rendering a step executes, and where it goes.
#[derive(Clone, Copy, Debug, PartialEq, Eq)]
pub struct Leaving {
    /// 1 to 3.
    pub words: u32,
    pub way: Way,
}

/// A word that is no instruction ends the run.
pub(crate) const ILLEGAL: Leaving = Leaving {
    words: 1,
    way: Way::Away,
};

/// The words of a JAL from `a` by `off` to register `rd` that are executed: its return address is loaded by two.
fn jal_words(rd: u32, a: u32, off: u32) -> u32
    ensures { result ≡ jal_words rd a off }
{
    if a.wrapping_add(off) % 4 != 0 || rd == 0 {
        1
    } else {
        3
    }
}

/// A branch that is taken goes over its exit.
pub(crate) const TAKEN: Leaving = Leaving {
    words: 2,
    way: Way::Over,
};

/// How a branch leaves its text word: over its exit where it is taken.
fn branch_leaving(taken: bool) -> Leaving
    ensures { result ≡ branch_by taken }
{
    if taken {
        TAKEN
    } else {
        Leaving {
            words: 1,
            way: Way::Next,
        }
    }
}

/// How a step leaves the instruction at `a`, where that is no branch that is taken.
fn untaken(instr: &Instr, a: u32) -> Leaving
    ensures { result ≡ untaken_by (Some instr.now) a }
{
    match *instr {
        Instr::Ebreak | Instr::Jalr { .. } => Leaving {
            words: 1,
            way: Way::Away,
        },
        Instr::Auipc { .. } => Leaving {
            words: 2,
            way: Way::Next,
        },
        Instr::Jal { rd, off } => Leaving {
            words: jal_words(rd.num(), a, off),
            way: Way::Over,
        },
        _ => branch_leaving(false),
    }
}

/// How a step leaves the word at `a`, where that is no branch that is taken.
pub(crate) fn untaken_at(word: u32, a: u32) -> Leaving
    ensures { result ≡ untaken_by (decoded word) a }
{
    match decode(word) {
        Some(instr) => untaken(&instr, a),
        None => ILLEGAL,
    }
}

/// How the next step leaves the instruction at `pc`.
pub(crate) fn leaving_of(instr: &Instr, regs: &Regs, pc: u32) -> Leaving
    ensures { result ≡ leaving_by (Some instr.now) regs.now pc }
{
    match *instr {
        Instr::Branch { op, rs1, rs2, .. } => branch_leaving(takes(
            op,
            regs.get(rs1),
            regs.get(rs2),
        )),
        _ => untaken(instr, pc),
    }
}
