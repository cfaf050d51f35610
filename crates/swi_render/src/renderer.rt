//! From a text word to its rendering.
#![tactic(auto)]

ghost use Rattle.std.specs.Prelude.{◌+◌, if◌then◌else◌, ◌==◌, ◌%◌, ◌≡◌, ◌≤◌, ℕ, List, length, Some};
ghost use Rattle.swi_isa.specs.declared.instr.Instr.TheVariants.{Branch};
ghost use Rattle.swi_render.specs.Rendering.{falls_of, ending_of, len, rendering, rendering_of, ending, falls, needs, parts_of, part_at, Renders, AreWords, AreThe, IsThe, Decodes, jump, load_upper, add_lower, opposite};

use crate::parts::Part;
use arrayvec::ArrayVec;
use swi_encode::encode;
use swi_isa::{BranchOp, EBREAK, ImmOp, Instr, Reg, decode};

/// The LUI of a load of a value.
fn load_upper(rd: Reg, value: u32) -> u32
    ensures { IsThe (load_upper rd value) result }
{
    let imm = (value.wrapping_add(0x800) >> 12) << 12;
    encode(&Instr::Lui { rd, imm })
}

/// The ADDI of a load of a value.
fn add_lower(rd: Reg, value: u32) -> u32
    ensures { IsThe (add_lower rd value) result }
{
    let imm = value.wrapping_sub((value.wrapping_add(0x800) >> 12) << 12);
    encode(&Instr::Alu {
        op: ImmOp::Addi,
        rd,
        rs1: rd,
        imm,
    })
}

/// The opposite condition of a branch.
fn opposite(op: BranchOp) -> BranchOp
    ensures { result ≡ opposite op }
{
    match op {
        BranchOp::Beq => BranchOp::Bne,
        BranchOp::Bne => BranchOp::Beq,
        BranchOp::Blt => BranchOp::Bge,
        BranchOp::Bge => BranchOp::Blt,
        BranchOp::Bltu => BranchOp::Bgeu,
        BranchOp::Bgeu => BranchOp::Bltu,
    }
}

/// The branch over an exit of two words, taken where the branch on `op` is not.
fn branch_over(op: BranchOp, rs1: Reg, rs2: Reg) -> u32
    ensures { IsThe (Decodes (Branch (opposite op) rs1 rs2 12)) result }
{
    encode(&Instr::Branch {
        op: opposite(op),
        rs1,
        rs2,
        off: 12,
    })
}

/// A list of these words.
fn list(words: &[u32]) -> ArrayVec<u32, 4>
    requires { length words.now ≤ 4 }
    ensures { result.items ≡ words.now }
{
    let mut list = ArrayVec::new();
    for &word in words {
        list.push(word);
    }
    list
}

/// A jump from `a` to `target` that links to `rd`.
fn jump(rd: Reg, target: u32, a: u32) -> ArrayVec<u32, 4>
    ensures { AreThe (jump (target % 4 == 0) (rd == 0) rd target a) result.items }
{
    if target % 4 != 0 || rd.num() == 0 {
        return list(&[EBREAK, target]);
    }
    let link = a.wrapping_add(4);
    list(&[load_upper(rd, link), add_lower(rd, link), EBREAK, target])
}

/// The rendering of an instruction, whose word is `w`, at the address `a`.
fn rendered_instr(i: &Instr, w: u32, a: u32) -> ArrayVec<u32, 4>
    ensures { AreThe (rendering_of (Some i.now) w a) result.items }
{
    match *i {
        Instr::Ebreak => list(&[EBREAK, a.wrapping_add(1)]),
        Instr::Auipc { rd, imm } => {
            let value = a.wrapping_add(imm);
            list(&[load_upper(rd, value), add_lower(rd, value)])
        }
        Instr::Jal { rd, off } => jump(rd, a.wrapping_add(off), a),
        Instr::Branch { op, rs1, rs2, off } => {
            list(&[branch_over(op, rs1, rs2), EBREAK, a.wrapping_add(off)])
        }
        Instr::Jalr { .. } => list(&[EBREAK, w, a.wrapping_add(4)]),
        _ => list(&[w]),
    }
}

/// The rendering of the word `w` at the address `a`.
#[tactic(auto, unfolding(crate::specs::Rendering::rendering))]
fn rendered(w: u32, a: u32) -> ArrayVec<u32, 4>
    ensures { AreThe (rendering w a) result.items }
{
    match decode(w) {
        None => list(&[EBREAK, a.wrapping_add(1)]),
        Some(i) => rendered_instr(&i, w, a),
    }
}

/// The words that stand in a block for the text word `w` at the address `a`: 1 to 4, without the exit of
/// the block.
#[tactic(auto, unfolding(crate::specs::Rendering::Renders), using(crate::proofs::Lists::lists))]
pub fn render(w: u32, a: u32) -> ArrayVec<u32, 4>
    ensures renders { Renders w a result.items }
    ensures only { (s : List ℕ) → AreWords s → Renders w a s → s ≡ result.items }
    ensures words { AreThe (rendering w a) result.items }
    ensures len { length result.items ≡ len w a }
{
    rendered(w, a)
}

/// What the words of an instruction at the address `a` do, and behind them those of the exit that it
/// has as the last of its block.
fn instr_parts(i: &Instr, a: u32) -> &'static [Part]
    ensures parts { (w : ℕ) → result.now ≡ parts_of (ending_of (Some i.now) w a) }
    ensures least { 2 ≤ length result.now }
    ensures most { length result.now ≤ 5 }
{
    match *i {
        Instr::Ebreak => &[Part::Trap, Part::Inert],
        Instr::Auipc { .. } => &[Part::Lead, Part::Step, Part::Fall, Part::Inert],
        Instr::Jal { rd, off } => {
            if a.wrapping_add(off) % 4 != 0 {
                &[Part::Misaligned, Part::Inert]
            } else if rd.num() == 0 {
                &[Part::Leave, Part::Inert]
            } else {
                &[Part::Lead, Part::Lead, Part::Leave, Part::Inert]
            }
        }
        Instr::Branch { .. } => &[
            Part::Skip,
            Part::Leave,
            Part::Inert,
            Part::Fall,
            Part::Inert,
        ],
        Instr::Jalr { .. } => &[Part::Indirect, Part::Inert, Part::Inert],
        _ => &[Part::Step, Part::Fall, Part::Inert],
    }
}

/// The same of the word `w`.
#[tactic(auto, unfolding(crate::specs::Rendering::ending))]
fn parts(w: u32, a: u32) -> &'static [Part]
    ensures parts { result.now ≡ parts_of (ending w a) }
    ensures least { 2 ≤ length result.now }
    ensures most { length result.now ≤ 5 }
{
    match decode(w) {
        None => &[Part::Trap, Part::Inert],
        Some(i) => instr_parts(&i, a),
    }
}

/// Whether control can go on behind the instruction.
fn instr_falls(i: &Instr) -> bool
    ensures { result ≡ falls_of (Some i.now) }
{
    match *i {
        Instr::Jal { .. } | Instr::Jalr { .. } | Instr::Ebreak => false,
        _ => true,
    }
}

/// Whether control can go on behind the text word `w`, so that a block that ends with it has an exit.
/// Its address plays no part: it is there so that all calls on a text word are called alike.
#[tactic(auto, unfolding(crate::specs::Rendering::falls))]
pub fn falls(w: u32, _a: u32) -> bool
    ensures { result ≡ falls w }
{
    match decode(w) {
        None => false,
        Some(i) => instr_falls(&i),
    }
}

/// How many words the text word `w` at the address `a` takes as the last of its block: 2 to 5.
pub fn needs(w: u32, a: u32) -> u32
    ensures value { result ≡ needs w a }
    ensures sum { result ≡ len w a + (if falls w then 2 else 0) }
    ensures least { 2 ≤ result }
    ensures most { result ≤ 5 }
{
    parts(w, a).len() as u32
}

/// What the word `at` words behind the first of the rendering of the text word `w` at the address `a`
/// does, the exit that it has as the last of its block included; behind these, nothing.
pub fn part(w: u32, a: u32, at: u32) -> Part
    ensures { result ≡ part_at w a at }
{
    parts(w, a).get(at as usize).copied().unwrap_or(Part::Inert)
}
