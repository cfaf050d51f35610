//! Some instructions told by a few bits of their words, for which `decode` makes more tests.
#![tactic(auto)]

ghost use Rattle.std.specs.Prelude.{◌≡◌};
ghost use Rattle.swi_isa.specs.Decode.{decoded};
ghost use Rattle.swi_isa.specs.Kind.{jalr_fields, pc_relative};

use crate::fields::{i_value, rd, rs1};
use crate::instr::{JalrFields, PcRelative};

/// The fields of the JALR that the word `w` is; None where it is another instruction or illegal. Opcode and funct3 tell it
/// (RISC-V unprivileged specification, instruction set listings).
#[inline(always)]
#[tactic(auto, using(crate::proofs::Few::by_jalr))]
pub fn jalr_fields(w: u32) -> Option<JalrFields>
    ensures { result ≡ jalr_fields (decoded w) }
{
    if w & 0x0000_707F != 0x0000_0067 {
        return None;
    }
    Some(JalrFields {
        rd: rd(w),
        rs1: rs1(w),
        imm: i_value(w),
    })
}

/// Which of the instructions that add an offset to their own address the word `w` is; None where it is another one or
/// illegal. The opcode tells AUIPC and JAL, and with funct3 a branch (RISC-V unprivileged specification, instruction set
/// listings).
#[inline(always)]
#[tactic(auto, using(crate::proofs::Few::by_relative))]
pub fn pc_relative(w: u32) -> Option<PcRelative>
    ensures { result ≡ pc_relative (decoded w) }
{
    // A bit of the opcode parts AUIPC from the others, so that of most words two tests are made.
    if w & 0x40 == 0 {
        if w & 0x0000_007F == 0x0000_0017 {
            return Some(PcRelative::Auipc);
        }
        return None;
    }
    if w & 0x0000_007F == 0x0000_006F {
        return Some(PcRelative::Jal);
    }
    match w & 0x0000_707F {
        0x0063 | 0x1063 | 0x4063 | 0x5063 | 0x6063 | 0x7063 => Some(PcRelative::Branch),
        _ => None,
    }
}
