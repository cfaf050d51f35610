//! Instructions as they stand in the tables of tests.
#![tactic(auto)]

use swi_isa::{AtomicOp, BranchOp, ImmOp, Instr, LoadOp, Reg, RegOp, StoreOp};

/// An instruction with its registers by their numbers, in the order of `Instr`'s fields.
#[derive(Clone, Copy, Debug)]
pub enum Named {
    Lui(u32, u32),
    Auipc(u32, u32),
    Jal(u32, u32),
    Jalr(u32, u32, u32),
    Branch(BranchOp, u32, u32, u32),
    Load(LoadOp, u32, u32, u32),
    Store(StoreOp, u32, u32, u32),
    Alu(ImmOp, u32, u32, u32),
    Op(RegOp, u32, u32, u32),
    Atomic(AtomicOp, u32, u32, u32),
    Fence,
    Ecall,
    Ebreak,
}

use Named::*;

fn x(number: u32) -> Reg {
    Reg::of(number % 32)
}

pub fn instr_of(named: &Named) -> Instr {
    match *named {
        Lui(rd, imm) => Instr::Lui { rd: x(rd), imm },
        Auipc(rd, imm) => Instr::Auipc { rd: x(rd), imm },
        Jal(rd, off) => Instr::Jal { rd: x(rd), off },
        Jalr(rd, rs1, imm) => Instr::Jalr {
            rd: x(rd),
            rs1: x(rs1),
            imm,
        },
        Branch(op, rs1, rs2, off) => Instr::Branch {
            op,
            rs1: x(rs1),
            rs2: x(rs2),
            off,
        },
        Load(op, rd, rs1, imm) => Instr::Load {
            op,
            rd: x(rd),
            rs1: x(rs1),
            imm,
        },
        Store(op, rs1, rs2, imm) => Instr::Store {
            op,
            rs1: x(rs1),
            rs2: x(rs2),
            imm,
        },
        Alu(op, rd, rs1, imm) => Instr::Alu {
            op,
            rd: x(rd),
            rs1: x(rs1),
            imm,
        },
        Op(op, rd, rs1, rs2) => Instr::Op {
            op,
            rd: x(rd),
            rs1: x(rs1),
            rs2: x(rs2),
        },
        Atomic(op, rd, rs1, rs2) => Instr::Atomic {
            op,
            rd: x(rd),
            rs1: x(rs1),
            rs2: x(rs2),
        },
        Fence => Instr::Fence,
        Ecall => Instr::Ecall,
        Ebreak => Instr::Ebreak,
    }
}
