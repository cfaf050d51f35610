//! The instructions of the program.

ghost use Rattle.std.specs.Prelude.{◌≡◌, ◌-◌, ◌≤◌, ◌<◌, ◌++◌, All, length, IfOk, OnOk};
ghost use Rattle.swi_isa.specs.declared.instr.Instr.TheVariants.{Jal};
ghost use Rattle.swi_make.specs.Listing.{addi, calls_of, main_of, function_of, instructions_of, minus};

use std::alloc::{AllocError, Global};
use swi_isa::{BranchOp, ImmOp, Instr, LoadOp, Reg, StoreOp};

// The numbers of the registers, by their ABI names.
const X0: u32 = 0;

const RA: u32 = 1;

const SP: u32 = 2;

const S0: u32 = 8;

const A0: u32 = 10;

const A7: u32 = 17;

/// How often all functions are called.
const ROUNDS: u32 = 8;

/// The number of the system call `exit`.
const EXIT: u32 = 93;

/// The bytes of a function's frame on the stack.
const FRAME: u32 = 16;

/// Where in the frame the return address is kept.
const KEPT: u32 = 12;

/// The number -n, as 32 bits in two's complement.
fn minus(n: u32) -> u32
    requires { 1 ≤ n }
    ensures { result ≡ minus n }
{
    n.wrapping_neg()
}

fn addi(rd: u32, rs1: u32, imm: u32) -> Instr
    requires rd { rd < 32 }
    requires rs1 { rs1 < 32 }
    ensures { result ≡ addi rd rs1 imm }
{
    Instr::Alu {
        op: ImmOp::Addi,
        rd: Reg::of(rd),
        rs1: Reg::of(rs1),
        imm,
    }
}

fn jal(rd: u32, off: u32) -> Instr
    requires { rd < 32 }
    ensures { result ≡ Jal rd off }
{
    Instr::Jal {
        rd: Reg::of(rd),
        off,
    }
}

/// Appends the calls of all functions.
#[tactic(auto, using(crate::proofs::Functions::calls))]
fn append_calls(list: &mut Vec<Instr>, additions: &[u32]) -> Result<(), AllocError>
    requires few { length additions.now ≤ 4096 }
    requires each { All (λ n. n ≤ 16) additions.now }
    ensures { OnOk result (list.new.items ≡ list.old.items ++ calls_of additions.now) }
{
    let mut start = additions.len() as u32 + 6;
    let mut here = 1;
    for n in additions {
        list.push(jal(RA, 4 * (start - here)))?;
        start += n + 5;
        here += 1;
    }
    Ok(())
}

/// Appends what calls the functions, and exits.
fn append_main(list: &mut Vec<Instr>, additions: &[u32]) -> Result<(), AllocError>
    requires few { length additions.now ≤ 4096 }
    requires each { All (λ n. n ≤ 16) additions.now }
    ensures { OnOk result (list.new.items ≡ list.old.items ++ main_of additions.now) }
{
    let count = additions.len() as u32;
    list.push(addi(S0, X0, ROUNDS))?;
    append_calls(list, additions)?;
    let over_next = Instr::Branch {
        op: BranchOp::Beq,
        rs1: Reg::of(S0),
        rs2: Reg::of(X0),
        off: 8,
    };
    list.extend_from_slice(&[
        addi(S0, S0, minus(1)),
        over_next,
        jal(X0, minus(4 * (count + 2))),
        addi(A7, X0, EXIT),
        Instr::Ecall,
    ])
}

/// Appends a function that makes so many additions.
fn append_function(list: &mut Vec<Instr>, additions: u32) -> Result<(), AllocError>
    ensures { OnOk result (list.new.items ≡ list.old.items ++ function_of additions) }
{
    let keep = Instr::Store {
        op: StoreOp::Sw,
        rs1: Reg::of(SP),
        rs2: Reg::of(RA),
        imm: KEPT,
    };
    let get_back = Instr::Load {
        op: LoadOp::Lw,
        rd: Reg::of(RA),
        rs1: Reg::of(SP),
        imm: KEPT,
    };
    let ret = Instr::Jalr {
        rd: Reg::of(X0),
        rs1: Reg::of(RA),
        imm: 0,
    };
    list.extend_from_slice(&[addi(SP, SP, minus(FRAME)), keep])?;
    for _ in 0..additions {
        list.push(addi(A0, A0, 1))?;
    }
    list.extend_from_slice(&[get_back, addi(SP, SP, FRAME), ret])
}

/// The instructions of the program whose functions make so many additions each.
pub fn listing(alloc: Global, additions: &[u32]) -> Result<Vec<Instr>, AllocError>
    requires few { length additions.now ≤ 4096 }
    requires each { All (λ n. n ≤ 16) additions.now }
    ensures { IfOk result (λ list. list.items ≡ instructions_of additions.now) }
{
    let mut list = Vec::new(alloc);
    append_main(&mut list, additions)?;
    for n in additions {
        append_function(&mut list, *n)?;
    }
    Ok(list)
}
