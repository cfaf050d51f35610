//! From an instruction of RV32IMA to its word: the inverse of the decoder.
#![tactic(auto)]

ghost use Rattle.std.specs.Prelude.{IsTrue, ◌↔◌, ◌≡◌, ◌<◌, ◌≤◌, ◌^◌, ℕ, Some};
ghost use Rattle.swi_isa.specs.Decode.{decoded};
ghost use Rattle.swi_isa.specs.declared.instr.Instr.TheVariants.{Branch, Load, Store, Alu, Op, Atomic};
ghost use Rattle.swi_encode.specs.Canonical.{canonical};
ghost use Rattle.swi_encode.specs.Valid.{IsValid, IsExtended, ImmFits, AtomicFits};
ghost use Rattle.swi_encode.specs.Words.{InRange, word_of, u_word, j_word, i_word, s_word, b_word, r_word};

use swi_field::bits;
use swi_isa::{AtomicOp, BranchOp, ImmOp, Instr, LoadOp, Reg, RegOp, StoreOp};

/// The word of an instruction in the U format (LUI, AUIPC).
fn upper(opcode: u32, rd: Reg, imm: u32) -> u32
    requires { opcode < 128 }
    ensures word { result ≡ u_word opcode rd imm }
    ensures sized { (rd < 32) × (imm < 2 ^ 32) }
{
    (bits::<31, 12>(imm) << 12) + (rd.num() << 7) + opcode
}

/// The word of a JAL, in the J format.
fn jump(rd: Reg, off: u32) -> u32
    ensures word { result ≡ j_word rd off }
    ensures sized { (rd < 32) × (off < 2 ^ 32) }
{
    let high = (bits::<20, 20>(off) << 31) + (bits::<10, 1>(off) << 21);
    let low = (bits::<11, 11>(off) << 20) + (bits::<19, 12>(off) << 12);
    high + low + (rd.num() << 7) + 0x6F
}

/// The word of an instruction in the I format.
fn immediate(opcode: u32, funct3: u32, rd: Reg, rs1: Reg, imm: u32) -> u32
    requires low { opcode < 128 }
    requires small { funct3 < 8 }
    ensures word { result ≡ i_word opcode funct3 rd rs1 imm }
    ensures sized { (rd < 32) × (rs1 < 32) × (imm < 2 ^ 32) }
{
    (bits::<11, 0>(imm) << 20) + (rs1.num() << 15) + (funct3 << 12) + (rd.num() << 7) + opcode
}

/// The word of a store, in the S format.
fn store(funct3: u32, rs1: Reg, rs2: Reg, imm: u32) -> u32
    requires { funct3 < 8 }
    ensures word { result ≡ s_word funct3 rs1 rs2 imm }
    ensures sized { (rs1 < 32) × (rs2 < 32) × (imm < 2 ^ 32) }
{
    let high = (bits::<11, 5>(imm) << 25) + (rs2.num() << 20) + (rs1.num() << 15);
    high + (funct3 << 12) + (bits::<4, 0>(imm) << 7) + 0x23
}

/// The word of a branch, in the B format.
fn branch(funct3: u32, rs1: Reg, rs2: Reg, off: u32) -> u32
    requires { funct3 < 8 }
    ensures word { result ≡ b_word funct3 rs1 rs2 off }
    ensures sized { (rs1 < 32) × (rs2 < 32) × (off < 2 ^ 32) }
{
    let high = (bits::<12, 12>(off) << 31) + (bits::<10, 5>(off) << 25);
    let low = (bits::<4, 1>(off) << 8) + (bits::<11, 11>(off) << 7) + 0x63;
    high + (rs2.num() << 20) + (rs1.num() << 15) + (funct3 << 12) + low
}

/// The word of an instruction in the R format.
fn registers(opcode: u32, funct3: u32, funct7: u32, rd: Reg, rs1: Reg, rs2: Reg) -> u32
    requires low { opcode < 128 }
    requires small { funct3 < 8 }
    requires high { funct7 < 128 }
    ensures word { result ≡ r_word opcode funct3 funct7 rd rs1 rs2 }
    ensures sized { (rd < 32) × (rs1 < 32) × (rs2 < 32) }
{
    let high = (funct7 << 25) + (rs2.num() << 20) + (rs1.num() << 15);
    high + (funct3 << 12) + (rd.num() << 7) + opcode
}

/// The word of a branch.
fn branch_word(op: BranchOp, rs1: Reg, rs2: Reg, off: u32) -> u32
    ensures word { result ≡ word_of (Branch op rs1 rs2 off) }
    ensures sized { InRange (Branch op rs1 rs2 off) }
{
    macro_rules! row {
        ($funct3:literal) => { branch($funct3, rs1, rs2, off) };
    }
    match op {
        BranchOp::Beq => row!(0),
        BranchOp::Bne => row!(1),
        BranchOp::Blt => row!(4),
        BranchOp::Bge => row!(5),
        BranchOp::Bltu => row!(6),
        BranchOp::Bgeu => row!(7),
    }
}

/// The word of a load.
fn load_word(op: LoadOp, rd: Reg, rs1: Reg, imm: u32) -> u32
    ensures word { result ≡ word_of (Load op rd rs1 imm) }
    ensures sized { InRange (Load op rd rs1 imm) }
{
    macro_rules! row {
        ($funct3:literal) => { immediate(0x03, $funct3, rd, rs1, imm) };
    }
    match op {
        LoadOp::Lb => row!(0),
        LoadOp::Lh => row!(1),
        LoadOp::Lw => row!(2),
        LoadOp::Lbu => row!(4),
        LoadOp::Lhu => row!(5),
    }
}

/// The word of a store.
fn store_word(op: StoreOp, rs1: Reg, rs2: Reg, imm: u32) -> u32
    ensures word { result ≡ word_of (Store op rs1 rs2 imm) }
    ensures sized { InRange (Store op rs1 rs2 imm) }
{
    macro_rules! row {
        ($funct3:literal) => { store($funct3, rs1, rs2, imm) };
    }
    match op {
        StoreOp::Sb => row!(0),
        StoreOp::Sh => row!(1),
        StoreOp::Sw => row!(2),
    }
}

/// The word of an operation on a register and an immediate.
fn immediate_word(op: ImmOp, rd: Reg, rs1: Reg, imm: u32) -> u32
    requires { IsValid (Alu op rd rs1 imm) }
    ensures word { result ≡ word_of (Alu op rd rs1 imm) }
    ensures sized { InRange (Alu op rd rs1 imm) }
{
    macro_rules! row {
        ($funct3:literal) => { immediate(0x13, $funct3, rd, rs1, imm) };
        ($funct3:literal, $funct7:literal) => { registers(0x13, $funct3, $funct7, rd, rs1, Reg::of(imm)) };
    }
    match op {
        ImmOp::Addi => row!(0),
        ImmOp::Slti => row!(2),
        ImmOp::Sltiu => row!(3),
        ImmOp::Xori => row!(4),
        ImmOp::Ori => row!(6),
        ImmOp::Andi => row!(7),
        ImmOp::Slli => row!(1, 0),
        ImmOp::Srli => row!(5, 0),
        ImmOp::Srai => row!(5, 32),
    }
}

/// The word of an operation on two registers.
fn register_word(op: RegOp, rd: Reg, rs1: Reg, rs2: Reg) -> u32
    ensures word { result ≡ word_of (Op op rd rs1 rs2) }
    ensures sized { InRange (Op op rd rs1 rs2) }
{
    macro_rules! row {
        ($funct3:literal, $funct7:literal) => { registers(0x33, $funct3, $funct7, rd, rs1, rs2) };
    }
    match op {
        RegOp::Add => row!(0, 0),
        RegOp::Sub => row!(0, 32),
        RegOp::Sll => row!(1, 0),
        RegOp::Slt => row!(2, 0),
        RegOp::Sltu => row!(3, 0),
        RegOp::Xor => row!(4, 0),
        RegOp::Srl => row!(5, 0),
        RegOp::Sra => row!(5, 32),
        RegOp::Or => row!(6, 0),
        RegOp::And => row!(7, 0),
        RegOp::Mul => row!(0, 1),
        RegOp::Mulh => row!(1, 1),
        RegOp::Mulhsu => row!(2, 1),
        RegOp::Mulhu => row!(3, 1),
        RegOp::Div => row!(4, 1),
        RegOp::Divu => row!(5, 1),
        RegOp::Rem => row!(6, 1),
        RegOp::Remu => row!(7, 1),
    }
}

/// The word of an atomic operation.
fn atomic_word(op: AtomicOp, rd: Reg, rs1: Reg, rs2: Reg) -> u32
    ensures word { result ≡ word_of (Atomic op rd rs1 rs2) }
    ensures sized { InRange (Atomic op rd rs1 rs2) }
{
    macro_rules! row {
        ($funct5:literal) => { registers(0x2F, 2, $funct5 * 4, rd, rs1, rs2) };
    }
    match op {
        AtomicOp::LrW => row!(2),
        AtomicOp::ScW => row!(3),
        AtomicOp::SwapW => row!(1),
        AtomicOp::AddW => row!(0),
        AtomicOp::XorW => row!(4),
        AtomicOp::AndW => row!(12),
        AtomicOp::OrW => row!(8),
        AtomicOp::MinW => row!(16),
        AtomicOp::MaxW => row!(20),
        AtomicOp::MinuW => row!(24),
        AtomicOp::MaxuW => row!(28),
    }
}

/// The word of each instruction, by its format.
fn word(i: &Instr) -> u32
    requires { IsValid i.now }
    ensures word { result ≡ word_of i.now }
    ensures sized { InRange i.now }
{
    match *i {
        Instr::Lui { rd, imm } => upper(0x37, rd, imm),
        Instr::Auipc { rd, imm } => upper(0x17, rd, imm),
        Instr::Jal { rd, off } => jump(rd, off),
        Instr::Jalr { rd, rs1, imm } => immediate(0x67, 0, rd, rs1, imm),
        Instr::Branch { op, rs1, rs2, off } => branch_word(op, rs1, rs2, off),
        Instr::Load { op, rd, rs1, imm } => load_word(op, rd, rs1, imm),
        Instr::Store { op, rs1, rs2, imm } => store_word(op, rs1, rs2, imm),
        Instr::Alu { op, rd, rs1, imm } => immediate_word(op, rd, rs1, imm),
        Instr::Op { op, rd, rs1, rs2 } => register_word(op, rd, rs1, rs2),
        Instr::Atomic { op, rd, rs1, rs2 } => atomic_word(op, rd, rs1, rs2),
        Instr::Fence => 0x0FF0_000F,
        Instr::Ecall => 0x73,
        Instr::Ebreak => 0x0010_0073,
    }
}

/// The word of a valid instruction: it decodes to the instruction again, and it is the only such word but for
/// FENCE, whose word is that of `fence iorw, iorw`, and for an atomic, whose bits aq and rl are clear.
#[tactic(auto, using(crate::proofs::Back::decoded_again))]
pub fn encode(i: &Instr) -> u32
    requires { IsValid i.now }
    ensures decodes { decoded result ≡ Some i.now }
    // any word that decodes to the instruction is the result, but for those two
    ensures only { (w : ℕ) → w < 2 ^ 32 → decoded w ≡ Some i.now → result ≡ canonical i.now w }
{
    word(i)
}

/// Whether the 32 bits are N bits sign-extended.
fn is_extended<const N: u32>(v: u32) -> bool
    requires low { 1 ≤ N }
    requires high { N ≤ 32 }
    ensures { IsTrue result ↔ IsExtended N v }
{
    let half = 1 << (N - 1);
    v < half || v > u32::MAX - half
}

/// Whether the immediate fits the operation.
fn imm_fits(op: ImmOp, imm: u32) -> bool
    ensures { IsTrue result ↔ ImmFits op imm }
{
    match op {
        ImmOp::Slli | ImmOp::Srli | ImmOp::Srai => imm < 32,
        _ => is_extended::<12>(imm),
    }
}

/// Whether the second operand fits the atomic operation.
fn atomic_fits(op: AtomicOp, rs2: Reg) -> bool
    ensures { IsTrue result ↔ AtomicFits op rs2 }
{
    match op {
        AtomicOp::LrW => rs2.num() == 0,
        _ => true,
    }
}

/// Whether the fields fit their encoding.
fn fields_fit(i: &Instr) -> bool
    ensures { IsTrue result ↔ IsValid i.now }
{
    macro_rules! offset {
        ($width:literal, $off:ident) => { is_extended::<$width>($off) && $off % 2 == 0 };
    }
    match *i {
        Instr::Lui { imm, .. } | Instr::Auipc { imm, .. } => bits::<11, 0>(imm) == 0,
        Instr::Jal { off, .. } => offset!(21, off),
        Instr::Branch { off, .. } => offset!(13, off),
        Instr::Jalr { imm, .. } | Instr::Load { imm, .. } | Instr::Store { imm, .. } => {
            is_extended::<12>(imm)
        }
        Instr::Alu { op, imm, .. } => imm_fits(op, imm),
        Instr::Atomic { op, rs2, .. } => atomic_fits(op, rs2),
        Instr::Op { .. } | Instr::Fence | Instr::Ecall | Instr::Ebreak => true,
    }
}

/// Whether the fields of the instruction fit their encoding, that is whether it has a word: an immediate is one
/// that its format can hold, an offset is even, a shift is by less than 32, and LR.W has rs2 = 0 (RISC-V
/// unprivileged specification, sections 2.3 to 2.5; LR.W: the A chapter). Every instruction that a word decodes
/// to is valid.
pub fn valid(i: &Instr) -> bool
    ensures fits { IsTrue result ↔ IsValid i.now }
    ensures of_decoded { (w : ℕ) → w < 2 ^ 32 → decoded w ≡ Some i.now → IsTrue result }
{
    fields_fit(i)
}
