//! Words that the GNU assembler made of each instruction (as 2.40, `-march=rv32ima`), with the operands of the
//! assembly line, and words one bit beside them that its disassembler refuses.
#![tactic(auto)]

use crate::named::Named::{self, *};
use crate::named::instr_of;
use swi_isa::{AtomicOp, BranchOp, ImmOp, LoadOp, RegOp, StoreOp, decode, is_legal};

static WORDS: [(u32, Named); 78] = [
    (0x123452B7, Lui(5, 0x12345000)),
    (0xFFFFFFB7, Lui(31, 0xFFFFF000)),
    (0xFFFFF317, Auipc(6, 0xFFFFF000)),
    (0x801FF0EF, Jal(1, 0xFFFFF800)),
    (0x7FFFF06F, Jal(0, 0x000FFFFE)),
    (0x80000FEF, Jal(31, 0xFFF00000)),
    // each of bits 11 to 19 of the offset comes from its own place
    (0x001000EF, Jal(1, 0x00000800)),
    (0x0000116F, Jal(2, 0x00001000)),
    (0x000801EF, Jal(3, 0x00080000)),
    (0x801FF26F, Jal(4, 0xFFFFF800)),
    (0x800FF2EF, Jal(5, 0xFFFFF000)),
    (0x8008036F, Jal(6, 0xFFF80000)),
    (0xFFC100E7, Jalr(1, 2, 0xFFFFFFFC)),
    (0x0330000F, Fence),
    (0x8330000F, Fence),
    (0x0110000F, Fence),
    // rd and rs1, which are reserved, are ignored: qemu-riscv32 executes both
    (0x0333028F, Fence),
    (0xFFFA8F8F, Fence),
    (0x00000073, Ecall),
    (0x00100073, Ebreak),
    (0x00628863, Branch(BranchOp::Beq, 5, 6, 16)),
    (0xFE029EE3, Branch(BranchOp::Bne, 5, 0, 0xFFFFFFFC)),
    (0x7E83CFE3, Branch(BranchOp::Blt, 7, 8, 4094)),
    (0x80A4D063, Branch(BranchOp::Bge, 9, 10, 0xFFFFF000)),
    (0x00C5E0E3, Branch(BranchOp::Bltu, 11, 12, 2048)),
    (0xFEE6FFE3, Branch(BranchOp::Bgeu, 13, 14, 0xFFFFFFFE)),
    (0xFFF80783, Load(LoadOp::Lb, 15, 16, 0xFFFFFFFF)),
    (0x7FF91883, Load(LoadOp::Lh, 17, 18, 2047)),
    (0x800A2983, Load(LoadOp::Lw, 19, 20, 0xFFFFF800)),
    (0x000B4A83, Load(LoadOp::Lbu, 21, 22, 0)),
    (0x006C5B83, Load(LoadOp::Lhu, 23, 24, 6)),
    (0xFF9D0FA3, Store(StoreOp::Sb, 26, 25, 0xFFFFFFFF)),
    (0x7FBE1FA3, Store(StoreOp::Sh, 28, 27, 2047)),
    (0x81DF2023, Store(StoreOp::Sw, 30, 29, 0xFFFFF800)),
    (0xFFF08F93, Alu(ImmOp::Addi, 31, 1, 0xFFFFFFFF)),
    (0x7FF1A113, Alu(ImmOp::Slti, 2, 3, 2047)),
    (0x8002B213, Alu(ImmOp::Sltiu, 4, 5, 0xFFFFF800)),
    (0x5553C313, Alu(ImmOp::Xori, 6, 7, 1365)),
    (0xAAA4E413, Alu(ImmOp::Ori, 8, 9, 0xFFFFFAAA)),
    (0x0FF5F513, Alu(ImmOp::Andi, 10, 11, 255)),
    (0x01F69613, Alu(ImmOp::Slli, 12, 13, 31)),
    (0x0017D713, Alu(ImmOp::Srli, 14, 15, 1)),
    (0x4118D813, Alu(ImmOp::Srai, 16, 17, 17)),
    (0x01498933, Op(RegOp::Add, 18, 19, 20)),
    (0x417B0AB3, Op(RegOp::Sub, 21, 22, 23)),
    (0x01AC9C33, Op(RegOp::Sll, 24, 25, 26)),
    (0x01DE2DB3, Op(RegOp::Slt, 27, 28, 29)),
    (0x001FBF33, Op(RegOp::Sltu, 30, 31, 1)),
    (0x0041C133, Op(RegOp::Xor, 2, 3, 4)),
    (0x007352B3, Op(RegOp::Srl, 5, 6, 7)),
    (0x40A4D433, Op(RegOp::Sra, 8, 9, 10)),
    (0x00D665B3, Op(RegOp::Or, 11, 12, 13)),
    (0x0107F733, Op(RegOp::And, 14, 15, 16)),
    (0x033908B3, Op(RegOp::Mul, 17, 18, 19)),
    (0x036A9A33, Op(RegOp::Mulh, 20, 21, 22)),
    (0x039C2BB3, Op(RegOp::Mulhsu, 23, 24, 25)),
    (0x03CDBD33, Op(RegOp::Mulhu, 26, 27, 28)),
    (0x03FF4EB3, Op(RegOp::Div, 29, 30, 31)),
    (0x023150B3, Op(RegOp::Divu, 1, 2, 3)),
    (0x0262E233, Op(RegOp::Rem, 4, 5, 6)),
    (0x029473B3, Op(RegOp::Remu, 7, 8, 9)),
    (0x1005A52F, Atomic(AtomicOp::LrW, 10, 11, 0)),
    (0x18D7262F, Atomic(AtomicOp::ScW, 12, 14, 13)),
    (0x0908A7AF, Atomic(AtomicOp::SwapW, 15, 17, 16)),
    (0x013A292F, Atomic(AtomicOp::AddW, 18, 20, 19)),
    (0x216BAAAF, Atomic(AtomicOp::XorW, 21, 23, 22)),
    (0x619D2C2F, Atomic(AtomicOp::AndW, 24, 26, 25)),
    (0x41CEADAF, Atomic(AtomicOp::OrW, 27, 29, 28)),
    (0x81F0AF2F, Atomic(AtomicOp::MinW, 30, 1, 31)),
    (0xA032212F, Atomic(AtomicOp::MaxW, 2, 4, 3)),
    (0xC063A2AF, Atomic(AtomicOp::MinuW, 5, 7, 6)),
    (0xE095242F, Atomic(AtomicOp::MaxuW, 8, 10, 9)),
    // aq and rl are no fields
    (0x1405A52F, Atomic(AtomicOp::LrW, 10, 11, 0)),
    (0x1AD7262F, Atomic(AtomicOp::ScW, 12, 14, 13)),
    (0x073A292F, Atomic(AtomicOp::AddW, 18, 20, 19)),
    (0x1001252F, Atomic(AtomicOp::LrW, 10, 2, 0)),
    (0x18C125AF, Atomic(AtomicOp::ScW, 11, 2, 12)),
    (0x00C1252F, Atomic(AtomicOp::AddW, 10, 2, 12)),
];

#[test]
fn words_decode_as_assembled(rt: HostRuntime) {
    for (w, named) in WORDS.iter() {
        assert_eq!(rt; decode(*w), Some(instr_of(named)), "{w:08X}");
    }
}

static OUTSIDE: [u32; 45] = [
    // all zeros and all ones, FENCE.I, CSRRW, MRET, an atomic on 8 bytes, SLLI with funct7 1
    0x00000000, 0xFFFFFFFF, 0x0000100F, 0x30001073, 0x30200073, 0x1005352F, 0x02051513,
    // one bit beside an instruction: the two lowest bits, the rest of the opcode
    0x00000072, 0x00000071, 0x123452B3, 0xFFFFF307, 0x801FF0EB, 0x00000077,
    // funct3
    0xFFC110E7, 0x0062A863, 0xFEE6BFE3, 0x7FF93883, 0x800A6983, 0xFF9D4FA3, 0x81DF3023,
    // funct7 of a shift or an operation
    0x05F69613, 0x41F69613, 0x0417D713, 0xC118D813, 0x41189813, 0x05498933, 0x417B1AB3, 0x437B0AB3,
    0x42A4D433, 0x073908B3, 0x829473B3,
    // width, funct5, and rs2 of LR.W
    0x013A392F, 0x013A092F, 0x113A292F, 0x10D7262F, 0xF095242F, 0x2908A7AF, 0x1015A52F, 0x1105A52F,
    // ECALL and EBREAK with other bits
    0x000000F3, 0x00008073, 0x00400073, 0x00300073, 0x80100073, 0x00101073,
];

#[test]
fn words_outside_the_table_are_illegal(rt: HostRuntime) {
    for w in OUTSIDE.iter() {
        assert_eq!(rt; (decode(*w), is_legal(*w)), (None, false), "{w:08X}");
    }
    assert!(rt; is_legal(0x8330000F));
}
