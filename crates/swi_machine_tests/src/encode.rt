//! Words that the GNU assembler made (as 2.40, `-march=rv32ima`), and instructions that it refuses.
#![tactic(auto)]

use crate::named::Named::{self, *};
use crate::named::instr_of;
use swi_encode::{encode, valid};
use swi_isa::{AtomicOp, BranchOp, ImmOp, Instr, LoadOp, RegOp, StoreOp, decode};

static WORDS: [(Named, u32); 15] = [
    (Lui(5, 0x12345000), 0x123452B7),
    (Auipc(6, 0xFFFFF000), 0xFFFFF317),
    (Jal(0, 0x000FFFFE), 0x7FFFF06F),
    (Jalr(1, 2, 0xFFFFFFFC), 0xFFC100E7),
    (Branch(BranchOp::Bge, 9, 10, 0xFFFFF000), 0x80A4D063),
    (Load(LoadOp::Lh, 17, 18, 2047), 0x7FF91883),
    (Store(StoreOp::Sw, 30, 29, 0xFFFFF800), 0x81DF2023),
    (Alu(ImmOp::Ori, 8, 9, 0xFFFFFAAA), 0xAAA4E413),
    (Alu(ImmOp::Srai, 16, 17, 17), 0x4118D813),
    (Op(RegOp::Mulhsu, 23, 24, 25), 0x039C2BB3),
    (Atomic(AtomicOp::LrW, 10, 11, 0), 0x1005A52F),
    (Atomic(AtomicOp::MaxuW, 8, 10, 9), 0xE095242F),
    (Fence, 0x0FF0000F),
    (Ecall, 0x00000073),
    (Ebreak, 0x00100073),
];

/// The word of an instruction whose fields are in range.
fn word_of(instr: &Instr) -> Option<u32> {
    if valid(instr) {
        Some(encode(instr))
    } else {
        None
    }
}

#[test]
fn instructions_have_the_words_of_the_assembler(rt: HostRuntime) {
    for (named, want) in WORDS.iter() {
        assert_eq!(rt; word_of(&instr_of(named)), Some(*want), "{named:?}");
    }
}

/// Words, and what encode gives back of them.
static WITH_ORDERING: [(u32, u32); 7] = [
    (0xFE029EE3, 0xFE029EE3),
    (0x80000FEF, 0x80000FEF),
    (0x1405A52F, 0x1005A52F),
    (0x1AD7262F, 0x18D7262F),
    (0x073A292F, 0x013A292F),
    (0x8330000F, 0x0FF0000F),
    (0x0110000F, 0x0FF0000F),
];

#[test]
fn words_come_back_without_ordering_bits(rt: HostRuntime) {
    for (w, want) in WITH_ORDERING.iter() {
        let back = decode(*w).and_then(|instr| word_of(&instr));
        assert_eq!(rt; back, Some(*want), "{w:08X}");
    }
}

static OUT_OF_RANGE: [Named; 12] = [
    Lui(1, 0x00000800),
    Auipc(1, 1),
    Jal(1, 0x00100000),
    Jal(1, 3),
    Jalr(1, 2, 2048),
    Branch(BranchOp::Bne, 1, 2, 4096),
    Branch(BranchOp::Bne, 1, 2, 5),
    Load(LoadOp::Lw, 1, 2, 0xFFFFF7FF),
    Store(StoreOp::Sb, 1, 2, 2048),
    Alu(ImmOp::Addi, 1, 2, 4095),
    Alu(ImmOp::Slli, 1, 2, 32),
    Atomic(AtomicOp::LrW, 1, 2, 3),
];

#[test]
fn fields_out_of_range_are_refused(rt: HostRuntime) {
    for named in OUT_OF_RANGE.iter() {
        assert!(rt; !valid(&instr_of(named)), "{named:?}");
    }
}
