//! Texts that the GNU disassembler gives of words that the assembler made (binutils 2.40, `-march=rv32ima`,
//! `-M no-aliases`), with a space behind each comma, targets in eight digits and amounts of shifts in decimal;
//! rows made by hand behind them. Listings of hand-made images.
#![tactic(auto)]

ghost use Rattle.std.specs.Prelude.{◌<◌, ◌≤◌, length};

use crate::bytes::bytes_of;
use std::alloc::Global;
use std::test::Fail;
use swi_check::check;
use swi_devices::MemSink;
use swi_image::{ImageView, read_image};
use swi_program::{Program, one_text};
use swi_trace::{History, list_block, text_of, trace_line};

const UPPER_AND_JUMPS: [(u32, u32, &str); 17] = [
    (0x00000037, 0x00010000, "lui zero, 0x0"),
    (0x000102B7, 0x00010004, "lui t0, 0x10"),
    (0xFFFFFFB7, 0x00010008, "lui t6, 0xfffff"),
    (0x80000537, 0x0001000C, "lui a0, 0x80000"),
    (0x001235B7, 0x00010010, "lui a1, 0x123"),
    (0x00000017, 0x00010014, "auipc zero, 0x0"),
    (0xFFFFF317, 0x00010018, "auipc t1, 0xfffff"),
    (0x00001F97, 0x0001001C, "auipc t6, 0x1"),
    (0xABCDE617, 0x00010020, "auipc a2, 0xabcde"),
    (0x0000006F, 0x00010024, "jal zero, 00010024"),
    (0x008000EF, 0x00010028, "jal ra, 00010030"),
    (0x80000FEF, 0x0001002C, "jal t6, fff1002c"),
    (0x7FFFF06F, 0x00010030, "jal zero, 0011002e"),
    (0x00008067, 0x00010034, "jalr zero, 0(ra)"),
    (0x7FFF8FE7, 0x00010038, "jalr t6, 2047(t6)"),
    (0x800100E7, 0x0001003C, "jalr ra, -2048(sp)"),
    (0x008000EF, 0xFFFFFFFC, "jal ra, 00000004"),
];

const BRANCHES: [(u32, u32, &str); 19] = [
    (0x7FF00FE3, 0x00010000, "beq zero, t6, 00010ffe"),
    (0x81A38063, 0x00010004, "beq t2, s10, 0000f004"),
    (0x01570463, 0x00010008, "beq a4, s5, 00010010"),
    (0x7F0A9FE3, 0x0001000C, "bne s5, a6, 0001100a"),
    (0x80BE1063, 0x00010010, "bne t3, a1, 0000f010"),
    (0x00619463, 0x00010014, "bne gp, t1, 0001001c"),
    (0x7E154FE3, 0x00010018, "blt a0, ra, 00011016"),
    (0x81C8C063, 0x0001001C, "blt a7, t3, 0000f01c"),
    (0x017C4463, 0x00010020, "blt s8, s7, 00010028"),
    (0x7F2FDFE3, 0x00010024, "bge t6, s2, 00011022"),
    (0x80D35063, 0x00010028, "bge t1, a3, 0000f028"),
    (0x0086D463, 0x0001002C, "bge a3, s0, 00010034"),
    (0x7E3A6FE3, 0x00010030, "bltu s4, gp, 0001102e"),
    (0x81EDE063, 0x00010034, "bltu s11, t5, 0000f034"),
    (0x01916463, 0x00010038, "bltu sp, s9, 00010040"),
    (0x7F44FFE3, 0x0001003C, "bgeu s1, s4, 0001103a"),
    (0x80F87063, 0x00010040, "bgeu a6, a5, 0000f040"),
    (0x00ABF463, 0x00010044, "bgeu s7, a0, 0001004c"),
    (0x80A58063, 0x00000000, "beq a1, a0, fffff000"),
];

const LOADS_AND_STORES: [(u32, u32, &str); 24] = [
    (0x800F8003, 0x00010000, "lb zero, -2048(t6)"),
    (0x7FFA0183, 0x00010004, "lb gp, 2047(s4)"),
    (0xFFF48303, 0x00010008, "lb t1, -1(s1)"),
    (0x800F1483, 0x0001000C, "lh s1, -2048(t5)"),
    (0x7FF99603, 0x00010010, "lh a2, 2047(s3)"),
    (0xFFF41783, 0x00010014, "lh a5, -1(s0)"),
    (0x800EA903, 0x00010018, "lw s2, -2048(t4)"),
    (0x7FF92A83, 0x0001001C, "lw s5, 2047(s2)"),
    (0xFFF3AC03, 0x00010020, "lw s8, -1(t2)"),
    (0x800E4D83, 0x00010024, "lbu s11, -2048(t3)"),
    (0x7FF8CF03, 0x00010028, "lbu t5, 2047(a7)"),
    (0xFFF34083, 0x0001002C, "lbu ra, -1(t1)"),
    (0x800DD203, 0x00010030, "lhu tp, -2048(s11)"),
    (0x7FF85383, 0x00010034, "lhu t2, 2047(a6)"),
    (0xFFF2D503, 0x00010038, "lhu a0, -1(t0)"),
    (0x80DD0023, 0x0001003C, "sb a3, -2048(s10)"),
    (0x7F078FA3, 0x00010040, "sb a6, 2047(a5)"),
    (0xFF320FA3, 0x00010044, "sb s3, -1(tp)"),
    (0x816C9023, 0x00010048, "sh s6, -2048(s9)"),
    (0x7F971FA3, 0x0001004C, "sh s9, 2047(a4)"),
    (0xFFC19FA3, 0x00010050, "sh t3, -1(gp)"),
    (0x81FC2023, 0x00010054, "sw t6, -2048(s8)"),
    (0x7E26AFA3, 0x00010058, "sw sp, 2047(a3)"),
    (0xFE512FA3, 0x0001005C, "sw t0, -1(sp)"),
];

const IMMEDIATE: [(u32, u32, &str); 24] = [
    (0x800F8013, 0x00010000, "addi zero, t6, -2048"),
    (0x7FFF0093, 0x00010004, "addi ra, t5, 2047"),
    (0x000E8113, 0x00010008, "addi sp, t4, 0"),
    (0x800E2193, 0x0001000C, "slti gp, t3, -2048"),
    (0x7FFDA213, 0x00010010, "slti tp, s11, 2047"),
    (0x000D2293, 0x00010014, "slti t0, s10, 0"),
    (0x800CB313, 0x00010018, "sltiu t1, s9, -2048"),
    (0x7FFC3393, 0x0001001C, "sltiu t2, s8, 2047"),
    (0x000BB413, 0x00010020, "sltiu s0, s7, 0"),
    (0x800B4493, 0x00010024, "xori s1, s6, -2048"),
    (0x7FFAC513, 0x00010028, "xori a0, s5, 2047"),
    (0x000A4593, 0x0001002C, "xori a1, s4, 0"),
    (0x8009E613, 0x00010030, "ori a2, s3, -2048"),
    (0x7FF96693, 0x00010034, "ori a3, s2, 2047"),
    (0x0008E713, 0x00010038, "ori a4, a7, 0"),
    (0x80087793, 0x0001003C, "andi a5, a6, -2048"),
    (0x7FF7F813, 0x00010040, "andi a6, a5, 2047"),
    (0x00077893, 0x00010044, "andi a7, a4, 0"),
    (0x00069913, 0x00010048, "slli s2, a3, 0"),
    (0x01F61993, 0x0001004C, "slli s3, a2, 31"),
    (0x0005DA13, 0x00010050, "srli s4, a1, 0"),
    (0x01F55A93, 0x00010054, "srli s5, a0, 31"),
    (0x4004DB13, 0x00010058, "srai s6, s1, 0"),
    (0x41F45B93, 0x0001005C, "srai s7, s0, 31"),
];

const OPERATIONS: [(u32, u32, &str); 18] = [
    (0x002F8033, 0x00010000, "add zero, t6, sp"),
    (0x40F402B3, 0x00010004, "sub t0, s0, a5"),
    (0x01C89533, 0x00010008, "sll a0, a7, t3"),
    (0x009D27B3, 0x0001000C, "slt a5, s10, s1"),
    (0x0161BA33, 0x00010010, "sltu s4, gp, s6"),
    (0x00364CB3, 0x00010014, "xor s9, a2, gp"),
    (0x010ADF33, 0x00010018, "srl t5, s5, a6"),
    (0x41DF51B3, 0x0001001C, "sra gp, t5, t4"),
    (0x00A3E433, 0x00010020, "or s0, t2, a0"),
    (0x017876B3, 0x00010024, "and a3, a6, s7"),
    (0x024C8933, 0x00010028, "mul s2, s9, tp"),
    (0x03111BB3, 0x0001002C, "mulh s7, sp, a7"),
    (0x03E5AE33, 0x00010030, "mulhsu t3, a1, t5"),
    (0x02BA30B3, 0x00010034, "mulhu ra, s4, a1"),
    (0x038EC333, 0x00010038, "div t1, t4, s8"),
    (0x025355B3, 0x0001003C, "divu a1, t1, t0"),
    (0x0327E833, 0x00010040, "rem a6, a5, s2"),
    (0x03FC7AB3, 0x00010044, "remu s5, s8, t6"),
];

const ATOMIC: [(u32, u32, &str); 12] = [
    (0x100FA02F, 0x00010000, "lr.w zero, (t6)"),
    (0x10002FAF, 0x00010004, "lr.w t6, (zero)"),
    (0x19F1202F, 0x00010008, "sc.w zero, t6, (sp)"),
    (0x0887A2AF, 0x0001000C, "amoswap.w t0, s0, (a5)"),
    (0x011E252F, 0x00010010, "amoadd.w a0, a7, (t3)"),
    (0x21A4A7AF, 0x00010014, "amoxor.w a5, s10, (s1)"),
    (0x603B2A2F, 0x00010018, "amoand.w s4, gp, (s6)"),
    (0x40C1ACAF, 0x0001001C, "amoor.w s9, a2, (gp)"),
    (0x81582F2F, 0x00010020, "amomin.w t5, s5, (a6)"),
    (0xA1EEA1AF, 0x00010024, "amomax.w gp, t5, (t4)"),
    (0xC075242F, 0x00010028, "amominu.w s0, t2, (a0)"),
    (0xE10BA6AF, 0x0001002C, "amomaxu.w a3, a6, (s7)"),
];

const REGISTERS: [(u32, u32, &str); 32] = [
    (0x00000013, 0x00010000, "addi zero, zero, 0"),
    (0x00108093, 0x00010004, "addi ra, ra, 1"),
    (0x00210113, 0x00010008, "addi sp, sp, 2"),
    (0x00318193, 0x0001000C, "addi gp, gp, 3"),
    (0x00420213, 0x00010010, "addi tp, tp, 4"),
    (0x00528293, 0x00010014, "addi t0, t0, 5"),
    (0x00630313, 0x00010018, "addi t1, t1, 6"),
    (0x00738393, 0x0001001C, "addi t2, t2, 7"),
    (0x00840413, 0x00010020, "addi s0, s0, 8"),
    (0x00948493, 0x00010024, "addi s1, s1, 9"),
    (0x00A50513, 0x00010028, "addi a0, a0, 10"),
    (0x00B58593, 0x0001002C, "addi a1, a1, 11"),
    (0x00C60613, 0x00010030, "addi a2, a2, 12"),
    (0x00D68693, 0x00010034, "addi a3, a3, 13"),
    (0x00E70713, 0x00010038, "addi a4, a4, 14"),
    (0x00F78793, 0x0001003C, "addi a5, a5, 15"),
    (0x01080813, 0x00010040, "addi a6, a6, 16"),
    (0x01188893, 0x00010044, "addi a7, a7, 17"),
    (0x01290913, 0x00010048, "addi s2, s2, 18"),
    (0x01398993, 0x0001004C, "addi s3, s3, 19"),
    (0x014A0A13, 0x00010050, "addi s4, s4, 20"),
    (0x015A8A93, 0x00010054, "addi s5, s5, 21"),
    (0x016B0B13, 0x00010058, "addi s6, s6, 22"),
    (0x017B8B93, 0x0001005C, "addi s7, s7, 23"),
    (0x018C0C13, 0x00010060, "addi s8, s8, 24"),
    (0x019C8C93, 0x00010064, "addi s9, s9, 25"),
    (0x01AD0D13, 0x00010068, "addi s10, s10, 26"),
    (0x01BD8D93, 0x0001006C, "addi s11, s11, 27"),
    (0x01CE0E13, 0x00010070, "addi t3, t3, 28"),
    (0x01DE8E93, 0x00010074, "addi t4, t4, 29"),
    (0x01EF0F13, 0x00010078, "addi t5, t5, 30"),
    (0x01FF8F93, 0x0001007C, "addi t6, t6, 31"),
];

/// The first text that its word does not have at its address.
fn first_other(rows: &[(u32, u32, &'static str)]) -> Option<&'static str> {
    for (w, a, text) in rows {
        if text_of(*w, *a).as_bytes() != text.as_bytes() {
            return Some(text);
        }
    }
    None
}

#[test]
fn each_instruction_has_its_name_and_its_operands(rt: HostRuntime) {
    assert_eq!(rt; first_other(&UPPER_AND_JUMPS), None);
    assert_eq!(rt; first_other(&BRANCHES), None);
    assert_eq!(rt; first_other(&LOADS_AND_STORES), None);
    assert_eq!(rt; first_other(&IMMEDIATE), None);
    assert_eq!(rt; first_other(&OPERATIONS), None);
    assert_eq!(rt; first_other(&ATOMIC), None);
    assert_eq!(rt; first_other(&REGISTERS), None);
}

/// FENCE has its name alone, whatever its fields; aq and rl are not told; FENCE.I, CSRRW and zeros are no
/// instructions of RV32IMA.
#[test]
fn single_words_have_a_name_alone(rt: HostRuntime) {
    let rows = [
        (0x0FF0000F, 0, "fence"),
        (0x8330000F, 0, "fence"),
        (0x00000073, 0, "ecall"),
        (0x00100073, 0, "ebreak"),
        (0x06C5A52F, 0, "amoadd.w a0, a2, (a1)"),
        (0x00000000, 0, ".word"),
        (0xFFFFFFFF, 0, ".word"),
        (0x0000100F, 0, ".word"),
        (0x30529073, 0, ".word"),
    ];
    assert_eq!(rt; first_other(&rows), None);
}

#[test]
fn a_step_has_its_address_its_word_and_its_text(rt: HostRuntime) {
    let rows = [
        (
            0x10000,
            Some(0x05D00893),
            "00010000 05d00893 addi a7, zero, 93\n",
        ),
        (
            0x10004,
            Some(0x00700513),
            "00010004 00700513 addi a0, zero, 7\n",
        ),
        (0x10008, Some(0x00000073), "00010008 00000073 ecall\n"),
        (0xFFFFFFFC, Some(0xFFFFFFFF), "fffffffc ffffffff .word\n"),
        (0x20000, None, "00020000 -------- outside\n"),
    ];
    for (a, w, line) in rows {
        assert_eq!(rt; trace_line(a, w).as_bytes(), line.as_bytes(), "{a}");
    }
}

/// Exits with 7.
const SEVEN: [u32; 3] = [0x05D00893, 0x00700513, 0x00000073];

/// Its image of one block of 8 words, version 1.
const FIRST: [u32; 18] = [
    0x31434953, 1, 8, 1, 3, 0x10000, 0, 0, 1, 2, 0x05D00893, 0x00700513, 0x00000073, 0x00100073,
    0x0001000C, 0, 0, 0,
];

const FIRST_LINES: &str = "0 0 05d00893 00010000 addi a7, zero, 93\n\
    0 1 00700513 00010004 addi a0, zero, 7\n\
    0 2 00000073 00010008 ecall\n\
    0 3 00100073 00010008 fall\n\
    0 4 0001000c 00010008 .\n\
    0 5 00000000 -------- pad\n\
    0 6 00000000 -------- pad\n\
    0 7 00000000 -------- pad\n";

/// Calls its fifth word by a JALR, and its image of three blocks, version 2.
const CALLS: [u32; 6] = [
    0x00000097, 0x00C080E7, 0, 0x05D00893, 0x00008513, 0x00000073,
];

const THREE: [u32; 32] = [
    0x31434953, 2, 5, 3, 6, 0x10000, 0, 2, 4, 5, 10, 14, 0, 2, 0, 2, 0, 1, 0x000100B7, 0x00008093,
    0x00100073, 0x00C080E7, 0x00010008, 0x00100073, 0x00010009, 0x05D00893, 0x00100073, 0x00010010,
    0x00008513, 0x00000073, 0x00100073, 0x00010018,
];

const THREE_LINES: [&str; 3] = [
    "0 0 000100b7 00010000 auipc ra, 0x0\n\
    0 1 00008093 00010000 .\n\
    0 2 00100073 00010004 jalr ra, 12(ra)\n\
    0 3 00c080e7 00010004 .\n\
    0 4 00010008 00010004 .\n",
    "1 0 00100073 00010008 .word\n\
    1 1 00010009 00010008 .\n\
    1 2 05d00893 0001000c addi a7, zero, 93\n\
    1 3 00100073 0001000c fall\n\
    1 4 00010010 0001000c .\n",
    "2 0 00008513 00010010 addi a0, ra, 0\n\
    2 1 00000073 00010014 ecall\n\
    2 2 00100073 00010014 fall\n\
    2 3 00010018 00010014 .\n",
];

/// The listing of a block of this image of the program, on a sink of which one call fails.
fn listed_on(
    alloc: Global,
    program: &Program<'_>,
    view: &ImageView<'_>,
    block: u32,
    failing: u32,
) -> Result<(bool, MemSink), Fail> {
    if check(program, view).is_err() || block >= view.blocks() {
        return Err(Fail::from("no image of the program"));
    }
    let mut sink = MemSink::new(alloc, 1000, [failing].to_vec(alloc)?)?;
    let is_ok = list_block(program, view, block, &mut sink).is_ok();
    Ok((is_ok, sink))
}

/// The same from the words of a text and of its image.
fn listed(
    alloc: Global,
    text: &[u32],
    image: &[u32],
    block: u32,
    failing: u32,
) -> Result<(bool, MemSink), Fail>
    requires some { 0 < length text.now }
    requires few { length text.now ≤ 8 }
    requires short { length image.now ≤ 32 }
{
    let text = bytes_of(alloc, text)?;
    let program = one_text(alloc, 0x10000, &text)?;
    let bytes = bytes_of(alloc, image)?;
    if bytes.len() > 128 {
        return Err(Fail::from("too long"));
    }
    let view = read_image(&bytes).ok().ok_or("no image")?;
    listed_on(alloc, &program, &view, block, failing)
}

#[test]
fn a_listing_has_a_line_for_each_word_of_the_block(rt: HostRuntime) -> Result<(), Fail> {
    let alloc = rt.alloc();
    let (is_ok, sink) = listed(alloc, &SEVEN, &FIRST, 0, 0)?;
    assert!(rt; is_ok);
    assert_eq!(rt; sink.held(), FIRST_LINES.as_bytes());
    let mut block = 0;
    for lines in THREE_LINES {
        let (is_ok, sink) = listed(alloc, &CALLS, &THREE, block, 0)?;
        assert!(rt; is_ok);
        assert_eq!(rt; sink.held(), lines.as_bytes(), "{block}");
        block = block.saturating_add(1);
    }
    Ok(())
}

#[test]
fn each_line_of_a_listing_is_one_write_and_none_follows_a_failed_one(
    rt: HostRuntime,
) -> Result<(), Fail> {
    let alloc = rt.alloc();
    let mut bytes = 0u64;
    let mut call = 1u32;
    for line in FIRST_LINES.lines() {
        let (is_ok, sink) = listed(alloc, &SEVEN, &FIRST, 0, call)?;
        assert!(rt; !is_ok, "{call}");
        assert_eq!(rt; sink.held().len() as u64, bytes, "{call}");
        assert!(rt; FIRST_LINES.as_bytes().starts_with(sink.held()), "{call}");
        bytes = bytes.saturating_add(line.len() as u64 + 1);
        call = call.saturating_add(1);
    }
    let (is_ok, _) = listed(alloc, &SEVEN, &FIRST, 0, call)?;
    assert!(rt; is_ok);
    Ok(())
}

#[test]
fn a_history_keeps_the_last_32_addresses_the_oldest_first(rt: HostRuntime) -> Result<(), Fail> {
    let mut history = History::new(rt.alloc())?;
    assert_eq!(rt; history.len(), 0);
    assert_eq!(rt; history.get(0), None);
    for k in 0..100u32 {
        history.push(4 * k);
        let len = (k + 1).min(32);
        assert_eq!(rt; history.len(), len, "{k}");
        assert_eq!(rt; history.get(0), Some(4 * (k + 1 - len)), "{k}");
        assert_eq!(rt; history.get(len - 1), Some(4 * k), "{k}");
        assert_eq!(rt; history.get(len), None, "{k}");
    }
    Ok(())
}
