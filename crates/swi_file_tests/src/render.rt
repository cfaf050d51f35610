use crate::bytes::bytes_of;
use std::test::Fail;
use swi_isa::EBREAK;
use swi_program::one_text;
use swi_render::Part::{self, *};
use swi_render::{
    Sizes, address_of, exit_behind, falls, needs, part, render, render_word, sizes_of,
};

/// ECALL, and an illegal word.
const ECALL: u32 = 0x0000_0073;

const ILLEGAL: u32 = 0;

/// FENCE, as the assembler writes it.
const FENCE: u32 = 0x0FF0_000F;

/// A word, its address, and the words of its rendering.
static RENDERED: [(u32, u32, &[u32]); 16] = [
    (0x05D00893, 0x10000, &[0x05D00893]),
    (ECALL, 0x10008, &[ECALL]),
    (FENCE, 0x10008, &[FENCE]),
    // the last value that is not rounded up, as `li a0, 0x107ff`, and the first that is
    (0x00000517, 0x107FF, &[0x00010537, 0x7FF50513]),
    (0x00000517, 0x10800, &[0x00011537, 0x80050513]),
    (0x00000517, 0x7FFFF800, &[0x80000537, 0x80050513]),
    (0x00000517, 0xFFFFF800, &[0x00000537, 0x80050513]),
    (0xFF9FF06F, 0x10008, &[EBREAK, 0x00010000]),
    (
        0x008000EF,
        0x10000,
        &[0x000100B7, 0x00408093, EBREAK, 0x00010008],
    ),
    (0x006000EF, 0x10000, &[EBREAK, 0x00010006]),
    (0x0060006F, 0x10000, &[EBREAK, 0x00010006]),
    (0xFE029EE3, 0x10008, &[0x00028663, EBREAK, 0x00010004]),
    (0x00001363, 0x10000, &[0x00000663, EBREAK, 0x00010006]),
    (0x00C080E7, 0x10004, &[EBREAK, 0x00C080E7, 0x00010008]),
    (EBREAK, 0x10004, &[EBREAK, 0x00010005]),
    (ILLEGAL, 0x10000, &[EBREAK, 0x00010001]),
];

#[test]
fn each_case_has_its_words(rt: HostRuntime) -> Result<(), Fail> {
    for &(w, a, want) in RENDERED.iter() {
        let got = render(w, a);
        assert_eq!(rt; got.as_slice(), want, "{w:08x} at {a:08x}");
    }
    Ok(())
}

#[test]
fn each_branch_is_skipped_by_its_opposite(rt: HostRuntime) -> Result<(), Fail> {
    let pairs = [(0, 1), (1, 0), (4, 5), (5, 4), (6, 7), (7, 6)];
    for (condition, opposite) in pairs {
        let got = render(0x00000463 + (condition << 12), 0x10000);
        let want = [0x00000663 + (opposite << 12), EBREAK, 0x00010008];
        assert_eq!(rt; got.as_slice(), &want[..], "condition {condition}");
    }
    Ok(())
}

/// A word, whether it falls through, and the parts of its rendering.
static PARTS: [(u32, bool, &[Part]); 11] = [
    (0x05D00893, true, &[Step, Fall, Inert]),
    (ECALL, true, &[Step, Fall, Inert]),
    (FENCE, true, &[Step, Fall, Inert]),
    (0x00000517, true, &[Lead, Step, Fall, Inert]),
    (0x0000006F, false, &[Leave, Inert]),
    (0x008000EF, false, &[Lead, Lead, Leave, Inert]),
    (0x006000EF, false, &[Misaligned, Inert]),
    (0xFE029EE3, true, &[Skip, Leave, Inert, Fall, Inert]),
    (0x00C080E7, false, &[Indirect, Inert, Inert]),
    (EBREAK, false, &[Trap, Inert]),
    (ILLEGAL, false, &[Trap, Inert]),
];

#[test]
fn each_case_has_its_parts(rt: HostRuntime) -> Result<(), Fail> {
    let a = 0x10000;
    for &(w, goes_on, want) in PARTS.iter() {
        assert_eq!(rt; falls(w, a), goes_on, "{w:08x}");
        assert_eq!(rt; needs(w, a) as usize, want.len(), "{w:08x}");
        for (at, does) in want.iter().enumerate() {
            assert_eq!(rt; part(w, a, at as u32), *does, "{w:08x} at {at}");
        }
        assert_eq!(rt; part(w, a, 5), Inert, "{w:08x}");
    }
    Ok(())
}

#[test]
fn words_of_a_text_are_found_by_number(rt: HostRuntime) -> Result<(), Fail> {
    let words = [0x05D00893, FENCE, ECALL, ILLEGAL];
    let bytes = bytes_of(rt.alloc(), &words)?;
    let Ok(program) = one_text(rt.alloc(), 0x10000, &bytes) else {
        return Ok(())
    };
    let text = program.text();
    if text.len() != 4 {
        return Ok(());
    }
    assert_eq!(rt; address_of(&text, 2), 0x10008);
    assert_eq!(rt; sizes_of(&text, 2), Sizes { len: 1, needs: 3 });
    assert_eq!(rt; render_word(&text, 2).as_slice(), &[ECALL][..]);
    assert_eq!(rt; exit_behind(&text, 1), Some([EBREAK, 0x10008]));
    assert_eq!(rt; exit_behind(&text, 2), Some([EBREAK, 0x1000C]));
    assert_eq!(rt; exit_behind(&text, 3), None);
    Ok(())
}
