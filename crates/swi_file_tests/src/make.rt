//! Programs whose words a script outside made, from the description alone.
#![tactic(auto)]

use std::alloc::Global;
use std::test::Fail;
use swi_make::{BASE, make};
use swi_program::{Program, one_text};

/// Where the text of a program begins, and its words.
fn text_said(alloc: Global, program: &Program<'_>) -> Result<(u32, Vec<u32>), Fail> {
    let text = program.text();
    let mut words = Vec::new(alloc);
    for k in 0..text.len() {
        words.push(text.word(k))?;
    }
    Ok((text.base(), words))
}

/// The program of this seed and so many functions, 1 to 4096: its entry, its flags, how many segments it has, where its
/// text begins, and its words.
fn made(
    alloc: Global,
    seed: u32,
    functions: u32,
) -> Result<((u32, u32, usize), u32, Vec<u32>), Fail> {
    if functions < 1 || functions > 4096 {
        return Err(Fail::from("no row"));
    }
    let text = make(alloc, seed, functions)?;
    let program = one_text(alloc, BASE, &text)?;
    let head = (program.entry(), program.flags(), program.segments().len());
    let (base, words) = text_said(alloc, &program)?;
    Ok((head, base, words))
}

/// A seed, how many functions, and the words.
static SMALL: [(u32, u32, &[u32]); 2] = [
    (
        1,
        1,
        &[
            0x00800413, 0x018000EF, 0xFFF40413, 0x00040463, 0xFF5FF06F, 0x05D00893, 0x00000073,
            0xFF010113, 0x00112623, 0x00150513, 0x00150513, 0x00150513, 0x00150513, 0x00C12083,
            0x01010113, 0x00008067,
        ],
    ),
    (
        2,
        3,
        &[
            0x00800413, 0x020000EF, 0x040000EF, 0x070000EF, 0xFFF40413, 0x00040463, 0xFEDFF06F,
            0x05D00893, 0x00000073, 0xFF010113, 0x00112623, 0x00150513, 0x00150513, 0x00150513,
            0x00150513, 0x00C12083, 0x01010113, 0x00008067, 0xFF010113, 0x00112623, 0x00150513,
            0x00150513, 0x00150513, 0x00150513, 0x00150513, 0x00150513, 0x00150513, 0x00150513,
            0x00C12083, 0x01010113, 0x00008067, 0xFF010113, 0x00112623, 0x00150513, 0x00150513,
            0x00150513, 0x00150513, 0x00C12083, 0x01010113, 0x00008067,
        ],
    ),
];

#[test]
fn small_programs_have_the_words_of_the_script(rt: HostRuntime) -> Result<(), Fail> {
    for &(seed, functions, want) in SMALL.iter() {
        let (head, base, words) = made(rt.alloc(), seed, functions)?;
        assert_eq!(rt;
            (head, base),
            ((0x10000, 0, 1), 0x10000),
            "{seed} {functions}"
        );
        assert_eq!(rt; words.as_slice(), want, "{seed} {functions}");
    }
    Ok(())
}

/// The words as one number: 31 times what those before give, plus the word, modulo 2^32.
fn folded(words: &[u32]) -> u32 {
    words.iter().fold(0, |sum: u32, word| sum.wrapping_mul(31).wrapping_add(*word))
}

/// A seed, how many functions, how many words, and the words as one number.
static LARGE: [(u32, u32, usize, u32); 9] = [
    (0, 1, 16, 0x64722624),
    (2, 3, 40, 0xF093B6A4),
    (7, 2048, 29394, 0x77DB23A4),
    (0xFFFFFFFF, 5, 70, 0xEE9C6E1C),
    (12345, 17, 245, 0xE1AE0007),
    (99, 64, 947, 0xA65F139F),
    (3, 4096, 59021, 0x3986A00F),
    (0x80000000, 1000, 14511, 0xF2AF0F67),
    (42, 255, 3812, 0x4C03D184),
];

#[test]
fn programs_of_many_functions_have_the_words_of_the_script(rt: HostRuntime) -> Result<(), Fail> {
    for &(seed, functions, count, sum) in LARGE.iter() {
        let (_, _, words) = made(rt.alloc(), seed, functions)?;
        assert_eq!(rt;
            (words.len(), folded(&words)),
            (count, sum),
            "{seed} {functions}"
        );
    }
    Ok(())
}
