//! Rows of texts and their images.

use crate::bytes::bytes_of;
use std::alloc::Global;
use std::test::Fail;
use swi_cut::{CutRefusal, Cutting, cut, cut_by, upgrade};
use swi_image::Image;
use swi_program::one_text;

/// Exits with 7.
const SEVEN: [u32; 3] = [0x05D00893, 0x00700513, 0x00000073];

/// Counts x5 down from 3 and exits.
const COUNTS: [u32; 5] = [0x00300293, 0xFFF28293, 0xFE029EE3, 0x05D00893, 0x00000073];

/// Calls its fifth word by a JALR.
const CALLS: [u32; 6] = [
    0x00000097, 0x00C080E7, 0, 0x05D00893, 0x00008513, 0x00000073,
];

/// The words of an image.
fn words_of(alloc: Global, image: &Image) -> Result<Vec<u32>, Fail> {
    let mut words = Vec::new(alloc);
    for chunk in image.bytes().chunks_exact(4) {
        words.push(u32::from_le_bytes([chunk[0], chunk[1], chunk[2], chunk[3]]))?;
    }
    Ok(words)
}

/// What the program of these words is cut into.
fn cut_words(alloc: Global, text: &[u32], most: u32) -> Result<Result<Vec<u32>, CutRefusal>, Fail> {
    if text.is_empty() || text.len() > 8 || most < 2 || most > 1024 {
        return Err(Fail::from("no row"));
    }
    let text = bytes_of(alloc, text)?;
    let program = one_text(alloc, 0x10000, &text)?;
    match cut(alloc, &program, most) {
        Ok(image) => Ok(Ok(words_of(alloc, &image)?)),
        Err(refusal) => Ok(Err(refusal)),
    }
}

const ONE_BLOCK: [u32; 16] = [
    0x31434953, 2, 8, 1, 3, 0x00010000, 0, 5, 0, 1, 2, 0x05D00893, 0x00700513, 0x00000073,
    0x00100073, 0x0001000C,
];

const EXACTLY_FULL: [u32; 16] = [
    0x31434953, 2, 5, 1, 3, 0x00010000, 0, 5, 0, 1, 2, 0x05D00893, 0x00700513, 0x00000073,
    0x00100073, 0x0001000C,
];

const THREE_BLOCKS: [u32; 32] = [
    0x31434953, 2, 5, 3, 6, 0x00010000, 0, 2, 4, 5, 10, 14, 0, 2, 0, 2, 0, 1, 0x000100B7,
    0x00008093, 0x00100073, 0x00C080E7, 0x00010008, 0x00100073, 0x00010009, 0x05D00893, 0x00100073,
    0x00010010, 0x00008513, 0x00000073, 0x00100073, 0x00010018,
];

/// A text, the most words of a block, and the image.
static IMAGES: [(&[u32], u32, &[u32]); 3] = [
    (&SEVEN, 8, &ONE_BLOCK),
    (&SEVEN, 5, &EXACTLY_FULL),
    (&CALLS, 5, &THREE_BLOCKS),
];

#[test]
fn texts_are_cut_into_full_blocks(rt: HostRuntime) -> Result<(), Fail> {
    for &(text, most, want) in IMAGES.iter() {
        let want = Vec::from_slice(rt.alloc(), want)?;
        assert_eq!(rt; cut_words(rt.alloc(), text, most)?, Ok(want));
    }
    Ok(())
}

/// A text, the most words of a block, and the address of the word that doesn't fit and how many it needs.
static LONG: [(&[u32], u32, u32, u32); 3] = [
    (&COUNTS, 4, 0x10008, 5),
    (&COUNTS, 2, 0x10000, 3),
    (&CALLS, 2, 0x10000, 4),
];

#[test]
fn word_that_does_not_fit_is_refused(rt: HostRuntime) -> Result<(), Fail> {
    for &(text, most, address, needs) in LONG.iter() {
        let refusal = CutRefusal::Long { address, needs };
        assert_eq!(rt; cut_words(rt.alloc(), text, most)?, Err(refusal));
    }
    Ok(())
}

#[test]
fn version_2_is_upgraded_to_itself(rt: HostRuntime) -> Result<(), Fail> {
    let text = bytes_of(rt.alloc(), &CALLS)?;
    let program = one_text(rt.alloc(), 0x10000, &text)?;
    let Ok(image) = cut(rt.alloc(), &program, 5) else {
        return Err(Fail::from("no image"));
    };
    let again = upgrade(rt.alloc(), &program, &image.view())?;
    assert_eq!(rt; again.bytes(), image.bytes());
    Ok(())
}

/// A: ADDI x5, x5, 1; LR.W x5, (x11); SC.W x6, x5, (x11); BNE x5, x7, 16.
const A: u32 = 0x00128293;

const LR: u32 = 0x1005A2AF;

const SC: u32 = 0x1855A32F;

const BNE: u32 = 0x00729863;

/// With which text words the blocks begin.
fn starts_of(alloc: Global, text: &[u32], most: u32, cutting: Cutting) -> Result<Vec<u32>, Fail> {
    if text.is_empty() || text.len() > 32 || most < 2 || most > 1024 {
        return Err(Fail::from("no row"));
    }
    let text = bytes_of(alloc, text)?;
    let program = one_text(alloc, 0x10000, &text)?;
    let mut starts = Vec::new(alloc);
    let Ok(image) = cut_by(alloc, &program, most, cutting) else {
        return Err(Fail::from("no image"));
    };
    let view = image.view();
    for block in 0..view.blocks() {
        starts.push(view.first(block))?;
    }
    Ok(starts)
}

/// A text, the most words of a block, and with which text words the blocks begin, greedily and with whole loops.
static STARTS: [(&[u32], u32, &[u32], &[u32]); 14] = [
    // An LR.W three words before the cut.
    (&[A, A, A, LR, A, A, A, SC, A], 8, &[0, 6], &[0, 3]),
    // Longer than a block; exactly a block.
    (&[A, LR, A, A, A, A, A, SC, A], 8, &[0, 6], &[0, 6]),
    (&[A, LR, A, A, A, A, SC, A], 8, &[0, 6], &[0, 1, 7]),
    (&[LR, A, A, A, A, A, SC, A], 8, &[0, 6], &[0, 6]),
    // Two sequences.
    (&[A, LR, SC, LR, SC, A, A, A], 8, &[0, 6], &[0, 6]),
    (&[A, A, LR, SC, A, LR, SC, A], 8, &[0, 6], &[0, 5]),
    (&[A, LR, A, A, A, LR, SC, LR, SC], 7, &[0, 5], &[0, 5]),
    // No SC.W within 16 words, or one in the last of them.
    (&[A, A, A, LR, A, A, A, A, A], 8, &[0, 6], &[0, 6]),
    (
        &[
            A, A, A, A, A, A, A, A, LR, A, A, A, A, A, A, A, A, A, A, A, A, A, A, A, SC,
        ],
        24,
        &[0, 22],
        &[0, 22],
    ),
    (
        &[
            A, A, A, A, A, A, A, A, LR, A, A, A, A, A, A, A, A, A, A, A, A, A, A, SC,
        ],
        24,
        &[0, 22],
        &[0, 8],
    ),
    // A branch out of the loop.
    (&[A, A, A, LR, BNE, SC, A], 8, &[0, 4], &[0, 3]),
    // An SC.W before an LR.W; an LR.W behind an LR.W.
    (&[A, A, A, A, SC, LR, A, A], 8, &[0, 6], &[0, 6]),
    (&[A, A, A, A, A, LR, LR, SC], 8, &[0, 6], &[0, 6]),
    (&[A, A, A, LR, LR, A, SC, A], 8, &[0, 6], &[0, 4]),
];

#[test]
fn sequences_stay_in_one_block(rt: HostRuntime) -> Result<(), Fail> {
    for &(text, most, greedy, whole) in STARTS.iter() {
        let starts = starts_of(rt.alloc(), text, most, Cutting::Greedy)?;
        assert_eq!(rt; starts.as_slice(), greedy);
        let starts = starts_of(rt.alloc(), text, most, Cutting::WholeLoops)?;
        assert_eq!(rt; starts.as_slice(), whole);
    }
    Ok(())
}
