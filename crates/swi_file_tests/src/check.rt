//! Rows of images, and what is wrong with them.

use self::Answer::*;
use crate::bytes::{bytes_of, changed};
use std::alloc::Global;
use std::test::Fail;
use swi_check::{Mismatch, check};
use swi_image::{ImageRefusal, read_image};
use swi_program::one_text;

/// Exits with 7.
const SEVEN: [u32; 3] = [0x05D00893, 0x00700513, 0x00000073];

/// Its image of one block of 8 words, version 1.
const FIRST: [u32; 18] = [
    0x31434953, 1, 8, 1, 3, 0x10000, 0, 0, 1, 2, 0x05D00893, 0x00700513, 0x00000073, 0x00100073,
    0x0001000C, 0, 0, 0,
];

/// The same, version 2.
const SECOND: [u32; 16] = [
    0x31434953, 2, 8, 1, 3, 0x10000, 0, 5, 0, 1, 2, 0x05D00893, 0x00700513, 0x00000073, 0x00100073,
    0x0001000C,
];

/// Images that are cut off.
const FIRST_CUT: [u32; 17] = [
    0x31434953, 1, 8, 1, 3, 0x10000, 0, 0, 1, 2, 0x05D00893, 0x00700513, 0x00000073, 0x00100073,
    0x0001000C, 0, 0,
];

const SECOND_CUT: [u32; 15] = [
    0x31434953, 2, 8, 1, 3, 0x10000, 0, 5, 0, 1, 2, 0x05D00893, 0x00700513, 0x00000073, 0x00100073,
];

/// An image of the first two words.
const SHORTER: [u32; 17] = [
    0x31434953, 1, 8, 1, 2, 0x10000, 0, 0, 1, 0x05D00893, 0x00700513, 0x00100073, 0x00010008, 0, 0,
    0, 0,
];

/// A block of 4 words, where the text needs 5.
const NARROW: [u32; 14] = [
    0x31434953, 1, 4, 1, 3, 0x10000, 0, 0, 1, 2, 0x05D00893, 0x00700513, 0x00000073, 0x00100073,
];

/// Calls its fifth word by a JALR, and its image of three blocks, two of them full.
const CALLS: [u32; 6] = [
    0x00000097, 0x00C080E7, 0, 0x05D00893, 0x00008513, 0x00000073,
];

const THREE: [u32; 32] = [
    0x31434953, 2, 5, 3, 6, 0x10000, 0, 2, 4, 5, 10, 14, 0, 2, 0, 2, 0, 1, 0x000100B7, 0x00008093,
    0x00100073, 0x00C080E7, 0x00010008, 0x00100073, 0x00010009, 0x05D00893, 0x00100073, 0x00010010,
    0x00008513, 0x00000073, 0x00100073, 0x00010018,
];

/// Two additions, LR.W, SC.W and an addition; their greedy cut, and the one before the LR.W.
const ATOMIC: [u32; 5] = [0x00128293, 0x00128293, 0x1005A2AF, 0x1855A32F, 0x00128293];

const GREEDY: [u32; 24] = [
    0x31434953, 2, 5, 2, 5, 0x10000, 0, 3, 5, 9, 0, 1, 2, 0, 1, 0x00128293, 0x00128293, 0x1005A2AF,
    0x00100073, 0x0001000C, 0x1855A32F, 0x00128293, 0x00100073, 0x00010014,
];

const WHOLE: [u32; 24] = [
    0x31434953, 2, 5, 2, 5, 0x10000, 0, 2, 4, 9, 0, 1, 0, 1, 2, 0x00128293, 0x00128293, 0x00100073,
    0x00010008, 0x1005A2AF, 0x1855A32F, 0x00128293, 0x00100073, 0x00010014,
];

#[derive(Clone, Copy, PartialEq, Eq, Debug)]
enum Answer {
    Refused(ImageRefusal),
    Differs(Mismatch),
    Fits,
}

/// What the checks say of these image words, some of them changed, over the program of these text words.
fn checked(
    alloc: Global,
    text: &[u32],
    image: &[u32],
    changes: &[(usize, u32)],
) -> Result<Answer, Fail> {
    let image = changed(alloc, image, changes)?;
    if text.is_empty() || text.len() > 8 || image.len() > 32 {
        return Err(Fail::from("no row"));
    }
    let text = bytes_of(alloc, text)?;
    let program = one_text(alloc, 0x10000, &text)?;
    let image = bytes_of(alloc, &image)?;
    match read_image(&image) {
        Ok(view) => match check(&program, &view) {
            Ok(()) => Ok(Fits),
            Err(mismatch) => Ok(Differs(mismatch)),
        },
        Err(refusal) => Ok(Refused(refusal)),
    }
}

/// A text, an image of it, the words of it that are others, and what the checks say.
static ROWS: [(&[u32], &[u32], &[(usize, u32)], Answer); 13] = [
    (&SEVEN, &FIRST, &[], Fits),
    (&SEVEN, &SECOND, &[], Fits),
    (&CALLS, &THREE, &[], Fits),
    (&ATOMIC, &GREEDY, &[], Fits),
    (&ATOMIC, &WHOLE, &[], Fits),
    (
        &SEVEN,
        &FIRST,
        &[(11, 0x00800513)],
        Differs(Mismatch::Word {
            block: 0,
            offset: 1,
            held: 0x00800513,
            required: 0x00700513,
        }),
    ),
    (
        &CALLS,
        &THREE,
        &[(23, 0), (31, 0)],
        Differs(Mismatch::Word {
            block: 1,
            offset: 0,
            held: 0,
            required: 0x00100073,
        }),
    ),
    // the first difference is told
    (
        &SEVEN,
        &FIRST,
        &[(5, 0xFFFFFFFF), (10, 0)],
        Differs(Mismatch::Cover { address: 0x10000 }),
    ),
    (
        &SEVEN,
        &SHORTER,
        &[],
        Differs(Mismatch::Cover { address: 0x10008 }),
    ),
    (
        &SEVEN,
        &FIRST,
        &[(9, 3), (10, 0)],
        Differs(Mismatch::Place {
            address: 0x10008,
            held: 3,
            required: 2,
        }),
    ),
    (
        &SEVEN,
        &NARROW,
        &[(10, 0)],
        Differs(Mismatch::Long { block: 0, needs: 5 }),
    ),
    (
        &SEVEN,
        &SECOND_CUT,
        &[(7, 4), (11, 0)],
        Differs(Mismatch::Length {
            block: 0,
            held: 4,
            required: 5,
        }),
    ),
    (
        &SEVEN,
        &FIRST_CUT,
        &[(10, 0)],
        Refused(ImageRefusal::Length(17)),
    ),
];

#[test]
fn images_fit_or_their_first_difference_is_told(rt: HostRuntime) -> Result<(), Fail> {
    for (k, &(text, image, changes, answer)) in ROWS.iter().enumerate() {
        let given = checked(rt.alloc(), text, image, changes)?;
        assert_eq!(rt; given, answer, "row {k}");
    }
    Ok(())
}

#[test]
fn each_word_of_a_block_is_looked_at(rt: HostRuntime) -> Result<(), Fail> {
    for offset in 0..8 {
        let at = 10 + offset;
        let given = checked(rt.alloc(), &SEVEN, &FIRST, &[(at, 0xFFFFFFFF)])?;
        let wrong = Mismatch::Word {
            block: 0,
            offset: offset as u32,
            held: 0xFFFFFFFF,
            required: FIRST[at],
        };
        assert_eq!(rt; given, Differs(wrong));
    }
    Ok(())
}
