use crate::bytes::changed;
use std::alloc::Global;
use std::test::Fail;
use swi_image::{Image, ImageRefusal, ImageView, read_image};

/// Three text words in one block of 8 words, version 1: by hand from the format's table.
const WHOLE: [u32; 18] = [
    0x31434953, 1, 8, 1, 3, 0x00010000, 0, 0, 1, 2, 0x05D00893, 0x00700513, 0x00000073, 0x00100073,
    0x0001000C, 0, 0, 0,
];

/// The same text, version 2: the block has the five words that it needs.
const EXACT: [u32; 16] = [
    0x31434953, 2, 8, 1, 3, 0x00010000, 0, 5, 0, 1, 2, 0x05D00893, 0x00700513, 0x00000073,
    0x00100073, 0x0001000C,
];

/// Six text words in three blocks of 5, 5 and 4 words, version 2: by hand from the format's table.
const THREE: [u32; 32] = [
    0x31434953, 2, 5, 3, 6, 0x00010000, 0, 2, 4, 5, 10, 14, 0, 2, 0, 2, 0, 1, 0x000100B7,
    0x00008093, 0x00100073, 0x00C080E7, 0x00010008, 0x00100073, 0x00010009, 0x05D00893, 0x00100073,
    0x00010010, 0x00008513, 0x00000073, 0x00100073, 0x00010018,
];

/// The same blocks, version 1: each has five words.
const THREE_WHOLE: [u32; 30] = [
    0x31434953, 1, 5, 3, 6, 0x00010000, 0, 2, 4, 0, 2, 0, 2, 0, 1, 0x000100B7, 0x00008093,
    0x00100073, 0x00C080E7, 0x00010008, 0x00100073, 0x00010009, 0x05D00893, 0x00100073, 0x00010010,
    0x00008513, 0x00000073, 0x00100073, 0x00010018, 0,
];

const ONES: u32 = 0xFFFF_FFFF;

/// The bytes of these words behind one byte more, so that they begin at an odd address.
fn behind_one(alloc: Global, words: &[u32]) -> Result<Vec<u8>, Fail> {
    let mut bytes = Vec::new(alloc);
    bytes.push(0xEE)?;
    for word in words {
        bytes.extend_from_slice(&word.to_le_bytes())?;
    }
    Ok(bytes)
}

/// The first check that the bytes fail.
fn refusal_of(bytes: &[u8]) -> Option<ImageRefusal> {
    read_image(&bytes[..bytes.len().min(1 << 23)]).err()
}

/// The first check that these words fail.
fn refusal_of_words(alloc: Global, words: &[u32]) -> Result<Option<ImageRefusal>, Fail> {
    let bytes = behind_one(alloc, words)?;
    Ok(bytes.get(1..).and_then(refusal_of))
}

/// The refusal for each word of `WHOLE` that is ones. Those behind them are text words.
static WORDS_OF_ONES: [Option<ImageRefusal>; 18] = [
    Some(ImageRefusal::Magic(0)),
    Some(ImageRefusal::Version(1)),
    Some(ImageRefusal::BlockSize(2)),
    Some(ImageRefusal::Length(18)),
    Some(ImageRefusal::Length(18)),
    None,
    Some(ImageRefusal::Table(6)),
    Some(ImageRefusal::Offsets(7)),
    Some(ImageRefusal::Offsets(8)),
    Some(ImageRefusal::Offsets(9)),
    None,
    None,
    None,
    None,
    None,
    None,
    None,
    None,
];

#[test]
fn each_word_of_ones_gives_its_refusal(rt: HostRuntime) -> Result<(), Fail> {
    for (at, want) in WORDS_OF_ONES.iter().enumerate() {
        let words = changed(rt.alloc(), &WHOLE, &[(at, ONES)])?;
        assert_eq!(rt; refusal_of_words(rt.alloc(), &words)?, *want, "{at}");
    }
    Ok(())
}

/// `EXACT` with four words more, which its block has.
const FOUR_MORE: [u32; 20] = [
    0x31434953, 2, 8, 1, 3, 0x00010000, 0, 9, 0, 1, 2, 0x05D00893, 0x00700513, 0x00000073,
    0x00100073, 0x0001000C, 0, 0, 0, 0,
];

/// Words, those of them that are others, and the first check that fails.
static CHANGES: [(&[u32], &[(usize, u32)], Option<ImageRefusal>); 21] = [
    (&EXACT, &[], None),
    (&EXACT, &[(1, 3)], Some(ImageRefusal::Version(1))),
    (&EXACT, &[(1, 0)], Some(ImageRefusal::Version(1))),
    (&EXACT, &[(2, 1)], Some(ImageRefusal::BlockSize(2))),
    (&EXACT, &[(2, 1025)], Some(ImageRefusal::BlockSize(2))),
    (&EXACT, &[(2, 1024)], None),
    (&EXACT, &[(2, 4)], Some(ImageRefusal::Lengths(7))),
    (&EXACT, &[(3, 0)], Some(ImageRefusal::Length(16))),
    (&EXACT, &[(4, 0)], Some(ImageRefusal::Length(16))),
    (&EXACT, &[(7, 9)], Some(ImageRefusal::Length(16))),
    (&EXACT, &[(7, 4)], Some(ImageRefusal::Length(16))),
    (&FOUR_MORE, &[], Some(ImageRefusal::Lengths(7))),
    (&EXACT, &[(1, 3), (2, 0)], Some(ImageRefusal::Version(1))),
    (&EXACT, &[(6, 1), (8, 1)], Some(ImageRefusal::Table(6))),
    (&THREE, &[(7, 0)], Some(ImageRefusal::Table(7))),
    (&THREE, &[(8, 6)], Some(ImageRefusal::Table(8))),
    (&THREE, &[(10, 5)], Some(ImageRefusal::Lengths(10))),
    (&THREE, &[(9, 0), (12, 1)], Some(ImageRefusal::Lengths(9))),
    (&THREE, &[(14, 1)], Some(ImageRefusal::Offsets(14))),
    (&THREE, &[(15, 5)], Some(ImageRefusal::Offsets(15))),
    (&THREE_WHOLE, &[(12, 4)], None),
];

#[test]
fn changed_words_give_the_first_check_that_fails(rt: HostRuntime) -> Result<(), Fail> {
    for &(words, changes, want) in CHANGES.iter() {
        let words = changed(rt.alloc(), words, changes)?;
        assert_eq!(rt; refusal_of_words(rt.alloc(), &words)?, want, "{changes:?}");
    }
    Ok(())
}

/// An image of so many text words, each of one word, in blocks of 1024, version 2.
fn full_blocks(alloc: Global, len: u32) -> Result<Vec<u32>, Fail> {
    let blocks = len.div_ceil(1024);
    let mut words = Vec::from_slice(alloc, &[0x31434953, 2, 1024, blocks, len, 0x00010000])?;
    words.extend((0..blocks).map(|b| b.wrapping_mul(1024)))?;
    words.extend((0..blocks).map(|b| b.wrapping_mul(1024).wrapping_add(1024).min(len)))?;
    words.extend((0..len).map(|k| k % 1024))?;
    words.extend((0..len).map(|_| 0x00150513))?;
    Ok(words)
}

#[test]
fn a_text_has_two_to_the_19_words_at_most(rt: HostRuntime) -> Result<(), Fail> {
    let longer = Some(ImageRefusal::Length(6 + 2 * 513 + 2 * 524_289));
    for (len, want) in [(524_288, None), (524_289, longer)] {
        let words = full_blocks(rt.alloc(), len)?;
        assert_eq!(rt; refusal_of_words(rt.alloc(), &words)?, want, "{len}");
    }
    Ok(())
}

#[test]
fn bytes_cut_off_are_refused(rt: HostRuntime) -> Result<(), Fail> {
    let bytes = behind_one(rt.alloc(), &WHOLE)?;
    let image = bytes.get(1..).expect(&rt, "there");
    for len in 0..72u32 {
        let want = match len {
            0..4 => ImageRefusal::Magic(0),
            4..8 => ImageRefusal::Version(1),
            8..12 => ImageRefusal::BlockSize(2),
            _ => ImageRefusal::Length(len / 4),
        };
        assert_eq!(rt;
            image.get(..len as usize).and_then(refusal_of),
            Some(want),
            "{len}"
        );
    }
    Ok(())
}

/// What a view says of itself: version, most words of a block, blocks, base and text words.
fn numbers(view: &ImageView) -> (u32, u32, u32, u32, u32) {
    (
        view.version(),
        view.block_words(),
        view.blocks(),
        view.base(),
        view.len(),
    )
}

/// The words of all blocks, each block behind its length.
fn words_said(alloc: Global, view: &ImageView) -> Result<Vec<u32>, Fail> {
    let mut said = Vec::new(alloc);
    for block in 0..view.blocks() {
        said.push(view.length(block))?;
        for offset in 0..view.length(block) {
            said.push(view.word(block, offset))?;
        }
    }
    Ok(said)
}

/// The view of an image that begins behind one byte.
fn view_of(bytes: &[u8]) -> Option<ImageView<'_>> {
    let image = bytes.get(1..)?;
    if image.len() > 1000 {
        return None;
    }
    read_image(image).ok()
}

/// An image's words, its numbers, and the words of its blocks, each block behind its length.
static SAID: [(&[u32], (u32, u32, u32, u32, u32), &[u32]); 4] = [
    (
        &WHOLE,
        (1, 8, 1, 0x10000, 3),
        &[
            8, 0x05D00893, 0x00700513, 0x73, 0x00100073, 0x0001000C, 0, 0, 0,
        ],
    ),
    (
        &EXACT,
        (2, 8, 1, 0x10000, 3),
        &[5, 0x05D00893, 0x00700513, 0x73, 0x00100073, 0x0001000C],
    ),
    (
        &THREE,
        (2, 5, 3, 0x10000, 6),
        &[
            5, 0x000100B7, 0x00008093, 0x00100073, 0x00C080E7, 0x00010008, 5, 0x00100073,
            0x00010009, 0x05D00893, 0x00100073, 0x00010010, 4, 0x00008513, 0x00000073, 0x00100073,
            0x00010018,
        ],
    ),
    (
        &THREE_WHOLE,
        (1, 5, 3, 0x10000, 6),
        &[
            5, 0x000100B7, 0x00008093, 0x00100073, 0x00C080E7, 0x00010008, 5, 0x00100073,
            0x00010009, 0x05D00893, 0x00100073, 0x00010010, 5, 0x00008513, 0x00000073, 0x00100073,
            0x00010018, 0,
        ],
    ),
];

#[test]
fn both_versions_say_their_blocks(rt: HostRuntime) -> Result<(), Fail> {
    for &(words, said, blocks) in SAID.iter() {
        let bytes = behind_one(rt.alloc(), words)?;
        let view = view_of(&bytes).expect(&rt, "accepted");
        assert_eq!(rt; numbers(&view), said);
        assert_eq!(rt; words_said(rt.alloc(), &view)?.as_slice(), blocks);
        assert!(rt; view.blocks() > 0);
        assert_eq!(rt; Some(&view.block(0).word(0)), blocks.get(1));
    }
    Ok(())
}

/// Addresses, and the block and offset of the words there.
static PLACES: [(u32, Option<(u32, u32)>); 10] = [
    (0xFFFC, None),
    (0x10000, Some((0, 0))),
    (0x10002, None),
    (0x10004, Some((0, 2))),
    (0x10008, Some((1, 0))),
    (0x1000C, Some((1, 2))),
    (0x10010, Some((2, 0))),
    (0x10014, Some((2, 1))),
    (0x10018, None),
    (0x8001_0000, None),
];

/// Blocks and offsets, the address of the instruction there, and how far behind its first word they are.
static ORIGINS: [(u32, u32, (u32, u32)); 7] = [
    (0, 1, (0x10000, 1)),
    (0, 2, (0x10004, 0)),
    (0, 4, (0x10004, 2)),
    (1, 1, (0x10008, 1)),
    (1, 3, (0x1000C, 1)),
    (2, 0, (0x10010, 0)),
    (2, 2, (0x10014, 1)),
];

/// The first address whose place is another.
fn first_other_place(view: &ImageView<'_>) -> Option<u32> {
    for &(address, want) in PLACES.iter() {
        if view.place(address) != want {
            return Some(address);
        }
    }
    None
}

/// The first block and offset whose origin is another, or which aren't there.
fn first_other_origin(view: &ImageView<'_>) -> Option<(u32, u32)> {
    for &(block, offset, want) in ORIGINS.iter() {
        if block >= view.blocks()
            || offset >= view.length(block)
            || view.origin(block, offset) != want
        {
            return Some((block, offset));
        }
    }
    None
}

#[test]
fn text_words_have_their_places_and_origins(rt: HostRuntime) -> Result<(), Fail> {
    for words in [THREE.as_slice(), THREE_WHOLE.as_slice()] {
        let bytes = behind_one(rt.alloc(), words)?;
        let view = view_of(&bytes).expect(&rt, "accepted");
        assert_eq!(rt; first_other_place(&view), None);
        assert_eq!(rt; first_other_origin(&view), None);
    }
    Ok(())
}

#[test]
fn tables_give_the_bytes_of_their_image(rt: HostRuntime) -> Result<(), Fail> {
    let words = [0x05D00893, 0x00700513, 0x73, 0x00100073, 0x0001000C];
    let image = Image::of_tables(rt.alloc(), 8, 0x10000, &[0], &[5], &[0, 1, 2], &words)
        .ok()
        .expect(&rt, "memory");
    let bytes = behind_one(rt.alloc(), &EXACT)?;
    assert_eq!(rt; Some(image.bytes()), bytes.get(1..));
    let view = image.view();
    assert_eq!(rt; (view.place(0x10008), view.next(0)), (Some((0, 2)), 3));
    assert_eq!(rt; view.bytes(), image.bytes());
    Ok(())
}
