//! Files whose image is another, or none.

use crate::devices::{ANY, QUIET, Row, Wanted, expect_wanted, expect_words};
use crate::texts::{FIRST, NONE, SECOND, bytes_of, bytes_with};
use std::test::Fail;
use swi_check::Mismatch as Difference;
use swi_image::ImageRefusal;
use swi_top::Refusal::{self, *};

/// The place of a word of `FIRST` and what stands there instead; and then the refusal, and its line.
static IMAGES: [(usize, u32, Refusal, &str); 12] = [
    (32, NONE, Image(ImageRefusal::Magic(0)), "image 1 Magic 0\n"),
    (
        33,
        NONE,
        Image(ImageRefusal::Version(1)),
        "image 2 Version 1\n",
    ),
    (
        34,
        NONE,
        Image(ImageRefusal::BlockSize(2)),
        "image 3 BlockSize 2\n",
    ),
    (
        35,
        NONE,
        Image(ImageRefusal::Length(18)),
        "image 4 Length 18\n",
    ),
    (
        36,
        NONE,
        Image(ImageRefusal::Length(18)),
        "image 4 Length 18\n",
    ),
    (
        25,
        68,
        Image(ImageRefusal::Length(17)),
        "image 4 Length 17\n",
    ),
    (
        37,
        NONE,
        Mismatch(Difference::Cover { address: 0x10000 }),
        "mismatch: cover 00010000\n",
    ),
    (38, NONE, Image(ImageRefusal::Table(6)), "image 5 Table 6\n"),
    (
        39,
        NONE,
        Image(ImageRefusal::Offsets(7)),
        "image 6 Offsets 7\n",
    ),
    (
        41,
        NONE,
        Image(ImageRefusal::Offsets(9)),
        "image 6 Offsets 9\n",
    ),
    (
        43,
        0x00800513,
        Mismatch(Difference::Word {
            block: 0,
            offset: 1,
            held: 0x00800513,
            required: 0x00700513,
        }),
        "mismatch: word 0 1 00800513 00700513\n",
    ),
    (
        49,
        NONE,
        Mismatch(Difference::Word {
            block: 0,
            offset: 7,
            held: NONE,
            required: 0,
        }),
        "mismatch: word 0 7 ffffffff 00000000\n",
    ),
];

/// The commands that read a file's image.
const READERS: [&str; 5] = ["cached A", "plain A", "list A", "check A", "upgrade A B"];

#[test]
fn a_changed_image_is_refused_by_each_command_that_reads_it(rt: HostRuntime) -> Result<(), Fail> {
    let alloc = rt.alloc();
    for &(at, word, refusal, line) in IMAGES.iter() {
        let row = row!(answer: Err(refusal), err: line);
        for words in READERS {
            expect_words(alloc, words, &row, bytes_with(alloc, &FIRST, at, word)?)?;
        }
    }
    Ok(())
}

#[test]
fn an_image_of_fewer_words_is_none_of_the_text(rt: HostRuntime) -> Result<(), Fail> {
    let alloc = rt.alloc();
    let mut words = [&FIRST[..41], &FIRST[42..]].concat(alloc)?;
    for (at, word) in [(25, 68), (26, 68), (36, 2), (39, 0), (40, 1)] {
        if let Some(place) = words.get_mut(at) {
            *place = word;
        }
    }
    let refusal = Mismatch(Difference::Cover { address: 0x10008 });
    let row = row!(answer: Err(refusal), err: "mismatch: cover 00010008\n");
    for command in READERS {
        expect_words(alloc, command, &row, bytes_of(alloc, &words)?)?;
    }
    Ok(())
}

/// Words of which some are others.
fn words_with(mut words: Vec<u32>, others: [(usize, u32); 3]) -> Vec<u32> {
    for (at, word) in others {
        if let Some(place) = words.get_mut(at) {
            *place = word;
        }
    }
    words
}

/// The place of a word of `SECOND` and what stands there instead, and how many words there are; and then the refusal.
static SECOND_IMAGES: [(usize, u32, Refusal); 3] = [
    (39, 9, Image(ImageRefusal::Length(16))),
    (39, 4, Image(ImageRefusal::Length(16))),
    (33, 3, Image(ImageRefusal::Version(1))),
];

#[test]
fn a_changed_image_of_version_2_is_refused(rt: HostRuntime) -> Result<(), Fail> {
    let alloc = rt.alloc();
    for &(at, word, refusal) in SECOND_IMAGES.iter() {
        let wanted = Wanted {
            answer: Some(Err(refusal)),
            ..ANY
        };
        let file = bytes_with(alloc, &SECOND, at, word)?;
        expect_wanted(alloc, "check A", &QUIET, file, &wanted)?;
    }
    Ok(())
}

/// `SECOND` with an end that is too far, and zeros behind; and with one too near, without the last word.
#[test]
fn an_end_of_version_2_that_is_moved_is_refused(rt: HostRuntime) -> Result<(), Fail> {
    let alloc = rt.alloc();
    let longer = words_with(
        [&SECOND[..], &[0, 0, 0, 0]].concat(alloc)?,
        [(25, 80), (26, 80), (39, 9)],
    );
    let wanted = Wanted {
        answer: Some(Err(Image(ImageRefusal::Lengths(7)))),
        ..ANY
    };
    expect_wanted(alloc, "check A", &QUIET, bytes_of(alloc, &longer)?, &wanted)?;
    let shorter = words_with(SECOND[..47].to_vec(alloc)?, [(25, 60), (26, 60), (39, 4)]);
    let refusal = Difference::Length {
        block: 0,
        held: 4,
        required: 5,
    };
    let wanted = Wanted {
        answer: Some(Err(Mismatch(refusal))),
        ..ANY
    };
    expect_wanted(
        alloc,
        "check A",
        &QUIET,
        bytes_of(alloc, &shorter)?,
        &wanted,
    )
}
