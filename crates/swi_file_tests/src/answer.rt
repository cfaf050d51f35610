//! The lines and statuses of answers.
#![tactic(auto)]

use std::test::Fail;
use swi_answer::{
    Ending, Refusal, image_line, line_of_ending, line_of_guest, line_of_refusal, status_of,
};
use swi_check::Mismatch;
use swi_elf_read::ElfRefusal;
use swi_exec::FaultKind;
use swi_image::ImageRefusal;

/// Refusals, their lines and their statuses.
static REFUSALS: [(Refusal, &str, u8); 23] = [
    (
        Refusal::Usage,
        "usage: swic rewrite, cached, plain, trace, list, check, measure, upgrade, share, prefetch, survey, profile\n",
        250,
    ),
    (
        Refusal::CacheLarge { bytes: 8388609 },
        "cache large: 8388609\n",
        247,
    ),
    (
        Refusal::RamSmall {
            bytes: 20,
            held: 16,
        },
        "ram small: 20 16\n",
        247,
    ),
    (Refusal::ShelfFault, "shelf fault\n", 248),
    (
        Refusal::FileLong { limit: 67108864 },
        "file too long\n",
        248,
    ),
    (Refusal::Elf(ElfRefusal::Short(51)), "elf 1 Short 51\n", 243),
    (
        Refusal::Elf(ElfRefusal::Table(28)),
        "elf 11 Table 28\n",
        243,
    ),
    (
        Refusal::Elf(ElfRefusal::Extent(1)),
        "elf 13 Extent 1\n",
        243,
    ),
    (
        Refusal::Elf(ElfRefusal::Entry(24)),
        "elf 18 Entry 24\n",
        243,
    ),
    (
        Refusal::Room { end: 4296024064 },
        "elf 19 Room 4296024064\n",
        243,
    ),
    (Refusal::NoImage, "no image\n", 252),
    (
        Refusal::Image(ImageRefusal::Length(17)),
        "image 4 Length 17\n",
        244,
    ),
    (
        Refusal::Image(ImageRefusal::Lengths(7)),
        "image 7 Lengths 7\n",
        244,
    ),
    (
        Refusal::Mismatch(Mismatch::Cover { address: 0x10008 }),
        "mismatch: cover 00010008\n",
        245,
    ),
    (
        Refusal::Mismatch(Mismatch::Place {
            address: 0x10004,
            held: 2,
            required: 1,
        }),
        "mismatch: place 00010004 2 1\n",
        245,
    ),
    (
        Refusal::Mismatch(Mismatch::Long { block: 0, needs: 5 }),
        "mismatch: long 0 5\n",
        245,
    ),
    (
        Refusal::Mismatch(Mismatch::Length {
            block: 0,
            held: 4,
            required: 5,
        }),
        "mismatch: length 0 4 5\n",
        245,
    ),
    (
        Refusal::Mismatch(Mismatch::Word {
            block: 0,
            offset: 1,
            held: 0x00800513,
            required: 0x00700513,
        }),
        "mismatch: word 0 1 00800513 00700513\n",
        245,
    ),
    (
        Refusal::Long {
            address: 0x10008,
            needs: 5,
        },
        "long: 00010008 5\n",
        246,
    ),
    (
        Refusal::CacheSmall {
            bytes: 255,
            least: 256,
        },
        "cache small: 255 256\n",
        247,
    ),
    (Refusal::SinkFault, "sink fault\n", 249),
    (Refusal::RamFault, "ram fault\n", 249),
    (Refusal::Memory, "no memory\n", 251),
];

/// Endings, their lines and their statuses.
static ENDINGS: [(Ending, &str, u8); 5] = [
    (Ending::Exited(65544, 5), "", 8),
    (Ending::Done, "", 0),
    (
        Ending::Spent(4, 0x10008),
        "spent: 4 steps, pc 00010008\n",
        240,
    ),
    (
        Ending::Faulted(FaultKind::FetchAccess, 0x20000, 0x20000, 3),
        "fault: fetch-access at 00020000, address 00020000, 3 steps\n",
        241,
    ),
    (
        Ending::StoreText(0x10004, 0x10000, 1),
        "store into text: pc 00010004, address 00010000, 1 steps\n",
        242,
    ),
];

#[test]
fn refusals_have_their_lines_and_statuses(rt: HostRuntime) -> Result<(), Fail> {
    for (refusal, line, status) in REFUSALS.iter() {
        assert_eq!(rt; line_of_refusal(refusal).as_bytes(), line.as_bytes());
        assert_eq!(rt; status_of(&Err(*refusal)), *status);
    }
    Ok(())
}

#[test]
fn endings_have_their_lines_and_statuses(rt: HostRuntime) -> Result<(), Fail> {
    for (ending, line, status) in ENDINGS.iter() {
        assert_eq!(rt; line_of_ending(ending).as_bytes(), line.as_bytes());
        assert_eq!(rt; status_of(&Ok(*ending)), *status);
    }
    assert_eq!(rt;
        image_line(1, 8).as_bytes(),
        b"ok: 1 blocks of 8 words\n".as_slice()
    );
    Ok(())
}

/// Endings of programs that share a cache, with their lines.
static GUESTS: [(u32, Ending, &str); 5] = [
    (0, Ending::Exited(65544, 5), "0 exited 65544 5\n"),
    (7, Ending::Spent(4, 0x10008), "7 spent 4 00010008\n"),
    (
        1,
        Ending::Faulted(FaultKind::StoreAccess, 0x10004, 0x30000, 3),
        "1 faulted store-access 00010004 00030000 3\n",
    ),
    (
        2,
        Ending::StoreText(0x10004, 0x10000, 1),
        "2 store 00010004 00010000 1\n",
    ),
    (3, Ending::Done, ""),
];

#[test]
fn endings_of_guests_have_their_lines(rt: HostRuntime) -> Result<(), Fail> {
    for (guest, ending, line) in GUESTS.iter() {
        assert_eq!(rt; line_of_guest(*guest, ending).as_bytes(), line.as_bytes());
    }
    Ok(())
}

/// Refusals, and what they say as errors of Rust, which the program itself does not write.
static TEXTS: [(Refusal, &str); 16] = [
    (Refusal::Usage, "the words are no command"),
    (
        Refusal::CacheLarge { bytes: 8388609 },
        "a cache of 8388609 bytes is larger than 8 MiB",
    ),
    (
        Refusal::RamSmall {
            bytes: 20,
            held: 16,
        },
        "a cache of 20 bytes is larger than the ram of 16 bytes",
    ),
    (Refusal::ShelfFault, "the file could not be read or written"),
    (
        Refusal::FileLong { limit: 67108864 },
        "the file has more than 67108864 bytes",
    ),
    (
        Refusal::Elf(ElfRefusal::Short(51)),
        "the file is not accepted: Short(51)",
    ),
    (
        Refusal::Room { end: 4296024064 },
        "the stack would end at 4296024064, past the last address",
    ),
    (Refusal::NoImage, "the file has no cache image"),
    (
        Refusal::Image(ImageRefusal::Length(17)),
        "the file's cache image is not accepted: Length(17)",
    ),
    (
        Refusal::Mismatch(Mismatch::Cover { address: 65544 }),
        "the file's cache image is not one of its text: Cover { address: 65544 }",
    ),
    (
        Refusal::Long {
            address: 65544,
            needs: 5,
        },
        "the instruction at 65544 needs 5 words of a block",
    ),
    (
        Refusal::CacheSmall {
            bytes: 255,
            least: 256,
        },
        "a cache of 255 bytes holds no block, which takes 256",
    ),
    (Refusal::SourceFault, "the input failed"),
    (Refusal::SinkFault, "the output or the error stream failed"),
    (Refusal::RamFault, "the cache ram failed"),
    (Refusal::Memory, "there is no memory"),
];

#[test]
fn refusals_have_their_texts(rt: HostRuntime) -> Result<(), Fail> {
    for (refusal, text) in TEXTS.iter() {
        let said = format!(in rt.alloc(); "{refusal}")?;
        assert_eq!(rt; said.as_str(), *text);
    }
    Ok(())
}
