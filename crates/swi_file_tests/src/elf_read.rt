use crate::bytes::{bytes_of, changed};
use std::alloc::Global;
use std::test::Fail;
use swi_elf_read::{
    ElfRefusal, Kind, Loaded, elf_entry, elf_flags, image_bytes, kind, loaded, loaded_at, read_elf,
};

/// Three instructions in one segment, by hand from the ELF document.
const PLAIN: [u32; 24] = [
    0x464C457F, 0x00010101, 0, 0, 0x00F30002, 1, 0x00010000, 52, 0, 0, 0x00200034, 1, 0, 1, 0x54,
    0x00010000, 0x00010000, 12, 12, 5, 4, 0x05D00893, 0x00700513, 0x00000073,
];

/// The same with the segment's header twice.
const DOUBLE: [u32; 32] = [
    0x464C457F, 0x00010101, 0, 0, 0x00F30002, 1, 0x00010000, 52, 0, 0, 0x00200034, 2, 0, 1, 0x74,
    0x00010000, 0x00010000, 12, 12, 5, 4, 1, 0x74, 0x00010000, 0x00010000, 12, 12, 5, 4,
    0x05D00893, 0x00700513, 0x00000073,
];

/// Headers, code and a table in one segment, data with a zeroed tail in another, and two headers of
/// types that are read past.
const MIXED: [u32; 65] = [
    0x464C457F, 0x00010101, 0, 0, 0x00F30002, 1, 0x000100B4, 52, 0, 0, 0x00200034, 4, 0,
    0x70000003, 0, 0, 0, 0, 0, 4, 1, 1, 0, 0x00010000, 0x00010000, 256, 256, 5, 4096, 1, 256,
    0x00011100, 0x00011100, 4, 64, 6, 4096, 0x6474E551, 0, 0, 0, 0, 0, 6, 16, 0x00400313,
    0x000102B7, 0x006282B3, 0x0F42A283, 0x00028067, 0x00100513, 0x05D00893, 0x00000073, 0x00100513,
    0x000105B7, 0x0FC58593, 0x00300613, 0x04000893, 0x00000073, 0x00000513, 0xFDDFF06F, 0x000100C8,
    0x000100D4, 0x000A6968, 1,
];

/// The plain file with a cache image behind it.
const REWRITTEN: [u32; 50] = [
    0x464C457F, 0x00010101, 0, 0, 0x00F30002, 1, 0x00010000, 52, 0, 0, 0x00200034, 2, 0, 1, 0x74,
    0x00010000, 0x00010000, 12, 12, 5, 1, 0x6C434953, 0x80, 0, 0, 72, 72, 4, 4, 0x05D00893,
    0x00700513, 0x00000073, 0x31434953, 1, 8, 1, 3, 0x00010000, 0, 0, 1, 2, 0x05D00893, 0x00700513,
    0x00000073, 0x00100073, 0x0001000C, 0, 0, 0,
];

/// The refusal of the first bytes, at most 2^26 of them.
fn refusal_of(bytes: &[u8], size: usize) -> Option<ElfRefusal> {
    match read_elf(&bytes[..size.min(bytes.len()).min(1 << 26)]) {
        Ok(_) => None,
        Err(refusal) => Some(refusal),
    }
}

/// The refusal of a file of these words where one of them is another.
fn refusal_with(
    alloc: Global,
    words: &[u32],
    at: usize,
    word: u32,
) -> Result<Option<ElfRefusal>, Fail> {
    let bytes = bytes_of(alloc, &changed(alloc, words, &[(at, word)])?)?;
    Ok(refusal_of(&bytes, bytes.len()))
}

/// A word's index, another word in its place, and the refusal.
static CHANGES: [(usize, u32, Option<ElfRefusal>); 29] = [
    (0, 0x464C4580, Some(ElfRefusal::Magic(0))),
    (1, 0x00010102, Some(ElfRefusal::Class(4))),
    (1, 0x00010201, Some(ElfRefusal::Order(5))),
    (1, 0x00020101, Some(ElfRefusal::Version(6))),
    (5, 2, Some(ElfRefusal::Version(20))),
    (4, 0x00F30003, Some(ElfRefusal::FileType(16))),
    (4, 0x003E0002, Some(ElfRefusal::Machine(18))),
    (9, 1, Some(ElfRefusal::Flags(36))),
    (9, 8, Some(ElfRefusal::Flags(36))),
    (9, 0x10, None),
    (10, 0x00200040, Some(ElfRefusal::HeaderSize(40))),
    (10, 0x00380034, Some(ElfRefusal::HeaderSize(42))),
    (11, 65, Some(ElfRefusal::Many(44))),
    (11, 0, Some(ElfRefusal::NoText(0))),
    (7, 0xFFFFFFFF, Some(ElfRefusal::Table(28))),
    (13, 2, Some(ElfRefusal::Dynamic(0))),
    (13, 3, Some(ElfRefusal::Dynamic(0))),
    (14, 0xFFFFFFFF, Some(ElfRefusal::Extent(0))),
    (17, 3, Some(ElfRefusal::NoText(0))),
    (18, 11, Some(ElfRefusal::Extent(0))),
    (18, 0xFFFFFFFF, Some(ElfRefusal::Extent(0))),
    (18, 33_554_433, Some(ElfRefusal::Large(0))),
    (18, 33_554_432, None),
    (19, 4, Some(ElfRefusal::NoText(0))),
    (6, 0x00010002, Some(ElfRefusal::Entry(24))),
    (6, 0x0001000C, Some(ElfRefusal::Entry(24))),
    (6, 0x00010008, None),
    (15, 0xFFFFFFF5, Some(ElfRefusal::Extent(0))),
    (15, 0xFFFFFFF4, Some(ElfRefusal::Entry(24))),
];

#[test]
fn one_changed_word_gives_its_refusal(rt: HostRuntime) -> Result<(), Fail> {
    for &(at, word, want) in CHANGES.iter() {
        let refusal = refusal_with(rt.alloc(), &PLAIN, at, word)?;
        assert_eq!(rt; refusal, want, "{word} at {at}");
    }
    Ok(())
}

/// The same of a file of two segments.
static SECOND_CHANGES: [(usize, u32, Option<ElfRefusal>); 9] = [
    (23, 0x00010000, Some(ElfRefusal::Overlap(1))),
    (23, 0x00020000, Some(ElfRefusal::TwoTexts(1))),
    (23, 0x0001000B, Some(ElfRefusal::Overlap(1))),
    (23, 0x0000FFF5, Some(ElfRefusal::Overlap(1))),
    (23, 0x0001000C, Some(ElfRefusal::TwoTexts(1))),
    (23, 0x0000FFF4, Some(ElfRefusal::TwoTexts(1))),
    (21, 4, None),
    (26, 0, Some(ElfRefusal::Extent(1))),
    // a wrong extent comes before an overlap
    (25, 13, Some(ElfRefusal::Extent(1))),
];

#[test]
fn second_segment_overlaps_or_is_a_second_text(rt: HostRuntime) -> Result<(), Fail> {
    for &(at, word, want) in SECOND_CHANGES.iter() {
        let refusal = refusal_with(rt.alloc(), &DOUBLE, at, word)?;
        assert_eq!(rt; refusal, want, "{word} at {at}");
    }
    Ok(())
}

/// The refusal of the file of two segments whose second has so many bytes in the file, from an offset on, and in memory.
fn refusal_of_second(
    alloc: Global,
    offset: u32,
    filesz: u32,
    memsz: u32,
) -> Result<Option<ElfRefusal>, Fail> {
    let mut words = DOUBLE;
    words[22] = offset;
    words[23] = 0x00020000;
    words[25] = filesz;
    words[27] = 6;
    refusal_with(alloc, &words, 26, memsz)
}

/// Bytes in the file, bytes in memory, and the refusal.
static BEHIND_THE_END: [(u32, u32, Option<ElfRefusal>); 4] = [
    (0, 64, None),
    (0, 0, None),
    (1, 64, Some(ElfRefusal::Extent(1))),
    (1, 0, Some(ElfRefusal::Extent(1))),
];

#[test]
fn segment_without_bytes_in_the_file_may_begin_behind_its_end(rt: HostRuntime) -> Result<(), Fail> {
    for offset in [0x81, 0x7FFFFFFF, u32::MAX] {
        for &(filesz, memsz, want) in BEHIND_THE_END.iter() {
            let refusal = refusal_of_second(rt.alloc(), offset, filesz, memsz)?;
            assert_eq!(rt; refusal, want, "{filesz} and {memsz} bytes at {offset}");
        }
    }
    Ok(())
}

/// The refusal of a file of one segment with a text of so many bytes, all 0.
fn refusal_of_text(alloc: Global, size: u32) -> Result<Option<ElfRefusal>, Fail> {
    let mut words = PLAIN;
    words[17] = size;
    words[18] = size;
    let mut bytes = bytes_of(alloc, &words[..21])?;
    let text = vec![in alloc; 0u8; size as usize]?;
    bytes.extend_from_slice(&text)?;
    Ok(refusal_of(&bytes, bytes.len()))
}

/// Bytes of a text, and the refusal.
static TEXT_SIZES: [(u32, Option<ElfRefusal>); 4] = [
    ((1 << 20) + 4, None),
    (1 << 21, None),
    ((1 << 21) + 1, Some(ElfRefusal::Large(0))),
    ((1 << 21) + 4, Some(ElfRefusal::Large(0))),
];

#[test]
fn text_has_at_most_two_mebibytes(rt: HostRuntime) -> Result<(), Fail> {
    for &(size, want) in TEXT_SIZES.iter() {
        assert_eq!(rt; refusal_of_text(rt.alloc(), size)?, want, "{size} bytes");
    }
    Ok(())
}

/// The refusal of the plain file's first bytes.
fn plain_front(size: u32) -> Option<ElfRefusal> {
    match size {
        0..52 => Some(ElfRefusal::Short(size)),
        52..84 => Some(ElfRefusal::Table(28)),
        84..96 => Some(ElfRefusal::Extent(0)),
        _ => None,
    }
}

/// The same of the file with an image.
fn rewritten_front(size: u32) -> Option<ElfRefusal> {
    match size {
        0..52 => Some(ElfRefusal::Short(size)),
        52..116 => Some(ElfRefusal::Table(28)),
        116..128 => Some(ElfRefusal::Extent(0)),
        128..200 => Some(ElfRefusal::Extent(1)),
        _ => None,
    }
}

#[test]
fn front_of_a_file_is_refused(rt: HostRuntime) -> Result<(), Fail> {
    let plain = bytes_of(rt.alloc(), &PLAIN)?;
    let rewritten = bytes_of(rt.alloc(), &REWRITTEN)?;
    for size in 0..201u32 {
        let refusals = (
            refusal_of(&plain, size as usize),
            refusal_of(&rewritten, size as usize),
        );
        assert_eq!(rt;
            refusals,
            (plain_front(size), rewritten_front(size)),
            "{size} bytes"
        );
    }
    Ok(())
}

/// What a file says: its kind, its entry, its flags, the first byte and the length of its cache
/// image, and how many segments it loads.
fn said(bytes: &[u8]) -> Option<(Kind, u32, u32, Option<(u8, usize)>, u32)> {
    let Ok(e) = read_elf(&bytes[..bytes.len().min(1 << 26)]) else {
        return None
    };
    let image = match image_bytes(&e) {
        Some([first, rest @ ..]) => Some((*first, rest.len())),
        _ => None,
    };
    Some((kind(&e), elf_entry(&e), elf_flags(&e), image, loaded(&e)))
}

/// The k-th segment that a file loads: its base, its rights, its size and the bytes of the file.
fn segment_said(bytes: &[u8], k: u32) -> Option<(u32, u32, u32, &[u8])> {
    let Ok(e) = read_elf(&bytes[..bytes.len().min(1 << 26)]) else {
        return None
    };
    if k >= loaded(&e) {
        return None;
    }
    let Loaded {
        base,
        flags,
        size,
        bytes,
    } = loaded_at(&e, k);
    Some((base, flags, size, bytes))
}

#[test]
fn accepted_files_say_what_they_are(rt: HostRuntime) -> Result<(), Fail> {
    let front = bytes_of(rt.alloc(), &MIXED[..64])?;
    let mixed = bytes_of(rt.alloc(), &MIXED)?;
    assert_eq!(rt;
        said(&mixed),
        Some((Kind::Original, 0x000100B4, 0, None, 2))
    );
    assert_eq!(rt;
        segment_said(&mixed, 0),
        Some((0x00010000, 5, 256, front.as_slice()))
    );
    assert_eq!(rt;
        segment_said(&mixed, 1),
        Some((0x00011100, 6, 64, [1, 0, 0, 0].as_slice()))
    );
    assert_eq!(rt; segment_said(&mixed, 2), None);
    let rewritten = bytes_of(rt.alloc(), &REWRITTEN)?;
    assert_eq!(rt;
        said(&rewritten),
        Some((Kind::Rewritten, 0x00010000, 0, Some((0x53, 71)), 1))
    );
    Ok(())
}
