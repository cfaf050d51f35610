use crate::bytes::bytes_of;
use std::alloc::Global;
use std::test::Fail;
use swi_elf_read::read_elf;
use swi_memory::Layout;
use swi_program::{Program, Room, lay_out, one_text, program_of};

/// Three instructions in one segment, by hand from the ELF document.
const PLAIN: [u32; 24] = [
    0x464C457F, 0x00010101, 0, 0, 0x00F30002, 1, 0x00010000, 52, 0, 0, 0x00200034, 1, 0, 1, 0x54,
    0x00010000, 0x00010000, 12, 12, 5, 4, 0x05D00893, 0x00700513, 0x00000073,
];

/// Headers, code and a table in one segment, data with a zeroed tail in another, and two headers of
/// types that are read past.
const MIXED: [u32; 65] = [
    0x464C457F, 0x00010101, 0, 0, 0x00F30002, 1, 0x000100B4, 52, 0, 0, 0x00200034, 4, 0,
    0x70000003, 0, 0, 0, 0, 0, 4, 1, 1, 0, 0x00010000, 0x00010000, 256, 256, 5, 4096, 1, 256,
    0x00011100, 0x00011100, 4, 64, 6, 4096, 0x6474E551, 0, 0, 0, 0, 0, 6, 16, 0x00400313,
    0x000102B7, 0x006282B3, 0x0F42A283, 0x00028067, 0x00100513, 0x05D00893, 0x00000073, 0x00100513,
    0x000105B7, 0x0FC58593, 0x00300613, 0x04000893, 0x00000073, 0x00000513, 0xFDDFF06F, 0x000100C8,
    0x000100D4, 0x000A6968, 1,
];

/// The program of a file, where it is accepted.
fn program<'a>(alloc: Global, file: &'a [u8]) -> Option<Program<'a>> {
    let e = read_elf(&file[..file.len().min(1 << 26)]).ok()?;
    program_of(alloc, &e).ok()
}

/// A plain file whose segment and entry are at another address.
fn moved(alloc: Global, base: u32) -> Result<Vec<u8>, Fail> {
    let mut words = PLAIN;
    words[6] = base;
    words[15] = base;
    bytes_of(alloc, &words)
}

/// Each segment as base, rights and size, and the bytes of the file that they have.
fn segments_said(alloc: Global, p: &Program<'_>) -> Result<Vec<(u32, u32, u32, usize)>, Fail> {
    let mut said = Vec::new(alloc);
    for s in p.segments() {
        said.push((s.base(), s.flags(), s.size(), s.bytes().len()))?;
    }
    Ok(said)
}

/// Where the text begins, and its words.
fn text_said(alloc: Global, p: &Program<'_>) -> Result<(u32, Vec<u32>), Fail> {
    let text = p.text();
    let mut words = Vec::new(alloc);
    for k in 0..text.len() {
        words.push(text.word(k))?;
    }
    Ok((text.base(), words))
}

#[test]
fn program_of_a_file_has_its_segments_and_text(rt: HostRuntime) -> Result<(), Fail> {
    let alloc = rt.alloc();
    let file = bytes_of(alloc, &MIXED)?;
    let p = program(alloc, &file).expect(&rt, "accepted");
    assert_eq!(rt; (p.entry(), p.flags()), (0x000100B4, 0));
    assert_eq!(rt;
        segments_said(alloc, &p)?.as_slice(),
        [(0x00010000, 5, 256, 256), (0x00011100, 6, 64, 4)].as_slice()
    );
    let (base, words) = text_said(alloc, &p)?;
    assert_eq!(rt; base, 0x00010000);
    assert_eq!(rt; words.as_slice(), &MIXED[..64]);
    Ok(())
}

/// The number of words of a text of so many bytes, and its last word, which alone is not 0.
fn long_text_said(alloc: Global, size: u32) -> Result<Option<(u32, u32)>, Fail> {
    let mut words = PLAIN;
    words[17] = size;
    words[18] = size;
    let mut bytes = bytes_of(alloc, &words[..21])?;
    let text = vec![in alloc; 0u8; size as usize]?;
    bytes.extend_from_slice(&text)?;
    if let Some(last) = bytes.last_mut() {
        *last = 0x80;
    }
    let Some(p) = program(alloc, &bytes) else {
        return Ok(None)
    };
    let text = p.text();
    let count = text.len();
    if count == 0 {
        return Ok(None);
    }
    Ok(Some((count, text.word(count - 1))))
}

/// Bytes of a text, and how many words are read and the last.
static LONG_TEXTS: [(u32, Option<(u32, u32)>); 3] = [
    ((1 << 20) + 4, Some(((1 << 18) + 1, 0x80000000))),
    (1 << 21, Some((1 << 19, 0x80000000))),
    ((1 << 21) + 4, None),
];

#[test]
fn longest_text_is_read_to_its_last_word(rt: HostRuntime) -> Result<(), Fail> {
    for &(size, want) in LONG_TEXTS.iter() {
        assert_eq!(rt; long_text_said(rt.alloc(), size)?, want, "{size} bytes");
    }
    Ok(())
}

/// What a program says: its entry and flags, its segments, and its text.
#[derive(Drop, PartialEq, Debug)]
struct Said {
    entry: u32,
    flags: u32,
    segments: Vec<(u32, u32, u32, usize)>,
    text: (u32, Vec<u32>),
}

fn said_by(alloc: Global, p: &Program<'_>) -> Result<Said, Fail> {
    Ok(Said {
        entry: p.entry(),
        flags: p.flags(),
        segments: segments_said(alloc, p)?,
        text: text_said(alloc, p)?,
    })
}

#[test]
fn text_gives_the_program_of_its_file(rt: HostRuntime) -> Result<(), Fail> {
    let alloc = rt.alloc();
    let file = bytes_of(alloc, &PLAIN)?;
    let filed = program(alloc, &file).expect(&rt, "accepted");
    let text = bytes_of(alloc, &PLAIN[21..])?;
    let made = one_text(alloc, 0x00010000, &text).expect(&rt, "memory");
    assert_eq!(rt; said_by(alloc, &made)?, said_by(alloc, &filed)?);
    assert_eq!(rt; text_said(alloc, &made)?.1.as_slice(), &PLAIN[21..]);
    Ok(())
}

/// Where the segment begins, the bytes of the heap and of the stack, and the layout.
static LAYOUTS: [(u32, u32, u32, Result<Layout, Room>); 7] = [
    (
        0x00010000,
        1_048_576,
        65_536,
        Ok(Layout {
            heap: 0x0001000C,
            heap_len: 1_048_576,
            stack: 0x00112000,
            stack_len: 65_536,
            sp: 0x00121FC0,
        }),
    ),
    (
        0xFFFF0000,
        1_048_576,
        65_536,
        Err(Room { end: 4_296_024_064 }),
    ),
    (
        0xFFFF0000,
        0,
        4096,
        Ok(Layout {
            heap: 0xFFFF000C,
            heap_len: 0,
            stack: 0xFFFF2000,
            stack_len: 4096,
            sp: 0xFFFF2FC0,
        }),
    ),
    (
        0xFFFF0000,
        0,
        57_344,
        Ok(Layout {
            heap: 0xFFFF000C,
            heap_len: 0,
            stack: 0xFFFF2000,
            stack_len: 57_344,
            sp: 0xFFFFFFC0,
        }),
    ),
    (0xFFFF0000, 0, 57_360, Err(Room { end: 0x100000010 })),
    (0xFFFFFFF4, 0, 4096, Err(Room { end: 0x100002000 })),
    (
        0x00000000,
        67_108_864,
        16_777_216,
        Ok(Layout {
            heap: 12,
            heap_len: 67_108_864,
            stack: 0x04002000,
            stack_len: 16_777_216,
            sp: 0x05001FC0,
        }),
    ),
];

#[test]
fn layout_leaves_room_or_says_where_it_ends(rt: HostRuntime) -> Result<(), Fail> {
    for &(base, heap, stack, want) in LAYOUTS.iter() {
        let file = moved(rt.alloc(), base)?;
        let p = program(rt.alloc(), &file).expect(&rt, "accepted");
        assert!(rt; heap <= 67_108_864 && stack >= 4096 && stack <= 16_777_216 && stack % 16 == 0);
        assert_eq!(rt; lay_out(&p, heap, stack), want, "{base}, {heap}, {stack}");
    }
    Ok(())
}
