use crate::bytes::bytes_of;
use std::alloc::Global;
use std::test::Fail;
use swi_elf_read::{ElfRefusal, read_elf};
use swi_elf_write::write_elf;
use swi_image::{Image, read_image};
use swi_program::{Program, one_text, program_of};

/// Three instructions at 0x10000.
const TEXT: [u32; 3] = [0x05D00893, 0x00700513, 0x00000073];

/// Its image in version 1, with blocks of 8 words.
const WHOLE: [u32; 18] = [
    0x31434953, 1, 8, 1, 3, 0x00010000, 0, 0, 1, 2, 0x05D00893, 0x00700513, 0x00000073, 0x00100073,
    0x0001000C, 0, 0, 0,
];

/// Its image in version 2.
const EXACT: [u32; 16] = [
    0x31434953, 2, 8, 1, 3, 0x00010000, 0, 5, 0, 1, 2, 0x05D00893, 0x00700513, 0x00000073,
    0x00100073, 0x0001000C,
];

/// The ELF header, a PT_LOAD header for the text and a header for an image of 72 bytes, by hand from
/// the ELF document; then the text.
const FRONT: [u32; 32] = [
    0x464C457F, 0x00010101, 0, 0, 0x00F30002, 1, 0x00010000, 52, 0, 0, 0x00200034, 2, 0, 1, 116,
    0x00010000, 0x00010000, 12, 12, 5, 1, 0x6C434953, 128, 0, 0, 72, 72, 4, 4, 0x05D00893,
    0x00700513, 0x00000073,
];

/// The image of these words.
fn image_of(alloc: Global, words: &[u32]) -> Result<Image, Fail> {
    let bytes = bytes_of(alloc, words)?;
    if bytes.len() < 1 << 20 && read_image(&bytes).is_ok() {
        return Ok(Image::of(bytes));
    }
    Err(Fail::from("no image"))
}

/// The program of a file.
fn program_in<'a>(alloc: Global, file: &'a [u8]) -> Result<Program<'a>, Fail> {
    let e = read_elf(&file[..file.len().min(1 << 20)])
        .ok()
        .ok_or("refused")?;
    Ok(program_of(alloc, &e).ok().ok_or("memory")?)
}

/// `FRONT` of an image of so many bytes.
fn front_of(alloc: Global, bytes: u32) -> Result<Vec<u8>, Fail> {
    let mut front = FRONT;
    front[25] = bytes;
    front[26] = bytes;
    bytes_of(alloc, &front)
}

#[test]
fn a_text_and_its_image_give_the_file_of_the_document(rt: HostRuntime) -> Result<(), Fail> {
    let alloc = rt.alloc();
    let text = bytes_of(alloc, &TEXT)?;
    let program = one_text(alloc, 0x00010000, &text).ok().ok_or("memory")?;
    for words in [WHOLE.as_slice(), EXACT.as_slice()] {
        let image = image_of(alloc, words)?;
        let front = front_of(alloc, image.bytes().len() as u32)?;
        let file = write_elf(alloc, &program, &image).ok().ok_or("memory")?;
        assert_eq!(rt; file.strip_prefix(front.as_slice()), Some(image.bytes()));
    }
    Ok(())
}

/// The file of a program with a data segment of five bytes at an odd address, by hand from the ELF
/// document: the data has bits of p_flags without a meaning and no p_paddr.
const DATA_FILE: [u32; 34] = [
    0x464C457F, 0x00010101, 0, 0, 0x00F30002, 1, 0x00010000, 52, 0, 16, 0x00200034, 2, 0, 1, 116,
    0x00010000, 0x00010000, 12, 12, 5, 4096, 1, 128, 0x00020001, 0, 5, 9, 0x86, 4096, 0x05D00893,
    0x00700513, 0x00000073, 0x04030201, 5,
];

/// Its headers and contents, in front of an image of 64 bytes.
const DATA_FRONT: [u32; 42] = [
    0x464C457F, 0x00010101, 0, 0, 0x00F30002, 1, 0x00010000, 52, 0, 16, 0x00200034, 3, 0, 1, 148,
    0x00010000, 0x00010000, 12, 12, 5, 1, 1, 160, 0x00020001, 0x00020001, 5, 9, 6, 1, 0x6C434953,
    168, 0, 0, 64, 64, 4, 4, 0x05D00893, 0x00700513, 0x00000073, 0x04030201, 5,
];

#[test]
fn segments_keep_their_order_and_the_image_is_aligned(rt: HostRuntime) -> Result<(), Fail> {
    let alloc = rt.alloc();
    let original = bytes_of(alloc, &DATA_FILE)?;
    let program = program_in(alloc, &original)?;
    let image = image_of(alloc, &EXACT)?;
    let file = write_elf(alloc, &program, &image).ok().ok_or("memory")?;
    let behind = file.strip_prefix(bytes_of(alloc, &DATA_FRONT)?.as_slice());
    assert_eq!(rt; behind, Some(image.bytes()));
    Ok(())
}

/// The words of a file with a text and so many segments in all: each of the others is a word of
/// memory without bytes in the file.
fn file_with(alloc: Global, segments: u32) -> Result<Vec<u32>, Fail> {
    let offset = 52 + 32 * (segments % 100);
    let head = [
        0x464C457F, 0x00010101, 0, 0, 0x00F30002, 1, 0x00010000, 52, 0, 0, 0x00200034, segments, 0,
        1, offset, 0x00010000, 0x00010000, 12, 12, 5, 1,
    ];
    let mut words = Vec::from_slice(alloc, &head)?;
    for k in 1..segments % 100 {
        words.extend_from_slice(&[1, 0, 0x00020000 + 4 * k, 0, 0, 4, 4, 1])?;
    }
    words.extend_from_slice(&TEXT)?;
    Ok(words)
}

#[test]
fn the_file_of_64_segments_has_too_many_headers(rt: HostRuntime) -> Result<(), Fail> {
    let alloc = rt.alloc();
    let image = image_of(alloc, &EXACT)?;
    for (segments, want) in [(63, None), (64, Some(ElfRefusal::Many(44)))] {
        let original = bytes_of(alloc, &file_with(alloc, segments)?)?;
        let program = program_in(alloc, &original)?;
        let file = write_elf(alloc, &program, &image).ok().ok_or("memory")?;
        let read = read_elf(&file[..file.len().min(1 << 20)]);
        assert_eq!(rt; read.err(), want, "{segments}");
    }
    Ok(())
}
