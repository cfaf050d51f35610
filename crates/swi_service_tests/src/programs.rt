//! The programs of the tests, from files of one segment.

ghost use Rattle.std.specs.Prelude.{◌≡◌, ◌<◌, ◌^◌, true, is_some};
ghost use Rattle.swi_image.specs.Place.{place_of};
ghost use Rattle.swi_program.specs.Text.{text_of, word_of};
ghost use Rattle.swi_render.specs.Carried.{Carries};
ghost use Rattle.swi_render.specs.ImageOf.{IsImageOf};

use std::alloc::Global;
use std::test::Fail;
use swi_elf_read::read_elf;
use swi_image::ImageView;
use swi_program::{Program, append_words, program_of};

/// The words of an ELF file in front of its one segment's text, by hand from the ELF document.
const FRONT: [u32; 15] = [
    0x464C457F, 0x00010101, 0, 0, 0x00F30002, 1, 0x00010000, 52, 0, 0, 0x00200034, 1, 0, 1, 0x54,
];

/// Counts from 3 down to 0, and exits with 0.
pub const COUNT: &[u32] = &[0x00300293, 0xFFF28293, 0xFE029EE3, 0x05D00893, 0x00000073];

/// A file of one segment at 0x10000 with this text.
pub fn file_with(alloc: Global, text: &[u32], rights: u32) -> Result<Vec<u8>, Fail> {
    if text.len() > 60 {
        return Err(Fail::from("too many words for a test"));
    }
    let size = 4 * text.len() as u32;
    let mut bytes = Vec::new(alloc);
    append_words(&mut bytes, &FRONT)?;
    append_words(&mut bytes, &[0x10000, 0x10000, size, size, rights, 4])?;
    append_words(&mut bytes, text)?;
    Ok(bytes)
}

/// The program of a file.
pub fn program_in<'a>(alloc: Global, file: &'a [u8]) -> Result<Program<'a>, Fail> {
    if file.len() > 1024 {
        return Err(Fail::from("too many bytes for a test"));
    }
    let Ok(elf) = read_elf(file) else {
        return Err(Fail::from("no program"));
    };
    Ok(program_of(alloc, &elf)?)
}

/// The image carries the program's text, which it is one of.
pub fn carry(image: &ImageView<'_>, program: &Program<'_>)
    requires own { IsImageOf (text_of program.now.segments) image.now }
    ensures carries { Carries (word_of (text_of program.now.segments)) image.now }
    ensures placed { is_some (place_of image.now program.now.entry) ≡ true }
    ensures word { program.now.entry < 2 ^ 32 }
{
    let _blocks = image.blocks();
    let _text = program.text();
    let _entry = program.entry();
}
