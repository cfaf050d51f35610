//! Programs, and what they are made of.
#![tactic(auto)]

ghost use Rattle.std.specs.Prelude.{◌≡◌, ℕ, ◌+◌, ◌%◌, ◌^◌, ◌<◌, ◌≤◌, length, find, sum_by, map, IfOk, option_copied, option_map, slice_get, Some};
ghost use Rattle.swi_elf_read.specs.Loaded.{loaded_segments, AreLoadable};
ghost use Rattle.swi_memory.specs.BusOf.{AreApart, range_of, texts, word_in};
ghost use Rattle.swi_program.specs.Program.{can_execute, AreSegments};
ghost use Rattle.swi_program.specs.Text.{text_of, word_of, IsTextAddress, HasText, IsSized};
ghost use Rattle.swi_memory.specs.declared.layout.Layout.{Layout};
ghost use Rattle.swi_program.specs.Layout.{IsLayoutOf, IsRoomy};
ghost use Rattle.swi_program.specs.ProgramOf.{program_of_file, program_of_text, segment_of};

use crate::text_view::{self, TextView};
use std::alloc::Global;
use std::marker::Model;
use swi_elf_read::{Elf, elf_entry, elf_flags, loaded, loaded_at};
use swi_memory::Segment;
use swi_outside::Memory;

/// A program, as a view of a file: the bytes of its segments stay in the file. Contracts see it as its
/// entry address, the flags of its ELF header and its segments.
#[derive(Drop)]
pub struct Program<'a> {
    entry: u32,
    flags: u32,
    segments: Vec<Segment<'a>>,
}

impl<'a> Model for Program<'a> {
    ghost use Rattle.swi_program.specs.Program.{ProgramData, IsProgram};

    ghost Value = { ProgramData };

    ghost view = { λ p. record { entry = p.entry; flags = p.flags; segments = p.segments.items } };

    ghost invariant = { λ p. IsProgram (record { entry = p.entry; flags = p.flags; segments = p.segments.items }) };
}

/// The first executable segment.
fn first_executable<'s, 'a>(segments: &'s [Segment<'a>]) -> Option<&'s Segment<'a>>
    ensures { option_copied result ≡ find can_execute segments.now }
{
    segments.iter().find(|s| s.flags() % 2 == 1)
}

impl<'a> Program<'a> {
    /// The address at which a run begins: that of an instruction word.
    pub fn entry(&self) -> u32
        ensures value { result ≡ self.now.entry }
        ensures word { IsTextAddress (text_of self.now.segments) result }
    {
        self.entry
    }

    /// The flags of the ELF header, of which bits 0 to 3 are clear.
    pub fn flags(&self) -> u32
        ensures value { result ≡ self.now.flags }
        ensures plain { result % 16 ≡ 0 }
    {
        self.flags
    }

    /// The segments, in the order of the file's program headers. Each layout of the program leaves
    /// them their room.
    #[tactic(auto, using(crate::proofs::Texts::text_laws))]
    pub fn segments(&self) -> &[Segment<'a>]
        ensures value { result.now ≡ self.now.segments }
        ensures each { AreSegments self.now.segments }
        ensures apart { AreApart (map range_of self.now.segments) }
        ensures one_text { texts self.now.segments ≡ 1 }
        ensures memory { sum_by (λ s. s.size) self.now.segments ≤ 2 ^ 25 }
        ensures room { (l : Layout) → IsLayoutOf self.now.segments l → IsRoomy self.now.segments l }

        // At each address they hold the word of the text that stands there.
        ensures held { (a : ℕ) → word_in self.now.segments a ≡ word_of (text_of self.now.segments) a }
    {
        &self.segments
    }

    /// The executable segment.
    #[tactic(auto, using(crate::proofs::Texts::text_laws))]
    fn executable(&self) -> &Segment<'a>
        ensures found { find can_execute self.now.segments ≡ Some result.now }
        ensures whole { HasText result.now }
        ensures held { (a : ℕ) → word_in self.now.segments a ≡ word_of (text_of self.now.segments) a }
    {
        match first_executable(&self.segments) {
            Some(segment) => segment,
            None => unreachable!(),
        }
    }

    /// The text: the instruction words of the executable segment, 1 to 2^19 of them.
    #[tactic(auto, unfolding(crate::specs::Text::text_of))]
    pub fn text(&self) -> TextView<'a>
        ensures value { result ≡ text_of self.now.segments }

        // One word at least, since the entry is a text word's address.
        ensures sized { IsSized (text_of self.now.segments) }

        // At each address stands the word that the segments hold there.
        ensures held { (a : ℕ) → word_in self.now.segments a ≡ word_of (text_of self.now.segments) a }
    {
        text_view::text_of(self.executable())
    }
}

/// The k-th segment that a file loads.
fn segment_at<'a>(e: &Elf<'a>, k: u32) -> Segment<'a>
    requires within { k < length (loaded_segments e.now) }
    requires each { AreLoadable (loaded_segments e.now) }
    ensures { option_map segment_of (slice_get (loaded_segments e.now) k) ≡ Some result }
{
    let segment = loaded_at(e, k);
    Segment::of(segment.base, segment.flags, segment.size, segment.bytes)
}

/// The program of an accepted file: its entry, its flags and the segments that it loads, whose bytes
/// stay in the file.
///
/// The only error is want of memory for the list of segments.
#[tactic(auto, using(crate::proofs::FromFile::file_steps, crate::proofs::FromFile::file_program))]
pub fn program_of<'a>(alloc: Global, e: &Elf<'a>) -> Result<Program<'a>, Memory>
    ensures { IfOk result (λ p. p ≡ program_of_file e.now) }
{
    let count = loaded(e);
    let (entry, flags) = (elf_entry(e), elf_flags(e));
    let mut segments = Vec::new(alloc);
    for k in 0..count {
        if segments.push(segment_at(e, k)).is_err() {
            return Err(Memory);
        }
    }
    Ok(Program {
        entry,
        flags,
        segments,
    })
}

/// The program of the bytes of a text at a base address, at which a run begins: one segment that can
/// be read and executed. The bytes make 1 to 2^19 whole words, which end at 2^32 at most; the base
/// is a multiple of 4. The ELF flags are 0.
///
/// The only error is want of memory for the list of one segment.
#[tactic(auto, using(crate::proofs::FromText::text_program))]
pub fn one_text<'a>(alloc: Global, base: u32, text: &'a [u8]) -> Result<Program<'a>, Memory>
    requires aligned { base % 4 ≡ 0 }
    requires whole { length text.now % 4 ≡ 0 }
    requires some { 0 < length text.now }
    requires few { length text.now ≤ 2 ^ 21 }
    requires end { base + length text.now ≤ 2 ^ 32 }
    ensures { IfOk result (λ p. p ≡ program_of_text base text.now) }
{
    let segment = Segment::of(base, 5, text.len() as u32, text);
    let mut segments = Vec::new(alloc);
    if segments.push(segment).is_err() {
        return Err(Memory);
    }
    Ok(Program {
        entry: base,
        flags: 0,
        segments,
    })
}
