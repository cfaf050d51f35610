//! What a command works on: the program of a file, with an image of its text, or with its layout.
#![tactic(auto)]

ghost use Rattle.std.specs.Prelude.{◌≡◌, ◌⊎◌, ◌≤◌, IfOk, IfErr, OnOk, OnErr, Err, length};
ghost use Rattle.swi_command.specs.CommandLine.{IsBlockSize, IsInRange};
ghost use Rattle.swi_cut.specs.Cuts.{IsCutBy, IsSound};
ghost use Rattle.swi_image.specs.Format.{image_of};
ghost use Rattle.swi_program.specs.ProgramOf.{program_of_file};
ghost use Rattle.swi_program.specs.Text.{text_of};
ghost use Rattle.swi_program.specs.declared.placement.Room.{Room as RoomData};
ghost use Rattle.swi_render.specs.Cut.{Fits, IsCut};
ghost use Rattle.swi_task.specs.Checks.{Fails, ImageFails, ImagePasses, IsAccepted, IsAcceptedElf, IsLong, IsRefusedOr, Passes, file_limit, room_in, subject_checks};
ghost use Rattle.swi_task.specs.Subject.{IsPrepared, IsSubject, view_of};

use std::alloc::Global;
use swi_answer::Refusal;
use swi_check::check;
use swi_command::RunLimits;
use swi_cut::{CutRefusal, Cutting, cut_by};
use swi_elf_read::{Elf, image_bytes, read_elf};
use swi_image::{Image, ImageView, read_image};
use swi_memory::Layout;
use swi_program::{Program, Room, lay_out, program_of};

/// The ELF file that these bytes are, at most 2^26, read in place. The one refusal, Elf, is by the first check of such a file
/// that fails. Source: as of `read_elf`.
pub fn accept<'a>(file: &'a [u8]) -> Result<Elf<'a>, Refusal>
    requires within { length file.now ≤ file_limit }
    ensures file { IfOk result (λ e. e ≡ file.now) }
    ensures passes { OnOk result (Passes (IsAcceptedElf file.now)) }
    ensures refused { IfErr result (Fails (IsAcceptedElf file.now)) }
{
    match read_elf(file) {
        Ok(elf) => Ok(elf),
        Err(refusal) => Err(Refusal::Elf(refusal)),
    }
}

/// The program of an accepted file, whose bytes stay in the file. The only error is Memory.
pub fn load<'a>(alloc: Global, elf: &Elf<'a>) -> Result<Program<'a>, Refusal>
    ensures program { IfOk result (λ p. p ≡ program_of_file elf.now) }
    ensures memory { OnErr result (result ≡ Err Refusal.Memory) }
{
    match program_of(alloc, elf) {
        Ok(program) => Ok(program),
        Err(_) => Err(Refusal::Memory),
    }
}

/// The image that these bytes of the program's file are, at most 2^26, read in place: one that is accepted, and is of the
/// program's text.
///
/// Image is by the first check of an image that fails. Where all pass, Mismatch comes exactly where the image is none of the
/// text, and carries the first difference. No other error comes.
pub fn own_image<'a>(program: &Program<'_>, bytes: &'a [u8]) -> Result<ImageView<'a>, Refusal>
    requires within { length bytes.now ≤ file_limit }
    ensures view { IfOk result (λ v. v ≡ image_of bytes.now) }
    ensures passes { OnOk result (ImagePasses (text_of program.now.segments) bytes.now) }
    ensures refused { IfErr result (ImageFails (text_of program.now.segments) bytes.now) }
{
    let view = read_image(bytes).map_err(Refusal::Image)?;
    match check(program, &view) {
        Ok(()) => Ok(view),
        Err(mismatch) => Err(Refusal::Mismatch(mismatch)),
    }
}

/// The cut of a program's text into blocks of at most so many words, 2 to 1024, in the way that is asked for.
///
/// Long comes where a text word needs more words than that; it carries the first such word's address, and how many it needs.
/// The only other error is Memory.
pub fn cut_image_by(
    alloc: Global,
    program: &Program<'_>,
    block_words: u32,
    cutting: Cutting,
) -> Result<Image, Refusal>
    requires size { IsBlockSize block_words }
    ensures cut { IfOk result (λ i. IsCutBy cutting (text_of program.now.segments) block_words (image_of i)) }
    ensures sound { IfOk result (λ i. IsSound (image_of i)) }
    ensures fits { OnOk result (Fits (text_of program.now.segments) block_words) }
    ensures refused { IfErr result (λ r. (r ≡ Refusal.Memory) ⊎ IsLong (text_of program.now.segments) block_words r) }
{
    match cut_by(alloc, program, block_words, cutting) {
        Ok(image) => Ok(image),
        Err(CutRefusal::Long { address, needs }) => Err(Refusal::Long { address, needs }),
        Err(CutRefusal::Memory) => Err(Refusal::Memory),
    }
}

/// The greedy cut of a program's text into blocks of at most so many words, 2 to 1024. Its errors are those of
/// [`cut_image_by`].
pub fn cut_image(alloc: Global, program: &Program<'_>, block_words: u32) -> Result<Image, Refusal>
    requires size { IsBlockSize block_words }
    ensures cut { IfOk result (λ i. IsCut (text_of program.now.segments) block_words (image_of i)) }
    ensures sound { IfOk result (λ i. IsSound (image_of i)) }
    ensures fits { OnOk result (Fits (text_of program.now.segments) block_words) }
    ensures refused { IfErr result (λ r. (r ≡ Refusal.Memory) ⊎ IsLong (text_of program.now.segments) block_words r) }
{
    cut_image_by(alloc, program, block_words, Cutting::Greedy)
}

/// The image of a subject.
#[derive(Drop)]
pub enum SubjectImage<'a> {
    /// That of the file, read in place.
    Own(ImageView<'a>),
    /// One that was cut.
    Cut(Image),
}

impl SubjectImage<'_> {
    /// The image, wherever it stands.
    pub fn view(&self) -> ImageView<'_>
        ensures { result ≡ view_of self.now }
    {
        match self {
            SubjectImage::Own(view) => view.again(),
            SubjectImage::Cut(image) => image.view(),
        }
    }
}

/// What a command works on: a program, and an image of its text.
#[derive(Drop)]
pub struct Subject<'a> {
    pub program: Program<'a>,
    pub image: SubjectImage<'a>,
}

impl Subject<'_> {
    /// The most words of a block of its image: 2 to 1024.
    pub fn block_words(&self) -> u32
        ensures value { result ≡ (view_of self.now.image).block_words }
        ensures most { result ≤ 1024 }
    {
        self.image.view().block_words()
    }
}

/// The image of an accepted file, which is one of its text, or else the greedy cut into blocks of at most so many words.
fn subject_image<'a>(
    alloc: Global,
    elf: &Elf<'a>,
    program: &Program<'a>,
    block_words: u32,
) -> Result<SubjectImage<'a>, Refusal>
    requires is { program.now ≡ program_of_file elf.now }
    requires within { length elf.now ≤ file_limit }
    requires size { IsBlockSize block_words }
    ensures image { IfOk result (λ i. IsSubject elf.now block_words (record { program = program.now; image = i })) }
    ensures accepted { OnOk result (IsAccepted (subject_checks block_words elf.now)) }
    ensures refused { IfErr result (IsRefusedOr (subject_checks block_words elf.now)) }
{
    match image_bytes(elf) {
        Some(bytes) => Ok(SubjectImage::Own(own_image(program, bytes)?)),
        None => Ok(SubjectImage::Cut(cut_image(alloc, program, block_words)?)),
    }
}

/// The program of an accepted file of at most 2^26 bytes, with an image of its text: the one that the file has, or, where it
/// has none, the greedy cut into blocks of at most so many words, 2 to 1024.
///
/// An image of the file that is not accepted is refused by Image, one that is none of the text by Mismatch; where there is
/// none, a text word that fits into no block by Long. The refusal is by the first of these checks that fails; the only other
/// error is Memory.
pub fn subject_of<'a>(
    alloc: Global,
    elf: &Elf<'a>,
    program: Program<'a>,
    block_words: u32,
) -> Result<Subject<'a>, Refusal>
    requires is { program ≡ program_of_file elf.now }
    requires within { length elf.now ≤ file_limit }
    requires size { IsBlockSize block_words }
    ensures subject { IfOk result (IsSubject elf.now block_words) }
    ensures accepted { OnOk result (IsAccepted (subject_checks block_words elf.now)) }
    ensures refused { IfErr result (IsRefusedOr (subject_checks block_words elf.now)) }
{
    match subject_image(alloc, elf, &program, block_words) {
        Ok(image) => Ok(Subject { program, image }),
        Err(refusal) => Err(refusal),
    }
}

/// A program with its layout, as a run needs it.
#[derive(Drop)]
pub struct Prepared<'a> {
    pub program: Program<'a>,
    pub layout: Layout,
}

/// The program of an accepted file, with the layout that these limits give it: heap and stack, in bytes, behind its segments.
///
/// Room comes exactly where the stack would end past 2^32, and carries that end; the only other error is Memory, which may
/// come first.
pub fn prepare<'a>(
    alloc: Global,
    elf: &Elf<'a>,
    limits: &RunLimits,
) -> Result<Prepared<'a>, Refusal>
    requires ranges { IsInRange limits.now }
    ensures prepared { IfOk result (IsPrepared elf.now limits.now) }
    ensures refused { IfErr result
        (λ r. (r ≡ Refusal.Memory) ⊎ ((room : RoomData) × (room_in elf.now limits.now ≡ Err room)
        × (r ≡ Refusal.Room room.end))) }
{
    let program = load(alloc, elf)?;
    match lay_out(&program, limits.heap, limits.stack) {
        Ok(layout) => Ok(Prepared { program, layout }),
        Err(Room { end }) => Err(Refusal::Room { end }),
    }
}
