//! A plain word of another hand in the ram: it is executed, and the run goes on as over the image's.

ghost use Rattle.std.specs.Prelude.{◌≡◌, ◌<◌, ◌≤◌, Some, None, IfSome, IsOk, List, ℕ, length, slice_index, slice_set, true, false};
ghost use Rattle.swi_hart.specs.Matching.{Fits};
ghost use Rattle.swi_hart.specs.Hart.{index_of, place_under, is_between};
ghost use Rattle.swi_image.specs.Format.{ImageData};
ghost use Rattle.swi_image.specs.Place.{word_at};
ghost use Rattle.swi_image.specs.Sound.{IsImage};
ghost use Rattle.swi_outside.specs.CacheRam.{Fetched, WordSet};
ghost use Rattle.swi_program.specs.Layout.{IsLayoutOf};
ghost use Rattle.swi_program.specs.Text.{text_of};
ghost use Rattle.swi_render.specs.ImageOf.{IsImageOf};

use super::*;
use std::marker::Model;
use swi_board::Hart;
use swi_devices::VecRam;
use swi_image::ImageView;
use swi_isa::Reg;
use swi_memory::Layout;
use swi_outside::{CacheRam, Failed, SteadyRam};
use swi_slots::ScanRom;

/// Sets a0 to 7, as the text has it, and to 8.
const OWN: u32 = 0x00700513;

const OTHER: u32 = 0x00800513;

/// What stands behind the second step, steps and a0; and behind the third, the ending and the counts of steps,
/// instructions and fetches.
type Steps = ((u64, u32), (Option<End>, u64, u64, u64));

/// A ram that never fails and counts its fetches.
#[derive(Drop)]
struct Counted {
    ram: VecRam,
    fetches: u64,
}

impl Model for Counted {
    ghost use Rattle.swi_outside.specs.CacheRam.{RamState};

    ghost Value = { RamState };

    ghost view = { λ r. r.ram };
}

impl CacheRam for Counted {
    ghost state = { λ r. r };

    fn words(&self) -> u32 {
        self.ram.words()
    }

    fn fetch(&mut self, i: u32) -> Result<u32, Failed>
        requires { i < length self.old.words }
        ensures fetched { Fetched self.old i result self.new }
    {
        self.fetches = self.fetches.saturating_add(1);
        self.ram.fetch(i)
    }

    fn set(&mut self, i: u32, w: u32) -> Result<(), Failed>
        requires { i < length self.old.words }
        ensures set { WordSet self.old i w result self.new }
        ensures words { self.new.words ≡ slice_set self.old.words i w }
        ensures never_fails { IsOk result }
    {
        self.ram.set(i, w)
    }
}

impl SteadyRam for Counted {
    ghost steady = { true };

    fn is_steady(&self) -> bool {
        self.ram.is_steady()
    }
}

/// Whether a board may make a step.
fn goes_on<R: CacheRom>(board: &Board<R>) -> bool
    ensures running { result ≡ true → board.now.hart.machine.ending ≡ None }
    ensures unfailed { result ≡ true → board.now.hart.failed ≡ false }
    ensures few { result ≡ true → board.now.hart.machine.steps < 10 }
    ensures count { result ≡ true → board.now.hart.count < 10 }
    ensures services { result ≡ true → (R.service.kept board.now.rom).counts.services < 10 }
{
    board.ending().is_none()
        && !board.failed()
        && board.steps() < 10
        && board.machine_steps() < 10
        && board.rom().counts().services < 10
}

/// The index of the word under control between two instructions, its block and its offset there, where the service shows
/// the same, and the image and a ram of eight words have the text's own second word there.
fn under<R: CacheRom>(
    hart: &Hart,
    rom: &R,
    image: &ImageView<'_>,
    ram: &Counted,
) -> Option<(u32, (u32, u32))>
    ensures at { IfSome result (λ p. index_of hart.now.machine.ending hart.now.control ≡ Some p.0) }
    ensures place { IfSome result (λ p. place_under hart.now.machine.ending hart.now.control ≡ Some p.1) }
    ensures between { IfSome result (λ p. is_between hart.now.control ≡ true) }
    ensures shown { IfSome result (λ p. R.service.shown rom.now p.0 ≡ Some p.1) }
    ensures inside { IfSome result (λ p. p.0 < length ram.now.words) }
    ensures own { IfSome result (λ p. word_at image.now p.1.0 p.1.1 ≡ 0x00700513) }
    ensures held { IfSome result (λ p. slice_index ram.now.words p.0 ≡ 0x00700513) }
{
    let i = hart.at()?;
    let place = hart.place()?;
    if !hart.is_between()
        || rom.at(i) != Some(place)
        || i != 1
        || place.0 >= image.blocks()
        || place.1 >= image.length(place.0)
        || image.word(place.0, place.1) != OWN
        || ram.words() != 8
        || ram.ram.word(i) != OWN
    {
        return None;
    }
    Some((i, place))
}

/// Sets a word of a ram.
fn put(ram: &mut Counted, i: u32, word: u32) -> Result<(), Failed>
    requires { i < length ram.old.words }
    ensures words { ram.new.words ≡ slice_set ram.old.words i word }
    ensures never_fails { IsOk result }
{
    ram.set(i, word)
}

/// Sets the word under control to another, makes a step, sets it back, and makes a step.
fn steps_over<R: CacheRom>(
    board: &mut Board<R>,
    image: &ImageView<'_>,
    ram: &mut Counted,
    input: &mut MemSource,
    out: &mut MemSink,
    err: &mut MemSink,
    i: u32,
    place: (u32, u32),
) -> Result<Steps, Fail>
    requires at { index_of board.old.hart.machine.ending board.old.hart.control ≡ Some i }
    requires place { place_under board.old.hart.machine.ending board.old.hart.control ≡ Some place }
    requires between { is_between board.old.hart.control ≡ true }
    requires fits { Fits image.now (R.service.kept board.old.rom) board.old.hart }
    requires sound { R.service.sound board.old.rom image.now ram.old.words }
    requires inside { i < length ram.old.words }
    requires own { word_at image.now place.0 place.1 ≡ 0x00700513 }
    requires held { slice_index ram.old.words i ≡ 0x00700513 }
{
    if !goes_on(board) || put(ram, i, OTHER).is_err() {
        return Err(Fail::from("no second step"));
    }
    if board.step(image, ram, input, out, err).is_err() {
        return Err(Fail::from("no second step"));
    }
    let second = (board.steps(), board.regs().get(Reg::of(10)));
    if !goes_on(board) || put(ram, i, OWN).is_err() {
        return Err(Fail::from("no third step"));
    }
    if board.step(image, ram, input, out, err).is_err() {
        return Err(Fail::from("no third step"));
    }
    Ok((
        second,
        (
            board.ending(),
            board.steps(),
            board.machine_steps(),
            ram.fetches,
        ),
    ))
}

/// Boots a board over a new service and makes a step, and then the steps above.
fn stepped<R: CacheRom>(
    alloc: Global,
    rom: R,
    image: &ImageView<'_>,
    program: &Program<'_>,
    layout: &Layout,
    ram: &mut Counted,
    input: &mut MemSource,
    out: &mut MemSink,
    err: &mut MemSink,
) -> Result<Steps, Fail>
    requires laid_out { IsLayoutOf program.now.segments layout.now }
    requires own { IsImageOf (text_of program.now.segments) image.now }
    requires sound { R.service.sound rom image.now ram.old.words }
{
    carry(image, program);
    if rom.counts().services > 0 {
        return Err(Fail::from("no new service"));
    }
    let Ok(mut board) = Board::boot(alloc, image, program, layout, false, rom, ram) else {
        return Err(Fail::from("no board"));
    };
    if board.steps() > 1
        || board.rom().counts().services > 1
        || board.run(image, ram, input, out, err, 1).is_err()
        || board.failed()
        || board.ending().is_some()
    {
        return Err(Fail::from("no second step"));
    }
    let (hart, rom) = board.part();
    let Some((i, place)) = under(&hart, &rom, image, ram) else {
        return Err(Fail::from("another word"));
    };
    let mut board = Board::join(hart, rom);
    steps_over(&mut board, image, ram, input, out, err, i, place)
}

/// The same over devices of its own: an input without bytes, two sinks, and a ram of eight words.
fn stepped_alone<R: CacheRom>(
    alloc: Global,
    rom: R,
    image: &ImageView<'_>,
    program: &Program<'_>,
    layout: &Layout,
) -> Result<Steps, Fail>
    requires laid_out { IsLayoutOf program.now.segments layout.now }
    requires own { IsImageOf (text_of program.now.segments) image.now }
    requires small { R.service.span (R.service.setting rom) ≤ 8 }
    requires new { (v : ImageData) (words : List ℕ) → IsImage v → v.block_words ≤ image.now.block_words →
        R.service.span (R.service.setting rom) ≤ length words → R.service.sound rom v words }
{
    let _blocks = image.blocks();
    let mut input = MemSource::new(Vec::new(alloc), Vec::new(alloc));
    let mut out = MemSink::new(alloc, 16, Vec::new(alloc))?;
    let mut err = MemSink::new(alloc, 16, Vec::new(alloc))?;
    let mut ram = Counted {
        ram: VecRam::new(alloc, 8)?,
        fetches: 0,
    };
    stepped(
        alloc, rom, image, program, layout, &mut ram, &mut input, &mut out, &mut err,
    )
}

/// The same over the service that scans, and over that with chains.
fn stepped_by_both(
    alloc: Global,
    image: &ImageView<'_>,
    program: &Program<'_>,
    layout: &Layout,
) -> Result<[Steps; 2], Fail>
    requires laid_out { IsLayoutOf program.now.segments layout.now }
    requires own { IsImageOf (text_of program.now.segments) image.now }
{
    let _blocks = image.blocks();
    if image.block_words() > 8 {
        return Err(Fail::from("long blocks"));
    }
    let scan = ScanRom::new(alloc, 32, image.block_words())?;
    let fifo = FifoRom::new(alloc, 32, image.block_words())?;
    Ok([
        stepped_alone(alloc, scan, image, program, layout)?,
        stepped_alone(alloc, fifo, image, program, layout)?,
    ])
}

/// The same over the image of a program in blocks of 8 words.
fn stepped_over(alloc: Global, program: &Program<'_>, layout: &Layout) -> Result<[Steps; 2], Fail>
    requires laid_out { IsLayoutOf program.now.segments layout.now }
{
    let Ok(image) = cut(alloc, program, 8) else {
        return Err(Fail::from("no image"));
    };
    stepped_by_both(alloc, &image.view(), program, layout)
}

#[test]
fn foreign_word_is_executed_by_both(rt: HostRuntime) -> Result<(), Fail> {
    let file = file_with(rt.alloc(), SEVEN, 5)?;
    let program = program_in(rt.alloc(), &file)?;
    let Ok(layout) = lay_out(&program, 1 << 20, 1 << 16) else {
        return Err(Fail::from("no room"));
    };
    let want = ((2, 8), (Some(Exited(8)), 3, 4, 3));
    let steps = stepped_over(rt.alloc(), &program, &layout)?;
    assert_eq!(rt; steps, [want, want]);
    Ok(())
}
