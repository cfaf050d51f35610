//! Ways out of a block that a run has gone.
#![tactic(auto)]

ghost use Rattle.std.specs.Prelude.{◌≡◌, ◌%◌, ◌<◌, ◌^◌, IfSome, None, Some, length, slice_index, true};
ghost use Rattle.swi_image_ops.specs.ImageOp.{row_of};
ghost use Rattle.swi_outside.specs.CacheRam.{with_fetch};
ghost use Rattle.swi_rom.specs.Record.{indirect};
ghost use Rattle.swi_board.specs.Reached.{ExitInRow, Passed, Reached};
ghost use Rattle.swi_board.specs.Targets.{AreFound};

use crate::links::{Links, distance};
use crate::targets::{Found, Targets};
use std::alloc::Global;
use swi_image::ImageView;
use swi_image_ops::index_in_row;
use swi_isa::{EBREAK, Instr, decode};
use swi_outside::{Memory, SteadyRam};
use swi_rom::CacheRom;

/// Where the exits of blocks, and the jumps over registers, led that a run has made.
#[derive(Drop)]
pub struct Ways {
    pub links: Links,
    pub targets: Targets,
}

impl Ways {
    /// None was gone. Memory where there is not enough of it.
    pub fn new(alloc: Global) -> Result<Ways, Memory> {
        let links = Links::new(alloc)?;
        let targets = Targets::new(alloc)?;
        Ok(Ways { links, targets })
    }
}

/// The word at an index of a steady ram, fetched.
#[inline(always)]
pub(crate) fn fetch<M: SteadyRam>(ram: &mut M, i: u32) -> u32
    requires steady { M.steady ≡ true }
    requires inside { i < length (M.state ram.old).words }
    ensures word { result ≡ slice_index (M.state ram.old).words i }
    ensures ram { M.state ram.new ≡ with_fetch (M.state ram.old) i }
{
    match ram.fetch(i) {
        Ok(word) => word,
        Err(_) => {
            // Asked for the proof alone: no fault was counted.
            let _steady = ram.is_steady();
            unreachable!()
        }
    }
}

/// Goes over an exit, by the word that was fetched there, whose link isn't known, or that isn't linked: the service serves it
/// then. The index in the ram where its target stands.
#[cold]
#[inline(never)]
fn pass<R: CacheRom, M: SteadyRam>(
    rom: &mut R,
    image: &ImageView<'_>,
    ram: &mut M,
    ways: &mut Ways,
    exit: u64,
    at: u32,
    word: u32,
) -> u32
    requires steady { M.steady ≡ true }
    requires sound { R.service.sound rom.old image.now (M.state ram.old).words }
    requires services { (R.service.kept rom.old).counts.services < 2 ^ 50 }
    requires exit { ExitInRow image.now (R.service.kept rom.old) exit at }
    requires word { word ≡ slice_index (M.state ram.old).words at }
    requires found { AreFound image.now (R.service.kept rom.old) ways.old.targets }
    ensures passed { Passed R.service image.now exit (record { rom = rom.old; ram = M.state ram.old })
        (record { rom = rom.new; ram = M.state ram.new }) result }
    ensures found { AreFound image.now (R.service.kept rom.new) ways.new.targets }
{
    if word != EBREAK {
        let Some(Instr::Jal { off, .. }) = decode(word) else {
            unreachable!()
        };
        let distance = distance(off);
        ways.links.keep(exit, word, distance);
        return at.wrapping_add(distance);
    }
    ways.targets.forget();
    // Read for the proof alone: that an index in the row has 32 bits.
    let _words = image.words();
    let target = image.word_in_row(exit as u32 + 1);
    match rom.cross(image, ram, at, target) {
        Ok(index) => index,
        Err(_) => {
            let _steady = ram.is_steady();
            unreachable!()
        }
    }
}

/// Goes over a direct exit, which is fetched: the index in the ram where its target stands.
#[inline(always)]
pub(crate) fn leave<R: CacheRom, M: SteadyRam>(
    rom: &mut R,
    image: &ImageView<'_>,
    ram: &mut M,
    ways: &mut Ways,
    exit: u64,
    at: u32,
) -> u32
    requires steady { M.steady ≡ true }
    requires sound { R.service.sound rom.old image.now (M.state ram.old).words }
    requires services { (R.service.kept rom.old).counts.services < 2 ^ 50 }
    requires exit { ExitInRow image.now (R.service.kept rom.old) exit at }
    requires found { AreFound image.now (R.service.kept rom.old) ways.old.targets }
    ensures passed { Passed R.service image.now exit (record { rom = rom.old; ram = with_fetch (M.state ram.old) at })
        (record { rom = rom.new; ram = M.state ram.new }) result }
    ensures found { AreFound image.now (R.service.kept rom.new) ways.new.targets }
{
    let word = fetch(ram, at);
    match ways.links.find(exit, word) {
        Some(distance) => at.wrapping_add(distance),
        None => pass(rom, image, ram, ways, exit, at, word),
    }
}

/// Jumps over a register to a target whose place isn't known, by the exit at an index of the ram, which is fetched. None,
/// and nothing has changed, where no text word stands at the target.
#[cold]
#[inline(never)]
fn jump_anew<R: CacheRom, M: SteadyRam>(
    rom: &mut R,
    image: &ImageView<'_>,
    ram: &mut M,
    targets: &mut Targets,
    at: u32,
    target: u32,
) -> Option<Found>
    requires steady { M.steady ≡ true }
    requires sound { R.service.sound rom.old image.now (M.state ram.old).words }
    requires services { (R.service.kept rom.old).counts.services < 2 ^ 50 }
    requires inside { at < length (M.state ram.old).words }
    requires found { AreFound image.now (R.service.kept rom.old) targets.old }
    ensures jumped { IfSome result (λ f. Reached R.service image.now (indirect target)
        (record { rom = rom.old; ram = with_fetch (M.state ram.old) at }) (record { rom = rom.new; ram = M.state ram.new }) f.index) }
    ensures row { IfSome result (λ f. row_of image.now target ≡ Some f.row) }
    ensures same_rom { result ≡ None → rom.new ≡ rom.old }
    ensures same_ram { result ≡ None → M.state ram.new ≡ M.state ram.old }
    ensures found { AreFound image.now (R.service.kept rom.new) targets.new }
{
    let row = index_in_row(image, target)?;
    fetch(ram, at);
    if let Some(index) = rom.revisit(image, ram, target) {
        return Some(targets.keep(target, index, row));
    }
    targets.forget();
    match rom.enter(image, ram, target) {
        Ok(index) => Some(targets.keep(target, index, row)),
        Err(_) => {
            let _steady = ram.is_steady();
            unreachable!()
        }
    }
}

/// Jumps over a register, by the exit at an index of the ram, which is fetched: where the target stands. None, and nothing
/// has changed, where no text word stands there.
#[inline(always)]
pub(crate) fn jump<R: CacheRom, M: SteadyRam>(
    rom: &mut R,
    image: &ImageView<'_>,
    ram: &mut M,
    targets: &mut Targets,
    at: u32,
    target: u32,
) -> Option<Found>
    requires steady { M.steady ≡ true }
    requires sound { R.service.sound rom.old image.now (M.state ram.old).words }
    requires services { (R.service.kept rom.old).counts.services < 2 ^ 50 }
    requires inside { at < length (M.state ram.old).words }
    requires found { AreFound image.now (R.service.kept rom.old) targets.old }
    ensures jumped { IfSome result (λ f. Reached R.service image.now (indirect target)
        (record { rom = rom.old; ram = with_fetch (M.state ram.old) at }) (record { rom = rom.new; ram = M.state ram.new }) f.index) }
    ensures row { IfSome result (λ f. row_of image.now target ≡ Some f.row) }
    ensures aligned { IfSome result (λ f. target % 4 ≡ 0) }
    ensures same_rom { result ≡ None → rom.new ≡ rom.old }
    ensures same_ram { result ≡ None → M.state ram.new ≡ M.state ram.old }
    ensures found { AreFound image.now (R.service.kept rom.new) targets.new }
{
    if target % 4 != 0 {
        return None;
    }
    let Some(found) = targets.find(target) else {
        return jump_anew(rom, image, ram, targets, at, target);
    };
    fetch(ram, at);
    rom.visit(image, ram, target, found.index);
    Some(found)
}
