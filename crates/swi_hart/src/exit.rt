//! Exits of blocks.
#![tactic(auto)]

ghost use Rattle.std.specs.Prelude.{◌≡◌, ◌+◌, ◌^◌, ◌%◌, ◌<◌, ℕ, List, IfOk, Some, None};
ghost use Rattle.swi_image.specs.Format.{ImageData};
ghost use Rattle.swi_image.specs.Place.{word_at};
ghost use Rattle.swi_rom.specs.Record.{direct, indirect, jump_offset};
ghost use Rattle.swi_rom.specs.Coherent.{TargetAt};
ghost use Rattle.swi_hart.specs.Matching.{Arrives};
ghost use Rattle.swi_hart.specs.Leaving.{LeaveAt, fell, is_back, offset_of};
ghost use Rattle.swi_isa.specs.Decode.{decoded};
ghost use Rattle.swi_hart.specs.Hart.{exit_kind};
ghost use Rattle.swi_hart.specs.Service.{TransferServed};

use crate::hart::{CodePlace, Control, ExitKind, Stage};
use swi_image::ImageView;
use swi_isa::EBREAK;
use swi_outside::{CacheRam, Failed};
use swi_rom::{CacheRom, RomStop};

/// What an exit is for, by the word `d` behind it. Two tests of a bit each: of four cases of one number the compiler makes
/// a jump through a table.
#[inline(always)]
pub(crate) fn exit_kind(d: u32) -> ExitKind
    ensures { result ≡ exit_kind d }
{
    if d % 2 == 0 {
        if d % 4 == 0 {
            ExitKind::Direct
        } else {
            ExitKind::Misaligned
        }
    } else if d % 4 == 1 {
        ExitKind::Trap
    } else {
        ExitKind::Indirect
    }
}

/// Whether control went to the exit at the block's offset itself.
#[inline(always)]
pub(crate) fn is_back(control: Control, b: u32, o: u32) -> bool
    ensures { result ≡ is_back control b o }
{
    match control {
        Control::At(_, block, offset, _) => block == b && offset == o,
        Control::Outside => false,
    }
}

/// Whether an exit that was left for the target is one behind a block's last text word, which is no original step: by the
/// stage, the original address `pc` before, and whether control went back to the exit itself.
#[inline(always)]
pub(crate) fn fell(stage: Stage, pc: u32, target: u32, back: bool) -> bool
    ensures { result ≡ fell stage pc target back }
{
    match stage {
        Stage::Start => target == pc && !back,
        Stage::Low | Stage::Return | Stage::Leave => false,
    }
}

/// The index of the word to which the JAL at word `i` of the ram goes, by its offset in bytes.
#[inline(always)]
fn jump_index(off: u32, i: u32) -> u32
    ensures { (j : ℕ) → off ≡ jump_offset i j → j < 2 ^ 30 → i < 2 ^ 30 → result ≡ j }
{
    i.wrapping_mul(4).wrapping_add(off) / 4
}

/// Control at the word of the ram where, by the service, a target stands.
#[inline(always)]
pub(crate) fn control_at<R: CacheRom>(rom: &R, index: u32) -> Control
    ensures { (v : ImageData) (words : List ℕ) (t : ℕ) → R.service.sound rom.now v words →
        TargetAt v (R.service.kept rom.now) t index → Arrives v (R.service.kept rom.now) t result }
{
    match rom.at(index) {
        Some((b, o)) => Control::At(index, b, o, Stage::Start),
        None => Control::Outside,
    }
}

/// Leaves a block by an exit, over its link or by a service.
#[inline(always)]
pub(crate) fn leave<R: CacheRom, M: CacheRam>(
    rom: &mut R,
    image: &ImageView<'_>,
    ram: &mut M,
    got: u32,
    off: u32,
    at: CodePlace,
    target: u32,
) -> Result<Control, Failed>
    requires sound { R.service.sound rom.old image.now (M.state ram.old).words }
    requires services { (R.service.kept rom.old).counts.services < 2 ^ 50 }
    requires offset { off ≡ offset_of (decoded got) }
    requires exit { LeaveAt image.now (R.service.kept rom.old) (M.state ram.old).words got at.index at.block at.offset }
    requires target { target ≡ word_at image.now at.block (at.offset + 1) }
    ensures control { IfOk result (λ c. Arrives image.now (R.service.kept rom.new) target c) }
    ensures served { TransferServed R.service image.now (Some (direct at.block at.offset target))
        (record { rom = rom.old; ram = M.state ram.old })
        (record { rom = rom.new; ram = M.state ram.new }) result }
{
    if got != EBREAK {
        return Ok(control_at(rom, jump_index(off, at.index)));
    }
    match rom.cross(image, ram, at.index, target) {
        Ok(index) => Ok(control_at(rom, index)),
        Err(RomStop::Outside) => Ok(Control::Outside),
        Err(RomStop::RamFault) => Err(Failed),
    }
}

/// Goes to an original address by a jump over a register, which the service serves. Control is then at the address's
/// place in the ram, or outside where no text word stands there. `Failed` comes only where the ram's count of faults rose.
#[inline(never)]
pub fn jump<R: CacheRom, M: CacheRam>(
    rom: &mut R,
    image: &ImageView<'_>,
    ram: &mut M,
    target: u32,
) -> Result<Control, Failed>
    requires sound { R.service.sound rom.old image.now (M.state ram.old).words }
    requires services { (R.service.kept rom.old).counts.services < 2 ^ 50 }
    ensures control { IfOk result (λ c. Arrives image.now (R.service.kept rom.new) target c) }
    ensures served { TransferServed R.service image.now (Some (indirect target))
        (record { rom = rom.old; ram = M.state ram.old })
        (record { rom = rom.new; ram = M.state ram.new }) result }
{
    match rom.enter(image, ram, target) {
        Ok(index) => Ok(control_at(rom, index)),
        Err(RomStop::Outside) => Ok(Control::Outside),
        Err(RomStop::RamFault) => Err(Failed),
    }
}
