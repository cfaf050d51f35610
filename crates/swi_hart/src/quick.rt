//! A step whose fetched word is the image's, or a link.
#![tactic(auto)]

ghost use Rattle.std.specs.Prelude.{◌≡◌, ◌^◌, ◌<◌, slice_index, IsErrOf, Some, true};
ghost use Rattle.swi_outside.specs.CacheRam.{RamState};
ghost use Rattle.swi_outside.specs.Devices.{streams};
ghost use Rattle.swi_outside.specs.Told.{AsTold};
ghost use Rattle.swi_outside.specs.Source.{HasGiven};
ghost use Rattle.swi_hart.specs.MachineStep.{BoardStepped, ReadyToStep, Answered};
ghost use Rattle.swi_hart.specs.Leaving.{Home, leaves, offset_of};

use crate::fault::{BoardFault, fault_of};
use crate::hart::{CodePlace, Control, Hart};
use crate::step::{exit_step, role};
use crate::word::{end, word_step};
use swi_calls::End;
use swi_exec::FaultKind;
use swi_image::ImageView;
use swi_isa::{Instr, decode};
use swi_outside::{CacheRam, Sink, Source};
use swi_rom::CacheRom;

/// Whether the word leaves its block.
#[inline(always)]
fn leaves(x: &Instr) -> bool
    ensures { result ≡ leaves x.now }
{
    matches!(*x, Instr::Jal { .. } | Instr::Ebreak)
}

/// The offset of a JAL, and else 0.
#[inline(always)]
fn offset_of(x: &Instr) -> u32
    ensures { result ≡ offset_of (Some x.now) }
{
    match *x {
        Instr::Jal { off, .. } => off,
        _ => 0,
    }
}

/// A step at a word of the ram that was fetched: `got`, from the place `at` under control. The service is sound, and so
/// the word is the image's, or a link. Faults are as for `quick_step`.
#[inline(always)]
#[tactic(auto, using(swi_outside::proofs::SourceLemmas::given_still))]
fn at_word<R: CacheRom, M: CacheRam, I: Source, O: Sink, E: Sink>(
    hart: &mut Hart,
    rom: &mut R,
    image: &ImageView<'_>,
    ram: &mut M,
    input: &mut I,
    out: &mut O,
    err: &mut E,
    got: u32,
    at: CodePlace,
) -> Result<(), BoardFault>
    requires ready { ReadyToStep image.now (R.service.kept rom.old) hart.old }
    requires word { hart.old.machine.pc < 2 ^ 32 }
    requires control { hart.old.control ≡ Control.At at.index at.block at.offset at.stage }
    requires home { Home image.now (R.service.kept rom.old) hart.old.machine at.index at.block at.offset at.stage }
    requires sound { R.service.sound rom.old image.now (M.state ram.old).words }
    requires got { got ≡ slice_index (M.state ram.old).words at.index }
    ensures gave { HasGiven (I.state input.old) (I.state input.new) }
    ensures unasked { IsErrOf result BoardFault.RamFault → I.state input.new ≡ I.state input.old }
    ensures stepped { AsTold (I.state input.old) (I.state input.new) (λ old new. (before : RamState) → Answered (Some got) before at.index (M.state ram.old) →
        BoardStepped R.service image.now
        (record { hart = hart.old; rom = rom.old; ram = before })
        (record { hart = hart.new; rom = rom.new; ram = M.state ram.new })
        (streams old (O.state out.old) (E.state err.old))
        (streams new (O.state out.new) (E.state err.new)) result) }
{
    let Some(x) = decode(got) else { unreachable!() };
    if leaves(&x) {
        // A copy of its own: `at` is then passed to nothing that isn't inlined, and stays in registers.
        let place = CodePlace { ..at };
        return match exit_step(hart, rom, image, ram, got, offset_of(&x), place) {
            Ok(_) => Ok(()),
            Err(_) => {
                hart.failed = true;
                Err(BoardFault::RamFault)
            }
        };
    }
    let role = role(hart, at.stage, &x);
    match word_step(hart, at, &x, role, input, out, err) {
        Ok(_) => Ok(()),
        Err(fault) => {
            hart.failed = true;
            Err(fault_of(fault))
        }
    }
}

/// A step at a word of the ram.
#[inline(always)]
#[tactic(auto, using(swi_outside::proofs::SourceLemmas::given_still))]
fn at_step<R: CacheRom, M: CacheRam, I: Source, O: Sink, E: Sink>(
    hart: &mut Hart,
    rom: &mut R,
    image: &ImageView<'_>,
    ram: &mut M,
    input: &mut I,
    out: &mut O,
    err: &mut E,
    at: CodePlace,
) -> Result<(), BoardFault>
    requires ready { ReadyToStep image.now (R.service.kept rom.old) hart.old }
    requires word { hart.old.machine.pc < 2 ^ 32 }
    requires control { hart.old.control ≡ Control.At at.index at.block at.offset at.stage }
    requires home { Home image.now (R.service.kept rom.old) hart.old.machine at.index at.block at.offset at.stage }
    requires sound { R.service.sound rom.old image.now (M.state ram.old).words }
    ensures gave { HasGiven (I.state input.old) (I.state input.new) }
    ensures unasked { IsErrOf result BoardFault.RamFault → I.state input.new ≡ I.state input.old }
    ensures stepped { AsTold (I.state input.old) (I.state input.new) (λ old new. BoardStepped R.service image.now
        (record { hart = hart.old; rom = rom.old; ram = M.state ram.old })
        (record { hart = hart.new; rom = rom.new; ram = M.state ram.new })
        (streams old (O.state out.old) (E.state err.old))
        (streams new (O.state out.new) (E.state err.new)) result) }
{
    let got = match ram.fetch(at.index) {
        Ok(got) => got,
        Err(_) => {
            hart.failed = true;
            return Err(BoardFault::RamFault);
        }
    };
    at_word(hart, rom, image, ram, input, out, err, got, at)
}

/// One machine step: the word under control is fetched and executed, or the exit at which it stands is left. Where no
/// text word is under control the run ends.
///
/// Each fault comes only where its device's count rose; of the hart only `failed` and the memory can then have changed.
#[inline(never)]
#[tactic(auto, using(swi_outside::proofs::SourceLemmas::given_still))]
pub fn quick_step<R: CacheRom, M: CacheRam, I: Source, O: Sink, E: Sink>(
    hart: &mut Hart,
    rom: &mut R,
    image: &ImageView<'_>,
    ram: &mut M,
    input: &mut I,
    out: &mut O,
    err: &mut E,
) -> Result<(), BoardFault>
    requires ready { ReadyToStep image.now (R.service.kept rom.old) hart.old }
    requires sound { R.service.sound rom.old image.now (M.state ram.old).words }
    ensures word { hart.old.machine.pc < 2 ^ 32 }
    ensures gave { HasGiven (I.state input.old) (I.state input.new) }
    ensures unasked { IsErrOf result BoardFault.RamFault → I.state input.new ≡ I.state input.old }
    ensures stepped { AsTold (I.state input.old) (I.state input.new) (λ old new. BoardStepped R.service image.now
        (record { hart = hart.old; rom = rom.old; ram = M.state ram.old })
        (record { hart = hart.new; rom = rom.new; ram = M.state ram.new })
        (streams old (O.state out.old) (E.state err.old))
        (streams new (O.state out.new) (E.state err.new)) result) }
{
    let pc = hart.origin_pc();
    match hart.control.control() {
        Control::At(index, block, offset, stage) => {
            let at = CodePlace {
                index,
                block,
                offset,
                stage,
            };
            at_step(hart, rom, image, ram, input, out, err, at)
        }
        Control::Outside => {
            end(hart, End::Faulted(FaultKind::FetchAccess, pc));
            Ok(())
        }
    }
}
