//! A step over a plain word, which need not be the image's.
#![tactic(auto)]

ghost use Rattle.std.specs.Prelude.{◌≡◌, ◌⊎◌, ◌^◌, ◌<◌, ℕ, IsErrOf, OnOk, MatchOption, Some, None, true, false};
ghost use Rattle.swi_isa.specs.Decode.{decoded};
ghost use Rattle.swi_image.specs.Place.{word_at};
ghost use Rattle.swi_rom.specs.Record.{Record};
ghost use Rattle.swi_outside.specs.Devices.{streams};
ghost use Rattle.swi_outside.specs.Told.{AsTold};
ghost use Rattle.swi_outside.specs.Source.{HasGiven};
ghost use Rattle.swi_hart.specs.Matching.{Fits};
ghost use Rattle.swi_hart.specs.Exchanged.{Exchanged, PlainAt, ExecutesHeld, is_plain};
ghost use Rattle.swi_hart.specs.Leaving.{Home};
ghost use Rattle.swi_hart.specs.MachineStep.{BoardStepped, ReadyToStep};

use crate::fault::BoardFault;
use crate::hart::{CodePlace, Control, Hart, Stage};
use crate::step::role;
use crate::word::run_word;
use swi_image::ImageView;
use swi_isa::{Instr, decode};
use swi_outside::{CacheRam, Sink, Source};
use swi_rom::CacheRom;

/// Whether a word is plain: LUI, or arithmetic.
fn is_plain(word: u32) -> bool
    ensures { result ≡ is_plain (decoded word) }
{
    matches!(
        decode(word),
        Some(Instr::Lui { .. } | Instr::Alu { .. } | Instr::Op { .. })
    )
}

/// The place under control, and the image's word there; None where that is not plain, or where no text word is under
/// control.
pub fn plain_place(hart: &Hart, image: &ImageView<'_>) -> Option<(CodePlace, u32)>
    requires running { hart.now.machine.ending ≡ None }
    requires fits { (r : Record) × Fits image.now r hart.now }
    ensures word { hart.now.machine.pc < 2 ^ 32 }
    ensures place { MatchOption result ((i b o : ℕ) (stage : Stage) → hart.now.control ≡ Control.At i b o stage →
        is_plain (decoded (word_at image.now b o)) ≡ false)
        (λ p. (hart.now.control ≡ Control.At p.0.index p.0.block p.0.offset p.0.stage) × (p.1 ≡ word_at image.now p.0.block p.0.offset)
        × (is_plain (decoded p.1) ≡ true)) }
{
    let _pc = hart.origin_pc();
    match hart.control.control() {
        Control::At(index, block, offset, stage) => {
            let own = image.word(block, offset);
            if is_plain(own) {
                let at = CodePlace {
                    index,
                    block,
                    offset,
                    stage,
                };
                Some((at, own))
            } else {
                None
            }
        }
        Control::Outside => None,
    }
}

/// A step at the place `at` under control, where the image has the plain word `own`: the word that is fetched is executed,
/// by the role of the image's. Faults are as for `quick_step`.
#[inline(never)]
pub fn plain_step<R: CacheRom, M: CacheRam, I: Source, O: Sink, E: Sink>(
    hart: &mut Hart,
    rom: &mut R,
    image: &ImageView<'_>,
    ram: &mut M,
    input: &mut I,
    out: &mut O,
    err: &mut E,
    at: CodePlace,
    own: u32,
) -> Result<(), BoardFault>
    requires ready { ReadyToStep image.now (R.service.kept rom.old) hart.old }
    requires unfailed { hart.old.failed ≡ false }
    requires word { hart.old.machine.pc < 2 ^ 32 }
    requires control { hart.old.control ≡ Control.At at.index at.block at.offset at.stage }
    requires home { Home image.now (R.service.kept rom.old) hart.old.machine at.index at.block at.offset at.stage }
    requires own { own ≡ word_at image.now at.block at.offset }
    requires plain { is_plain (decoded own) ≡ true }
    requires sound { R.service.sound rom.old image.now (M.state ram.old).words
        ⊎ Exchanged (λ words. R.service.sound rom.old image.now words) image.now (M.state ram.old).words hart.old.control }
    ensures gave { HasGiven (I.state input.old) (I.state input.new) }
    ensures unasked { IsErrOf result BoardFault.RamFault → I.state input.new ≡ I.state input.old }
    ensures stepped { AsTold (I.state input.old) (I.state input.new) (λ old new. BoardStepped R.service image.now
        (record { hart = hart.old; rom = rom.old; ram = M.state ram.old })
        (record { hart = hart.new; rom = rom.new; ram = M.state ram.new })
        (streams old (O.state out.old) (E.state err.old))
        (streams new (O.state out.new) (E.state err.new)) result) }
    ensures executes { OnOk result ((i b o : ℕ) (stage : Stage) →
        PlainAt image.now (M.state ram.old).words hart.old.control i b o stage →
        ExecutesHeld hart.old hart.new rom.old rom.new i b o stage (M.state ram.old).words (M.state ram.new).words
        (I.state input.old).left (I.state input.new).left (O.state out.old).held (O.state out.new).held (E.state err.old).held (E.state err.new).held) }
{
    let got = match ram.fetch(at.index) {
        Ok(got) => got,
        Err(_) => {
            hart.failed = true;
            return Err(BoardFault::RamFault);
        }
    };
    let (Some(image_word), Some(x)) = (decode(own), decode(got)) else {
        unreachable!()
    };
    let role = role(hart, at.stage, &image_word);
    run_word(hart, at, &x, role);
    Ok(())
}
