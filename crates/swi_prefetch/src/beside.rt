//! Turns of a hart and of an engine, one machine step or one word each.
#![tactic(auto)]

ghost use Rattle.std.specs.Prelude.{◌^◌, ◌<◌, IfOk, OnErr};
ghost use Rattle.swi_outside.specs.Devices.{streams};
ghost use Rattle.swi_outside.specs.Source.{HasGiven};
ghost use Rattle.swi_outside.specs.Told.{AsTold};
ghost use Rattle.swi_rom.specs.Writing.{FailedBelow};
ghost use Rattle.swi_prefetch.specs.Turns.{Beside, EngineTurned, HartTurned};

use crate::engine::CopyEngine;
use swi_board::Board;
use swi_hart::{BoardFault, quick_step};
use swi_image::ImageView;
use swi_outside::{CacheRam, Failed, Sink, Source};

/// One turn of the engine between two machine steps, also midway in an instruction: whether a word was written. Where the run has ended, or control is at no text word, nothing is done. The hart is as before, control's
/// block stays, and the board matches the same flat machines.
///
/// The board is as `Board::boot`, `step` and `turn` leave it, for this image and the ram; the engine has written fewer
/// than 2^60 words to copy. `Failed` comes only where the ram's count of faults rose; no further turn is possible then,
/// and of the ram only the words beyond the service's are known.
pub fn turn<R: CopyEngine, M: CacheRam>(
    board: &mut Board<R>,
    image: &ImageView<'_>,
    ram: &mut M,
) -> Result<bool, Failed>
    requires beside { Beside R.service image.now
        (record { hart = board.old.hart; rom = board.old.rom; ram = M.state ram.old }) }
    requires few { R.engine.written (R.service.kept board.old.rom) < 2 ^ 60 }
    ensures turned { IfOk result (λ wrote. EngineTurned R.service R.engine image.now
        (record { hart = board.old.hart; rom = board.old.rom; ram = M.state ram.old })
        (record { hart = board.new.hart; rom = board.new.rom; ram = M.state ram.new }) wrote) }
    ensures failed { OnErr result (FailedBelow (R.service.span (R.service.setting board.old.rom))
        (M.state ram.old) (M.state ram.new)) }
{
    let Some((block, _)) = board.hart.place() else {
        return Ok(false);
    };
    board.rom.work(image, ram, block)
}

/// One machine step of the hart; where the run has ended nothing is done. It follows each flat machine that the board
/// matches, by a step or by none, on each input from which what was given may have been read.
///
/// The board is as `Board::boot`, `step` and `turn` leave it, for this image and the ram; fewer than 2^48 original steps
/// were made. After an error `failed` is true; each comes only where its device's count of faults rose.
pub fn step<R: CopyEngine, M: CacheRam, I: Source, O: Sink, E: Sink>(
    board: &mut Board<R>,
    image: &ImageView<'_>,
    ram: &mut M,
    input: &mut I,
    out: &mut O,
    err: &mut E,
) -> Result<(), BoardFault>
    requires few { board.old.hart.machine.steps < 2 ^ 48 }
    requires beside { Beside R.service image.now
        (record { hart = board.old.hart; rom = board.old.rom; ram = M.state ram.old }) }
    ensures gave { HasGiven (I.state input.old) (I.state input.new) }
    ensures turned { AsTold (I.state input.old) (I.state input.new) (λ old new. HartTurned R.service image.now
        (record { hart = board.old.hart; rom = board.old.rom; ram = M.state ram.old })
        (record { hart = board.new.hart; rom = board.new.rom; ram = M.state ram.new })
        (streams old (O.state out.old) (E.state err.old))
        (streams new (O.state out.new) (E.state err.new)) result) }
{
    if board.ending().is_some() {
        return Ok(());
    }
    let Board { hart, rom, .. } = board;
    quick_step(hart, rom, image, ram, input, out, err)
}
