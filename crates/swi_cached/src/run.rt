//! The run over a cache service: the boot, and the steps.
#![tactic(auto)]

ghost use Rattle.std.specs.Prelude.{◌≡◌, ◌^◌, ◌<◌, ◌≤◌, IsErrOf, true, is_some};
ghost use Rattle.swi_outside.specs.Devices.{streams};
ghost use Rattle.swi_outside.specs.Source.{HasGiven};
ghost use Rattle.swi_outside.specs.Told.{AsTold};
ghost use Rattle.swi_image.specs.Place.{place_of};
ghost use Rattle.swi_program.specs.Layout.{IsLayoutOf};
ghost use Rattle.swi_program.specs.Text.{text_of, word_of};
ghost use Rattle.swi_render.specs.Carried.{Carries};
ghost use Rattle.swi_render.specs.ImageOf.{IsImageOf};
ghost use Rattle.swi_rom.specs.Service.{cache_of};
ghost use Rattle.swi_cached.specs.Answers.{InSteps};
ghost use Rattle.swi_cached.specs.Cached.{IsFresh};
ghost use Rattle.swi_cached.specs.CachedRan.{CachedRan, given_of};

use crate::told::{first_history, run_steps};
use std::alloc::Global;
use swi_board::{Board, BoardFault, BootStop};
use swi_image::ImageView;
use swi_line::Trace;
use swi_memory::Layout;
use swi_outside::{Sink, Source, SteadyRam};
use swi_program::Program;
use swi_rom::CacheRom;
use swi_trace::History;

/// A run that is asked for.
#[derive(Clone, Copy, Debug, PartialEq, Eq)]
pub struct AskedRun {
    /// The most steps, at most 2^48.
    pub limit: u64,
    /// Whether each system call is told in a line on the error sink.
    pub calls: bool,
    /// What is told of the steps.
    pub trace: Trace,
}

/// What stops a run on the cached machine.
#[derive(Clone, Copy, Debug, PartialEq, Eq)]
pub enum CachedStop {
    /// Memory was refused, before the first call of a device: nothing has changed.
    Memory,
    /// A device failed.
    Fault(BoardFault),
}

/// The image carries the program's text, which it is one of.
pub(crate) fn carry(image: &ImageView<'_>, program: &Program<'_>)
    requires own { IsImageOf (text_of program.now.segments) image.now }
    ensures carries { Carries (word_of (text_of program.now.segments)) image.now }
    ensures placed { is_some (place_of image.now program.now.entry) ≡ true }
    ensures word { program.now.entry < 2 ^ 32 }
{
    let _blocks = image.blocks();
    let _text = program.text();
    let _entry = program.entry();
}

/// Boots a program and runs its steps, on each input from which what was given may have been read.
fn boot_and_run<I: Source, O: Sink, E: Sink, R: SteadyRam, S: CacheRom>(
    alloc: Global,
    image: &ImageView<'_>,
    program: &Program<'_>,
    layout: &Layout,
    rom: S,
    asked: AskedRun,
    input: &mut I,
    out: &mut O,
    err: &mut E,
    ram: &mut R,
) -> Result<(Board<S>, Option<History>), CachedStop>
    requires laid_out { IsLayoutOf program.now.segments layout.now }
    requires own { IsImageOf (text_of program.now.segments) image.now }
    requires sound { S.service.sound rom image.now (R.state ram.old).words }
    requires fresh { IsFresh (S.service.kept rom) }
    requires limit { asked.limit ≤ 2 ^ 48 }
    ensures gave { HasGiven (I.state input.old) (I.state input.new) }
    ensures unasked { IsErrOf result CachedStop.Memory → I.state input.new ≡ I.state input.old }
    ensures ran { AsTold (I.state input.old) (I.state input.new) (λ old new. CachedRan S.service
        (given_of image.now (cache_of S.service rom) program.now layout.now asked) rom
        (record { ram = R.state ram.old; devices = streams old (O.state out.old) (E.state err.old) })
        (record { ram = R.state ram.new; devices = streams new (O.state out.new) (E.state err.new) })
        result) }
{
    carry(image, program);
    let Ok(history) = first_history(alloc, asked.trace) else {
        return Err(CachedStop::Memory);
    };
    let mut board = match Board::boot(alloc, image, program, layout, asked.calls, rom, ram) {
        Ok(board) => board,
        Err(BootStop::Memory) => return Err(CachedStop::Memory),
        Err(BootStop::RamFault) => return Err(CachedStop::Fault(BoardFault::RamFault)),
    };
    match run_steps(
        &mut board,
        image,
        asked.limit,
        asked.trace,
        history,
        input,
        out,
        err,
        ram,
    ) {
        Ok(told) => Ok((board, told)),
        Err(fault) => Err(CachedStop::Fault(fault)),
    }
}

/// Runs a program out of a cache ram: a service copies the blocks of its image there on demand, and evicts them by its
/// policy; as many original steps are made as are asked for, or fewer where the program ends. The board that is answered
/// has the service. It tells how the program ended, and what it cost; where it has not ended, `Board::run` runs it on.
///
/// All memory is taken before the first call of a device: beside the program's and the service's, 8 bytes for each word
/// of the image, one for each block, and 131,840 for links and jumps, since each word is decoded once (`Board::boot`).
///
/// The image is one of the program's text, and the layout is the program's. The service is sound for the image and the
/// ram, and has done nothing yet. The history, where there is one, has the addresses of the last 32 steps, and with
/// `Each` a step has its line before its first word is fetched, also one that ends the run by a fault, and one that
/// would store into the text, which isn't made.
///
/// The run is that on each input from which what was given may have been read: what it leaves of it is the rest. The
/// program's steps, its registers and memory and the bytes that it reads and writes are those of the flat machine, up to
/// a step that would store into the text: the run ends before it.
///
/// After `Memory` nothing has changed, and the input was not asked. After a fault of the ram the sinks hold just what the
/// steps wrote whose fetches were made; with `Each` the line of the next step may stand behind it. After one of the input
/// they hold what the steps made have written, with `Each` the line of the step that was broken off too. After one of a
/// sink they hold what the steps made have written, and a front of what the next step writes, its line first. The words
/// of the ram behind those of the service never change.
pub fn run_cached<I: Source, O: Sink, E: Sink, R: SteadyRam, S: CacheRom>(
    alloc: Global,
    image: &ImageView<'_>,
    program: &Program<'_>,
    layout: &Layout,
    rom: S,
    asked: AskedRun,
    input: &mut I,
    out: &mut O,
    err: &mut E,
    ram: &mut R,
) -> Result<(Board<S>, Option<History>), CachedStop>
    requires laid_out { IsLayoutOf program.now.segments layout.now }
    requires own { IsImageOf (text_of program.now.segments) image.now }
    requires sound { S.service.sound rom image.now (R.state ram.old).words }
    requires fresh { IsFresh (S.service.kept rom) }
    requires limit { asked.limit ≤ 2 ^ 48 }
    ensures gave { HasGiven (I.state input.old) (I.state input.new) }
    ensures unasked { IsErrOf result CachedStop.Memory → I.state input.new ≡ I.state input.old }
    ensures ran { AsTold (I.state input.old) (I.state input.new) (λ old new. CachedRan S.service
        (given_of image.now (cache_of S.service rom) program.now layout.now asked) rom
        (record { ram = R.state ram.old; devices = streams old (O.state out.old) (E.state err.old) })
        (record { ram = R.state ram.new; devices = streams new (O.state out.new) (E.state err.new) })
        result) }
    // A law of that, in the words of the original steps.
    ensures in_steps { AsTold (I.state input.old) (I.state input.new) (λ old new. InSteps S.service
        (given_of image.now (cache_of S.service rom) program.now layout.now asked) rom
        (record { ram = R.state ram.old; devices = streams old (O.state out.old) (E.state err.old) })
        (record { ram = R.state ram.new; devices = streams new (O.state out.new) (E.state err.new) })
        result) }
{
    carry(image, program);
    boot_and_run(
        alloc, image, program, layout, rom, asked, input, out, err, ram,
    )
}
