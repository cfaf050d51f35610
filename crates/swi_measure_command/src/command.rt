//! The command `measure`: the run of a program that is made from a number.
#![tactic(auto)]

ghost use Rattle.std.specs.Prelude.{◌≡◌, ◌⊎◌, ◌%◌, ◌^◌, ◌<◌, ◌≤◌, Ok, Err, IfOk, IfErr, OnErr, IsErrOf, [], length};
ghost use Rattle.std.specs.Io.KnownBytes.{Appends};
ghost use Rattle.swi_outside.specs.CacheRam.{KeepsBeyond};
ghost use Rattle.swi_outside.specs.Causes.{DeviceCause, HasCause};
ghost use Rattle.swi_outside.specs.Sink.{AppendsPrefix};
ghost use Rattle.swi_cached.specs.Answers.{InSteps};
ghost use Rattle.swi_cached.specs.Cached.{IsFresh};
ghost use Rattle.swi_cached.specs.CachedRan.{given_of};
ghost use Rattle.swi_command.specs.CommandLine.{IsCacheInRange, IsFunctionCount};
ghost use Rattle.swi_make.specs.Made.{IsMade};
ghost use Rattle.swi_program.specs.Layout.{IsLayoutOf, laid_out};
ghost use Rattle.swi_program.specs.ProgramOf.{program_of_text};
ghost use Rattle.swi_program.specs.Text.{text_of};
ghost use Rattle.swi_render.specs.ImageOf.{IsImageOf};
ghost use Rattle.swi_rom.specs.Service.{cache_of};
ghost use Rattle.swi_task.specs.Answers.{Answers};
ghost use Rattle.swi_task.specs.Devices.{Devices};
ghost use Rattle.swi_measure_command.specs.MeasureMade.{MadeRan, MeasuresOver, board_summary, made_ending_by, made_run, measure_task, nowhere, MadeRamFailed};

use crate::nowhere::Nowhere;
use std::alloc::Global;
use swi_answer::{Ending, Refusal};
use swi_board::{Board, BoardFault};
use swi_cached::{AskedRun, CachedStop, ring_for, run_cached, slots_for};
use swi_cached_task::board_work;
use swi_calls::End;
use swi_command::{CacheKind, MeasureCommand};
use swi_image::ImageView;
use swi_line::Trace;
use swi_make::{BASE, make};
use swi_outside::{Sink, SteadyRam};
use swi_program::{Program, lay_out, one_text};
use swi_report::{Measured, summary_text};
use swi_rom::CacheRom;
use swi_task::{Prepared, check_block, check_size, cut_image, ending_by};
use swi_trace::History;

/// The bytes of the heap and of the stack.
const HEAP: u32 = 1 << 20;

const STACK: u32 = 1 << 16;

/// The run of a made program: of its steps nothing is told.
const UNTOLD: AskedRun = AskedRun {
    limit: 1 << 48,
    calls: false,
    trace: Trace::Off,
};

/// The text of the program that is made of a seed.
fn made_text(alloc: Global, seed: u32, functions: u32) -> Result<Vec<u8>, Refusal>
    requires count { IsFunctionCount functions }
    ensures made { IfOk result (λ text. IsMade seed functions (program_of_text 0x10000 text.items)) }
    ensures whole { IfOk result (λ text. length text.items % 4 ≡ 0) }
    ensures some { IfOk result (λ text. 0 < length text.items) }
    ensures most { IfOk result (λ text. length text.items ≤ 2 ^ 21) }
    ensures memory { OnErr result (result ≡ Err Refusal.Memory) }
{
    make(alloc, seed, functions).map_err(|_| Refusal::Memory)
}

/// The program of a made text, with its layout.
fn prepare_text<'a>(alloc: Global, text: &'a [u8]) -> Result<Prepared<'a>, Refusal>
    requires whole { length text.now % 4 ≡ 0 }
    requires some { 0 < length text.now }
    requires most { length text.now ≤ 2 ^ 21 }
    ensures program { IfOk result (λ p. p.program ≡ program_of_text 0x10000 text.now) }
    ensures layout { IfOk result (λ p. laid_out p.program.segments 1048576 65536 ≡ Ok p.layout) }
    ensures own { IfOk result (λ p. IsLayoutOf p.program.segments p.layout) }
    ensures memory { OnErr result (result ≡ Err Refusal.Memory) }
{
    let Ok(program) = one_text(alloc, BASE, text) else {
        return Err(Refusal::Memory);
    };
    match lay_out(&program, HEAP, STACK) {
        Ok(layout) => Ok(Prepared { program, layout }),
        // The text has 2^21 bytes at most, so that heap and stack find room behind it.
        Err(_) => unreachable!(),
    }
}

/// Runs a made program on the cached machine over a service that has done nothing yet. It has no input, and nobody sees what
/// it writes.
fn run_nowhere<R: SteadyRam, S: CacheRom>(
    alloc: Global,
    image: &ImageView<'_>,
    prepared: &Prepared<'_>,
    rom: S,
    ram: &mut R,
) -> Result<(Board<S>, Option<History>), CachedStop>
    requires laid_out { IsLayoutOf prepared.now.program.segments prepared.now.layout }
    requires own { IsImageOf (text_of prepared.now.program.segments) image.now }
    requires sound { S.service.sound rom image.now (R.state ram.old).words }
    requires fresh { IsFresh (S.service.kept rom) }
    ensures in_steps { InSteps S.service
        (given_of image.now (cache_of S.service rom) prepared.now.program prepared.now.layout UNTOLD) rom
        (nowhere (R.state ram.old)) (nowhere (R.state ram.new)) result }
{
    let (program, layout) = (&prepared.program, &prepared.layout);
    let (mut input, mut out, mut err) = (Nowhere, Nowhere, Nowhere);
    run_cached(
        alloc, image, program, layout, rom, UNTOLD, &mut input, &mut out, &mut err, ram,
    )
}

/// The board of such a run. It fails for want of memory, or because the ram does.
fn run_made<R: SteadyRam, S: CacheRom>(
    alloc: Global,
    image: &ImageView<'_>,
    prepared: &Prepared<'_>,
    rom: S,
    ram: &mut R,
) -> Result<Board<S>, Refusal>
    requires laid_out { IsLayoutOf prepared.now.program.segments prepared.now.layout }
    requires own { IsImageOf (text_of prepared.now.program.segments) image.now }
    requires sound { S.service.sound rom image.now (R.state ram.old).words }
    requires fresh { IsFresh (S.service.kept rom) }
    ensures ran { IfOk result (λ b. MadeRan
        (made_run (cache_of S.service rom) prepared.now.program prepared.now.layout image.now) b.hart (S.service.kept b.rom)
        (R.state ram.old) (R.state ram.new)) }
    ensures refused { IfErr result
        (λ r. ((r ≡ Refusal.Memory) × (R.state ram.new ≡ R.state ram.old))
        ⊎ ((r ≡ Refusal.RamFault) × MadeRamFailed
        (made_run (cache_of S.service rom) prepared.now.program prepared.now.layout image.now)
        (R.state ram.old) (R.state ram.new))) }
    ensures kept { KeepsBeyond (cache_of S.service rom).span (R.state ram.old) (R.state ram.new) }
    ensures cause { DeviceCause (R.state ram.old).faults (R.state ram.new).faults (IsErrOf result Refusal.RamFault) }
{
    match run_nowhere(alloc, image, prepared, rom, ram) {
        Ok((board, _history)) => Ok(board),
        Err(CachedStop::Memory) => Err(Refusal::Memory),
        Err(CachedStop::Fault(BoardFault::RamFault)) => Err(Refusal::RamFault),
        // No other device fails.
        Err(CachedStop::Fault(BoardFault::SourceFault)) => unreachable!(),
        Err(CachedStop::Fault(BoardFault::SinkFault)) => unreachable!(),
    }
}

/// Writes the summary of a made program that exited, or answers how else it ended.
#[tactic(auto, using(crate::proofs::Measuring::summary_due))]
fn summarize<O: Sink, S: CacheRom>(
    functions: u32,
    program: &Program<'_>,
    image: &ImageView<'_>,
    board: &Board<S>,
    out: &mut O,
) -> Result<Ending, Refusal>
    ensures done { IfOk result (λ e.
        (e ≡ made_ending_by board.now.hart.machine.ending board.now.hart.machine.pc board.now.hart.machine.steps)
        × Appends (O.state out.old).held (O.state out.new).held
        (board_summary functions program.now image.now board.now.hart (S.service.kept board.now.rom))) }
    ensures failed { IfErr result (λ r. (r ≡ Refusal.SinkFault)
        × AppendsPrefix (O.state out.old).held (O.state out.new).held
        (board_summary functions program.now image.now board.now.hart (S.service.kept board.now.rom))) }
    ensures cause { HasCause (O.state out.old).faults (O.state out.new).faults result }
    ensures asked { OnErr result (board_summary functions program.now image.now board.now.hart (S.service.kept board.now.rom) ≡ [] → ⊥) }
{
    let Some(End::Exited(exit)) = board.ending() else {
        return Ok(ending_by(board.ending(), board.origin_pc(), board.steps()));
    };
    let measured = Measured {
        functions,
        text: program.text().len(),
        blocks: image.blocks(),
        exit,
    };
    match summary_text(&measured, board.steps(), &board_work(board), out) {
        Ok(()) => Ok(Ending::Done),
        Err(_) => Err(Refusal::SinkFault),
    }
}

/// Runs a made program of so many functions on the cached machine over a service that has done nothing yet, and writes
/// its summary where it exits.
fn measure_over<O: Sink, R: SteadyRam, S: CacheRom>(
    alloc: Global,
    functions: u32,
    image: &ImageView<'_>,
    prepared: &Prepared<'_>,
    rom: S,
    out: &mut O,
    ram: &mut R,
) -> Result<Ending, Refusal>
    requires laid_out { IsLayoutOf prepared.now.program.segments prepared.now.layout }
    requires own { IsImageOf (text_of prepared.now.program.segments) image.now }
    requires sound { S.service.sound rom image.now (R.state ram.old).words }
    requires fresh { IsFresh (S.service.kept rom) }
    ensures { (d : Devices) → MeasuresOver functions (cache_of S.service rom) image.now prepared.now.program prepared.now.layout
        (record d { output = O.state out.old; ram = R.state ram.old })
        (record d { output = O.state out.new; ram = R.state ram.new }) result }
{
    let board = run_made(alloc, image, prepared, rom, ram)?;
    summarize(functions, &prepared.program, image, &board, out)
}

/// Makes a program of a seed with so many functions (1 to 4096), runs it on the cached machine to its end, and writes
/// the summary where it exits.
pub fn measure<O: Sink, R: SteadyRam>(
    alloc: Global,
    command: &MeasureCommand,
    out: &mut O,
    ram: &mut R,
) -> Result<Ending, Refusal>
    requires count { IsFunctionCount command.now.functions }
    requires sizes { IsCacheInRange command.now.cache }
    ensures { (d : Devices) → Answers (measure_task command.now.seed command.now.functions command.now.cache)
        (record d { output = O.state out.old; ram = R.state ram.old })
        (record d { output = O.state out.new; ram = R.state ram.new }) result [] }
{
    let (functions, cache) = (command.functions, &command.cache);
    check_size(cache.cache_bytes, ram)?;
    let text = made_text(alloc, command.seed, functions)?;
    let prepared = prepare_text(alloc, &text)?;
    let image = cut_image(alloc, &prepared.program, cache.block_words)?;
    check_block(cache.cache_bytes, cache.block_words)?;
    let view = image.view();
    match cache.kind {
        CacheKind::Slots => {
            let Ok(rom) = slots_for(alloc, &view, cache.cache_bytes) else {
                return Err(Refusal::Memory);
            };
            measure_over(alloc, functions, &view, &prepared, rom, out, ram)
        }
        CacheKind::Ring => {
            let Ok(rom) = ring_for(alloc, &view, cache.cache_bytes) else {
                return Err(Refusal::Memory);
            };
            measure_over(alloc, functions, &view, &prepared, rom, out, ram)
        }
    }
}
