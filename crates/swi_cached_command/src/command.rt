//! The commands `cached` and `trace`: a run on the cached machine.
#![tactic(auto)]

ghost use Rattle.std.specs.Prelude.{◌≡◌, ◌*◌, ◌^◌, ◌≤◌, [], length, string_bytes};
ghost use Rattle.swi_outside.specs.Source.{HasGiven};
ghost use Rattle.swi_outside.specs.Told.{AsTold};
ghost use Rattle.swi_command.specs.CommandLine.{IsCacheInRange, IsInRange};
ghost use Rattle.swi_program.specs.Layout.{IsLayoutOf};
ghost use Rattle.swi_program.specs.Text.{text_of};
ghost use Rattle.swi_render.specs.ImageOf.{IsImageOf};
ghost use Rattle.swi_rom.specs.Service.{cache_of};
ghost use Rattle.swi_cached.specs.Cached.{IsFresh};
ghost use Rattle.swi_task.specs.Answers.{Answers};
ghost use Rattle.swi_cached_task.specs.Caching.{cache_for};
ghost use Rattle.swi_task.specs.Devices.{Devices, seen};
ghost use Rattle.swi_cached_command.specs.RunCached.{RunsOver, cached_task, stop_refusal};

use crate::report::report_board;
use crate::trace::write_last;
use std::alloc::Global;
use swi_answer::{Ending, Refusal};
use swi_cached::{AskedRun, CachedStop, ring_for, run_cached, slots_for};
use swi_cached_task::place;
use swi_command::{CacheKind, CacheOptions, CachedCommand, RunOptions};
use swi_image::ImageView;
use swi_memory::Layout;
use swi_outside::{Shelf, Sink, Source, SteadyRam};
use swi_program::Program;
use swi_rom::CacheRom;
use swi_task::{check_size, ending_by, read_file, refusal_of};

/// What a run is refused with that stopped so.
fn stop_refusal(stop: CachedStop) -> Refusal
    ensures { result ≡ stop_refusal stop }
{
    match stop {
        CachedStop::Memory => Refusal::Memory,
        CachedStop::Fault(fault) => refusal_of(fault),
    }
}

/// Runs a program on the cached machine over a service that has done nothing yet, and writes what is asked for of its steps
/// and of its end.
fn run_over<I: Source, O: Sink, E: Sink, R: SteadyRam, S: CacheRom>(
    alloc: Global,
    image: &ImageView<'_>,
    program: &Program<'_>,
    layout: &Layout,
    rom: S,
    options: &RunOptions,
    input: &mut I,
    out: &mut O,
    err: &mut E,
    ram: &mut R,
) -> Result<Ending, Refusal>
    requires ranges { IsInRange options.now.limits }
    requires sound { S.service.sound rom image.now (R.state ram.old).words }
    requires fresh { IsFresh (S.service.kept rom) }
    requires laid_out { IsLayoutOf program.now.segments layout.now }
    requires own { IsImageOf (text_of program.now.segments) image.now }
    ensures gave { HasGiven (I.state input.old) (I.state input.new) }
    ensures ran { (d : Devices) → AsTold (I.state input.old) (I.state input.new) (λ before after. RunsOver options.now (cache_of S.service rom) image.now program.now layout.now
        (record d { input = before; output = O.state out.old; error = E.state err.old; ram = R.state ram.old })
        (record d { input = after; output = O.state out.new; error = E.state err.new; ram = R.state ram.new }) result) }
{
    let reports = &options.reports;
    let asked = AskedRun {
        limit: options.limits.steps,
        calls: reports.calls,
        trace: reports.trace,
    };
    let ended = run_cached(
        alloc, image, program, layout, rom, asked, input, out, err, ram,
    )
    .map_err(stop_refusal)?;
    let (board, history) = (&ended.0, &ended.1);
    let Ok(()) = report_board(reports, board, out) else {
        return Err(Refusal::SinkFault);
    };
    match write_last(reports.trace, history, board.bus(), err) {
        Ok(()) => Ok(ending_by(board.ending(), board.origin_pc(), board.steps())),
        Err(_) => Err(Refusal::SinkFault),
    }
}

/// Runs a program on the cached machine, in the cache that the options name.
fn run_program<I: Source, O: Sink, E: Sink, R: SteadyRam>(
    alloc: Global,
    image: &ImageView<'_>,
    program: &Program<'_>,
    layout: &Layout,
    cache: &CacheOptions,
    options: &RunOptions,
    input: &mut I,
    out: &mut O,
    err: &mut E,
    ram: &mut R,
) -> Result<Ending, Refusal>
    requires ranges { IsInRange options.now.limits }
    requires holds { 4 * image.now.block_words ≤ cache.now.cache_bytes }
    requires most { cache.now.cache_bytes ≤ 2 ^ 23 }
    requires held { cache.now.cache_bytes ≤ 4 * length (R.state ram.old).words }
    requires laid_out { IsLayoutOf program.now.segments layout.now }
    requires own { IsImageOf (text_of program.now.segments) image.now }
    ensures gave { HasGiven (I.state input.old) (I.state input.new) }
    ensures ran { (d : Devices) → AsTold (I.state input.old) (I.state input.new) (λ before after. RunsOver options.now (cache_for cache.now image.now) image.now program.now layout.now
        (record d { input = before; output = O.state out.old; error = E.state err.old; ram = R.state ram.old })
        (record d { input = after; output = O.state out.new; error = E.state err.new; ram = R.state ram.new }) result) }
{
    match cache.kind {
        CacheKind::Slots => {
            let Ok(rom) = slots_for(alloc, image, cache.cache_bytes) else {
                return Err(Refusal::Memory);
            };
            run_over(
                alloc, image, program, layout, rom, options, input, out, err, ram,
            )
        }
        CacheKind::Ring => {
            let Ok(rom) = ring_for(alloc, image, cache.cache_bytes) else {
                return Err(Refusal::Memory);
            };
            run_over(
                alloc, image, program, layout, rom, options, input, out, err, ram,
            )
        }
    }
}

/// Runs the program of a file on the cached machine.
pub fn cached<F: Shelf, I: Source, O: Sink, E: Sink, R: SteadyRam>(
    alloc: Global,
    command: &CachedCommand,
    shelf: &mut F,
    input: &mut I,
    out: &mut O,
    err: &mut E,
    ram: &mut R,
) -> Result<Ending, Refusal>
    requires ranges { IsInRange command.now.options.limits }
    requires sizes { IsCacheInRange command.now.cache }
    ensures gave { HasGiven (I.state input.old) (I.state input.new) }
    ensures answers { AsTold (I.state input.old) (I.state input.new) (λ before after. Answers
        (cached_task (string_bytes command.now.file) command.now.cache command.now.options)
        (seen (F.state shelf.old) before (O.state out.old) (E.state err.old) (R.state ram.old))
        (seen (F.state shelf.new) after (O.state out.new) (E.state err.new) (R.state ram.new)) result []) }
{
    let (cache, options) = (&command.cache, &command.options);
    check_size(cache.cache_bytes, ram)?;
    let file = read_file(alloc, shelf, command.file.as_str())?;
    let sizes = [cache.cache_bytes];
    let placed = place(alloc, &file, &sizes, cache.block_words, &options.limits)?;
    let image = placed.subject.image.view();
    let (program, layout) = (&placed.subject.program, &placed.layout);
    run_program(
        alloc, &image, program, layout, cache, options, input, out, err, ram,
    )
}
