//! The command `prefetch`: a run on the cached machine beside whose hart an engine copies blocks ahead.
#![tactic(auto)]

ghost use Rattle.std.specs.Prelude.{◌≡◌, ◌*◌, ◌^◌, ◌<◌, ◌≤◌, IfOk, OnErr, [], false, length, string_bytes};
ghost use Rattle.swi_command.specs.CommandLine.{IsCacheInRange, IsInRange};
ghost use Rattle.swi_engine.specs.State.{kept_by};
ghost use Rattle.swi_outside.specs.Causes.{HasCause};
ghost use Rattle.swi_outside.specs.Sink.{WritesPiece};
ghost use Rattle.swi_outside.specs.Source.{HasGiven};
ghost use Rattle.swi_outside.specs.Told.{AsTold};
ghost use Rattle.swi_prefetch.specs.Prefetching.{has_failed};
ghost use Rattle.swi_program.specs.Layout.{IsLayoutOf};
ghost use Rattle.swi_program.specs.Text.{text_of, word_of};
ghost use Rattle.swi_render.specs.Carried.{Carries};
ghost use Rattle.swi_render.specs.ImageOf.{IsImageOf};
ghost use Rattle.swi_task.specs.Answers.{Answers};
ghost use Rattle.swi_task.specs.Devices.{Devices, seen};
ghost use Rattle.swi_prefetch_command.specs.RunAhead.{RunsToEnd, RunsWithReport, ahead_task, board_report, board_work_with};

use std::alloc::Global;
use swi_answer::{Ending, Refusal};
use swi_board::{Board, BootStop};
use swi_cached_task::{board_work, final_state, place};
use swi_command::{PrefetchCommand, Reports, RunOptions};
use swi_engine::EngineRom;
use swi_image::ImageView;
use swi_memory::Layout;
use swi_outside::{CacheRam, Failed, Shelf, Sink, Source};
use swi_prefetch::Prefetch;
use swi_program::Program;
use swi_report::{EngineWork, Work, engine_text};
use swi_task::{check_size, ending_by, read_file, refusal_of, write_report};

/// A run that is asked for.
#[derive(Clone, Copy, Debug, PartialEq, Eq)]
struct AheadAsked {
    /// What any run needs.
    run: RunOptions,
    /// The cache's size in bytes, at most 2^23.
    bytes: u32,
    /// How many events of the engine come behind each of the hart, at most 1024.
    rate: u32,
}

/// The image carries the program's text, which it is one of.
fn carry(image: &ImageView<'_>, program: &Program<'_>)
    requires own { IsImageOf (text_of program.now.segments) image.now }
    ensures carries { Carries (word_of (text_of program.now.segments)) image.now }
    ensures word { program.now.entry < 2 ^ 32 }
{
    let _blocks = image.blocks();
    let _text = program.text();
    let _entry = program.entry();
}

/// Runs a program from its boot to its end, or as many steps as are asked for, with so many events of the engine behind
/// each of the hart. No device has failed in the machine that is answered.
fn run_to_end<I: Source, O: Sink, E: Sink, R: CacheRam>(
    alloc: Global,
    image: &ImageView<'_>,
    program: &Program<'_>,
    layout: &Layout,
    asked: &AheadAsked,
    input: &mut I,
    out: &mut O,
    err: &mut E,
    ram: &mut R,
) -> Result<Prefetch, Refusal>
    requires ranges { IsInRange asked.now.run.limits }
    requires rate { asked.now.rate ≤ 1024 }
    requires holds { 4 * image.now.block_words ≤ asked.now.bytes }
    requires most { asked.now.bytes ≤ 2 ^ 23 }
    requires held { asked.now.bytes ≤ 4 * length (R.state ram.old).words }
    requires laid_out { IsLayoutOf program.now.segments layout.now }
    requires own { IsImageOf (text_of program.now.segments) image.now }
    ensures gave { HasGiven (I.state input.old) (I.state input.new) }
    ensures ran { (d : Devices) → AsTold (I.state input.old) (I.state input.new) (λ before after. RunsToEnd asked.now image.now program.now layout.now
        (record d { input = before; output = O.state out.old; error = E.state err.old; ram = R.state ram.old })
        (record d { input = after; output = O.state out.new; error = E.state err.new; ram = R.state ram.new }) result) }
    ensures unfailed { IfOk result (λ x. has_failed x.board ≡ false) }
{
    carry(image, program);
    let (calls, limit) = (asked.run.reports.calls, asked.run.limits.steps);
    let mut prefetch = match Prefetch::boot(
        alloc,
        image,
        program,
        layout,
        calls,
        asked.bytes,
        ram,
    ) {
        Ok(prefetch) => prefetch,
        Err(BootStop::Memory) => return Err(Refusal::Memory),
        Err(BootStop::RamFault) => return Err(Refusal::RamFault),
    };
    match prefetch.run(image, ram, input, out, err, limit, asked.rate) {
        Ok(()) => Ok(prefetch),
        Err(fault) => Err(refusal_of(fault)),
    }
}

/// What a board has done besides the steps of its program, with the words that the engine beside it wrote.
#[tactic(auto, using(crate::proofs::Ahead::sum_most))]
fn work_with(board: &Board<EngineRom>) -> Work
    ensures { result ≡ board_work_with board.now.hart (kept_by board.now.rom) }
{
    let work = board_work(board);
    let (words, _copies) = board.rom().copied();
    Work {
        machine: work.machine,
        fetches: work.fetches,
        writes: work.writes.saturating_add(words),
        counts: work.counts,
    }
}

/// Writes what is asked for of a board's end: state and counts, and behind these the counts of the engine.
#[tactic(auto, using(swi_outside::proofs::SinkLemmas::prefix_first, swi_outside::proofs::SinkLemmas::prefix_last, crate::proofs::Ahead::first_due, crate::proofs::Ahead::engine_due))]
fn report_ahead<O: Sink>(
    reports: &Reports,
    board: &Board<EngineRom>,
    out: &mut O,
) -> Result<(), Failed>
    ensures bytes { WritesPiece (O.state out.old).held (O.state out.new).held result (board_report reports.now board.now) }
    ensures cause { HasCause (O.state out.old).faults (O.state out.new).faults result }
    ensures asked { OnErr result (board_report reports.now board.now ≡ [] → ⊥) }
{
    let work = work_with(board);
    write_report(reports, &final_state(board), Some(&work), out)?;
    if reports.stats {
        let (words, copies) = board.rom().copied();
        engine_text(&EngineWork { words, copies }, out)?;
    }
    Ok(())
}

/// Runs a program to its end, and writes what is asked for of that.
fn run_over<I: Source, O: Sink, E: Sink, R: CacheRam>(
    alloc: Global,
    image: &ImageView<'_>,
    program: &Program<'_>,
    layout: &Layout,
    asked: &AheadAsked,
    input: &mut I,
    out: &mut O,
    err: &mut E,
    ram: &mut R,
) -> Result<Ending, Refusal>
    requires ranges { IsInRange asked.now.run.limits }
    requires rate { asked.now.rate ≤ 1024 }
    requires holds { 4 * image.now.block_words ≤ asked.now.bytes }
    requires most { asked.now.bytes ≤ 2 ^ 23 }
    requires held { asked.now.bytes ≤ 4 * length (R.state ram.old).words }
    requires laid_out { IsLayoutOf program.now.segments layout.now }
    requires own { IsImageOf (text_of program.now.segments) image.now }
    ensures gave { HasGiven (I.state input.old) (I.state input.new) }
    ensures ran { (d : Devices) → AsTold (I.state input.old) (I.state input.new) (λ before after. RunsWithReport asked.now image.now program.now layout.now
        (record d { input = before; output = O.state out.old; error = E.state err.old; ram = R.state ram.old })
        (record d { input = after; output = O.state out.new; error = E.state err.new; ram = R.state ram.new }) result) }
{
    let prefetch = run_to_end(alloc, image, program, layout, asked, input, out, err, ram)?;
    let board = prefetch.board();
    match report_ahead(&asked.run.reports, board, out) {
        Ok(()) => Ok(ending_by(board.ending(), board.origin_pc(), board.steps())),
        Err(_) => Err(Refusal::SinkFault),
    }
}

/// Runs the program of a file on the cached machine, beside whose hart an engine copies blocks ahead: behind each of its
/// events come so many of the engine as are asked for.
pub fn prefetch<F: Shelf, I: Source, O: Sink, E: Sink, R: CacheRam>(
    alloc: Global,
    command: &PrefetchCommand,
    shelf: &mut F,
    input: &mut I,
    out: &mut O,
    err: &mut E,
    ram: &mut R,
) -> Result<Ending, Refusal>
    requires ranges { IsInRange command.now.options.limits }
    requires sizes { IsCacheInRange command.now.cache }
    requires rate { command.now.rate ≤ 1024 }
    ensures gave { HasGiven (I.state input.old) (I.state input.new) }
    ensures answers { AsTold (I.state input.old) (I.state input.new) (λ before after. Answers
        (ahead_task (string_bytes command.now.file) command.now.cache command.now.options command.now.rate)
        (seen (F.state shelf.old) before (O.state out.old) (E.state err.old) (R.state ram.old))
        (seen (F.state shelf.new) after (O.state out.new) (E.state err.new) (R.state ram.new)) result []) }
{
    let (cache, options) = (&command.cache, &command.options);
    check_size(cache.cache_bytes, ram)?;
    let file = read_file(alloc, shelf, command.file.as_str())?;
    let sizes = [cache.cache_bytes];
    let placed = place(alloc, &file, &sizes, cache.block_words, &options.limits)?;
    let asked = AheadAsked {
        run: *options,
        bytes: cache.cache_bytes,
        rate: command.rate,
    };
    let image = placed.subject.image.view();
    let (program, layout) = (&placed.subject.program, &placed.layout);
    run_over(alloc, &image, program, layout, &asked, input, out, err, ram)
}
