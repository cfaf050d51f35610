//! The command.
#![tactic(auto)]

ghost use Rattle.std.specs.Prelude.{◌≡◌, ◌≤◌, ◌*◌, None, Some, [], IfOk, IfErr, OnOk, length, map, string_bytes};
ghost use Rattle.swi_outside.specs.Source.{HasGiven};
ghost use Rattle.swi_outside.specs.Told.{AsTold};
ghost use Rattle.swi_command.specs.CommandLine.{AreSizes, IsBlockSize, IsInRange};
ghost use Rattle.swi_program.specs.Layout.{IsLayoutOf};
ghost use Rattle.swi_program.specs.Text.{text_of};
ghost use Rattle.swi_render.specs.ImageOf.{IsImageOf};
ghost use Rattle.swi_task.specs.Answers.{Answers};
ghost use Rattle.swi_task.specs.Checks.{first_size_refusal};
ghost use Rattle.swi_task.specs.Devices.{Devices, seen};
ghost use Rattle.swi_survey_command.specs.Frames.{AreHeld, frame_by};
ghost use Rattle.swi_survey_command.specs.RunSurvey.{SurveysOver, refusal_of, survey_from, survey_task};

use crate::rows::write_rows;
use std::alloc::Global;
use swi_answer::{Ending, Refusal};
use swi_cached_task::place;
use swi_calls::CallFault;
use swi_command::{CacheKind, RunLimits, SurveyCommand};
use swi_image::ImageView;
use swi_memory::Layout;
use swi_outside::{CacheRam, Memory, Shelf, Sink, Source};
use swi_program::Program;
use swi_survey::{SurveyStop, run_survey};
use swi_tally::{Frame, Placing};
use swi_task::{check_size, ending_by, read_file};

/// What a survey is refused with that stopped so.
fn refusal_of(stop: SurveyStop) -> Refusal
    ensures { result ≡ refusal_of stop }
{
    match stop {
        SurveyStop::Memory => Refusal::Memory,
        SurveyStop::Fault(CallFault::SourceFault) => Refusal::SourceFault,
        SurveyStop::Fault(CallFault::SinkFault) => Refusal::SinkFault,
    }
}

/// The frame of a cache of so many bytes, for blocks of so many words at most.
fn frame_of(kind: CacheKind, block_words: u32, bytes: u32) -> Frame
    requires some { 2 ≤ block_words }
    requires most { block_words ≤ 1024 }
    ensures { result ≡ frame_by kind block_words bytes }
{
    match kind {
        CacheKind::Slots => Frame {
            placing: Placing::Slots,
            slots: bytes / (4 * block_words),
            slot_words: block_words,
        },
        CacheKind::Ring => Frame {
            placing: Placing::Ring,
            slots: 1,
            slot_words: bytes / 4,
        },
    }
}

/// The frames of the caches. Memory is the only error.
fn frames_of(
    alloc: Global,
    kind: CacheKind,
    block_words: u32,
    sizes: &[u32],
) -> Result<Vec<Frame>, Memory>
    requires some { 2 ≤ block_words }
    requires most { block_words ≤ 1024 }
    ensures { IfOk result (λ fs. fs.items ≡ map (frame_by kind block_words) sizes.now) }
{
    let mut frames = Vec::new(alloc);
    for bytes in sizes {
        if frames.push(frame_of(kind, block_words, *bytes)).is_err() {
            return Err(Memory);
        }
    }
    Ok(frames)
}

/// Refuses the first cache that is too large, or larger than the ram.
fn check_sizes<R: CacheRam>(sizes: &[u32], ram: &R) -> Result<(), Refusal>
    ensures ok { OnOk result (first_size_refusal sizes.now (length (R.state ram.now).words) ≡ None) }
    ensures refused { IfErr result (λ r. first_size_refusal sizes.now (length (R.state ram.now).words) ≡ Some r) }
{
    for bytes in sizes {
        check_size(*bytes, ram)?;
    }
    Ok(())
}

/// Runs a program once, and writes a line for each cache.
fn run_program<I: Source, O: Sink, E: Sink>(
    alloc: Global,
    image: &ImageView<'_>,
    program: &Program<'_>,
    layout: &Layout,
    kind: CacheKind,
    sizes: &[u32],
    limits: &RunLimits,
    input: &mut I,
    out: &mut O,
    err: &mut E,
) -> Result<Ending, Refusal>
    requires ranges { IsInRange limits.now }
    requires sizes { AreSizes sizes.now }
    requires held { AreHeld image.now.block_words sizes.now }
    requires laid_out { IsLayoutOf program.now.segments layout.now }
    requires own { IsImageOf (text_of program.now.segments) image.now }
    ensures gave { HasGiven (I.state input.old) (I.state input.new) }
    ensures ran { (d : Devices) → AsTold (I.state input.old) (I.state input.new) (λ before after. SurveysOver
        (survey_from kind sizes.now limits.now image.now program.now layout.now)
        (record d { input = before; output = O.state out.old; error = E.state err.old })
        (record d { input = after; output = O.state out.new; error = E.state err.new }) result) }
{
    let Ok(frames) = frames_of(alloc, kind, image.block_words(), sizes) else {
        return Err(Refusal::Memory);
    };
    let ran = run_survey(
        alloc,
        image,
        program,
        layout,
        &frames,
        limits.steps,
        input,
        out,
        err,
    );
    let surveyed = match ran {
        Ok(surveyed) => surveyed,
        Err(stop) => return Err(refusal_of(stop)),
    };
    match write_rows(&surveyed, sizes, out) {
        Ok(()) => Ok(ending_by(surveyed.ending, surveyed.pc, surveyed.steps)),
        Err(_) => Err(Refusal::SinkFault),
    }
}

/// Runs the program of a file once for 1 to 64 caches of one kind, in bytes 8 to 2^32 - 1 each, over one image: the file's
/// own, or the greedy cut into blocks of at most so many words, 2 to 1024. Behind the program's own bytes it writes a line
/// for each size, in their order: the size, and what `cached --stats` counts with it.
///
/// The first size that is too large, or larger than the ram, is refused by CacheLarge or RamSmall before the file is read;
/// then the file by the first check that it fails; then by CacheSmall the first size that holds no block. The ram itself is
/// not used: a survey tells of no run that `cached` would not make. After SourceFault or SinkFault the sinks hold what the
/// steps made have written, and a front of what comes next; any other refusal, Memory too, leaves input and output alone.
pub fn survey<F: Shelf, I: Source, O: Sink, E: Sink, R: CacheRam>(
    alloc: Global,
    command: &SurveyCommand,
    shelf: &mut F,
    input: &mut I,
    out: &mut O,
    err: &mut E,
    ram: &R,
) -> Result<Ending, Refusal>
    requires sizes { AreSizes command.now.sizes.items }
    requires block { IsBlockSize command.now.block_words }
    requires ranges { IsInRange command.now.limits }
    ensures gave { HasGiven (I.state input.old) (I.state input.new) }
    ensures answers { AsTold (I.state input.old) (I.state input.new) (λ before after. Answers
        (survey_task (string_bytes command.now.file) command.now.sizes.items command.now.block_words command.now.kind command.now.limits)
        (seen (F.state shelf.old) before (O.state out.old) (E.state err.old) (R.state ram.now))
        (seen (F.state shelf.new) after (O.state out.new) (E.state err.new) (R.state ram.now)) result []) }
{
    let (sizes, limits) = (command.sizes.as_slice(), &command.limits);
    check_sizes(sizes, ram)?;
    let file = read_file(alloc, shelf, command.file.as_str())?;
    let placed = place(alloc, &file, sizes, command.block_words, limits)?;
    let image = placed.subject.image.view();
    let (program, layout) = (&placed.subject.program, &placed.layout);
    run_program(
        alloc,
        &image,
        program,
        layout,
        command.kind,
        sizes,
        limits,
        input,
        out,
        err,
    )
}
