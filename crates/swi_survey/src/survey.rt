//! One run of the flat machine, and all caches beside it.
#![tactic(auto)]

ghost use Rattle.std.specs.Prelude.{◌≡◌, ◌+◌, ◌<◌, ◌≤◌, ◌^◌, All, IfSome, None, false, length};
ghost use Rattle.swi_calls.specs.Flat.{machine_of};
ghost use Rattle.swi_image.specs.Sound.{IsImage};
ghost use Rattle.swi_program.specs.Layout.{IsLayoutOf};
ghost use Rattle.swi_program.specs.Text.{IsSized, text_of};
ghost use Rattle.swi_render.specs.ImageOf.{IsImageOf};
ghost use Rattle.swi_tally.specs.Tallies.{IsFrame};
ghost use Rattle.swi_survey.specs.Survey.{SurveyRan};
ghost use Rattle.swi_survey.specs.Track.{Begun, Coasts, StandsAt, StepIs, StepsRan, told_of};

use crate::leaving::{ILLEGAL, leaving_of};
use crate::track::{Here, Step, Track};
use std::alloc::Global;
use swi_calls::{CallFault, End, text_store};
use swi_flat::{Coasted, Flat};
use swi_image::ImageView;
use swi_isa::decode;
use swi_memory::Layout;
use swi_outside::{Sink, Source};
use swi_program::{Program, TextView};
use swi_tally::{Frame, Tallies};

/// What a survey tells of its run, and its caches.
#[derive(Drop)]
pub struct Surveyed {
    /// How the run ended; None where the most steps were made first.
    pub ending: Option<End>,
    /// The address of the next instruction, or of the one that ended the run.
    pub pc: u32,
    /// The number of steps made.
    pub steps: u64,
    /// How many machine instructions the cached machine makes for them, the boot included.
    pub instructions: u64,
    /// How many words it fetches.
    pub fetches: u64,
    /// What each cache has counted, in the order of the frames.
    pub caches: Tallies,
}

/// What stops a survey.
#[derive(Clone, Copy, Debug, PartialEq, Eq)]
pub enum SurveyStop {
    /// Memory was refused, before the first call of a device: nothing has changed.
    Memory,
    /// A device failed.
    Fault(CallFault),
}

/// How the next step leaves the place where the run stands.
fn next_step(flat: &Flat, here: Here, text: &TextView<'_>) -> Step
    requires { StandsAt text.now flat.now.machine.pc here }
    ensures { StepIs text.now flat.now here result }
{
    let Here::At(k) = here else {
        return Step::Outside;
    };
    let Some(instr) = decode(text.word(k)) else {
        return Step::From(k, ILLEGAL);
    };
    match text_store(&instr, flat.regs(), flat.bus()) {
        Some(a) => Step::Store(a),
        None => Step::From(k, leaving_of(&instr, flat.regs(), flat.pc())),
    }
}

/// Steps up to `limit` at which no cache has anything to do, and one more. None, and nothing has changed, where there is none.
fn coast(flat: &mut Flat, track: &Track, base: u32, limit: u64) -> Option<Coasted>
    requires within { flat.old.machine.steps ≤ limit }
    requires few { limit ≤ 2 ^ 48 }
    ensures none { result ≡ None → flat.new ≡ flat.old }
    ensures coasted { IfSome result (λ c. Coasts base track.now flat.old.machine flat.new.machine c) }
    ensures some { IfSome result (λ c. c.last ≡ None → 0 < c.steps) }
    ensures within { flat.new.machine.steps ≤ limit }
    ensures failed { flat.new.failed ≡ flat.old.failed }
{
    let caches = &track.caches;
    let coasted = flat.coast(limit, base, &track.gates, caches.masks(), caches.all())?;
    if coasted.steps == 0 && coasted.last.is_none() {
        return None;
    }
    Some(coasted)
}

/// Steps up to `limit`, and all caches follow. It gives the address at which the next step would store into the text, before
/// which the run ends.
fn run_steps<I: Source, O: Sink, E: Sink>(
    flat: &mut Flat,
    track: &mut Track,
    image: &ImageView<'_>,
    text: &TextView<'_>,
    limit: u64,
    input: &mut I,
    out: &mut O,
    err: &mut E,
) -> Result<Option<u32>, CallFault>
    requires sized { IsSized text.now }
    requires image { IsImage image.now }
    requires own { IsImageOf text.now image.now }
    requires begun { Begun text.now image.now flat.old track.old }
    requires few { limit ≤ 2 ^ 48 }
    ensures { StepsRan text.now image.now limit flat.old flat.new track.old track.new
        (record { input = I.state input.old; output = O.state out.old; error = E.state err.old })
        (record { input = I.state input.new; output = O.state out.new; error = E.state err.new }) result }
{
    while flat.steps() < limit && flat.ending().is_none() {
        track.settle(image, text, flat.pc());
        if let Some(coasted) = coast(flat, track, text.base(), limit) {
            track.pass(image, text, coasted, flat.pc());
            continue;
        }
        let step = next_step(flat, track.here, text);
        if let Step::Store(a) = step {
            track.fetches += 1;
            return Ok(Some(a));
        }
        flat.step(input, out, err)?;
        track.follow(image, text, step, flat.pc(), flat.ending().is_some());
    }
    Ok(None)
}

/// What is told of a run.
fn told(flat: &Flat, track: Track, stored: Option<u32>) -> Surveyed
    requires { track.fetches + track.outside ≤ 2 ^ 60 }
    ensures { result ≡ told_of flat.now track stored }
{
    let ending = match stored {
        Some(a) => Some(End::StoreText(a)),
        None => flat.ending(),
    };
    Surveyed {
        ending,
        pc: flat.pc(),
        steps: flat.steps(),
        instructions: 1 + track.fetches + track.outside,
        fetches: track.fetches,
        caches: track.caches,
    }
}

/// Runs a program once, as the flat machine, and counts for many caches at once what the cached machine would with each of
/// them: up to 64 frames, each of which holds a block of the image. As many steps are made as are asked for, at most 2^48, or
/// fewer where the program ends; the run ends before a step that would store into the text.
///
/// The image is one of the program's text, and the layout is the program's. All memory is taken before the first call of a
/// device; after `Memory` nothing has changed. After a fault the sinks hold what the steps made have written, and a front of
/// what the step that failed writes; of the input no more is gone than they took, and a front of what that step takes.
pub fn run_survey<I: Source, O: Sink, E: Sink>(
    alloc: Global,
    image: &ImageView<'_>,
    program: &Program<'_>,
    layout: &Layout,
    frames: &[Frame],
    limit: u64,
    input: &mut I,
    out: &mut O,
    err: &mut E,
) -> Result<Surveyed, SurveyStop>
    requires laid_out { IsLayoutOf program.now.segments layout.now }
    requires own { IsImageOf (text_of program.now.segments) image.now }
    requires caches { length frames.now ≤ 64 }
    requires frames { All (IsFrame image.now.block_words) frames.now }
    requires limit { limit ≤ 2 ^ 48 }
    ensures { SurveyRan (record { image = image.now; frames = frames.now; first = machine_of program.now layout.now false; limit = limit })
        (record { input = I.state input.old; output = O.state out.old; error = E.state err.old })
        (record { input = I.state input.new; output = O.state out.new; error = E.state err.new }) result }
{
    let text = program.text();
    let _blocks = image.blocks();
    let Ok(mut flat) = Flat::start(alloc, program, layout, false) else {
        return Err(SurveyStop::Memory);
    };
    let Ok(mut track) = Track::start(alloc, image, &text, frames, flat.pc()) else {
        return Err(SurveyStop::Memory);
    };
    match run_steps(&mut flat, &mut track, image, &text, limit, input, out, err) {
        Ok(stored) => Ok(told(&flat, track, stored)),
        Err(fault) => Err(SurveyStop::Fault(fault)),
    }
}
