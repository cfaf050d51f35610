//! What is kept beside a run of the flat machine: where it stands in the image, the caches, and what is counted.
#![tactic(auto)]

ghost use Rattle.std.specs.Prelude.{◌≡◌, ◌-◌, ◌<◌, ◌≤◌, ◌^◌, ℕ, suc, All, Bool, None, Some, false, is_some, IfOk, IfSome, length, slice_get};
ghost use Rattle.swi_calls.specs.declared.machine.Machine.{Machine};
ghost use Rattle.swi_image.specs.Sound.{IsImage};
ghost use Rattle.swi_program.specs.Text.{IsSized};
ghost use Rattle.swi_render.specs.ImageOf.{IsImageOf};
ghost use Rattle.swi_rom.specs.Record.{direct, indirect};
ghost use Rattle.swi_tally.specs.Tallies.{AllServed, AreServing, IsFrame};
ghost use Rattle.swi_survey.specs.Ways.{AreAllWays, HasNumber, exit_to};
ghost use Rattle.swi_survey.specs.Track.{Follows, IsBehind, IsReady, IsStep, Leaves, Settles, Stands, StandsAt, Starts, closing, passed};

use crate::leaving::{Leaving, TAKEN, Way};
use crate::ways::{Map, Ways, map_of};
use std::alloc::Global;
use swi_flat::{Coasted, Gate};
use swi_image::ImageView;
use swi_outside::Memory;
use swi_program::TextView;
use swi_tally::{Frame, Tallies};

/// Where a run stands.
#[derive(Clone, Copy, Debug, PartialEq, Eq)]
pub enum Here {
    /// At the text word with a number.
    At(u32),
    /// At the exit behind the text word with a number, the last of its block.
    Behind(u32),
    /// Where no text word stands.
    Outside,
}

/// A step that comes next.
#[derive(Clone, Copy, Debug, PartialEq, Eq)]
pub enum Step {
    /// From the text word with a number.
    From(u32, Leaving),
    /// Where no text word stands.
    Outside,
    /// It would store into the text, at an address.
    Store(u32),
}

/// What is kept beside a run.
#[derive(Drop)]
pub struct Track {
    pub ways: Vec<Ways>,
    pub gates: Vec<Gate>,
    pub caches: Tallies,
    pub here: Here,
    /// How many words were fetched.
    pub fetches: u64,
    /// How many steps were made where no text word stands.
    pub outside: u64,
}

/// Where a run at an address stands.
fn here_at(text: &TextView<'_>, a: u32) -> Here
    requires { IsSized text.now }
    ensures { StandsAt text.now a result }
{
    let distance = a.wrapping_sub(text.base());
    let k = distance / 4;
    if distance % 4 == 0 && k < text.len() {
        Here::At(k)
    } else {
        Here::Outside
    }
}

/// Where it stands behind a step from text word `k`, the last of its block or not, that leaves it so and leads to an address.
fn here_behind(text: &TextView<'_>, k: u32, last: bool, way: Way, a: u32) -> Here
    requires sized { IsSized text.now }
    requires word { k < length text.now.words }
    ensures { IsBehind text.now k last way a result }
{
    match way {
        Way::Next if last => Here::Behind(k),
        Way::Next => Here::At(k + 1),
        Way::Over | Way::Away => here_at(text, a),
    }
}

/// All caches serve the exit with a number, if there is one.
#[inline(always)]
fn cross_if(caches: &mut Tallies, image: &ImageView<'_>, exit: Option<u32>)
    requires serving { AreServing image.now (2 ^ 50 - 1) caches.old }
    requires exit { IfSome exit (λ x. x < length caches.old.exits.from) }
    ensures served { (p : ℕ × ℕ) (a : ℕ) → HasNumber caches.old.exits (exit_to image.now p a) exit →
        AllServed image.now (direct p.0 p.1 a) caches.old caches.new }
    ensures serving { (n : ℕ) → AreServing image.now n caches.old → AreServing image.now (suc n) caches.new }
    ensures exits { caches.new.exits ≡ caches.old.exits }
{
    if let Some(x) = exit {
        caches.cross(image, x);
    }
}

/// All caches serve a jump to an address, wherever that is.
fn enter_at(caches: &mut Tallies, image: &ImageView<'_>, a: u32)
    requires serving { AreServing image.now (2 ^ 50 - 1) caches.old }
    requires blocks { length image.now.starts ≡ caches.old.exits.blocks }
    ensures served { AllServed image.now (indirect a) caches.old caches.new }
    ensures serving { (n : ℕ) → AreServing image.now n caches.old → AreServing image.now (suc n) caches.new }
    ensures exits { caches.new.exits ≡ caches.old.exits }
{
    if let Some((block, _)) = image.place(a) {
        caches.enter(image, block);
    }
}

/// All caches serve a jump to an address at which a run stands, without a search for its block.
#[inline(always)]
fn enter_here(
    caches: &mut Tallies,
    image: &ImageView<'_>,
    text: &TextView<'_>,
    ways: &[Ways],
    here: Here,
    a: u32,
)
    requires sized { IsSized text.now }
    requires image { IsImage image.now }
    requires own { IsImageOf text.now image.now }
    requires ways { AreAllWays text.now image.now caches.old.exits ways.now }
    requires long { length ways.now ≡ length text.now.words }
    requires serving { AreServing image.now (2 ^ 50 - 1) caches.old }
    requires stands { StandsAt text.now a here }
    ensures served { AllServed image.now (indirect a) caches.old caches.new }
    ensures serving { (n : ℕ) → AreServing image.now n caches.old → AreServing image.now (suc n) caches.new }
    ensures exits { caches.new.exits ≡ caches.old.exits }
{
    match here {
        Here::At(k) => caches.enter(image, ways[k as usize].block),
        Here::Behind(_) | Here::Outside => {}
    }
}

impl Track {
    /// What is kept before the first step of a program, which begins at `pc`: caches of these frames that have entered the block
    /// of its first instruction. Memory is the only error.
    pub(crate) fn start(
        alloc: Global,
        image: &ImageView<'_>,
        text: &TextView<'_>,
        frames: &[Frame],
        pc: u32,
    ) -> Result<Track, Memory>
        requires sized { IsSized text.now }
        requires image { IsImage image.now }
        requires own { IsImageOf text.now image.now }
        requires caches { length frames.now ≤ 64 }
        requires frames { All (IsFrame image.now.block_words) frames.now }
        ensures { IfOk result (λ k. Starts text.now image.now frames.now pc k) }
    {
        let Map { exits, ways, gates } = map_of(alloc, image, text)?;
        let mut caches = Tallies::new(alloc, image.blocks(), exits, frames)?;
        enter_at(&mut caches, image, pc);
        Ok(Track {
            ways,
            gates,
            caches,
            here: here_at(text, pc),
            fetches: 0,
            outside: 0,
        })
    }

    /// The exit behind a block's last text word is made, where the run stands at one; it leads to `pc`.
    pub(crate) fn settle(&mut self, image: &ImageView<'_>, text: &TextView<'_>, pc: u32)
        requires sized { IsSized text.now }
        requires image { IsImage image.now }
        requires own { IsImageOf text.now image.now }
        requires ready { IsReady text.now image.now self.old }
        requires stands { Stands text.now image.now pc self.old.here }
        ensures { (f : Machine) → f.pc ≡ pc → Settles text.now image.now f self.old self.new }
    {
        let Here::Behind(k) = self.here else { return };
        let exit = self.ways[k as usize].behind;
        cross_if(&mut self.caches, image, exit);
        self.fetches += 1;
        self.here = here_at(text, pc);
    }

    /// A step that was made is followed, which led to `pc`, or ended the run there.
    #[inline(always)]
    pub(crate) fn follow(
        &mut self,
        image: &ImageView<'_>,
        text: &TextView<'_>,
        step: Step,
        pc: u32,
        ended: bool,
    )
        requires sized { IsSized text.now }
        requires image { IsImage image.now }
        requires own { IsImageOf text.now image.now }
        requires ready { IsReady text.now image.now self.old }
        requires leaves { Leaves text.now self.old.here step }
        ensures { (f next : Machine) (failed : Bool) → IsStep text.now f failed self.old.here step next → next.pc ≡ pc →
            is_some next.ending ≡ ended → Follows text.now image.now f next self.old self.new }
    {
        match step {
            Step::Outside => self.outside += 1,
            Step::Store(_) => {}
            Step::From(k, left) => {
                let ways = self.ways[k as usize];
                self.fetches += left.words as u64;
                self.here = here_behind(text, k, ways.last, left.way, pc);
                if ended {
                    return;
                }
                match left.way {
                    Way::Next => {}
                    Way::Over => cross_if(&mut self.caches, image, ways.own),
                    Way::Away => {
                        enter_here(&mut self.caches, image, text, &self.ways, self.here, pc);
                    }
                }
            }
        }
    }

    /// Steps at which no cache had anything to do are passed, and the one that was made behind them, which led to `pc`, is
    /// followed.
    pub(crate) fn pass(&mut self, image: &ImageView<'_>, text: &TextView<'_>, by: Coasted, pc: u32)
        requires sized { IsSized text.now }
        requires image { IsImage image.now }
        requires own { IsImageOf text.now image.now }
        requires ready { IsReady text.now image.now (passed self.old by) }
        requires word { by.at < length text.now.words }
        ensures passed { by.last ≡ None → self.new ≡ passed self.old by }
        ensures follows { (taken : Bool) (w : Ways) (f next : Machine) (failed : Bool) → by.last ≡ Some taken → slice_get self.old.ways.items by.at ≡ Some w →
            IsStep text.now f failed (Here.At by.at) (closing by.at w taken) next → next.pc ≡ pc → is_some next.ending ≡ false → Follows text.now image.now f next (passed self.old by) self.new }
    {
        self.fetches += by.steps + by.paid;
        self.here = Here::At(by.at);
        if let Some(taken) = by.last {
            let left = if taken {
                TAKEN
            } else {
                self.ways[by.at as usize].left
            };
            self.follow(image, text, Step::From(by.at, left), pc, false);
        }
    }
}
