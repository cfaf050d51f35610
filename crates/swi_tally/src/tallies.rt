//! Many caches of one image, side by side.
#![tactic(auto)]

ghost use Rattle.std.specs.Prelude.{◌≡◌, ◌+◌, ◌-◌, ◌*◌, ◌<◌, ◌≤◌, ◌^◌, ℕ, suc, false, true, All, Some, IfOk, IfSome, length, map, nat_lt, replicate, slice_get, slice_index};
ghost use Rattle.swi_image.specs.Place.{place_of};
ghost use Rattle.swi_rom.specs.Record.{direct, indirect};
ghost use Rattle.swi_tally.specs.Masks.{has, has_at};
ghost use Rattle.swi_tally.specs.Tallies.{AllServed, AreServing, OneMoved, OneServed, Row, ServesAt, before, empty_of, empty_tallies, row_at, served_if, told};

use crate::exits::Exits;
use crate::masks::{first, lacking, with, without};
use crate::tally::{Placing, Tally};
use std::alloc::Global;
use std::marker::Model;
use swi_image::ImageView;
use swi_outside::Memory;
use swi_rom::Counts;

/// What a cache is made of: so many slots of so many words each. A ring is one slot.
#[derive(Clone, Copy, Debug, PartialEq, Eq)]
pub struct Frame {
    pub placing: Placing,
    pub slots: u32,
    pub slot_words: u32,
}

/// A cache, and how many of the jumps over a register its own count of services has in it: each has counted one at all that came
/// since.
#[derive(Drop)]
pub(crate) struct Seat {
    tally: Tally,
    jumps: u64,
}

impl Seat {
    // Counts a service at each of the jumps that have come since, up to so many.
    #[inline(always)]
    fn count_to(&mut self, jumps: u64)
        requires since { self.old.jumps ≤ jumps }
        requires few { self.old.tally.counts.services + jumps < 2 ^ 64 }
        ensures { self.new ≡ record { tally = told jumps self.old; jumps = jumps } }
    {
        self.tally.count_services(jumps - self.jumps);
        self.jumps = jumps;
    }
}

/// Up to 64 caches without a ram, which serve the same transfers.
#[derive(Drop)]
pub struct Tallies {
    exits: Exits,
    // Of each exit the caches in which it is a link.
    masks: Vec<u64>,
    // Of each block the caches in which it stands.
    placed: Vec<u64>,
    caches: Vec<Seat>,
    // How many jumps over a register have come.
    jumps: u64,
    // The set of all caches.
    all: u64,
}

impl Model for Tallies {
    ghost use Rattle.swi_tally.specs.Tallies.{AreSeated, TalliesData};

    ghost Value = { TalliesData };

    ghost view = { λ t. record { exits = t.exits; masks = t.masks.items; caches = t.caches.items; jumps = t.jumps } };

    ghost invariant = { λ t. AreSeated t.exits t.masks.items t.placed.items t.all t.caches.items t.jumps };
}

/// Caches of these frames, in their order. Memory is the only error.
fn make_caches(alloc: Global, blocks: u32, frames: &[Frame]) -> Result<Vec<Seat>, Memory>
    requires some { 1 ≤ blocks }
    requires few { blocks ≤ 2 ^ 19 }
    requires frames { All (λ f. f.slots * f.slot_words ≤ 2 ^ 21) frames.now }
    ensures { IfOk result (λ ts. ts.items ≡ map (empty_of blocks) frames.now) }
{
    let mut caches = Vec::new(alloc);
    for frame in frames {
        let tally = Tally::new(alloc, frame.placing, frame.slots, frame.slot_words, blocks)?;
        if caches.push(Seat { tally, jumps: 0 }).is_err() {
            return Err(Memory);
        }
    }
    Ok(caches)
}

/// So many empty sets. Memory is the only error.
fn empty_sets(alloc: Global, many: u32) -> Result<Vec<u64>, Memory>
    ensures { IfOk result (λ s. s.items ≡ replicate many 0) }
{
    vec![in alloc; 0u64; many as usize].map_err(|_| Memory)
}

/// The set of so many caches, the first ones.
fn set_of(caches: u32) -> u64
    requires { caches ≤ 64 }
    ensures { (k : ℕ) → k < 64 → has result k ≡ nat_lt k caches }
{
    let mut all = 0;
    for k in 0..caches {
        all = with(all, k);
    }
    all
}

impl Tallies {
    /// Empty caches of these frames, at most 64, for an image of so many blocks with these exits. Memory is the only error.
    pub fn new(
        alloc: Global,
        blocks: u32,
        exits: Exits,
        frames: &[Frame],
    ) -> Result<Tallies, Memory>
        requires some { 1 ≤ blocks }
        requires few { blocks ≤ 2 ^ 19 }
        requires blocks { exits.blocks ≡ blocks }
        requires caches { length frames.now ≤ 64 }
        requires frames { All (λ f. f.slots * f.slot_words ≤ 2 ^ 21) frames.now }
        ensures { IfOk result (λ t. t ≡ empty_tallies exits frames.now) }
    {
        let caches = make_caches(alloc, blocks, frames)?;
        let masks = empty_sets(alloc, exits.len())?;
        let placed = empty_sets(alloc, blocks)?;
        Ok(Tallies {
            exits,
            masks,
            placed,
            caches,
            jumps: 0,
            all: set_of(frames.len() as u32),
        })
    }

    /// How many caches there are.
    pub fn len(&self) -> u32
        ensures value { result ≡ length self.now.caches }
        ensures few { result ≤ 64 }
    {
        self.caches.len() as u32
    }

    /// What the k-th cache has counted.
    pub fn counts(&self, k: u32) -> Counts
        requires { k < length self.now.caches }
        ensures { (r : Row) → row_at self.now k ≡ Some r → result ≡ r.kept.counts }
    {
        let seat = &self.caches[k as usize];
        let counts = seat.tally.counts();
        Counts {
            services: counts.services + (self.jumps - seat.jumps),
            ..counts
        }
    }

    /// Of each exit the set of the caches in which it is a link.
    pub fn masks(&self) -> &[u64]
        ensures value { result.now ≡ self.now.masks }
        ensures long { length result.now ≡ length self.now.exits.from }
    {
        &self.masks
    }

    /// The set of all caches.
    pub fn all(&self) -> u64
        ensures { (k : ℕ) → k < length self.now.caches → has result k ≡ true }
    {
        self.all
    }

    // The k-th cache serves a direct exit that is no link in it.
    #[inline(always)]
    fn cross_by(&mut self, image: &ImageView<'_>, k: u32, x: u32)
        requires cache { k < length self.old.caches }
        requires serves { ServesAt image.now (2 ^ 50 - 1) self.old k }
        requires exit { x < length self.old.exits.from }
        requires unlinked { has_at self.old.masks k x ≡ false }
        ensures served { (a : ℕ) → place_of image.now a ≡ Some (slice_index self.old.exits.into x, slice_index self.old.exits.ats x) →
            OneServed image.now (direct (slice_index self.old.exits.from x) (slice_index self.old.exits.offsets x) a) k self.old self.new }
        ensures serves { (n : ℕ) → ServesAt image.now n self.old k → ServesAt image.now (suc n) self.new k }
        ensures moved { OneMoved k self.old self.new }
    {
        let masks = self.masks.as_mut_slice();
        let placed = self.placed.as_mut_slice();
        let seat = &mut self.caches[k as usize];
        seat.count_to(self.jumps);
        seat.tally.cross(image, &self.exits, masks, placed, k, x);
    }

    // The k-th cache serves the last of the jumps, to an address in a block, and counts on its own up to it.
    #[inline(always)]
    fn enter_by(&mut self, image: &ImageView<'_>, k: u32, block: u32)
        requires cache { k < length self.old.caches }
        requires serves { ServesAt image.now (2 ^ 50 - 1) (before self.old) k }
        requires since { IfSome (slice_get self.old.caches k) (λ s. s.jumps < self.old.jumps) }
        requires block { block < self.old.exits.blocks }
        ensures served { (a o : ℕ) → place_of image.now a ≡ Some (block, o) → row_at self.new k ≡ served_if image.now (indirect a) (row_at (before self.old) k) }
        ensures serves { (n : ℕ) → ServesAt image.now n (before self.old) k → ServesAt image.now (suc n) self.new k }
        ensures moved { OneMoved k self.old self.new }
    {
        let masks = self.masks.as_mut_slice();
        let placed = self.placed.as_mut_slice();
        let seat = &mut self.caches[k as usize];
        seat.count_to(self.jumps - 1);
        seat.jumps = self.jumps;
        seat.tally
            .enter(image, &self.exits, masks, placed, k, block);
    }

    /// Each cache serves a direct exit, by its policy: where it isn't a link, a service is counted, the target's block comes
    /// to stand, and the exit is linked.
    #[inline(never)]
    pub fn cross(&mut self, image: &ImageView<'_>, x: u32)
        requires serving { AreServing image.now (2 ^ 50 - 1) self.old }
        requires exit { x < length self.old.exits.from }
        ensures served { (a : ℕ) → place_of image.now a ≡ Some (slice_index self.old.exits.into x, slice_index self.old.exits.ats x) →
            AllServed image.now (direct (slice_index self.old.exits.from x) (slice_index self.old.exits.offsets x) a) self.old self.new }
        ensures serving { (n : ℕ) → AreServing image.now n self.old → AreServing image.now (suc n) self.new }
        ensures exits { self.new.exits ≡ self.old.exits }
    {
        let mut rest = lacking(self.all, self.masks[x as usize]);
        while rest > 0 {
            let k = first(rest);
            self.cross_by(image, k, x);
            rest = without(rest, k);
        }
    }

    /// Each cache serves a jump to an address in a block, by its policy.
    pub fn enter(&mut self, image: &ImageView<'_>, block: u32)
        requires serving { AreServing image.now (2 ^ 50 - 1) self.old }
        requires block { block < self.old.exits.blocks }
        ensures served { (a o : ℕ) → place_of image.now a ≡ Some (block, o) → AllServed image.now (indirect a) self.old self.new }
        ensures serving { (n : ℕ) → AreServing image.now n self.old → AreServing image.now (suc n) self.new }
        ensures exits { self.new.exits ≡ self.old.exits }
    {
        self.jumps += 1;
        let mut rest = lacking(self.all, self.placed[block as usize]);
        while rest > 0 {
            let k = first(rest);
            self.enter_by(image, k, block);
            rest = without(rest, k);
        }
    }
}
