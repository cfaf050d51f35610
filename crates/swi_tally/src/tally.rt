//! One cache without a ram.
#![tactic(auto)]

ghost use Rattle.std.specs.Prelude.{◌≡◌, ◌+◌, ◌*◌, ◌%◌, ◌^◌, ◌<◌, ◌≤◌, ◌↔◌, ◌∷◌, ℕ, Bool, false, true, Some, IfOk, IsTrue, length, slice_index, slice_index_or};
ghost use Rattle.std.specs.List.{list_any};
ghost use Rattle.swi_links.specs.Chains.{Has};
ghost use Rattle.swi_tally.specs.Exits.{ExitsData};
ghost use Rattle.swi_tally.specs.Groups.{Left, NoneIn, held_in};
ghost use Rattle.swi_tally.specs.Masks.{has_at};
ghost use Rattle.swi_tally.specs.Tally.{AreLeading, AreMarked, Arrives, Bounded, InShape, Links, Marks, Moved, Receded, Serves, Stands, counted_tally, empty_tally, freed, kept_by, policy_of, setting_of, settled, span, without_oldest};
ghost use Rattle.swi_ring.specs.Ring.{queue_of, spot};
ghost use Rattle.swi_ring.specs.Fifo.{cleared, first_for, meets};
ghost use Rattle.swi_image.specs.Place.{place_of};
ghost use Rattle.swi_rom.specs.Policy.{evicted};
ghost use Rattle.swi_rom.specs.Record.{direct, indirect};

use crate::exits::Exits;
use crate::groups::leave;
use crate::masks::{with, without};
use std::alloc::Global;
use std::marker::Model;
use swi_image::ImageView;
use swi_outside::Memory;
use swi_ring::BlockQueue;
use swi_rom::{Counts, reach};

/// What is kept of a block that isn't placed.
const NOWHERE: u32 = u32::MAX;

/// How blocks are placed in a cache: each in a slot, or one behind the other.
#[derive(Clone, Copy, Debug, PartialEq, Eq)]
pub enum Placing {
    Slots,
    Ring,
}

/// A cache without a ram: which blocks stand where, and what is counted. Which exits are linked is kept beside it, for many
/// caches together.
#[derive(Drop)]
pub struct Tally {
    placing: Placing,
    slots: u32,
    slot_words: u32,
    // Of a ring the word behind the block that was placed last.
    next: u32,
    queue: BlockQueue,
    // Of each block its first word; of one that isn't placed NOWHERE.
    homes: Vec<u32>,
    // Of each block whether a block that came later may have a link into it.
    led: Vec<bool>,
    counts: Counts,
}

impl Model for Tally {
    ghost use Rattle.swi_tally.specs.Tally.{TallyData};

    ghost Value = { TallyData };

    ghost view = { λ s. record {
      placing = s.placing;
      slots = s.slots;
      slot_words = s.slot_words;
      next = s.next;
      queue = s.queue.blocks;
      homes = s.homes.items;
      led = s.led.items;
      room = s.queue.room;
      counts = s.counts;
    } };
}

impl Tally {
    /// A cache in which nothing stands: so many slots of so many words each, for an image of so many blocks. Memory is the
    /// only error.
    pub(crate) fn new(
        alloc: Global,
        placing: Placing,
        slots: u32,
        slot_words: u32,
        blocks: u32,
    ) -> Result<Tally, Memory>
        requires words { slots * slot_words ≤ 2 ^ 21 }
        requires some { 1 ≤ blocks }
        requires few { blocks ≤ 2 ^ 19 }
        ensures { IfOk result (λ s. s ≡ empty_tally placing slots slot_words blocks) }
    {
        let queue = BlockQueue::new(alloc, blocks)?;
        let homes = vec![in alloc; NOWHERE; blocks as usize].map_err(|_| Memory)?;
        let led = vec![in alloc; false; blocks as usize].map_err(|_| Memory)?;
        Ok(Tally {
            placing,
            slots,
            slot_words,
            next: 0,
            queue,
            homes,
            led,
            counts: Counts {
                services: 0,
                misses: 0,
                evictions: 0,
                links: 0,
                unlinks: 0,
                copied: 0,
            },
        })
    }

    /// What was counted.
    pub(crate) fn counts(&self) -> Counts
        ensures { result ≡ self.now.counts }
    {
        self.counts
    }

    // How many words there are.
    fn span(&self) -> u32
        requires { InShape self.now }
        ensures { result ≡ span self.now }
    {
        self.slots * self.slot_words
    }

    // Whether a block stands.
    #[inline(always)]
    fn is_placed(&self, block: u32) -> bool
        requires shape { InShape self.now }
        requires block { block < length self.now.homes }
        ensures { IsTrue result ↔ Has self.now.queue block }
    {
        self.homes[block as usize] != NOWHERE
    }

    // The oldest block leaves, but for the links that it had.
    #[inline(always)]
    fn take_oldest(&mut self) -> u32
        requires shape { InShape self.old }
        requires some { 0 < length self.old.queue }
        requires evictions { self.old.counts.evictions < 2 ^ 60 }
        ensures oldest { self.old.queue ≡ result ∷ self.new.queue }
        ensures left { self.new ≡ without_oldest self.old result self.new.queue }
    {
        let block = self.queue.pop();
        self.homes[block as usize] = NOWHERE;
        self.counts.evictions += 1;
        block
    }

    // Counts links that were undone.
    #[inline(always)]
    fn count_unlinks(&mut self, undone: u32)
        requires { self.old.counts.unlinks < 2 ^ 60 }
        ensures { self.new ≡ record self.old { counts = record self.old.counts { unlinks = self.old.counts.unlinks + undone } } }
    {
        self.counts.unlinks += undone as u64;
    }

    // The links into a block that has left are undone: how many there were. There is none where no later block had one.
    #[inline(always)]
    fn undo(&self, exits: &Exits, block: u32, masks: &mut [u64], cache: u32) -> u32
        requires block { block < exits.now.blocks }
        requires led { block < length self.now.led }
        requires masks { length masks.old ≡ length exits.now.from }
        requires cache { cache < 64 }
        requires none { slice_index_or self.now.led block true ≡ false → NoneIn exits.now.into block masks.old cache }
        ensures left { Left exits.now.into block cache 0 masks.old masks.new }
        ensures count { result ≡ held_in exits.now.into block masks.old cache (length exits.now.into) }
    {
        let _ = exits.len();
        if self.led[block as usize] {
            leave(&exits.into, block, masks, cache)
        } else {
            0
        }
    }

    // The oldest block leaves, with the links from it and into it.
    #[inline(always)]
    fn evict(&mut self, exits: &Exits, masks: &mut [u64], placed: &mut [u64], cache: u32)
        requires shape { InShape self.old }
        requires some { 0 < length self.old.queue }
        requires bounded { Bounded exits.now (has_at masks.old cache) self.old }
        requires services { self.old.counts.services ≤ 2 ^ 50 }
        requires blocks { exits.now.blocks ≡ length self.old.homes }
        requires masks { length masks.old ≡ length exits.now.from }
        requires cache { cache < 64 }
        requires marked { AreMarked exits.now.blocks cache self.old.queue placed.old }
        ensures kept { kept_by exits.now (has_at masks.new cache) self.new
            ≡ evicted (kept_by exits.now (has_at masks.old cache) self.old) (queue_of self.old.homes self.old.queue) }
        ensures moved { Moved exits.now cache self.old self.new masks.old masks.new }
        ensures services { self.new.counts.services ≡ self.old.counts.services }
        ensures misses { self.new.counts.misses ≡ self.old.counts.misses }
        ensures links { self.new.counts.links ≡ self.old.counts.links }
        ensures next { self.new.next ≡ self.old.next }
        ensures oldest { (b : ℕ) × (self.old.queue ≡ b ∷ self.new.queue) }
        ensures marks { Marks exits.now.blocks cache self.new.queue placed.old placed.new }
    {
        let _ = exits.len();
        let block = self.take_oldest();
        leave(&exits.from, block, masks, cache);
        let undone = self.undo(exits, block, masks, cache);
        self.count_unlinks(undone);
        placed[block as usize] = without(placed[block as usize], cache);
    }

    // A block stands from a word on.
    #[inline(always)]
    fn settle(&mut self, placed: &mut [u64], cache: u32, block: u32, first: u32, size: u32)
        requires shape { InShape self.old }
        requires block { block < length self.old.homes }
        requires absent { Has self.old.queue block → ⊥ }
        requires within { first + size ≤ span self.old }
        requires misses { self.old.counts.misses < 2 ^ 60 }
        requires copied { self.old.counts.copied < 2 ^ 62 }
        requires marks { block < length placed.old }
        requires cache { cache < 64 }
        ensures settled { self.new ≡ settled self.old block first size }
        ensures marks { (n : ℕ) → AreMarked n cache self.old.queue placed.old → Marks n cache self.new.queue placed.old placed.new }
    {
        placed[block as usize] = with(placed[block as usize], cache);
        self.queue.push(block);
        self.homes[block as usize] = first;
        self.led[block as usize] = false;
        self.next = first + size;
        self.counts.misses += 1;
        self.counts.copied += size as u64;
    }

    /// Counts services at which its blocks all stood.
    pub(crate) fn count_services(&mut self, more: u64)
        requires { self.old.counts.services + more < 2 ^ 64 }
        ensures { self.new ≡ record self.old { counts = record self.old.counts { services = self.old.counts.services + more } } }
    {
        self.counts.services += more;
    }

    // Counts a service, but for the boot.
    #[inline(always)]
    fn count_service(&mut self)
        requires { self.old.counts.services < 2 ^ 50 }
        ensures { self.new ≡ counted_tally self.old }
    {
        if self.queue.len() > 0 {
            self.counts.services += 1;
        }
    }

    // The first word of the slot that is filled next.
    #[inline(always)]
    fn next_slot(&self) -> u32
        requires { InShape self.now }
        ensures value { result ≡ self.now.counts.misses % self.now.slots * self.now.slot_words }
        ensures within { result + self.now.slot_words ≤ span self.now }
    {
        (self.counts.misses % self.slots as u64) as u32 * self.slot_words
    }

    // Where all slots are taken, the oldest block leaves.
    #[inline(always)]
    fn free_slot(
        &mut self,
        image: &ImageView<'_>,
        exits: &Exits,
        masks: &mut [u64],
        placed: &mut [u64],
        cache: u32,
    )
        requires stands { Stands image.now exits.now cache masks.old self.old }
        requires marked { AreMarked exits.now.blocks cache self.old.queue placed.old }
        requires services { self.old.counts.services ≤ 2 ^ 50 }
        ensures kept { kept_by exits.now (has_at masks.new cache) self.new
            ≡ freed (setting_of self.old) (kept_by exits.now (has_at masks.old cache) self.old) }
        ensures stands { Stands image.now exits.now cache masks.new self.new }
        ensures moved { Moved exits.now cache self.old self.new masks.old masks.new }
        ensures receded { Receded self.old self.new }
        ensures marks { Marks exits.now.blocks cache self.new.queue placed.old placed.new }
    {
        if self.queue.len() >= self.slots {
            self.evict(exits, masks, placed, cache);
        }
    }

    // A block that doesn't stand is placed in the next slot.
    #[inline(always)]
    fn fill_slot(
        &mut self,
        image: &ImageView<'_>,
        exits: &Exits,
        masks: &mut [u64],
        placed: &mut [u64],
        cache: u32,
        block: u32,
    )
        requires stands { Stands image.now exits.now cache masks.old self.old }
        requires marked { AreMarked exits.now.blocks cache self.old.queue placed.old }
        requires services { self.old.counts.services ≤ 2 ^ 50 }
        requires missed { self.old.counts.misses ≤ self.old.counts.services }
        requires placing { self.old.placing ≡ Placing.Slots }
        requires block { block < exits.now.blocks }
        requires absent { Has self.old.queue block → ⊥ }
        ensures arrives { Arrives image.now exits.now cache block self.old self.new masks.old masks.new }
        ensures leading { AreLeading self.new block }
        ensures marks { Marks exits.now.blocks cache self.new.queue placed.old placed.new }
    {
        let _ = image.blocks();
        let size = image.length(block);
        let first = self.next_slot();
        self.free_slot(image, exits, masks, placed, cache);
        self.settle(placed, cache, block, first, size);
    }

    // Whether the k-th oldest block has one of some words.
    fn is_in_way(&self, image: &ImageView<'_>, k: u32, first: u32, size: u32) -> bool
        requires shape { InShape self.now }
        requires blocks { length image.now.starts ≡ length self.now.homes }
        requires few { image.now.block_words ≤ 1024 }
        requires within { first + size ≤ span self.now }
        requires k { k < length self.now.queue }
        ensures { result ≡ meets image.now first size (spot self.now.homes (slice_index self.now.queue k)) }
    {
        let block = self.queue.get(k);
        let home = self.homes[block as usize];
        let end = home + image.length(block);
        home < first + size && first < end
    }

    // Whether a block that stands has one of some words.
    fn is_met(&self, image: &ImageView<'_>, first: u32, size: u32) -> bool
        requires shape { InShape self.now }
        requires blocks { length image.now.starts ≡ length self.now.homes }
        requires few { image.now.block_words ≤ 1024 }
        requires within { first + size ≤ span self.now }
        ensures { result ≡ list_any (meets image.now first size) (queue_of self.now.homes self.now.queue) }
    {
        for k in 0..self.queue.len() {
            if self.is_in_way(image, k, first, size) {
                return true;
            }
        }
        false
    }

    // The oldest blocks leave, until none has one of some words.
    fn make_room(
        &mut self,
        image: &ImageView<'_>,
        exits: &Exits,
        masks: &mut [u64],
        placed: &mut [u64],
        cache: u32,
        first: u32,
        size: u32,
    )
        requires stands { Stands image.now exits.now cache masks.old self.old }
        requires marked { AreMarked exits.now.blocks cache self.old.queue placed.old }
        requires services { self.old.counts.services ≤ 2 ^ 50 }
        requires within { first + size ≤ span self.old }
        ensures kept { kept_by exits.now (has_at masks.new cache) self.new
            ≡ cleared image.now first size (queue_of self.old.homes self.old.queue) (kept_by exits.now (has_at masks.old cache) self.old) }
        ensures stands { Stands image.now exits.now cache masks.new self.new }
        ensures moved { Moved exits.now cache self.old self.new masks.old masks.new }
        ensures receded { Receded self.old self.new }
        ensures marks { Marks exits.now.blocks cache self.new.queue placed.old placed.new }
    {
        while self.is_met(image, first, size) {
            self.evict(exits, masks, placed, cache);
        }
    }

    // Where a block of some words is placed in a ring.
    fn ring_place(&self, size: u32) -> u32
        requires shape { InShape self.now }
        requires size { size ≤ span self.now }
        ensures value { (e : ExitsData) (linked : ℕ → Bool) → self.now.placing ≡ Placing.Ring → result ≡ first_for (span self.now) (kept_by e linked self.now) size }
        ensures within { result + size ≤ span self.now }
    {
        if self.next + size <= self.span() {
            self.next
        } else {
            0
        }
    }

    // A block that doesn't stand is placed behind the one that was placed last.
    #[inline(never)]
    fn fill_ring(
        &mut self,
        image: &ImageView<'_>,
        exits: &Exits,
        masks: &mut [u64],
        placed: &mut [u64],
        cache: u32,
        block: u32,
    )
        requires stands { Stands image.now exits.now cache masks.old self.old }
        requires marked { AreMarked exits.now.blocks cache self.old.queue placed.old }
        requires services { self.old.counts.services ≤ 2 ^ 50 }
        requires missed { self.old.counts.misses ≤ self.old.counts.services }
        requires placing { self.old.placing ≡ Placing.Ring }
        requires one { self.old.slots ≡ 1 }
        requires block { block < exits.now.blocks }
        requires absent { Has self.old.queue block → ⊥ }
        ensures arrives { Arrives image.now exits.now cache block self.old self.new masks.old masks.new }
        ensures leading { AreLeading self.new block }
        ensures marks { Marks exits.now.blocks cache self.new.queue placed.old placed.new }
    {
        let _ = image.blocks();
        let size = image.length(block);
        let first = self.ring_place(size);
        self.make_room(image, exits, masks, placed, cache, first, size);
        self.settle(placed, cache, block, first, size);
    }

    // A block that doesn't stand comes to stand.
    #[inline(always)]
    fn fill(
        &mut self,
        image: &ImageView<'_>,
        exits: &Exits,
        masks: &mut [u64],
        placed: &mut [u64],
        cache: u32,
        block: u32,
    )
        requires stands { Stands image.now exits.now cache masks.old self.old }
        requires marked { AreMarked exits.now.blocks cache self.old.queue placed.old }
        requires services { self.old.counts.services ≤ 2 ^ 50 }
        requires missed { self.old.counts.misses ≤ self.old.counts.services }
        requires one { self.old.placing ≡ Placing.Ring → self.old.slots ≡ 1 }
        requires block { block < exits.now.blocks }
        requires absent { Has self.old.queue block → ⊥ }
        ensures arrives { Arrives image.now exits.now cache block self.old self.new masks.old masks.new }
        ensures leading { AreLeading self.new block }
        ensures marks { Marks exits.now.blocks cache self.new.queue placed.old placed.new }
    {
        match self.placing {
            Placing::Slots => self.fill_slot(image, exits, masks, placed, cache, block),
            Placing::Ring => self.fill_ring(image, exits, masks, placed, cache, block),
        }
    }

    // Counts a service, and a block comes to stand, which nearly always stands already.
    #[inline(always)]
    fn serve(
        &mut self,
        image: &ImageView<'_>,
        exits: &Exits,
        masks: &mut [u64],
        placed: &mut [u64],
        cache: u32,
        block: u32,
    )
        requires serves { Serves image.now exits.now cache masks.old self.old }
        requires marked { AreMarked exits.now.blocks cache self.old.queue placed.old }
        requires services { self.old.counts.services < 2 ^ 50 }
        requires block { block < exits.now.blocks }
        ensures arrives { Arrives image.now exits.now cache block (counted_tally self.old) self.new masks.old masks.new }
        ensures leading { AreLeading self.new block }
        ensures marks { Marks exits.now.blocks cache self.new.queue placed.old placed.new }
    {
        if self.is_placed(block) {
            self.counts.services += 1;
            self.led[block as usize] = true;
        } else {
            self.count_service();
            self.fill(image, exits, masks, placed, cache, block);
        }
    }

    // The exit becomes a link, where its block still stands and a JAL reaches.
    #[inline(always)]
    fn link(&mut self, image: &ImageView<'_>, exits: &Exits, masks: &mut [u64], cache: u32, x: u32)
        requires stands { Stands image.now exits.now cache masks.old self.old }
        requires exit { x < length exits.now.from }
        requires unlinked { has_at masks.old cache x ≡ false }
        requires here { Has self.old.queue (slice_index exits.now.into x) }
        requires leading { AreLeading self.old (slice_index exits.now.into x) }
        requires links { self.old.counts.links ≤ self.old.counts.services }
        requires services { self.old.counts.services ≤ 2 ^ 50 }
        ensures links { Links exits.now cache x self.old self.new masks.old masks.new }
    {
        let exit = exits.exit(x);
        if !self.is_placed(exit.block) {
            return;
        }
        let from = self.homes[exit.block as usize] + exit.offset;
        let to = self.homes[exit.into as usize] + exit.at;
        if reach(from, to) {
            masks[x as usize] = with(masks[x as usize], cache);
            self.counts.links += 1;
        }
    }

    /// Serves a direct exit that isn't linked, by the policy.
    #[inline(always)]
    pub(crate) fn cross(
        &mut self,
        image: &ImageView<'_>,
        exits: &Exits,
        masks: &mut [u64],
        placed: &mut [u64],
        cache: u32,
        x: u32,
    )
        requires serves { Serves image.now exits.now cache masks.old self.old }
        requires marked { AreMarked exits.now.blocks cache self.old.queue placed.old }
        requires services { self.old.counts.services < 2 ^ 50 }
        requires exit { x < length exits.now.from }
        requires unlinked { has_at masks.old cache x ≡ false }
        ensures kept { (a : ℕ) → place_of image.now a ≡ Some (slice_index exits.now.into x, slice_index exits.now.ats x) →
            kept_by exits.now (has_at masks.new cache) self.new
            ≡ policy_of self.old.placing (setting_of self.old) (kept_by exits.now (has_at masks.old cache) self.old) image.now
            (direct (slice_index exits.now.from x) (slice_index exits.now.offsets x) a) }
        ensures serves { Serves image.now exits.now cache masks.new self.new }
        ensures moved { Moved exits.now cache self.old self.new masks.old masks.new }
        ensures services { self.new.counts.services ≤ self.old.counts.services + 1 }
        ensures marks { Marks exits.now.blocks cache self.new.queue placed.old placed.new }
    {
        let into = exits.exit(x).into;
        self.serve(image, exits, masks, placed, cache, into);
        self.link(image, exits, masks, cache, x);
    }

    /// Serves a jump to an address in a block, by the policy.
    #[inline(always)]
    pub(crate) fn enter(
        &mut self,
        image: &ImageView<'_>,
        exits: &Exits,
        masks: &mut [u64],
        placed: &mut [u64],
        cache: u32,
        block: u32,
    )
        requires serves { Serves image.now exits.now cache masks.old self.old }
        requires marked { AreMarked exits.now.blocks cache self.old.queue placed.old }
        requires services { self.old.counts.services < 2 ^ 50 }
        requires block { block < exits.now.blocks }
        ensures kept { (a o : ℕ) → place_of image.now a ≡ Some (block, o) →
            kept_by exits.now (has_at masks.new cache) self.new
            ≡ policy_of self.old.placing (setting_of self.old) (kept_by exits.now (has_at masks.old cache) self.old) image.now (indirect a) }
        ensures serves { Serves image.now exits.now cache masks.new self.new }
        ensures moved { Moved exits.now cache self.old self.new masks.old masks.new }
        ensures services { self.new.counts.services ≤ self.old.counts.services + 1 }
        ensures marks { Marks exits.now.blocks cache self.new.queue placed.old placed.new }
    {
        self.serve(image, exits, masks, placed, cache, block);
    }
}
