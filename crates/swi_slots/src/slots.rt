//! A service with slots of one size.
#![tactic(auto)]

ghost use Rattle.std.specs.Prelude.{◌≡◌, ◌+◌, ◌-◌, ◌*◌, ◌/◌, ◌%◌, ◌^◌, ◌<◌, ◌≤◌, ◌==◌, ℕ, List, length, slice_index, Option, IfOk, OnOk, OnErr, MatchOption, IsTrue, min, nat_lt, if◌then◌else◌};
ghost use Rattle.swi_image.specs.Format.{ImageData};
ghost use Rattle.swi_image.specs.Sound.{IsImage};
ghost use Rattle.swi_rom.specs.Record.{empty_record, reaches};
ghost use Rattle.swi_slots.specs.Slots.{Slots, InShape, kept_by, setting_of, empty_slots};
ghost use Rattle.swi_slots.specs.Sound.{SlotsSound, Serves};
ghost use Rattle.swi_slots.specs.Keys.{key_of, owner_of, number_of};
ghost use Rattle.swi_rom.specs.Writing.{FailedBelow};
ghost use Rattle.swi_slots.specs.Steps.{MadeRoom, Filled, Linked, MaybeLinked, can_link, IsAbsent, LinksInside, settled, counted_slots, wrapped};
ghost use Rattle.swi_slots.specs.Arrived.{Arrived};

use crate::divisor::Divisor;
use crate::table::LinkTable;
use std::alloc::Global;
use std::marker::Model;
use swi_image::{Hints, ImageView};
use swi_outside::{CacheRam, Failed, Memory};
use swi_rom::{CacheRom, Counts, RomStop, copy, jump, reach};

/// A cache of slots of one size, each of which holds a block of one of its programs. While a slot is free the lowest is
/// filled, and then the oldest block makes room. The table finds blocks and links.
#[derive(Drop)]
pub struct SlotRom<T: LinkTable> {
    slots: u32,
    size: u32,
    // The size, to divide by.
    divisor: Divisor,
    next: u32,
    filled: u32,
    programs: u32,
    turn: u32,
    // Of each slot its block's key.
    blocks: Vec<u32>,
    lengths: Vec<u32>,
    table: T,
    counts: Counts,
    // Where targets were found.
    hints: Hints,
}

impl<T: LinkTable> Model for SlotRom<T> {
    ghost use Rattle.std.specs.Prelude.{◌≡◌, ◌*◌, ◌^◌};
    ghost use Rattle.swi_slots.specs.Slots.{Slots, InShape};

    ghost Value = { Slots };

    ghost view = { λ s. record {
      slots = s.slots;
      size = s.size;
      next = s.next;
      filled = s.filled;
      programs = s.programs;
      turn = s.turn;
      blocks = s.blocks.items;
      lengths = s.lengths.items;
      targets = T.targets s.table;
      counts = s.counts;
    } };

    ghost invariant = { λ s. InShape (record {
      slots = s.slots;
      size = s.size;
      next = s.next;
      filled = s.filled;
      programs = s.programs;
      turn = s.turn;
      blocks = s.blocks.items;
      lengths = s.lengths.items;
      targets = T.targets s.table;
      counts = s.counts;
    }) × (T.slot_count s.table ≡ s.slots) × (T.slot_size s.table ≡ s.size)
        × (T.block_count s.table ≡ s.programs * 2 ^ 19) × T.knows s.table s.filled s.blocks.items × (s.divisor ≡ s.size) };
}

// The slot after a slot: after the last one comes the first.
fn following(slot: u32, slots: u32) -> u32
    requires { slot < slots }
    ensures { result ≡ wrapped (slot + 1) slots }
{
    if slot + 1 == slots { 0 } else { slot + 1 }
}

// A slot counted on past the filled ones, from the first again.
fn turned(slot: u32, filled: u32) -> u32
    ensures { result ≡ (if nat_lt slot filled then slot else slot - filled) }
{
    if slot < filled { slot } else { slot - filled }
}

/// The most blocks that an image has.
const BLOCKS: u32 = 1 << 19;

// The key of a program's block.
fn key(program: u32, block: u32) -> u32
    requires program { program < 2 ^ 12 }
    requires block { block < 2 ^ 19 }
    ensures { result ≡ key_of program block }
{
    program * BLOCKS + block
}

// Of which program a block is, by its key.
fn owner(key: u32) -> u32
    ensures { result ≡ owner_of key }
{
    key / BLOCKS
}

// Which block of its program it is.
fn number(key: u32) -> u32
    ensures { result ≡ number_of key }
{
    key % BLOCKS
}

impl<T: LinkTable> SlotRom<T> {
    /// An empty cache for one program, as `shared` makes it.
    pub fn new(alloc: Global, cache_bytes: u32, block_words: u32) -> Result<SlotRom<T>, Memory>
        requires least { 2 ≤ block_words }
        requires most { block_words ≤ 1024 }
        requires bytes { 4 * block_words ≤ cache_bytes }
        requires limit { cache_bytes ≤ 2 ^ 23 }
        ensures empty { IfOk result (λ s. s ≡ empty_slots (cache_bytes / 4 / block_words) block_words 1) }
        ensures kept { IfOk result (λ s. kept_by s ≡ empty_record) }
        ensures sound { IfOk result (λ s. (v : ImageData) (words : List ℕ) → IsImage v →
            v.block_words ≤ block_words → cache_bytes / 4 / block_words * block_words ≤ length words →
            SlotsSound s v words) }
    {
        SlotRom::shared(alloc, cache_bytes, block_words, 1)
    }

    /// An empty cache of up to `cache_bytes` bytes for up to eight programs, of which the first is in turn, in as many slots
    /// of `block_words` words as they hold: for all images with blocks of at most so many words, and every ram that holds
    /// the slots. A block has 2 to 1024 words; the cache holds one, and has at most 2^23 bytes.
    pub fn shared(
        alloc: Global,
        cache_bytes: u32,
        block_words: u32,
        programs: u32,
    ) -> Result<SlotRom<T>, Memory>
        requires least { 2 ≤ block_words }
        requires most { block_words ≤ 1024 }
        requires bytes { 4 * block_words ≤ cache_bytes }
        requires limit { cache_bytes ≤ 2 ^ 23 }
        requires programs { 1 ≤ programs }
        requires few { programs ≤ 8 }
        ensures empty { IfOk result (λ s. s ≡ empty_slots (cache_bytes / 4 / block_words) block_words programs) }
        ensures kept { IfOk result (λ s. kept_by s ≡ empty_record) }
        ensures serves { IfOk result (λ s. (images : ℕ → ImageData) (words : List ℕ) → ((p : ℕ) → IsImage (images p)) →
            ((p : ℕ) → (images p).block_words ≤ block_words) →
            cache_bytes / 4 / block_words * block_words ≤ length words → Serves s (images 0) images words) }
    {
        let slots = cache_bytes / 4 / block_words;
        let blocks = vec![in alloc; 0u32; slots as usize].map_err(|_| Memory)?;
        let lengths = vec![in alloc; 0u32; slots as usize].map_err(|_| Memory)?;
        let table = T::new(alloc, slots, block_words, programs * BLOCKS)?;
        let hints = Hints::new(alloc)?;
        Ok(SlotRom {
            slots,
            size: block_words,
            divisor: Divisor::new(block_words),
            next: 0,
            filled: 0,
            programs,
            turn: 0,
            blocks,
            lengths,
            table,
            counts: Counts::NONE,
            hints,
        })
    }

    /// Another program comes in turn. Nothing else changes: what served the images of all programs serves them still.
    pub fn turn_to(&mut self, program: u32)
        requires { program < (setting_of self.old).programs }
        ensures turned { self.new ≡ record self.old { turn = program } }
        ensures kept { kept_by self.new ≡ record (kept_by self.old) { turn = program } }
        ensures serves { (image : ImageData) (images : ℕ → ImageData) (words : List ℕ) →
            Serves self.old image images words → Serves self.new (images program) images words }
    {
        self.turn = program;
    }

    /// The table of links, which agrees with what the service keeps.
    pub fn table(&self) -> &T
        ensures slots { T.slot_count result.now ≡ self.now.slots }
        ensures size { T.slot_size result.now ≡ self.now.size }
        ensures targets { T.targets result.now ≡ self.now.targets }
        ensures knows { T.knows result.now self.now.filled self.now.blocks }
    {
        &self.table
    }

    // The key of the block that took the slot of a word last.
    fn block_at(&self, at: u32) -> u32
        requires { at < self.now.slots * self.now.size }
        ensures { result ≡ slice_index self.now.blocks (at / self.now.size) }
    {
        let (slot, _) = self.divisor.divide(at);
        self.blocks[slot as usize]
    }

    // The slot of a block of the program in turn.
    fn find(&self, block: u32) -> Option<u32>
        requires { block < 2 ^ 19 }
        ensures { MatchOption result (IsAbsent self.now (key_of self.now.turn block))
            (λ n. (n < self.now.filled) × (slice_index self.now.blocks n ≡ key_of self.now.turn block)) }
    {
        self.table
            .find(&self.blocks, self.filled, key(self.turn, block))
    }

    // Counts a service, but for the boot.
    fn count(&mut self)
        requires { self.old.counts.services < 2 ^ 50 }
        ensures { self.new ≡ counted_slots self.old }
    {
        if self.filled > 0 {
            self.counts.services += 1;
        }
    }

    // Counts a service of a target in this block, where it is looked for first from now on.
    fn count_near(&mut self, target: u32, block: u32)
        requires { self.old.counts.services < 2 ^ 50 }
        ensures { self.new ≡ counted_slots self.old }
    {
        self.count();
        self.hints.keep(target, block);
    }

    // Empties the next slot, where all are filled.
    fn make_room<M: CacheRam>(&mut self, ram: &mut M) -> Result<(), Failed>
        requires fits { self.old.slots * self.old.size ≤ length (M.state ram.old).words }
        requires evictions { self.old.counts.evictions < 2 ^ 60 }
        requires unlinks { self.old.counts.unlinks < 2 ^ 60 }
        requires inside { LinksInside self.old self.old.next }
        ensures room { OnOk result (MadeRoom self.old self.new (M.state ram.old) (M.state ram.new)) }
        ensures failed { OnErr result (FailedBelow (self.old.slots * self.old.size)
            (M.state ram.old) (M.state ram.new)) }
        ensures slots { self.new.slots ≡ self.old.slots }
        ensures size { self.new.size ≡ self.old.size }
        ensures programs { self.new.programs ≡ self.old.programs }
    {
        if self.filled < self.slots {
            return Ok(());
        }
        let words = self.lengths[self.next as usize];
        let undone = self.table.clear(self.next, words, ram)?;
        self.counts.evictions += 1;
        self.counts.unlinks += undone as u64;
        Ok(())
    }

    // The block has taken the next slot.
    fn settle(&mut self, block: u32, length: u32)
        requires misses { self.old.counts.misses < 2 ^ 51 }
        requires copied { self.old.counts.copied < 2 ^ 62 }
        requires block { block < 2 ^ 19 }
        requires absent { IsAbsent self.old (key_of self.old.turn block) }
        ensures { self.new ≡ settled self.old (key_of self.old.turn block) length }
    {
        let key = key(self.turn, block);
        self.table.settle(&self.blocks, self.filled, self.next, key);
        self.blocks[self.next as usize] = key;
        self.lengths[self.next as usize] = length;
        self.counts.misses += 1;
        self.counts.copied += length as u64;
        self.filled = (self.filled + 1).min(self.slots);
        self.next = following(self.next, self.slots);
    }

    // Copies a block that stands nowhere into the next slot.
    fn fill<M: CacheRam>(
        &mut self,
        image: &ImageView<'_>,
        ram: &mut M,
        block: u32,
    ) -> Result<(), Failed>
        requires sound { SlotsSound self.old image.now (M.state ram.old).words }
        requires services { self.old.counts.services ≤ 2 ^ 50 }
        requires block { block < length image.now.starts }
        requires absent { IsAbsent self.old (key_of self.old.turn block) }
        ensures filled { OnOk result (Filled image.now self.old block self.new
            (M.state ram.old) (M.state ram.new)) }
        ensures failed { OnErr result (FailedBelow (self.old.slots * self.old.size)
            (M.state ram.old) (M.state ram.new)) }
        ensures slots { self.new.slots ≡ self.old.slots }
        ensures size { self.new.size ≡ self.old.size }
        ensures programs { self.new.programs ≡ self.old.programs }
    {
        self.make_room(ram)?;
        let length = image.length(block);
        copy(image, ram, block, self.next * self.size, length)?;
        self.settle(block, length);
        Ok(())
    }

    // Serves a transfer to a target in a block: the block's slot.
    fn arrive<M: CacheRam>(
        &mut self,
        image: &ImageView<'_>,
        ram: &mut M,
        target: u32,
        block: u32,
    ) -> Result<u32, Failed>
        requires sound { SlotsSound self.old image.now (M.state ram.old).words }
        requires services { self.old.counts.services < 2 ^ 50 }
        requires block { block < length image.now.starts }
        ensures arrived { IfOk result (λ n. (images : ℕ → ImageData) →
            Serves self.old image.now images (M.state ram.old).words →
            Arrived images self.old block n self.new (M.state ram.old) (M.state ram.new)) }
        ensures failed { OnErr result (FailedBelow (self.old.slots * self.old.size)
            (M.state ram.old) (M.state ram.new)) }
        ensures slots { self.new.slots ≡ self.old.slots }
        ensures size { self.new.size ≡ self.old.size }
        ensures programs { self.new.programs ≡ self.old.programs }
    {
        self.count_near(target, block);
        match self.find(block) {
            Some(slot) => Ok(slot),
            None => {
                let slot = self.next;
                self.fill(image, ram, block)?;
                Ok(slot)
            }
        }
    }

    // Makes the exit at an index a jump to an index in a slot.
    fn link<M: CacheRam>(&mut self, ram: &mut M, at: u32, slot: u32, to: u32) -> Result<(), Failed>
        requires at { at < self.old.slots * self.old.size }
        requires to { to < self.old.slots * self.old.size }
        requires fits { self.old.slots * self.old.size ≤ length (M.state ram.old).words }
        requires reaches { IsTrue (reaches at to) }
        requires small { self.old.slots * self.old.size ≤ 2 ^ 21 }
        requires links { self.old.counts.links < 2 ^ 60 }
        requires slot { slot < self.old.slots }
        requires free { self.old.slots ≤ slice_index self.old.targets at }
        ensures linked { OnOk result (Linked self.old self.new at slot to
            (M.state ram.old) (M.state ram.new)) }
        ensures failed { OnErr result (FailedBelow (self.old.slots * self.old.size)
            (M.state ram.old) (M.state ram.new)) }
        ensures slots { self.new.slots ≡ self.old.slots }
        ensures size { self.new.size ≡ self.old.size }
        ensures programs { self.new.programs ≡ self.old.programs }
    {
        ram.set(at, jump(at, to))?;
        self.table.link(at, slot);
        self.counts.links += 1;
        Ok(())
    }

    // Makes the exit at an index a link, where its block still stands in its slot and a JAL reaches.
    fn link_exit<M: CacheRam>(
        &mut self,
        ram: &mut M,
        at: u32,
        home: u32,
        slot: u32,
        to: u32,
    ) -> Result<(), Failed>
        requires at { at < self.old.slots * self.old.size }
        requires to { to < self.old.slots * self.old.size }
        requires fits { self.old.slots * self.old.size ≤ length (M.state ram.old).words }
        requires small { self.old.slots * self.old.size ≤ 2 ^ 21 }
        requires links { self.old.counts.links < 2 ^ 60 }
        requires slot { slot < self.old.slots }
        requires free { (slice_index self.old.blocks (at / self.old.size) ≡ home) →
            self.old.slots ≤ slice_index self.old.targets at }
        ensures linked { OnOk result (MaybeLinked self.old self.new (can_link self.old at home to) at slot to
            (M.state ram.old) (M.state ram.new)) }
        ensures failed { OnErr result (FailedBelow (self.old.slots * self.old.size)
            (M.state ram.old) (M.state ram.new)) }
        ensures slots { self.new.slots ≡ self.old.slots }
        ensures size { self.new.size ≡ self.old.size }
        ensures programs { self.new.programs ≡ self.old.programs }
    {
        if self.block_at(at) != home {
            return Ok(());
        }
        if !reach(at, to) {
            return Ok(());
        }
        self.link(ram, at, slot, to)
    }
}

impl<T: LinkTable> CacheRom for SlotRom<T> {
    ghost use Rattle.swi_slots.specs.Service.{slots_service};

    ghost service = { slots_service };

    fn enter<M: CacheRam>(
        &mut self,
        image: &ImageView<'_>,
        ram: &mut M,
        target: u32,
    ) -> Result<u32, RomStop> {
        let Some((block, offset)) = image.place_near(target, self.hints.near(target)) else {
            return Err(RomStop::Outside);
        };
        let Ok(slot) = self.arrive(image, ram, target, block) else {
            return Err(RomStop::RamFault);
        };
        Ok(slot * self.size + offset)
    }

    fn revisit<M: CacheRam>(
        &mut self,
        image: &ImageView<'_>,
        _ram: &M,
        target: u32,
    ) -> Option<u32> {
        let (block, offset) = image.place_near(target, self.hints.near(target))?;
        let slot = self.find(block)?;
        self.count_near(target, block);
        Some(slot * self.size + offset)
    }

    #[inline(always)]
    fn visit<M: CacheRam>(&mut self, _image: &ImageView<'_>, _ram: &M, _target: u32, _index: u32) {
        self.count();
    }

    fn cross<M: CacheRam>(
        &mut self,
        image: &ImageView<'_>,
        ram: &mut M,
        at: u32,
        target: u32,
    ) -> Result<u32, RomStop> {
        let Some((block, offset)) = image.place_near(target, self.hints.near(target)) else {
            return Err(RomStop::Outside);
        };
        let home = self.block_at(at);
        let Ok(slot) = self.arrive(image, ram, target, block) else {
            return Err(RomStop::RamFault);
        };
        let index = slot * self.size + offset;
        let Ok(()) = self.link_exit(ram, at, home, slot, index) else {
            return Err(RomStop::RamFault);
        };
        Ok(index)
    }

    fn span(&self) -> u32 {
        self.slots * self.size
    }

    fn at(&self, i: u32) -> Option<(u32, u32)> {
        let (slot, offset) = self.divisor.divide(i);
        if slot >= self.filled {
            return None;
        }
        let block = self.blocks[slot as usize];
        if owner(block) != self.turn {
            return None;
        }
        if offset >= self.lengths[slot as usize] {
            return None;
        }
        Some((number(block), offset))
    }

    fn resident(&self, k: u32) -> Option<(u32, u32)> {
        let mut left = k;
        for n in 0..self.filled {
            let slot = turned(self.next + n, self.filled);
            let block = self.blocks[slot as usize];
            if owner(block) == self.turn {
                if left == 0 {
                    return Some((number(block), slot * self.size));
                }
                left -= 1;
            }
        }
        None
    }

    fn counts(&self) -> Counts {
        self.counts
    }

    ghost use Rattle.swi_slots.specs.Laws.{slots_laws};

    ghost laws = { slots_laws };
}
