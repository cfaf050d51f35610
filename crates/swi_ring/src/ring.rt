//! A service whose blocks stand one after the other.
#![tactic(auto)]

ghost use Rattle.std.specs.Prelude.{◌≡◌, ◌+◌, ◌-◌, ◌*◌, ◌/◌, ◌^◌, ◌<◌, ◌≤◌, ◌↔◌, ℕ, List, length, replicate, slice_index, Option, IfOk, OnOk, OnErr, MatchOption, IsTrue};
ghost use Rattle.swi_image.specs.Format.{ImageData};
ghost use Rattle.swi_image.specs.Place.{length_at};
ghost use Rattle.swi_image.specs.Sound.{IsImage};
ghost use Rattle.swi_rom.specs.Record.{empty_record, reaches};
ghost use Rattle.swi_rom.specs.Writing.{FailedBelow};
ghost use Rattle.swi_links.specs.Chains.{Has, list_of};
ghost use Rattle.swi_ring.specs.Chained.{LinkTo};
ghost use Rattle.swi_ring.specs.Ring.{Ring, InShape, kept_by, stands_at, target_at};
ghost use Rattle.swi_ring.specs.Sound.{RingSound};
ghost use Rattle.swi_ring.specs.Steps.{empty_ring, marked, Left, MadeRoom, Filled, settled, counted_ring, first_in, Arrived, Linked, MaybeLinked, can_link};

use crate::queue::BlockQueue;
use std::alloc::Global;
use std::marker::Model;
use swi_image::{Hints, ImageView};
use swi_links::{Chains, undo};
use swi_outside::{CacheRam, Failed, Memory};
use swi_rom::{CacheRom, Counts, RomStop, copy, jump, reach};

/// A cache in which each block takes as many words as it has: it stands behind the block that was placed last, or from
/// the first word on where it doesn't fit there. While the words where it is to stand are not free, the oldest block
/// leaves. After `new` no call takes memory. `visit` and `at` take constant time, and `revisit` but for the search
/// of the place; `enter` and `cross` take time linear in the words that they write and in those of the blocks that leave.
#[derive(Drop)]
pub struct RingRom {
    words: u32,
    next: u32,
    queue: BlockQueue,
    // Of each block its first word, and its length. Where it isn't placed, the first word is the number of words.
    firsts: Vec<u32>,
    lengths: Vec<u32>,
    // Of each word the block that was copied there last.
    owners: Vec<u32>,
    // For each block the links to it.
    chains: Chains,
    counts: Counts,
    // Where targets were found.
    hints: Hints,
}

impl Model for RingRom {
    ghost use Rattle.std.specs.Prelude.{◌≡◌, length};
    ghost use Rattle.swi_ring.specs.Ring.{Ring, InShape};

    ghost Value = { Ring };

    ghost view = { λ s. record {
      words = s.words;
      next = s.next;
      queue = s.queue.blocks;
      firsts = s.firsts.items;
      lengths = s.lengths.items;
      owners = s.owners.items;
      chains = s.chains;
      counts = s.counts;
    } };

    ghost invariant = { λ s. InShape (record {
      words = s.words;
      next = s.next;
      queue = s.queue.blocks;
      firsts = s.firsts.items;
      lengths = s.lengths.items;
      owners = s.owners.items;
      chains = s.chains;
      counts = s.counts;
    }) × (s.queue.room ≡ length s.firsts.items) };
}

// So many times a number.
fn all_of(alloc: Global, number: u32, count: u32) -> Result<Vec<u32>, Memory>
    ensures { IfOk result (λ xs. xs.items ≡ replicate count number) }
{
    vec![in alloc; number; count as usize].map_err(|_| Memory)
}

// Some words have been copied for a block.
fn mark(owners: &mut Vec<u32>, first: u32, size: u32, block: u32)
    requires within { first + size ≤ length owners.old.items }
    requires few { length owners.old.items ≤ 2 ^ 21 }
    ensures { owners.new.items ≡ marked owners.old.items first size block }
{
    for k in 0..size {
        owners[(first + k) as usize] = block;
    }
}

impl RingRom {
    /// An empty cache of the whole words of `cache_bytes` bytes, which serves one program: every image of at most
    /// `blocks` blocks, 1 to 2^19, with at most `block_words` words each, 2 to 1024, over every ram that holds the
    /// cache's words. The cache holds a block of that length, and has at most 2^23 bytes. The only error is want of
    /// memory.
    pub fn new(
        alloc: Global,
        cache_bytes: u32,
        blocks: u32,
        block_words: u32,
    ) -> Result<RingRom, Memory>
        requires some { 1 ≤ blocks }
        requires few { blocks ≤ 2 ^ 19 }
        requires least { 2 ≤ block_words }
        requires most { block_words ≤ 1024 }
        requires bytes { 4 * block_words ≤ cache_bytes }
        requires limit { cache_bytes ≤ 2 ^ 23 }
        ensures empty { IfOk result (λ s. s ≡ empty_ring (cache_bytes / 4) blocks) }
        ensures kept { IfOk result (λ s. kept_by s ≡ empty_record) }
        ensures sound { IfOk result (λ s. (v : ImageData) (words : List ℕ) → IsImage v → length v.blocks ≤ blocks →
            v.block_words ≤ block_words → cache_bytes / 4 ≤ length words → RingSound s v words) }
    {
        let words = cache_bytes / 4;
        let queue = BlockQueue::new(alloc, blocks)?;
        let firsts = all_of(alloc, words, blocks)?;
        let lengths = all_of(alloc, 0, blocks)?;
        let owners = all_of(alloc, 0, words)?;
        let chains = Chains::new(alloc, blocks, words)?;
        let hints = Hints::new(alloc)?;
        Ok(RingRom {
            words,
            next: 0,
            queue,
            firsts,
            lengths,
            owners,
            chains,
            counts: Counts::NONE,
            hints,
        })
    }

    // The first word of a block, where it is placed.
    fn find(&self, block: u32) -> Option<u32>
        requires { block < length self.now.firsts }
        ensures { MatchOption result (Has self.now.queue block → ⊥)
            (λ f. Has self.now.queue block × (slice_index self.now.firsts block ≡ f)) }
    {
        let first = self.firsts[block as usize];
        if first < self.words {
            Some(first)
        } else {
            None
        }
    }

    // Whether a placed block has the word.
    fn is_used(&self, i: u32) -> bool
        requires { i < self.now.words }
        ensures { result ≡ stands_at self.now i (slice_index self.now.owners i) }
    {
        let block = self.owners[i as usize];
        let first = self.firsts[block as usize];
        first <= i && i - first < self.lengths[block as usize]
    }

    // Counts a service, but for the boot.
    fn count(&mut self)
        requires { self.old.counts.services < 2 ^ 50 }
        ensures { self.new ≡ counted_ring self.old }
    {
        if self.queue.len() > 0 {
            self.counts.services += 1;
        }
    }

    // Counts a service of a target in this block, where it is looked for first from now on.
    fn count_near(&mut self, target: u32, block: u32)
        requires { self.old.counts.services < 2 ^ 50 }
        ensures { self.new ≡ counted_ring self.old }
    {
        self.count();
        self.hints.keep(target, block);
    }

    // The oldest block leaves.
    fn evict<M: CacheRam>(&mut self, ram: &mut M) -> Result<(), Failed>
        requires some { 0 < length self.old.queue }
        requires fits { self.old.words ≤ length (M.state ram.old).words }
        requires evictions { self.old.counts.evictions < 2 ^ 60 }
        requires unlinks { self.old.counts.unlinks < 2 ^ 60 }
        ensures left { OnOk result (Left (slice_index self.old.queue 0) self.old self.new (M.state ram.old) (M.state ram.new)) }
        ensures failed { OnErr result (FailedBelow self.old.words (M.state ram.old) (M.state ram.new)) }
        ensures words { self.new.words ≡ self.old.words }
    {
        let block = self.queue.get(0);
        let first = self.firsts[block as usize];
        let size = self.lengths[block as usize];
        let undone = undo(&mut self.chains, block, first, size, ram)?;
        self.queue.pop();
        self.firsts[block as usize] = self.words;
        self.counts.evictions += 1;
        self.counts.unlinks += undone as u64;
        Ok(())
    }

    // The oldest blocks leave, until none has one of some words.
    fn make_room<M: CacheRam>(
        &mut self,
        image: &ImageView<'_>,
        ram: &mut M,
        first: u32,
        size: u32,
    ) -> Result<(), Failed>
        requires sound { RingSound self.old image.now (M.state ram.old).words }
        requires services { self.old.counts.services ≤ 2 ^ 50 }
        requires misses { self.old.counts.misses ≤ self.old.counts.services }
        requires some { 1 ≤ size }
        requires within { first + size ≤ self.old.words }
        ensures room { OnOk result (MadeRoom image.now first size self.old self.new (M.state ram.old) (M.state ram.new)) }
        ensures failed { OnErr result (FailedBelow self.old.words (M.state ram.old) (M.state ram.new)) }
        ensures words { self.new.words ≡ self.old.words }
    {
        let mut at = first;
        while at < first + size {
            if self.is_used(at) {
                self.evict(ram)?;
            } else {
                at += 1;
            }
        }
        Ok(())
    }

    // Where a block of some words is placed.
    fn place_for(&self, size: u32) -> u32
        requires { size ≤ self.now.words }
        ensures value { result ≡ first_in self.now size }
        ensures within { result + size ≤ self.now.words }
    {
        if self.next + size <= self.words {
            self.next
        } else {
            0
        }
    }

    // The block stands from a word on.
    fn settle(&mut self, block: u32, first: u32, size: u32)
        requires misses { self.old.counts.misses < 2 ^ 51 }
        requires copied { self.old.counts.copied < 2 ^ 62 }
        requires block { block < length self.old.firsts }
        requires absent { Has self.old.queue block → ⊥ }
        requires some { 1 ≤ size }
        requires within { first + size ≤ self.old.words }
        ensures { self.new ≡ settled self.old block first size }
    {
        self.queue.push(block);
        self.firsts[block as usize] = first;
        self.lengths[block as usize] = size;
        mark(&mut self.owners, first, size, block);
        self.next = first + size;
        self.counts.misses += 1;
        self.counts.copied += size as u64;
    }

    // Copies a block that stands nowhere: its first word.
    fn fill<M: CacheRam>(
        &mut self,
        image: &ImageView<'_>,
        ram: &mut M,
        block: u32,
    ) -> Result<u32, Failed>
        requires sound { RingSound self.old image.now (M.state ram.old).words }
        requires services { self.old.counts.services ≤ 2 ^ 50 }
        requires misses { self.old.counts.misses ≤ self.old.counts.services }
        requires block { block < length image.now.starts }
        requires absent { Has self.old.queue block → ⊥ }
        ensures filled { OnOk result (Filled image.now self.old block self.new (M.state ram.old) (M.state ram.new)) }
        ensures first { IfOk result (λ f. f ≡ first_in self.old (length_at image.now block)) }
        ensures failed { OnErr result (FailedBelow self.old.words (M.state ram.old) (M.state ram.new)) }
        ensures words { self.new.words ≡ self.old.words }
    {
        let size = image.length(block);
        let first = self.place_for(size);
        self.make_room(image, ram, first, size)?;
        copy(image, ram, block, first, size)?;
        self.settle(block, first, size);
        Ok(first)
    }

    // Serves a transfer to a target in a block: the block's first word.
    fn arrive<M: CacheRam>(
        &mut self,
        image: &ImageView<'_>,
        ram: &mut M,
        target: u32,
        block: u32,
    ) -> Result<u32, Failed>
        requires sound { RingSound self.old image.now (M.state ram.old).words }
        requires services { self.old.counts.services < 2 ^ 50 }
        requires block { block < length image.now.starts }
        ensures arrived { IfOk result (λ f. Arrived image.now self.old block f self.new
            (M.state ram.old) (M.state ram.new)) }
        ensures failed { OnErr result (FailedBelow self.old.words (M.state ram.old) (M.state ram.new)) }
        ensures words { self.new.words ≡ self.old.words }
    {
        self.count_near(target, block);
        match self.find(block) {
            Some(first) => Ok(first),
            None => self.fill(image, ram, block),
        }
    }

    // Makes the exit at an index a jump to an index in a block.
    fn link<M: CacheRam>(&mut self, ram: &mut M, at: u32, block: u32, to: u32) -> Result<(), Failed>
        requires at { at < self.old.words }
        requires to { to < self.old.words }
        requires fits { self.old.words ≤ length (M.state ram.old).words }
        requires reaches { IsTrue (reaches at to) }
        requires small { self.old.words ≤ 2 ^ 21 }
        requires links { self.old.counts.links < 2 ^ 60 }
        requires block { block < length self.old.firsts }
        requires free { length self.old.firsts ≤ target_at self.old at }
        ensures linked { OnOk result (Linked self.old self.new at block to
            (M.state ram.old) (M.state ram.new)) }
        ensures failed { OnErr result (FailedBelow self.old.words (M.state ram.old) (M.state ram.new)) }
        ensures words { self.new.words ≡ self.old.words }
    {
        ram.set(at, jump(at, to))?;
        self.chains.link(at, block);
        self.counts.links += 1;
        Ok(())
    }

    // Makes the exit at an index a link, where its block still stands and a JAL reaches.
    fn link_exit<M: CacheRam>(
        &mut self,
        ram: &mut M,
        at: u32,
        home: u32,
        block: u32,
        to: u32,
    ) -> Result<(), Failed>
        requires at { at < self.old.words }
        requires to { to < self.old.words }
        requires fits { self.old.words ≤ length (M.state ram.old).words }
        requires small { self.old.words ≤ 2 ^ 21 }
        requires links { self.old.counts.links < 2 ^ 60 }
        requires home { home < length self.old.firsts }
        requires block { block < length self.old.firsts }
        requires free { slice_index self.old.firsts home < self.old.words → length self.old.firsts ≤ target_at self.old at }
        ensures linked { OnOk result (MaybeLinked self.old self.new (can_link self.old at home to) at block to
            (M.state ram.old) (M.state ram.new)) }
        ensures failed { OnErr result (FailedBelow self.old.words (M.state ram.old) (M.state ram.new)) }
        ensures words { self.new.words ≡ self.old.words }
    {
        if self.firsts[home as usize] >= self.words {
            return Ok(());
        }
        if !reach(at, to) {
            return Ok(());
        }
        self.link(ram, at, block, to)
    }
}

/// The lists of a ring. A word's index stands in a block's list exactly where a link to the block stands.
pub fn chains(rom: &RingRom) -> &Chains
    ensures lists { length result.now.lists ≡ length rom.now.firsts }
    ensures links { (v : ImageData) (words : List ℕ) → RingSound rom.now v words → (b i : ℕ) →
        Has (list_of result.now b) i ↔ LinkTo v (kept_by rom.now) b i }
{
    let chains = &rom.chains;
    let _ = chains.slots();
    chains
}

impl CacheRom for RingRom {
    ghost use Rattle.swi_ring.specs.Service.{ring_service};

    ghost service = { ring_service };

    fn enter<M: CacheRam>(
        &mut self,
        image: &ImageView<'_>,
        ram: &mut M,
        target: u32,
    ) -> Result<u32, RomStop> {
        let Some((block, offset)) = image.place_near(target, self.hints.near(target)) else {
            return Err(RomStop::Outside);
        };
        let Ok(first) = self.arrive(image, ram, target, block) else {
            return Err(RomStop::RamFault);
        };
        Ok(first + offset)
    }

    fn revisit<M: CacheRam>(
        &mut self,
        image: &ImageView<'_>,
        _ram: &M,
        target: u32,
    ) -> Option<u32> {
        let (block, offset) = image.place_near(target, self.hints.near(target))?;
        let first = self.find(block)?;
        self.count_near(target, block);
        Some(first + offset)
    }

    #[inline(always)]
    fn visit<M: CacheRam>(&mut self, _image: &ImageView<'_>, _ram: &M, _target: u32, _index: u32) {
        self.count();
    }

    fn cross<M: CacheRam>(
        &mut self,
        image: &ImageView<'_>,
        ram: &mut M,
        at: u32,
        target: u32,
    ) -> Result<u32, RomStop> {
        let Some((block, offset)) = image.place_near(target, self.hints.near(target)) else {
            return Err(RomStop::Outside);
        };
        let home = self.owners[at as usize];
        let Ok(first) = self.arrive(image, ram, target, block) else {
            return Err(RomStop::RamFault);
        };
        let index = first + offset;
        let Ok(()) = self.link_exit(ram, at, home, block, index) else {
            return Err(RomStop::RamFault);
        };
        Ok(index)
    }

    fn span(&self) -> u32 {
        self.words
    }

    fn at(&self, i: u32) -> Option<(u32, u32)> {
        if i >= self.words {
            return None;
        }
        if !self.is_used(i) {
            return None;
        }
        let block = self.owners[i as usize];
        Some((block, i - self.firsts[block as usize]))
    }

    fn resident(&self, k: u32) -> Option<(u32, u32)> {
        if k >= self.queue.len() {
            return None;
        }
        let block = self.queue.get(k);
        Some((block, self.firsts[block as usize]))
    }

    fn counts(&self) -> Counts {
        self.counts
    }

    ghost use Rattle.swi_ring.specs.Laws.{ring_laws};

    ghost laws = { ring_laws };
}
