//! A service with slots beside which an engine copies.
#![tactic(auto)]

ghost use Rattle.std.specs.Prelude.{◌≡◌, ◌+◌, ◌-◌, ◌*◌, ◌/◌, ◌^◌, ◌<◌, ◌≤◌, not, ℕ, List, [], length, slice_index, replicate, IfOk, OnOk, OnErr, IsTrue, MatchOption};
ghost use Rattle.std.specs.VecDeque.{deque_capacity};
ghost use Rattle.std.specs.List.{position_from};
ghost use Rattle.swi_image.specs.Format.{ImageData};
ghost use Rattle.swi_image.specs.Place.{length_at, word_at};
ghost use Rattle.swi_image.specs.Sound.{IsImage};
ghost use Rattle.swi_rom.specs.Record.{Has, ebreak, IsJump, Placed, reaches};
ghost use Rattle.swi_rom.specs.Writing.{FailedBelow};
ghost use Rattle.swi_engine.specs.declared.joints.Joint.{Joint};
ghost use Rattle.swi_engine.specs.Engine.{empty_beside, engine_words, engine_copies, span_of};
ghost use Rattle.swi_engine.specs.State.{EngineData, empty_data, kept_by, setting_of};
ghost use Rattle.swi_engine.specs.Sound.{Apart, Distinct, EngineSound, NoJoint, Standing};
ghost use Rattle.swi_engine.specs.Worked.{Worked};
ghost use Rattle.swi_engine.specs.Cleared.{Clearing, MadeRoom, OwnsLinks};
ghost use Rattle.swi_engine.specs.Arrived.{Ready, Filled, Arrived, MaybeLinked};
ghost use Rattle.swi_engine.specs.Joints.{LinkAt, NoneInto};
ghost use Rattle.swi_engine.specs.Moves.{OneSet, is_block_in, IsAbsent, counted_data, undone_data, left_data, placed_data, wrote_data, linked_data, can_link};

use crate::copying::{Copying, copies_to, copy_rest, used};
use crate::joints::{Joint, Joints};
use std::alloc::Global;
use std::collections::VecDeque;
use std::marker::Model;
use swi_image::{Hints, ImageView};
use swi_isa::EBREAK;
use swi_outside::{CacheRam, Failed, Memory};
use swi_rom::{CacheRom, Counts, RomStop, jump, reach};

/// A cache of slots of one size, each of which holds a block. While a slot is free the lowest is filled, and then
/// the oldest block makes room. An engine copies the block behind control's beside it, word by word. After `new` no
/// call takes memory. `revisit` and `at` take constant time but for the search of the place. `enter`, `cross`
/// and `work` take time linear in the words that they write and in those of a block that leaves.
#[derive(Drop)]
pub struct EngineRom {
    slots: u32,
    size: u32,
    // The slots in which a block stands, the oldest first. With a copy that has begun they are the lowest slots. Only the
    // first or the second leaves, so at most one other moves.
    queue: VecDeque<u32>,
    // Of each slot its block and that block's length.
    blocks: Vec<u32>,
    lengths: Vec<u32>,
    // Of each block its slot; where it isn't placed, the number of slots.
    homes: Vec<u32>,
    // The links, and of each word the address to which it leads, if it is one.
    joints: Joints,
    copy: Option<Copying>,
    counts: Counts,
    // The words that the engine wrote to copy, and the copies that it completed.
    words: u64,
    copies: u64,
    // Where targets were found.
    hints: Hints,
}

impl Model for EngineRom {
    ghost use Rattle.std.specs.Prelude.{◌≡◌, ◌*◌, ◌≤◌, length};
    ghost use Rattle.std.specs.VecDeque.{deque_capacity};
    ghost use Rattle.swi_engine.specs.State.{EngineData};
    ghost use Rattle.swi_engine.specs.Sound.{InShape};

    ghost Value = { EngineData };

    ghost view = { λ s. record {
      slots = s.slots;
      size = s.size;
      queue = s.queue.items;
      blocks = s.blocks.items;
      lengths = s.lengths.items;
      homes = s.homes.items;
      joints = s.joints.joints;
      copy = s.copy;
      counts = s.counts;
      words = s.words;
      copies = s.copies;
    } };

    ghost invariant = { λ s. InShape (record {
      slots = s.slots;
      size = s.size;
      queue = s.queue.items;
      blocks = s.blocks.items;
      lengths = s.lengths.items;
      homes = s.homes.items;
      joints = s.joints.joints;
      copy = s.copy;
      counts = s.counts;
      words = s.words;
      copies = s.copies;
    }) × (s.slots ≤ deque_capacity s.queue) × (s.joints.words ≡ s.slots * s.size) × (s.joints.blocks ≡ length s.homes.items) };
}

// So many times a number.
fn all_of(alloc: Global, number: u32, count: u32) -> Result<Vec<u32>, Memory>
    ensures { IfOk result (λ xs. xs.items ≡ replicate count number) }
{
    vec![in alloc; number; count as usize].map_err(|_| Memory)
}

// Room for so many numbers.
fn room_for(alloc: Global, count: u32) -> Result<VecDeque<u32>, Memory>
    ensures empty { IfOk result (λ xs. xs.items ≡ []) }
    ensures room { IfOk result (λ xs. count ≤ deque_capacity xs) }
{
    VecDeque::with_capacity(alloc, count as usize).map_err(|_| Memory)
}

// The place in the queue of the oldest block other than one.
fn oldest_but(queue: &VecDeque<u32>, blocks: &[u32], block: u32) -> Option<usize>
    requires below { (k : ℕ) → k < length queue.now.items → slice_index queue.now.items k < length blocks.now }
    ensures { result ≡ position_from (λ n. not (is_block_in blocks.now block n)) 0 queue.now.items }
{
    for k in 0..queue.len() {
        if blocks[queue[k] as usize] != block {
            return Some(k);
        }
    }
    None
}

impl EngineRom {
    /// An empty cache of up to `cache_bytes` bytes, in as many slots of `block_words` words, 2 to 1024, as they hold. It
    /// serves one program: every image of at most `blocks` blocks, 1 to 2^19, with at most `block_words` words each, over
    /// every ram that holds the slots. The cache holds a block of that length, and has at most 2^23 bytes. The only error
    /// is want of memory.
    pub fn new(
        alloc: Global,
        cache_bytes: u32,
        blocks: u32,
        block_words: u32,
    ) -> Result<EngineRom, Memory>
        requires some { 1 ≤ blocks }
        requires few { blocks ≤ 2 ^ 19 }
        requires least { 2 ≤ block_words }
        requires most { block_words ≤ 1024 }
        requires bytes { 4 * block_words ≤ cache_bytes }
        requires limit { cache_bytes ≤ 2 ^ 23 }
        ensures empty { IfOk result (λ e. e ≡ empty_data (cache_bytes / 4 / block_words) block_words blocks) }
        ensures kept { IfOk result (λ e. kept_by e ≡ empty_beside) }
        ensures sound { IfOk result (λ e. (v : ImageData) (words : List ℕ) → IsImage v → length v.blocks ≤ blocks →
            v.block_words ≤ block_words → cache_bytes / 4 / block_words * block_words ≤ length words →
            EngineSound e v words) }
    {
        let slots = cache_bytes / 4 / block_words;
        let words = slots * block_words;
        let queue = room_for(alloc, slots)?;
        let of_slots = all_of(alloc, 0, slots)?;
        let lengths = all_of(alloc, 0, slots)?;
        let homes = all_of(alloc, slots, blocks)?;
        let joints = Joints::new(alloc, words, blocks)?;
        let hints = Hints::new(alloc)?;
        Ok(EngineRom {
            slots,
            size: block_words,
            queue,
            blocks: of_slots,
            lengths,
            homes,
            joints,
            copy: None,
            counts: Counts::NONE,
            words: 0,
            copies: 0,
            hints,
        })
    }

    /// The words that the engine wrote to copy, and the copies that it completed. Words that services copied are none of
    /// them: `counts` has those.
    pub fn copied(&self) -> (u64, u64)
        ensures words { result.0 ≡ engine_words (kept_by self.now) }
        ensures copies { result.1 ≡ engine_copies (kept_by self.now) }
    {
        (self.words, self.copies)
    }

    // The slot of a block, where it is placed.
    fn find(&self, block: u32) -> Option<u32>
        requires { block < length self.now.homes }
        ensures { MatchOption result (IsAbsent self.now block)
            (λ n. Has self.now.queue n × (slice_index self.now.blocks n ≡ block)) }
    {
        let slot = self.homes[block as usize];
        if slot < self.slots { Some(slot) } else { None }
    }

    // Counts a service, but for the boot.
    fn count(&mut self)
        requires { self.old.counts.services < 2 ^ 50 }
        ensures { self.new ≡ counted_data self.old }
    {
        if !self.queue.is_empty() {
            self.counts.services += 1;
        }
    }

    // Counts a service of a target in this block, where it is looked for first from now on.
    fn count_near(&mut self, target: u32, block: u32)
        requires { self.old.counts.services < 2 ^ 50 }
        ensures { self.new ≡ counted_data self.old }
    {
        self.count();
        self.hints.keep(target, block);
    }

    // Makes the link at a word an exit again.
    fn undo<M: CacheRam>(&mut self, ram: &mut M, at: u32) -> Result<(), Failed>
        requires at { at < self.old.slots * self.old.size }
        requires apart { Apart self.old.joints }
        requires fits { self.old.slots * self.old.size ≤ length (M.state ram.old).words }
        requires few { self.old.counts.unlinks < 2 ^ 60 }
        ensures data { OnOk result ((k : ℕ) → LinkAt self.old.joints k at → self.new ≡ undone_data self.old k) }
        ensures set { OnOk result (OneSet at ebreak (M.state ram.old) (M.state ram.new)) }
        ensures failed { OnErr result (FailedBelow (self.old.slots * self.old.size)
            (M.state ram.old) (M.state ram.new)) }
        ensures same { OnErr result (self.new ≡ self.old) }
    {
        ram.set(at, EBREAK)?;
        self.joints.unlink(at);
        self.counts.unlinks += 1;
        Ok(())
    }

    // The block at a place of the queue leaves its slot, with the links from it.
    fn leave(&mut self, k: usize) -> u32
        requires k { k < length self.old.queue }
        requires once { Distinct self.old.queue }
        requires owned { OwnsLinks self.old k }
        requires few { self.old.counts.evictions < 2 ^ 62 }
        ensures slot { result ≡ slice_index self.old.queue k }
        ensures data { self.new ≡ left_data self.old k }
    {
        let Some(slot) = self.queue.remove(k) else {
            unreachable!()
        };
        let block = self.blocks[slot as usize];
        self.homes[block as usize] = self.slots;
        let first = slot * self.size;
        let length = self.lengths[slot as usize];
        self.joints.unlink_all(first, length);
        self.counts.evictions += 1;
        slot
    }

    // Makes the links into a block from others exits again.
    fn clear<M: CacheRam>(
        &mut self,
        _image: &ImageView<'_>,
        ram: &mut M,
        block: u32,
    ) -> Result<(), Failed>
        requires stands { Standing self.old _image.now (M.state ram.old).words }
        requires block { block < length self.old.homes }
        requires few { self.old.counts.unlinks + length self.old.joints < 2 ^ 60 }
        ensures cleared { OnOk result (Clearing _image.now block self.old self.new (M.state ram.old) (M.state ram.new)) }
        ensures all { OnOk result (NoneInto self.new.joints block) }
        ensures failed { OnErr result (FailedBelow (self.old.slots * self.old.size)
            (M.state ram.old) (M.state ram.new)) }
        ensures setting { setting_of self.new ≡ setting_of self.old }
    {
        while let Some(at) = self.joints.newest_into(block) {
            self.undo(ram, at)?;
        }
        Ok(())
    }

    // The oldest block makes room: its slot.
    fn make_room<M: CacheRam>(&mut self, image: &ImageView<'_>, ram: &mut M) -> Result<u32, Failed>
        requires stands { Standing self.old image.now (M.state ram.old).words }
        requires some { 0 < length self.old.queue }
        requires evictions { self.old.counts.evictions < 2 ^ 62 }
        requires unlinks { self.old.counts.unlinks + length self.old.joints < 2 ^ 60 }
        ensures room { IfOk result (λ n. MadeRoom image.now n self.old self.new (M.state ram.old) (M.state ram.new)) }
        ensures failed { OnErr result (FailedBelow (self.old.slots * self.old.size)
            (M.state ram.old) (M.state ram.new)) }
        ensures setting { setting_of self.new ≡ setting_of self.old }
    {
        let block = self.blocks[self.queue[0] as usize];
        self.clear(image, ram, block)?;
        Ok(self.leave(0))
    }

    // A block whose words stand in a slot is placed.
    fn place(&mut self, block: u32, slot: u32, size: u32)
        requires slot { slot < self.old.slots }
        requires free { Has self.old.queue slot → ⊥ }
        requires room { length self.old.queue < self.old.slots }
        requires block { block < length self.old.homes }
        requires absent { IsAbsent self.old block }
        ensures { self.new ≡ placed_data self.old block slot size }
    {
        let Ok(()) = self.queue.push_back(slot) else {
            unreachable!()
        };
        self.blocks[slot as usize] = block;
        self.lengths[slot as usize] = size;
        self.homes[block as usize] = slot;
        self.copy = None;
    }

    // The copy that is to be completed where a block that is missing arrives: the engine's, or one that hasn't begun.
    fn copy_for<M: CacheRam>(
        &mut self,
        image: &ImageView<'_>,
        ram: &mut M,
        block: u32,
    ) -> Result<Copying, Failed>
        requires sound { EngineSound self.old image.now (M.state ram.old).words }
        requires block { block < length image.now.starts }
        requires absent { IsAbsent self.old block }
        ensures ready { IfOk result (λ c. Ready image.now block c self.old self.new (M.state ram.old) (M.state ram.new)) }
        ensures failed { OnErr result (FailedBelow (self.old.slots * self.old.size)
            (M.state ram.old) (M.state ram.new)) }
        ensures setting { setting_of self.new ≡ setting_of self.old }
    {
        if let Some(copy) = self.copy {
            if copy.block == block {
                return Ok(copy);
            }
            return Ok(Copying {
                block,
                slot: copy.slot,
                done: 0,
            });
        }
        if self.queue.len() < self.slots as usize {
            let slot = self.queue.len() as u32;
            return Ok(Copying {
                block,
                slot,
                done: 0,
            });
        }
        let slot = self.make_room(image, ram)?;
        Ok(Copying {
            block,
            slot,
            done: 0,
        })
    }

    // Copies a block that stands nowhere: its slot.
    fn fill<M: CacheRam>(
        &mut self,
        image: &ImageView<'_>,
        ram: &mut M,
        block: u32,
    ) -> Result<u32, Failed>
        requires sound { EngineSound self.old image.now (M.state ram.old).words }
        requires misses { self.old.counts.misses ≤ self.old.counts.services }
        requires block { block < length image.now.starts }
        requires absent { IsAbsent self.old block }
        ensures filled { IfOk result (λ n. Filled image.now block n self.old self.new (M.state ram.old) (M.state ram.new)) }
        ensures failed { OnErr result (FailedBelow (self.old.slots * self.old.size)
            (M.state ram.old) (M.state ram.new)) }
        ensures setting { setting_of self.new ≡ setting_of self.old }
    {
        let copy = self.copy_for(image, ram, block)?;
        let length = image.length(block);
        copy_rest(image, ram, block, copy.slot * self.size, copy.done, length)?;
        self.place(block, copy.slot, length);
        self.counts.misses += 1;
        self.counts.copied += (length - copy.done) as u64;
        Ok(copy.slot)
    }

    // Serves a transfer to a target in a block: the block's slot.
    fn arrive<M: CacheRam>(
        &mut self,
        image: &ImageView<'_>,
        ram: &mut M,
        target: u32,
        block: u32,
    ) -> Result<u32, Failed>
        requires sound { EngineSound self.old image.now (M.state ram.old).words }
        requires services { self.old.counts.services < 2 ^ 50 }
        requires block { block < length image.now.starts }
        ensures arrived { IfOk result (λ n. Arrived image.now block n self.old self.new (M.state ram.old) (M.state ram.new)) }
        ensures failed { OnErr result (FailedBelow (self.old.slots * self.old.size)
            (M.state ram.old) (M.state ram.new)) }
        ensures setting { setting_of self.new ≡ setting_of self.old }
    {
        self.count_near(target, block);
        match self.find(block) {
            Some(slot) => Ok(slot),
            None => self.fill(image, ram, block),
        }
    }

    // Makes an exit a link to a word.
    fn link<M: CacheRam>(&mut self, ram: &mut M, joint: Joint, to: u32) -> Result<(), Failed>
        requires at { joint.at < self.old.slots * self.old.size }
        requires to { to < self.old.slots * self.old.size }
        requires small { self.old.slots * self.old.size ≤ 2 ^ 21 }
        requires fits { self.old.slots * self.old.size ≤ length (M.state ram.old).words }
        requires reaches { IsTrue (reaches joint.at to) }
        requires links { self.old.counts.links < 2 ^ 60 }
        requires into { joint.into < length self.old.homes }
        requires free { NoJoint self.old joint.at }
        ensures linked { OnOk result (self.new ≡ linked_data self.old joint) }
        ensures set { OnOk result ((w : ℕ) × IsJump joint.at to w
            × OneSet joint.at w (M.state ram.old) (M.state ram.new)) }
        ensures failed { OnErr result (FailedBelow (self.old.slots * self.old.size)
            (M.state ram.old) (M.state ram.new)) }
        ensures setting { setting_of self.new ≡ setting_of self.old }
    {
        ram.set(joint.at, jump(joint.at, to))?;
        self.joints.link(joint);
        self.counts.links += 1;
        Ok(())
    }

    // Makes an exit a link, where its block still stands and a JAL reaches.
    fn link_exit<M: CacheRam>(&mut self, ram: &mut M, joint: Joint, to: u32) -> Result<(), Failed>
        requires block { joint.block < length self.old.homes }
        requires at { joint.at < self.old.slots * self.old.size }
        requires to { to < self.old.slots * self.old.size }
        requires small { self.old.slots * self.old.size ≤ 2 ^ 21 }
        requires fits { self.old.slots * self.old.size ≤ length (M.state ram.old).words }
        requires links { self.old.counts.links < 2 ^ 60 }
        requires into { joint.into < length self.old.homes }
        requires free { NoJoint self.old joint.at }
        ensures linked { OnOk result (MaybeLinked self.old self.new (can_link self.old joint to) joint to
            (M.state ram.old) (M.state ram.new)) }
        ensures failed { OnErr result (FailedBelow (self.old.slots * self.old.size)
            (M.state ram.old) (M.state ram.new)) }
        ensures setting { setting_of self.new ≡ setting_of self.old }
    {
        if self.homes[joint.block as usize] >= self.slots {
            return Ok(());
        }
        if !reach(joint.at, to) {
            return Ok(());
        }
        self.link(ram, joint, to)
    }

    // The copy's next word is written; behind the last one the block is placed.
    fn write_next<M: CacheRam>(
        &mut self,
        image: &ImageView<'_>,
        ram: &mut M,
        copy: Copying,
    ) -> Result<(), Failed>
        requires block { copy.block < length image.now.starts }
        requires known { copy.block < length self.old.homes }
        requires absent { IsAbsent self.old copy.block }
        requires done { copy.done < length_at image.now copy.block }
        requires inside { copy.done < self.old.size }
        requires slot { copy.slot < self.old.slots }
        requires free { Has self.old.queue copy.slot → ⊥ }
        requires room { length self.old.queue < self.old.slots }
        requires fits { self.old.slots * self.old.size ≤ length (M.state ram.old).words }
        requires few { self.old.words < 2 ^ 60 }
        requires copies { self.old.copies ≤ self.old.words }
        ensures data { OnOk result (self.new ≡ wrote_data self.old copy (length_at image.now copy.block)) }
        ensures set { OnOk result (OneSet (copy.slot * self.old.size + copy.done)
            (word_at image.now copy.block copy.done) (M.state ram.old) (M.state ram.new)) }
        ensures failed { OnErr result (FailedBelow (self.old.slots * self.old.size)
            (M.state ram.old) (M.state ram.new)) }
    {
        ram.set(
            copy.slot * self.size + copy.done,
            image.word(copy.block, copy.done),
        )?;
        self.words += 1;
        let length = image.length(copy.block);
        if copy.done + 1 == length {
            self.place(copy.block, copy.slot, length);
            self.copies += 1;
        } else {
            self.copy = Some(Copying {
                done: copy.done + 1,
                ..copy
            });
        }
        Ok(())
    }

    /// One event of the engine, with control in block `here`, which is placed: the answer is whether it wrote a word.
    /// That is a word of the copy that has begun, of one that begins, or an exit that was a link. Control's block stays
    /// where it stands.
    ///
    /// The service is sound for the image and the ram, and the engine has written fewer than 2^60 words to copy.
    /// `Failed` comes only where the ram's count of faults rose; only the words outside the slots are known then, and no
    /// further call is allowed.
    pub fn work<M: CacheRam>(
        &mut self,
        image: &ImageView<'_>,
        ram: &mut M,
        here: u32,
    ) -> Result<bool, Failed>
        requires sound { EngineSound self.old image.now (M.state ram.old).words }
        requires here { (f : ℕ) × Placed (kept_by self.old) here f }
        requires few { engine_words (kept_by self.old) < 2 ^ 60 }
        ensures worked { IfOk result (λ wrote. Worked image.now here self.old self.new wrote
            (M.state ram.old) (M.state ram.new)) }
        ensures failed { OnErr result (FailedBelow (span_of (setting_of self.old)) (M.state ram.old) (M.state ram.new)) }
    {
        if let Some(copy) = self.copy {
            self.write_next(image, ram, copy)?;
            return Ok(true);
        }
        let block = here + 1;
        if block >= image.blocks() {
            return Ok(false);
        }
        if let Some(_) = self.find(block) {
            return Ok(false);
        }
        if self.queue.len() < self.slots as usize {
            let first = Copying {
                block,
                slot: self.queue.len() as u32,
                done: 0,
            };
            self.write_next(image, ram, first)?;
            return Ok(true);
        }
        let Some(k) = oldest_but(&self.queue, &self.blocks, here) else {
            return Ok(false);
        };
        let victim = self.blocks[self.queue[k] as usize];
        if let Some(at) = self.joints.newest_into(victim) {
            self.undo(ram, at)?;
            return Ok(true);
        }
        let slot = self.leave(k);
        let first = Copying {
            block,
            slot,
            done: 0,
        };
        self.write_next(image, ram, first)?;
        Ok(true)
    }
}

impl CacheRom for EngineRom {
    ghost use Rattle.swi_engine.specs.Service.{engine_service};

    ghost service = { engine_service };

    fn enter<M: CacheRam>(
        &mut self,
        image: &ImageView<'_>,
        ram: &mut M,
        target: u32,
    ) -> Result<u32, RomStop> {
        let Some((block, offset)) = image.place_near(target, self.hints.near(target)) else {
            return Err(RomStop::Outside);
        };
        let Ok(slot) = self.arrive(image, ram, target, block) else {
            return Err(RomStop::RamFault);
        };
        Ok(slot * self.size + offset)
    }

    fn revisit<M: CacheRam>(
        &mut self,
        image: &ImageView<'_>,
        _ram: &M,
        target: u32,
    ) -> Option<u32> {
        let (block, offset) = image.place_near(target, self.hints.near(target))?;
        let slot = self.find(block)?;
        self.count_near(target, block);
        Some(slot * self.size + offset)
    }

    #[inline(always)]
    fn visit<M: CacheRam>(&mut self, _image: &ImageView<'_>, _ram: &M, _target: u32, _index: u32) {
        self.count();
    }

    fn cross<M: CacheRam>(
        &mut self,
        image: &ImageView<'_>,
        ram: &mut M,
        at: u32,
        target: u32,
    ) -> Result<u32, RomStop> {
        let Some((block, offset)) = image.place_near(target, self.hints.near(target)) else {
            return Err(RomStop::Outside);
        };
        let joint = Joint {
            block: self.blocks[(at / self.size) as usize],
            offset: at % self.size,
            at,
            into: block,
        };
        let Ok(slot) = self.arrive(image, ram, target, block) else {
            return Err(RomStop::RamFault);
        };
        let index = slot * self.size + offset;
        let Ok(()) = self.link_exit(ram, joint, index) else {
            return Err(RomStop::RamFault);
        };
        Ok(index)
    }

    fn span(&self) -> u32 {
        self.slots * self.size
    }

    fn at(&self, i: u32) -> Option<(u32, u32)> {
        let slot = i / self.size;
        let offset = i % self.size;
        if slot >= used(&self.queue, &self.copy) {
            return None;
        }
        if copies_to(&self.copy, slot) {
            return None;
        }
        if offset >= self.lengths[slot as usize] {
            return None;
        }
        Some((self.blocks[slot as usize], offset))
    }

    fn resident(&self, k: u32) -> Option<(u32, u32)> {
        if k as usize >= self.queue.len() {
            return None;
        }
        let slot = self.queue[k as usize];
        Some((self.blocks[slot as usize], slot * self.size))
    }

    fn counts(&self) -> Counts {
        self.counts
    }

    ghost use Rattle.swi_engine.specs.Laws.{engine_laws};

    ghost laws = { engine_laws };
}
