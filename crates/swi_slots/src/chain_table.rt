//! A table of links over lists for each slot.
#![tactic(auto)]

ghost use Rattle.std.specs.Prelude.{◌≡◌, ◌*◌, ◌<◌, ◌↔◌, ℕ, List, length, replicate, nat_lt, slice_index, slice_set, IfOk, if◌then◌else◌};
ghost use Rattle.swi_image.specs.Format.{ImageData};
ghost use Rattle.swi_slots.specs.Slots.{kept_by};
ghost use Rattle.swi_slots.specs.Sound.{SlotsSound};
ghost use Rattle.swi_links.specs.Chains.{list_of, Has};
ghost use Rattle.swi_slots.specs.Chained.{LinkInto};
ghost use Rattle.swi_slots.specs.Homes.{nowhere};

use crate::slots::SlotRom;
use crate::table::LinkTable;
use std::alloc::Global;
use std::marker::Model;
use swi_links::{Chains, undo};
use swi_outside::{CacheRam, Failed, Memory};

/// The service that keeps a list of links for each slot, and a slot for each block. An eviction takes the links
/// into the block from its slot's list, and no call but `new` takes memory.
pub type FifoRom = SlotRom<ChainTable>;

// The slot of a block that has none.
const NOWHERE: u32 = u32::MAX;

/// Of each slot the links into it, and of each block its slot.
#[derive(Drop)]
pub struct ChainTable {
    size: u32,
    homes: Vec<u32>,
    chains: Chains,
}

impl Model for ChainTable {
    ghost use Rattle.swi_slots.specs.Homes.{TableData};

    ghost Value = { TableData };

    ghost view = { λ t. record { size = t.size; homes = t.homes.items; chains = t.chains } };
}

// No block has a slot.
fn no_homes(alloc: Global, blocks: u32) -> Result<Vec<u32>, Memory>
    ensures { IfOk result (λ h. h.items ≡ replicate blocks nowhere) }
{
    vec![in alloc; NOWHERE; blocks as usize].map_err(|_| Memory)
}

// The block of a filled slot has no slot from now on.
fn forget(homes: &mut Vec<u32>, blocks: &[u32], filled: u32, slot: u32)
    requires slot { slot < length blocks.now }
    requires known { slot < filled → slice_index blocks.now slot < length homes.old.items }
    ensures { homes.new.items ≡ (if nat_lt slot filled
        then slice_set homes.old.items (slice_index blocks.now slot) nowhere else homes.old.items) }
{
    if slot < filled {
        homes[blocks[slot as usize] as usize] = NOWHERE;
    }
}

impl LinkTable for ChainTable {
    ghost use Rattle.std.specs.Prelude.{length};
    ghost use Rattle.swi_slots.specs.Targets.{targets_of};
    ghost use Rattle.swi_slots.specs.Homes.{KnowsHomes};

    ghost slot_count = { λ t. length t.chains.lists };

    ghost slot_size = { λ t. t.size };

    ghost block_count = { λ t. length t.homes };

    ghost targets = { λ t. targets_of t.chains };

    ghost knows = { λ t filled blocks. KnowsHomes t.homes filled blocks };

    fn new(alloc: Global, slots: u32, size: u32, blocks: u32) -> Result<ChainTable, Memory> {
        let homes = no_homes(alloc, blocks)?;
        let chains = Chains::new(alloc, slots, slots * size)?;
        Ok(ChainTable {
            size,
            homes,
            chains,
        })
    }

    fn find(&self, blocks: &[u32], filled: u32, block: u32) -> Option<u32> {
        let slot = self.homes[block as usize];
        if slot < filled { Some(slot) } else { None }
    }

    fn clear<M: CacheRam>(&mut self, slot: u32, words: u32, ram: &mut M) -> Result<u32, Failed> {
        let size = words.min(self.size);
        undo(&mut self.chains, slot, slot * self.size, size, ram)
    }

    fn settle(&mut self, blocks: &[u32], filled: u32, slot: u32, block: u32) {
        forget(&mut self.homes, blocks, filled, slot);
        self.homes[block as usize] = slot;
    }

    fn link(&mut self, at: u32, slot: u32) {
        self.chains.link(at, slot);
    }
}

/// The lists of a service. A word's index stands in a slot's list exactly where a link stands there that leads to the
/// block of the slot.
pub fn chains(rom: &FifoRom) -> &Chains
    ensures slots { length result.now.lists ≡ rom.now.slots }
    ensures links { (v : ImageData) (words : List ℕ) → SlotsSound rom.now v words → (n i : ℕ) →
        Has (list_of result.now n) i ↔ LinkInto (kept_by rom.now) (n * rom.now.size) i }
{
    let chains = &rom.table().chains;
    let _ = chains.slots();
    chains
}
