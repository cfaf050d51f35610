//! A table of links that looks through all words.
#![tactic(auto)]

ghost use Rattle.std.specs.Prelude.{◌≡◌, ◌+◌, ◌*◌, ◌^◌, ◌<◌, ◌≤◌, length, IfOk, OnErr};
ghost use Rattle.swi_rom.specs.Writing.{FailedBelow};
ghost use Rattle.swi_slots.specs.Steps.{Cleared, leading_in};

use crate::slots::SlotRom;
use crate::table::LinkTable;
use std::alloc::Global;
use std::marker::Model;
use swi_isa::EBREAK;
use swi_outside::{CacheRam, Failed, Memory};

/// A service that finds the links into a slot by looking through all words, and a block's slot by looking
/// through the slots.
pub type ScanRom = SlotRom<ScanTable>;

/// Of each word of the slots the slot to which it is linked.
#[derive(Drop)]
pub struct ScanTable {
    slots: u32,
    size: u32,
    blocks: u32,
    targets: Vec<u32>,
}

impl Model for ScanTable {
    ghost use Rattle.swi_slots.specs.Table.{Targets};

    ghost Value = { Targets };

    ghost view = { λ t. record { slots = t.slots; size = t.size; blocks = t.blocks; of = t.targets.items } };
}

// Drops every link from a slot and to it. Those to it from other slots are undone in the ram; their number
// is the answer.
fn drop_links<M: CacheRam>(
    targets: &mut [u32],
    slots: u32,
    size: u32,
    slot: u32,
    ram: &mut M,
) -> Result<u32, Failed>
    requires slots { slots * size < 2 ^ 32 }
    requires size { 0 < size }
    requires targets { length targets.old ≡ slots * size }
    requires fits { slots * size ≤ length (M.state ram.old).words }
    ensures cleared { IfOk result (λ n. Cleared slots size slot (slots * size) targets.old targets.new
        (M.state ram.old) (M.state ram.new)) }
    ensures number { IfOk result (λ n. n ≡ leading_in size slot targets.old (slots * size)) }
    ensures length { length targets.new ≡ length targets.old }
    ensures failed { OnErr result (FailedBelow (slots * size) (M.state ram.old) (M.state ram.new)) }
{
    let mut undone = 0;
    for i in 0..slots * size {
        if i / size == slot {
            targets[i as usize] = slots;
        } else if targets[i as usize] == slot {
            ram.set(i, EBREAK)?;
            undone += 1;
            targets[i as usize] = slots;
        }
    }
    Ok(undone)
}

impl LinkTable for ScanTable {
    ghost use Rattle.std.specs.Prelude.{⊤};

    ghost slot_count = { λ t. t.slots };

    ghost slot_size = { λ t. t.size };

    ghost block_count = { λ t. t.blocks };

    ghost targets = { λ t. t.of };

    ghost knows = { λ t filled blocks. ⊤ };

    fn new(alloc: Global, slots: u32, size: u32, blocks: u32) -> Result<ScanTable, Memory> {
        let targets = vec![in alloc; slots; (slots * size) as usize].map_err(|_| Memory)?;
        Ok(ScanTable {
            slots,
            size,
            blocks,
            targets,
        })
    }

    fn find(&self, blocks: &[u32], filled: u32, block: u32) -> Option<u32> {
        for n in 0..filled {
            if blocks[n as usize] == block {
                return Some(n);
            }
        }
        None
    }

    fn clear<M: CacheRam>(&mut self, slot: u32, words: u32, ram: &mut M) -> Result<u32, Failed> {
        drop_links(&mut self.targets, self.slots, self.size, slot, ram)
    }

    fn settle(&mut self, blocks: &[u32], filled: u32, slot: u32, block: u32) {}

    fn link(&mut self, at: u32, slot: u32) {
        self.targets[at as usize] = slot;
    }
}
