//! Which words of the slots are links, and which slot has which block.
#![tactic(auto)]

ghost use Rattle.std.specs.Prelude.{◌≡◌, ◌+◌, ◌*◌, ◌^◌, ◌<◌, ◌≤◌, ℕ, List, length, max, replicate, slice_index, slice_set, IfOk, OnErr, MatchOption};
ghost use Rattle.swi_slots.specs.Table.{NotAmong};
ghost use Rattle.swi_rom.specs.Writing.{FailedBelow};
ghost use Rattle.swi_slots.specs.Steps.{Cleared, leading_in};

use std::alloc::Global;
use swi_outside::{CacheRam, Failed, Memory};

/// The part of a service that finds things: the links into a slot, and the slot of a block. The service tells
/// it of each change.
pub trait LinkTable: Drop {
    /// How many slots there are, and how many words each has.
    ghost slot_count: { Self → ℕ };

    ghost slot_size: { Self → ℕ };

    /// Blocks have numbers below this one.
    ghost block_count: { Self → ℕ };

    /// Of each word the slot to which it is linked; where it isn't, the number of slots.
    ghost targets: { Self → List ℕ };

    /// It knows which of these blocks stand in the first so many slots.
    ghost knows: { Self → ℕ → List ℕ → Type 0 };

    /// A table of empty slots, for so many blocks.
    fn new(alloc: Global, slots: u32, size: u32, blocks: u32) -> Result<Self, Memory>
        requires some { 0 < size }
        requires slots { slots ≤ 2 ^ 20 }
        requires words { slots * size ≤ 2 ^ 21 }
        requires blocks { blocks ≤ 2 ^ 22 }
        ensures slots { IfOk result (λ t. slot_count t ≡ slots) }
        ensures size { IfOk result (λ t. slot_size t ≡ size) }
        ensures blocks { IfOk result (λ t. block_count t ≡ blocks) }
        ensures empty { IfOk result (λ t. targets t ≡ replicate (slots * size) slots) }
        ensures knows { IfOk result (λ t. (stand : List ℕ) → knows t 0 stand) };

    /// The slot of a block among the first `filled`, whose blocks these are.
    fn find(&self, blocks: &[u32], filled: u32, block: u32) -> Option<u32>
        requires knows { knows self.now filled blocks.now }
        requires filled { filled ≤ length blocks.now }
        requires block { block < block_count self.now }
        ensures { MatchOption result (NotAmong filled blocks.now block)
            (λ n. (n < filled) × (slice_index blocks.now n ≡ block)) };

    /// Undoes in the ram every link into a slot from another slot, and drops it and every link of the slot's
    /// own. The slot's block has `words` words. The answer is the number of the undone.
    fn clear<M: CacheRam>(&mut self, slot: u32, words: u32, ram: &mut M) -> Result<u32, Failed>
        requires slot { slot < slot_count self.old }
        requires some { 0 < slot_size self.old }
        requires few { slot_count self.old * slot_size self.old ≤ 2 ^ 21 }
        requires long { length (targets self.old) ≡ slot_count self.old * slot_size self.old }
        requires inside { (o : ℕ) → words ≤ o → o < slot_size self.old →
            slot_count self.old ≤ slice_index (targets self.old) (slot * slot_size self.old + o) }
        requires fits { slot_count self.old * slot_size self.old ≤ length (M.state ram.old).words }
        ensures cleared { IfOk result (λ n. Cleared (slot_count self.old) (slot_size self.old) slot
            (slot_count self.old * slot_size self.old) (targets self.old) (targets self.new)
            (M.state ram.old) (M.state ram.new)) }
        ensures number { IfOk result (λ n. n ≡ leading_in (slot_size self.old) slot (targets self.old)
            (slot_count self.old * slot_size self.old)) }
        ensures failed { OnErr result (FailedBelow (slot_count self.old * slot_size self.old)
            (M.state ram.old) (M.state ram.new)) }
        ensures long { length (targets self.new) ≡ length (targets self.old) }
        ensures slots { slot_count self.new ≡ slot_count self.old }
        ensures size { slot_size self.new ≡ slot_size self.old }
        ensures blocks { block_count self.new ≡ block_count self.old }
        ensures knows { (filled : ℕ) (blocks : List ℕ) →
            knows self.old filled blocks → knows self.new filled blocks };

    /// A block that stood nowhere takes a slot: the one behind the filled ones, or that of an older block.
    fn settle(&mut self, blocks: &[u32], filled: u32, slot: u32, block: u32)
        requires knows { knows self.old filled blocks.now }
        requires absent { NotAmong filled blocks.now block }
        requires slot { slot < length blocks.now }
        requires next { slot ≤ filled }
        requires few { slot < 2 ^ 20 }
        requires block { block < block_count self.old }
        ensures targets { targets self.new ≡ targets self.old }
        ensures slots { slot_count self.new ≡ slot_count self.old }
        ensures size { slot_size self.new ≡ slot_size self.old }
        ensures blocks { block_count self.new ≡ block_count self.old }
        ensures knows { knows self.new (max filled (slot + 1)) (slice_set blocks.now slot block) };

    /// A word that is no link becomes one to a slot.
    fn link(&mut self, at: u32, slot: u32)
        requires at { at < length (targets self.old) }
        requires free { slot_count self.old ≤ slice_index (targets self.old) at }
        requires slot { slot < slot_count self.old }
        ensures targets { targets self.new ≡ slice_set (targets self.old) at slot }
        ensures slots { slot_count self.new ≡ slot_count self.old }
        ensures size { slot_size self.new ≡ slot_size self.old }
        ensures blocks { block_count self.new ≡ block_count self.old }
        ensures knows { (filled : ℕ) (blocks : List ℕ) →
            knows self.old filled blocks → knows self.new filled blocks };
}
