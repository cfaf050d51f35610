//! Lists of linked words, kept as chains through arrays of indices, so that each call takes constant time.
#![tactic(auto)]

ghost use Rattle.std.specs.Prelude.{true, ◌+◌, ◌≡◌, ◌<◌, ◌≤◌, ◌^◌, ℕ, [], ◌∷◌, length, replicate, map, slice_set, slice_index, slice_get, IfOk, IfSome, MatchOption, nat_lt, if◌then◌else◌};
ghost use Rattle.swi_links.specs.Chains.{list_of, Has, IsApart, IsFree, AreFree, without};

use std::alloc::Global;
use std::marker::Model;
use swi_outside::Memory;

/// For each slot the indices of the words that are linked to it, newest first. No word is linked to two.
#[derive(Drop)]
pub struct Chains {
    // How many words there are. As a word's index it stands for none.
    words: u32,
    // Of each slot the first word of its list.
    heads: Vec<u32>,
    // Of each word the next one of its list, and the one before.
    nexts: Vec<u32>,
    prevs: Vec<u32>,
    // Of each word its slot; where no list has it, the number of slots.
    owners: Vec<u32>,
}

impl Model for Chains {
    ghost use Rattle.swi_links.specs.Chains.{ChainsData};
    ghost use Rattle.swi_links.specs.Tied.{Tied, lists_in};

    ghost Value = { ChainsData };

    ghost view = { λ c. record { words = c.words; lists = lists_in c.nexts.items c.words c.heads.items } };

    ghost invariant = { λ c. Tied c.words c.heads.items c.nexts.items c.prevs.items c.owners.items };
}

// Writes at an index, where it is within.
fn put(xs: &mut Vec<u32>, i: u32, x: u32)
    ensures { xs.new.items ≡ slice_set xs.old.items i x }
{
    if (i as usize) < xs.len() {
        xs[i as usize] = x;
    }
}

// The head that changes when a word behind `prev` leaves; none where it stands behind another word.
fn head_at(prev: u32, words: u32, slot: u32, slots: u32) -> u32
    ensures { result ≡ (if nat_lt prev words then slots else slot) }
{
    if prev < words { slots } else { slot }
}

/// How many words are looked at together.
const STRIDE: usize = 8;

// Whether the eight words from one on have no slot: the common bits of numbers are at most each of them, and of the number
// of slots with itself that number.
fn are_free(owners: &[u32], at: usize, slots: u32) -> bool
    requires { at + 8 ≤ length owners.now }
    ensures { result ≡ true → (x : ℕ) → at ≤ x → x < at + 8 → slots ≤ slice_index owners.now x }
{
    let low = owners[at] & owners[at + 1] & owners[at + 2] & owners[at + 3];
    let high = owners[at + 4] & owners[at + 5] & owners[at + 6] & owners[at + 7];
    low & high >= slots
}

// The word behind those from `from` on that have no slot, as far as they are passed over by strides below `to`.
fn passed(owners: &[u32], from: usize, to: usize, slots: u32) -> usize
    requires order { from ≤ to }
    requires within { to ≤ length owners.now }
    ensures from { from ≤ result }
    ensures to { result ≤ to }
    ensures free { (x : ℕ) → from ≤ x → x < result → slots ≤ slice_index owners.now x }
{
    let mut at = from;
    while to - at >= STRIDE && are_free(owners, at, slots) {
        at += STRIDE;
    }
    at
}

impl Chains {
    /// Empty lists of up to 2^20 slots over up to 2^21 words.
    pub fn new(alloc: Global, slots: u32, words: u32) -> Result<Chains, Memory>
        requires slots { slots ≤ 2 ^ 20 }
        requires words { words ≤ 2 ^ 21 }
        ensures { IfOk result (λ c. c ≡ record { words = words; lists = replicate slots [] }) }
    {
        let heads = vec![in alloc; words; slots as usize].map_err(|_| Memory)?;
        let nexts = vec![in alloc; words; words as usize].map_err(|_| Memory)?;
        let prevs = vec![in alloc; words; words as usize].map_err(|_| Memory)?;
        let owners = vec![in alloc; slots; words as usize].map_err(|_| Memory)?;
        Ok(Chains {
            words,
            heads,
            nexts,
            prevs,
            owners,
        })
    }

    /// Links a word that no list has to a slot: it becomes the newest of the slot's list.
    pub fn link(&mut self, at: u32, slot: u32)
        requires at { at < self.old.words }
        requires free { IsFree self.old at }
        requires slot { slot < length self.old.lists }
        ensures { self.new ≡ record self.old { lists = slice_set self.old.lists slot (at ∷ list_of self.old slot) } }
    {
        let first = self.heads[slot as usize];
        let none = self.words;
        put(&mut self.prevs, first, at);
        put(&mut self.prevs, at, none);
        put(&mut self.nexts, at, first);
        put(&mut self.owners, at, slot);
        put(&mut self.heads, slot, at);
    }

    /// Takes a word out of the list that has it. The others keep their order.
    pub fn unlink(&mut self, at: u32)
        requires at { (s : ℕ) × Has (list_of self.old s) at }
        ensures { self.new ≡ record self.old { lists = map (λ xs. without at xs) self.old.lists } }
    {
        let slot = self.owners[at as usize];
        let next = self.nexts[at as usize];
        let prev = self.prevs[at as usize];
        let slots = self.heads.len() as u32;
        let head = head_at(prev, self.words, slot, slots);
        put(&mut self.prevs, next, prev);
        put(&mut self.nexts, prev, next);
        put(&mut self.owners, at, slots);
        put(&mut self.heads, head, next);
    }

    /// How many slots there are.
    pub fn slots(&self) -> u32
        ensures value { result ≡ length self.now.lists }
        ensures apart { IsApart self.now }
    {
        self.heads.len() as u32
    }

    /// The newest word that is linked to a slot; None exactly where its list is empty.
    pub fn first_into(&self, slot: u32) -> Option<u32>
        requires { slot < length self.now.lists }
        ensures first { result ≡ slice_get (list_of self.now slot) 0 }
        ensures apart { IsApart self.now }
    {
        let first = self.heads[slot as usize];
        if first < self.words {
            Some(first)
        } else {
            None
        }
    }

    /// The slot to which a word is linked; None exactly where no list has it.
    pub fn target(&self, at: u32) -> Option<u32>
        requires { at < self.now.words }
        ensures cases { MatchOption result (IsFree self.now at) (λ s. Has (list_of self.now s) at) }
        ensures apart { IsApart self.now }
    {
        let slot = self.owners[at as usize];
        if (slot as usize) < self.heads.len() {
            Some(slot)
        } else {
            None
        }
    }
    /// The first word from `from` on and below `to` that a list has; None exactly where none has one. It takes time
    /// linear in the number of words that are passed over.
    pub fn first_linked(&self, from: u32, to: u32) -> Option<u32>
        requires order { from ≤ to }
        requires within { to ≤ self.now.words }
        ensures free { MatchOption result (AreFree self.now from to) (λ x. AreFree self.now from x) }
        ensures within { IfSome result (λ x. (from ≤ x) × (x < to)) }
        ensures linked { IfSome result (λ x. (s : ℕ) × Has (list_of self.now s) x) }
    {
        let slots = self.heads.len() as u32;
        let end = to as usize;
        for at in passed(&self.owners, from as usize, end, slots)..end {
            let slot = self.owners[at];
            if slot < slots {
                return Some(at as u32);
            }
        }
        None
    }
}
