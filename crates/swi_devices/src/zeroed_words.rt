ghost use Rattle.std.specs.Prelude.{◌≡◌, ◌+◌, ◌-◌, ◌<◌, ◌≤◌, ◌++◌, ℕ, length, slice_index, slice_set, replicate, vec_capacity, IfOk};

use std::alloc::Global;
use std::marker::Model;
use swi_outside::{Memory, Words};

/// Words that are 0 until they are set. Room for all is taken at first, so that no call runs out of memory; the words behind
/// the last one that was set are not written, so that their pages are never touched.
#[derive(Drop)]
pub struct ZeroedWords {
    // The words from index 0 on. All others are 0.
    front: Vec<u32>,
    count: u32,
}

impl Model for ZeroedWords {
    ghost use Rattle.std.specs.Prelude.{◌≤◌, ℕ, List, length, vec_capacity};
    ghost use Rattle.swi_devices.specs.Stored.{zero_filled};

    ghost Value = { List ℕ };

    ghost view = { λ w. zero_filled w.count w.front.items };

    ghost invariant = { λ w. (length w.front.items ≤ w.count) × (w.count ≤ vec_capacity w.front) };
}

/// Writes zeros behind words, so that the word at each index below `end` is written. There is room for them.
#[inline(always)]
fn write_front(front: &mut Vec<u32>, end: usize)
    requires { end ≤ vec_capacity front.old }
    ensures items { front.new.items ≡ front.old.items ++ replicate (end - length front.old.items) 0 }
    ensures room { vec_capacity front.old ≤ vec_capacity front.new }
{
    if front.len() < end {
        write_zeros(front, end);
    }
}

// Apart, so that what sets a word that is written is short.
#[cold]
#[inline(never)]
fn write_zeros(front: &mut Vec<u32>, end: usize)
    requires behind { length front.old.items ≤ end }
    requires room { end ≤ vec_capacity front.old }
    ensures items { front.new.items ≡ front.old.items ++ replicate (end - length front.old.items) 0 }
    ensures room { vec_capacity front.old ≤ vec_capacity front.new }
{
    let _ = front.resize(end, 0);
}

/// Puts words one behind the other from index `first` on.
fn put_words<W: Words>(held: &mut [u32], first: u32, words: &W)
    requires { first + length (W.items words.now) ≤ length held.old }
    ensures count { length held.new ≡ length held.old }
    ensures stand { (k : ℕ) → k < length (W.items words.now) → slice_index held.new (first + k) ≡ slice_index (W.items words.now) k }
    ensures below { (i : ℕ) → i < first → slice_index held.new i ≡ slice_index held.old i }
    ensures beyond { (i : ℕ) → first + length (W.items words.now) ≤ i → slice_index held.new i ≡ slice_index held.old i }
{
    for k in 0..words.count() {
        held[first as usize + k as usize] = words.word(k);
    }
}

impl ZeroedWords {
    /// So many words. `Memory` comes where there is no room for them.
    pub fn new(alloc: Global, count: u32) -> Result<ZeroedWords, Memory>
        ensures { IfOk result (λ w. w ≡ replicate count 0) }
    {
        let front = Vec::with_capacity(alloc, count as usize).map_err(|_| Memory)?;
        Ok(ZeroedWords { front, count })
    }

    /// How many.
    #[inline(always)]
    pub fn count(&self) -> u32
        ensures { result ≡ length self.now }
    {
        self.count
    }

    /// The word at index `i`.
    #[inline(always)]
    pub fn word(&self, i: u32) -> u32
        ensures { result ≡ slice_index self.now i }
    {
        match self.front.get(i as usize) {
            Some(word) => *word,
            None => 0,
        }
    }

    /// Sets the word at index `i`.
    #[inline(always)]
    pub fn set(&mut self, i: u32, w: u32)
        requires { i < length self.old }
        ensures { self.new ≡ slice_set self.old i w }
    {
        write_front(&mut self.front, i as usize + 1);
        self.front[i as usize] = w;
    }

    /// Sets words one behind the other from index `first` on, in one loop.
    #[inline(always)]
    pub fn set_all<W: Words>(&mut self, first: u32, words: &W)
        requires { first + length (W.items words.now) ≤ length self.old }
        ensures count { length self.new ≡ length self.old }
        ensures stand { (k : ℕ) → k < length (W.items words.now) → slice_index self.new (first + k) ≡ slice_index (W.items words.now) k }
        ensures below { (i : ℕ) → i < first → slice_index self.new i ≡ slice_index self.old i }
        ensures beyond { (i : ℕ) → first + length (W.items words.now) ≤ i → slice_index self.new i ≡ slice_index self.old i }
    {
        write_front(&mut self.front, first as usize + words.count() as usize);
        put_words(&mut self.front, first, words);
    }
}
