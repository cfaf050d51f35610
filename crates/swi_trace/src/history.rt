//! The last addresses of a run.
#![tactic(auto)]

ghost use Rattle.std.specs.Prelude.{◌≡◌, ◌↔◌, ◌≤◌, ℕ, List, [], ◌∷◌, ◌++◌, IfOk, IsNone, length, slice_get};
ghost use Rattle.swi_trace.specs.History.{last_of, IsLastOf};

use circular_buffer::HeapCircularBuffer;
use std::alloc::Global;
use std::marker::Model;
use swi_outside::Memory;

/// How many addresses a history keeps.
const KEPT: usize = 32;

/// The last addresses that were pushed, 32 at most. Contracts see them as a list, the oldest first.
///
/// The ring has its memory from `new` on, and takes no more.
///
/// ```text
/// let mut history = History::new(alloc)?;
/// history.push(0x10000);
/// history.push(0x10004);
/// // now len() is 2, get(0) is Some(0x10000), get(1) is Some(0x10004), and get(2) is None
/// ```
#[derive(Drop)]
pub struct History {
    addresses: HeapCircularBuffer<u32>,
}

impl Model for History {
    ghost use Rattle.std.specs.Prelude.{List, ℕ, ◌≡◌, ◌≤◌, length};

    ghost Value = { List ℕ };

    ghost view = { λ h. h.addresses.items };

    ghost invariant = { λ h. (h.addresses.capacity ≡ 32) × (length h.addresses.items ≤ 32) };
}

impl History {
    /// An empty history. `Memory` where there is no room for its ring.
    pub fn new(alloc: Global) -> Result<History, Memory>
        ensures { IfOk result (λ h. h ≡ []) }
    {
        let addresses = HeapCircularBuffer::with_capacity(alloc, KEPT).map_err(|_| Memory)?;
        Ok(History { addresses })
    }

    /// Adds an address behind the others. Where there are 32, the oldest leaves.
    pub fn push(&mut self, a: u32)
        ensures kept { self.new ≡ last_of 32 (self.old ++ a ∷ []) }
        ensures last { (pushed : List ℕ) → IsLastOf pushed self.old → IsLastOf (pushed ++ a ∷ []) self.new }
    {
        let _oldest = self.addresses.push_back(a);
    }

    /// How many addresses there are: as many as were pushed, 32 at most.
    pub fn len(&self) -> u32
        ensures value { result ≡ length self.now }
        ensures most { result ≤ 32 }
    {
        self.addresses.len() as u32
    }

    /// The k-th address, counted from 0, the oldest first. None exactly from `len()` on.
    pub fn get(&self, k: u32) -> Option<u32>
        ensures value { result ≡ slice_get self.now k }
        ensures none { IsNone result ↔ (length self.now ≤ k) }
    {
        self.addresses.get(k as usize).copied()
    }
}
