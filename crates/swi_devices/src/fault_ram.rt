ghost use Rattle.std.specs.Prelude.{◌≡◌, ◌<◌, ◌↔◌, false, length, slice_index, replicate, IfOk, IsErr, OnErr, Contains};
ghost use Rattle.swi_outside.specs.CacheRam.{Fetched, WordSet};
ghost use Rattle.swi_devices.specs.Stored.{new_ram};
ghost use Rattle.swi_outside.specs.Causes.{counted};

use crate::fault_plan::FaultPlan;
use crate::ram_calls::RamCalls;
use std::alloc::Global;
use std::marker::Model;
use std::snapshot::Snapshot;
use swi_outside::{CacheRam, Failed, Memory, SteadyRam};

/// A ram whose calls fail where a list says so.
#[derive(Drop)]
pub struct FaultRam {
    words: Vec<u32>,
    fetches: u64,
    sets: u64,
    reach: u32,
    made: Snapshot<RamCalls>,
    last_failed: bool,
    plan: FaultPlan,
}

impl Model for FaultRam {
    ghost use Rattle.std.specs.Prelude.{◌≡◌, ◌^◌, ◌<◌, length};
    ghost use Rattle.swi_devices.specs.Stored.{FaultyRam};
    ghost use Rattle.swi_devices.specs.RamCalls.{fetched_in, sets_in};

    ghost Value = { FaultyRam };

    ghost view = { λ r. record {
      ram = record {
        words = r.words.items;
        fetches = r.fetches;
        sets = r.sets;
        faults = r.plan.faults;
        reach = r.reach;
        fetched_at = fetched_in r.made.value;
        last_failed = r.last_failed;
      };
      failing = r.plan.failing.items;
      calls = r.plan.calls;
    } };

    ghost invariant = { λ r. (length r.words.items < 2 ^ 32) × (sets_in r.made.value ≡ r.sets) };
}

impl FaultRam {
    /// A ram of so many words, all 0. The calls of `fetch` and `set`, counted together, with the
    /// numbers in `failing`, from 1, fail, and no other. `Memory` comes where there is no room.
    pub fn new(alloc: Global, words: u32, failing: Vec<u32>) -> Result<FaultRam, Memory>
        ensures { IfOk result (λ r. r ≡
            record { ram = new_ram (replicate words 0); failing = failing.items; calls = 0 }) }
    {
        let words = vec![in alloc; 0u32; words as usize].map_err(|_| Memory)?;
        Ok(FaultRam {
            words,
            fetches: 0,
            sets: 0,
            reach: 0,
            made: Snapshot::of(&RamCalls::None),
            last_failed: false,
            plan: FaultPlan::new(failing),
        })
    }

    /// How many fetches answered `Ok`, up to 2^64 - 1.
    pub fn fetches(&self) -> u64
        ensures { result ≡ self.now.ram.fetches }
    {
        self.fetches
    }

    /// How many sets answered `Ok`, up to 2^64 - 1.
    pub fn sets(&self) -> u64
        ensures { result ≡ self.now.ram.sets }
    {
        self.sets
    }

    /// The word at index `i`, for who looks into a ram beside a run: this counts as no call.
    pub fn word(&self, i: u32) -> u32
        requires { i < length self.now.ram.words }
        ensures { result ≡ slice_index self.now.ram.words i }
    {
        self.words[i as usize]
    }
}

impl CacheRam for FaultRam {
    ghost state = { λ r. r.ram };

    fn words(&self) -> u32 {
        self.words.len() as u32
    }

    fn fetch(&mut self, i: u32) -> Result<u32, Failed>
        requires { i < length self.old.ram.words }
        ensures fetched { Fetched self.old.ram i result self.new.ram }

        // No other call fails.
        ensures listed { IsErr result ↔ Contains self.old.failing (counted self.old.calls) }
        ensures counted { self.new ≡ record self.old { ram = self.new.ram; calls = counted self.old.calls } }
    {
        self.reach = self.reach.max(i + 1);
        self.last_failed = true;
        self.plan.try_call()?;
        self.last_failed = false;
        self.fetches = self.fetches.saturating_add(1);
        let word = self.words[i as usize];
        self.made = Snapshot::of(&RamCalls::Fetched(Snapshot::of(&self.made), i, word));
        Ok(word)
    }

    fn set(&mut self, i: u32, w: u32) -> Result<(), Failed>
        requires { i < length self.old.ram.words }
        ensures set { WordSet self.old.ram i w result self.new.ram }

        // No other call fails, and a failed one leaves all words.
        ensures listed { IsErr result ↔ Contains self.old.failing (counted self.old.calls) }
        ensures left { OnErr result (self.new.ram.words ≡ self.old.ram.words) }
        ensures counted { self.new ≡ record self.old { ram = self.new.ram; calls = counted self.old.calls } }
    {
        self.reach = self.reach.max(i + 1);
        self.last_failed = true;
        self.plan.try_call()?;
        self.last_failed = false;
        self.words[i as usize] = w;
        self.made = Snapshot::of(&RamCalls::Set(Snapshot::of(&self.made), i));
        self.sets = self.sets.saturating_add(1);
        Ok(())
    }
}

impl SteadyRam for FaultRam {
    ghost steady = { false };

    fn is_steady(&self) -> bool {
        false
    }
}
