ghost use Rattle.std.specs.Prelude.{◌≡◌, ◌+◌, ◌<◌, ◌≤◌, ◌^◌, true, max, length, slice_index, replicate, IfOk, IsOk, OnErr, OnOk};
ghost use Rattle.swi_outside.specs.CacheRam.{Fetched, WordSet, WordsBroke, WordsSet};
ghost use Rattle.swi_devices.specs.Stored.{new_ram};
ghost use Rattle.swi_outside.specs.Causes.{risen};
ghost use Rattle.swi_devices.specs.RamCalls.{fetches_in, fetched_in, reach_of, sets_in};

use crate::ram_calls::RamCalls;
use crate::zeroed_words::ZeroedWords;
use std::alloc::Global;
use std::marker::Model;
use std::snapshot::Snapshot;
use swi_outside::{CacheRam, Failed, Memory, SteadyRam, Words};

/// A ram that never fails: its memory is taken at first, and touched up to the last word that was set. What contracts see of its
/// calls takes no bytes and no time when it runs: it has no reader.
#[derive(Drop)]
pub struct VecRam {
    words: ZeroedWords,
    calls: Snapshot<RamCalls>,
}

impl Model for VecRam {
    ghost use Rattle.std.specs.Prelude.{◌^◌, ◌<◌, length, false};
    ghost use Rattle.swi_outside.specs.CacheRam.{RamState};
    ghost use Rattle.swi_devices.specs.RamCalls.{fetches_in, sets_in, reach_of, fetched_in};

    ghost Value = { RamState };

    ghost view = { λ r. record {
      words = r.words;
      fetches = fetches_in r.calls.value;
      sets = sets_in r.calls.value;
      faults = 0;
      reach = reach_of r.calls.value;
      fetched_at = fetched_in r.calls.value;
      last_failed = false;
    } };

    ghost invariant = { λ r. length r.words < 2 ^ 32 };
}

/// Notes a set of each of so many words from index `first` on. It takes no time when it runs.
fn note_sets(calls: &mut Snapshot<RamCalls>, first: u32, count: u32)
    requires { first + count < 2 ^ 32 }
    ensures sets { sets_in calls.new.value ≡ risen (sets_in calls.old.value) count }
    ensures fetches { fetches_in calls.new.value ≡ fetches_in calls.old.value }
    ensures fetched { fetched_in calls.new.value ≡ fetched_in calls.old.value }
    ensures reach { reach_of calls.new.value ≤ max (reach_of calls.old.value) (first + count) }
{
    for k in 0..count {
        *calls = Snapshot::of(&RamCalls::Set(Snapshot::of(calls), first + k));
    }
}

impl VecRam {
    /// A ram of so many words, all 0. `Memory` comes where there is no room for them.
    pub fn new(alloc: Global, words: u32) -> Result<VecRam, Memory>
        ensures { IfOk result (λ r. r ≡ new_ram (replicate words 0)) }
    {
        Ok(VecRam {
            words: ZeroedWords::new(alloc, words)?,
            calls: Snapshot::of(&RamCalls::None),
        })
    }

    /// The word at index `i`, for who looks into a ram beside a run: it counts as no fetch.
    pub fn word(&self, i: u32) -> u32
        requires { i < length self.now.words }
        ensures { result ≡ slice_index self.now.words i }
    {
        self.words.word(i)
    }
}

impl CacheRam for VecRam {
    ghost state = { λ r. r };

    #[inline(always)]
    fn words(&self) -> u32 {
        self.words.count()
    }

    #[inline(always)]
    fn fetch(&mut self, i: u32) -> Result<u32, Failed>
        requires { i < length self.old.words }
        ensures fetched { Fetched self.old i result self.new }
        ensures never_fails { IsOk result }
    {
        let word = self.words.word(i);
        self.calls = Snapshot::of(&RamCalls::Fetched(Snapshot::of(&self.calls), i, word));
        Ok(word)
    }

    #[inline(always)]
    fn set(&mut self, i: u32, w: u32) -> Result<(), Failed>
        requires { i < length self.old.words }
        ensures set { WordSet self.old i w result self.new }
        ensures never_fails { IsOk result }
    {
        self.calls = Snapshot::of(&RamCalls::Set(Snapshot::of(&self.calls), i));
        self.words.set(i, w);
        Ok(())
    }

    /// The words are copied in one loop.
    #[inline(always)]
    fn set_all<W: Words>(&mut self, first: u32, words: &W) -> Result<(), Failed>
        requires { first + length (W.items words.now) ≤ length self.old.words }
        ensures set { OnOk result (WordsSet first (W.items words.now) self.old self.new) }
        ensures failed { OnErr result (WordsBroke first (length (W.items words.now)) self.old self.new) }
        ensures never_fails { IsOk result }
    {
        note_sets(&mut self.calls, first, words.count());
        self.words.set_all(first, words);
        Ok(())
    }
}

impl SteadyRam for VecRam {
    ghost steady = { true };

    // Looked into, so that what its model says of faults is known.
    #[inline(always)]
    fn is_steady(&self) -> bool {
        let _words = &self.words;
        true
    }
}
