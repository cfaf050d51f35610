ghost use Rattle.std.specs.Prelude.{◌≡◌, ◌≤◌, ◌<◌, ◌⊎◌, [], length, Option, None, Some, IfOk, OnOk, OnErr, Contains, MatchOption, map, position, string_bytes};
ghost use Rattle.std.specs.Str.{bytes_eq};
ghost use Rattle.swi_outside.specs.Causes.{counted};
ghost use Rattle.swi_outside.specs.Shelf.{SameElsewhere, WasGot, WasPut};
ghost use Rattle.swi_devices.specs.Stored.{told_of, lookup, entry_of};

use crate::fault_plan::FaultPlan;
use crate::shelf_call::{ShelfCall, key_of};
use crate::shelf_log::{ShelfLog, note_got};
use std::alloc::Global;
use std::marker::Model;
use std::snapshot::Snapshot;
use swi_outside::{Shelf, ShelfError};

/// Contents in memory.
#[derive(Drop)]
pub struct MemShelf {
    entries: Vec<(String, Vec<u8>)>,
    plan: FaultPlan,
    last: Option<(ShelfCall, String)>,
    got: Snapshot<ShelfLog>,
    stored: Snapshot<ShelfLog>,
}

impl Model for MemShelf {
    ghost use Rattle.std.specs.Prelude.{map};
    ghost use Rattle.swi_devices.specs.ShelfLog.{passed_in};
    ghost use Rattle.swi_devices.specs.Stored.{StoredShelf, entry_of, last_asked};

    ghost Value = { StoredShelf };

    ghost view = { λ s. record {
      entries = map entry_of s.entries.items;
      got = passed_in s.got.value;
      stored = passed_in s.stored.value;
      failing = s.plan.failing.items;
      calls = s.plan.calls;
      faults = s.plan.faults;
      last = last_asked s.last;
    } };
}

impl MemShelf {
    /// A shelf of these names and contents; of a name that stands there twice the first content counts.
    /// The calls with the numbers in `failing`, from 1, fail, and each `get` of a name that is not there,
    /// and no other.
    pub fn new(contents: Vec<(String, Vec<u8>)>, failing: Vec<u32>) -> MemShelf
        ensures { result ≡ record {
          entries = map entry_of contents.items;
          got = [];
          stored = [];
          failing = failing.items;
          calls = 0;
          faults = 0;
          last = None;
        } }
    {
        MemShelf {
            entries: contents,
            plan: FaultPlan::new(failing),
            last: None,
            got: Snapshot::of(&ShelfLog::None),
            stored: Snapshot::of(&ShelfLog::None),
        }
    }

    /// The content under `name`, and `None` exactly where there is none. This counts as no call.
    pub fn held(&self, name: &str) -> Option<&[u8]>
        ensures { MatchOption result (lookup self.now.entries name.now ≡ None)
            (λ bytes. lookup self.now.entries name.now ≡ Some bytes.now) }
    {
        find(&self.entries, name)
    }
}

// The place of the first entry of a name.
fn index_of(entries: &[(String, Vec<u8>)], name: &str) -> Option<usize>
    ensures { result ≡ position (λ e. bytes_eq (string_bytes e.0) name.now) entries.now }
{
    entries.iter().position(|entry| entry.0.as_str() == name)
}

// The content of the first entry of a name.
#[tactic(auto, using(crate::proofs::Entries::lookups))]
fn find<'a>(entries: &'a [(String, Vec<u8>)], name: &str) -> Option<&'a [u8]>
    ensures { MatchOption result (lookup (map entry_of entries.now) name.now ≡ None)
        (λ bytes. lookup (map entry_of entries.now) name.now ≡ Some bytes.now) }
{
    match index_of(entries, name) {
        Some(i) => Some(entries[i].1.as_slice()),
        None => None,
    }
}

// Puts a content into the first entry of its name, or into a new one at the end.
fn put_entry(
    entries: &mut Vec<(String, Vec<u8>)>,
    name: String,
    bytes: Vec<u8>,
) -> Result<(), ShelfError>
    ensures others { SameElsewhere (Some (lookup (map entry_of entries.old.items)))
        (Some (lookup (map entry_of entries.new.items))) (string_bytes name) }
    ensures stands { OnOk result (lookup (map entry_of entries.new.items) (string_bytes name) ≡ Some bytes.items) }
    ensures err { OnErr result (entries.new.items ≡ entries.old.items) }
    ensures only_memory { OnErr result (result ≡ Err ShelfError.Memory) }
{
    if let Some(i) = index_of(entries, name.as_str()) {
        entries[i] = (name, bytes);
        return Ok(());
    }
    if entries.push((name, bytes)).is_err() {
        return Err(ShelfError::Memory);
    }
    Ok(())
}

impl Shelf for MemShelf {
    ghost state = { told_of };

    fn get(&mut self, alloc: Global, name: &str, limit: u32) -> Result<Vec<u8>, ShelfError>
        ensures got { WasGot (told_of self.old) (told_of self.new) name.now limit result }

        // A listed call fails, and one of a name that is not there. No other call fails.
        ensures listed { Contains self.old.failing (counted self.old.calls) →
            (result ≡ Err ShelfError.Failed) ⊎ (result ≡ Err ShelfError.Memory) }
        ensures failed { result ≡ Err ShelfError.Failed →
            Contains self.old.failing (counted self.old.calls) ⊎ (lookup self.old.entries name.now ≡ None) }
        ensures counted { self.new ≡ record self.old {
          got = self.new.got;
          calls = counted self.old.calls;
          faults = self.new.faults;
          last = self.new.last;
        } }
    {
        let fails = self.plan.count_call();
        let key = key_of(alloc, name)?;
        match find(&self.entries, name) {
            Some(bytes) if !fails => {
                let answer = copy_within(alloc, bytes, limit);
                note_got(&mut self.got, &key, &answer);
                answer
            }
            _ => {
                self.plan.count_fault();
                self.last = Some((ShelfCall::Get, key));
                Err(ShelfError::Failed)
            }
        }
    }

    fn put(&mut self, alloc: Global, name: &str, bytes: &[u8]) -> Result<(), ShelfError>
        ensures put { WasPut (told_of self.old) (told_of self.new) name.now bytes.now result }

        // A listed call fails, and no other. A failed one changes no content.
        ensures listed { Contains self.old.failing (counted self.old.calls) →
            (result ≡ Err ShelfError.Failed) ⊎ (result ≡ Err ShelfError.Memory) }
        ensures failed { result ≡ Err ShelfError.Failed → Contains self.old.failing (counted self.old.calls) }
        ensures kept { OnErr result (self.new.entries ≡ self.old.entries) }
        ensures counted { self.new ≡ record self.old {
          entries = self.new.entries;
          stored = self.new.stored;
          calls = counted self.old.calls;
          faults = self.new.faults;
          last = self.new.last;
        } }
    {
        let fails = self.plan.count_call();
        let key = key_of(alloc, name)?;
        if fails {
            self.plan.count_fault();
            self.last = Some((ShelfCall::Put, key));
            return Err(ShelfError::Failed);
        }
        let copy = Vec::from_slice(alloc, bytes).map_err(|_| ShelfError::Memory)?;
        let name = Snapshot::of(&key);
        let content = Snapshot::of(&copy);
        put_entry(&mut self.entries, key, copy)?;
        self.stored = Snapshot::of(&ShelfLog::Held(Snapshot::of(&self.stored), name, content));
        Ok(())
    }
}

// A copy of a content that has no more bytes than the limit.
fn copy_within(alloc: Global, bytes: &[u8], limit: u32) -> Result<Vec<u8>, ShelfError>
    ensures content { IfOk result (λ copy. copy.items ≡ bytes.now) }
    ensures within { IfOk result (λ _. length bytes.now ≤ limit) }
    ensures long { result ≡ Err ShelfError.Long → limit < length bytes.now }
    ensures not_failed { result ≡ Err ShelfError.Failed → ⊥ }
{
    if bytes.len() > limit as usize {
        return Err(ShelfError::Long);
    }
    Vec::from_slice(alloc, bytes).map_err(|_| ShelfError::Memory)
}
