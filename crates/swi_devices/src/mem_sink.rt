ghost use Rattle.std.specs.Prelude.{◌≡◌, ◌+◌, ◌-◌, ◌<◌, ◌≤◌, ◌⊎◌, ◌↔◌, ◌++◌, [], length, min, take, IfOk, IsErr, Contains, Some};
ghost use Rattle.swi_outside.specs.Causes.{counted};
ghost use Rattle.swi_outside.specs.Sink.{WasWritten};

use crate::fault_plan::FaultPlan;
use std::alloc::Global;
use std::marker::Model;
use swi_outside::{Failed, Memory, Sink};

/// Output to memory, of so many bytes at most.
#[derive(Drop)]
pub struct MemSink {
    bytes: Vec<u8>,
    len: usize,
    plan: FaultPlan,
}

impl Model for MemSink {
    ghost use Rattle.std.specs.Prelude.{◌≤◌, take, length};
    ghost use Rattle.swi_devices.specs.Stored.{StoredSink};

    ghost Value = { StoredSink };

    ghost view = { λ s. record {
      held = take s.len s.bytes.items;
      room = length s.bytes.items;
      failing = s.plan.failing.items;
      calls = s.plan.calls;
      faults = s.plan.faults;
    } };

    ghost invariant = { λ s. s.len ≤ length s.bytes.items };
}

impl MemSink {
    /// An empty sink for at most `room` bytes. The calls of `write` with the numbers in `failing`,
    /// from 1, fail, and each that would pass `room`, and no other.
    ///
    /// All its memory is taken here; `Memory` comes where there is none.
    pub fn new(alloc: Global, room: u32, failing: Vec<u32>) -> Result<MemSink, Memory>
        ensures { IfOk result (λ s. s ≡
            record { held = []; room = room; failing = failing.items; calls = 0; faults = 0 }) }
    {
        let bytes = vec![in alloc; 0u8; room as usize].map_err(|_| Memory)?;
        Ok(MemSink {
            bytes,
            len: 0,
            plan: FaultPlan::new(failing),
        })
    }

    // Appends as much of the piece as there is room for, and answers how many bytes that was.
    fn append(&mut self, piece: &[u8]) -> usize
        ensures count { result ≡ min (length piece.now) (self.old.room - length self.old.held) }
        ensures appended { self.new ≡ record self.old { held = self.old.held ++ take result piece.now } }
    {
        let count = copy_behind(&mut self.bytes, self.len, piece);
        self.len += count;
        count
    }

    /// The bytes that were written. This counts as no call.
    pub fn held(&self) -> &[u8]
        ensures { result.now ≡ self.now.held }
    {
        &self.bytes[..self.len]
    }
}

// Copies the piece behind the first `len` bytes, as far as there is room, and answers how many it copied.
fn copy_behind(bytes: &mut [u8], len: usize, piece: &[u8]) -> usize
    requires { len ≤ length bytes.old }
    ensures count { result ≡ min (length piece.now) (length bytes.old - len) }
    ensures copied { take (len + result) bytes.new ≡ take len bytes.old ++ take result piece.now }
{
    let count = piece.len().min(bytes.len() - len);
    bytes[len..len + count].copy_from_slice(&piece[..count]);
    count
}

impl Sink for MemSink {
    ghost state = { λ s. record { held = Some s.held; faults = s.faults } };

    fn write(&mut self, piece: &[u8]) -> Result<(), Failed>
        ensures written { WasWritten (record { held = Some self.old.held; faults = self.old.faults })
            (record { held = Some self.new.held; faults = self.new.faults }) result piece.now }

        // No other call fails.
        ensures fails { IsErr result ↔
            (Contains self.old.failing (counted self.old.calls)
            ⊎ (self.old.room < length self.old.held + length piece.now)) }

        // A listed call appends nothing, and any other what fits.
        ensures listed { Contains self.old.failing (counted self.old.calls) → self.new.held ≡ self.old.held }
        ensures fits { ¬ (Contains self.old.failing (counted self.old.calls)) →
            self.new.held
            ≡ self.old.held ++ take (min (length piece.now) (self.old.room - length self.old.held)) piece.now }
        ensures counted { self.new ≡ record self.old {
          held = self.new.held;
          calls = counted self.old.calls;
          faults = self.new.faults;
        } }
    {
        self.plan.try_call()?;
        let count = self.append(piece);
        if count < piece.len() {
            self.plan.count_fault();
            return Err(Failed);
        }
        Ok(())
    }
}
