ghost use Rattle.std.specs.Prelude.{◌≡◌, ◌+◌, ◌<◌, ◌≤◌, ◌-◌, ◌↔◌, ◌++◌, [], length, min, take, drop, IfOk, IsErr, OnErr, Contains, Some};
ghost use Rattle.std.specs.Io.{ReadsAtMost};
ghost use Rattle.swi_outside.specs.Causes.{counted};
ghost use Rattle.swi_outside.specs.Source.{WasRead};

use crate::fault_plan::FaultPlan;
use std::marker::Model;
use swi_outside::{Failed, Source};

/// Input from memory.
#[derive(Drop)]
pub struct MemSource {
    bytes: Vec<u8>,
    taken: usize,
    plan: FaultPlan,
}

impl Model for MemSource {
    ghost use Rattle.std.specs.Prelude.{◌≤◌, drop, take, length};
    ghost use Rattle.swi_devices.specs.Stored.{StoredSource};

    ghost Value = { StoredSource };

    ghost view = { λ s. record {
      given = take s.taken s.bytes.items;
      left = drop s.taken s.bytes.items;
      failing = s.plan.failing.items;
      calls = s.plan.calls;
      faults = s.plan.faults;
    } };

    ghost invariant = { λ s. s.taken ≤ length s.bytes.items };
}

impl MemSource {
    /// A source of these bytes. The calls of `read` with the numbers in `failing`, from 1, fail, and
    /// no other.
    pub fn new(bytes: Vec<u8>, failing: Vec<u32>) -> MemSource
        ensures { result ≡ record { given = []; left = bytes.items; failing = failing.items; calls = 0; faults = 0 } }
    {
        MemSource {
            bytes,
            taken: 0,
            plan: FaultPlan::new(failing),
        }
    }

    /// The bytes that no `read` has taken. This counts as no call.
    pub fn left(&self) -> &[u8]
        ensures { result.now ≡ self.now.left }
    {
        &self.bytes[self.taken..]
    }
}

// Copies the bytes from `taken` on to the front of the buffer, as far as there are any and it has room.
fn copy_front(bytes: &[u8], taken: usize, buf: &mut [u8]) -> usize
    requires { taken ≤ length bytes.now }
    ensures count { result ≡ min (length buf.old) (length bytes.now - taken) }
    ensures bytes { drop taken bytes.now ≡ take result buf.new ++ drop (taken + result) bytes.now }
    ensures front { take (taken + result) bytes.now ≡ take taken bytes.now ++ take result buf.new }
    ensures rest { drop result buf.new ≡ drop result buf.old }
{
    let count = buf.len().min(bytes.len() - taken);
    buf[..count].copy_from_slice(&bytes[taken..taken + count]);
    count
}

impl Source for MemSource {
    ghost state = { λ s. record { given = s.given; left = Some s.left; faults = s.faults } };

    fn read(&mut self, buf: &mut [u8]) -> Result<usize, Failed>
        requires { 0 < length buf.old }
        ensures bound { ReadsAtMost result buf.new }
        ensures read { WasRead (record { given = self.old.given; left = Some self.old.left; faults = self.old.faults })
            (record { given = self.new.given; left = Some self.new.left; faults = self.new.faults }) result buf.new }

        // No other call fails, and an answer is as many bytes as there are and fit.
        ensures listed { IsErr result ↔ Contains self.old.failing (counted self.old.calls) }
        ensures count { IfOk result (λ k. k ≡ min (length buf.old) (length self.old.left)) }

        // Nothing else of the buffer changes.
        ensures rest { IfOk result (λ k. drop k buf.new ≡ drop k buf.old) }
        ensures untouched { OnErr result (buf.new ≡ buf.old) }
        ensures counted { self.new ≡ record self.old {
          given = self.new.given;
          left = self.new.left;
          calls = counted self.old.calls;
          faults = self.new.faults;
        } }
    {
        self.plan.try_call()?;
        let count = copy_front(&self.bytes, self.taken, buf);
        self.taken += count;
        Ok(count)
    }
}
