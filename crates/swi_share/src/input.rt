//! The input of a program: bytes in memory.
#![tactic(auto)]

ghost use Rattle.std.specs.Prelude.{◌≡◌, ◌+◌, ◌-◌, ◌≤◌, ◌++◌, [], length, min, take, drop, Some};

use std::marker::Model;
use swi_outside::{Failed, Source};

/// Bytes in memory, of which so many are taken. Reading them never fails.
#[derive(Drop)]
pub(crate) struct Input {
    bytes: Vec<u8>,
    taken: usize,
}

impl Model for Input {
    ghost use Rattle.std.specs.Prelude.{◌≤◌, drop, take, length};
    ghost use Rattle.swi_share.specs.Event.{InputData};

    ghost Value = { InputData };

    ghost view = { λ s. record { given = take s.taken s.bytes.items; left = drop s.taken s.bytes.items } };

    ghost invariant = { λ s. s.taken ≤ length s.bytes.items };
}

impl Input {
    /// The bytes, of which none is taken.
    pub(crate) fn new(bytes: Vec<u8>) -> Input
        ensures { result ≡ record { given = []; left = bytes.items } }
    {
        Input { bytes, taken: 0 }
    }
}

/// Copies the bytes from `taken` on to the front of the buffer, as far as there are any and it has room.
fn copy_front(bytes: &[u8], taken: usize, buf: &mut [u8]) -> usize
    requires { taken ≤ length bytes.now }
    ensures count { result ≡ min (length buf.old) (length bytes.now - taken) }
    ensures size { length buf.new ≡ length buf.old }
    ensures bytes { drop taken bytes.now ≡ take result buf.new ++ drop (taken + result) bytes.now }
    ensures front { take (taken + result) bytes.now ≡ take taken bytes.now ++ take result buf.new }
{
    let count = buf.len().min(bytes.len() - taken);
    buf[..count].copy_from_slice(&bytes[taken..taken + count]);
    count
}

impl Source for Input {
    ghost state = { λ s. record { given = s.given; left = Some s.left; faults = 0 } };

    fn read(&mut self, buf: &mut [u8]) -> Result<usize, Failed> {
        let count = copy_front(&self.bytes, self.taken, buf);
        self.taken += count;
        Ok(count)
    }
}
