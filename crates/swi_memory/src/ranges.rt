//! Ranges of bytes.
#![tactic(auto)]

ghost use Rattle.std.specs.Prelude.{◌≡◌, ◌<◌, true};
ghost use Rattle.swi_memory.specs.Bus.{AreInOrder, Read, holds};
ghost use Rattle.swi_memory.specs.Found.{Front};
ghost use Rattle.swi_memory.specs.Views.{areas};

use crate::bank::{Bank, find};
use crate::right::Right;

/// Whether each of n bytes from the address on is in a bank with this right. One step for each bank.
#[tactic(auto, using(crate::proofs::Accesses::held))]
pub fn are_held(banks: &[Bank], right: Right, a: u32, n: u32) -> bool
    requires { AreInOrder (areas banks.now) }
    ensures { result ≡ holds (areas banks.now) right a n }
{
    let mut at = a;
    let mut left = n;
    while left > 0 {
        let Some(i) = find(banks, at) else {
            return false;
        };
        let bank = &banks[i];
        if !right.grants(bank.flags) {
            return false;
        }
        let rest = bank.bytes.len() - (at - bank.base) as usize;
        if left as usize <= rest {
            return true;
        }
        let Some(next) = at.checked_add(rest as u32) else {
            return false;
        };
        at = next;
        left -= rest as u32;
    }
    true
}

/// The bytes from the address on, at most n of them, that stand in one bank.
#[tactic(auto, using(crate::proofs::Accesses::holds_none))]
pub fn front(banks: &[Bank], a: u32, n: u32) -> &[u8]
    requires order { AreInOrder (areas banks.now) }
    requires some { 0 < n }
    requires readable { holds (areas banks.now) Read a n ≡ true }
    ensures { Front (areas banks.now) a n result.now }
{
    let Some(i) = find(banks, a) else {
        return &[];
    };
    let bank = &banks[i];
    let rest = &bank.bytes[(a - bank.base) as usize..];
    let most = n as usize;
    if most < rest.len() {
        &rest[..most]
    } else {
        rest
    }
}
