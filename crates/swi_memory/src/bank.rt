//! Banks of bytes, and the one that an address is in.
#![tactic(auto)]

ghost use Rattle.std.specs.Prelude.{◌≡◌, ◌&&◌, ◌+◌, ◌≤◌, ◌^◌, nat_le, length, IfSome, MatchOption};
ghost use Rattle.swi_memory.specs.Bus.{AreInOrder, IsSize, is_in};
ghost use Rattle.swi_memory.specs.Found.{HasAll, HasNone, IsFound};
ghost use Rattle.swi_memory.specs.Views.{area, areas};

use crate::right::Right;

/// Bytes from a base on, with rights: 4 read, 2 write, 1 execute. The first `file_size` of them came
/// from a file.
#[derive(Drop)]
pub struct Bank {
    pub base: u32,
    pub flags: u32,
    pub file_size: u32,
    pub bytes: Vec<u8>,
}

/// Whether the bank has a byte at the address.
#[inline(always)]
fn is_here(bank: &Bank, a: u32) -> bool
    requires { bank.now.base + length bank.now.bytes.items ≤ 2 ^ 32 }
    ensures { result ≡ is_in (area bank.now) a }
{
    (a.wrapping_sub(bank.base) as usize) < bank.bytes.len()
}

/// The place of the bank that has a byte at the address. The last banks, which are the stack and the
/// heap, are asked for most, and are looked at first.
#[inline(always)]
#[tactic(auto, using(crate::proofs::Looks::bank_end))]
pub fn find(banks: &[Bank], a: u32) -> Option<usize>
    requires { AreInOrder (areas banks.now) }
    ensures { MatchOption result
        (HasNone (areas banks.now) a)
        (λ i. IsFound banks.now a i) }
{
    for i in (0..banks.len()).rev() {
        if is_here(&banks[i], a) {
            return Some(i);
        }
    }
    None
}

/// Whether all `n` bytes from the address on are among the `len` bytes from `base` on.
#[inline(always)]
pub fn are_within(base: u32, len: usize, a: u32, n: u8) -> bool
    requires size { IsSize n }
    requires end { base + len ≤ 2 ^ 32 }
    ensures { result ≡ (nat_le base a && nat_le (a + n) (base + len)) }
{
    a.wrapping_sub(base) as usize + usize::from(n) <= len
}

/// The place of the bank that has all `n` bytes from the address on and grants the right; None also where
/// several banks have them. So an access asks for one bank alone, and what is rare is left to the caller.
#[inline(always)]
#[tactic(auto, using(crate::proofs::Looks::bank_end))]
pub fn find_all(banks: &[Bank], right: Right, a: u32, n: u8) -> Option<usize>
    requires order { AreInOrder (areas banks.now) }
    requires size { IsSize n }
    ensures { IfSome result (λ i. HasAll banks.now right a n i) }
{
    for i in (0..banks.len()).rev() {
        let bank = &banks[i];
        if are_within(bank.base, bank.bytes.len(), a, n) && right.grants(bank.flags) {
            return Some(i);
        }
    }
    None
}
