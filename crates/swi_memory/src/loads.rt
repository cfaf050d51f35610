//! Loads.
#![tactic(auto)]

ghost use Rattle.std.specs.Prelude.{◌≡◌, ◌+◌, ◌*◌, ◌<◌, ◌≤◌, ◌^◌, ◌&&◌, true, false, nat_lt, length, IfOk, IfSome, MatchOption, MatchResult, Ok};
ghost use Rattle.swi_memory.specs.Bus.{AreInOrder, IsSize, Read, byte_at, holds_byte, loaded, number_in};
ghost use Rattle.swi_memory.specs.Found.{HasAll};
ghost use Rattle.swi_memory.specs.Views.{areas};
ghost use Rattle.swi_memory.specs.Windows.{AreWindows};

use crate::access::Access;
use crate::bank::{Bank, find, find_all};
use crate::right::Right;
use crate::window::Windows;
use crate::windows::find_window;

/// The word that four bytes from a place on make, the lowest first. Not marked to be inlined: so it is simplified
/// to one read before it is.
fn word(bytes: &[u8], at: usize) -> u32
    requires room { at + 4 ≤ length bytes.now }
    ensures { result ≡ number_in bytes.now at 4 }
{
    u32::from_le_bytes([bytes[at], bytes[at + 1], bytes[at + 2], bytes[at + 3]])
}

/// The number that k bytes from a place on make, the lowest first.
#[inline(always)]
pub fn number(bytes: &[u8], at: usize, k: u8) -> u32
    requires size { IsSize k }
    requires room { at + k ≤ length bytes.now }
    ensures value { result ≡ number_in bytes.now at k }
    ensures small { result < 2 ^ (8 * k) }
{
    match k {
        1 => u32::from(bytes[at]),
        2 => u32::from(u16::from_le_bytes([bytes[at], bytes[at + 1]])),
        _ => word(bytes, at),
    }
}

/// The byte at the address, where it may be read.
#[tactic(auto, using(crate::proofs::Looks::read))]
fn read_byte(banks: &[Bank], a: u32) -> Option<u8>
    requires { AreInOrder (areas banks.now) }
    ensures { MatchOption result
        (holds_byte (areas banks.now) Read a ≡ false)
        (λ b. (holds_byte (areas banks.now) Read a ≡ true) × (b ≡ byte_at (areas banks.now) a)) }
{
    let Some(i) = find(banks, a) else {
        return None;
    };
    let bank = &banks[i];
    if !Right::Read.grants(bank.flags) {
        return None;
    }
    Some(bank.bytes[(a - bank.base) as usize])
}

/// The byte that is so far behind the address, where it may be read.
fn read_behind(banks: &[Bank], a: u32, by: u32) -> Result<u8, Access>
    requires { AreInOrder (areas banks.now) }
    ensures { MatchResult result
        (λ b. ((nat_lt (a + by) (2 ^ 32) && holds_byte (areas banks.now) Read (a + by)) ≡ true)
        × (b ≡ byte_at (areas banks.now) (a + by)))
        (λ _. (nat_lt (a + by) (2 ^ 32) && holds_byte (areas banks.now) Read (a + by)) ≡ false) }
{
    let Some(at) = a.checked_add(by) else {
        return Err(Access);
    };
    let Some(byte) = read_byte(banks, at) else {
        return Err(Access);
    };
    Ok(byte)
}

/// A load byte by byte, for an access that no bank has whole, or that is refused.
#[cold]
#[inline(never)]
fn load_across(banks: &[Bank], a: u32, k: u8) -> Result<u32, Access>
    requires order { AreInOrder (areas banks.now) }
    requires size { IsSize k }
    ensures value { result ≡ loaded (areas banks.now) a k }
    ensures small { IfOk result (λ v. v < 2 ^ (8 * k)) }
{
    let first = read_behind(banks, a, 0)?;
    if k == 1 {
        return Ok(u32::from(first));
    }
    let second = read_behind(banks, a, 1)?;
    if k == 2 {
        return Ok(u32::from_le_bytes([first, second, 0, 0]));
    }
    let third = read_behind(banks, a, 2)?;
    let fourth = read_behind(banks, a, 3)?;
    Ok(u32::from_le_bytes([first, second, third, fourth]))
}

/// The number of k bytes at the address, the lowest first, where the bank at the place has them.
#[inline(always)]
#[tactic(auto, using(crate::proofs::Accesses::loaded_found))]
fn load_in(banks: &[Bank], place: usize, a: u32, k: u8) -> u32
    requires order { AreInOrder (areas banks.now) }
    requires size { IsSize k }
    requires here { HasAll banks.now Read a k place }
    ensures value { Ok result ≡ loaded (areas banks.now) a k }
    ensures small { result < 2 ^ (8 * k) }
{
    let bank = &banks[place];
    number(&bank.bytes, (a - bank.base) as usize, k)
}

/// A load in no window.
// Not inlined, so that the search takes no register of the loop that a load in a window stands in; and cold, so that the loop
// saves none for it where it isn't called.
#[cold]
#[inline(never)]
fn load_elsewhere(banks: &[Bank], a: u32, k: u8) -> Result<u32, Access>
    requires order { AreInOrder (areas banks.now) }
    requires size { IsSize k }
    ensures value { result ≡ loaded (areas banks.now) a k }
    ensures small { IfOk result (λ v. v < 2 ^ (8 * k)) }
{
    match find_all(banks, Right::Read, a, k) {
        Some(place) => Ok(load_in(banks, place, a, k)),
        None => load_across(banks, a, k),
    }
}

/// The number of k bytes at the address, the lowest first, where a window has them.
#[inline(always)]
pub fn load_in_window(banks: &[Bank], windows: &Windows, a: u32, k: u8) -> Option<u32>
    requires order { AreInOrder (areas banks.now) }
    requires windows { AreWindows (areas banks.now) windows.now }
    requires size { IsSize k }
    ensures value { IfSome result (λ v. Ok v ≡ loaded (areas banks.now) a k) }
    ensures small { IfSome result (λ v. v < 2 ^ (8 * k)) }
{
    let place = find_window(windows, a, k)?;
    Some(load_in(banks, place, a, k))
}

/// The number of k bytes at the address, the lowest first.
#[inline(always)]
pub fn load(banks: &[Bank], windows: &Windows, a: u32, k: u8) -> Result<u32, Access>
    requires order { AreInOrder (areas banks.now) }
    requires windows { AreWindows (areas banks.now) windows.now }
    requires size { IsSize k }
    ensures value { result ≡ loaded (areas banks.now) a k }
    ensures small { IfOk result (λ v. v < 2 ^ (8 * k)) }
{
    match load_in_window(banks, windows, a, k) {
        Some(v) => Ok(v),
        None => load_elsewhere(banks, a, k),
    }
}
