//! Stores.
#![tactic(auto)]

ghost use Rattle.std.specs.Prelude.{◌≡◌, ◌+◌, ◌≤◌, length, true};
ghost use Rattle.std.proofs.lemmas.List.Edits.{sets};
ghost use Rattle.swi_memory.specs.Bus.{AreInOrder, IsSize, Write, holds, lets_store, lowest, stored, with_byte};
ghost use Rattle.swi_memory.specs.Found.{HasAll};
ghost use Rattle.swi_memory.specs.TextAt.{IsText};
ghost use Rattle.swi_memory.specs.Views.{areas};
ghost use Rattle.swi_memory.specs.Windows.{AreWindows};
ghost use Rattle.swi_memory.specs.Writes.{Writes};

use crate::access::Access;
use crate::bank::{Bank, find, find_all};
use crate::ranges::are_held;
use crate::right::Right;
use crate::text::{Text, is_touched};
use crate::window::Windows;
use crate::windows::find_window;

/// Puts the lowest k bytes of v from a place on, the lowest first.
#[inline(always)]
fn put(bytes: &mut [u8], at: usize, k: u8, v: u32)
    requires size { IsSize k }
    requires room { at + k ≤ length bytes.old }
    ensures { bytes.new ≡ sets bytes.old at (lowest k v) }
{
    let [first, second, third, fourth] = v.to_le_bytes();
    bytes[at] = first;
    if k == 1 {
        return;
    }
    bytes[at + 1] = second;
    if k == 2 {
        return;
    }
    bytes[at + 2] = third;
    bytes[at + 3] = fourth;
}

/// Changes the byte at the address, where a bank has it.
#[tactic(auto, using(crate::proofs::Looks::none_put))]
pub fn write_byte(banks: &mut [Bank], a: u32, b: u8)
    requires { AreInOrder (areas banks.old) }
    ensures value { areas banks.new ≡ with_byte (areas banks.old) a b }
    ensures order { AreInOrder (areas banks.new) }
{
    if let Some(i) = find(banks, a) {
        let bank = &mut banks[i];
        bank.bytes[(a - bank.base) as usize] = b;
    }
}

/// A store byte by byte, for an access that no bank has whole, or that is refused.
#[cold]
#[inline(never)]
fn store_across(banks: &mut [Bank], a: u32, k: u8, v: u32) -> Result<(), Access>
    requires order { AreInOrder (areas banks.old) }
    requires size { IsSize k }
    ensures { Writes (holds (areas banks.old) Write a k)
        (areas banks.old) (stored (areas banks.old) a k v) (areas banks.new) result }
{
    if !are_held(banks, Right::Write, a, u32::from(k)) {
        return Err(Access);
    }
    let [first, second, third, fourth] = v.to_le_bytes();
    write_byte(banks, a, first);
    if k == 1 {
        return Ok(());
    }
    write_byte(banks, a + 1, second);
    if k == 2 {
        return Ok(());
    }
    write_byte(banks, a + 2, third);
    write_byte(banks, a + 3, fourth);
    Ok(())
}

/// Puts the lowest k bytes of v at the address, the lowest first, where the bank at the place has them.
#[inline(always)]
fn store_in(banks: &mut [Bank], place: usize, a: u32, k: u8, v: u32)
    requires order { AreInOrder (areas banks.old) }
    requires size { IsSize k }
    requires here { HasAll banks.old Write a k place }
    ensures granted { holds (areas banks.old) Write a k ≡ true }
    ensures bytes { areas banks.new ≡ stored (areas banks.old) a k v }
{
    let bank = &mut banks[place];
    put(&mut bank.bytes, (a - bank.base) as usize, k, v);
}

/// A store in no window.
// Not inlined, so that the search takes no register of the loop that a store in a window stands in.
#[inline(never)]
fn store_elsewhere(banks: &mut [Bank], a: u32, k: u8, v: u32) -> Result<(), Access>
    requires order { AreInOrder (areas banks.old) }
    requires size { IsSize k }
    ensures { Writes (holds (areas banks.old) Write a k)
        (areas banks.old) (stored (areas banks.old) a k v) (areas banks.new) result }
{
    let Some(place) = find_all(banks, Right::Write, a, k) else {
        return store_across(banks, a, k, v);
    };
    store_in(banks, place, a, k, v);
    Ok(())
}

/// Puts the lowest k bytes of v at the address, the lowest first. A refusal changes nothing.
#[inline(always)]
pub fn store(banks: &mut [Bank], windows: &Windows, a: u32, k: u8, v: u32) -> Result<(), Access>
    requires order { AreInOrder (areas banks.old) }
    requires windows { AreWindows (areas banks.old) windows.now }
    requires size { IsSize k }
    ensures { Writes (holds (areas banks.old) Write a k)
        (areas banks.old) (stored (areas banks.old) a k v) (areas banks.new) result }
{
    let Some(place) = find_window(windows, a, k) else {
        return store_elsewhere(banks, a, k, v);
    };
    store_in(banks, place, a, k, v);
    Ok(())
}

/// A store in no window, where no byte is a text word's.
// Cold, as `load_elsewhere`.
#[cold]
#[inline(never)]
fn store_elsewhere_beside_text(
    banks: &mut [Bank],
    text: &Text,
    a: u32,
    k: u8,
    v: u32,
) -> Result<(), Access>
    requires order { AreInOrder (areas banks.old) }
    requires text { IsText (areas banks.old) text.now }
    requires size { IsSize k }
    ensures { Writes (lets_store (areas banks.old) a k)
        (areas banks.old) (stored (areas banks.old) a k v) (areas banks.new) result }
{
    if is_touched(text, a, u32::from(k)) {
        return Err(Access);
    }
    store_elsewhere(banks, a, k, v)
}

/// Puts the lowest k bytes of v at the address where none is a text word's, the lowest first. A refusal changes nothing.
#[inline(always)]
pub fn store_beside_text(
    banks: &mut [Bank],
    windows: &Windows,
    text: &Text,
    a: u32,
    k: u8,
    v: u32,
) -> Result<(), Access>
    requires order { AreInOrder (areas banks.old) }
    requires windows { AreWindows (areas banks.old) windows.now }
    requires text { IsText (areas banks.old) text.now }
    requires size { IsSize k }
    ensures { Writes (lets_store (areas banks.old) a k)
        (areas banks.old) (stored (areas banks.old) a k v) (areas banks.new) result }
{
    let Some(place) = find_window(windows, a, k) else {
        return store_elsewhere_beside_text(banks, text, a, k, v);
    };
    store_in(banks, place, a, k, v);
    Ok(())
}
