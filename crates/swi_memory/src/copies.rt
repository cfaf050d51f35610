//! Copies of pieces into memory.
#![tactic(auto)]

ghost use Rattle.std.specs.Prelude.{◌≡◌, ◌+◌, ◌≤◌, ◌^◌, ◌++◌, length, take, drop};
ghost use Rattle.swi_memory.specs.Bus.{AreInOrder, Write, holds, with_bytes};
ghost use Rattle.swi_memory.specs.Views.{areas};
ghost use Rattle.swi_memory.specs.Writes.{Writes};

use crate::access::Access;
use crate::bank::{Bank, find};
use crate::ranges::are_held;
use crate::right::Right;
use crate::stores::write_byte;

/// Puts a piece from a place on.
fn put_piece(bytes: &mut [u8], at: usize, piece: &[u8])
    requires { at + length piece.now ≤ length bytes.old }
    ensures { bytes.new ≡ take at bytes.old ++ piece.now ++ drop (at + length piece.now) bytes.old }
{
    bytes[at..at + piece.len()].copy_from_slice(piece);
}

/// A copy byte by byte, for a piece that reaches past the end of its bank.
#[cold]
#[inline(never)]
fn copy_across(banks: &mut [Bank], a: u32, piece: &[u8]) -> Result<(), Access>
    requires order { AreInOrder (areas banks.old) }
    requires short { length piece.now ≤ 2 ^ 26 }
    ensures { Writes (holds (areas banks.old) Write a (length piece.now))
        (areas banks.old) (with_bytes (areas banks.old) a piece.now) (areas banks.new) result }
{
    if !are_held(banks, Right::Write, a, piece.len() as u32) {
        return Err(Access);
    }
    for (i, b) in piece.iter().enumerate() {
        write_byte(banks, a.wrapping_add(i as u32), *b);
    }
    Ok(())
}

/// Puts the bytes from the address on. A refusal changes nothing.
#[tactic(auto, using(crate::proofs::Accesses::holds_none))]
pub fn copy_in(banks: &mut [Bank], a: u32, piece: &[u8]) -> Result<(), Access>
    requires order { AreInOrder (areas banks.old) }
    requires short { length piece.now ≤ 2 ^ 26 }
    ensures { Writes (holds (areas banks.old) Write a (length piece.now))
        (areas banks.old) (with_bytes (areas banks.old) a piece.now) (areas banks.new) result }
{
    if piece.is_empty() {
        return Ok(());
    }
    let Some(i) = find(banks, a) else {
        return Err(Access);
    };
    let bank = &mut banks[i];
    let at = (a - bank.base) as usize;
    if bank.bytes.len() - at < piece.len() {
        return copy_across(banks, a, piece);
    }
    if Right::Write.grants(bank.flags) {
        put_piece(&mut bank.bytes, at, piece);
        Ok(())
    } else {
        Err(Access)
    }
}
