//! The banks of a bus at the start.
#![tactic(auto)]

ghost use Rattle.std.specs.Prelude.{◌≡◌, ◌-◌, ◌≤◌, ◌++◌, length, replicate, IfOk, OnOk};
ghost use Rattle.swi_memory.specs.BusOf.{bus_of, region, with_area};
ghost use Rattle.swi_memory.specs.Gather.{AreWhole, place_in};
ghost use Rattle.swi_memory.specs.Views.{area, areas};

use crate::bank::Bank;
use crate::layout::Layout;
use crate::segment::Segment;
use std::alloc::Global;
use swi_outside::Memory;

/// The bytes at the front, then zeros up to a size.
fn filled(alloc: Global, front: &[u8], size: u32) -> Result<Vec<u8>, Memory>
    requires { length front.now ≤ size }
    ensures { IfOk result (λ v. v.items ≡ front.now ++ replicate (size - length front.now) 0) }
{
    let Ok(mut bytes) = Vec::with_capacity(alloc, size as usize) else {
        return Err(Memory);
    };
    if bytes.extend_from_slice(front).is_err() {
        return Err(Memory);
    }
    if bytes.resize(size as usize, 0).is_err() {
        return Err(Memory);
    }
    Ok(bytes)
}

/// The place of a base in the order of the banks.
fn place_for(banks: &[Bank], base: u32) -> usize
    ensures value { result ≡ place_in (areas banks.now) base }
    ensures bound { result ≤ length banks.now }
{
    for (i, bank) in banks.iter().enumerate() {
        if base < bank.base {
            return i;
        }
    }
    banks.len()
}

/// Puts a bank at its place in the order, but leaves one without bytes out.
#[tactic(auto, using(crate::proofs::Gathered::placed_banks))]
fn place(banks: &mut Vec<Bank>, bank: Bank) -> Result<(), Memory>
    ensures { OnOk result (areas banks.new.items ≡ with_area (areas banks.old.items) (area bank)) }
{
    if bank.bytes.is_empty() {
        return Ok(());
    }
    let at = place_for(banks, bank.base);
    if banks.insert(at, bank).is_err() {
        return Err(Memory);
    }
    Ok(())
}

/// A region of zeros that can be read and written.
fn zeros(alloc: Global, base: u32, size: u32) -> Result<Bank, Memory>
    ensures { IfOk result (λ b. area b ≡ region base size) }
{
    Ok(Bank {
        base,
        flags: 6,
        file_size: 0,
        bytes: filled(alloc, &[], size)?,
    })
}

/// The segments, the heap and the stack, in ascending order of base.
pub fn gather(alloc: Global, segments: &[Segment<'_>], l: &Layout) -> Result<Vec<Bank>, Memory>
    ensures value { IfOk result (λ v. areas v.items ≡ bus_of segments.now l.now) }
    ensures whole { OnOk result (AreWhole segments.now) }
{
    let mut banks = Vec::new(alloc);
    for s in segments {
        let size = s.size();
        let bytes = s.bytes();
        let bank = Bank {
            base: s.base(),
            flags: s.flags(),
            file_size: bytes.len() as u32,
            bytes: filled(alloc, bytes, size)?,
        };
        place(&mut banks, bank)?;
    }
    place(&mut banks, zeros(alloc, l.heap, l.heap_len)?)?;
    place(&mut banks, zeros(alloc, l.stack, l.stack_len)?)?;
    Ok(banks)
}
