//! Bytes between memory and the outside, in pieces, without memory of their own.
#![tactic(auto)]

ghost use Rattle.std.specs.Prelude.{◌≡◌, ◌≤◌, ◌<◌, ◌+◌, ℕ, true, Some, IfOk, OnErr, length, []};
ghost use Rattle.swi_outside.specs.Causes.{HasCause, counted};
ghost use Rattle.swi_outside.specs.Sink.{WasWritten};
ghost use Rattle.swi_memory.specs.declared.right.Right.TheVariants.{Read, Write};
ghost use Rattle.swi_memory.specs.Bus.{holds, bytes_at, with_bytes};
ghost use Rattle.swi_calls.specs.Moves.{ReadsInto};

use swi_memory::Bus;
use swi_outside::{Failed, Sink, Source};

/// The most bytes that are read or written at once.
const PIECE: usize = 256;

/// Puts a piece into memory, behind `done` of `count` bytes at `a`.
fn put_piece(bus: &mut Bus, a: u32, count: u32, done: u32, piece: &[u8])
    requires held { holds bus.old Write a count ≡ true }
    requires more { done < count }
    requires within { done + length piece.now ≤ count }
    requires short { length piece.now ≤ PIECE }
    ensures bytes { bus.new ≡ with_bytes bus.old (a + done) piece.now }
    ensures held_still { holds bus.new Write a count ≡ true }
{
    // the bytes can be written, so this doesn't fail
    let _ = bus.copy_in(a.wrapping_add(done), piece);
}

/// Puts the next piece of the input into memory, behind `done` of `count` bytes at `a`, and answers its length, which
/// is 0 at the end of the input.
fn read_piece<I: Source>(
    bus: &mut Bus,
    a: u32,
    count: u32,
    done: u32,
    input: &mut I,
) -> Result<u32, Failed>
    requires held { holds bus.old Write a count ≡ true }
    requires more { done < count }
    ensures within { IfOk result (λ k. done + k ≤ count) }
    ensures reads { IfOk result (λ k. ReadsInto bus.old bus.new (I.state input.old) (I.state input.new) (a + done) k) }
    ensures at_end { IfOk result (λ k. k ≡ 0 → (I.state input.new).left ≡ Some []) }
    ensures held_still { holds bus.new Write a count ≡ true }
    ensures failed { OnErr result (ReadsInto bus.old bus.new (I.state input.old) (I.state input.new) (a + done) 0) }
    ensures cause { HasCause (I.state input.old).faults (I.state input.new).faults result }
    ensures once { OnErr result ((I.state input.new).faults ≡ counted (I.state input.old).faults) }
{
    let mut piece = [0u8; PIECE];
    let room = (count - done).min(PIECE as u32) as usize;
    let taken = input.read(&mut piece[..room])?;
    put_piece(bus, a, count, done, &piece[..taken]);
    Ok(taken as u32)
}

/// Reads up to `count` bytes of the input into memory at `a`, and answers how many. Fewer come only at the input's end.
#[tactic(auto, using(swi_outside::proofs::SourceLemmas::gave_none))]
pub(crate) fn read_into<I: Source>(
    bus: &mut Bus,
    a: u32,
    count: u32,
    input: &mut I,
) -> Result<u32, Failed>
    requires held { holds bus.old Write a count ≡ true }
    ensures within { IfOk result (λ k. k ≤ count) }
    ensures reads { IfOk result (λ k. ReadsInto bus.old bus.new (I.state input.old) (I.state input.new) a k) }
    ensures at_end { IfOk result (λ k. k < count → (I.state input.new).left ≡ Some []) }
    ensures failed { OnErr result ((k : ℕ) × (k ≤ count)
        × ReadsInto bus.old bus.new (I.state input.old) (I.state input.new) a k) }
    ensures cause { HasCause (I.state input.old).faults (I.state input.new).faults result }
    ensures once { OnErr result ((I.state input.new).faults ≡ counted (I.state input.old).faults) }
{
    let mut done = 0;
    while done < count {
        let taken = read_piece(bus, a, count, done, input)?;
        if taken == 0 {
            return Ok(done);
        }
        done += taken;
    }
    Ok(done)
}

/// The next piece of a buffer, of which `done` bytes are written.
#[tactic(auto, using(crate::proofs::BusLemmas::pieces))]
fn piece_at(bus: &Bus, a: u32, count: u32, done: u32) -> &[u8]
    requires held { holds bus.now Read a count ≡ true }
    requires more { done < count }
    ensures some { 0 < length result.now }
    ensures within { done + length result.now ≤ count }
    ensures bytes { result.now ≡ bytes_at bus.now (a + done) (length result.now) }
{
    bus.front(a.wrapping_add(done), (count - done).min(PIECE as u32))
}

/// Writes `count` bytes of memory from `a` on to the sink, in pieces that end where a segment or region does.
pub(crate) fn write_from<S: Sink>(bus: &Bus, a: u32, count: u32, sink: &mut S) -> Result<(), Failed>
    requires held { holds bus.now Read a count ≡ true }
    ensures written { WasWritten (S.state sink.old) (S.state sink.new) result (bytes_at bus.now a count) }
    ensures unasked { bytes_at bus.now a count ≡ [] → S.state sink.new ≡ S.state sink.old }
{
    let mut done = 0;
    while done < count {
        let piece = piece_at(bus, a, count, done);
        sink.write(piece)?;
        done += piece.len() as u32;
    }
    Ok(())
}
