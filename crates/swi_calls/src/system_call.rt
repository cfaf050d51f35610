//! What a system call does.
#![tactic(auto)]

ghost use Rattle.std.specs.Prelude.{◌≡◌, ◌≤◌, ℕ, Some, [], IfOk, IfErr, OnErr, OnOk, MatchResult, true, false, length, ◌+◌, ◌++◌};
ghost use Rattle.std.specs.Io.KnownBytes.{Appends};
ghost use Rattle.swi_outside.specs.Causes.{HasCause, counted};
ghost use Rattle.swi_outside.specs.Devices.{streams};
ghost use Rattle.swi_outside.specs.Sink.{AppendsPrefix, WasWritten};
ghost use Rattle.swi_outside.specs.Source.{ForInput};
ghost use Rattle.swi_calls.specs.Call.{IsServed, answer_of, brk_heap, exchange_of_call, heap_by, read_room, read_served, room_by, served_by, told_by, write_answer, written};
ghost use Rattle.swi_calls.specs.Exchange.{Exchanged};
ghost use Rattle.swi_calls.specs.Moves.{ReadsInto};
ghost use Rattle.swi_calls.specs.Text.{answer_text};

use crate::moves::{read_into, write_from};
use crate::request::{Called, Request};
use crate::{CallFault, Heap};
use swi_line::Line;
use swi_memory::Bus;
use swi_outside::{Failed, Sink, Source};

pub(crate) const READ: u32 = 63;

const WRITE: u32 = 64;

const EXIT: u32 = 93;

const EXIT_GROUP: u32 = 94;

const BRK: u32 = 214;

/// -9, EBADF.
const BAD_DESCRIPTOR: u32 = u32::MAX - 8;

/// -14, EFAULT.
const BAD_ADDRESS: u32 = u32::MAX - 13;

/// -38, ENOSYS.
const UNKNOWN_CALL: u32 = u32::MAX - 37;

/// read(descriptor, buffer, count), which takes bytes of the input.
#[tactic(auto, using(swi_outside::proofs::SourceLemmas::gave_none))]
fn read<I: Source>(request: Request, bus: &mut Bus, input: &mut I) -> Result<u32, CallFault>
    ensures answered { IfOk result (λ v. ForInput (I.state input.old) (I.state input.new) (λ left rest.
        Some v ≡ (read_served request.first request.second request.third bus.old left).answer)) }
    ensures bus { OnOk result (ForInput (I.state input.old) (I.state input.new) (λ left rest.
        bus.new ≡ (read_served request.first request.second request.third bus.old left).bus)) }
    ensures input { OnOk result (ForInput (I.state input.old) (I.state input.new) (λ left rest.
        rest ≡ (read_served request.first request.second request.third bus.old left).input)) }
    ensures moved { (k : ℕ) × (k ≤ read_room request.first request.second request.third bus.old)
        × ReadsInto bus.old bus.new (I.state input.old) (I.state input.new) request.second k }
    ensures fault { IfErr result (λ fault. fault ≡ CallFault.SourceFault) }
    ensures cause { HasCause (I.state input.old).faults (I.state input.new).faults result }
    ensures once { OnErr result ((I.state input.new).faults ≡ counted (I.state input.old).faults) }
{
    if request.first != 0 {
        return Ok(BAD_DESCRIPTOR);
    }
    if !bus.writable(request.second, request.third) {
        return Ok(BAD_ADDRESS);
    }
    match read_into(bus, request.second, request.third, input) {
        Ok(count) => Ok(count),
        Err(_) => Err(CallFault::SourceFault),
    }
}

/// write(descriptor, buffer, count) to the sink of a good descriptor.
fn write<S: Sink>(request: Request, bus: &Bus, sink: &mut S) -> Result<u32, CallFault>
    ensures answered { IfOk result (λ v. v ≡ write_answer request.second request.third bus.now) }
    ensures bytes { MatchResult result
        (λ _. Appends (S.state sink.old).held (S.state sink.new).held (written request.second request.third bus.now))
        (λ _. AppendsPrefix (S.state sink.old).held (S.state sink.new).held (written request.second request.third bus.now)) }
    ensures unasked { written request.second request.third bus.now ≡ [] → S.state sink.new ≡ S.state sink.old }
    ensures fault { IfErr result (λ fault. fault ≡ CallFault.SinkFault) }
    ensures cause { HasCause (S.state sink.old).faults (S.state sink.new).faults result }
{
    if !bus.readable(request.second, request.third) {
        return Ok(BAD_ADDRESS);
    }
    write_from(bus, request.second, request.third, sink).map_err(|_| CallFault::SinkFault)?;
    Ok(request.third)
}

/// The heap after brk(a).
fn moved_heap(heap: Heap, a: u32) -> Heap
    ensures { result ≡ brk_heap a heap }
{
    if heap.base <= a && a <= heap.limit {
        Heap { now: a, ..heap }
    } else {
        heap
    }
}

/// The heap after the call.
pub(crate) fn heap_after(request: Request, heap: Heap) -> Heap
    ensures { result ≡ heap_by request heap }
{
    if request.number == BRK {
        moved_heap(heap, request.first)
    } else {
        heap
    }
}

/// Does the call, but for its line and what becomes of the registers and the break.
#[tactic(auto, using(crate::proofs::CallLemmas::nothing_gained, swi_outside::proofs::SourceLemmas::given_still, swi_outside::proofs::SourceLemmas::gave_none))]
pub(crate) fn serve<I: Source, O: Sink, E: Sink>(
    request: Request,
    bus: &mut Bus,
    heap: Heap,
    input: &mut I,
    out: &mut O,
    err: &mut E,
) -> Result<Called, CallFault>
    ensures served { IfOk result (λ called. ForInput (I.state input.old) (I.state input.new) (λ left rest.
        IsServed request (served_by request bus.old heap left) called bus.new)) }
    ensures moved { (k : ℕ) × (k ≤ room_by request bus.old)
        × ReadsInto bus.old bus.new (I.state input.old) (I.state input.new) request.second k }
    ensures devices { Exchanged (λ left. exchange_of_call (served_by request bus.old heap left))
        (streams (I.state input.old) (O.state out.old) (E.state err.old))
        (streams (I.state input.new) (O.state out.new) (E.state err.new)) result }
{
    match request.number {
        READ => Ok(Called::Returned(read(request, bus, input)?)),
        WRITE => match request.first {
            1 => Ok(Called::Returned(write(request, bus, out)?)),
            2 => Ok(Called::Returned(write(request, bus, err)?)),
            _ => Ok(Called::Returned(BAD_DESCRIPTOR)),
        },
        EXIT | EXIT_GROUP => Ok(Called::Exited(request.first)),
        BRK => Ok(Called::Returned(moved_heap(heap, request.first).now)),
        _ => Ok(Called::Returned(UNKNOWN_CALL)),
    }
}

/// Appends what a call answered, where it returned.
fn push_answer(line: &mut Line, called: Called)
    requires { length line.old ≤ 64 }
    ensures bytes { line.new ≡ line.old ++ answer_text (answer_of called) }
    ensures size { length line.new ≤ length line.old + 11 }
{
    if let Called::Returned(answer) = called {
        line.push_text(" = ");
        line.push_hex_word(answer);
    }
}

/// The line that tells of a call.
fn call_line(request: Request, called: Called) -> Line
    ensures { result ≡ told_by true request (answer_of called) }
{
    let mut line = Line::new();
    line.push_text("call ");
    line.push_decimal(u64::from(request.number));
    line.push_text(" ");
    line.push_hex_word(request.first);
    line.push_text(" ");
    line.push_hex_word(request.second);
    line.push_text(" ");
    line.push_hex_word(request.third);
    push_answer(&mut line, called);
    line.push_text("\n");
    line
}

/// Writes the line that tells of a call to the error sink, where calls are told; else the sink is not asked. After
/// Failed a prefix of the line was written.
pub(crate) fn tell<E: Sink>(
    log: bool,
    request: Request,
    called: Called,
    err: &mut E,
) -> Result<(), Failed>
    ensures written { WasWritten (E.state err.old) (E.state err.new) result (told_by log request (answer_of called)) }
    ensures unasked { log ≡ false → E.state err.new ≡ E.state err.old }
{
    if log {
        err.write(call_line(request, called).as_bytes())
    } else {
        Ok(())
    }
}
