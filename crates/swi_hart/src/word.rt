//! Words that are executed at their place in the ram.
#![tactic(auto)]

ghost use Rattle.std.specs.Prelude.{◌≡◌, ◌+◌, ◌^◌, ◌<◌, ℕ, List, None, Some, true, false, OnOk};
ghost use Rattle.swi_calls.specs.StoresText.{text_store_of};
ghost use Rattle.swi_calls.specs.Flat.{ended};
ghost use Rattle.swi_hart.specs.Hart.{word_stepped, call_stepped};
ghost use Rattle.swi_outside.specs.Devices.{streams};
ghost use Rattle.swi_outside.specs.Told.{AsTold};
ghost use Rattle.swi_outside.specs.Source.{HasGiven};
ghost use Rattle.swi_hart.specs.Calling.{Called as CalledAt, Moved, QuietWord, ReadyAt, WordExecuted, WordStepped};

use crate::hart::{CodePlace, Hart, Role, Stage};
use swi_calls::{CallFault, End, text_store};
use swi_exec::{Done, FaultKind, exec};
use swi_isa::Instr;
use swi_outside::{Sink, Source};

/// Ends the run, with a step of the machine.
#[cold]
#[inline(never)]
pub(crate) fn end(hart: &mut Hart, end: End)
    requires few { hart.old.machine.steps < 2 ^ 48 }
    requires count { hart.old.count < 2 ^ 56 }
    ensures { hart.new ≡ record hart.old { machine = ended hart.old.machine end; count = hart.old.count + 1 } }
{
    hart.machine.end(end);
    hart.count += 1;
}

/// Ends the run before a store into the text.
#[cold]
#[inline(never)]
fn stop(hart: &mut Hart, address: u32)
    requires count { hart.old.count < 2 ^ 56 }
    ensures { hart.new ≡ record hart.old {
      machine = record hart.old.machine {
        ending = Some
            (End.StoreText address);
      };
      count = hart.old.count + 1;
    } }
{
    hart.machine.ending = Some(End::StoreText(address));
    hart.count += 1;
}

/// Executes a word that is no exit, by its role. Answers whether a system call is to be made, and then nothing has
/// changed.
#[inline(always)]
#[tactic(auto, using(crate::proofs::Calls::call_is))]
pub(crate) fn run_word(hart: &mut Hart, at: CodePlace, x: &Instr, role: Role) -> bool
    requires { ReadyAt hart.old at.index at.block at.offset at.stage }
    ensures asks { result ≡ true → (x.now ≡ Instr.Ecall)
        × (text_store_of x.now hart.old.machine.regs hart.old.machine.bus ≡ None) }
    ensures called { result ≡ true → (hart.new ≡ hart.old) × ((input : List ℕ) →
        word_stepped role at.index at.block at.offset at.stage hart.old.machine x.now input
        ≡ call_stepped at.index at.block at.offset at.stage hart.old.machine input) }
    ensures ran { result ≡ false → QuietWord
        (λ input. word_stepped role at.index at.block at.offset at.stage hart.old.machine x.now input)
        hart.old hart.new }
{
    let i = at.index;
    match role {
        Role::Lead(next) => {
            exec(x, 4 * i, &mut hart.machine.regs, &mut hart.machine.bus);
            hart.control.advance(at, 1, next);
            hart.count += 1;
            false
        }
        Role::Over => {
            over_word(hart, at, x);
            false
        }
        Role::Whole => {
            if let Some(address) = text_store(x, &hart.machine.regs, &hart.machine.bus) {
                stop(hart, address);
                return false;
            }
            match exec(x, 4 * i, &mut hart.machine.regs, &mut hart.machine.bus) {
                Done::Next(_) => {
                    hart.control.advance(at, 1, Stage::Start);
                    hart.machine.pc = hart.machine.pc.wrapping_add(4);
                    hart.machine.steps += 1;
                    hart.count += 1;
                    false
                }
                Done::Call => true,
                Done::Break => {
                    let pc = hart.machine.pc;
                    end(hart, End::Faulted(FaultKind::Break, pc));
                    false
                }
                Done::Fault(kind, address) => {
                    end(hart, End::Faulted(kind, address));
                    false
                }
            }
        }
    }
}

/// Executes a branch, which stands over an exit.
#[inline(always)]
fn over_word(hart: &mut Hart, at: CodePlace, x: &Instr)
    requires { ReadyAt hart.old at.index at.block at.offset at.stage }
    ensures { QuietWord (λ input. word_stepped Role.Over at.index at.block at.offset at.stage hart.old.machine x.now input)
        hart.old hart.new }
{
    let i = at.index;
    let done = exec(x, 4 * i, &mut hart.machine.regs, &mut hart.machine.bus);
    if done == Done::Next(4 * i + 12) {
        hart.control.advance(at, 3, Stage::Start);
        hart.machine.pc = hart.machine.pc.wrapping_add(4);
        hart.machine.steps += 1;
    } else {
        hart.control.advance(at, 1, Stage::Leave);
    }
    hart.count += 1;
}

/// The step of a system call.
#[inline(never)]
pub(crate) fn call_word<I: Source, O: Sink, E: Sink>(
    hart: &mut Hart,
    at: CodePlace,
    input: &mut I,
    out: &mut O,
    err: &mut E,
) -> Result<(), CallFault>
    requires { ReadyAt hart.old at.index at.block at.offset at.stage }
    ensures gave { HasGiven (I.state input.old) (I.state input.new) }
    ensures word { AsTold (I.state input.old) (I.state input.new) (λ old new.
        WordExecuted (λ left. call_stepped at.index at.block at.offset at.stage hart.old.machine left) hart.old hart.new
        (streams old (O.state out.old) (E.state err.old))
        (streams new (O.state out.new) (E.state err.new)) result) }
    ensures goes { OnOk result (CalledAt at.index at.block at.offset at.stage hart.old hart.new) }
    ensures moved { AsTold (I.state input.old) (I.state input.new) (λ old new. Moved hart.old.machine hart.new.machine.bus old.left new.left) }
{
    hart.machine.call_step(input, out, err)?;
    if hart.machine.ending.is_none() {
        hart.control.advance(at, 1, Stage::Start);
    }
    hart.count += 1;
    Ok(())
}

/// A step at a word that is no exit, by its role.
#[inline(always)]
pub(crate) fn word_step<I: Source, O: Sink, E: Sink>(
    hart: &mut Hart,
    at: CodePlace,
    x: &Instr,
    role: Role,
    input: &mut I,
    out: &mut O,
    err: &mut E,
) -> Result<(), CallFault>
    requires { ReadyAt hart.old at.index at.block at.offset at.stage }
    ensures gave { HasGiven (I.state input.old) (I.state input.new) }
    ensures word { AsTold (I.state input.old) (I.state input.new) (λ old new. WordStepped x.now at.index at.block at.offset at.stage
        (λ left. word_stepped role at.index at.block at.offset at.stage hart.old.machine x.now left) hart.old hart.new
        (streams old (O.state out.old) (E.state err.old))
        (streams new (O.state out.new) (E.state err.new)) result) }
{
    if run_word(hart, at, x, role) {
        call_word(hart, CodePlace { ..at }, input, out, err)
    } else {
        Ok(())
    }
}
