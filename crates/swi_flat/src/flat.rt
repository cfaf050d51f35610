//! One step, and many.
#![tactic(auto)]

ghost use Rattle.std.specs.Prelude.{◌≡◌, ◌<◌, ◌≤◌, ◌+◌, ◌*◌, ◌^◌, ℕ, None, false, is_err, IfOk, IfSome, OnOk, OnErr};
ghost use Rattle.swi_calls.specs.Call.{room_of_call, second_argument};
ghost use Rattle.swi_calls.specs.Exchange.{Exchanged};
ghost use Rattle.swi_calls.specs.Flat.{made, exchange_of, machine_of};
ghost use Rattle.swi_calls.specs.Moves.{ReadsInto};
ghost use Rattle.swi_flat.specs.Coasted.{HasCoasted};
ghost use Rattle.swi_flat.specs.FlatData.{unfailed, stopped};
ghost use Rattle.swi_flat.specs.Ran.{Ran};
ghost use Rattle.swi_memory.specs.Bus.{fetched};
ghost use Rattle.swi_outside.specs.Devices.{streams};
ghost use Rattle.swi_outside.specs.Source.{ForInput};
ghost use Rattle.swi_program.specs.Layout.{IsLayoutOf};
ghost use Rattle.swi_program.specs.Text.{text_of, word_of};

use crate::advance::advance;
use crate::coast::{Coasted, Gate, coast};
use std::alloc::Global;
use std::marker::Model;
use swi_calls::{CallFault, End, Heap, Machine, text_store};
use swi_exec::{Done, FaultKind, Regs, exec, text_access};
use swi_isa::decode;
use swi_memory::{Bus, Layout};
use swi_micro::{Decoded, forget, forget_all};
use swi_outside::{Memory, Sink, Source};
use swi_program::Program;

/// A machine that executes the words of a program where they stand.
#[derive(Drop)]
pub struct Flat {
    machine: Machine,
    failed: bool,
    /// The micro-ops of the text, beside the words in the machine's memory.
    decoded: Decoded,
}

impl Model for Flat {
    ghost use Rattle.swi_flat.specs.FlatData.{FlatData};
    ghost use Rattle.swi_flat.specs.FlatView.{IsFlat};

    ghost Value = { FlatData };

    ghost view = { λ f. record { machine = f.machine; failed = f.failed } };

    ghost invariant = { IsFlat };
}

impl Flat {
    /// The machine of a program before its first step, over the memory that the program's layout gives. With `log`
    /// each system call is told in a line on the error sink. `l` is the layout that `lay_out` gives `p`, with the
    /// lengths that `l` holds.
    ///
    /// The only error is want of memory. All the memory of a run is taken here.
    pub fn start(alloc: Global, p: &Program<'_>, l: &Layout, log: bool) -> Result<Flat, Memory>
        requires laid_out { IsLayoutOf p.now.segments l.now }
        ensures machine { IfOk result (λ f. f ≡ unfailed (machine_of p.now l.now log)) }
        ensures text { IfOk result (λ f. (a : ℕ) → fetched f.machine.bus a ≡ word_of (text_of p.now.segments) a) }
    {
        let machine = Machine::start(alloc, p, l, log)?;
        let decoded = Decoded::new(alloc, machine.bus.text_range())?;
        Ok(Flat {
            machine,
            failed: false,
            decoded,
        })
    }

    /// How the run has ended; None while it goes on.
    pub fn ending(&self) -> Option<End>
        ensures { result ≡ self.now.machine.ending }
    {
        self.machine.ending
    }

    /// Whether a device failed in the last step. No further step can be made then.
    pub fn failed(&self) -> bool
        ensures { result ≡ self.now.failed }
    {
        self.failed
    }

    /// The address of the next instruction, or of the one that ended the run.
    pub fn pc(&self) -> u32
        ensures { result ≡ self.now.machine.pc }
    {
        self.machine.pc
    }

    /// The number of steps made, the one that ended the run included.
    pub fn steps(&self) -> u64
        ensures { result ≡ self.now.machine.steps }
    {
        self.machine.steps
    }

    /// The registers.
    pub fn regs(&self) -> &Regs
        ensures { result.now ≡ self.now.machine.regs }
    {
        &self.machine.regs
    }

    /// The memory.
    pub fn bus(&self) -> &Bus
        ensures { result.now ≡ self.now.machine.bus }
    {
        &self.machine.bus
    }

    /// The heap's ends and the break.
    pub fn heap(&self) -> Heap
        ensures { result ≡ self.now.machine.heap }
    {
        self.machine.heap
    }

    /// One step: the word at pc is fetched, decoded and executed. Only where the run has not ended, no device has
    /// failed, and fewer than 2^48 steps are made.
    ///
    /// Afterwards the machine is one step further, or a device has failed in a system call. Then `failed` is true,
    /// and the machine is as it was, its steps included, but that of a read a front of the buffer may be filled.
    #[tactic(auto, unfolding(swi_calls::specs::Flat::made), using(swi_outside::proofs::SourceLemmas::given_still, swi_outside::proofs::SourceLemmas::rest_is))]
    pub fn step<I: Source, O: Sink, E: Sink>(
        &mut self,
        input: &mut I,
        out: &mut O,
        err: &mut E,
    ) -> Result<(), CallFault>
        requires going { self.old.machine.ending ≡ None }
        requires few { self.old.machine.steps < 2 ^ 48 }
        requires unfailed { self.old.failed ≡ false }
        ensures machine { OnOk result (ForInput (I.state input.old) (I.state input.new) (λ left rest.
            self.new ≡ unfailed (made self.old.machine left).machine)) }
        ensures counted { OnOk result (self.new.machine.steps ≡ self.old.machine.steps + 1) }
        ensures failed { self.new.failed ≡ is_err result }
        ensures stays { OnErr result (self.new ≡ stopped self.old.machine self.new.machine.bus) }
        ensures moved { OnErr result ((k : ℕ) × (k ≤ room_of_call self.old.machine.regs self.old.machine.bus) ×
            ReadsInto self.old.machine.bus self.new.machine.bus (I.state input.old) (I.state input.new)
            (second_argument self.old.machine.regs) k) }
        ensures devices { Exchanged (λ left. exchange_of (made self.old.machine left))
            (streams (I.state input.old) (O.state out.old) (E.state err.old))
            (streams (I.state input.new) (O.state out.new) (E.state err.new)) result }
    {
        let machine = &mut self.machine;
        let pc = machine.pc;
        let Some(word) = machine.bus.fetch(pc) else {
            machine.fault(FaultKind::FetchAccess, pc);
            return Ok(());
        };
        let Some(instruction) = decode(word) else {
            machine.fault(FaultKind::Illegal, pc);
            return Ok(());
        };
        let stored = text_access(&instruction, &machine.regs, &machine.bus);
        match exec(&instruction, pc, &mut machine.regs, &mut machine.bus) {
            Done::Next(next) => {
                machine.pc = next;
                machine.steps += 1;
                if let Some(a) = stored {
                    forget(self.decoded.ops.as_mut_slice(), &self.decoded.range, a);
                }
                Ok(())
            }
            Done::Call => {
                let reads = text_store(&instruction, &machine.regs, &machine.bus);
                if reads.is_some() {
                    forget_all(self.decoded.ops.as_mut_slice());
                }
                let result = machine.call_step(input, out, err);
                self.failed = result.is_err();
                result
            }
            Done::Break => {
                machine.fault(FaultKind::Break, pc);
                Ok(())
            }
            Done::Fault(kind, address) => {
                machine.fault(kind, address);
                Ok(())
            }
        }
    }

    /// Steps until `limit` steps are made since the start, or the run has ended, or a device fails. `limit` is from
    /// `steps()` to 2^48; no device has failed before.
    ///
    /// After a failure the run has not ended, and `steps` is below `limit`. Where the input tells its bytes, the
    /// machine is where the steps made have brought it: the step that failed left it as it was, but that at a read a
    /// front of the buffer may be filled, with just the bytes that were taken from the input. Each sink gained what
    /// the steps made write, and a prefix of what the step that failed writes; where that is nothing, the sink was
    /// not asked.
    pub fn run<I: Source, O: Sink, E: Sink>(
        &mut self,
        limit: u64,
        input: &mut I,
        out: &mut O,
        err: &mut E,
    ) -> Result<(), CallFault>
        requires within { self.old.machine.steps ≤ limit }
        requires few { limit ≤ 2 ^ 48 }
        requires unfailed { self.old.failed ≡ false }
        ensures { Ran self.old.machine limit self.new
            (streams (I.state input.old) (O.state out.old) (E.state err.old))
            (streams (I.state input.new) (O.state out.new) (E.state err.new)) result }
    {
        while self.machine.steps < limit && self.machine.ending.is_none() {
            advance(&mut self.machine, &mut self.decoded, limit);
            if self.machine.steps < limit {
                self.step(input, out, err)?;
            }
        }
        Ok(())
    }
    /// Steps until `limit` steps are made since the start, as far as gates let them go on, and one more: the gates of the
    /// text's words from `base` on, and one behind them. None, and nothing has changed, where they are not as many or
    /// begin elsewhere, or no text word stands at the pc. A step is not made that asks for a device, ends the run or stores
    /// into the text; one that leads out of it, or stands where no step has been made, may be left too. `limit` is from
    /// `steps()` to 2^48.
    #[inline(always)]
    pub fn coast(
        &mut self,
        limit: u64,
        base: u32,
        gates: &Vec<Gate>,
        masks: &[u64],
        pass: u64,
    ) -> Option<Coasted>
        requires within { self.old.machine.steps ≤ limit }
        requires few { limit ≤ 2 ^ 48 }
        ensures none { result ≡ None → self.new ≡ self.old }
        ensures coasted { IfSome result (λ c. HasCoasted (record { base = base; words = gates.now.items; masks = masks.now; pass = pass }) self.old.machine self.new.machine c) }
        ensures few { IfSome result (λ c. c.paid ≤ 2 * c.steps) }
        ensures within { self.new.machine.steps ≤ limit }
        ensures failed { self.new.failed ≡ self.old.failed }
    {
        coast(
            &mut self.machine,
            &mut self.decoded,
            limit,
            base,
            gates,
            masks,
            pass,
        )
    }
}
