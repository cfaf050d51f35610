//! What a run's machine is, whatever fetches its words.
#![tactic(auto)]

ghost use Rattle.std.specs.Prelude.{◌≡◌, ◌<◌, ◌≤◌, ◌+◌, ◌^◌, ◌%◌, ℕ, None, IfOk, OnOk, OnErr};
ghost use Rattle.swi_calls.specs.Call.{room_of_call, second_argument};
ghost use Rattle.swi_calls.specs.Exchange.{Exchanged};
ghost use Rattle.swi_calls.specs.Flat.{ended, call_made, exchange_of, machine_of};
ghost use Rattle.swi_calls.specs.Moves.{ReadsInto};
ghost use Rattle.swi_calls.specs.StoresText.{read_into_text};
ghost use Rattle.swi_memory.specs.Bus.{fetched};
ghost use Rattle.swi_outside.specs.Devices.{streams};
ghost use Rattle.swi_outside.specs.Source.{ForInput};
ghost use Rattle.swi_program.specs.Layout.{IsLayoutOf};
ghost use Rattle.swi_program.specs.Text.{text_of, word_of, IsTextAddress};

use crate::request::{Called, Request};
use crate::system_call::{heap_after, serve, tell};
use crate::{CallFault, End, Heap};
use std::alloc::Global;
use swi_exec::{A0, FaultKind, Regs, SP};
use swi_isa::Reg;
use swi_memory::{Bus, Layout};
use swi_outside::{Memory, Sink, Source};
use swi_program::Program;

/// A machine: all of a run but its input and what was written.
#[derive(Drop)]
pub struct Machine {
    /// The address of the next instruction, or of the one that ended the run: a multiple of 4.
    pub pc: u32,
    /// The registers.
    pub regs: Regs,
    /// The memory.
    pub bus: Bus,
    /// The heap's ends and the break.
    pub heap: Heap,
    /// Whether a line on the error sink tells of each system call.
    pub log: bool,
    /// How the run has ended; None while it goes on.
    pub ending: Option<End>,
    /// The number of steps made, the one that ended the run included.
    pub steps: u64,
}

impl Machine {
    /// The machine that is about to run a program: at its entry, with the program's segments in memory, the stack pointer at
    /// the stack's end and an empty heap. `l` is the layout that `lay_out` gives the program. The only error is want of
    /// memory.
    pub fn start(alloc: Global, p: &Program<'_>, l: &Layout, log: bool) -> Result<Machine, Memory>
        requires laid_out { IsLayoutOf p.now.segments l.now }
        ensures machine { IfOk result (λ m. m ≡ machine_of p.now l.now log) }
        ensures text { IfOk result (λ m. (a : ℕ) → fetched m.bus a ≡ word_of (text_of p.now.segments) a) }
        ensures entry { IsTextAddress (text_of p.now.segments) p.now.entry }
    {
        let pc = p.entry();
        let bus = Bus::new(alloc, p.segments(), l)?;
        let mut regs = Regs::new();
        regs.set(Reg::of(SP), l.sp);
        Ok(Machine {
            pc,
            regs,
            bus,
            heap: Heap {
                base: l.heap,
                limit: l.heap + l.heap_len,
                now: l.heap,
            },
            log,
            ending: None,
            steps: 0,
        })
    }

    /// Ends the run, with this step, at the pc as it is.
    #[cold]
    #[inline(never)]
    pub fn end(&mut self, end: End)
        requires few { self.old.steps < 2 ^ 48 }
        ensures { self.new ≡ ended self.old end }
    {
        self.ending = Some(end);
        self.steps += 1;
    }

    /// Ends the run in a fault, with this step, at the pc as it is.
    #[cold]
    #[inline(never)]
    pub fn fault(&mut self, kind: FaultKind, address: u32)
        requires few { self.old.steps < 2 ^ 48 }
        ensures { self.new ≡ ended self.old (End.Faulted kind address) }
    {
        self.end(End::Faulted(kind, address));
    }

    /// The step of a system call: the call, and then the next word, or the run's end. The call's number stands in a7,
    /// its arguments in a0, a1 and a2, and its answer goes to a0. Only where fewer than 2^48 steps are made.
    ///
    /// read (63) from descriptor 0 takes bytes until the count or the input's end, and answers their number. write
    /// (64) to 1, the output, or 2, the errors, answers the count. exit and exit_group (93, 94) end the run with code
    /// a0 and change no register. brk (214) moves the break to an address from the heap's base to its limit, both
    /// included, and answers the break. Every other number answers -38. The descriptor is looked at first (-9), then
    /// the buffer (-14); with a good descriptor a count of 0 answers 0. With `log` a line on `err` tells of each call,
    /// behind what the call itself writes there. Bytes move in pieces of at most 256.
    ///
    /// SourceFault: the input failed; SinkFault: a sink did. The machine is then as it was, its steps included, but
    /// that of a read a front of the buffer may be filled. Each sink has gained a prefix of what the call writes
    /// there. A call whose input or output failed is not told.
    ///
    /// Source: Linux on RISC-V (numbers, registers, error answers); which calls are there, and the break as a mere
    /// number.
    #[inline(never)]
    #[tactic(auto, unfolding(crate::specs::Call::called))]
    pub fn call_step<I: Source, O: Sink, E: Sink>(
        &mut self,
        input: &mut I,
        out: &mut O,
        err: &mut E,
    ) -> Result<(), CallFault>
        requires few { self.old.steps < 2 ^ 48 }
        ensures machine { OnOk result (ForInput (I.state input.old) (I.state input.new) (λ left rest.
            self.new ≡ (call_made self.old left).machine)) }
        ensures counted { OnOk result (self.new.steps ≡ self.old.steps + 1) }
        ensures goes_on { OnOk result (self.new.ending ≡ None → self.new.pc ≡ (self.old.pc + 4) % 2 ^ 32) }
        ensures aligned { self.old.pc % 4 ≡ 0 → self.new.pc % 4 ≡ 0 }
        ensures stays { OnErr result (self.new ≡ record self.old { bus = self.new.bus }) }
        ensures moved { (k : ℕ) × (k ≤ room_of_call self.old.regs self.old.bus) ×
            ReadsInto self.old.bus self.new.bus (I.state input.old) (I.state input.new)
            (second_argument self.old.regs) k }
        ensures text { read_into_text self.old.regs self.old.bus ≡ None → (a : ℕ) →
            fetched self.new.bus a ≡ fetched self.old.bus a }
        ensures devices { Exchanged (λ left. exchange_of (call_made self.old left))
            (streams (I.state input.old) (O.state out.old) (E.state err.old))
            (streams (I.state input.new) (O.state out.new) (E.state err.new)) result }
    {
        let request = Request::of(&self.regs);
        let called = serve(request, &mut self.bus, self.heap, input, out, err)?;
        if tell(self.log, request, called, err).is_err() {
            return Err(CallFault::SinkFault);
        }
        self.heap = heap_after(request, self.heap);
        match called {
            Called::Returned(answer) => {
                self.regs.set(Reg::of(A0), answer);
                self.pc = self.pc.wrapping_add(4);
                self.steps += 1;
            }
            Called::Exited(code) => self.end(End::Exited(code)),
        }
        Ok(())
    }
}
