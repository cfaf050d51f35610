//! A hart, which runs out of a cache ram.
#![tactic(auto)]

ghost use Rattle.std.specs.Prelude.{◌≡◌, ◌<◌, ◌^◌, ℕ, None, IfOk};
ghost use Rattle.swi_memory.specs.Bus.{fetched};
ghost use Rattle.swi_calls.specs.Flat.{machine_of};
ghost use Rattle.swi_program.specs.Layout.{IsLayoutOf};
ghost use Rattle.swi_program.specs.Text.{text_of, word_of, IsTextAddress};
ghost use Rattle.swi_hart.specs.Hart.{unbooted, index_of, place_under, is_between};

use crate::position::Position;
use std::alloc::Global;
use std::marker::Model;
use swi_calls::{End, Heap, Machine};
use swi_exec::Regs;
use swi_memory::{Bus, Layout};
use swi_outside::Memory;
use swi_program::Program;

/// Which word of what stands for an instruction is under control.
#[derive(Clone, Copy, Debug, PartialEq, Eq)]
pub enum Stage {
    /// The first one, or the exit behind a block's last text word.
    Start,
    /// The ADDI behind the LUI of an AUIPC.
    Low,
    /// The ADDI behind the LUI of a JAL's return address.
    Return,
    /// The exit of a JAL behind its return address, or of a branch that is taken.
    Leave,
}

/// Where the hart is.
#[derive(Clone, Copy, Debug, PartialEq, Eq)]
pub enum Control {
    /// At a word of the ram, with its index, its block, and its offset there.
    At(u32, u32, u32, Stage),
    /// At an address where no text word stands.
    Outside,
}

/// A word under control, as `Control::At` tells it.
#[derive(Clone, Copy)]
pub struct CodePlace {
    /// In the ram.
    pub index: u32,
    pub block: u32,
    /// In the block.
    pub offset: u32,
    pub stage: Stage,
}

/// What an executed word is of its instruction.
#[derive(Clone, Copy, Debug, PartialEq, Eq)]
pub enum Role {
    /// It leads to the next word of this stage.
    Lead(Stage),
    /// It completes the instruction.
    Whole,
    /// It is the branch over an exit.
    Over,
}

/// What an exit is for.
#[derive(Clone, Copy, Debug, PartialEq, Eq)]
pub enum ExitKind {
    Direct,
    Misaligned,
    Trap,
    Indirect,
}

/// A machine that runs out of a cache ram, but for its service. What a step or a run needs to hold of the fields is asked
/// by its contract.
#[derive(Drop)]
pub struct Hart {
    pub control: Position,
    /// With the original address as its pc, and the original steps.
    pub machine: Machine,
    /// The number of machine instructions made, that of the boot included.
    pub count: u64,
    /// Whether a device failed in the last step.
    pub failed: bool,
    /// Whether control has entered the ram, or found no text word to enter.
    pub booted: bool,
}

impl Model for Hart {
    ghost use Rattle.swi_hart.specs.Hart.{HartData};

    ghost Value = { HartData };

    ghost view = { λ h. record {
      control = h.control;
      machine = h.machine;
      count = h.count;
      failed = h.failed;
      booted = h.booted;
    } };
}

impl Hart {
    /// The hart of a program before its first step, over the memory that the program's layout gives; it is not booted.
    /// With `log` each system call is told in a line on the error sink. `l` is the layout that `lay_out` gives `p`,
    /// with the lengths that `l` holds.
    ///
    /// The only error is want of memory. All the memory of a run is taken here, but for the service's.
    pub fn start(alloc: Global, p: &Program<'_>, l: &Layout, log: bool) -> Result<Hart, Memory>
        requires laid_out { IsLayoutOf p.now.segments l.now }
        ensures hart { IfOk result (λ h. h ≡ unbooted (machine_of p.now l.now log)) }
        ensures text { IfOk result (λ h. (a : ℕ) → fetched h.machine.bus a ≡ word_of (text_of p.now.segments) a) }
        ensures entry { IsTextAddress (text_of p.now.segments) p.now.entry }
    {
        let machine = Machine::start(alloc, p, l, log)?;
        Ok(Hart {
            control: Position::outside(),
            machine,
            count: 0,
            failed: false,
            booted: false,
        })
    }

    /// How the run has ended; None while it goes on.
    pub fn ending(&self) -> Option<End>
        ensures { result ≡ self.now.machine.ending }
    {
        self.machine.ending
    }

    /// Whether a device failed in the last step. No further step can be made then.
    pub fn failed(&self) -> bool
        ensures { result ≡ self.now.failed }
    {
        self.failed
    }

    /// The number of original steps made, one that ended the run included, but for a store into the text.
    pub fn steps(&self) -> u64
        ensures { result ≡ self.now.machine.steps }
    {
        self.machine.steps
    }

    /// The registers.
    pub fn regs(&self) -> &Regs
        ensures { result.now ≡ self.now.machine.regs }
    {
        &self.machine.regs
    }

    /// The memory.
    pub fn bus(&self) -> &Bus
        ensures { result.now ≡ self.now.machine.bus }
    {
        &self.machine.bus
    }

    /// The heap's ends and the break.
    pub fn heap(&self) -> Heap
        ensures { result ≡ self.now.machine.heap }
    {
        self.machine.heap
    }

    /// The original address of the instruction under control, or of the one that ended the run.
    #[inline(always)]
    pub fn origin_pc(&self) -> u32
        ensures value { result ≡ self.now.machine.pc }
        ensures word { self.now.machine.pc < 2 ^ 32 }
    {
        self.machine.pc
    }

    /// The number of machine instructions made, that of the boot included.
    pub fn machine_steps(&self) -> u64
        ensures { result ≡ self.now.count }
    {
        self.count
    }

    /// The index in the ram of the word under control; None exactly where the hart is not booted, has an ending, or
    /// stands where no text word is.
    pub fn at(&self) -> Option<u32>
        ensures { result ≡ index_of self.now.machine.ending self.now.control }
    {
        match (self.machine.ending, self.control.control()) {
            (None, Control::At(index, _, _, _)) => Some(index),
            _ => None,
        }
    }

    /// Whether control is between two instructions, as `Board::resume` asks.
    pub fn is_between(&self) -> bool
        ensures { result ≡ is_between self.now.control }
    {
        match self.control.control() {
            Control::At(_, _, _, stage) => stage == Stage::Start,
            Control::Outside => true,
        }
    }

    /// Its block, and its offset there; None as for `at`.
    pub fn place(&self) -> Option<(u32, u32)>
        ensures { result ≡ place_under self.now.machine.ending self.now.control }
    {
        match (self.machine.ending, self.control.control()) {
            (None, Control::At(_, block, offset, _)) => Some((block, offset)),
            _ => None,
        }
    }
}
