//! A hart with its service.
#![tactic(auto)]

ghost use Rattle.std.specs.Prelude.{◌≡◌, ◌⊎◌, ◌^◌, ◌<◌, ◌≤◌, ℕ, IfOk, OnOk, OnErr, IsErrOf, Some, None, true, false};
ghost use Rattle.swi_outside.specs.Devices.{streams};
ghost use Rattle.swi_outside.specs.Source.{ForInput, HasGiven};
ghost use Rattle.swi_outside.specs.Told.{AsTold};
ghost use Rattle.swi_memory.specs.Bus.{fetched};
ghost use Rattle.swi_calls.specs.declared.machine.Machine.{Machine};
ghost use Rattle.swi_calls.specs.Flat.{machine_of};
ghost use Rattle.swi_program.specs.Layout.{IsLayoutOf};
ghost use Rattle.swi_program.specs.Text.{text_of, word_of};
ghost use Rattle.swi_image.specs.Format.{ImageData};
ghost use Rattle.swi_image.specs.Place.{place_of};
ghost use Rattle.swi_render.specs.Carried.{Carries};
ghost use Rattle.swi_rom.specs.Record.{Record, indirect};
ghost use Rattle.swi_hart.specs.Hart.{is_between, index_of, place_under, next_made, unbooted};
ghost use Rattle.swi_hart.specs.Exchanged.{Exchanged, PlainAt, ExecutesHeld};
ghost use Rattle.swi_hart.specs.Leaving.{RamFailed};
ghost use Rattle.swi_hart.specs.MachineStep.{BoardStepped, ReadyToStep};
ghost use Rattle.swi_hart.specs.Matching.{Fits, Matches};
ghost use Rattle.swi_hart.specs.Staying.{StaysUnder};
ghost use Rattle.swi_board.specs.Board.{BoardOf};
ghost use Rattle.swi_board.specs.BoardRan.{BoardRan};
ghost use Rattle.swi_board.specs.Entered.{Entered};
ghost use Rattle.swi_board.specs.Learnt.{HasRoom};
ghost use Rattle.swi_board.specs.Ran.{Followed};

use crate::learnt::Learnt;
use crate::stepwise::{enter, run_stepwise};
use std::alloc::Global;
use std::marker::Model;
use swi_calls::{End, Heap};
use swi_exec::Regs;
use swi_hart::{BoardFault, Hart, Stage, plain_place, plain_step, quick_step};
use swi_image::ImageView;
use swi_memory::{Bus, Layout};
use swi_outside::{CacheRam, Failed, Sink, Source, SteadyRam};
use swi_program::Program;
use swi_rom::CacheRom;

/// What stops a boot.
#[derive(Clone, Copy, Debug, PartialEq, Eq)]
pub enum BootStop {
    /// The ram failed.
    RamFault,
    /// Memory was refused, before the first call of the ram.
    Memory,
}

/// A machine that runs a program out of a cache ram: a hart, and the service that keeps the ram's words. What a step or a
/// run needs to hold of them is asked by its contract.
#[derive(Drop)]
pub struct Board<R: CacheRom> {
    pub hart: Hart,
    pub rom: R,
    // It changes no step.
    learnt: Option<Learnt>,
}

impl<R: CacheRom> Model for Board<R> {
    ghost use Rattle.swi_board.specs.Board.{BoardOf};

    ghost Value = { BoardOf R };

    ghost view = { λ b. record { hart = b.hart; rom = b.rom } };
}

/// Runs out of a steady ram, from between two instructions: by micro-ops, but for the steps that are left to the machine
/// step.
fn run_by_words<R: CacheRom, M: SteadyRam, I: Source, O: Sink, E: Sink>(
    hart: &mut Hart,
    rom: &mut R,
    image: &ImageView<'_>,
    ram: &mut M,
    learnt: &mut Learnt,
    input: &mut I,
    out: &mut O,
    err: &mut E,
    n: u64,
) -> Result<(), BoardFault>
    requires fits { Fits image.now (R.service.kept rom.old) hart.old }
    requires sound { R.service.sound rom.old image.now (M.state ram.old).words }
    requires steps { hart.old.machine.steps ≤ n }
    requires limit { n ≤ 2 ^ 48 }
    requires count { hart.old.count ≤ 2 ^ 55 }
    requires services { (R.service.kept rom.old).counts.services ≤ 2 ^ 49 }
    requires steady { M.steady ≡ true }
    requires between { is_between hart.old.control ≡ true }
    requires room { HasRoom image.now learnt.old }
    ensures gave { HasGiven (I.state input.old) (I.state input.new) }
    ensures ran { AsTold (I.state input.old) (I.state input.new) (λ old new. BoardRan R.service image.now n
        (record {
          hart = hart.old;
          rom = rom.old;
          ram = M.state ram.old;
          devices = streams old (O.state out.old) (E.state err.old);
        })
        (record {
          hart = hart.new;
          rom = rom.new;
          ram = M.state ram.new;
          devices = streams new (O.state out.new) (E.state err.new);
        }) result) }
{
    learnt.forget();
    while hart.machine.steps < n && hart.machine.ending.is_none() {
        learnt.advance(hart, rom, image, ram, n);
        if hart.machine.steps >= n {
            return Ok(());
        }
        quick_step(hart, rom, image, ram, input, out, err)?;
    }
    Ok(())
}

impl<R: CacheRom> Board<R> {
    /// A board of a hart and a service, at the hart's address: where a text word stands there, one service enters it,
    /// and that is a machine instruction; else neither service nor ram is called, and nothing fails. The image is one of the text that the
    /// hart holds, the service is sound for it and the ram, and the hart has not ended, and is between two
    /// instructions. No device has failed, and fewer than 2^56 machine instructions and 2^50 services are counted.
    ///
    /// A word of the ram that changes is of a newly placed block, or a link that was made or undone; each other program
    /// that the service served is served as before. `Failed` comes only where the ram's count of faults rose; hart and
    /// service are then given up. No memory is taken.
    pub fn resume<M: CacheRam>(
        image: &ImageView<'_>,
        hart: Hart,
        rom: R,
        ram: &mut M,
    ) -> Result<Board<R>, Failed>
        requires carries { Carries (fetched hart.machine.bus) image.now }
        requires running { hart.machine.ending ≡ None }
        requires unfailed { hart.failed ≡ false }
        requires between { is_between hart.control ≡ true }
        requires count { hart.count < 2 ^ 56 }
        requires sound { R.service.sound rom image.now (M.state ram.old).words }
        requires services { (R.service.kept rom).counts.services < 2 ^ 50 }
        ensures entered { IfOk result (λ b. Entered R.service image.now hart
            (record { rom = rom; ram = M.state ram.old })
            (record { hart = b.hart; rom = b.rom; ram = M.state ram.new })) }
        ensures failed { OnErr result (RamFailed (R.service.span (R.service.setting rom)) (M.state ram.old) (M.state ram.new)) }
        ensures placed { OnErr result (place_of image.now hart.machine.pc ≡ None → ⊥) }
    {
        let mut hart = hart;
        let mut rom = rom;
        enter(&mut hart, &mut rom, image, ram)?;
        Ok(Board {
            hart,
            rom,
            learnt: None,
        })
    }

    /// The board of a program before its first step: its hart is started, and then resumed. That is one machine
    /// instruction. The layout is the program's, the image one of its text, and the service sound for the image and the
    /// ram, as a new one is, with fewer than 2^50 services.
    ///
    /// All memory is taken before the first call of the ram. RamFault comes only where the ram's count of faults rose.
    pub fn boot<M: CacheRam>(
        alloc: Global,
        image: &ImageView<'_>,
        p: &Program<'_>,
        l: &Layout,
        log: bool,
        rom: R,
        ram: &mut M,
    ) -> Result<Board<R>, BootStop>
        requires laid_out { IsLayoutOf p.now.segments l.now }
        requires carries { Carries (word_of (text_of p.now.segments)) image.now }
        requires sound { R.service.sound rom image.now (M.state ram.old).words }
        requires services { (R.service.kept rom).counts.services < 2 ^ 50 }
        ensures entered { IfOk result (λ b. Entered R.service image.now (unbooted (machine_of p.now l.now log))
            (record { rom = rom; ram = M.state ram.old })
            (record { hart = b.hart; rom = b.rom; ram = M.state ram.new })) }
        ensures count { IfOk result (λ b. b.hart.count ≡ 1) }
        ensures policy { IfOk result (λ b. R.service.kept b.rom ≡ R.service.policy (R.service.setting rom)
            (R.service.kept rom) image.now (indirect p.now.entry)) }
        ensures failed { IsErrOf result BootStop.RamFault →
            RamFailed (R.service.span (R.service.setting rom)) (M.state ram.old) (M.state ram.new) }
        ensures untouched { IsErrOf result BootStop.Memory → M.state ram.new ≡ M.state ram.old }
    {
        let hart = match Hart::start(alloc, p, l, log) {
            Ok(hart) => hart,
            Err(_) => return Err(BootStop::Memory),
        };
        let Ok(learnt) = Learnt::new(alloc, image) else {
            return Err(BootStop::Memory);
        };
        match Board::resume(image, hart, rom, ram) {
            Ok(board) => {
                let Board { hart, rom, .. } = board;
                Ok(Board {
                    hart,
                    rom,
                    learnt: Some(learnt),
                })
            }
            Err(_) => Err(BootStop::RamFault),
        }
    }

    /// The hart and the service. No device has failed; nothing changes.
    pub fn part(self) -> (Hart, R)
        requires unfailed { self.hart.failed ≡ false }
        ensures hart { result.0 ≡ self.hart }
        ensures rom { result.1 ≡ self.rom }
    {
        (self.hart, self.rom)
    }

    /// A board of a hart that is booted and has not failed, and a service that shows the hart's place at the index under its control.
    /// Nothing changes or is counted. That the service is sound for the hart's image and the ram is asked by the next
    /// `step` or `run`. Where control's block stands as it did in the service's record before, the board matches the same
    /// flat machines, and the image fits it as before.
    pub fn join(hart: Hart, rom: R) -> Board<R>
        requires booted { hart.booted ≡ true }
        requires unfailed { hart.failed ≡ false }
        requires shown { (i : ℕ) → index_of hart.machine.ending hart.control ≡ Some i → R.service.shown rom i
            ≡ place_under hart.machine.ending hart.control }
        ensures hart { result.hart ≡ hart }
        ensures rom { result.rom ≡ rom }
        ensures matches { (v : ImageData) (old : Record) (f : Machine) →
            StaysUnder old (R.service.kept rom) hart.machine hart.control →
            Matches v old f hart.machine hart.control →
            Matches v (R.service.kept result.rom) f result.hart.machine result.hart.control }
        ensures fits { (v : ImageData) (old : Record) → StaysUnder old (R.service.kept rom) hart.machine hart.control →
            Fits v old hart → Fits v (R.service.kept result.rom) result.hart }
    {
        Board {
            hart,
            rom,
            learnt: None,
        }
    }

    /// One machine instruction: the word under control is fetched and executed, or an exit is left, over its link or by
    /// a service. The image fits the board and the service is sound for it and the ram; the run has not ended, and no
    /// device has failed; fewer than 2^48 steps, 2^56 machine instructions and 2^50 services are counted.
    ///
    /// Where the image's word under control is plain (LUI, or arithmetic), the ram may hold another plain word there,
    /// as long as the service is sound with the image's word put back: the word that was fetched is executed, and the
    /// step goes on as over the image's. The image fits again behind either word, whatever the register holds then.
    ///
    /// It follows each flat machine that the board matches, on each input from which what was given may have been read:
    /// by a step, or by none where the word completes no instruction. A word of the ram that changes is of a newly
    /// placed block, or a link that was made or undone.
    ///
    /// After an error `failed` is true, and the hart is as it was but for that. The input or a sink fails at a system
    /// call alone: a front of the buffer of a read may be filled then, the service is as it was, and a sink to which the
    /// call gives nothing was not asked. After a failed fetch nothing was done to the ram, and after a failed set nothing
    /// was fetched.
    pub fn step<M: CacheRam, I: Source, O: Sink, E: Sink>(
        &mut self,
        image: &ImageView<'_>,
        ram: &mut M,
        input: &mut I,
        out: &mut O,
        err: &mut E,
    ) -> Result<(), BoardFault>
        requires ready { ReadyToStep image.now (R.service.kept self.old.rom) self.old.hart }
        requires unfailed { self.old.hart.failed ≡ false }
        requires sound { R.service.sound self.old.rom image.now (M.state ram.old).words
            ⊎ Exchanged (λ words. R.service.sound self.old.rom image.now words) image.now
            (M.state ram.old).words self.old.hart.control }
        ensures gave { HasGiven (I.state input.old) (I.state input.new) }
        ensures follows { ForInput (I.state input.old) (I.state input.new) (λ left rest.
            R.service.sound self.old.rom image.now (M.state ram.old).words →
            OnOk result ((f : Machine) → Carries (fetched f.bus) image.now →
            Matches image.now (R.service.kept self.old.rom) f self.old.hart.machine self.old.hart.control →
            Followed image.now (R.service.kept self.new.rom) self.new.hart
            (next_made image.now self.old.hart.machine self.old.hart.control f left)
            (Some rest) (O.state out.old).held (O.state out.new).held (E.state err.old).held (E.state err.new).held)) }
        ensures executes { OnOk result ((i b o : ℕ) (stage : Stage) →
            PlainAt image.now (M.state ram.old).words self.old.hart.control i b o stage →
            ExecutesHeld self.old.hart self.new.hart self.old.rom self.new.rom i b o stage (M.state ram.old).words
            (M.state ram.new).words
            (I.state input.old).left (I.state input.new).left (O.state out.old).held (O.state out.new).held (E.state err.old).held (E.state err.new).held) }
        ensures stepped { AsTold (I.state input.old) (I.state input.new) (λ old new. BoardStepped R.service image.now
            (record { hart = self.old.hart; rom = self.old.rom; ram = M.state ram.old })
            (record { hart = self.new.hart; rom = self.new.rom; ram = M.state ram.new })
            (streams old (O.state out.old) (E.state err.old))
            (streams new (O.state out.new) (E.state err.new)) result) }
    {
        let Board { hart, rom, .. } = self;
        if let Some((at, own)) = plain_place(hart, image) {
            return plain_step(hart, rom, image, ram, input, out, err, at, own);
        }
        quick_step(hart, rom, image, ram, input, out, err)
    }

    /// Steps until `n` original steps are made, or the run has ended. `n` is at most 2^48, and no less than the steps
    /// made; no device has failed; the image fits the board and the service is sound for it and the ram, as `boot`,
    /// `step` and `run` leave them; at most 2^55 machine instructions and 2^49 services are counted.
    ///
    /// The run is that of the flat machine on each input from which what was given may have been read: what the run
    /// leaves of it is the rest.
    /// Where the run goes on, control has come to where the flat steps lead. Which words of the ram change is said of `step`
    /// alone: along a run a block can come and leave again.
    ///
    /// Each fault comes only where its device's count rose. After one `failed` is true, and the step that it broke off
    /// is not counted. The board is where the steps made have brought it, in registers, pc, break and the count of
    /// machine instructions, and in the ram but for the call that failed; memory is theirs too, but that a read's
    /// buffer may have a front of the bytes that were taken, where the input or a sink failed. A sink to which the next
    /// step gives nothing was not asked.
    pub fn run<M: SteadyRam, I: Source, O: Sink, E: Sink>(
        &mut self,
        image: &ImageView<'_>,
        ram: &mut M,
        input: &mut I,
        out: &mut O,
        err: &mut E,
        n: u64,
    ) -> Result<(), BoardFault>
        requires fits { Fits image.now (R.service.kept self.old.rom) self.old.hart }
        requires sound { R.service.sound self.old.rom image.now (M.state ram.old).words }
        requires steps { self.old.hart.machine.steps ≤ n }
        requires unfailed { self.old.hart.failed ≡ false }
        requires limit { n ≤ 2 ^ 48 }
        requires count { self.old.hart.count ≤ 2 ^ 55 }
        requires services { (R.service.kept self.old.rom).counts.services ≤ 2 ^ 49 }
        ensures gave { HasGiven (I.state input.old) (I.state input.new) }
        ensures ran { AsTold (I.state input.old) (I.state input.new) (λ old new. BoardRan R.service image.now n
            (record {
              hart = self.old.hart;
              rom = self.old.rom;
              ram = M.state ram.old;
              devices = streams old (O.state out.old) (E.state err.old);
            })
            (record {
              hart = self.new.hart;
              rom = self.new.rom;
              ram = M.state ram.new;
              devices = streams new (O.state out.new) (E.state err.new);
            }) result) }
    {
        let Board { hart, rom, learnt } = self;
        match learnt {
            Some(learnt) if ram.is_steady() && hart.is_between() && learnt.has_room(image) => {
                run_by_words(hart, rom, image, ram, learnt, input, out, err, n)
            }
            _ => run_stepwise(hart, rom, image, ram, input, out, err, n),
        }
    }

    /// How the run has ended; None while it goes on.
    pub fn ending(&self) -> Option<End>
        ensures { result ≡ self.now.hart.machine.ending }
    {
        self.hart.ending()
    }

    /// Whether a device failed in the last step. No further step can be made then.
    pub fn failed(&self) -> bool
        ensures { result ≡ self.now.hart.failed }
    {
        self.hart.failed()
    }

    /// The number of original steps made, one that ended the run included, but for a store into the text.
    pub fn steps(&self) -> u64
        ensures { result ≡ self.now.hart.machine.steps }
    {
        self.hart.steps()
    }

    /// The registers.
    pub fn regs(&self) -> &Regs
        ensures { result.now ≡ self.now.hart.machine.regs }
    {
        self.hart.regs()
    }

    /// The memory.
    pub fn bus(&self) -> &Bus
        ensures { result.now ≡ self.now.hart.machine.bus }
    {
        self.hart.bus()
    }

    /// The heap's ends and the break.
    pub fn heap(&self) -> Heap
        ensures { result ≡ self.now.hart.machine.heap }
    {
        self.hart.heap()
    }

    /// The original address of the instruction under control, or of the one that ended the run.
    pub fn origin_pc(&self) -> u32
        ensures { result ≡ self.now.hart.machine.pc }
    {
        self.hart.origin_pc()
    }

    /// The number of machine instructions made, that of the boot included.
    pub fn machine_steps(&self) -> u64
        ensures { result ≡ self.now.hart.count }
    {
        self.hart.machine_steps()
    }

    /// The service.
    pub fn rom(&self) -> &R
        ensures { result.now ≡ self.now.rom }
    {
        &self.rom
    }
}
