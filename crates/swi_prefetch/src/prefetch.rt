//! A board with a copy engine.
#![tactic(auto)]

ghost use Rattle.std.specs.Prelude.{◌≡◌, ◌*◌, ◌^◌, ◌-◌, ◌≤◌, List, [], ◌∷◌, ℕ, length, replicate, Some, false, IfOk, OnOk, OnErr, IsErrOf};
ghost use Rattle.swi_calls.specs.Flat.{machine_of};
ghost use Rattle.swi_program.specs.Layout.{IsLayoutOf};
ghost use Rattle.swi_program.specs.Text.{text_of, word_of};
ghost use Rattle.swi_render.specs.Carried.{Carries};
ghost use Rattle.swi_hart.specs.Hart.{unbooted};
ghost use Rattle.swi_hart.specs.Leaving.{RamFailed};
ghost use Rattle.swi_engine.specs.Engine.{span_of};
ghost use Rattle.swi_engine.specs.State.{setting_of};
ghost use Rattle.swi_engine.specs.Sound.{EngineSound};
ghost use Rattle.swi_outside.specs.Causes.{DeviceCause};
ghost use Rattle.swi_outside.specs.Devices.{Devices, HasCauses, streams};
ghost use Rattle.swi_outside.specs.Source.{HasGiven};
ghost use Rattle.swi_outside.specs.Told.{AsTold};
ghost use Rattle.swi_prefetch.specs.Events.{of_hart, of_engine, round};
ghost use Rattle.swi_prefetch.specs.Running.{AheadFailed, BrokeIn, CameOn, KeepsBehind, RanTo, RoundRises, RunBroke, SameHart, StepsUpTo, WordsUpTo, goes_below, whole};
ghost use Rattle.swi_prefetch.specs.Tracking.{Begins, Leads};
ghost use Rattle.swi_prefetch.specs.Prefetching.{Booted, empty_for, PcShort, TakesTurns, StepsFew, WordsFew, HartEvent, EngineEvent, TellsCopied, has_failed};

use crate::beside::{step, turn};
use std::alloc::Global;
use std::marker::Model;
use swi_board::{Board, BootStop};
use swi_engine::EngineRom;
use swi_hart::BoardFault;
use swi_image::ImageView;
use swi_memory::Layout;
use swi_outside::{CacheRam, Failed, Memory, Sink, Source};
use swi_program::Program;

/// A machine whose hart and copy engine take turns as the caller says: an event is one machine step of the hart, or one
/// word of the engine. Whatever the events are, the hart stands where the flat machine does, or midway to its next step;
/// the machine steps are at most three for each original step and what the one under control has taken.
#[derive(Drop)]
pub struct Prefetch {
    // None once a word of the engine has failed.
    board: Option<Board<EngineRom>>,
}

impl Model for Prefetch {
    ghost use Rattle.swi_prefetch.specs.Prefetching.{PrefetchData};

    ghost Value = { PrefetchData };

    ghost view = { λ p. record { board = p.board } };
}

// An empty service for an image, which is sound for each ram that holds the cache.
fn engine_for(alloc: Global, image: &ImageView<'_>, cache_bytes: u32) -> Result<EngineRom, Memory>
    requires least { 4 * image.now.block_words ≤ cache_bytes }
    requires most { cache_bytes ≤ 2 ^ 23 }
    ensures empty { IfOk result (λ e. e ≡ empty_for cache_bytes image.now) }
    ensures sound { IfOk result (λ e. (words : List ℕ) → cache_bytes ≤ 4 * length words → EngineSound e image.now words) }
{
    EngineRom::new(alloc, cache_bytes, image.blocks(), image.block_words())
}

impl Prefetch {
    /// The machine of a program before its first step, over an empty cache of up to `cache_bytes` bytes in slots of the
    /// image's block words; the engine has written nothing. The ram is entered at the program's entry, which is one
    /// machine step. The layout is the program's, the image one of its text; the ram holds the cache, which holds a
    /// block, and has at most 2^23 bytes.
    ///
    /// All memory is taken before the first call of the ram. RamFault comes only where the ram's count of faults rose.
    pub fn boot<M: CacheRam>(
        alloc: Global,
        image: &ImageView<'_>,
        p: &Program<'_>,
        l: &Layout,
        log: bool,
        cache_bytes: u32,
        ram: &mut M,
    ) -> Result<Prefetch, BootStop>
        requires laid_out { IsLayoutOf p.now.segments l.now }
        requires carries { Carries (word_of (text_of p.now.segments)) image.now }
        requires least { 4 * image.now.block_words ≤ cache_bytes }
        requires most { cache_bytes ≤ 2 ^ 23 }
        requires holds { cache_bytes ≤ 4 * length (M.state ram.old).words }
        ensures booted { IfOk result (λ x. Booted image.now (unbooted (machine_of p.now l.now log))
            (empty_for cache_bytes image.now) (M.state ram.old) (record { board = x.board; ram = M.state ram.new })) }
        ensures takes_turns { IfOk result (λ x. TakesTurns image.now x.board (M.state ram.new)) }
        ensures steps { IfOk result (λ x. (n : ℕ) → StepsUpTo n x.board) }
        ensures words { IfOk result (λ x. (n : ℕ) → WordsUpTo n x.board) }
        ensures begins { IfOk result (λ x. Begins image.now (machine_of p.now l.now log) cache_bytes (M.state ram.old) x.board (M.state ram.new)) }
        ensures failed { IsErrOf result BootStop.RamFault →
            RamFailed (span_of (setting_of (empty_for cache_bytes image.now))) (M.state ram.old) (M.state ram.new) }
        ensures untouched { IsErrOf result BootStop.Memory → M.state ram.new ≡ M.state ram.old }
    {
        let Ok(rom) = engine_for(alloc, image, cache_bytes) else {
            return Err(BootStop::Memory);
        };
        match Board::boot(alloc, image, p, l, log, rom, ram) {
            Ok(board) => Ok(Prefetch { board: Some(board) }),
            Err(stop) => Err(stop),
        }
    }

    /// An event of the hart: one machine step; where the run has ended, nothing. No device has failed, image and ram are
    /// as the last call left them, and fewer than 2^48 original steps were made. After an error `failed` is true; each
    /// comes only where its device's count of faults rose.
    pub fn hart<M: CacheRam, I: Source, O: Sink, E: Sink>(
        &mut self,
        image: &ImageView<'_>,
        ram: &mut M,
        input: &mut I,
        out: &mut O,
        err: &mut E,
    ) -> Result<(), BoardFault>
        requires takes_turns { TakesTurns image.now self.old.board (M.state ram.old) }
        requires few { StepsFew self.old.board }
        ensures gave { HasGiven (I.state input.old) (I.state input.new) }
        ensures turned { AsTold (I.state input.old) (I.state input.new) (λ old new. HartEvent image.now
            (record { board = self.old.board; ram = M.state ram.old })
            (record { board = self.new.board; ram = M.state ram.new })
            (streams old (O.state out.old) (E.state err.old))
            (streams new (O.state out.new) (E.state err.new)) result) }
        ensures short { PcShort self.old.board }
        ensures leads { AsTold (I.state input.old) (I.state input.new) (λ old new. OnOk result (Leads image.now
            (of_hart ∷ []) self.old.board self.new.board
            (record {
              ram = M.state ram.old;
              devices = streams old (O.state out.old) (E.state err.old);
            })
            (record {
              ram = M.state ram.new;
              devices = streams new (O.state out.new) (E.state err.new);
            }))) }
    {
        let Some(board) = &mut self.board else {
            unreachable!()
        };
        // Read for the proof alone: that it has 32 bits.
        let _pc = board.origin_pc();
        step(board, image, ram, input, out, err)
    }

    /// An event of the engine, with control where it stands: whether it wrote a word. Where control is at no text word,
    /// or the run has ended, nothing is done. No device has failed, image and ram are as the last call left them, and
    /// the engine has written fewer than 2^60 words to copy. After an error `failed` is true; it comes only where the
    /// ram's count of faults rose.
    pub fn engine<M: CacheRam>(
        &mut self,
        image: &ImageView<'_>,
        ram: &mut M,
    ) -> Result<bool, Failed>
        requires takes_turns { TakesTurns image.now self.old.board (M.state ram.old) }
        requires few { WordsFew self.old.board }
        ensures turned { EngineEvent image.now
            (record { board = self.old.board; ram = M.state ram.old })
            (record { board = self.new.board; ram = M.state ram.new }) result }
        ensures leads { OnOk result ((d : Devices) → Leads image.now (of_engine ∷ []) self.old.board self.new.board
            (record { ram = M.state ram.old; devices = d }) (record { ram = M.state ram.new; devices = d })) }
    {
        let Some(board) = &mut self.board else {
            unreachable!()
        };
        match turn(board, image, ram) {
            Ok(wrote) => Ok(wrote),
            Err(stop) => {
                self.board = None;
                Err(stop)
            }
        }
    }

    // So many events of the engine in a row, which leave the hart as it was.
    fn work_ahead<M: CacheRam>(
        &mut self,
        image: &ImageView<'_>,
        ram: &mut M,
        rate: u32,
    ) -> Result<(), Failed>
        requires takes_turns { TakesTurns image.now self.old.board (M.state ram.old) }
        requires rate { rate ≤ 1024 }
        requires few { WordsUpTo (2 ^ 60 - 1025) self.old.board }
        ensures came { OnOk result ((d : Devices) → CameOn image.now (replicate rate of_engine)
            (whole self.old.board (record { ram = M.state ram.old; devices = d }))
            (whole self.new.board (record { ram = M.state ram.new; devices = d }))) }
        ensures same { OnOk result (SameHart self.old.board self.new.board) }
        ensures failed { OnErr result ((d : Devices) → AheadFailed image.now rate
            (whole self.old.board (record { ram = M.state ram.old; devices = d }))
            (whole self.new.board (record { ram = M.state ram.new; devices = d }))) }
    {
        for _ in 0..rate {
            self.engine(image, ram)?;
        }
        Ok(())
    }

    // An event of the hart, and so many of the engine.
    fn round<M: CacheRam, I: Source, O: Sink, E: Sink>(
        &mut self,
        image: &ImageView<'_>,
        ram: &mut M,
        input: &mut I,
        out: &mut O,
        err: &mut E,
        rate: u32,
    ) -> Result<(), BoardFault>
        requires takes_turns { TakesTurns image.now self.old.board (M.state ram.old) }
        requires few { StepsFew self.old.board }
        requires rate { rate ≤ 1024 }
        requires words { WordsUpTo (2 ^ 60 - 2048) self.old.board }
        ensures gave { HasGiven (I.state input.old) (I.state input.new) }
        ensures came { AsTold (I.state input.old) (I.state input.new) (λ old new. OnOk result (CameOn image.now (round rate)
            (whole self.old.board (record {
              ram = M.state ram.old;
              devices = streams old (O.state out.old) (E.state err.old);
            }))
            (whole self.new.board (record {
              ram = M.state ram.new;
              devices = streams new (O.state out.new) (E.state err.new);
            })))) }
        ensures rises { OnOk result (RoundRises image.now self.old.board self.new.board) }
        ensures broke { AsTold (I.state input.old) (I.state input.new) (λ old new. OnErr result (BrokeIn image.now [] rate
            (whole self.old.board (record {
              ram = M.state ram.old;
              devices = streams old (O.state out.old) (E.state err.old);
            }))
            (whole self.new.board (record {
              ram = M.state ram.new;
              devices = streams new (O.state out.new) (E.state err.new);
            })) result)) }
    {
        self.hart(image, ram, input, out, err)?;
        match self.work_ahead(image, ram, rate) {
            Ok(()) => Ok(()),
            Err(_) => Err(BoardFault::RamFault),
        }
    }

    // Whether the run goes on, with fewer original steps than the limit.
    fn goes_below(&self, limit: u64) -> bool
        ensures { result ≡ goes_below limit self.now.board }
    {
        match &self.board {
            Some(board) => board.ending().is_none() && board.steps() < limit,
            None => false,
        }
    }

    /// Events in rounds, each of one machine step of the hart and then `rate` events of the engine, until `limit`
    /// original steps are made, or the run has ended. `limit` is at most 2^48, and no less than the steps made; `rate` is
    /// at most 1024. No device has failed, image and ram are as the last call left them, and the engine has written at
    /// most 2^57 words to copy. The rounds are those on each input from which what was given may have been read.
    ///
    /// Each fault comes only where its device's count rose; then `failed` is true.
    pub fn run<M: CacheRam, I: Source, O: Sink, E: Sink>(
        &mut self,
        image: &ImageView<'_>,
        ram: &mut M,
        input: &mut I,
        out: &mut O,
        err: &mut E,
        limit: u64,
        rate: u32,
    ) -> Result<(), BoardFault>
        requires takes_turns { TakesTurns image.now self.old.board (M.state ram.old) }
        requires steps { StepsUpTo limit self.old.board }
        requires limit { limit ≤ 2 ^ 48 }
        requires rate { rate ≤ 1024 }
        requires words { WordsUpTo (2 ^ 57) self.old.board }
        ensures gave { HasGiven (I.state input.old) (I.state input.new) }
        ensures ran { AsTold (I.state input.old) (I.state input.new) (λ old new. OnOk result (RanTo image.now limit rate
            (whole self.old.board (record {
              ram = M.state ram.old;
              devices = streams old (O.state out.old) (E.state err.old);
            }))
            (whole self.new.board (record {
              ram = M.state ram.new;
              devices = streams new (O.state out.new) (E.state err.new);
            })))) }
        ensures broke { AsTold (I.state input.old) (I.state input.new) (λ old new. OnErr result (RunBroke image.now limit rate
            (whole self.old.board (record {
              ram = M.state ram.old;
              devices = streams old (O.state out.old) (E.state err.old);
            }))
            (whole self.new.board (record {
              ram = M.state ram.new;
              devices = streams new (O.state out.new) (E.state err.new);
            })) result)) }
        ensures kept { KeepsBehind self.old.board (M.state ram.old) (M.state ram.new) }
        ensures causes { HasCauses
            (record { input = (I.state input.old).faults; output = (O.state out.old).faults; error = (E.state err.old).faults })
            (record { input = (I.state input.new).faults; output = (O.state out.new).faults; error = (E.state err.new).faults })
            (IsErrOf result BoardFault.SourceFault) (IsErrOf result BoardFault.SinkFault) }
        ensures ram_cause { DeviceCause (M.state ram.old).faults (M.state ram.new).faults
            (IsErrOf result BoardFault.RamFault) }
    {
        while self.goes_below(limit) {
            self.round(image, ram, input, out, err, rate)?;
        }
        Ok(())
    }

    /// Whether a device failed in the last call. No further event is possible then.
    pub fn failed(&self) -> bool
        ensures { result ≡ has_failed self.now.board }
    {
        match &self.board {
            Some(board) => board.failed(),
            None => true,
        }
    }

    /// The board. No device has failed.
    pub fn board(&self) -> &Board<EngineRom>
        requires unfailed { has_failed self.now.board ≡ false }
        ensures { self.now.board ≡ Some result.now }
    {
        match &self.board {
            Some(board) => board,
            None => unreachable!(),
        }
    }

    /// The words that the engine wrote to copy, and the copies that it completed. No device has failed.
    pub fn copied(&self) -> (u64, u64)
        requires unfailed { has_failed self.now.board ≡ false }
        ensures { TellsCopied result self.now.board }
    {
        self.board().rom().copied()
    }
}
