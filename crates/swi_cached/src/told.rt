//! The steps of a run, told or not.
#![tactic(auto)]

ghost use Rattle.std.specs.Prelude.{◌≡◌, ◌⊎◌, ◌+◌, ◌^◌, ◌<◌, ◌≤◌, ◌++◌, ◌∷◌, [], List, ℕ, IfOk, OnOk, OnErr, None, true, false};
ghost use Rattle.std.specs.Io.KnownBytes.{Appends};
ghost use Rattle.swi_outside.specs.Causes.{HasCause};
ghost use Rattle.swi_outside.specs.Devices.{streams};
ghost use Rattle.swi_outside.specs.Sink.{AppendsPrefix};
ghost use Rattle.swi_outside.specs.Source.{HasGiven};
ghost use Rattle.swi_outside.specs.Told.{AsTold};
ghost use Rattle.swi_trace.specs.History.{IsLastOf};
ghost use Rattle.swi_hart.specs.MachineStep.{BoardStepped, ReadyToStep};
ghost use Rattle.swi_hart.specs.Matching.{Fits};
ghost use Rattle.swi_cached.specs.Told.{history_of, is_each, told_line};
ghost use Rattle.swi_cached.specs.Traced.{ToldRan};

use std::alloc::Global;
use swi_board::{Board, BoardFault};
use swi_hart::quick_step;
use swi_image::ImageView;
use swi_line::Trace;
use swi_outside::{Failed, Memory, Sink, Source, SteadyRam};
use swi_rom::CacheRom;
use swi_trace::{History, trace_line};

/// A history of no steps, where any are told.
pub(crate) fn first_history(alloc: Global, telling: Trace) -> Result<Option<History>, Memory>
    ensures { IfOk result (λ history. history ≡ history_of telling []) }
{
    match telling {
        Trace::Off => Ok(None),
        Trace::Last | Trace::Each => Ok(Some(History::new(alloc)?)),
    }
}

/// Tells of the step that comes next, unless so many lines say that it was told: its address into the history, and
/// with `Each` its line on the error sink. Answers how many steps are told then.
fn tell<E: Sink, S: CacheRom>(
    board: &Board<S>,
    lines: u64,
    telling: Trace,
    history: &mut History,
    err: &mut E,
) -> Result<u64, Failed>
    requires lines { (lines ≡ board.now.hart.machine.steps) ⊎ (lines ≡ board.now.hart.machine.steps + 1) }
    requires few { board.now.hart.machine.steps < 2 ^ 48 }
    ensures word { board.now.hart.machine.pc < 2 ^ 32 }
    ensures count { IfOk result (λ n. n ≡ board.now.hart.machine.steps + 1) }
    ensures line { lines ≡ board.now.hart.machine.steps →
        OnOk result (Appends (E.state err.old).held (E.state err.new).held (told_line (is_each telling) board.now.hart.machine)) }
    ensures front { OnErr result (AppendsPrefix (E.state err.old).held (E.state err.new).held
        (told_line (is_each telling) board.now.hart.machine)) }
    ensures noted { lines ≡ board.now.hart.machine.steps → (pushed : List ℕ) → IsLastOf pushed history.old →
        IsLastOf (pushed ++ board.now.hart.machine.pc ∷ []) history.new }
    ensures told { lines ≡ board.now.hart.machine.steps + 1 →
        ((E.state err.new).held ≡ (E.state err.old).held) × (history.new ≡ history.old) }
    ensures first { OnErr result (lines ≡ board.now.hart.machine.steps) }
    ensures asked { OnErr result (is_each telling ≡ true) }
    ensures cause { HasCause (E.state err.old).faults (E.state err.new).faults result }
{
    let (steps, a) = (board.steps(), board.origin_pc());
    if lines != steps {
        return Ok(lines);
    }
    history.push(a);
    match telling {
        Trace::Each => err.write(trace_line(a, board.bus().fetch(a)).as_bytes())?,
        Trace::Off | Trace::Last => {}
    }
    Ok(steps + 1)
}

/// One machine instruction, over a service that is sound: the image's own word stands under control then, and no other
/// hand's is looked for, as `Board::step` does.
fn make_step<I: Source, O: Sink, E: Sink, R: SteadyRam, S: CacheRom>(
    board: &mut Board<S>,
    image: &ImageView<'_>,
    ram: &mut R,
    input: &mut I,
    out: &mut O,
    err: &mut E,
) -> Result<(), BoardFault>
    requires ready { ReadyToStep image.now (S.service.kept board.old.rom) board.old.hart }
    requires sound { S.service.sound board.old.rom image.now (R.state ram.old).words }
    ensures gave { HasGiven (I.state input.old) (I.state input.new) }
    ensures stepped { AsTold (I.state input.old) (I.state input.new) (λ old new. BoardStepped S.service image.now
        (record { hart = board.old.hart; rom = board.old.rom; ram = R.state ram.old })
        (record { hart = board.new.hart; rom = board.new.rom; ram = R.state ram.new })
        (streams old (O.state out.old) (E.state err.old))
        (streams new (O.state out.new) (E.state err.new)) result) }
{
    let Board { hart, rom, .. } = board;
    quick_step(hart, rom, image, ram, input, out, err)
}

/// Makes steps until `limit` are made or the run has ended, each told before it is made where steps are told. Answers
/// the history. The run is that on each input from which what was given may have been read.
pub(crate) fn run_steps<I: Source, O: Sink, E: Sink, R: SteadyRam, S: CacheRom>(
    board: &mut Board<S>,
    image: &ImageView<'_>,
    limit: u64,
    telling: Trace,
    history: Option<History>,
    input: &mut I,
    out: &mut O,
    err: &mut E,
    ram: &mut R,
) -> Result<Option<History>, BoardFault>
    requires fits { Fits image.now (S.service.kept board.old.rom) board.old.hart }
    requires sound { S.service.sound board.old.rom image.now (R.state ram.old).words }
    requires first { board.old.hart.machine.steps ≡ 0 }
    requires running { board.old.hart.machine.ending ≡ None }
    requires unfailed { board.old.hart.failed ≡ false }
    requires limit { limit ≤ 2 ^ 48 }
    requires count { board.old.hart.count ≤ 2 ^ 55 }
    requires services { (S.service.kept board.old.rom).counts.services ≤ 2 ^ 49 }
    requires empty { history ≡ history_of telling [] }
    ensures gave { HasGiven (I.state input.old) (I.state input.new) }
    ensures ran { AsTold (I.state input.old) (I.state input.new) (λ old new. ToldRan S.service image.now telling limit
        (record {
          hart = board.old.hart;
          rom = board.old.rom;
          ram = R.state ram.old;
          devices = streams old (O.state out.old) (E.state err.old);
        })
        (record {
          hart = board.new.hart;
          rom = board.new.rom;
          ram = R.state ram.new;
          devices = streams new (O.state out.new) (E.state err.new);
        }) result) }
{
    let Some(mut last) = history else {
        board.run(image, ram, input, out, err, limit)?;
        return Ok(None);
    };
    let mut lines = 0;
    while board.steps() < limit {
        match board.ending() {
            None => {}
            Some(_) => return Ok(Some(last)),
        }
        match tell(board, lines, telling, &mut last, err) {
            Ok(told) => lines = told,
            Err(_) => return Err(BoardFault::SinkFault),
        }
        make_step(board, image, ram, input, out, err)?;
    }
    Ok(Some(last))
}
