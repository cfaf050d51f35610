//! The command `plain`: a run on the flat machine.
#![tactic(auto)]

ghost use Rattle.std.specs.Prelude.{◌≡◌, [], string_bytes};
ghost use Rattle.swi_outside.specs.Source.{HasGiven};
ghost use Rattle.swi_outside.specs.Told.{AsTold};
ghost use Rattle.swi_command.specs.CommandLine.{IsInRange};
ghost use Rattle.swi_program.specs.Layout.{IsLayoutOf};
ghost use Rattle.swi_task.specs.Answers.{Answers};
ghost use Rattle.swi_task.specs.Devices.{Devices};
ghost use Rattle.swi_file_commands.specs.RunFlat.{RunsFlat};
ghost use Rattle.swi_file_commands.specs.RunPlain.{plain_command, plain_task};

use crate::flat_file::accepted;
use std::alloc::Global;
use swi_answer::{Ending, Refusal};
use swi_calls::CallFault;
use swi_command::{PlainCommand, RunOptions};
use swi_flat::Flat;
use swi_outside::{Shelf, Sink, Source};
use swi_report::FinalState;
use swi_task::{Prepared, ending_by, read_file, write_report};

/// How a machine stands.
fn final_state(machine: &Flat) -> FinalState<'_>
    ensures pc { result.pc ≡ machine.now.machine.pc }
    ensures regs { result.regs.now ≡ machine.now.machine.regs }
    ensures bus { result.bus.now ≡ machine.now.machine.bus }
    ensures heap { result.heap ≡ machine.now.machine.heap }
    ensures steps { result.steps ≡ machine.now.machine.steps }
{
    FinalState {
        pc: machine.pc(),
        regs: machine.regs(),
        bus: machine.bus(),
        heap: machine.heap(),
        steps: machine.steps(),
    }
}

/// Runs a program on the flat machine, and writes what is asked for of its end.
fn run_plain<I: Source, O: Sink, E: Sink>(
    alloc: Global,
    prepared: &Prepared<'_>,
    options: &RunOptions,
    input: &mut I,
    out: &mut O,
    err: &mut E,
) -> Result<Ending, Refusal>
    requires ranges { IsInRange options.now.limits }
    requires laid_out { IsLayoutOf prepared.now.program.segments prepared.now.layout }
    ensures gave { HasGiven (I.state input.old) (I.state input.new) }
    ensures ran { (d : Devices) → AsTold (I.state input.old) (I.state input.new) (λ old new. RunsFlat
        (plain_command options.now) prepared.now.program prepared.now.layout
        (record d { input = old; output = O.state out.old; error = E.state err.old })
        (record d { input = new; output = O.state out.new; error = E.state err.new }) result) }
{
    let Ok(mut machine) = Flat::start(
        alloc,
        &prepared.program,
        &prepared.layout,
        options.reports.calls,
    ) else {
        return Err(Refusal::Memory);
    };
    match machine.run(options.limits.steps, input, out, err) {
        Ok(()) => {}
        Err(CallFault::SourceFault) => return Err(Refusal::SourceFault),
        Err(CallFault::SinkFault) => return Err(Refusal::SinkFault),
    }
    match write_report(&options.reports, &final_state(&machine), None, out) {
        Ok(()) => Ok(ending_by(machine.ending(), machine.pc(), machine.steps())),
        Err(_) => Err(Refusal::SinkFault),
    }
}

/// Runs the program of a file on the flat machine.
pub fn plain<F: Shelf, I: Source, O: Sink, E: Sink>(
    alloc: Global,
    command: &PlainCommand,
    shelf: &mut F,
    input: &mut I,
    out: &mut O,
    err: &mut E,
) -> Result<Ending, Refusal>
    requires ranges { IsInRange command.now.options.limits }
    ensures gave { HasGiven (I.state input.old) (I.state input.new) }
    ensures answers { (d : Devices) → AsTold (I.state input.old) (I.state input.new) (λ old new. Answers
        (plain_task (string_bytes command.now.file) command.now.options)
        (record d { shelf = F.state shelf.old; input = old; output = O.state out.old; error = E.state err.old })
        (record d { shelf = F.state shelf.new; input = new; output = O.state out.new; error = E.state err.new }) result []) }
{
    let options = &command.options;
    let file = read_file(alloc, shelf, command.file.as_str())?;
    let prepared = accepted(alloc, &file, &options.limits)?;
    run_plain(alloc, &prepared, options, input, out, err)
}
