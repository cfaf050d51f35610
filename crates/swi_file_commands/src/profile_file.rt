//! The command `profile`: a run on the flat machine, and how often it executed each word of its text.
#![tactic(auto)]

ghost use Rattle.std.specs.Prelude.{[], string_bytes};
ghost use Rattle.swi_outside.specs.Source.{HasGiven};
ghost use Rattle.swi_outside.specs.Told.{AsTold};
ghost use Rattle.swi_command.specs.CommandLine.{IsInRange};
ghost use Rattle.swi_program.specs.Layout.{IsLayoutOf};
ghost use Rattle.swi_task.specs.Answers.{Answers};
ghost use Rattle.swi_task.specs.Devices.{Devices};
ghost use Rattle.swi_file_commands.specs.RunFlat.{RunsFlat};
ghost use Rattle.swi_file_commands.specs.RunProfile.{profile_command, profile_task};

use crate::flat_file::accepted;
use std::alloc::Global;
use swi_answer::{Ending, Refusal};
use swi_calls::CallFault;
use swi_command::{ProfileCommand, RunLimits};
use swi_flat::Flat;
use swi_outside::{Shelf, Sink, Source};
use swi_profile::Profile;
use swi_task::{Prepared, ending_by, read_file};

/// Runs a program on the flat machine, and writes a line for each text word that it executed.
fn run_profile<I: Source, O: Sink, E: Sink>(
    alloc: Global,
    prepared: &Prepared<'_>,
    limits: &RunLimits,
    input: &mut I,
    out: &mut O,
    err: &mut E,
) -> Result<Ending, Refusal>
    requires ranges { IsInRange limits.now }
    requires laid_out { IsLayoutOf prepared.now.program.segments prepared.now.layout }
    ensures gave { HasGiven (I.state input.old) (I.state input.new) }
    ensures ran { (d : Devices) → AsTold (I.state input.old) (I.state input.new) (λ old new. RunsFlat
        (profile_command limits.now) prepared.now.program prepared.now.layout
        (record d { input = old; output = O.state out.old; error = E.state err.old })
        (record d { input = new; output = O.state out.new; error = E.state err.new }) result) }
{
    let program = &prepared.program;
    let Ok(mut machine) = Flat::start(alloc, program, &prepared.layout, false) else {
        return Err(Refusal::Memory);
    };
    let Ok(mut profile) = Profile::new(alloc, &program.text()) else {
        return Err(Refusal::Memory);
    };
    match profile.run(&mut machine, limits.steps, input, out, err) {
        Ok(()) => {}
        Err(CallFault::SourceFault) => return Err(Refusal::SourceFault),
        Err(CallFault::SinkFault) => return Err(Refusal::SinkFault),
    }
    match profile.write(out) {
        Ok(()) => Ok(ending_by(machine.ending(), machine.pc(), machine.steps())),
        Err(_) => Err(Refusal::SinkFault),
    }
}

/// Runs the program of a file on the flat machine, as `plain` does, and tells how often each word of its text was executed:
/// behind the program's own bytes it writes a line for each word that was, the lowest address first. The line holds the
/// address in eight hexadecimal digits, a space, and the count of the steps that stood there, the one that ended the run
/// included.
pub fn profile<F: Shelf, I: Source, O: Sink, E: Sink>(
    alloc: Global,
    command: &ProfileCommand,
    shelf: &mut F,
    input: &mut I,
    out: &mut O,
    err: &mut E,
) -> Result<Ending, Refusal>
    requires ranges { IsInRange command.now.limits }
    ensures gave { HasGiven (I.state input.old) (I.state input.new) }
    ensures answers { (d : Devices) → AsTold (I.state input.old) (I.state input.new) (λ old new. Answers
        (profile_task (string_bytes command.now.file) command.now.limits)
        (record d { shelf = F.state shelf.old; input = old; output = O.state out.old; error = E.state err.old })
        (record d { shelf = F.state shelf.new; input = new; output = O.state out.new; error = E.state err.new }) result []) }
{
    let file = read_file(alloc, shelf, command.file.as_str())?;
    let prepared = accepted(alloc, &file, &command.limits)?;
    run_profile(alloc, &prepared, &command.limits, input, out, err)
}
