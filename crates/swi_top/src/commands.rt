//! The commands, over the devices that are handed in.
#![tactic(auto)]

ghost use Rattle.std.specs.Prelude.{[]};
ghost use Rattle.swi_outside.specs.Source.{HasGiven};
ghost use Rattle.swi_outside.specs.Told.{AsTold};
ghost use Rattle.swi_command.specs.CommandLine.{HasLimitsInRange, request_of};
ghost use Rattle.swi_task.specs.Answers.{Answers};
ghost use Rattle.swi_task.specs.Devices.{seen};
ghost use Rattle.swi_top.specs.Tasks.{task_of};

use std::alloc::Global;
use swi_answer::{Ending, Refusal};
use swi_cached_command::cached;
use swi_command::Command;
use swi_file_commands::{check, list, plain, profile, rewrite, upgrade};
use swi_measure_command::measure;
use swi_outside::{Shelf, Sink, Source, SteadyRam};
use swi_prefetch_command::prefetch;
use swi_share_command::share;
use swi_survey_command::survey;

/// Does what a command asks for, but for its last line on the error sink.
pub(crate) fn perform<F: Shelf, I: Source, O: Sink, E: Sink, R: SteadyRam>(
    alloc: Global,
    command: &Command,
    shelf: &mut F,
    input: &mut I,
    out: &mut O,
    err: &mut E,
    ram: &mut R,
) -> Result<Ending, Refusal>
    requires limits { HasLimitsInRange command.now }
    ensures gave { HasGiven (I.state input.old) (I.state input.new) }
    ensures answers { AsTold (I.state input.old) (I.state input.new) (λ before after. Answers (task_of (request_of command.now))
        (seen (F.state shelf.old) before (O.state out.old) (E.state err.old) (R.state ram.old))
        (seen (F.state shelf.new) after (O.state out.new) (E.state err.new) (R.state ram.new)) result []) }
{
    match command {
        Command::Rewrite(command) => rewrite(alloc, command, shelf),
        Command::Cached(command) => cached(alloc, command, shelf, input, out, err, ram),
        Command::Prefetch(command) => prefetch(alloc, command, shelf, input, out, err, ram),
        Command::Plain(command) => plain(alloc, command, shelf, input, out, err),
        Command::List(command) => list(alloc, command, shelf, out),
        Command::Check(command) => check(alloc, command, shelf, out),
        Command::Upgrade(command) => upgrade(alloc, command, shelf),
        Command::Measure(command) => measure(alloc, command, out, ram),
        Command::Share(command) => share(alloc, command, shelf, out, err, ram),
        Command::Profile(command) => profile(alloc, command, shelf, input, out, err),
        Command::Survey(command) => survey(alloc, command, shelf, input, out, err, ram),
    }
}
