//! The file of a program that runs on the flat machine.
#![tactic(auto)]

ghost use Rattle.std.specs.Prelude.{◌≤◌, IfOk, IfErr, OnOk, length};
ghost use Rattle.swi_command.specs.CommandLine.{IsInRange};
ghost use Rattle.swi_task.specs.Checks.{IsAccepted, IsRefusedOr, file_limit};
ghost use Rattle.swi_task.specs.Subject.{IsPrepared};
ghost use Rattle.swi_file_commands.specs.RunFlat.{flat_checks};

use std::alloc::Global;
use swi_answer::Refusal;
use swi_command::RunLimits;
use swi_elf_read::image_bytes;
use swi_task::{Prepared, accept, own_image, prepare};

/// The program of a file with its layout: the file passes every check of a run on the flat machine.
pub(crate) fn accepted<'a>(
    alloc: Global,
    file: &'a [u8],
    limits: &RunLimits,
) -> Result<Prepared<'a>, Refusal>
    requires within { length file.now ≤ file_limit }
    requires ranges { IsInRange limits.now }
    ensures prepared { IfOk result (IsPrepared file.now limits.now) }
    ensures accepted { OnOk result (IsAccepted (flat_checks limits.now file.now)) }
    ensures refused { IfErr result (IsRefusedOr (flat_checks limits.now file.now)) }
{
    let elf = accept(file)?;
    let prepared = prepare(alloc, &elf, limits)?;
    let Some(bytes) = image_bytes(&elf) else {
        return Ok(prepared);
    };
    own_image(&prepared.program, bytes)?;
    Ok(prepared)
}
