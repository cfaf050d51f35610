//! The command `upgrade`.
#![tactic(auto)]

ghost use Rattle.std.specs.Prelude.{◌≤◌, IfOk, IfErr, OnOk, [], length, string_bytes};
ghost use Rattle.swi_task.specs.Answers.{Answers};
ghost use Rattle.swi_task.specs.Checks.{IsAccepted, IsRefusedOr, file_limit, image_checks};
ghost use Rattle.swi_task.specs.Devices.{Devices};
ghost use Rattle.swi_file_commands.specs.UpgradeFile.{IsUpgraded, upgrade_task};

use std::alloc::Global;
use swi_answer::{Ending, Refusal};
use swi_command::UpgradeCommand;
use swi_cut::upgrade as upgrade_image;
use swi_elf_read::image_bytes;
use swi_outside::Shelf;
use swi_task::{accept, file_with, load, own_image, read_file, write_file};

/// The file of the program of another, with its image in version 2.
fn upgraded(alloc: Global, file: &[u8]) -> Result<Vec<u8>, Refusal>
    requires within { length file.now ≤ file_limit }
    ensures file { IfOk result (λ v. IsUpgraded file.now v.items) }
    ensures accepted { OnOk result (IsAccepted (image_checks file.now)) }
    ensures refused { IfErr result (IsRefusedOr (image_checks file.now)) }
{
    let elf = accept(file)?;
    let program = load(alloc, &elf)?;
    let Some(bytes) = image_bytes(&elf) else {
        return Err(Refusal::NoImage);
    };
    let view = own_image(&program, bytes)?;
    match upgrade_image(alloc, &program, &view) {
        Ok(image) => file_with(alloc, &program, &image),
        Err(_) => Err(Refusal::Memory),
    }
}

/// Puts the program of a file under another name, with the file's image in version 2.
pub fn upgrade<F: Shelf>(
    alloc: Global,
    command: &UpgradeCommand,
    shelf: &mut F,
) -> Result<Ending, Refusal>
    ensures { (d : Devices) → Answers (upgrade_task (string_bytes command.now.input) (string_bytes command.now.output))
        (record d { shelf = F.state shelf.old })
        (record d { shelf = F.state shelf.new }) result [] }
{
    let file = read_file(alloc, shelf, command.input.as_str())?;
    let bytes = upgraded(alloc, &file)?;
    write_file(alloc, shelf, command.output.as_str(), &bytes)?;
    Ok(Ending::Done)
}
