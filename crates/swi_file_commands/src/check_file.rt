//! The command `check`.
#![tactic(auto)]

ghost use Rattle.std.specs.Prelude.{◌≡◌, ◌≤◌, ℕ, List, IfOk, IfErr, OnOk, Some, [], length, string_bytes};
ghost use Rattle.swi_elf_read.specs.Loaded.{image_of as image_in};
ghost use Rattle.swi_image.specs.Format.{image_of};
ghost use Rattle.swi_task.specs.Answers.{Answers};
ghost use Rattle.swi_file_commands.specs.CheckFile.{check_task};
ghost use Rattle.swi_task.specs.Checks.{IsAccepted, IsRefusedOr, file_limit, image_checks};
ghost use Rattle.swi_task.specs.Devices.{Devices};

use std::alloc::Global;
use swi_answer::{Ending, Refusal, image_line};
use swi_command::CheckCommand;
use swi_elf_read::image_bytes;
use swi_image::ImageView;
use swi_outside::{Shelf, Sink};
use swi_task::{accept, load, own_image, read_file};

/// The image of a file, which is one of its text.
fn confirmed<'a>(alloc: Global, file: &'a [u8]) -> Result<ImageView<'a>, Refusal>
    requires within { length file.now ≤ file_limit }
    ensures view { IfOk result (λ v. (bytes : List ℕ) × (image_in file.now ≡ Some bytes) × (v ≡ image_of bytes)) }
    ensures accepted { OnOk result (IsAccepted (image_checks file.now)) }
    ensures refused { IfErr result (IsRefusedOr (image_checks file.now)) }
{
    let elf = accept(file)?;
    let program = load(alloc, &elf)?;
    match image_bytes(&elf) {
        Some(bytes) => own_image(&program, bytes),
        None => Err(Refusal::NoImage),
    }
}

/// Checks that the image of a file is one of its text, and writes a line that says so.
pub fn check<F: Shelf, O: Sink>(
    alloc: Global,
    command: &CheckCommand,
    shelf: &mut F,
    out: &mut O,
) -> Result<Ending, Refusal>
    ensures { (d : Devices) → Answers (check_task (string_bytes command.now.file))
        (record d { shelf = F.state shelf.old; output = O.state out.old })
        (record d { shelf = F.state shelf.new; output = O.state out.new }) result [] }
{
    let file = read_file(alloc, shelf, command.file.as_str())?;
    let view = confirmed(alloc, &file)?;
    match out.write(image_line(view.blocks(), view.block_words()).as_bytes()) {
        Ok(()) => Ok(Ending::Done),
        Err(_) => Err(Refusal::SinkFault),
    }
}
