//! The command `list`.
#![tactic(auto)]

ghost use Rattle.std.specs.Prelude.{◌≡◌, ◌≤◌, IfOk, IfErr, OnOk, [], length, string_bytes};
ghost use Rattle.std.specs.Io.KnownBytes.{Appends};
ghost use Rattle.swi_outside.specs.Causes.{HasCause};
ghost use Rattle.swi_outside.specs.Sink.{AppendsPrefix};
ghost use Rattle.swi_command.specs.CommandLine.{IsBlockSize};
ghost use Rattle.swi_program.specs.Text.{text_of};
ghost use Rattle.swi_render.specs.ImageOf.{IsImageOf};
ghost use Rattle.swi_task.specs.Answers.{Answers};
ghost use Rattle.swi_task.specs.Checks.{IsAccepted, IsRefusedOr, file_limit};
ghost use Rattle.swi_task.specs.Devices.{Devices};
ghost use Rattle.swi_file_commands.specs.ListFile.{list_checks, list_task, listing};
ghost use Rattle.swi_task.specs.Subject.{IsSubject};

use std::alloc::Global;
use swi_answer::{Ending, Refusal};
use swi_command::ListCommand;
use swi_image::ImageView;
use swi_outside::{Shelf, Sink};
use swi_program::Program;
use swi_task::{Subject, accept, load, read_file, subject_of};
use swi_trace::list_block;

/// Lists the blocks of an image of the program, in their order.
fn list_blocks<O: Sink>(
    program: &Program<'_>,
    image: &ImageView<'_>,
    out: &mut O,
) -> Result<Ending, Refusal>
    requires own { IsImageOf (text_of program.now.segments) image.now }
    ensures done { IfOk result (λ e. (e ≡ Ending.Done)
        × Appends (O.state out.old).held (O.state out.new).held (listing (text_of program.now.segments) image.now)) }
    ensures failed { IfErr result (λ r. (r ≡ Refusal.SinkFault)
        × AppendsPrefix (O.state out.old).held (O.state out.new).held (listing (text_of program.now.segments) image.now)) }
    ensures cause { HasCause (O.state out.old).faults (O.state out.new).faults result }
{
    for block in 0..image.blocks() {
        if list_block(program, image, block, out).is_err() {
            return Err(Refusal::SinkFault);
        }
    }
    Ok(Ending::Done)
}

/// The program of a file, with the image that the file has or else the greedy cut of its text.
fn listed<'a>(alloc: Global, file: &'a [u8], block_words: u32) -> Result<Subject<'a>, Refusal>
    requires within { length file.now ≤ file_limit }
    requires size { IsBlockSize block_words }
    ensures subject { IfOk result (IsSubject file.now block_words) }
    ensures accepted { OnOk result (IsAccepted (list_checks block_words file.now)) }
    ensures refused { IfErr result (IsRefusedOr (list_checks block_words file.now)) }
{
    let elf = accept(file)?;
    let program = load(alloc, &elf)?;
    subject_of(alloc, &elf, program, block_words)
}

/// Lists the blocks of the program of a file.
pub fn list<F: Shelf, O: Sink>(
    alloc: Global,
    command: &ListCommand,
    shelf: &mut F,
    out: &mut O,
) -> Result<Ending, Refusal>
    requires size { IsBlockSize command.now.block_words }
    ensures { (d : Devices) → Answers (list_task (string_bytes command.now.file) command.now.block_words)
        (record d { shelf = F.state shelf.old; output = O.state out.old })
        (record d { shelf = F.state shelf.new; output = O.state out.new }) result [] }
{
    let file = read_file(alloc, shelf, command.file.as_str())?;
    let subject = listed(alloc, &file, command.block_words)?;
    list_blocks(&subject.program, &subject.image.view(), out)
}
