//! The command `rewrite`.
#![tactic(auto)]

ghost use Rattle.std.specs.Prelude.{◌≡◌, ◌≤◌, IfOk, IfErr, OnOk, [], length, string_bytes};
ghost use Rattle.swi_command.specs.CommandLine.{IsBlockSize};
ghost use Rattle.swi_task.specs.Answers.{Answers};
ghost use Rattle.swi_task.specs.Checks.{IsAccepted, IsRefusedOr, file_limit};
ghost use Rattle.swi_task.specs.Devices.{Devices};
ghost use Rattle.swi_file_commands.specs.RewriteFile.{IsRewritten, cutting_of, rewrite_checks, rewrite_task};

use std::alloc::Global;
use swi_answer::{Ending, Refusal};
use swi_command::RewriteCommand;
use swi_cut::Cutting;
use swi_outside::Shelf;
use swi_task::{accept, cut_image_by, file_with, load, read_file, write_file};

/// How a text is cut whose LR/SC loops are to stay whole, or not.
fn cutting_of(whole_loops: bool) -> Cutting
    ensures { result ≡ cutting_of whole_loops }
{
    if whole_loops {
        Cutting::WholeLoops
    } else {
        Cutting::Greedy
    }
}

/// The file of the program of another, with the image of a cut of its text.
fn rewritten(
    alloc: Global,
    file: &[u8],
    block_words: u32,
    whole_loops: bool,
) -> Result<Vec<u8>, Refusal>
    requires within { length file.now ≤ file_limit }
    requires size { IsBlockSize block_words }
    ensures file { IfOk result (λ v. IsRewritten file.now block_words whole_loops v.items) }
    ensures accepted { OnOk result (IsAccepted (rewrite_checks block_words file.now)) }
    ensures refused { IfErr result (IsRefusedOr (rewrite_checks block_words file.now)) }
{
    let elf = accept(file)?;
    let program = load(alloc, &elf)?;
    let image = cut_image_by(alloc, &program, block_words, cutting_of(whole_loops))?;
    file_with(alloc, &program, &image)
}

/// Puts the program of a file under another name, with the image of a cut of its text into blocks of at most so many
/// words: the greedy cut, or with `whole_loops` the one that keeps LR/SC loops whole. An image that the file has is
/// dropped, unread.
pub fn rewrite<F: Shelf>(
    alloc: Global,
    command: &RewriteCommand,
    shelf: &mut F,
) -> Result<Ending, Refusal>
    requires size { IsBlockSize command.now.block_words }
    ensures { (d : Devices) → Answers (rewrite_task (string_bytes command.now.input) (string_bytes command.now.output)
        command.now.block_words command.now.whole_loops)
        (record d { shelf = F.state shelf.old })
        (record d { shelf = F.state shelf.new }) result [] }
{
    let file = read_file(alloc, shelf, command.input.as_str())?;
    let bytes = rewritten(alloc, &file, command.block_words, command.whole_loops)?;
    write_file(alloc, shelf, command.output.as_str(), &bytes)?;
    Ok(Ending::Done)
}
