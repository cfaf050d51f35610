//! The program of a file with its layout and its image, for a run in a cache.
#![tactic(auto)]

ghost use Rattle.std.specs.Prelude.{◌*◌, ◌≤◌, IfOk, IfErr, OnOk, length};
ghost use Rattle.swi_command.specs.CommandLine.{IsBlockSize, IsInRange};
ghost use Rattle.swi_task.specs.Checks.{IsAccepted, IsRefusedBy, IsRefusedOr, file_limit};
ghost use Rattle.swi_cached_task.specs.Placing.{IsPlaced, hold_block, placed_checks};

use std::alloc::Global;
use swi_answer::Refusal;
use swi_command::RunLimits;
use swi_memory::Layout;
use swi_task::{Prepared, Subject, accept, check_block, prepare, subject_of};

/// A subject with the layout of its program.
#[derive(Drop)]
pub struct Placed<'a> {
    pub subject: Subject<'a>,
    pub layout: Layout,
}

/// Refuses the first cache that holds no block.
fn check_blocks(sizes: &[u32], block_words: u32) -> Result<(), Refusal>
    requires most { block_words ≤ 1024 }
    ensures hold { OnOk result (IsAccepted (hold_block sizes.now (4 * block_words))) }
    ensures refused { IfErr result (IsRefusedBy (hold_block sizes.now (4 * block_words))) }
{
    for bytes in sizes {
        check_block(*bytes, block_words)?;
    }
    Ok(())
}

/// The program of a file of at most 2^26 bytes with its layout, and with the image that the file has or else the greedy cut
/// of its text into blocks of at most so many words, 2 to 1024: the file passes every check of a run in each of the caches
/// of these sizes in bytes.
///
/// The refusal is by the first check that fails; the only other error is Memory.
pub fn place<'a>(
    alloc: Global,
    file: &'a [u8],
    sizes: &[u32],
    block_words: u32,
    limits: &RunLimits,
) -> Result<Placed<'a>, Refusal>
    requires within { length file.now ≤ file_limit }
    requires ranges { IsInRange limits.now }
    requires block { IsBlockSize block_words }
    ensures placed { IfOk result (IsPlaced file.now limits.now block_words) }
    ensures accepted { OnOk result (IsAccepted (placed_checks limits.now sizes.now block_words file.now)) }
    ensures refused { IfErr result (IsRefusedOr (placed_checks limits.now sizes.now block_words file.now)) }
{
    let elf = accept(file)?;
    let Prepared { program, layout } = prepare(alloc, &elf, limits)?;
    let subject = subject_of(alloc, &elf, program, block_words)?;
    check_blocks(sizes, subject.block_words())?;
    Ok(Placed { subject, layout })
}
