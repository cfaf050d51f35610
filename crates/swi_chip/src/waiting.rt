//! Links into the slot that is filled next, undone in portions, so that no call takes long.
#![tactic(auto)]

ghost use Rattle.std.specs.Prelude.{◌≡◌, ◌==◌, ◌&&◌, ◌+◌, ◌*◌, ◌/◌, ◌^◌, ◌<◌, ◌%◌, false, not, nat_lt, length, slice_index, if◌then◌else◌};
ghost use Rattle.swi_chip.specs.Memo.{KeepsMemo};
ghost use Rattle.swi_chip.specs.Sizes.{IsInverse};
ghost use Rattle.swi_chip.specs.Undone.{CanRestore, restored};
ghost use Rattle.swi_chip.specs.Service.{CanUndo, CanWait, CountedUndone, CountsRefused, IsSome, StaysPut, Undoes, is_crowded, portion};

use crate::chip::{Chip, ChipCounts};
use crate::lists::leave_first;
use swi_isa::EBREAK;

/// How many links one call undoes.
const PORTION: u16 = 8;

/// Whether more links than one call undoes lead into the slot that is filled next, whose block has to leave.
#[inline(always)]
pub fn crowded(chip: &Chip<'_>) -> bool
    requires some { IsSome chip.now }
    ensures { result ≡ is_crowded chip.now }
{
    chip.filled == chip.slots && chip.links[chip.next as usize] > PORTION
}

/// The word of the image that stands behind an exit, at a cell.
#[inline(always)]
fn descriptor(chip: &Chip<'_>, cell: u16) -> u32
    requires can { CanRestore chip.now.blocks.now chip.now.ends.now chip.now.words.now chip.now.size.words cell }
    requires inverse { IsInverse chip.now.size.words chip.now.size.inverse }
    ensures { result ≡ restored chip.now.blocks.now chip.now.ends.now chip.now.words.now chip.now.size.words cell }
{
    let cell = u32::from(cell);
    let block = chip.blocks[chip.size.slot_of(cell) as usize];
    let begin = if block == 0 {
        0
    } else {
        chip.ends[(block - 1) as usize]
    };
    chip.words[(begin + chip.size.rest_of(cell)) as usize]
}

/// Counts a link that was undone, where it counts.
#[inline(always)]
fn count_undone(counts: &mut ChipCounts, other: bool)
    ensures { CountedUndone counts.old counts.new other }
{
    if other {
        counts.unlinks = counts.unlinks.wrapping_add(1);
    }
}

/// Makes the first link into the slot that is filled next an exit again, as it stands in the image. It counts where it isn't
/// the slot's own, which leaves uncounted with its block.
#[inline(always)]
fn undo_first(chip: &mut Chip<'_>)
    requires can { CanUndo chip.old }
    ensures undone { Undoes 1 chip.old chip.new }
    ensures stays { StaysPut chip.old chip.new }
    ensures bound { CountsRefused false chip.old chip.new }
    ensures memo { KeepsMemo chip.old chip.new }
    ensures full { chip.new.filled ≡ chip.old.filled }
    ensures slots { chip.new.slots ≡ chip.old.slots }
{
    let slot = chip.next;
    let cell = chip.heads[slot as usize];
    let row = chip.size.slot_of(u32::from(cell));
    let word = descriptor(chip, cell);
    leave_first(chip.cache, chip.heads, cell, slot);
    chip.cache[(cell - 1) as usize] = EBREAK;
    chip.cache[cell as usize] = word;
    chip.links[slot as usize] -= 1;
    count_undone(&mut chip.counts, row != slot);
}

/// Undoes a portion of the links into the slot that is filled next.
#[inline(never)]
pub fn undo_portion(chip: &mut Chip<'_>)
    requires can { CanWait chip.old }
    ensures undone { Undoes portion chip.old chip.new }
    ensures stays { StaysPut chip.old chip.new }
    ensures bound { CountsRefused false chip.old chip.new }
    ensures memo { KeepsMemo chip.old chip.new }
{
    for _k in 0..PORTION {
        undo_first(chip);
    }
}
