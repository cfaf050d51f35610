//! The start: no block stands in the cache.
#![tactic(auto)]

ghost use Rattle.std.specs.Prelude.{◌≡◌, ◌+◌, ◌*◌, ◌/◌, ◌%◌, ◌^◌, ◌<◌, ◌==◌, ℕ, List, [], length, replicate, slice_index};
ghost use Rattle.swi_image.specs.Format.{ImageData};
ghost use Rattle.swi_chip.specs.Memo.{HasNone};
ghost use Rattle.swi_chip.specs.Service.{StaysPut};
ghost use Rattle.swi_chip.specs.Starting.{CanStart, Starts};

use crate::chip::{Chip, ChipCounts};
use crate::memo::empty;

/// Nothing is counted.
fn clear_counts(counts: &mut ChipCounts)
    ensures { counts.new ≡ record { services = 0; misses = 0; evictions = 0; links = 0; unlinks = 0; copied = 0; refused = 0 } }
{
    counts.services = 0;
    counts.misses = 0;
    counts.evictions = 0;
    counts.links = 0;
    counts.unlinks = 0;
    counts.copied = 0;
    counts.refused = 0;
}

/// A table of zeros.
fn clear(table: &mut [u16])
    ensures { table.new ≡ replicate (length table.old) 0 }
{
    table.fill(0);
}

/// Begins with an empty cache: no slot has a block, and nothing is counted. The caller has set all numbers but the counts,
/// `next` and `filled`, and handed in the tables of a sound image, whose words hold no JAL x0.
///
/// From then on the chip stands for a service with slots that has served nothing.
pub fn start(chip: &mut Chip<'_>)
    requires memo { length chip.old.memo.now ≡ 17 }
    ensures starts { (v : ImageData) → CanStart chip.old v → Starts chip.old v chip.new }
    ensures memo { HasNone chip.new.memo.now }
    ensures stays { StaysPut chip.old chip.new }
{
    clear_counts(&mut chip.counts);
    chip.next = 0;
    chip.filled = 0;
    clear(chip.heads);
    clear(chip.links);
    clear(chip.marks);
    empty(chip.memo);
}
