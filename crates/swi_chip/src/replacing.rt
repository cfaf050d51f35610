//! Two words in place of an exit.
#![tactic(auto)]

ghost use Rattle.std.specs.Prelude.{◌≡◌, ◌+◌, ◌*◌, ◌/◌, ◌<◌, ◌≤◌, ℕ, length, slice_index};
ghost use Rattle.swi_chip.specs.Service.{IsSome};
ghost use Rattle.swi_chip.specs.Replacing.{Puts};

use crate::chip::Chip;
use crate::origins::standing;
use crate::serving::length_of;

/// Puts two words in place of the exit at an address of the cache, which stands for a word of the text, until its block
/// leaves: that word and a NOP, say, for one that the processor executes by itself. Neither may be a JAL x0, which only
/// links are. At the block's end, where nothing stands behind the exit, and where no block stands there, nothing changes.
///
/// Of the calls behind it nothing is proved, since the cache has other words than the model's ram then.
pub fn put(chip: &mut Chip<'_>, pc: u32, first: u32, second: u32)
    requires some { IsSome chip.old }
    ensures { Puts chip.old chip.new pc first second }
{
    let Some((block, offset)) = standing(chip, pc) else {
        return;
    };
    let count = length_of(chip.ends, block);
    if offset + 2 >= count {
        return;
    }
    let at = (pc.wrapping_sub(chip.cache_at) / 4) as usize;
    chip.cache[at] = first;
    chip.cache[at + 1] = second;
}
