//! A jump over a register leaves its block.
#![tactic(auto)]

ghost use Rattle.std.specs.Prelude.{◌≡◌, ◌==◌, ◌+◌, ◌-◌, ◌*◌, ◌/◌, ◌%◌, ◌^◌, ◌<◌, length, slice_index, slice_set, if◌then◌else◌};
ghost use Rattle.swi_chip.specs.Leaving.{Leaves, Links, linked_by};
ghost use Rattle.swi_chip.specs.Memo.{Forgets};
ghost use Rattle.swi_chip.specs.Service.{IsSome, StaysPut};

use crate::answer::{AGAIN, DAMAGED, MISALIGNED};
use crate::chip::{Chip, Registers};
use crate::serving::enter;

/// Writes the value that a JALR links to its register, but to x0, where it links.
#[inline(always)]
fn link_register(registers: &mut Registers, jalr: u32, value: u32, links: bool)
    ensures { registers.new.x ≡ (if links then linked_by registers.old.x jalr value else registers.old.x) }
{
    let rd = jalr / 0x80 % 0x20;
    if links && rd != 0 {
        registers.x[rd as usize] = value;
    }
}

/// Leaves the block by the JALR whose exit stands at an address of the cache, to a text address: as [`enter`]. The register
/// that it names has the value that it links then, which stands in the block; it is read before this may leave.
///
/// [`MISALIGNED`] where the target is no multiple of 4, and [`DAMAGED`] where the address is none of an exit in the cache:
/// then nothing has changed. Where a portion of links was undone ([`AGAIN`]) no register has.
pub fn leave(chip: &mut Chip<'_>, registers: &mut Registers, pc: u32, target: u32) -> u32
    requires some { IsSome chip.old }
    ensures served { Leaves chip.old chip.new pc target result }
    ensures links { Links chip.old registers.old.x registers.new.x pc target result }
    ensures memo { Forgets chip.old chip.new }
    ensures stays { StaysPut chip.old chip.new }
{
    let distance = pc.wrapping_sub(chip.cache_at);
    if distance >= chip.cache_bytes - 8 {
        return DAMAGED;
    }
    if target % 4 != 0 {
        return MISALIGNED;
    }
    let at = (distance / 4) as usize;
    let jalr = chip.cache[at + 1];
    let value = chip.cache[at + 2];
    let to = enter(chip, target);
    link_register(registers, jalr, value, to != AGAIN);
    to
}
