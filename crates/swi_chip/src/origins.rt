//! What stands at an address of the cache, and where the program goes on that was stopped there.
#![tactic(auto)]

ghost use Rattle.std.specs.Prelude.{◌≡◌, ◌+◌, ◌-◌, ◌*◌, ◌/◌, ◌%◌, ◌^◌, ◌<◌, ◌≤◌, ℕ, List, length, slice_index};
ghost use Rattle.swi_image.specs.Format.{ImageData};
ghost use Rattle.swi_image.specs.Place.{next_of, word_before};
ghost use Rattle.swi_slots.specs.Slots.{Slots};
ghost use Rattle.swi_slots.specs.Keys.{Images};
ghost use Rattle.swi_chip.specs.Service.{IsSome, StandsFor};
ghost use Rattle.swi_chip.specs.Standing.{Begins, CanRead, Originates, Reads, ReadsBefore, ReadsBehind, Resumes, SomeTexts, Stands, TextTables, chosen_from};

use crate::answer::DAMAGED;
use crate::chip::Chip;
use crate::serving::{begin_of, length_of};
use swi_isa::EBREAK;

/// The block that stands at an address of the cache, and the offset there.
pub fn standing(chip: &Chip<'_>, pc: u32) -> Option<(u32, u32)>
    requires some { IsSome chip.now }
    ensures { Stands chip.now pc result }
{
    let distance = pc.wrapping_sub(chip.cache_at);
    if distance >= chip.cache_bytes {
        return None;
    }
    let index = distance / 4;
    let slot = chip.size.slot_of(index);
    if slot >= chip.filled {
        return None;
    }
    let block = chip.blocks[slot as usize];
    let offset = chip.size.rest_of(index);
    let count = length_of(chip.ends, block);
    if offset >= count {
        return None;
    }
    Some((block, offset))
}

/// The number of the first text word behind a block.
fn next_start(starts: &[u32], texts: u32, block: u32) -> u32
    ensures { result ≡ next_of starts.now texts block }
{
    if block as usize + 1 < starts.len() {
        starts[block as usize + 1]
    } else {
        texts
    }
}

/// The last text word of a block that begins at or before an offset, by halving.
fn text_word(starts: &[u32], places: &[u32], block: u32, offset: u32) -> u32
    requires some { SomeTexts starts.now places.now }
    requires block { block < length starts.now }
    ensures word { (v : ImageData) → TextTables v starts.now places.now → result ≡ word_before v block offset }
    ensures few { result < 2 ^ 19 }
{
    let mut low = starts[block as usize];
    let mut high = next_start(starts, places.len() as u32, block);
    while low < high {
        let middle = low + (high - low) / 2;
        if places[middle as usize] % 0x400 <= offset {
            low = middle + 1;
        } else {
            high = middle;
        }
    }
    low - 1
}

/// The text address of the last instruction of a block that begins at or before an offset.
fn text_address(chip: &Chip<'_>, block: u32, offset: u32) -> u32
    requires some { IsSome chip.now }
    requires block { block < length chip.now.starts.now }
    ensures { Begins chip.now block offset result }
{
    chip.base
        .wrapping_add(4 * text_word(chip.starts, chip.places, block, offset))
}

/// The text address of the instruction whose rendering has the word at an address of the cache; [`DAMAGED`] where no
/// block's word stands there.
pub fn origin(chip: &Chip<'_>, pc: u32) -> u32
    requires some { IsSome chip.now }
    ensures { Originates chip.now pc result }
{
    let Some((block, offset)) = standing(chip, pc) else {
        return DAMAGED;
    };
    text_address(chip, block, offset)
}

/// The image's word at an offset of a block.
fn word(chip: &Chip<'_>, block: u32, offset: u32) -> u32
    requires can { CanRead chip.now block offset }
    ensures { Reads chip.now block offset result }
{
    let begin = begin_of(chip.ends, block);
    chip.words[(begin + offset) as usize]
}

/// The word before it in the block; 0 where it is the first.
fn word_before(chip: &Chip<'_>, block: u32, offset: u32) -> u32
    requires can { CanRead chip.now block offset }
    ensures { ReadsBefore chip.now block offset result }
{
    if offset == 0 {
        return 0;
    }
    word(chip, block, offset - 1)
}

/// The word behind it in the block; 1 where it is the last.
fn word_behind(chip: &Chip<'_>, block: u32, offset: u32) -> u32
    requires can { CanRead chip.now block offset }
    ensures { ReadsBehind chip.now block offset result }
{
    let count = length_of(chip.ends, block);
    if offset + 1 >= count {
        return 1;
    }
    word(chip, block, offset + 1)
}

/// Where a program goes on, by the word and those before and behind it.
fn chosen(before: u32, here: u32, behind: u32, origin: u32) -> u32
    ensures { result ≡ chosen_from before here behind origin }
{
    if before == EBREAK && here % 4 == 1 {
        return here.wrapping_add(3);
    }
    if here == EBREAK && behind % 4 == 0 {
        return behind;
    }
    origin
}

/// The text address at which a program goes on that was interrupted before the word at an address of the cache;
/// [`DAMAGED`] where no block's word stands there.
///
/// Each rendering can be begun again at any of its words, since what comes before its last one is LUI and ADDI of constants
/// alone. At a direct exit, linked or not, its instruction is done, and control is on the way to the descriptor. Behind an
/// exit for a word of the text whose word stands there in its place ([`crate::put`]), it goes on behind that word.
pub fn resume(chip: &Chip<'_>, pc: u32) -> u32
    requires some { IsSome chip.now }
    ensures { Resumes chip.now pc result }
{
    let Some((block, offset)) = standing(chip, pc) else {
        return DAMAGED;
    };
    let before = word_before(chip, block, offset);
    let here = word(chip, block, offset);
    let behind = word_behind(chip, block, offset);
    let origin = text_address(chip, block, offset);
    chosen(before, here, behind, origin)
}
