//! Transfers of control, served.
#![tactic(auto)]

ghost use Rattle.std.specs.Prelude.{◌≡◌, ◌==◌, ◌+◌, ◌-◌, ◌*◌, ◌/◌, ◌%◌, ◌^◌, ◌<◌, ◌≤◌, ℕ, List, length, slice_index, slice_set, Option, true, false, min, if◌then◌else◌};
ghost use Rattle.swi_image.specs.Format.{ImageData};
ghost use Rattle.swi_image.specs.Place.{place_of};
ghost use Rattle.swi_image.specs.Sound.{IsImage};
ghost use Rattle.swi_slots.specs.Slots.{Slots};
ghost use Rattle.swi_slots.specs.Steps.{wrapped};
ghost use Rattle.swi_slots.specs.Keys.{Images};
ghost use Rattle.swi_chip.specs.Memo.{Forgets, KeepsMemo};
ghost use Rattle.swi_chip.specs.Undone.{begin_in};
ghost use Rattle.swi_chip.specs.Service.{CanCross, CanCrossNew, CanEnterNew, CanFill, CanLinkHere, CanLinkExit, CountsRefused, CountedMiss, CountedService, Crosses, CrossesNew, Enters, EntersNew, HasArrived, HasTables, IsSome, LinkedExit, Exits, CanExit, StandsFor, StaysPut, ToFill, ToLinkExit};

use crate::answer::{AGAIN, DAMAGED, NO_TEXT};
use crate::chip::{Chip, ChipCounts};
use crate::linking::link;
use crate::memo;
use crate::missing::miss;
use crate::waiting::{crowded, undo_portion};

/// Where a block's words begin in the row of the image's words.
#[inline(always)]
pub fn begin_of(ends: &[u32], block: u32) -> u32
    requires block { block ≤ length ends.now }
    ensures { result ≡ begin_in ends.now block }
{
    if block == 0 {
        0
    } else {
        ends[(block - 1) as usize]
    }
}

/// How many words a block has.
#[inline(always)]
pub fn length_of(ends: &[u32], block: u32) -> u32
    requires block { block < length ends.now }
    requires order { begin_in ends.now block ≤ slice_index ends.now block }
    ensures { result ≡ slice_index ends.now block - begin_in ends.now block }
{
    let begin = if block == 0 {
        0
    } else {
        ends[(block - 1) as usize]
    };
    ends[block as usize] - begin
}

/// How many words a block has, where it has to leave; else 0.
#[inline(always)]
fn leaving(ends: &[u32], block: u32, leaves: bool) -> u32
    requires block { leaves ≡ true → block < length ends.now }
    requires order { leaves ≡ true → begin_in ends.now block ≤ slice_index ends.now block }
    ensures { result ≡ (if leaves then slice_index ends.now block - begin_in ends.now block else 0) }
{
    if leaves { length_of(ends, block) } else { 0 }
}

/// A block has no mark from now on, where it has to leave.
#[inline(always)]
fn forget(marks: &mut [u16], block: u32, leaves: bool)
    requires { leaves ≡ true → block < length marks.old }
    ensures { marks.new ≡ (if leaves then slice_set marks.old block 0 else marks.old) }
{
    if leaves {
        marks[block as usize] = 0;
    }
}

/// Counts a miss that copied so many words, and an eviction with so many links undone.
#[inline(always)]
fn count_miss(counts: &mut ChipCounts, evicts: bool, undone: u16, words: u32)
    ensures { CountedMiss counts.old counts.new evicts undone words }
{
    if evicts {
        counts.evictions = counts.evictions.wrapping_add(1);
        counts.unlinks = counts.unlinks.wrapping_add(u32::from(undone));
    }
    counts.misses = counts.misses.wrapping_add(1);
    counts.copied = counts.copied.wrapping_add(words);
}

/// Counts a service, but for the boot, while no slot is filled.
#[inline(always)]
fn count_service(counts: &mut ChipCounts, filled: u32)
    ensures { CountedService counts.old counts.new filled }
{
    if filled > 0 {
        counts.services = counts.services.wrapping_add(1);
    }
}

/// The slot after a slot: after the last one comes the first.
#[inline(always)]
fn following(slot: u32, slots: u32) -> u32
    requires { slot < slots }
    ensures { result ≡ wrapped (slot + 1) slots }
{
    if slot + 1 == slots { 0 } else { slot + 1 }
}

/// Copies a block that stands in no slot into the next one; the answer is its mark.
#[inline(never)]
fn fill(chip: &mut Chip<'_>, block: u32) -> u32
    requires can { CanFill chip.old block }
    ensures arrived { (s : Slots) (vs : Images) (ram : List ℕ) (lists : List (List ℕ)) → ToFill s vs ram lists block chip.old →
        HasArrived s vs ram block result chip.new }
    ensures bound { CountsRefused false chip.old chip.new }
    ensures memo { Forgets chip.old chip.new }
    ensures stays { StaysPut chip.old chip.new }
{
    let slot = chip.next;
    let is_full = chip.filled == chip.slots;
    let old = chip.blocks[slot as usize];
    let old_words = leaving(chip.ends, old, is_full);
    let new_words = length_of(chip.ends, block);
    forget(chip.marks, old, is_full);
    memo::forget(chip.memo, is_full);
    let undone = miss(
        chip.cache,
        chip.heads,
        chip.links,
        chip.blocks,
        slot,
        is_full,
        old_words,
        block,
        new_words,
        chip.ends,
        chip.words,
        chip.size,
    );
    let mark = slot * chip.size.words + 1;
    chip.marks[block as usize] = mark as u16;
    count_miss(&mut chip.counts, is_full, undone, new_words);
    chip.next = following(slot, chip.slots);
    chip.filled = (chip.filled + 1).min(chip.slots);
    mark
}

/// The place of the text word at an address.
#[inline(always)]
fn place(chip: &Chip<'_>, target: u32) -> Option<(u32, u32)>
    requires text { chip.now.text_bytes ≡ 4 * length chip.now.places.now }
    ensures { (v : ImageData) (ends : List ℕ) → IsImage v → HasTables v chip.now.base chip.now.places.now ends → result ≡ place_of v target }
{
    let distance = target.wrapping_sub(chip.base);
    if distance % 4 != 0 {
        return None;
    }
    if distance >= chip.text_bytes {
        return None;
    }
    let place = chip.places[(distance / 4) as usize];
    Some((place / 0x2000, place % 0x400))
}

/// The address of a word of the cache.
#[inline(always)]
fn address(cache_at: u32, index: u32) -> u32
    requires { index < 2 ^ 16 }
    ensures { result ≡ (cache_at + 4 * index) % 2 ^ 32 }
{
    cache_at.wrapping_add(4 * index)
}

/// [`enter`], where the block stands in no slot.
#[inline(never)]
fn enter_new(chip: &mut Chip<'_>, block: u32, offset: u32) -> u32
    requires can { CanEnterNew chip.old block offset }
    ensures served { EntersNew chip.old chip.new block offset result }
    ensures memo { Forgets chip.old chip.new }
    ensures stays { StaysPut chip.old chip.new }
{
    if crowded(chip) {
        undo_portion(chip);
        return AGAIN;
    }
    count_service(&mut chip.counts, chip.filled);
    let mark = fill(chip, block);
    address(chip.cache_at, mark - 1 + offset)
}

/// Enters the cache at the place of a text address, for a jump over a register: the address of that place. It is
/// [`NO_TEXT`] exactly where no text word stands at the text address, and then nothing has changed. A block that stands in
/// no slot is copied into the next one, whose block leaves, and the links into that become exits again. Where these are more
/// than eight, eight become exits, and the answer is [`AGAIN`]: the caller makes the same call again.
///
/// The policy is first in, first out, and all that the chip keeps moves on as that of `swi_slots`.
pub fn enter(chip: &mut Chip<'_>, target: u32) -> u32
    requires some { IsSome chip.old }
    ensures served { Enters chip.old chip.new target result }
    ensures memo { Forgets chip.old chip.new }
    ensures stays { StaysPut chip.old chip.new }
{
    let Some((block, offset)) = place(chip, target) else {
        return NO_TEXT;
    };
    let mark = u32::from(chip.marks[block as usize]);
    if mark == 0 {
        return enter_new(chip, block, offset);
    }
    count_service(&mut chip.counts, chip.filled);
    address(chip.cache_at, mark - 1 + offset)
}

/// Makes the exit at an index a jump to another one, in a slot, but where as many lead there as may: then it only counts
/// that. The cache is small, so that each JAL reaches.
#[inline(always)]
fn link_here(chip: &mut Chip<'_>, at: u32, slot: u32, to: u32)
    requires can { CanLinkHere chip.old at slot to }
    ensures linked { (t : Slots) (vs : Images) (words : List ℕ) (lists : List (List ℕ)) (home : ℕ) → ToLinkExit t vs words lists at home slot to chip.old →
        slice_index chip.old.blocks.now (at / chip.old.size.words) ≡ home → LinkedExit t vs words lists at home slot to chip.old chip.new }
    ensures memo { KeepsMemo chip.old chip.new }
    ensures stays { StaysPut chip.old chip.new }
{
    if u32::from(chip.links[slot as usize]) >= chip.most {
        chip.counts.refused = chip.counts.refused.wrapping_add(1);
        return;
    }
    link(chip.cache, chip.heads, chip.links, at, slot, to);
    chip.counts.links = chip.counts.links.wrapping_add(1);
}

/// The same, where the exit's block still stands in its slot.
#[inline(always)]
fn link_exit(chip: &mut Chip<'_>, at: u32, home: u32, slot: u32, to: u32)
    requires can { CanLinkExit chip.old at home slot to }
    ensures linked { (t : Slots) (vs : Images) (words : List ℕ) (lists : List (List ℕ)) → ToLinkExit t vs words lists at home slot to chip.old →
        LinkedExit t vs words lists at home slot to chip.old chip.new }
    ensures memo { KeepsMemo chip.old chip.new }
    ensures stays { StaysPut chip.old chip.new }
{
    let row = chip.size.slot_of(at);
    if chip.blocks[row as usize] != home {
        return;
    }
    link_here(chip, at, slot, to);
}

/// [`cross`], where the target's block stands in no slot.
#[inline(never)]
fn cross_new(chip: &mut Chip<'_>, at: u32, block: u32, offset: u32) -> u32
    requires can { CanCrossNew chip.old at block offset }
    ensures served { CrossesNew chip.old chip.new at block offset result }
    ensures memo { Forgets chip.old chip.new }
    ensures stays { StaysPut chip.old chip.new }
{
    if crowded(chip) {
        undo_portion(chip);
        return AGAIN;
    }
    let row = chip.size.slot_of(at);
    let home = chip.blocks[row as usize];
    count_service(&mut chip.counts, chip.filled);
    let first = fill(chip, block) - 1;
    let slot = chip.size.slot_of(first);
    let to = first + offset;
    link_exit(chip, at, home, slot, to);
    address(chip.cache_at, to)
}

/// Goes over the direct exit at an index, which isn't linked, to its target, the text address behind it: as [`enter`]. Then
/// the exit becomes a link to the target's place, a JAL x0, where its own block still stands.
#[inline(always)]
pub fn cross(chip: &mut Chip<'_>, at: u32, target: u32) -> u32
    requires can { CanCross chip.old at target }
    ensures served { Crosses chip.old chip.new at target result }
    ensures memo { Forgets chip.old chip.new }
    ensures stays { StaysPut chip.old chip.new }
{
    let Some((block, offset)) = place(chip, target) else {
        return NO_TEXT;
    };
    let mark = u32::from(chip.marks[block as usize]);
    if mark == 0 {
        return cross_new(chip, at, block, offset);
    }
    count_service(&mut chip.counts, chip.filled);
    let first = mark - 1;
    let slot = chip.size.slot_of(first);
    let to = first + offset;
    link_here(chip, at, slot, to);
    address(chip.cache_at, to)
}

/// Goes over the direct exit at an address of the cache, as [`cross`]. It is [`DAMAGED`] exactly where the address is none
/// of the cache, and then nothing has changed.
pub fn exit(chip: &mut Chip<'_>, pc: u32, target: u32) -> u32
    requires can { CanExit chip.old pc target }
    ensures served { Exits chip.old chip.new pc target result }
    ensures memo { Forgets chip.old chip.new }
    ensures stays { StaysPut chip.old chip.new }
{
    let distance = pc.wrapping_sub(chip.cache_at);
    if distance >= chip.cache_bytes {
        return DAMAGED;
    }
    cross(chip, distance / 4, target)
}
