//! The cache service of `swi_chip`, as C calls it.
#![tactic(auto)]

ghost use Rattle.std.specs.Prelude.{◌≡◌, length};
ghost use Rattle.swi_image.specs.Format.{ImageData};
ghost use Rattle.swi_chip.specs.Leaving.{Leaves, Links};
ghost use Rattle.swi_chip.specs.Memo.{Forgets, HasNone};
ghost use Rattle.swi_chip.specs.Replacing.{Puts};
ghost use Rattle.swi_chip.specs.Service.{CanExit, Enters, Exits, IsSome, StaysPut};
ghost use Rattle.swi_chip.specs.Standing.{Originates, Resumes};
ghost use Rattle.swi_chip.specs.Starting.{CanStart, Starts};
ghost use Rattle.swi_chip_places.specs.Places.{AreOfImage, ArePlaces};

use swi_chip::{Chip, Registers};
use swi_chip_places::fill_places;

/// Two tables of an image, and the table of places. C hands them in, so the fields stand in this order.
#[repr(C)]
pub struct Tables<'a> {
    /// Of each block the number of its first text word.
    pub starts: &'a [u32],
    /// Of each text word its offset in its block.
    pub offsets: &'a [u32],
    /// Of each text word its block times 2^13, plus that offset.
    pub places: &'a mut [u32],
}

/// Begins with an empty cache.
#[unsafe(no_mangle)]
pub extern "C" fn chip_start(chip: &mut Chip<'_>)
    requires memo { length chip.old.memo.now ≡ 17 }
    ensures starts { (v : ImageData) → CanStart chip.old v → Starts chip.old v chip.new }
    ensures memo { HasNone chip.new.memo.now }
    ensures stays { StaysPut chip.old chip.new }
{
    swi_chip::start(chip)
}

/// Serves the direct exit at an address of the cache, whose descriptor is the target, and links it.
#[unsafe(no_mangle)]
pub extern "C" fn chip_exit(chip: &mut Chip<'_>, pc: u32, target: u32) -> u32
    requires can { CanExit chip.old pc target }
    ensures served { Exits chip.old chip.new pc target result }
    ensures memo { Forgets chip.old chip.new }
    ensures stays { StaysPut chip.old chip.new }
{
    swi_chip::exit(chip, pc, target)
}

/// Enters the cache at the place of a text address.
#[unsafe(no_mangle)]
pub extern "C" fn chip_enter(chip: &mut Chip<'_>, target: u32) -> u32
    requires some { IsSome chip.old }
    ensures served { Enters chip.old chip.new target result }
    ensures memo { Forgets chip.old chip.new }
    ensures stays { StaysPut chip.old chip.new }
{
    swi_chip::enter(chip, target)
}

/// Leaves by the JALR whose exit stands at an address of the cache.
#[unsafe(no_mangle)]
pub extern "C" fn chip_leave(
    chip: &mut Chip<'_>,
    registers: &mut Registers,
    pc: u32,
    target: u32,
) -> u32
    requires some { IsSome chip.old }
    ensures served { Leaves chip.old chip.new pc target result }
    ensures links { Links chip.old registers.old.x registers.new.x pc target result }
    ensures memo { Forgets chip.old chip.new }
    ensures stays { StaysPut chip.old chip.new }
{
    swi_chip::leave(chip, registers, pc, target)
}

/// The text address of the instruction whose rendering has the word at an address of the cache.
#[unsafe(no_mangle)]
pub extern "C" fn chip_origin(chip: &Chip<'_>, pc: u32) -> u32
    requires some { IsSome chip.now }
    ensures { Originates chip.now pc result }
{
    swi_chip::origin(chip, pc)
}

/// The text address at which a program goes on that was interrupted before the word at an address of the cache.
#[unsafe(no_mangle)]
pub extern "C" fn chip_resume(chip: &Chip<'_>, pc: u32) -> u32
    requires some { IsSome chip.now }
    ensures { Resumes chip.now pc result }
{
    swi_chip::resume(chip, pc)
}

/// Puts two words in place of the exit at an address of the cache.
#[unsafe(no_mangle)]
pub extern "C" fn chip_put(chip: &mut Chip<'_>, pc: u32, first: u32, second: u32)
    requires some { IsSome chip.old }
    ensures { Puts chip.old chip.new pc first second }
{
    swi_chip::put(chip, pc, first, second)
}

/// Fills the table of places.
#[unsafe(no_mangle)]
pub extern "C" fn chip_places(tables: &mut Tables<'_>)
    requires tables { AreOfImage tables.old.starts.now tables.old.offsets.now }
    requires long { length tables.old.places.now ≡ length tables.old.offsets.now }
    ensures { ArePlaces tables.old.starts.now tables.old.offsets.now tables.new.places.now }
{
    let places = &mut *tables.places;
    fill_places(tables.starts, tables.offsets, places)
}
