//! One original instruction of one program.
#![tactic(auto)]

ghost use Rattle.std.specs.Prelude.{◌≡◌, ◌-◌, ◌^◌, ◌<◌, ◌&&◌, List, ℕ, None, true, OnOk, OnErr};
ghost use Rattle.swi_image.specs.Place.{place_of};
ghost use Rattle.swi_rom.specs.Record.{writes};
ghost use Rattle.swi_rom.specs.Served.{Keeps, SameFrom};
ghost use Rattle.swi_slots.specs.Fifo.{extent_of};
ghost use Rattle.swi_slots.specs.Service.{slots_service};
ghost use Rattle.swi_slots.specs.Slots.{kept_by, setting_of, span_of, shown_by};
ghost use Rattle.swi_slots.specs.Sound.{SlotsSound};
ghost use Rattle.swi_hart.specs.Hart.{index_of, place_under};
ghost use Rattle.swi_hart.specs.Leaving.{RamFailed, RamServed};
ghost use Rattle.swi_share.specs.Shared.{enters};
ghost use Rattle.swi_share.specs.Waiting.{Waits, shows_place};
ghost use Rattle.swi_share.specs.Event.{Boarded, HartEvent, context};

use crate::input::Input;
use swi_board::{enter, run_stepwise};
use swi_hart::{BoardFault, Hart};
use swi_image::ImageView;
use swi_outside::{CacheRam, Failed, Sink};
use swi_rom::CacheRom;
use swi_slots::FifoRom;

/// Whether the service shows the hart's place at the index under its control: then its block still stands there. A hart
/// at an address where no text word stands asks for none.
fn stands(hart: &Hart, rom: &FifoRom) -> bool
    ensures { result ≡ shows_place (index_of hart.now.machine.ending hart.now.control)
        (place_under hart.now.machine.ending hart.now.control) (shown_by rom.now) }
{
    let Some(i) = hart.at() else {
        return true;
    };
    let Some((b, o)) = hart.place() else {
        return true;
    };
    match rom.at(i) {
        Some((block, offset)) => block == b && offset == o,
        None => false,
    }
}

/// Whether a hart goes on where it stands.
fn goes_on(hart: &Hart, rom: &FifoRom) -> bool
    ensures { result ≡ (hart.now.booted && shows_place (index_of hart.now.machine.ending hart.now.control)
        (place_under hart.now.machine.ending hart.now.control) (shown_by rom.now)) }
{
    hart.booted && stands(hart, rom)
}

/// Makes a hart whose program is in turn ready for its step. One that was not yet booted, or whose block has left the ram,
/// enters the ram anew.
fn make_ready<M: CacheRam>(
    image: &ImageView<'_>,
    hart: &mut Hart,
    rom: &mut FifoRom,
    ram: &mut M,
) -> Result<(), Failed>
    requires waits { Waits image.now (kept_by rom.old) hart.old }
    requires running { hart.old.machine.ending ≡ None }
    requires count { hart.old.count < 2 ^ 56 }
    requires sound { SlotsSound rom.old image.now (M.state ram.old).words }
    requires services { (kept_by rom.old).counts.services < 2 ^ 50 }
    ensures boarded { OnOk result (Boarded image.now (record { hart = hart.old; rom = rom.old })
        (record { hart = hart.new; rom = rom.new })) }
    ensures setting { OnOk result (setting_of rom.new ≡ setting_of rom.old) }
    ensures sound { OnOk result (SlotsSound rom.new image.now (M.state ram.new).words) }
    ensures keeps { OnOk result (Keeps slots_service image.now rom.old rom.new
        (M.state ram.old).words (M.state ram.new).words) }
    ensures ram { OnOk result (RamServed (span_of (setting_of rom.old))
        (writes (kept_by rom.new) - writes (kept_by rom.old)) (M.state ram.old) (M.state ram.new)) }
    ensures unused { OnOk result (SameFrom (extent_of (setting_of rom.old) (kept_by rom.new))
        (M.state ram.old).words (M.state ram.new).words) }
    ensures failed { OnErr result (RamFailed (span_of (setting_of rom.old)) (M.state ram.old) (M.state ram.new)) }
    ensures entering { OnErr result ((left : List ℕ) → enters (kept_by rom.old) (context hart.old image.now left) ≡ true) }
    ensures placed { OnErr result (place_of image.now hart.old.machine.pc ≡ None → ⊥) }
{
    if goes_on(hart, rom) {
        return Ok(());
    }
    enter(hart, rom, image, ram)
}

/// One original instruction of a hart that has not ended, with its services. Its program is in turn.
pub(crate) fn make_event<M: CacheRam, O: Sink, E: Sink>(
    image: &ImageView<'_>,
    hart: &mut Hart,
    rom: &mut FifoRom,
    ram: &mut M,
    input: &mut Input,
    out: &mut O,
    err: &mut E,
) -> Result<(), BoardFault>
    requires waits { Waits image.now (kept_by rom.old) hart.old }
    requires running { hart.old.machine.ending ≡ None }
    requires few { hart.old.machine.steps < 2 ^ 44 }
    requires sound { SlotsSound rom.old image.now (M.state ram.old).words }
    requires services { (kept_by rom.old).counts.services < 2 ^ 49 }
    ensures { HartEvent image.now (record { hart = hart.old; rom = rom.old }) (record { hart = hart.new; rom = rom.new })
        (record { ram = M.state ram.old; left = input.old.left; out = O.state out.old; err = E.state err.old })
        (record { ram = M.state ram.new; left = input.new.left; out = O.state out.new; err = E.state err.new }) result }
{
    let n = hart.steps() + 1;
    match make_ready(image, hart, rom, ram) {
        Ok(_) => run_stepwise(hart, rom, image, ram, input, out, err, n),
        Err(_) => Err(BoardFault::RamFault),
    }
}
