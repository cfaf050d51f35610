//! A hart and a service that are lent: entering the ram, and machine steps one by one.
#![tactic(auto)]

ghost use Rattle.std.specs.Prelude.{◌≡◌, ◌+◌, ◌^◌, ◌<◌, ◌≤◌, OnOk, OnErr, None, true, false};
ghost use Rattle.swi_outside.specs.Devices.{streams};
ghost use Rattle.swi_outside.specs.Source.{HasGiven};
ghost use Rattle.swi_outside.specs.Told.{AsTold};
ghost use Rattle.swi_memory.specs.Bus.{fetched};
ghost use Rattle.swi_image.specs.Place.{place_of};
ghost use Rattle.swi_render.specs.Carried.{Carries};
ghost use Rattle.swi_hart.specs.Hart.{is_between};
ghost use Rattle.swi_hart.specs.Leaving.{RamFailed};
ghost use Rattle.swi_hart.specs.Matching.{Arrives, Fits};
ghost use Rattle.swi_hart.specs.Service.{TransferServed};
ghost use Rattle.swi_board.specs.Board.{entry_transfer, entries};
ghost use Rattle.swi_board.specs.BoardRan.{BoardRan};
ghost use Rattle.swi_board.specs.Entered.{Entered};

use swi_hart::{BoardFault, Control, Hart, jump, quick_step};
use swi_image::ImageView;
use swi_outside::{CacheRam, Failed, Sink, Source};
use swi_rom::CacheRom;

/// Goes into the ram at the hart's address.
fn go_in<R: CacheRom, M: CacheRam>(
    hart: &mut Hart,
    rom: &mut R,
    image: &ImageView<'_>,
    ram: &mut M,
) -> Result<(), Failed>
    requires count { hart.old.count < 2 ^ 56 }
    requires sound { R.service.sound rom.old image.now (M.state ram.old).words }
    requires services { (R.service.kept rom.old).counts.services < 2 ^ 50 }
    ensures hart { OnOk result (hart.new
        ≡ record hart.old {
          control = hart.new.control;
          count = hart.old.count + entries image.now hart.old.machine.pc;
          booted = true;
        }) }
    ensures control { OnOk result (Arrives image.now (R.service.kept rom.new) hart.old.machine.pc hart.new.control) }
    ensures served { TransferServed R.service image.now (entry_transfer image.now hart.old.machine.pc)
        (record { rom = rom.old; ram = M.state ram.old })
        (record { rom = rom.new; ram = M.state ram.new }) result }
    ensures outside { place_of image.now hart.old.machine.pc ≡ None →
        (rom.new ≡ rom.old) × (M.state ram.new ≡ M.state ram.old) }
{
    let pc = hart.origin_pc();
    if image.place(pc).is_some() {
        let control = jump(rom, image, ram, pc)?;
        hart.control.go(control);
        hart.count += 1;
    } else {
        hart.control.go(Control::Outside);
    }
    hart.booted = true;
    Ok(())
}

/// Enters the ram at the hart's address, as [`Board::resume`](crate::Board::resume) does, and under its conditions. After an
/// error hart and service are given up.
pub fn enter<R: CacheRom, M: CacheRam>(
    hart: &mut Hart,
    rom: &mut R,
    image: &ImageView<'_>,
    ram: &mut M,
) -> Result<(), Failed>
    requires carries { Carries (fetched hart.old.machine.bus) image.now }
    requires running { hart.old.machine.ending ≡ None }
    requires unfailed { hart.old.failed ≡ false }
    requires between { is_between hart.old.control ≡ true }
    requires count { hart.old.count < 2 ^ 56 }
    requires sound { R.service.sound rom.old image.now (M.state ram.old).words }
    requires services { (R.service.kept rom.old).counts.services < 2 ^ 50 }
    ensures entered { OnOk result (Entered R.service image.now hart.old
        (record { rom = rom.old; ram = M.state ram.old })
        (record { hart = hart.new; rom = rom.new; ram = M.state ram.new })) }
    ensures failed { OnErr result (RamFailed (R.service.span (R.service.setting rom.old)) (M.state ram.old) (M.state ram.new)) }
    ensures placed { OnErr result (place_of image.now hart.old.machine.pc ≡ None → ⊥) }
{
    go_in(hart, rom, image, ram)
}

/// Steps until `n` original steps are made, or the run has ended, a machine instruction at a time, as
/// [`Board::run`](crate::Board::run) does, and under its conditions.
pub fn run_stepwise<R: CacheRom, M: CacheRam, I: Source, O: Sink, E: Sink>(
    hart: &mut Hart,
    rom: &mut R,
    image: &ImageView<'_>,
    ram: &mut M,
    input: &mut I,
    out: &mut O,
    err: &mut E,
    n: u64,
) -> Result<(), BoardFault>
    requires fits { Fits image.now (R.service.kept rom.old) hart.old }
    requires sound { R.service.sound rom.old image.now (M.state ram.old).words }
    requires steps { hart.old.machine.steps ≤ n }
    requires limit { n ≤ 2 ^ 48 }
    requires count { hart.old.count ≤ 2 ^ 55 }
    requires services { (R.service.kept rom.old).counts.services ≤ 2 ^ 49 }
    ensures gave { HasGiven (I.state input.old) (I.state input.new) }
    ensures ran { AsTold (I.state input.old) (I.state input.new) (λ old new. BoardRan R.service image.now n
        (record {
          hart = hart.old;
          rom = rom.old;
          ram = M.state ram.old;
          devices = streams old (O.state out.old) (E.state err.old);
        })
        (record {
          hart = hart.new;
          rom = rom.new;
          ram = M.state ram.new;
          devices = streams new (O.state out.new) (E.state err.new);
        }) result) }
{
    while hart.machine.steps < n && hart.machine.ending.is_none() {
        quick_step(hart, rom, image, ram, input, out, err)?;
    }
    Ok(())
}
