//! What a run has learnt of an image.
#![tactic(auto)]

ghost use Rattle.std.specs.Prelude.{◌≡◌, ◌^◌, ◌<◌, ◌≤◌, ℕ, IsTrue, None, Option, true};
ghost use Rattle.swi_image.specs.Format.{ImageData};
ghost use Rattle.swi_memory.specs.Bus.{fetched};
ghost use Rattle.swi_board.specs.Advancing.{Onward, ServiceStays, Underway};
ghost use Rattle.swi_board.specs.Learnt.{HasRoom, Knows};

use crate::advance::{advance, start};
use crate::ways::Ways;
use std::alloc::Global;
use swi_hart::Hart;
use swi_image::ImageView;
use swi_image_ops::ImageOps;
use swi_outside::{Memory, SteadyRam};
use swi_rom::CacheRom;

/// The micro-ops of an image's words, and the ways that a run has gone out of its blocks.
#[derive(Drop)]
pub struct Learnt {
    pub ops: ImageOps,
    pub ways: Ways,
}

impl Learnt {
    /// Nothing is learnt of an image. Memory where there is not enough of it: it takes 8 bytes a word of the image, one a
    /// block, and 131,840 for the ways.
    pub fn new(alloc: Global, image: &ImageView<'_>) -> Result<Learnt, Memory> {
        let ops = ImageOps::new(alloc, image)?;
        let ways = Ways::new(alloc)?;
        Ok(Learnt { ops, ways })
    }

    /// Whether there is room for all that is to be learnt of an image.
    pub fn has_room(&self, image: &ImageView<'_>) -> bool
        ensures { IsTrue result → HasRoom image.now self.now }
    {
        image.words() as usize <= self.ops.ops().len()
    }

    /// Nothing is learnt any more, whatever the text.
    pub fn forget(&mut self)
        ensures { (text : ℕ → Option ℕ) (v : ImageData) → HasRoom v self.old → Knows text v self.new }
    {
        self.ops.forget();
    }

    /// Steps up to `limit`, or to the first that is left to the machine step; the micro-ops of the block that the hart is in
    /// then are learnt. Where the hart is not at a word between two instructions nothing changes.
    pub fn advance<R: CacheRom, M: SteadyRam>(
        &mut self,
        hart: &mut Hart,
        rom: &mut R,
        image: &ImageView<'_>,
        ram: &mut M,
        limit: u64,
    )
        requires steady { M.steady ≡ true }
        requires going { hart.old.machine.ending ≡ None }
        requires more { hart.old.machine.steps < limit }
        requires small { limit ≤ 2 ^ 48 }
        requires underway { Underway R.service image.now limit (record { hart = hart.old; rom = rom.old; ram = M.state ram.old }) }
        requires sound { R.service.sound rom.old image.now (M.state ram.old).words }
        requires knows { Knows (fetched hart.old.machine.bus) image.now self.old }
        ensures onward { Onward R.service image.now limit (record { hart = hart.old; rom = rom.old; ram = M.state ram.old })
            (record { hart = hart.new; rom = rom.new; ram = M.state ram.new }) }
        ensures going { hart.new.machine.ending ≡ None }
        ensures stays { ServiceStays R.service image.now (record { rom = rom.old; ram = M.state ram.old })
            (record { rom = rom.new; ram = M.state ram.new }) }
        ensures text { (a : ℕ) → fetched hart.new.machine.bus a ≡ fetched hart.old.machine.bus a }
        ensures knows { Knows (fetched hart.new.machine.bus) image.now self.new }
    {
        let Some(at) = start(hart, image) else {
            return;
        };
        self.ways.targets.forget();
        let block = advance(hart, rom, image, ram, &self.ops, &mut self.ways, limit, at);
        self.ops.learn(image, &hart.machine.bus, block);
    }
}
