//! A copy of a block, word by word.
#![tactic(auto)]

ghost use Rattle.std.specs.Prelude.{◌≡◌, ◌+◌, ◌^◌, ◌<◌, ◌≤◌, length, OnOk, OnErr};
ghost use Rattle.swi_image.specs.Place.{length_at};
ghost use Rattle.swi_rom.specs.Writing.{FailedBelow};
ghost use Rattle.swi_engine.specs.Engine.{copies_begun};
ghost use Rattle.swi_engine.specs.State.{is_copied_to};
ghost use Rattle.swi_engine.specs.Moves.{CopiedOn};

use std::collections::VecDeque;
use swi_image::ImageView;
use swi_outside::{CacheRam, Failed};

/// A copy that has begun: so many words of a block stand in a slot.
#[derive(Clone, Copy, Debug, PartialEq, Eq)]
pub struct Copying {
    pub block: u32,
    pub slot: u32,
    pub done: u32,
}

// How many slots have a block or a copy.
pub(crate) fn used(queue: &VecDeque<u32>, copy: &Option<Copying>) -> u32
    requires { length queue.now.items < 2 ^ 21 }
    ensures { result ≡ length queue.now.items + copies_begun copy.now }
{
    match copy {
        Some(_) => queue.len() as u32 + 1,
        None => queue.len() as u32,
    }
}

// Whether a slot has the copy.
pub(crate) fn copies_to(copy: &Option<Copying>, slot: u32) -> bool
    ensures { result ≡ is_copied_to copy.now slot }
{
    match copy {
        Some(copy) => copy.slot == slot,
        None => false,
    }
}

// Copies a block's words from the one at `from` on to the ram's words from `first` on.
pub(crate) fn copy_rest<M: CacheRam>(
    image: &ImageView<'_>,
    ram: &mut M,
    block: u32,
    first: u32,
    from: u32,
    size: u32,
) -> Result<(), Failed>
    requires block { block < length image.now.starts }
    requires size { size ≡ length_at image.now block }
    requires from { from ≤ size }
    requires small { first + size < 2 ^ 32 }
    requires fits { first + size ≤ length (M.state ram.old).words }
    ensures copied { OnOk result (CopiedOn image.now block first from size (M.state ram.old) (M.state ram.new)) }
    ensures failed { OnErr result (FailedBelow (first + size) (M.state ram.old) (M.state ram.new)) }
{
    let words = image.block(block);
    for k in from..size {
        ram.set(first + k, words.word(k))?;
    }
    Ok(())
}
