//! How links leave their lists.
#![tactic(auto)]

ghost use Rattle.std.specs.Prelude.{◌≡◌, ◌+◌, ◌<◌, ◌≤◌, ◌^◌, true, false, length, IfOk, OnOk, OnErr};
ghost use Rattle.swi_outside.specs.CacheRam.{with_set};
ghost use Rattle.swi_rom.specs.Record.{ebreak};
ghost use Rattle.swi_rom.specs.Writing.{FailedBelow};
ghost use Rattle.swi_links.specs.Undone.{is_own, coming_in, Undone, IsEmptied, Released};
ghost use Rattle.swi_links.specs.Gone.{Gone};

use crate::chains::Chains;
use swi_isa::EBREAK;
use swi_outside::{CacheRam, Failed};

/// Takes out of their lists all links into a block, newest first, and then all links from its own words. The links into it
/// stand in list `list`, and it has `size` words from `first` on. Links of other blocks are exits again; their number is the
/// answer. After an error of the ram some of the links into the block are undone.
pub fn undo<M: CacheRam>(
    chains: &mut Chains,
    list: u32,
    first: u32,
    size: u32,
    ram: &mut M,
) -> Result<u32, Failed>
    requires list { list < length chains.old.lists }
    requires words { chains.old.words ≤ 2 ^ 21 }
    requires within { first + size ≤ chains.old.words }
    requires fits { chains.old.words ≤ length (M.state ram.old).words }
    ensures gone { OnOk result (Gone list first size chains.old chains.new
        (M.state ram.old) (M.state ram.new)) }
    ensures number { IfOk result (λ k. k ≡ coming_in list first size chains.old.lists chains.old.words) }
    ensures failed { OnErr result (FailedBelow chains.old.words (M.state ram.old) (M.state ram.new)) }
    ensures words { chains.new.words ≡ chains.old.words }
    ensures lists { length chains.new.lists ≡ length chains.old.lists }
{
    let undone = undo_links(chains, list, first, size, ram)?;
    drop_own(chains, first, size);
    Ok(undone)
}

// Takes every link into the block out of its list. Those of other blocks are exits again; their number is the answer.
fn undo_links<M: CacheRam>(
    chains: &mut Chains,
    list: u32,
    first: u32,
    size: u32,
    ram: &mut M,
) -> Result<u32, Failed>
    requires list { list < length chains.old.lists }
    requires words { chains.old.words ≤ 2 ^ 21 }
    requires within { first + size ≤ chains.old.words }
    requires fits { chains.old.words ≤ length (M.state ram.old).words }
    ensures undone { IfOk result (λ k. Undone list first size k chains.old chains.new
        (M.state ram.old) (M.state ram.new)) }
    ensures emptied { IfOk result (λ k. IsEmptied list chains.new) }
    ensures failed { OnErr result (FailedBelow chains.old.words (M.state ram.old) (M.state ram.new)) }
    ensures words { chains.new.words ≡ chains.old.words }
    ensures lists { length chains.new.lists ≡ length chains.old.lists }
{
    let mut undone = 0;
    while let Some(at) = chains.first_into(list) {
        undone += restore(ram, at, first, size)?;
        chains.unlink(at);
    }
    Ok(undone)
}

// Makes a link of another block an exit again: how many there are of it, 1 or 0.
fn restore<M: CacheRam>(ram: &mut M, at: u32, first: u32, size: u32) -> Result<u32, Failed>
    requires at { at < length (M.state ram.old).words }
    requires small { first + size < 2 ^ 32 }
    ensures own { IfOk result (λ k. is_own first size at ≡ true → (k ≡ 0) × (M.state ram.new ≡ M.state ram.old)) }
    ensures foreign { IfOk result (λ k. is_own first size at ≡ false → (k ≡ 1)
        × (M.state ram.new ≡ with_set (M.state ram.old) at ebreak)) }
    ensures failed { OnErr result (FailedBelow (at + 1) (M.state ram.old) (M.state ram.new)) }
{
    if first <= at && at < first + size {
        return Ok(0);
    }
    ram.set(at, EBREAK)?;
    Ok(1)
}

// Takes the links among some words out of their lists.
fn drop_own(chains: &mut Chains, first: u32, size: u32)
    requires within { first + size ≤ chains.old.words }
    requires small { chains.old.words ≤ 2 ^ 21 }
    ensures { Released first size chains.old chains.new }
{
    let mut from = first;
    while let Some(at) = chains.first_linked(from, first + size) {
        chains.unlink(at);
        from = at + 1;
    }
}
