//! Where places were found.
#![tactic(auto)]

ghost use Rattle.std.specs.Prelude.{◌<◌};

use std::alloc::Global;
use swi_outside::Memory;

/// How many blocks are kept.
const KEPT: usize = 64;

/// The blocks in which addresses were found last, each kept by the lowest bits of its address above the two that every
/// text word's address has alike: so `ImageView::place_near` need not search again where calls and returns repeat. It
/// promises nothing of what it keeps.
#[derive(Drop)]
pub struct Hints {
    // Not within the struct, which is moved with its service.
    blocks: Vec<u32>,
}

impl Hints {
    /// Nothing was found yet. Memory where there is not enough of it: it takes 256 bytes.
    pub fn new(alloc: Global) -> Result<Hints, Memory> {
        let blocks = vec![in alloc; 0u32; KEPT].map_err(|_| Memory)?;
        Ok(Hints { blocks })
    }

    /// The block in which to look for an address first.
    #[inline(always)]
    pub fn near(&self, a: u32) -> u32 {
        match self.blocks.get(slot(a)) {
            Some(block) => *block,
            None => 0,
        }
    }

    /// Keeps the block in which an address was found.
    #[inline(always)]
    pub fn keep(&mut self, a: u32, block: u32) {
        if let Some(kept) = self.blocks.get_mut(slot(a)) {
            *kept = block;
        }
    }
}

/// Where an address has its block.
#[inline(always)]
fn slot(a: u32) -> usize
    ensures { result < 64 }
{
    (a / 4) as usize % KEPT
}
