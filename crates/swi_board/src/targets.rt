//! Where the targets of jumps over registers stood.
#![tactic(auto)]

ghost use Rattle.std.specs.Prelude.{◌≡◌, ◌<◌, ◌%◌, IfSome, Some};
ghost use Rattle.swi_image.specs.Format.{ImageData};
ghost use Rattle.swi_rom.specs.Record.{Record};
ghost use Rattle.swi_board.specs.Targets.{AreFound, FoundAt};

use std::alloc::Global;
use std::marker::Model;
use swi_outside::Memory;

/// How many targets are kept.
const KEPT: usize = 64;

/// An address, the index in the ram at which it was found, and that in the image's row.
#[derive(Clone, Copy)]
pub struct Found {
    target: u32,
    pub index: u32,
    pub row: u32,
}

/// What is kept before an address was found: no text word stands at an odd one.
const NOWHERE: Found = Found {
    target: 1,
    index: 0,
    row: 0,
};

/// The addresses to which jumps over registers led last, each with where it stood, kept by the lowest bits of the address
/// above the two that every text word's has alike: so a return that repeats costs no search. What it keeps holds as long as
/// the blocks stand where they stood. In clauses it is the list of them.
#[derive(Drop)]
pub struct Targets {
    found: Vec<Found>,
    // Nothing was kept since all was forgotten.
    empty: bool,
}

impl Model for Targets {
    ghost use Rattle.std.specs.Prelude.{◌≡◌, List, length, true};
    ghost use Rattle.swi_board.specs.declared.targets.Found.{Found};
    ghost use Rattle.swi_board.specs.Targets.{IsNothing};

    ghost Value = { List Found };

    ghost view = { λ t. t.found.items };

    ghost invariant = { λ t. (length t.found.items ≡ 64) × (t.empty ≡ true → IsNothing t.found.items) };
}

/// Where an address has its place.
#[inline(always)]
fn slot(a: u32) -> usize
    ensures { result < 64 }
{
    (a / 4) as usize % KEPT
}

impl Targets {
    /// Nothing was found yet. Memory where there is not enough of it: it takes 768 bytes.
    pub fn new(alloc: Global) -> Result<Targets, Memory> {
        let found = vec![in alloc; NOWHERE; KEPT].map_err(|_| Memory)?;
        Ok(Targets { found, empty: true })
    }

    /// Where an address, a multiple of 4, was found.
    #[inline(always)]
    pub fn find(&self, a: u32) -> Option<Found>
        requires { a % 4 ≡ 0 }
        ensures { IfSome result (λ f. (v : ImageData) (r : Record) → AreFound v r self.now → FoundAt v r a f) }
    {
        let found = &self.found[slot(a)];
        if found.target != a {
            return None;
        }
        Some(*found)
    }

    /// Keeps the index at which an address was found, and that in the image's row.
    pub fn keep(&mut self, a: u32, index: u32, row: u32) -> Found
        ensures index { result.index ≡ index }
        ensures row { result.row ≡ row }
        ensures kept { (v : ImageData) (r : Record) → AreFound v r self.old → FoundAt v r a result → AreFound v r self.new }
    {
        let found = Found {
            target: a,
            index,
            row,
        };
        self.empty = false;
        self.found[slot(a)] = found;
        found
    }

    /// Keeps nothing any more: where blocks may have moved.
    pub fn forget(&mut self)
        ensures { (v : ImageData) (r : Record) → AreFound v r self.new }
    {
        if self.empty {
            return;
        }
        self.found.fill(NOWHERE);
        self.empty = true;
    }
}
