//! How far the links of exits lead.
#![tactic(auto)]

ghost use Rattle.std.specs.Prelude.{◌≡◌, ◌<◌, ◌^◌, ℕ, IfSome};
ghost use Rattle.swi_exec.specs.Arithmetic.{sum_of};
ghost use Rattle.swi_rom.specs.Record.{jump_offset};
ghost use Rattle.swi_board.specs.Links.{IsLink};

use std::alloc::Global;
use std::marker::Model;
use swi_outside::Memory;

/// How many links are kept.
const KEPT: usize = 1 << 14;

/// A link that stood at an exit: its word, and how many words on that jumps, modulo 2^32.
#[derive(Clone, Copy)]
pub struct Link {
    word: u32,
    distance: u32,
}

/// No link: 0 is no word of an exit.
const NONE: Link = Link {
    word: 0,
    distance: 0,
};

/// How many words on a JAL jumps, modulo 2^32, by its offset in bytes.
pub(crate) fn distance(off: u32) -> u32
    ensures { (i j : ℕ) → off ≡ jump_offset i j → i < 2 ^ 21 → j < 2 ^ 21 → sum_of i result ≡ j }
{
    if off < 1 << 31 {
        off / 4
    } else {
        off / 4 + (3 << 30)
    }
}

/// The links that stood at exits last, each kept by the lowest bits of its exit's index in the image's row: so a link that stands
/// there again isn't decoded again. A link's word says how far it jumps, whichever exit it stands at. In clauses it is the list
/// of them.
#[derive(Drop)]
pub struct Links {
    links: Vec<Link>,
}

impl Model for Links {
    ghost use Rattle.std.specs.Prelude.{◌≡◌, ◌^◌, List, length};
    ghost use Rattle.swi_board.specs.declared.links.Link.{Link};
    ghost use Rattle.swi_board.specs.Links.{AreLinks};

    ghost Value = { List Link };

    ghost view = { λ l. l.links.items };

    ghost invariant = { λ l. (length l.links.items ≡ 2 ^ 14) × AreLinks l.links.items };
}

/// Where the link of an exit has its place.
#[inline(always)]
fn slot(exit: u64) -> usize
    ensures { result < 2 ^ 14 }
{
    exit as usize % KEPT
}

impl Links {
    /// No link is known. Memory where there is not enough of it: it takes 128 KiB.
    pub fn new(alloc: Global) -> Result<Links, Memory> {
        let Ok(links) = vec![in alloc; NONE; KEPT] else {
            return Err(Memory);
        };
        Ok(Links { links })
    }

    /// How many words on this word jumps, if it is the link that was kept last where the exit has its place.
    #[inline(always)]
    pub fn find(&self, exit: u64, word: u32) -> Option<u32>
        ensures { IfSome result (λ distance. IsLink word distance) }
    {
        let link = &self.links[slot(exit)];
        if link.word != word {
            return None;
        }
        Some(link.distance)
    }

    /// Keeps how many words on the link jumps that stands at the exit.
    pub fn keep(&mut self, exit: u64, word: u32, distance: u32)
        requires { IsLink word distance }
    {
        self.links[slot(exit)] = Link { word, distance };
    }
}
