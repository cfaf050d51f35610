//! The direct exits of an image.
#![tactic(auto)]

ghost use Rattle.std.specs.Prelude.{◌≡◌, ◌<◌, ◌^◌, [], IfOk, length, slice_index};
ghost use Rattle.swi_tally.specs.Exits.{AreExits, ExitsData, IsFree, with_exit};

use crate::groups::{Groups, append};
use std::alloc::Global;
use std::marker::Model;
use swi_outside::Memory;

/// A direct exit: its block and its offset there in words, and the place of its target, a text word.
#[derive(Clone, Copy, Debug, PartialEq, Eq)]
pub struct Exit {
    pub block: u32,
    pub offset: u32,
    pub into: u32,
    pub at: u32,
}

/// The direct exits of an image's blocks whose targets are text words, by numbers from 0 on. No two stand at one place.
#[derive(Drop)]
pub struct Exits {
    // By their own blocks, and by those of their targets.
    pub(crate) from: Groups,
    pub(crate) into: Groups,
    // Where each stands in its block, and where its target does.
    offsets: Vec<u32>,
    ats: Vec<u32>,
}

impl Model for Exits {
    ghost use Rattle.std.specs.Prelude.{◌≡◌};
    ghost use Rattle.swi_tally.specs.Exits.{ExitsData, AreExits};

    ghost Value = { ExitsData };

    ghost view = { λ e. record { blocks = e.from.groups; from = e.from.keys; offsets = e.offsets.items; into = e.into.keys; ats = e.ats.items } };

    ghost invariant = { λ e. AreExits (record { blocks = e.from.groups; from = e.from.keys; offsets = e.offsets.items; into = e.into.keys; ats = e.ats.items }) × (e.into.groups ≡ e.from.groups) };
}

impl Exits {
    /// No exits yet, of so many blocks. Memory is the only error.
    pub fn new(alloc: Global, blocks: u32) -> Result<Exits, Memory>
        ensures value { IfOk result (λ e. e ≡ record { blocks = blocks; from = []; offsets = []; into = []; ats = [] }) }
        ensures are { IfOk result (λ e. AreExits e) }
    {
        let from = Groups::new(alloc, blocks)?;
        let into = Groups::new(alloc, blocks)?;
        Ok(Exits {
            from,
            into,
            offsets: Vec::new(alloc),
            ats: Vec::new(alloc),
        })
    }

    /// With one more exit, at a place where none stands, behind all others. Memory is the only error.
    pub fn with(self, exit: Exit) -> Result<Exits, Memory>
        requires few { length self.from < 2 ^ 21 }
        requires block { exit.block < self.blocks }
        requires into { exit.into < self.blocks }
        requires offset { exit.offset < 1024 }
        requires at { exit.at < 1024 }
        requires free { IsFree self exit.block exit.offset }
        ensures value { IfOk result (λ e. e ≡ with_exit self exit.block exit.offset exit.into exit.at) }
        ensures are { IfOk result (λ e. AreExits e) }
    {
        let Exits {
            mut from,
            mut into,
            mut offsets,
            mut ats,
        } = self;
        from.push(exit.block)?;
        into.push(exit.into)?;
        append(&mut offsets, exit.offset)?;
        append(&mut ats, exit.at)?;
        Ok(Exits {
            from,
            into,
            offsets,
            ats,
        })
    }

    /// How many exits there are.
    pub fn len(&self) -> u32
        ensures value { result ≡ length self.now.from }
        ensures are { AreExits self.now }
    {
        self.offsets.len() as u32
    }

    /// The exit with a number.
    pub fn exit(&self, x: u32) -> Exit
        requires { x < length self.now.from }
        ensures value { result ≡ record { block = slice_index self.now.from x; offset = slice_index self.now.offsets x; into = slice_index self.now.into x; at = slice_index self.now.ats x } }
        ensures are { AreExits self.now }
    {
        Exit {
            block: self.from.key(x),
            offset: self.offsets[x as usize],
            into: self.into.key(x),
            at: self.ats[x as usize],
        }
    }
}
