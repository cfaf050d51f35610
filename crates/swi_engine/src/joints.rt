//! The links, as lists of the words at which they stand.
#![tactic(auto)]

ghost use Rattle.std.specs.Prelude.{◌≡◌, ◌+◌, ◌^◌, ◌<◌, ◌≤◌, [], ◌∷◌, filter, map, not, length, IfOk, MatchOption};
ghost use Rattle.swi_links.specs.Chains.{list_of, without, IsFree};
ghost use Rattle.swi_links.specs.Undone.{is_own};
ghost use Rattle.swi_rom.specs.Record.{Has};
ghost use Rattle.swi_engine.specs.Joints.{NoneInto, NewestInto, stands_at, linked_into};

use std::alloc::Global;
use std::marker::Model;
use swi_links::Chains;
use swi_outside::Memory;

/// A link: its block and offset there, the word of the ram where it stands, and the block to which it leads.
#[derive(Clone, Copy, Debug, PartialEq, Eq)]
pub struct Joint {
    pub block: u32,
    pub offset: u32,
    pub at: u32,
    pub into: u32,
}

/// The links of a service, newest first, and of each block those that lead into it from others.
#[derive(Drop)]
pub struct Joints {
    // Of each word the link that stands there, if it is one.
    table: Vec<Joint>,
    // One list, of all words with a link.
    order: Chains,
    // Of each block the words with a link into it from another one.
    into: Chains,
}

impl Model for Joints {
    ghost use Rattle.std.specs.Prelude.{map, length};
    ghost use Rattle.swi_links.specs.Chains.{list_of};
    ghost use Rattle.swi_engine.specs.Joints.{JointsData, read_at, Tied};

    ghost Value = { JointsData };

    ghost view = { λ s. record {
      words = length s.table.items;
      blocks = length s.into.lists;
      joints = map (λ at. read_at s.table.items at) (list_of s.order 0);
    } };

    ghost invariant = { λ s. Tied s.table.items s.order s.into };
}

// A table of so many words, before any is read.
fn no_joints(alloc: Global, words: u32) -> Result<Vec<Joint>, Memory>
    ensures { IfOk result (λ xs. length xs.items ≡ words) }
{
    let none = Joint {
        block: 0,
        offset: 0,
        at: 0,
        into: 0,
    };
    vec![in alloc; none; words as usize].map_err(|_| Memory)
}

// Takes a word out of the list that has it, if one does.
fn drop_word(chains: &mut Chains, at: u32)
    requires { at < chains.old.words }
    ensures { chains.new ≡ record chains.old { lists = map (λ xs. without at xs) chains.old.lists } }
{
    match chains.target(at) {
        Some(_) => chains.unlink(at),
        None => {}
    }
}

// Enters a link in the list of the block to which it leads, if it comes from another one.
fn enter(into: &mut Chains, joint: Joint)
    requires at { joint.at < into.old.words }
    requires into { joint.into < length into.old.lists }
    requires free { IsFree into.old joint.at }
    ensures { into.new ≡ record into.old { lists = linked_into into.old joint } }
{
    if joint.block != joint.into {
        into.link(joint.at, joint.into);
    }
}

impl Joints {
    /// No links among so many words, of which each may lead to one of so many blocks.
    pub fn new(alloc: Global, words: u32, blocks: u32) -> Result<Joints, Memory>
        requires words { words ≤ 2 ^ 21 }
        requires blocks { blocks ≤ 2 ^ 20 }
        ensures { IfOk result (λ s. s ≡ record { words = words; blocks = blocks; joints = [] }) }
    {
        let table = no_joints(alloc, words)?;
        let order = Chains::new(alloc, 1, words)?;
        let into = Chains::new(alloc, blocks, words)?;
        Ok(Joints { table, order, into })
    }

    /// The word of the newest link into a block from another one. It takes constant time.
    pub fn newest_into(&self, block: u32) -> Option<u32>
        requires { block < self.now.blocks }
        ensures { MatchOption result (NoneInto self.now.joints block) (λ at. NewestInto self.now.joints block at) }
    {
        self.into.first_into(block)
    }

    /// A link stands at a word from now on, newer than all others. It takes constant time.
    pub fn link(&mut self, joint: Joint)
        requires at { joint.at < self.old.words }
        requires into { joint.into < self.old.blocks }
        requires free { (j : Joint) → Has self.old.joints j → j.at ≡ joint.at → ⊥ }
        ensures { self.new ≡ record self.old { joints = joint ∷ self.old.joints } }
    {
        self.order.link(joint.at, 0);
        enter(&mut self.into, joint);
        self.table[joint.at as usize] = joint;
    }

    /// No link stands at a word from now on. It takes constant time.
    pub fn unlink(&mut self, at: u32)
        requires { at < self.old.words }
        ensures { self.new ≡ record self.old { joints = filter (λ j. not (stands_at j at)) self.old.joints } }
    {
        drop_word(&mut self.order, at);
        drop_word(&mut self.into, at);
    }

    /// No link stands among `size` words from `first` on. It takes time linear in their number.
    pub fn unlink_all(&mut self, first: u32, size: u32)
        requires within { first + size ≤ self.old.words }
        requires small { self.old.words ≤ 2 ^ 21 }
        ensures { self.new ≡ record self.old { joints = filter (λ j. not (is_own first size j.at)) self.old.joints } }
    {
        for at in first..first + size {
            self.unlink(at);
        }
    }
}
