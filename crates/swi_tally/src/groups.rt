//! Numbers in groups.
#![tactic(auto)]

ghost use Rattle.std.specs.Prelude.{◌≡◌, ◌<◌, ◌≤◌, ◌^◌, ◌++◌, [], ◌∷◌, IfOk, OnOk, OnErr, length, slice_index};
ghost use Rattle.swi_tally.specs.Masks.{has_at};
ghost use Rattle.swi_tally.specs.Groups.{Drops, Left, held_in};

use crate::masks::{has, without};
use std::alloc::Global;
use std::marker::Model;
use swi_outside::Memory;

/// Numbers from 0 on, each of which is put into a group: so all of a group are found without a search.
#[derive(Drop)]
pub(crate) struct Groups {
    // Of each number its group.
    keys: Vec<u32>,
    // Of each group the number behind its last one; 0 where it has none.
    ends: Vec<u32>,
    // Of each number the one behind the last before it in its group.
    befores: Vec<u32>,
}

impl Model for Groups {
    ghost use Rattle.std.specs.Prelude.{length};
    ghost use Rattle.swi_tally.specs.Groups.{GroupsData, Grouped};

    ghost Value = { GroupsData };

    ghost view = { λ g. record { keys = g.keys.items; groups = length g.ends.items } };

    ghost invariant = { λ g. Grouped g.keys.items g.ends.items g.befores.items };
}

/// Puts a number behind all others. Memory is the only error; nothing changes then.
pub(crate) fn append(xs: &mut Vec<u32>, x: u32) -> Result<(), Memory>
    ensures pushed { OnOk result (xs.new.items ≡ xs.old.items ++ x ∷ []) }
    ensures same { OnErr result (xs.new.items ≡ xs.old.items) }
{
    match xs.push(x) {
        Ok(()) => Ok(()),
        Err(_) => Err(Memory),
    }
}

impl Groups {
    /// So many groups, without a number. Memory is the only error.
    pub(crate) fn new(alloc: Global, groups: u32) -> Result<Groups, Memory>
        ensures { IfOk result (λ g. g ≡ record { keys = []; groups = groups }) }
    {
        let ends = vec![in alloc; 0u32; groups as usize].map_err(|_| Memory)?;
        Ok(Groups {
            keys: Vec::new(alloc),
            ends,
            befores: Vec::new(alloc),
        })
    }

    /// The next number is put into a group. Memory is the only error; the numbers are as they were then.
    pub(crate) fn push(&mut self, group: u32) -> Result<(), Memory>
        requires group { group < self.old.groups }
        requires few { length self.old.keys < 2 ^ 21 }
        ensures pushed { IfOk result (λ _. self.new ≡ record self.old { keys = self.old.keys ++ group ∷ [] }) }
    {
        let end = self.ends[group as usize];
        if append(&mut self.befores, end).is_err() {
            return Err(Memory);
        }
        if append(&mut self.keys, group).is_err() {
            self.befores.pop();
            return Err(Memory);
        }
        self.ends[group as usize] = self.keys.len() as u32;
        Ok(())
    }

    /// The group of a number.
    pub(crate) fn key(&self, x: u32) -> u32
        requires { x < length self.now.keys }
        ensures value { result ≡ slice_index self.now.keys x }
        ensures known { result < self.now.groups }
    {
        self.keys[x as usize]
    }
}

// A cache leaves the set of one number: whether it was in it.
fn take(masks: &mut [u64], x: u32, cache: u32) -> bool
    requires within { x < length masks.old }
    requires cache { cache < 64 }
    ensures drops { Drops x cache masks.old masks.new }
    ensures was { result ≡ has_at masks.old cache x }
{
    let mask = masks[x as usize];
    masks[x as usize] = without(mask, cache);
    has(mask, cache)
}

/// A cache leaves the sets of a group's numbers: how many of them had it.
pub(crate) fn leave(groups: &Groups, group: u32, masks: &mut [u64], cache: u32) -> u32
    requires group { group < groups.now.groups }
    requires long { length masks.old ≡ length groups.now.keys }
    requires few { length masks.old ≤ 2 ^ 21 }
    requires cache { cache < 64 }
    ensures left { Left groups.now.keys group cache 0 masks.old masks.new }
    ensures count { result ≡ held_in groups.now.keys group masks.old cache (length groups.now.keys) }
{
    let mut count = 0;
    let mut end = groups.ends[group as usize];
    while end > 0 {
        let x = end - 1;
        if take(masks, x, cache) {
            count += 1;
        }
        end = groups.befores[x as usize];
    }
    count
}
