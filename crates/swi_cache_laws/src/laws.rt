//! Laws of the policies, which follow from how they move a service's record on.
#![tactic(auto)]

ghost use Rattle.swi_ring.specs.Fifo.{ring};
ghost use Rattle.swi_ring.specs.Service.{ring_service};
ghost use Rattle.swi_slots.specs.Fifo.{fifo};
ghost use Rattle.swi_slots.specs.Service.{slots_service};
ghost use Rattle.swi_cache_laws.specs.Example.{HasAll, MissesAll};
ghost use Rattle.swi_cache_laws.specs.Paging.{MissesFew};
ghost use Rattle.swi_cache_laws.specs.Room.{RoomInRing, RoomInSlots};
ghost use Rattle.swi_cache_laws.specs.Runs.{AreOfRuns, StepsCostFew, StepsWriteFew};
ghost use Rattle.swi_cache_laws.specs.Writes.{WritesFew, WritesOnce};

/// A law of first in, first out over slots, for who reads it; it does nothing.
///
/// Whatever blocks are entered, and however another policy chooses what it keeps in fewer slots: first in, first out misses
/// few more blocks than the other one copies. So it bounds what another eviction policy could gain. An example is computed.
pub fn laws_of_paging()
    ensures misses_few { MissesFew }
    ensures example { MissesAll }
{}

/// Laws of a cache with room for all blocks, for who reads them; it does nothing.
///
/// In slots for all of them, or in a ring of all their words, no block ever leaves and no link is undone. However long a
/// program runs, it writes no more than the blocks' words and a word for each exit.
pub fn laws_of_room()
    ensures slots { RoomInSlots }
    ensures ring { RoomInRing }
    ensures example { HasAll }
{}

/// Laws of what a cache writes, for who reads them; it does nothing.
///
/// A transfer writes at most a block's words, a word for each word of the cache, and one more. And a whole list of
/// transfers writes at most as much as if each copied a block, made a link and undid one.
pub fn laws_of_writes()
    ensures slots_once { WritesOnce slots_service }
    ensures ring_once { WritesOnce ring_service }
    ensures slots_few { WritesFew fifo }
    ensures ring_few { WritesFew ring }
{}

/// Laws of the transfers that a program's run makes, for who reads them; it does nothing.
///
/// They are such as the laws above speak of, so that these hold of a run, by `record_after` of a cached run. And a step costs
/// few machine instructions and services.
pub fn laws_of_programs()
    ensures are { AreOfRuns }
    ensures cost { StepsCostFew }
    ensures slots_write { StepsWriteFew fifo }
    ensures ring_writes { StepsWriteFew ring }
{}
