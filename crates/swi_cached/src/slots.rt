//! The cache of slots for an image.
#![tactic(auto)]

ghost use Rattle.std.specs.Prelude.{◌≡◌, ◌*◌, ◌^◌, ◌≤◌, List, ℕ, length, IfOk};
ghost use Rattle.swi_rom.specs.Service.{cache_of};
ghost use Rattle.swi_slots.specs.Service.{slots_service};
ghost use Rattle.swi_slots.specs.Slots.{kept_by, setting_of};
ghost use Rattle.swi_slots.specs.Sound.{SlotsSound};
ghost use Rattle.swi_cached.specs.Cached.{IsFresh};
ghost use Rattle.swi_cached.specs.Slotted.{slot_setting, slotted};

use std::alloc::Global;
use swi_image::ImageView;
use swi_outside::Memory;
use swi_slots::FifoRom;

/// An empty service with slots of the image's blocks: as many as a cache of so many bytes has room for, which evicts the
/// oldest first. The cache holds a block, and has at most 8 MiB; the service is sound for each ram that holds the cache.
pub fn slots_for(alloc: Global, image: &ImageView<'_>, cache_bytes: u32) -> Result<FifoRom, Memory>
    requires least { 4 * image.now.block_words ≤ cache_bytes }
    requires most { cache_bytes ≤ 2 ^ 23 }
    ensures setting { IfOk result (λ s. setting_of s ≡ slot_setting cache_bytes image.now) }
    ensures cache { IfOk result (λ s. cache_of slots_service s ≡ slotted cache_bytes image.now) }
    // What `run_cached` asks of a service.
    ensures fresh { IfOk result (λ s. IsFresh (kept_by s)) }
    ensures sound { IfOk result (λ s. (words : List ℕ) → cache_bytes ≤ 4 * length words →
        SlotsSound s image.now words) }
{
    let _blocks = image.blocks();
    FifoRom::new(alloc, cache_bytes, image.block_words())
}
