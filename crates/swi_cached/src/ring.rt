//! The cache of blocks of their own length for an image.
#![tactic(auto)]

ghost use Rattle.std.specs.Prelude.{◌≡◌, ◌*◌, ◌^◌, ◌≤◌, List, ℕ, length, IfOk};
ghost use Rattle.swi_rom.specs.Service.{cache_of};
ghost use Rattle.swi_ring.specs.Service.{ring_service};
ghost use Rattle.swi_ring.specs.Ring.{kept_by};
ghost use Rattle.swi_ring.specs.Sound.{RingSound};
ghost use Rattle.swi_cached.specs.Cached.{IsFresh};
ghost use Rattle.swi_cached.specs.Ringed.{ringed};

use std::alloc::Global;
use swi_image::ImageView;
use swi_outside::Memory;
use swi_ring::RingRom;

/// An empty service in which each block takes as many words as it has, one behind the other, and the oldest are evicted
/// where they stand in the way. The cache holds a block of the image's block words, and has at most 8 MiB; bytes behind
/// its last whole word are not used. The service is sound for each ram that holds the cache.
pub fn ring_for(alloc: Global, image: &ImageView<'_>, cache_bytes: u32) -> Result<RingRom, Memory>
    requires least { 4 * image.now.block_words ≤ cache_bytes }
    requires most { cache_bytes ≤ 2 ^ 23 }
    ensures cache { IfOk result (λ s. cache_of ring_service s ≡ ringed cache_bytes) }
    // What `run_cached` asks of a service.
    ensures fresh { IfOk result (λ s. IsFresh (kept_by s)) }
    ensures sound { IfOk result (λ s. (words : List ℕ) → cache_bytes ≤ 4 * length words →
        RingSound s image.now words) }
{
    RingRom::new(alloc, cache_bytes, image.blocks(), image.block_words())
}
