//! The size of a cache: what it may be before a file is read, and what it has to hold.
#![tactic(auto)]

ghost use Rattle.std.specs.Prelude.{◌≡◌, ◌*◌, ◌≤◌, None, Some, OnOk, IfErr, length};
ghost use Rattle.swi_task.specs.Checks.{Fails, HoldsBlock, Passes, size_refusal};

use swi_answer::Refusal;
use swi_outside::CacheRam;

/// The most bytes of a cache.
const CACHE_LIMIT: u32 = 1 << 23;

/// Refuses a cache by its size alone, before a file is read: first one of more than 2^23 bytes, by CacheLarge; then one of
/// more bytes than the ram has, by RamSmall. Both carry their sizes in bytes. No other error comes.
pub fn check_size<R: CacheRam>(bytes: u32, ram: &R) -> Result<(), Refusal>
    ensures ok { OnOk result (size_refusal bytes (length (R.state ram.now).words) ≡ None) }
    ensures refused { IfErr result (λ r. size_refusal bytes (length (R.state ram.now).words) ≡ Some r) }
{
    if bytes > CACHE_LIMIT {
        return Err(Refusal::CacheLarge { bytes });
    }
    let held = 4 * u64::from(ram.words());
    if u64::from(bytes) > held {
        return Err(Refusal::RamSmall { bytes, held });
    }
    Ok(())
}

/// Refuses a cache that has fewer bytes than a block of so many words, 4 bytes each and at most 1024. The one error is
/// CacheSmall, which carries both sizes in bytes.
pub fn check_block(bytes: u32, block_words: u32) -> Result<(), Refusal>
    requires most { block_words ≤ 1024 }
    ensures holds { OnOk result (Passes (HoldsBlock bytes (4 * block_words))) }
    ensures refused { IfErr result (Fails (HoldsBlock bytes (4 * block_words))) }
{
    let least = 4 * block_words;
    if bytes < least {
        return Err(Refusal::CacheSmall { bytes, least });
    }
    Ok(())
}
