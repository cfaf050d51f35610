//! Numbers of 64 bits as sets of caches.
#![tactic(auto)]

ghost use Rattle.std.specs.Prelude.{◌≡◌, ◌<◌, ◌==◌, ◌&&◌, ◌||◌, ℕ, not, true};
ghost use Rattle.swi_tally.specs.Masks.{has};

/// The most caches of a set.
pub const CACHES: u32 = 64;

/// Whether the set has the cache.
#[inline(always)]
pub(crate) fn has(mask: u64, cache: u32) -> bool
    requires { cache < 64 }
    ensures { result ≡ has mask cache }
{
    (mask >> cache) & 1 == 1
}

/// The set with the cache.
#[inline(always)]
pub(crate) fn with(mask: u64, cache: u32) -> u64
    requires { cache < 64 }
    ensures { (d : ℕ) → d < 64 → has result d ≡ (has mask d || d == cache) }
{
    mask | (1 << cache)
}

/// The set without the cache.
#[inline(always)]
pub(crate) fn without(mask: u64, cache: u32) -> u64
    requires { cache < 64 }
    ensures sets { (d : ℕ) → d < 64 → has result d ≡ (has mask d && not (d == cache)) }
    ensures fewer { has mask cache ≡ true → result < mask }
{
    mask & !(1 << cache)
}

/// The caches of a set that another one has not.
#[inline(always)]
pub(crate) fn lacking(mask: u64, other: u64) -> u64
    ensures { (d : ℕ) → d < 64 → has result d ≡ (has mask d && not (has other d)) }
{
    mask & !other
}

/// The first cache of a set that has one.
#[inline(always)]
pub(crate) fn first(mask: u64) -> u32
    requires { 0 < mask }
    ensures small { result < 64 }
    ensures has { has mask result ≡ true }
{
    mask.trailing_zeros()
}
