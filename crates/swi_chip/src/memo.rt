//! The vector's memo of the targets of jumps over registers, which it fills itself.
#![tactic(auto)]

ghost use Rattle.std.specs.Prelude.{◌≡◌, ◌+◌, ◌/◌, ◌%◌, ◌<◌, ℕ, true, false, length, slice_index};
ghost use Rattle.swi_chip.specs.Memo.{HasNone};

/// Empties the memo: each entry has a target of another entry's number.
#[inline(always)]
pub fn empty(memo: &mut [u32])
    requires { length memo.old ≡ 17 }
    ensures { HasNone memo.new }
{
    for e in 0..17 {
        memo[e] = 0;
    }
    memo[1] = 4;
}

/// Empties the memo, where a block leaves and an entry was filled.
#[inline(always)]
pub fn forget(memo: &mut [u32], leaves: bool)
    requires { length memo.old ≡ 17 }
    ensures left { leaves ≡ true → (slice_index memo.old 0 ≡ 0 → ⊥) → HasNone memo.new }
    ensures unfilled { leaves ≡ true → slice_index memo.old 0 ≡ 0 → memo.new ≡ memo.old }
    ensures stays { leaves ≡ false → memo.new ≡ memo.old }
{
    if leaves && memo[0] != 0 {
        empty(memo);
    }
}
