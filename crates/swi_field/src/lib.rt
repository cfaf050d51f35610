//! Fields of a 32-bit word, with their places as constants.
#![tactic(auto)]

ghost use Rattle.std.specs.Prelude.{◌≡◌, ◌+◌, ◌-◌, ◌^◌, ◌<◌, ◌≤◌};
ghost use Rattle.swi_field.specs.Field.{field, with_field, extended};

/// Bits HI down to LO of `w`, both included, as a number. Bit 0 is the lowest; LO is at most HI, and HI at most 31.
#[inline(always)]
#[tactic(auto, using(crate::proofs::Masks::bits_is))]
pub fn bits<const HI: u32, const LO: u32>(w: u32) -> u32
    requires order { LO ≤ HI }
    requires top { HI ≤ 31 }
    ensures { result ≡ field HI LO w }
{
    (w >> LO) & (u32::MAX >> (31 + LO - HI))
}

/// `w` with bits HI down to LO, both included, replaced by `v`, which fits the field. The other bits stay.
///
/// LO is at most HI, and HI at most 31.
#[inline(always)]
#[tactic(auto, using(crate::proofs::Masks::put_bits_is))]
pub fn put_bits<const HI: u32, const LO: u32>(w: u32, v: u32) -> u32
    requires order { LO ≤ HI }
    requires top { HI ≤ 31 }
    requires fits { v < 2 ^ (HI + 1 - LO) }
    ensures { result ≡ with_field HI LO w v }
{
    let mask = (u32::MAX >> (31 + LO - HI)) << LO;
    (w & !mask) | (v << LO)
}

/// Sign extension: the N-bit value `v` in two's complement, as 32 bits in two's complement (RISC-V unprivileged
/// specification, section 2.3). N is 1 to 32, and `v` is below 2^N.
#[inline(always)]
#[tactic(auto, using(crate::proofs::Masks::sign_is))]
pub fn sign<const N: u32>(v: u32) -> u32
    requires low { 1 ≤ N }
    requires high { N ≤ 32 }
    requires fits { v < 2 ^ N }
    ensures { result ≡ extended N v }
{
    // turning the top bit over and taking it away again borrows through the bits above it: no branch
    let top = 1 << (N - 1);
    (v ^ top).wrapping_sub(top)
}
