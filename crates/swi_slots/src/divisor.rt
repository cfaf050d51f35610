//! Division by the words of a slot.
#![tactic(auto)]

ghost use Rattle.std.specs.Prelude.{◌≡◌, ◌≤◌, ◌/◌, ◌%◌};

use std::marker::Model;

/// A number by which others are divided often, 2 to 1024: by a multiplication with its inverse, since a division takes
/// some processors 26 cycles. In clauses it is the number.
#[derive(Drop)]
pub struct Divisor {
    number: u32,
    // The least number not below 2^64 / `number`. A 2^64th of its product with 32 bits is above the exact quotient by less
    // than 2^-32, and the fraction of that is at most 1 - 2^-10: so both have the same whole number.
    inverse: u64,
}

impl Model for Divisor {
    ghost use Rattle.std.specs.Prelude.{◌≡◌, ◌≤◌, ◌/◌, ◌+◌, ◌-◌, ◌^◌, ℕ};

    ghost Value = { ℕ };

    ghost view = { λ d. d.number };

    ghost invariant = { λ d. (2 ≤ d.number) × (d.number ≤ 1024) × (d.inverse ≡ (2 ^ 64 - 1) / d.number + 1) };
}

impl Divisor {
    /// The divisor of this number.
    pub fn new(number: u32) -> Divisor
        requires least { 2 ≤ number }
        requires most { number ≤ 1024 }
        ensures { result ≡ number }
    {
        Divisor {
            number,
            inverse: u64::MAX / u64::from(number) + 1,
        }
    }

    /// How often it goes into a number, and what is left.
    #[inline(always)]
    pub fn divide(&self, i: u32) -> (u32, u32)
        ensures quotient { result.0 ≡ i / self.now }
        ensures rest { result.1 ≡ i % self.now }
    {
        let quotient = (u128::from(i) * u128::from(self.inverse) / (1 << 64)) as u32;
        (quotient, i - quotient * self.number)
    }
}
