//! Registers in a byte.
#![tactic(auto)]

ghost use Rattle.std.specs.Prelude.{◌≡◌};

use std::marker::Model;
use swi_isa::Reg;

/// A register that a micro-op reads, by its number in a byte, so that the micro-op has eight.
#[derive(Clone, Copy)]
pub struct Source {
    number: u8,
}

impl Model for Source {
    ghost use Rattle.std.specs.Prelude.{ℕ, ◌<◌};

    ghost Value = { ℕ };

    ghost view = { λ s. s.number };

    ghost inverse = { λ n. record { number = n } };

    ghost invariant = { λ s. s.number < 32 };
}

impl Source {
    /// That of a register.
    #[inline(always)]
    pub fn of(register: Reg) -> Source
        ensures { result ≡ register }
    {
        Source {
            number: register.num() as u8,
        }
    }

    /// The register.
    // A hint alone, as that of `value` in stepper.rt.
    #[inline]
    pub fn register(self) -> Reg
        ensures { result ≡ self }
    {
        Reg::of(u32::from(self.number))
    }
}
