//! The registers of a hart.
#![tactic(auto)]

ghost use Rattle.std.specs.Prelude.{◌≡◌, ◌==◌};
ghost use Rattle.swi_exec.specs.Registers.{reg, with_reg, with_reservation, new_regs};

use std::marker::Model;
use swi_isa::Reg;

/// The number of sp, the stack pointer. Source of this name and those below: RISC-V ELF psABI, section
/// "Integer Register Convention".
pub const SP: u32 = 2;

/// The number of a0, the first argument of a call and its answer.
pub const A0: u32 = 10;

/// The number of a1, the second argument of a call.
pub const A1: u32 = 11;

/// The number of a2, the third argument of a call.
pub const A2: u32 = 12;

/// The number of a7, in which a system call's number stands.
pub const A7: u32 = 17;

/// A register as it is written: its number, or for x0 a place that no register is read from. So `Regs::put` needs no
/// test of which register it writes, and what is written to x0 is lost.
#[derive(Clone, Copy)]
pub struct Slot {
    place: u8,
}

impl Model for Slot {
    ghost use Rattle.std.specs.Prelude.{ℕ, ◌<◌, ◌≤◌};
    ghost use Rattle.std.proofs.Common.{ap};
    ghost use Rattle.swi_exec.specs.Registers.{place_of, register_at};
    ghost use Rattle.swi_exec.specs.Places.{place_back};

    ghost Value = { ℕ };

    ghost view = { λ s. register_at s.place };

    ghost inverse = { λ r. record { place = place_of r } };

    ghost invariant = { λ s. (0 < s.place) × (s.place ≤ 32) };

    ghost inverse_ok = { λ s h. ap (λ p. record { place = p }) (place_back s.place h.0 h.1) };
}

impl Slot {
    /// Where `register` is written.
    #[inline(always)]
    pub fn of(register: Reg) -> Slot
        ensures { result ≡ register }
    {
        let number = register.num() as u8;
        Slot {
            place: if number == 0 { 32 } else { number },
        }
    }

    /// Whether the register that is written there is x0.
    #[inline(always)]
    pub fn is_of_x0(self) -> bool
        ensures { result ≡ (self == 0) }
    {
        self.place == 32
    }
}

/// The integer registers x0 to x31, each a word, of which x0 reads 0 always, and the address that
/// LR.W reserved last, if it is still reserved.
///
/// Source: RISC-V unprivileged specification, sections "Programmers' Model for Base Integer ISA" and
/// "Load-Reserved/Store-Conditional Instructions".
#[derive(Drop)]
pub struct Regs {
    /// x0 is kept, as 0, so that no read asks which register it reads. The last word is none of them: it takes what
    /// is written to the slot of x0.
    words: [u32; 33],
    reserved: Option<u32>,
}

impl Model for Regs {
    ghost use Rattle.std.specs.Prelude.{◌≡◌, slice_index, take};
    ghost use Rattle.swi_exec.specs.Registers.{Registers};

    ghost Value = { Registers };

    ghost view = { λ r. record { words = take 32 r.words; reserved = r.reserved } };

    ghost invariant = { λ r. slice_index r.words 0 ≡ 0 };
}

impl Regs {
    /// All registers are 0, and no address is reserved.
    pub fn new() -> Regs
        ensures { result ≡ new_regs }
    {
        Regs {
            words: [0; 33],
            reserved: None,
        }
    }

    /// The word in the register; x0 reads 0.
    #[inline(always)]
    #[tactic(auto, using(crate::proofs::Words::fronts))]
    pub fn get(&self, register: Reg) -> u32
        ensures { result ≡ reg self.now register }
    {
        self.words[register.num() as usize]
    }

    /// Writes the word `v` to the register. A write to x0 changes nothing, and no write changes what
    /// is reserved.
    #[inline(always)]
    #[tactic(auto, using(crate::proofs::Words::fronts))]
    pub fn set(&mut self, register: Reg, v: u32)
        ensures { self.new ≡ with_reg self.old register v }
    {
        self.words[register.num() as usize] = v;
        self.words[0] = 0;
    }

    /// Writes the word `v` to the register of the slot, as `set` does: to x0 it changes nothing, and what is reserved
    /// stays. It tests no register's number, so it costs less where the slot is made before.
    #[inline(always)]
    #[tactic(auto, using(crate::proofs::Words::fronts))]
    pub fn put(&mut self, slot: Slot, v: u32)
        ensures { self.new ≡ with_reg self.old slot v }
    {
        self.words[slot.place as usize] = v;
    }

    /// The address that is reserved, if there is one.
    #[inline(always)]
    pub fn reserved(&self) -> Option<u32>
        ensures { result ≡ self.now.reserved }
    {
        self.reserved
    }

    /// Reserves the address `a`, or none, in place of what was reserved. The registers stay.
    #[inline(always)]
    pub fn reserve(&mut self, a: Option<u32>)
        ensures { self.new ≡ with_reservation self.old a }
    {
        self.reserved = a;
    }
}
