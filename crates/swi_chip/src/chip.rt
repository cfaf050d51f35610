//! What a service has: memory that the caller hands in, and its numbers.
#![tactic(auto)]

ghost use Rattle.std.specs.Prelude.{◌≡◌, ◌/◌, ◌%◌, ◌^◌, ◌<◌};
ghost use Rattle.swi_chip.specs.Sizes.{IsInverse};

/// What a service counts, modulo 2^32.
#[repr(C)]
pub struct ChipCounts {
    pub services: u32,
    pub misses: u32,
    pub evictions: u32,
    pub links: u32,
    pub unlinks: u32,
    /// In words.
    pub copied: u32,
    /// Links that the bound refused.
    pub refused: u32,
}

/// The words of a slot, and the least number not below 2^32 divided by them: a product with it has the quotient in its
/// upper half, where a processor may take 30 cycles for a division.
#[repr(C)]
#[derive(Clone, Copy)]
pub struct Size {
    pub words: u32,
    pub inverse: u32,
}

impl Size {
    /// The slot of an index.
    #[inline(always)]
    #[tactic(auto, using(crate::proofs::Dividing::by_inverse))]
    pub fn slot_of(&self, index: u32) -> u32
        requires few { index < 2 ^ 16 }
        requires inverse { IsInverse self.now.words self.now.inverse }
        ensures { result ≡ index / self.now.words }
    {
        (u64::from(index) * u64::from(self.inverse) / (1 << 32)) as u32
    }

    /// How far an index lies behind the first word of its slot.
    #[inline(always)]
    pub fn rest_of(&self, index: u32) -> u32
        requires few { index < 2 ^ 16 }
        requires inverse { IsInverse self.now.words self.now.inverse }
        ensures { result ≡ index % self.now.words }
    {
        index - self.slot_of(index) * self.words
    }
}

/// The registers of a program; x0 is 0.
#[repr(C)]
pub struct Registers {
    pub x: [u32; 32],
}

/// A service for one program: its counts and numbers, its tables, the cache, and the tables of the program's image.
///
/// C hands it in (`swi_chip_c`), so its fields stand in this order.
#[repr(C)]
pub struct Chip<'a> {
    pub counts: ChipCounts,
    /// The slot that is filled next, and how many are filled: the first so many.
    pub next: u32,
    pub filled: u32,
    pub slots: u32,
    pub size: Size,
    /// The address of the first text word, and the bytes of all.
    pub base: u32,
    pub text_bytes: u32,
    /// The address of the cache's first word, and the bytes of all.
    pub cache_at: u32,
    pub cache_bytes: u32,
    /// How many exits may be linked into one slot.
    pub most: u32,
    pub cache: &'a mut [u32],
    /// Of each slot the first cell of the links into it, and how many they are.
    pub heads: &'a mut [u16],
    pub links: &'a mut [u16],
    /// Of each slot its block.
    pub blocks: &'a mut [u32],
    /// Of each block the index of its first word in the cache, plus 1; 0 where it has no slot.
    pub marks: &'a mut [u16],
    /// The vector's memo of targets: whether an entry was filled, and the target of each.
    pub memo: &'a mut [u32],
    /// Of each text word its block times 2^13, plus the offset at which it stands there.
    pub places: &'a [u32],
    /// Of each block the index in `words` at which it ends.
    pub ends: &'a [u32],
    pub words: &'a [u32],
    /// Of each block the number of its first text word.
    pub starts: &'a [u32],
}
