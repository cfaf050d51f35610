//! How many additions each function makes, by the numbers of a seed.

ghost use Rattle.std.specs.Prelude.{◌≡◌, ◌≤◌, ◌+◌, ◌*◌, ◌%◌, ◌^◌, All, IfOk};
ghost use Rattle.swi_make.specs.Numbers.{all_additions};

use std::alloc::{AllocError, Global};

/// The number behind `x`, by a linear congruential generator modulo 2^32: of a seed, number 0 is the seed itself.
pub fn next_number(x: u32) -> u32
    ensures { result ≡ (1664525 * x + 1013904223) % 2 ^ 32 }
{
    x.wrapping_mul(1_664_525).wrapping_add(1_013_904_223)
}

/// How many additions each of so many functions makes.
#[tactic(auto, using(crate::proofs::Drawn::drawn))]
pub fn all_additions(alloc: Global, seed: u32, count: u32) -> Result<Vec<u32>, AllocError>
    ensures value { IfOk result (λ ns. ns.items ≡ all_additions seed count) }
    ensures each { IfOk result (λ ns. All (λ n. n ≤ 16) ns.items) }
{
    let mut all = Vec::new(alloc);
    let mut x = seed;
    for _ in 0..count {
        x = next_number(x);
        all.push(1 + (x >> 28))?;
    }
    Ok(all)
}
