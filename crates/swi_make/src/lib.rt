//! Programs that are made from a number, as large inputs for the machines.
#![tactic(auto)]

ghost use Rattle.std.specs.Prelude.{◌≡◌, ◌≤◌, ◌+◌, ◌*◌, ◌^◌, length, sum, IfOk};
ghost use Rattle.std.specs.List.{AllZip};
ghost use Rattle.swi_program.specs.ProgramOf.{bytes_of_words, program_of_text};
ghost use Rattle.swi_make.specs.Listing.{instructions_of};
ghost use Rattle.swi_make.specs.Made.{IsMade, IsWordOf};
ghost use Rattle.swi_make.specs.Numbers.{all_additions};

mod listing;
mod numbers;
mod words;

use crate::listing::listing;
use crate::numbers::all_additions;
use crate::words::words_of;
pub use numbers::next_number;
use std::alloc::{AllocError, Global};
use swi_outside::Memory;
use swi_program::append_words;

/// The address at which the text of a made program begins, and the run.
pub const BASE: u32 = 0x10000;

/// The words of the program's text.
#[tactic(auto, using(crate::proofs::Functions::text_facts))]
fn text_words(alloc: Global, seed: u32, functions: u32) -> Result<Vec<u32>, AllocError>
    requires some { 1 ≤ functions }
    requires few { functions ≤ 4096 }
    ensures each { IfOk result (λ ws.
        AllZip IsWordOf (instructions_of (all_additions seed functions)) ws.items) }
    ensures most { IfOk result (λ ws. length ws.items ≤ 2 ^ 19) }
{
    let additions = all_additions(alloc, seed, functions)?;
    let instructions = listing(alloc, &additions)?;
    words_of(alloc, &instructions)
}

/// The bytes of these words.
fn bytes_of(alloc: Global, words: &[u32]) -> Result<Vec<u8>, Memory>
    ensures { IfOk result (λ bytes. bytes.items ≡ bytes_of_words words.now) }
{
    let mut bytes = Vec::new(alloc);
    append_words(&mut bytes, words)?;
    Ok(bytes)
}

/// The program of a seed with so many functions, 1 to 4096, as a large input for a machine. Eight times over it calls
/// all functions in order; each adds 1 to a register 1 to 16 times, as the seed's numbers say. Then it exits with the
/// register's value: 8 times the sum of all additions. It is one text that begins at `BASE`, and so does its run; the
/// result is the bytes of this text. It has 6 words, 6 for each function, and 1 for each addition. The same seed and
/// number give the same program.
///
/// The only error is want of memory.
#[tactic(auto, using(crate::proofs::Making::made))]
pub fn make(alloc: Global, seed: u32, functions: u32) -> Result<Vec<u8>, Memory>
    requires some { 1 ≤ functions }
    requires few { functions ≤ 4096 }
    ensures made { IfOk result (λ text. IsMade seed functions (program_of_text 0x10000 text.items)) }
    ensures size { IfOk result (λ text. length text.items ≡ 4
        * (6 + 6 * functions + sum (all_additions seed functions))) }
    ensures most { IfOk result (λ text. length text.items ≤ 2 ^ 21) }
{
    let words = text_words(alloc, seed, functions).map_err(|_| Memory)?;
    bytes_of(alloc, &words)
}
