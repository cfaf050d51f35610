//! A text word's block and offset in one number, for each text word.
#![tactic(auto)]

ghost use Rattle.std.specs.Prelude.{◌≡◌, ◌⊎◌, ◌+◌, ◌<◌, ◌≤◌, length, slice_index};
ghost use Rattle.swi_image.specs.Checks.{block_of};
ghost use Rattle.swi_chip_places.specs.Places.{AreOfImage, ArePlaces};

/// How much a block counts in the number of a place; an offset is below it.
const BLOCK: u32 = 0x2000;

/// The block of text word k, where the text word before is of `block`, or k is 0.
#[tactic(auto, using(crate::proofs::Blocks::blocks))]
fn block_of(starts: &[u32], offsets: &[u32], block: u32, k: u32) -> u32
    requires tables { AreOfImage starts.now offsets.now }
    requires block { block < length starts.now }
    requires low { slice_index starts.now block ≤ k }
    requires high { block + 1 < length starts.now → k ≤ slice_index starts.now (block + 1) }
    ensures own { block_of starts.now k ≡ result }
    ensures within { result < length starts.now }
    ensures low { slice_index starts.now result ≤ k }
    ensures high { result + 1 < length starts.now → k < slice_index starts.now (result + 1) }
{
    if (block as usize) + 1 < starts.len() && starts[block as usize + 1] == k {
        block + 1
    } else {
        block
    }
}

/// Fills the table of places, from an image's tables: of each block the number of its first text word, and of each text
/// word its offset in its block.
#[tactic(auto, using(crate::proofs::Blocks::tables))]
pub fn fill_places(starts: &[u32], offsets: &[u32], places: &mut [u32])
    requires tables { AreOfImage starts.now offsets.now }
    requires long { length places.old ≡ length offsets.now }
    ensures { ArePlaces starts.now offsets.now places.new }
{
    let mut block = 0;
    for k in 0..offsets.len() {
        block = block_of(starts, offsets, block, k as u32);
        places[k] = block * BLOCK + offsets[k];
    }
}
