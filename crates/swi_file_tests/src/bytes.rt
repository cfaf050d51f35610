//! The bytes of files, texts and images that stand in the tests as words.

ghost use Rattle.std.specs.Prelude.{◌≡◌, ◌*◌, IfOk, length};

use std::alloc::Global;
use std::test::Fail;
use swi_program::append_words;

/// The bytes of these words.
#[tactic(auto, using(swi_program::proofs::FromWords::length_bytes))]
pub fn bytes_of(alloc: Global, words: &[u32]) -> Result<Vec<u8>, Fail>
    ensures { IfOk result (λ b. length b.items ≡ 4 * length words.now) }
{
    let mut bytes = Vec::new(alloc);
    append_words(&mut bytes, words)?;
    Ok(bytes)
}

/// The words with some of them replaced: each by its index.
pub fn changed(alloc: Global, words: &[u32], changes: &[(usize, u32)]) -> Result<Vec<u32>, Fail> {
    let mut new = Vec::from_slice(alloc, words)?;
    for (at, word) in changes {
        if let Some(place) = new.get_mut(*at) {
            *place = *word;
        }
    }
    Ok(new)
}
