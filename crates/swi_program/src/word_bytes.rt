//! Words as bytes.
#![tactic(auto)]

ghost use Rattle.std.specs.Prelude.{◌≡◌, ◌++◌, OnOk};
ghost use Rattle.swi_program.specs.ProgramOf.{bytes_of_words};

use swi_outside::Memory;

/// Appends the words to the bytes, the lowest byte of each word first.
///
/// The only error is want of memory, after which some of the words are appended.
#[tactic(auto, using(crate::proofs::FromWords::byte_steps))]
pub fn append_words(bytes: &mut Vec<u8>, words: &[u32]) -> Result<(), Memory>
    ensures { OnOk result (bytes.new.items ≡ bytes.old.items ++ bytes_of_words words.now) }
{
    for word in words {
        if bytes.extend_from_slice(&word.to_le_bytes()).is_err() {
            return Err(Memory);
        }
    }
    Ok(())
}
