//! The words of instructions.

ghost use Rattle.std.specs.Prelude.{All, IfOk};
ghost use Rattle.std.specs.List.{AllZip};
ghost use Rattle.swi_make.specs.Made.{HasOneWord, IsWordOf};

use std::alloc::{AllocError, Global};
use swi_encode::encode;
use swi_isa::Instr;

fn word(i: &Instr) -> u32
    requires { HasOneWord i.now }
    ensures { IsWordOf i.now result }
{
    encode(i)
}

/// The words of the instructions, in order.
#[tactic(auto, using(crate::proofs::Encoded::words_more))]
pub fn words_of(alloc: Global, instructions: &[Instr]) -> Result<Vec<u32>, AllocError>
    requires { All HasOneWord instructions.now }
    ensures { IfOk result (λ ws. AllZip IsWordOf instructions.now ws.items) }
{
    let mut words = Vec::new(alloc);
    for i in instructions {
        words.push(word(i))?;
    }
    Ok(words)
}
