//! The micro-ops of a range of words, beside the words.
#![tactic(auto)]

ghost use Rattle.std.specs.Prelude.{◌≡◌, ◌+◌, ◌*◌, ◌/◌, ℕ, Option, length, replicate, IfOk};
ghost use Rattle.swi_memory.specs.declared.word_range.WordRange.{WordRange};
ghost use Rattle.swi_memory.specs.WordRange.{IsWordRange};
ghost use Rattle.swi_micro.specs.Decoded.{AreDecoded, AreSameBeside, without};
ghost use Rattle.swi_micro.specs.MicroOp.{index_at, stop_op};

use crate::translator::{MicroOp, index_of, stop};
use std::alloc::Global;
use swi_memory::WordRange;
use swi_outside::Memory;

/// A range of words with a micro-op for each of them, and behind these one that stops. A word that no step has come to
/// has none yet: one that stops.
#[derive(Drop)]
pub struct Decoded {
    pub range: WordRange,
    pub ops: Vec<MicroOp>,
}

/// So many micro-ops that stop.
fn all_stop(alloc: Global, count: u32) -> Result<Vec<MicroOp>, Memory>
    ensures { IfOk result (λ ops. ops.items ≡ replicate count stop_op) }
{
    vec![in alloc; stop(); count as usize].map_err(|_| Memory)
}

impl Decoded {
    /// That of words at which no step has been made, whatever they are. Memory where there is not enough of it: it takes
    /// eight bytes a word.
    pub fn new(alloc: Global, range: WordRange) -> Result<Decoded, Memory>
        requires { IsWordRange range }
        ensures range { IfOk result (λ d. d.range ≡ range) }
        ensures decoded { IfOk result (λ d. (words : ℕ → Option ℕ) → AreDecoded words d.range d.ops.items) }
    {
        let ops = all_stop(alloc, range.words + 1)?;
        Ok(Decoded { range, ops })
    }
}

/// Forgets the micro-op of the word of which the byte at the address is.
fn forget_at(ops: &mut [MicroOp], range: &WordRange, a: u32)
    requires { length ops.old ≡ range.now.words + 1 }
    ensures { ops.new ≡ without ops.old (index_at range.now (a / 4 * 4)) }
{
    if let Some(k) = index_of(range, a / 4 * 4) {
        ops[k as usize] = stop();
    }
}

/// Forgets the micro-ops of the words of which one of the four bytes from the address on is, which have changed. The
/// next step at one has to make its micro-op anew.
pub fn forget(ops: &mut [MicroOp], range: &WordRange, a: u32)
    requires { length ops.old ≡ range.now.words + 1 }
    ensures { (old new : ℕ → Option ℕ) → AreSameBeside old new a → AreDecoded old range.now ops.old →
        AreDecoded new range.now ops.new }
{
    forget_at(ops, range, a);
    forget_at(ops, range, a.wrapping_add(3));
}

/// Forgets all micro-ops: where it isn't told which words have changed.
pub fn forget_all(ops: &mut [MicroOp])
    ensures { (old new : ℕ → Option ℕ) → (range : WordRange) → AreDecoded old range ops.old →
        AreDecoded new range ops.new }
{
    ops.fill(stop());
}
