//! LR/SC sequences that a cut keeps in one block (RISC-V unprivileged specification, section "Eventual
//! Success of Store-Conditional Instructions").
#![tactic(auto)]

ghost use Rattle.std.specs.Prelude.{◌≡◌, ◌↔◌, ℕ, ◌≤◌, ◌<◌, length, IsTrue, IfSome, IfNone};
ghost use Rattle.swi_render.specs.Loops.{atomic_at, IsSequence};
ghost use Rattle.swi_cut.specs.Drafts.{IsRun, IsGreedy, IsWhole, IsSplit};

use crate::greedy::longest_end;
use swi_isa::{AtomicOp, Instr, decode};
use swi_program::TextView;

/// The most instructions of a constrained LR/SC loop.
const LOOP_WORDS: u32 = 16;

/// The atomic operation that text word `k` is.
fn atomic_at(text: &TextView<'_>, k: u32) -> Option<AtomicOp>
    requires { k < length text.now.words }
    ensures { result ≡ atomic_at text.now k }
{
    match decode(text.word(k)) {
        Some(Instr::Atomic { op, .. }) => Some(op),
        _ => None,
    }
}

/// The SC.W of the sequence that text word `lr` begins.
fn sequence_end(text: &TextView<'_>, lr: u32) -> Option<u32>
    requires { lr < length text.now.words }
    ensures found { IfSome result (IsSequence text.now lr) }
    ensures none { IfNone result ((sc : ℕ) → IsSequence text.now lr sc → ⊥) }
{
    if atomic_at(text, lr) != Some(AtomicOp::LrW) {
        return None;
    }
    let limit = text.len().min(lr + LOOP_WORDS);
    for k in lr + 1..limit {
        match atomic_at(text, k) {
            Some(AtomicOp::ScW) => return Some(k),
            Some(AtomicOp::LrW) => return None,
            _ => {}
        }
    }
    None
}

/// Whether a block that ends before text word `end` splits a sequence that text word `lr` begins, and
/// that fits into a block.
fn is_split(text: &TextView<'_>, lr: u32, end: u32, most: u32) -> bool
    requires lr { lr < length text.now.words }
    requires most { most ≤ 1024 }
    ensures { IsTrue result ↔ IsSplit text.now most lr end }
{
    let Some(sc) = sequence_end(text, lr) else {
        return false;
    };
    if sc < end {
        return false;
    }
    match longest_end(text, lr, most) {
        Ok(longest) => sc < longest,
        Err(_) => false,
    }
}

/// Where a block that begins at a text word, and that is longest up to `end`, ends so that it splits no
/// sequence that it is to keep.
pub(crate) fn whole_end(text: &TextView<'_>, first: u32, end: u32, most: u32) -> u32
    requires most { most ≤ 1024 }
    requires run { IsRun text.now most first end }
    requires greedy { IsGreedy text.now most first end }
    ensures run { IsRun text.now most first result }
    ensures whole { IsWhole text.now most first result }
{
    for lr in first..end {
        if is_split(text, lr, end, most) {
            return lr;
        }
    }
    end
}
