//! The counts of a text's words, beside a run of the flat machine.
#![tactic(auto)]

ghost use Rattle.std.specs.Prelude.{◌≡◌, ◌+◌, ◌-◌, ◌*◌, ◌^◌, ◌<◌, ◌≤◌, ◌++◌, ℕ, [], false, IfOk, OnErr, codes, decimal, length, slice_index};
ghost use Rattle.swi_outside.specs.Devices.{streams};
ghost use Rattle.swi_outside.specs.Sink.{WasWritten};
ghost use Rattle.swi_line.specs.Hex.{hex_word};
ghost use Rattle.swi_memory.specs.WordRange.{IsWordRange};
ghost use Rattle.swi_micro.specs.MicroOp.{index_at};
ghost use Rattle.swi_profile.specs.Executions.{AreCounts, lines_of, range_of, word_line};
ghost use Rattle.swi_profile.specs.Profiled.{Profiled, with_one};

use std::alloc::Global;
use swi_calls::CallFault;
use swi_flat::Flat;
use swi_line::Line;
use swi_memory::WordRange;
use swi_micro::index_of;
use swi_outside::{Failed, Memory, Sink, Source};
use swi_program::TextView;

/// How often each word of a text has been executed.
#[derive(Drop)]
pub struct Profile {
    pub range: WordRange,
    pub counts: Vec<u64>,
}

/// So many counts of nothing.
fn no_counts(alloc: Global, words: u32) -> Result<Vec<u64>, Memory>
    ensures long { IfOk result (λ counts. length counts.items ≡ words) }
    ensures none { IfOk result (λ counts. (k : ℕ) → slice_index counts.items k ≡ 0) }
{
    vec![in alloc; 0; words as usize].map_err(|_| Memory)
}

/// Counts an execution of the word at an address, where a word of the range stands there.
fn add_execution(counts: &mut Vec<u64>, range: &WordRange, a: u32)
    requires long { length counts.old.items ≡ range.now.words }
    requires few { (k : ℕ) → k < length counts.old.items → slice_index counts.old.items k < 2 ^ 48 }
    ensures { counts.new.items ≡ with_one counts.old.items (index_at range.now a) }
{
    if let Some(k) = index_of(range, a) {
        counts[k as usize] += 1;
    }
}

/// The line of a word's address and how often the word was executed.
fn line_of(a: u32, count: u64) -> Line
    ensures { result ≡ hex_word a ++ (codes " " ++ (decimal count ++ codes "\n")) }
{
    let mut line = Line::new();
    line.push_hex_word(a);
    line.push_text(" ");
    line.push_decimal(count);
    line.push_text("\n");
    line
}

/// Writes the line of a word, where it was executed.
fn write_word<O: Sink>(a: u32, count: u64, out: &mut O) -> Result<(), Failed>
    ensures written { WasWritten (O.state out.old) (O.state out.new) result (word_line a count) }
    ensures asked { OnErr result (word_line a count ≡ [] → ⊥) }
{
    if count == 0 {
        return Ok(());
    }
    out.write(line_of(a, count).as_bytes())
}

impl Profile {
    /// That of a text before the first step of a run. Memory is the only error: it takes eight bytes a word.
    pub fn new(alloc: Global, text: &TextView<'_>) -> Result<Profile, Memory>
        ensures range { IfOk result (λ p. p.range ≡ range_of text.now) }
        ensures whole { IfOk result (λ p. IsWordRange p.range) }
        ensures counts { IfOk result (λ p. AreCounts p.range p.counts.items (λ a. 0)) }
    {
        let range = WordRange {
            from: text.base(),
            words: text.len(),
        };
        let counts = no_counts(alloc, range.words)?;
        Ok(Profile { range, counts })
    }

    /// Steps until `limit` steps are made since the start, or the run has ended, or a device fails, as `Flat::run`, and
    /// counts each by the word at which it stands: the step that ends the run too, and not one that fails. `limit` is
    /// from `steps()` to 2^48; no device has failed before.
    pub fn run<I: Source, O: Sink, E: Sink>(
        &mut self,
        flat: &mut Flat,
        limit: u64,
        input: &mut I,
        out: &mut O,
        err: &mut E,
    ) -> Result<(), CallFault>
        requires whole { IsWordRange self.old.range }
        requires fresh { AreCounts self.old.range self.old.counts.items (λ a. 0) }
        requires within { flat.old.machine.steps ≤ limit }
        requires few { limit ≤ 2 ^ 48 }
        requires unfailed { flat.old.failed ≡ false }
        ensures range { self.new.range ≡ self.old.range }
        ensures profiled { Profiled flat.old.machine limit flat.new self.old.range self.new.counts.items
            (streams (I.state input.old) (O.state out.old) (E.state err.old))
            (streams (I.state input.new) (O.state out.new) (E.state err.new)) result }
    {
        while flat.steps() < limit && flat.ending().is_none() {
            let pc = flat.pc();
            flat.step(input, out, err)?;
            add_execution(&mut self.counts, &self.range, pc);
        }
        Ok(())
    }

    /// Writes a line for each word that was executed, the lowest address first: the address in eight hexadecimal digits, a
    /// space, and the count. Failed only where the sink's count of faults rose; it then holds a front of the lines, of which
    /// there is one.
    pub fn write<O: Sink>(&self, out: &mut O) -> Result<(), Failed>
        requires whole { IsWordRange self.now.range }
        requires long { length self.now.counts.items ≡ self.now.range.words }
        ensures written { (count : ℕ → ℕ) → AreCounts self.now.range self.now.counts.items count →
            WasWritten (O.state out.old) (O.state out.new) result (lines_of self.now.range.from self.now.range.words count) }
        ensures asked { OnErr result ((count : ℕ → ℕ) → AreCounts self.now.range self.now.counts.items count →
            lines_of self.now.range.from self.now.range.words count ≡ [] → ⊥) }
    {
        for k in 0..self.range.words {
            write_word(self.range.from + 4 * k, self.counts[k as usize], out)?;
        }
        Ok(())
    }
}
