//! The micro-ops of an image's words, made where a run comes to them.
#![tactic(auto)]

ghost use Rattle.std.specs.Prelude.{◌≡◌, ◌<◌, ◌≤◌, ℕ, Option, Some, IfOk, length, replicate, slice_index};
ghost use Rattle.swi_memory.specs.Bus.{fetched};
ghost use Rattle.swi_image.specs.Format.{ImageData};
ghost use Rattle.swi_image.specs.Place.{length_at, next_start, place_of};
ghost use Rattle.swi_image.specs.Row.{row_length};
ghost use Rattle.swi_micro.specs.MicroOp.{stop_op};
ghost use Rattle.swi_image_ops.specs.ImageOp.{AreImageOps};

use crate::op::{fall, text_op};
use crate::row::index_in_row;
use std::alloc::Global;
use std::marker::Model;
use swi_image::ImageView;
use swi_isa::{EBREAK, decode};
use swi_memory::Bus;
use swi_micro::{MicroOp, stop};
use swi_outside::Memory;

/// A micro-op for each word of an image's row. One that stops where none is learnt, and where the word is left to the
/// executor. In clauses it is the list of them.
#[derive(Drop)]
pub struct ImageOps {
    ops: Vec<MicroOp>,
    // Whether a block's are learnt.
    learnt: Vec<bool>,
}

impl Model for ImageOps {
    ghost use Rattle.std.specs.Prelude.{List};
    ghost use Rattle.swi_micro.specs.declared.translator.MicroOp.{MicroOp};

    ghost Value = { List MicroOp };

    ghost view = { λ o. o.ops.items };
}

impl ImageOps {
    /// Nothing is learnt of an image. Memory where there is not enough of it: it takes eight bytes a word, and one a block.
    pub fn new(alloc: Global, image: &ImageView<'_>) -> Result<ImageOps, Memory>
        ensures { IfOk result (λ ops. ops ≡ replicate (row_length image.now) stop_op) }
    {
        let ops = vec![in alloc; stop(); image.words() as usize].map_err(|_| Memory)?;
        let learnt = vec![in alloc; false; image.blocks() as usize].map_err(|_| Memory)?;
        Ok(ImageOps { ops, learnt })
    }

    /// The micro-ops.
    #[inline(always)]
    pub fn ops(&self) -> &[MicroOp]
        ensures { result.now ≡ self.now }
    {
        &self.ops
    }

    /// Nothing is learnt any more: of any text, and of each image whose row has no more words.
    pub fn forget(&mut self)
        ensures { (text : ℕ → Option ℕ) (v : ImageData) → row_length v ≤ length self.old → AreImageOps text v self.new }
    {
        self.ops.fill(stop());
        self.learnt.fill(false);
    }

    /// Learns the micro-ops of a block's words, if they aren't learnt. The text is what is fetched from the memory.
    pub fn learn(&mut self, image: &ImageView<'_>, bus: &Bus, block: u32)
        requires block { block < length image.now.starts }
        requires ops { AreImageOps (fetched bus.now) image.now self.old }
        ensures { AreImageOps (fetched bus.now) image.now self.new }
    {
        match self.learnt.get_mut(block as usize) {
            Some(learnt) if !*learnt => *learnt = true,
            _ => return,
        }
        for t in image.first(block)..image.next(block) {
            learn_text(&mut self.ops, image, bus, block, t);
        }
    }
}

/// Learns the micro-ops of the words from a text word of a block up to the next one.
fn learn_text(ops: &mut [MicroOp], image: &ImageView<'_>, bus: &Bus, block: u32, t: u32)
    requires block { block < length image.now.starts }
    requires from { slice_index image.now.starts block ≤ t }
    requires to { t < next_start image.now block }
    requires ops { AreImageOps (fetched bus.now) image.now ops.old }
    ensures { AreImageOps (fetched bus.now) image.now ops.new }
{
    let next = image.next(block);
    learn_first(ops, image, bus, image.base().wrapping_add(4 * t), block);
    let end = if t + 1 < next {
        image.offset(t + 1)
    } else {
        image.length(block)
    };
    for offset in image.offset(t) + 1..end {
        learn_exit(ops, image, block, offset);
    }
}

/// Learns the micro-op of the first word that stands for the text word at an address, which most likely the block has.
fn learn_first(ops: &mut [MicroOp], image: &ImageView<'_>, bus: &Bus, a: u32, block: u32)
    requires ops { AreImageOps (fetched bus.now) image.now ops.old }
    ensures { AreImageOps (fetched bus.now) image.now ops.new }
{
    let Some((block, offset)) = image.place_near(a, block) else {
        return;
    };
    let Some(word) = bus.fetch(a) else { return };
    let Some(instr) = decode(word) else { return };
    let k = image.begin(block) + offset;
    ops[k as usize] = text_op(image, a, &instr);
}

/// Learns the micro-op of a word at which no text word stands, where it is an exit.
fn learn_exit(ops: &mut [MicroOp], image: &ImageView<'_>, block: u32, offset: u32)
    requires block { block < length image.now.starts }
    requires offset { offset < length_at image.now block }
    requires free { (a : ℕ) → place_of image.now a ≡ Some (block, offset) → ⊥ }
    requires room { row_length image.now ≤ length ops.old }
    ensures { (text : ℕ → Option ℕ) → AreImageOps text image.now ops.old → AreImageOps text image.now ops.new }
{
    let end = image.length(block);
    if offset + 1 >= end || image.word(block, offset) != EBREAK {
        return;
    }
    let descriptor = image.word(block, offset + 1);
    if descriptor % 4 != 0 {
        return;
    }
    let Some(to) = index_in_row(image, descriptor) else {
        return;
    };
    let k = image.begin(block) + offset;
    ops[k as usize] = fall(to);
}
