//! Where control is, as a step changes it.
#![tactic(auto)]

ghost use Rattle.std.specs.Prelude.{◌≡◌, ◌+◌, ◌^◌, ◌<◌, None};

use crate::hart::{CodePlace, Control, Stage};
use std::marker::Model;

/// Where control is, as `Control` tells it. Of the block under control the first word's index is kept, and not the offset, so that a step
/// from one word to the next changes only the index.
#[derive(Drop)]
pub struct Position {
    index: u32,
    first: u32,
    block: u32,
    // None where no text word stands.
    stage: Option<Stage>,
}

impl Model for Position {
    ghost use Rattle.swi_hart.specs.declared.hart.Control.{Control};
    ghost use Rattle.swi_hart.specs.Position.{control_of};

    ghost Value = { Control };

    ghost view = { λ p. control_of p.stage p.index p.first p.block };
}

impl Position {
    /// Control where no text word stands.
    pub fn outside() -> Position
        ensures { result ≡ Control.Outside }
    {
        Position {
            index: 0,
            first: 0,
            block: 0,
            stage: None,
        }
    }

    /// Where it is.
    #[inline(always)]
    pub fn control(&self) -> Control
        ensures { result ≡ self.now }
    {
        match self.stage {
            Some(stage) => {
                let offset = self.index.wrapping_sub(self.first);
                Control::At(self.index, self.block, offset, stage)
            }
            None => Control::Outside,
        }
    }

    /// Control goes elsewhere.
    #[inline(always)]
    pub fn go(&mut self, control: Control)
        ensures { self.new ≡ control }
    {
        match control {
            Control::At(index, block, offset, stage) => {
                self.index = index;
                self.first = index.wrapping_sub(offset);
                self.block = block;
                self.stage = Some(stage);
            }
            Control::Outside => self.stage = None,
        }
    }

    /// Control goes so many words on in its block.
    #[inline(always)]
    pub fn advance(&mut self, at: CodePlace, words: u32, stage: Stage)
        requires control { self.old ≡ Control.At at.index at.block at.offset at.stage }
        requires small { at.index < 2 ^ 22 }
        requires inside { at.offset < 2 ^ 22 }
        requires few { words < 2 ^ 23 }
        ensures { self.new ≡ Control.At (at.index + words) at.block (at.offset + words) stage }
    {
        // Read for the proof alone: that it has 32 bits.
        let _first = self.first;
        self.index = at.index + words;
        self.stage = Some(stage);
    }
}
