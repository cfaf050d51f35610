//! Where a program reads nothing and writes to nobody.
#![tactic(auto)]

ghost use Rattle.std.specs.Prelude.{[], Some, None};

use swi_outside::{Failed, Sink, Source};

/// An input without bytes, and a sink that takes every piece and keeps none. Neither ever fails.
#[derive(Drop)]
pub(crate) struct Nowhere;

impl Source for Nowhere {
    ghost state = { λ s. record { given = []; left = Some []; faults = 0 } };

    fn read(&mut self, _: &mut [u8]) -> Result<usize, Failed> {
        Ok(0)
    }
}

impl Sink for Nowhere {
    ghost state = { λ s. record { held = None; faults = 0 } };

    fn write(&mut self, _: &[u8]) -> Result<(), Failed> {
        Ok(())
    }
}
