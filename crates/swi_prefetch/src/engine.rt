//! What a copy engine beside a service does.
#![tactic(auto)]

ghost use Rattle.std.specs.Prelude.{◌^◌, ◌<◌, ℕ, IfOk, OnErr};
ghost use Rattle.swi_rom.specs.Record.{Placed};
ghost use Rattle.swi_rom.specs.Writing.{FailedBelow};
ghost use Rattle.swi_prefetch.specs.Engines.{EngineOf, IsEngine, EventMade};

use swi_engine::EngineRom;
use swi_image::ImageView;
use swi_outside::{CacheRam, Failed};
use swi_rom::CacheRom;

/// A service beside which an engine copies blocks ahead, word by word.
pub trait CopyEngine: CacheRom {
    /// What an event of the engine does, and how many words it wrote to copy.
    ghost engine: { EngineOf };

    /// One event with control in block `here`, which is placed: whether it wrote a word. The service is sound for the
    /// image and the ram, and the engine has written fewer than 2^60 words to copy. `Failed` comes only where the ram's
    /// count of faults rose; only the words beyond the service's are known then, and no further call is allowed.
    fn work<M: CacheRam>(
        &mut self,
        image: &ImageView<'_>,
        ram: &mut M,
        here: u32,
    ) -> Result<bool, Failed>
        requires sound { Self.service.sound self.old image.now (M.state ram.old).words }
        requires here { (first : ℕ) × Placed (Self.service.kept self.old) here first }
        requires few { engine.written (Self.service.kept self.old) < 2 ^ 60 }
        ensures made { IfOk result (λ wrote. EventMade Self.service engine image.now here
            (record { rom = self.old; ram = M.state ram.old }) (record { rom = self.new; ram = M.state ram.new }) wrote) }
        ensures failed { OnErr result (FailedBelow (Self.service.span (Self.service.setting self.old))
            (M.state ram.old) (M.state ram.new)) };

    /// What every engine keeps.
    ghost laws: { IsEngine Self.service engine };
}

impl CopyEngine for EngineRom {
    ghost use Rattle.swi_prefetch.specs.EngineLaws.{engine_of, engine_laws};

    ghost engine = { engine_of };

    fn work<M: CacheRam>(
        &mut self,
        image: &ImageView<'_>,
        ram: &mut M,
        here: u32,
    ) -> Result<bool, Failed> {
        EngineRom::work(self, image, ram, here)
    }

    ghost laws = { engine_laws };
}
