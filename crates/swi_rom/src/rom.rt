ghost use Rattle.std.specs.Prelude.{◌≡◌, ◌+◌, ◌-◌, ◌^◌, ◌<◌, ◌≤◌, ℕ, min, Option, IfSome, None, Ok};
ghost use Rattle.swi_image.specs.Place.{length_at};
ghost use Rattle.swi_rom.specs.Record.{direct, indirect, Placed, written};
ghost use Rattle.swi_rom.specs.Coherent.{ExitAt, TargetAt, resident_of};
ghost use Rattle.swi_rom.specs.Service.{ServiceOf, IsService};
ghost use Rattle.swi_rom.specs.Served.{Served, OnServed, SameFrom, Keeps};

use swi_image::ImageView;
use swi_outside::CacheRam;

/// What a service has done since it was made.
#[derive(Clone, Copy, Debug, PartialEq, Eq)]
pub struct Counts {
    /// Transfers that were served. The boot is none.
    pub services: u64,
    /// Blocks that were copied into the ram, that of the boot included.
    pub misses: u64,
    /// Blocks that made room for another.
    pub evictions: u64,
    /// Exits that became jumps to their target's place.
    pub links: u64,
    /// Links that became exits again, since their target's block was evicted.
    pub unlinks: u64,
    /// Words that the misses copied.
    pub copied: u64,
}

impl Counts {
    /// The counts of a service that has done nothing.
    pub const NONE: Counts = Counts {
        services: 0,
        misses: 0,
        evictions: 0,
        links: 0,
        unlinks: 0,
        copied: 0,
    };

    /// How many words the service has written: those of the blocks that it copied, a link's jump, and the exit that takes a
    /// link's place again. It stops at 2^64 - 1.
    pub fn writes(&self) -> u64
        ensures { result ≡ min (written self.now) (2 ^ 64 - 1) }
    {
        self.copied
            .saturating_add(self.links)
            .saturating_add(self.unlinks)
    }
}

/// Why a service gives no index.
#[derive(Clone, Copy, Debug, PartialEq, Eq)]
pub enum RomStop {
    /// The target is no text address; nothing has changed.
    Outside,
    /// The ram failed. Only its words outside the service's are known, and no further call is allowed. What the service keeps is
    /// not claimed: counts, queue and links may have moved before the call of the ram that failed.
    RamFault,
}

/// A cache service: it keeps blocks of an image in a ram, on demand.
pub trait CacheRom: Drop {
    /// What it keeps, the policy by which that goes on, when it is sound, and what it shows.
    ghost service: { ServiceOf Self };

    /// Serves a jump to an address: the index in the ram of the target's first word, whose block is copied
    /// there if it isn't placed. While nothing is placed this is the boot. `Outside` comes exactly where no
    /// text word stands at the address. The words from the extent on are as before. The service is sound for the image
    /// and the ram, and has counted fewer than 2^50 services; so for `revisit`, `visit` and `cross`. Afterwards it serves
    /// each other program's image as before.
    fn enter<M: CacheRam>(
        &mut self,
        image: &ImageView<'_>,
        ram: &mut M,
        target: u32,
    ) -> Result<u32, RomStop>
        requires sound { service.sound self.old image.now (M.state ram.old).words }
        requires services { (service.kept self.old).counts.services < 2 ^ 50 }
        ensures served { Served image.now (service.span (service.setting self.old)) target (service.kept self.old)
            (service.policy (service.setting self.old) (service.kept self.old) image.now (indirect target)) (service.kept self.new)
            (M.state ram.old) (M.state ram.new) result }
        ensures setting { service.setting self.new ≡ service.setting self.old }
        ensures unused { OnServed result (SameFrom (service.extent (service.setting self.old) (service.kept self.new))
            (M.state ram.old).words (M.state ram.new).words) }
        ensures stays { OnServed result (service.sound self.new image.now (M.state ram.new).words) }
        ensures keeps { OnServed result (Keeps service image.now self.old self.new
            (M.state ram.old).words (M.state ram.new).words) };

    /// Serves a jump to an address whose block is placed, as `enter` does: the ram, which is read for the contract
    /// alone, is not asked. None comes exactly where no placed block has the address; nothing has changed then,
    /// and `enter` is to be asked.
    fn revisit<M: CacheRam>(&mut self, image: &ImageView<'_>, ram: &M, target: u32) -> Option<u32>
        requires sound { service.sound self.old image.now (M.state ram.now).words }
        requires services { (service.kept self.old).counts.services < 2 ^ 50 }
        ensures served { IfSome result (λ i. Served image.now (service.span (service.setting self.old)) target (service.kept self.old)
            (service.policy (service.setting self.old) (service.kept self.old) image.now (indirect target)) (service.kept self.new)
            (M.state ram.now) (M.state ram.now) (Ok i)) }
        ensures setting { service.setting self.new ≡ service.setting self.old }
        ensures stays { service.sound self.new image.now (M.state ram.now).words }
        ensures keeps { Keeps service image.now self.old self.new (M.state ram.now).words (M.state ram.now).words }
        ensures same { result ≡ None → self.new ≡ self.old }
        ensures placed { IfSome result (λ i. TargetAt image.now (service.kept self.old) target i) }
        ensures absent { result ≡ None → (i : ℕ) → TargetAt image.now (service.kept self.old) target i → ⊥ }
        ensures counted { service.kept self.new ≡ record (service.kept self.old) { counts = (service.kept self.new).counts } };

    /// Counts a jump to an address of which is known at which index it stands, as `revisit` does: nothing is looked for,
    /// and image and ram are read for the contract alone.
    fn visit<M: CacheRam>(&mut self, image: &ImageView<'_>, ram: &M, target: u32, index: u32)
        requires sound { service.sound self.old image.now (M.state ram.now).words }
        requires services { (service.kept self.old).counts.services < 2 ^ 50 }
        requires stands { TargetAt image.now (service.kept self.old) target index }
        ensures served { Served image.now (service.span (service.setting self.old)) target (service.kept self.old)
            (service.policy (service.setting self.old) (service.kept self.old) image.now (indirect target)) (service.kept self.new)
            (M.state ram.now) (M.state ram.now) (Ok index) }
        ensures setting { service.setting self.new ≡ service.setting self.old }
        ensures stays { service.sound self.new image.now (M.state ram.now).words }
        ensures keeps { Keeps service image.now self.old self.new (M.state ram.now).words (M.state ram.now).words }
        ensures counted { service.kept self.new ≡ record (service.kept self.old) { counts = (service.kept self.new).counts } };

    /// Serves the direct exit at index `at`, which isn't linked, to the address in its descriptor, as `enter`
    /// does. Afterwards the exit is linked, where its block is still placed and a JAL reaches from it to the
    /// target's place.
    fn cross<M: CacheRam>(
        &mut self,
        image: &ImageView<'_>,
        ram: &mut M,
        at: u32,
        target: u32,
    ) -> Result<u32, RomStop>
        requires sound { service.sound self.old image.now (M.state ram.old).words }
        requires services { (service.kept self.old).counts.services < 2 ^ 50 }
        requires exit { ExitAt image.now (service.kept self.old) at target }
        ensures served { (b o f : ℕ) → Placed (service.kept self.old) b f → o < length_at image.now b → at ≡ f + o →
            Served image.now (service.span (service.setting self.old)) target (service.kept self.old)
            (service.policy (service.setting self.old) (service.kept self.old) image.now (direct b o target)) (service.kept self.new)
            (M.state ram.old) (M.state ram.new) result }
        ensures setting { service.setting self.new ≡ service.setting self.old }
        ensures unused { OnServed result (SameFrom (service.extent (service.setting self.old) (service.kept self.new))
            (M.state ram.old).words (M.state ram.new).words) }
        ensures stays { OnServed result (service.sound self.new image.now (M.state ram.new).words) }
        ensures keeps { OnServed result (Keeps service image.now self.old self.new
            (M.state ram.old).words (M.state ram.new).words) };

    /// The number of the ram's words that it uses, from the first one on: at most 2^21, which are 8 MiB.
    fn span(&self) -> u32
        ensures words { result ≡ service.span (service.setting self.now) }
        ensures small { result ≤ 2 ^ 21 };

    /// Block and offset of the placed word at an index; None exactly where no block is placed.
    fn at(&self, i: u32) -> Option<(u32, u32)>
        ensures { result ≡ service.shown self.now i };

    /// The k-th oldest block and its first word; None exactly from the number of placed blocks on.
    fn resident(&self, k: u32) -> Option<(u32, u32)>
        ensures { result ≡ resident_of (service.kept self.now) k };

    fn counts(&self) -> Counts
        ensures { result ≡ (service.kept self.now).counts };

    /// What every service keeps.
    ghost laws: { IsService service };
}
