ghost use Rattle.std.specs.Prelude.{◌≡◌, ◌+◌};

use std::marker::Model;
use std::snapshot::Snapshot;

/// A number in tallies.
#[derive(Drop)]
enum Tally {
    None,
    More(Snapshot<Snapshot<Tally>>),
    Sum(Snapshot<Snapshot<Tally>>, Snapshot<Snapshot<Tally>>),
}

/// A number that contracts see alone. It takes no bytes and no time when it runs.
#[derive(Drop)]
pub struct Count {
    tally: Snapshot<Tally>,
}

impl Model for Count {
    ghost use Rattle.std.specs.Prelude.{ℕ};
    ghost use Rattle.swi_devices.specs.Counts.{number_in};

    ghost Value = { ℕ };

    ghost view = { λ c. number_in c.tally.value };
}

impl Count {
    pub fn new() -> Count
        ensures { result ≡ 0 }
    {
        Count {
            tally: Snapshot::of(&Tally::None),
        }
    }

    pub fn rise(&mut self)
        ensures { self.new ≡ self.old + 1 }
    {
        self.tally = Snapshot::of(&Tally::More(Snapshot::of(&self.tally)));
    }

    pub fn add(&mut self, more: &Count)
        ensures { self.new ≡ self.old + more.now }
    {
        self.tally = Snapshot::of(&Tally::Sum(
            Snapshot::of(&self.tally),
            Snapshot::of(&more.tally),
        ));
    }
}
