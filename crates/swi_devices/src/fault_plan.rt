ghost use Rattle.std.specs.Prelude.{◌≡◌, Contains, IsErr, IsTrue, OnErr, ◌↔◌};
ghost use Rattle.swi_outside.specs.Causes.{HasCause, counted};

use swi_outside::Failed;
/// Which calls of a device in memory fail: those whose numbers, from 1, are listed.
#[derive(Drop)]
pub struct FaultPlan {
    pub failing: Vec<u32>,
    pub calls: u64,
    pub faults: u64,
}

impl FaultPlan {
    pub fn new(failing: Vec<u32>) -> FaultPlan
        ensures { result ≡ record { failing = failing; calls = 0; faults = 0 } }
    {
        FaultPlan {
            failing,
            calls: 0,
            faults: 0,
        }
    }

    /// Counts a call, and answers whether it is listed.
    pub fn count_call(&mut self) -> bool
        ensures counted { self.new ≡ record self.old { calls = counted self.old.calls } }
        ensures listed { IsTrue result ↔ Contains self.old.failing.items (counted self.old.calls) }
    {
        self.calls = self.calls.saturating_add(1);
        is_listed(&self.failing, self.calls)
    }

    /// Counts a call, and fails where it is listed.
    pub fn try_call(&mut self) -> Result<(), Failed>
        ensures counted { self.new.calls ≡ counted self.old.calls }
        ensures listed { IsErr result ↔ Contains self.old.failing.items (counted self.old.calls) }
        ensures cause { HasCause self.old.faults self.new.faults result }
        ensures once { OnErr result (self.new.faults ≡ counted self.old.faults) }
        ensures kept { self.new.failing ≡ self.old.failing }
    {
        if self.count_call() {
            self.count_fault();
            return Err(Failed);
        }
        Ok(())
    }

    /// Counts a fault.
    pub fn count_fault(&mut self)
        ensures { self.new ≡ record self.old { faults = counted self.old.faults } }
    {
        self.faults = self.faults.saturating_add(1);
    }
}

fn is_listed(failing: &[u32], number: u64) -> bool
    ensures { IsTrue result ↔ Contains failing.now number }
{
    failing.iter().any(|n| u64::from(*n) == number)
}
