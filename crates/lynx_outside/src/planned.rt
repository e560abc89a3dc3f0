// The calls that a test wants to fail.
ghost use Rattle.std.specs.Prelude.{◌≡◌};
ghost use Rattle.lynx_outside.specs.Planned.{Plan, is_due, passed, failed};

use crate::faults::raised;
use std::marker::Model;

// How many calls came, the numbers from 1 of those that are to fail, and how many failed.
#[derive(Drop)]
pub struct PlannedFaults {
    calls: u64,
    failing: Vec<u32>,
    faults: u64,
}

impl Model for PlannedFaults {
    ghost Value = { Plan };

    ghost view = { λ a. record { calls = a.calls; failing = a.failing.items; faults = a.faults } };
}

impl PlannedFaults {
    pub fn of(failing: Vec<u32>) -> PlannedFaults
        ensures { result ≡ record { calls = 0; failing = failing.items; faults = 0 } }
    {
        PlannedFaults {
            calls: 0,
            failing,
            faults: 0,
        }
    }

    // Whether the next call is to fail.
    pub fn is_due(&self) -> bool
        ensures { result ≡ is_due self.now }
    {
        let number = raised(self.calls);
        self.failing.iter().any(|n| u64::from(*n) == number)
    }

    // Counts a call that did not fail.
    pub fn pass(&mut self)
        ensures { self.new ≡ passed self.old }
    {
        self.calls = raised(self.calls);
    }

    // Counts a call that failed.
    pub fn fail(&mut self)
        ensures { self.new ≡ failed self.old }
    {
        self.calls = raised(self.calls);
        self.faults = raised(self.faults);
    }
}
