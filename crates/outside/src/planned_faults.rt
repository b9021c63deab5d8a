//! Faults that a test plans.

ghost use Rattle.std.specs.Prelude.{◌≡◌, ◌≤◌, ◌||◌, ◌==◌};
ghost use Rattle.std.specs.List.{list_any};
ghost use Rattle.outside.specs.FaultPlan.{new_plan, fails_next, counted};

use std::marker::Model;

/// Counts the calls of an object, and says which are to fail.
#[derive(Debug, Drop)]
pub struct PlannedFaults {
    failing: Vec<u32>,
    calls: u64,
    faults: u64,
}

impl Model for PlannedFaults {
    ghost use Rattle.outside.specs.FaultPlan.{FaultPlan};

    ghost Value = { FaultPlan };

    ghost view = { λ plan. record {
      failing = plan.failing.items;
      calls = plan.calls;
      faults = plan.faults;
    } };
}

impl PlannedFaults {
    /// The calls with these numbers are to fail, where the first call is 1.
    pub fn new(failing: Vec<u32>) -> PlannedFaults
        ensures { result ≡ new_plan failing.items }
    {
        PlannedFaults {
            failing,
            calls: 0,
            faults: 0,
        }
    }

    /// Counts a call, and says whether it fails: as it is planned, or since the object can't do it.
    pub fn next_fails(&mut self, unable: bool) -> bool
        ensures fails { result ≡ (fails_next self.old || unable) }
        ensures counted { self.new ≡ counted self.old result }
        ensures later { self.old.faults ≤ self.new.faults }
    {
        self.calls = self.calls.saturating_add(1);
        let fails = is_planned(&self.failing, self.calls) || unable;
        if fails {
            self.faults = self.faults.saturating_add(1);
        }
        fails
    }
}

fn is_planned(failing: &[u32], call: u64) -> bool
    ensures { result ≡ list_any (λ number. number == call) failing.now }
{
    failing.iter().any(|number| u64::from(*number) == call)
}
