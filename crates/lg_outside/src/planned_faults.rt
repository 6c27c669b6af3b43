//! The failures of a form in memory: its calls that can fail are numbered from 1, and those listed fail.

ghost use Rattle.lg_outside.specs.Faults.{counted, Rose};
ghost use Rattle.lg_outside.specs.Plan.{fails_next, after_call};
ghost use Rattle.std.specs.Bool.{OnTrue};
ghost use Rattle.std.specs.Prelude.{◌≡◌, ◌||◌, ◌≤◌, OnOk, OnErr, ◌++◌, ◌∷◌, []};

use lg_base::{Items, Memory};
use std::marker::Model;

/// Which calls are to fail, how many were made, and how many failed.
#[derive(Debug, Drop)]
pub struct PlannedFaults {
    failing: Items<u64>,
    calls: u64,
    faults: u64,
}

impl Model for PlannedFaults {
    ghost use Rattle.lg_outside.specs.PlanOf.{Plan};

    ghost Value = { Plan };

    ghost view = { λ p. record { failing = p.failing; calls = p.calls; faults = p.faults } };
}

impl PlannedFaults {
    /// No call was made yet, and those with the listed numbers will fail.
    pub fn new(failing: Items<u64>) -> PlannedFaults
        ensures { result ≡ record { failing = failing; calls = 0; faults = 0 } }
    {
        PlannedFaults {
            failing,
            calls: 0,
            faults: 0,
        }
    }

    /// Counts one more call, and answers whether it fails: where its number is listed, or `also` says so.
    pub fn next_fails(&mut self, also: bool) -> bool
        ensures answer { result ≡ (also || fails_next self.old) }
        ensures after { self.new ≡ after_call self.old result }
        ensures cause { OnTrue result (Rose self.old.faults self.new.faults) }
        ensures rising { self.old.faults ≤ self.new.faults }
    {
        self.calls = self.calls.saturating_add(1);
        let number = self.calls;
        let fails = also || self.failing.as_slice().contains(&number);
        if fails {
            self.faults = self.faults.saturating_add(1);
        }
        fails
    }

    /// Lists the next call too.
    pub fn fail_next(&mut self) -> Result<(), Memory>
        ensures ok { OnOk result (self.new ≡ record self.old { failing = self.old.failing ++ counted self.old.calls ∷ [] }) }
        ensures err { OnErr result (self.new ≡ self.old) }
    {
        let next = self.calls.saturating_add(1);
        self.failing.push(next)
    }

    /// How many calls failed.
    pub fn faults(&self) -> u64
        ensures { result ≡ self.now.faults }
    {
        self.faults
    }
}
