//! A maker in memory, which gives each session the forms in memory of the same lists.

ghost use Rattle.lg_outside.specs.Faults.{Rose};
ghost use Rattle.lg_outside.specs.Plan.{after_call, fails_next};
ghost use Rattle.server_outside.specs.Making.{has_sound};
ghost use Rattle.server_outside.specs.Judges.{lists_of};
ghost use Rattle.std.specs.Prelude.{◌≡◌, ◌≤◌, ◌||◌, true, false, IfOk, OnErr, is_err, is_ok};

use crate::counted_draws::CountedDraws;
use crate::list_clock::ListClock;
use crate::list_verifier::ListVerifier;
use crate::makers::Maker;
use crate::verifiers::Accepted;
use lg_base::{Bytes, Items, Memory};
use lg_outside::{Failed, PlannedFaults};
use std::alloc::Global;
use std::marker::Model;

/// A maker that gives each session a `ListVerifier`, a `ListClock` and `CountedDraws` of the lists that it was made with.
/// Its `seed` fails at the listed calls alone.
#[derive(Drop)]
pub struct ListMaker {
    accepted: Vec<Accepted>,
    failing_checks: Vec<u64>,
    readings: Vec<u64>,
    is_seeded: bool,
    plan: PlannedFaults,
}

impl Model for ListMaker {
    ghost use Rattle.server_outside.specs.Making.{Workshop};

    ghost Value = { Workshop };

    ghost view = { λ m. record {
      supplies = record { lists = record { accepted = m.accepted.items; failing = m.failing_checks.items }; readings = m.readings.items };
      seeded = m.is_seeded;
      plan = m.plan;
    } };
}

impl ListMaker {
    /// A maker of verifiers that accept what is listed and fail at the calls with the numbers in `failing_checks`, and of
    /// clocks that give the readings. Its calls of `seed` with the numbers in `failing_seeds` fail, counted from 1. The
    /// lists' memory is the maker's from then on, and its calls take theirs from the same allocator.
    pub fn new(
        accepted: Items<Accepted>,
        failing_checks: Items<u64>,
        readings: Items<u64>,
        failing_seeds: Items<u64>,
    ) -> ListMaker
        ensures { result ≡ record {
          supplies = record { lists = record { accepted = accepted; failing = failing_checks }; readings = readings };
          seeded = false;
          plan = record { failing = failing_seeds; calls = 0; faults = 0 };
        } }
    {
        ListMaker {
            accepted: accepted.into_vec(),
            failing_checks: failing_checks.into_vec(),
            readings: readings.into_vec(),
            is_seeded: false,
            plan: PlannedFaults::new(failing_seeds),
        }
    }
}

impl Maker for ListMaker {
    type Verify = ListVerifier;

    type Time = ListClock;

    type Random = CountedDraws;

    ghost use Rattle.server_outside.specs.Making.{Supplies};

    ghost Made = { Supplies };

    ghost made_with = { λ m. m.supplies };

    // Just what the lists make is given.
    ghost may_give_verifier = { λ supplies _ verifier. lists_of verifier ≡ supplies.lists };

    ghost may_give_clock = { λ supplies clock. clock.readings ≡ supplies.readings };

    ghost may_give_draws = { λ _ _ _. Unit {0} };

    ghost gives_sound = { has_sound };

    ghost seeded = { λ m. m.seeded };

    ghost fault_count = { λ m. m.plan.faults };

    fn seed(&mut self) -> Result<(), Failed>
        ensures made { self.new.supplies ≡ self.old.supplies }
        ensures seeded { self.new.seeded ≡ (self.old.seeded || is_ok result) }
        ensures cause { OnErr result (Rose self.old.plan.faults self.new.plan.faults) }
        ensures rising { self.old.plan.faults ≤ self.new.plan.faults }

        ensures fails { is_err result ≡ fails_next self.old.plan }
        ensures plan { self.new.plan ≡ after_call self.old.plan (is_err result) }
    {
        if self.plan.next_fails(false) {
            return Err(Failed);
        }
        self.is_seeded = true;
        Ok(())
    }

    fn verifier(&mut self, _place: Option<&str>) -> Result<ListVerifier, Memory> {
        let alloc = *self.accepted.allocator();
        let accepted = copied(alloc, &self.accepted)?;
        let failing = Items::from_vec(Vec::from_slice(alloc, &self.failing_checks)?);
        Ok(ListVerifier::new(accepted, failing))
    }

    fn clock(&mut self) -> Result<ListClock, Memory> {
        let alloc = *self.readings.allocator();
        let readings = Items::from_vec(Vec::from_slice(alloc, &self.readings)?);
        Ok(ListClock::new(readings))
    }

    fn draws(&mut self, _id: u32) -> Result<CountedDraws, Memory> {
        Ok(CountedDraws::new())
    }

    fn faults(&self) -> u64 {
        self.plan.faults()
    }
}

/// A copy of what is accepted.
fn copied(alloc: Global, accepted: &[Accepted]) -> Result<Items<Accepted>, Memory>
    ensures { IfOk result (λ copy. copy ≡ accepted.now) }
{
    let mut copy = Items::new(alloc);
    for one in accepted {
        copy.push(Accepted {
            label: Bytes::copy(alloc, one.label.as_slice())?,
            user: Bytes::copy(alloc, one.user.as_slice())?,
            password: Bytes::copy(alloc, one.password.as_slice())?,
        })?;
    }
    Ok(copy)
}
