//! A clock in memory, which gives listed readings and tells them to contracts.

ghost use Rattle.server_outside.specs.Readings.{first_readings, reading};
ghost use Rattle.server_outside.specs.Telling.{Gave};
ghost use Rattle.std.specs.Prelude.{◌≡◌, ◌+◌, Some, slice_index_or};

use crate::clocks::Clock;
use ghost_value::{Denotes, GhostValue};
use lg_base::Items;
use std::marker::Model;

/// A clock that gives its list of readings and then its last one again, or 0 where the list is empty. How many
/// readings it has given is kept for contracts alone.
#[derive(Drop)]
pub struct ListClock {
    readings: Items<u64>,
    place: usize,
    taken: GhostValue<u64>,
}

impl Model for ListClock {
    ghost use Rattle.server_outside.specs.Readings.{Timetable};
    ghost use Rattle.std.specs.Prelude.{◌≡◌, ◌-◌, length, min};

    ghost Value = { Timetable };

    ghost view = { λ c. record { readings = c.readings; taken = c.taken.value } };

    ghost invariant = { λ c. c.place ≡ min c.taken.value (length c.readings - 1) };
}

impl ListClock {
    /// A clock of these readings, of which none was given.
    pub fn new(readings: Items<u64>) -> ListClock
        ensures { result ≡ record { readings = readings; taken = 0 } }
    {
        ListClock {
            readings,
            place: 0,
            taken: GhostValue::of(&NoReading),
        }
    }
}

impl Clock for ListClock {
    ghost use Rattle.std.specs.Prelude.{List, ℕ};

    ghost Made = { List ℕ };

    ghost made_with = { λ c. c.readings };

    ghost given = { λ c. Some (first_readings c.readings c.taken) };

    fn now(&mut self) -> u64
        ensures made { self.new.readings ≡ self.old.readings }
        ensures given { Gave (Some (first_readings self.old.readings self.old.taken)) (Some (first_readings self.new.readings self.new.taken)) result }

        ensures value { result ≡ reading self.old.readings self.old.taken }
        ensures after { self.new ≡ record self.old { taken = self.old.taken + 1 } }
    {
        let reading = reading_at(self.readings.as_slice(), self.place);
        if self.place + 1 < self.readings.len() {
            self.place += 1;
        }
        let taken = &self.taken;
        self.taken = GhostValue::of(&OneMore { taken });
        reading
    }
}

/// The reading at a place, 0 where there is none.
fn reading_at(readings: &[u64], place: usize) -> u64
    ensures { result ≡ slice_index_or readings.now place 0 }
{
    if place < readings.len() {
        return readings[place];
    }
    0
}

/// No reading was given.
#[derive(Drop)]
struct NoReading;

impl Denotes<u64> for NoReading {
    ghost denoted = { λ _. 0 };
}

/// One reading more was given.
#[derive(Drop)]
struct OneMore<'a> {
    taken: &'a GhostValue<u64>,
}

impl<'a> Denotes<u64> for OneMore<'a> {
    ghost denoted = { λ n. n.taken.now.value + 1 };
}
