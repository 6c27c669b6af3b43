//! The clock of the system. It tells nothing of what it has given.

ghost use Rattle.server_outside.specs.Telling.{untold_readings};
ghost use Rattle.std.specs.Prelude.{◌≡◌};

use crate::clocks::Clock;
use std::time::Clock as TellsTime;

/// The system's clock. It gives 0 before 1970 and where the system gives no time.
#[derive(Drop)]
pub struct SystemClock<T> {
    time: T,
}

impl<T> SystemClock<T> {
    /// A clock that reads the time by `time`.
    pub fn new(time: T) -> SystemClock<T>
        ensures { result ≡ record { time = time } }
    {
        SystemClock { time }
    }
}

impl<T: TellsTime> Clock for SystemClock<T> {
    ghost Made = { Unit {0} };

    ghost made_with = { λ _. tt };

    ghost given = { λ _. untold_readings };

    fn now(&mut self) -> u64 {
        match self.time.since_1970() {
            Ok(time) => time.as_secs(),
            Err(_) => 0,
        }
    }
}
