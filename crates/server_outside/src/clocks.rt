//! Clocks: what time it is.

ghost use Rattle.server_outside.specs.Telling.{Gave};
ghost use Rattle.std.specs.Prelude.{◌≡◌, ℕ, List, Option};

/// Where the time is read, in seconds since 1970. A clock can't fail.
pub trait Clock {
    // What a clock was made with, as its type tells it.
    ghost Made: { Type 0 };

    ghost made_with: { Self → Made };

    // The readings that were given, the latest last, where the clock tells them.
    ghost given: { Self → Option (List ℕ) };

    /// The next reading.
    fn now(&mut self) -> u64
        ensures made { made_with self.new ≡ made_with self.old }
        ensures given { Gave (given self.old) (given self.new) result };
}
