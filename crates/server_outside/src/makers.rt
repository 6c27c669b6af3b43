//! Makers: what gives each session its verifier, its clock and its draws.

ghost use Rattle.lg_outside.specs.Faults.{Rose};
ghost use Rattle.server_outside.specs.Making.{HasGivenNone, Passes};
ghost use Rattle.std.specs.Prelude.{◌≡◌, ℕ, ◌≤◌, ◌||◌, Bool, true, List, Option, option_map, IfOk, OnErr, is_ok};

use crate::clocks::Clock;
use crate::draws::Draws;
use crate::verifiers::Verifier;
use lg_base::Memory;
use lg_outside::Failed;

/// What makes the verifiers, clocks and draws of sessions. A maker keeps the allocator that its calls take memory from.
pub trait Maker {
    type Verify: Verifier + Drop + Send;

    type Time: Clock + Drop + Send;

    type Random: Draws + Drop + Send;

    // What a maker was made with, as its type tells it.
    ghost Made: { Type 0 };

    ghost made_with: { Self → Made };

    // Which verifiers it may give for a place, which clocks, and which draws for the session with an id. These tests are
    // on what the object was made with.
    ghost may_give_verifier: { Made → Option (List ℕ) → Self.Verify → Type 0 };

    ghost may_give_clock: { Made → Self.Time → Type 0 };

    ghost may_give_draws: { Made → ℕ → Self.Random → Type 0 };

    // Whether it gives sound verifiers alone.
    ghost gives_sound: { Made → Bool };

    // Whether `seed` has once answered Ok.
    ghost seeded: { Self → Bool };

    ghost fault_count: { Self → ℕ };

    /// Takes what draws are to come from, which has to succeed once before the first draws. After `Failed` it may be
    /// called again.
    fn seed(&mut self) -> Result<(), Failed>
        ensures made { made_with self.new ≡ made_with self.old }
        ensures seeded { seeded self.new ≡ (seeded self.old || is_ok result) }
        ensures cause { OnErr result (Rose (fault_count self.old) (fault_count self.new)) }
        ensures rising { fault_count self.old ≤ fault_count self.new };

    /// A verifier that asks at the place, if there is one.
    fn verifier(&mut self, place: Option<&str>) -> Result<Self::Verify, Memory>
        ensures gives { IfOk result (Passes Self.Verify.made_with (may_give_verifier (made_with self.old) (option_map (λ path. path.now) place.entry))) }
        ensures sound { gives_sound (made_with self.old) ≡ true → IfOk result (λ made. Self.Verify.sound made ≡ true) }
        ensures none { IfOk result (λ made. HasGivenNone (Self.Verify.given made)) }
        ensures made { made_with self.new ≡ made_with self.old }
        ensures seeded { seeded self.new ≡ seeded self.old }
        ensures faults { fault_count self.new ≡ fault_count self.old };

    /// A clock.
    fn clock(&mut self) -> Result<Self::Time, Memory>
        ensures gives { IfOk result (Passes Self.Time.made_with (may_give_clock (made_with self.old))) }
        ensures none { IfOk result (λ made. HasGivenNone (Self.Time.given made)) }
        ensures made { made_with self.new ≡ made_with self.old }
        ensures seeded { seeded self.new ≡ seeded self.old }
        ensures faults { fault_count self.new ≡ fault_count self.old };

    /// The draws of the session with this id.
    fn draws(&mut self, id: u32) -> Result<Self::Random, Memory>
        requires { seeded self.old ≡ true }
        ensures gives { IfOk result (Passes Self.Random.made_with (may_give_draws (made_with self.old) id)) }
        ensures none { IfOk result (λ made. HasGivenNone (Self.Random.given made)) }
        ensures made { made_with self.new ≡ made_with self.old }
        ensures seeded { seeded self.new ≡ seeded self.old }
        ensures faults { fault_count self.new ≡ fault_count self.old };

    /// How many faults there were. It never falls.
    fn faults(&self) -> u64
        ensures { result ≡ fault_count self.now };
}
