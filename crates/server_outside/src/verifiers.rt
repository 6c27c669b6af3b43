//! Verifiers: whether a further factor's password is right, as something outside the server decides it.

ghost use Rattle.lg_outside.specs.Faults.{Rose};
ghost use Rattle.server_outside.specs.Verdicts.{Judged, StaysSound};
ghost use Rattle.server_outside.specs.declared.verifiers.Verdict.{Verdict};
ghost use Rattle.std.specs.Prelude.{◌≡◌, ℕ, ◌≤◌, Bool, List, Option, OnErr, is_ok};

use lg_base::Bytes;
use lg_outside::Failed;

/// A password that is right for a user at the factor with a label.
#[derive(Debug, Drop)]
pub struct Accepted {
    pub label: Bytes,
    pub user: Bytes,
    pub password: Bytes,
}

/// What a verifier answered to a label, a user and a password.
#[derive(Debug, Drop)]
pub struct Verdict {
    pub label: Bytes,
    pub user: Bytes,
    pub password: Bytes,
    pub is_right: bool,
}

/// What decides whether the password of a further factor is right.
pub trait Verifier {
    // What a verifier was made with, as its type tells it.
    ghost Made: { Type 0 };

    ghost made_with: { Self → Made };

    // The verdicts that were given, the latest last, where the verifier tells them.
    ghost given: { Self → Option (List Verdict) };

    // Whether no call of it will ever fail.
    ghost sound: { Self → Bool };

    ghost fault_count: { Self → ℕ };

    /// Whether the password is right for the user at the factor with this label. A call that fails gives no verdict.
    fn verify(&mut self, label: &[u8], user: &[u8], password: &[u8]) -> Result<bool, Failed>
        ensures made { made_with self.new ≡ made_with self.old }
        ensures given { Judged (given self.old) (given self.new) label.now user.now password.now result }
        ensures sound { StaysSound (sound self.old) (sound self.new) (fault_count self.old) (fault_count self.new) (is_ok result) }
        ensures cause { OnErr result (Rose (fault_count self.old) (fault_count self.new)) }
        ensures rising { fault_count self.old ≤ fault_count self.new };

    /// How many faults there were. It never falls.
    fn faults(&self) -> u64
        ensures { result ≡ fault_count self.now };
}
