//! A verifier in memory, which accepts what is listed, fails at listed calls and tells its verdicts to contracts.

ghost use Rattle.lg_outside.specs.Faults.{counted, Rose};
ghost use Rattle.lg_outside.specs.Plan.{after_call, fails_next};
ghost use Rattle.server_outside.specs.Judges.{lists_of, never_fails};
ghost use Rattle.server_outside.specs.Verdicts.{Judged, StaysSound, is_accepted, is_that, verdict};
ghost use Rattle.std.specs.Prelude.{◌≡◌, ◌≤◌, ◌++◌, ◌∷◌, [], Some, IfOk, OnErr, OnOk, is_err, is_ok};

use crate::verifiers::{Accepted, Verdict, Verifier};
use ghost_value::{Denotes, GhostValue};
use lg_base::{Items, Memory};
use lg_outside::{Failed, PlannedFaults};
use std::marker::Model;

/// A verifier that accepts exactly the listed labels, users and passwords, each together. It fails at the listed calls
/// alone. Its verdicts are kept for contracts alone.
#[derive(Drop)]
pub struct ListVerifier {
    accepted: Items<Accepted>,
    plan: PlannedFaults,
    given: GhostValue<Items<Verdict>>,
}

impl Model for ListVerifier {
    ghost use Rattle.server_outside.specs.Judges.{Judge};
    ghost use Rattle.server_outside.specs.Verdicts.{IsVerdictBy};
    ghost use Rattle.std.specs.List.{All};

    ghost Value = { Judge };

    ghost view = { λ v. record { accepted = v.accepted; plan = v.plan; given = v.given.value } };

    ghost invariant = { λ v. All (IsVerdictBy v.accepted) v.given.value };
}

impl ListVerifier {
    /// A verifier that accepts what is listed and has given no verdict. Its calls with the numbers in `failing` fail,
    /// counted from 1.
    pub fn new(accepted: Items<Accepted>, failing: Items<u64>) -> ListVerifier
        ensures { result ≡ record { accepted = accepted; plan = record { failing = failing; calls = 0; faults = 0 }; given = [] } }
    {
        ListVerifier {
            accepted,
            plan: PlannedFaults::new(failing),
            given: GhostValue::of(&NoVerdict),
        }
    }

    /// Lists the next call too. After `Memory` nothing is changed.
    pub fn fail_next(&mut self) -> Result<(), Memory>
        ensures ok { OnOk result (self.new ≡ record self.old { plan = record self.old.plan { failing = self.old.plan.failing ++ counted self.old.plan.calls ∷ [] } }) }
        ensures err { OnErr result (self.new ≡ self.old) }
    {
        self.plan.fail_next()
    }
}

impl Verifier for ListVerifier {
    ghost use Rattle.server_outside.specs.Judges.{Lists};

    ghost Made = { Lists };

    ghost made_with = { lists_of };

    ghost given = { λ v. Some v.given };

    ghost sound = { λ v. never_fails v.plan };

    ghost fault_count = { λ v. v.plan.faults };

    fn verify(&mut self, label: &[u8], user: &[u8], password: &[u8]) -> Result<bool, Failed>
        ensures made { lists_of self.new ≡ lists_of self.old }
        ensures given { Judged (Some self.old.given) (Some self.new.given) label.now user.now password.now result }
        ensures sound { StaysSound (never_fails self.old.plan) (never_fails self.new.plan) self.old.plan.faults self.new.plan.faults (is_ok result) }
        ensures cause { OnErr result (Rose self.old.plan.faults self.new.plan.faults) }
        ensures rising { self.old.plan.faults ≤ self.new.plan.faults }

        ensures fails { is_err result ≡ fails_next self.old.plan }
        ensures plan { self.new.plan ≡ after_call self.old.plan (is_err result) }
        ensures verdict { IfOk result (λ right. right ≡ is_accepted self.old.accepted label.now user.now password.now) }
    {
        if self.plan.next_fails(false) {
            return Err(Failed);
        }
        let is_right = is_listed(self.accepted.as_slice(), label, user, password);
        let given = &self.given;
        self.given = GhostValue::of(&VerdictNote {
            given,
            label,
            user,
            password,
            is_right,
        });
        Ok(is_right)
    }

    fn faults(&self) -> u64 {
        self.plan.faults()
    }
}

/// Whether a label, a user and a password are listed together.
fn is_listed(accepted: &[Accepted], label: &[u8], user: &[u8], password: &[u8]) -> bool
    ensures { result ≡ is_accepted accepted.now label.now user.now password.now }
{
    accepted
        .iter()
        .any(|one| is_same(one, label, user, password))
}

/// Whether these are the label, the user and the password.
fn is_same(one: &Accepted, label: &[u8], user: &[u8], password: &[u8]) -> bool
    ensures { result ≡ is_that label.now user.now password.now one.now }
{
    one.label.as_slice() == label
        && one.user.as_slice() == user
        && one.password.as_slice() == password
}

/// No verdict.
#[derive(Drop)]
struct NoVerdict;

impl Denotes<Items<Verdict>> for NoVerdict {
    ghost denoted = { λ _. [] };
}

/// One verdict more.
#[derive(Drop)]
struct VerdictNote<'a> {
    given: &'a GhostValue<Items<Verdict>>,
    label: &'a [u8],
    user: &'a [u8],
    password: &'a [u8],
    is_right: bool,
}

impl<'a> Denotes<Items<Verdict>> for VerdictNote<'a> {
    ghost denoted = { λ n. n.given.now.value ++ verdict n.label.now n.user.now n.password.now n.is_right ∷ [] };
}
