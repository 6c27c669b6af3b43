//! The check of evidence and the settling of attempts.

ghost use Rattle.serve_talk.specs.Fitting.{MayAsk};
ghost use Rattle.session_serve.specs.Answering.{Answered, Fell};
ghost use Rattle.session_serve.specs.Holding.{Keeps, held_of};
ghost use Rattle.session_serve.specs.Siding.{side_of};
ghost use Rattle.serve_talk.specs.Sides.{Side};
ghost use Rattle.session_talk.specs.declared.actions.Ask.TheVariants as asking;
ghost use Rattle.shared_accounts.specs.Desks.{desk_start};
ghost use Rattle.shared_accounts.specs.Sharing.{Sits};
ghost use Rattle.shared_accounts.specs.declared.desk.Begun.{Begun};
ghost use Rattle.std.specs.Prelude.{◌≡◌, ℕ, List, Option, IfErr, IfOk};
ghost use Rattle.turn_book.specs.Book.{began, view};
ghost use Rattle.turn_book.specs.Views.{entries_seen};

use crate::holding::Held;
use factor_chain::{Checked, Evidences, Look, check};
use lg_base::Bytes;
use lg_outside::Keeper;
use serve_talk::Ending;
use server_outside::{Clock, Gate};
use session_talk::Input;
use shared_accounts::{Seat, Settled, SharedAccounts};
use std::sync::Wait;

/// Evidence is checked on a look, behind the gate.
pub fn check_evidence<G: Gate>(
    gate: &G,
    id: u32,
    held: &mut Held,
    look: Look,
    evidences: Evidences,
) -> Input
    ensures { (begun : Begun) (x : Side) → Keeps begun x.seen.entries (held_of held.old) →
        Answered begun (asking.Check look evidences) held.old x result held.new x }
{
    gate.checking(id);
    Input::Checked(check(look, evidences))
}

/// An attempt is settled by what was checked.
pub fn settle<K: Keeper + Drop, C: Clock, R: Wait>(
    rt: &R,
    accounts: &SharedAccounts<K>,
    seat: &mut Seat<K>,
    clock: &mut C,
    held: &mut Held,
    checked: Checked,
    flags: u32,
) -> Result<Input, Ending>
    requires own { Sits accounts.now seat.old }
    requires may { MayAsk (held_of held.old) (asking.Settle checked flags) }
    requires keeps { Keeps (began desk_start accounts.now.book) (entries_seen (view seat.old)) (held_of held.old) }
    ensures own { Sits accounts.now seat.new }
    ensures number { (view seat.new).carried ≡ (view seat.old).carried }
    ensures answered { (draws : Option (List (List ℕ))) →
        IfOk result (λ given. Answered (began desk_start accounts.now.book) (asking.Settle checked flags) held.old (side_of (began desk_start accounts.now.book) (view seat.old) draws (C.given clock.old)) given held.new (side_of (began desk_start accounts.now.book) (view seat.new) draws (C.given clock.new))) }
    ensures fell { (draws : Option (List (List ℕ))) →
        IfErr result (Fell (asking.Settle checked flags) (side_of (began desk_start accounts.now.book) (view seat.old) draws (C.given clock.old)) (side_of (began desk_start accounts.now.book) (view seat.new) draws (C.given clock.new))) }
    ensures made { C.made_with clock.new ≡ C.made_with clock.old }
{
    let ticket = held.take_ticket();
    let reading = clock.now();
    match accounts.settle(rt, seat, ticket, checked, flags, reading) {
        Settled::Done(reply) => {
            held.settled(reply);
            Ok(Input::Settled(reply))
        }
        Settled::Stale(late, evidences) => {
            held.was_late(late);
            Ok(Input::Stale(evidences))
        }
        Settled::BookEnd => Err(Ending::BookEnd),
    }
}

/// An attempt is settled whose evidence is checked in the same turn.
pub fn settle_locked<K: Keeper + Drop, C: Clock, R: Wait>(
    rt: &R,
    accounts: &SharedAccounts<K>,
    seat: &mut Seat<K>,
    clock: &mut C,
    held: &mut Held,
    user: Bytes,
    evidences: Evidences,
    flags: u32,
) -> Result<Input, Ending>
    requires own { Sits accounts.now seat.old }
    requires may { MayAsk (held_of held.old) (asking.SettleLocked user evidences flags) }
    requires keeps { Keeps (began desk_start accounts.now.book) (entries_seen (view seat.old)) (held_of held.old) }
    ensures own { Sits accounts.now seat.new }
    ensures number { (view seat.new).carried ≡ (view seat.old).carried }
    ensures answered { (draws : Option (List (List ℕ))) →
        IfOk result (λ given. Answered (began desk_start accounts.now.book) (asking.SettleLocked user evidences flags) held.old (side_of (began desk_start accounts.now.book) (view seat.old) draws (C.given clock.old)) given held.new (side_of (began desk_start accounts.now.book) (view seat.new) draws (C.given clock.new))) }
    ensures fell { (draws : Option (List (List ℕ))) →
        IfErr result (Fell (asking.SettleLocked user evidences flags) (side_of (began desk_start accounts.now.book) (view seat.old) draws (C.given clock.old)) (side_of (began desk_start accounts.now.book) (view seat.new) draws (C.given clock.new))) }
    ensures made { C.made_with clock.new ≡ C.made_with clock.old }
{
    let late = held.take_late();
    let reading = clock.now();
    match accounts.settle_locked(rt, seat, late, user.as_slice(), evidences, flags, reading) {
        Settled::Done(reply) => {
            held.settled(reply);
            Ok(Input::Settled(reply))
        }
        Settled::Stale(_, _) => unreachable!(),
        Settled::BookEnd => Err(Ending::BookEnd),
    }
}
