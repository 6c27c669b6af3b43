//! Account statements: their preparing and their execution.

ghost use Rattle.serve_talk.specs.Fitting.{MayAsk};
ghost use Rattle.serve_talk.specs.Sides.{Side};
ghost use Rattle.session_serve.specs.Answering.{Answered, Fell};
ghost use Rattle.session_serve.specs.Holding.{Keeps, held_of};
ghost use Rattle.session_serve.specs.Siding.{side_of};
ghost use Rattle.session_talk.specs.Doable.{CanBeDone};
ghost use Rattle.session_talk.specs.declared.actions.Ask.TheVariants as asking;
ghost use Rattle.shared_accounts.specs.Desks.{desk_start};
ghost use Rattle.shared_accounts.specs.Sharing.{Sits};
ghost use Rattle.shared_accounts.specs.declared.desk.Begun.{Begun};
ghost use Rattle.std.specs.Prelude.{◌≡◌, ℕ, List, Option, IfErr, IfOk};
ghost use Rattle.turn_book.specs.Book.{began, view};
ghost use Rattle.turn_book.specs.Views.{entries_seen};

use crate::holding::Held;
use account_history::{Prepared, prepare};
use factor_chain::Look;
use lg_base::Memory;
use lg_outside::Keeper;
use serve_talk::Ending;
use server_outside::Clock;
use session_talk::{Input, SessionEnd};
use shared_accounts::{Committed, Seat, SharedAccounts};
use std::alloc::Global;
use std::sync::Wait;
use stmt_rules::Statement;

/// A statement is prepared on a look.
pub fn prepare_on(
    alloc: Global,
    held: &mut Held,
    look: Look,
    statement: Statement,
    salt: [u8; 20],
    actor: u64,
) -> Result<Input, Ending>
    requires can { CanBeDone (asking.Prepare look statement salt actor) }
    ensures answered { (begun : Begun) (x : Side) → Keeps begun x.seen.entries (held_of held.old) →
        IfOk result (λ given. Answered begun (asking.Prepare look statement salt actor) held.old x given held.new x) }
    ensures fell { (x : Side) → IfErr result (Fell (asking.Prepare look statement salt actor) x x) }
{
    match prepare(alloc, look, statement, &salt, actor) {
        Ok(prepared) => Ok(Input::Prepared(prepared)),
        Err(Memory) => Err(Ending::Told(SessionEnd::Memory)),
    }
}

/// A statement that was prepared is executed.
pub fn commit<K: Keeper + Drop, C: Clock, R: Wait>(
    rt: &R,
    alloc: Global,
    accounts: &SharedAccounts<K>,
    seat: &mut Seat<K>,
    clock: &mut C,
    held: &mut Held,
    prepared: Prepared,
    actor: u64,
) -> Result<Input, Ending>
    requires own { Sits accounts.now seat.old }
    requires may { MayAsk (held_of held.old) (asking.Commit prepared actor) }
    requires can { CanBeDone (asking.Commit prepared actor) }
    requires keeps { Keeps (began desk_start accounts.now.book) (entries_seen (view seat.old)) (held_of held.old) }
    ensures own { Sits accounts.now seat.new }
    ensures number { (view seat.new).carried ≡ (view seat.old).carried }
    ensures answered { (draws : Option (List (List ℕ))) →
        IfOk result (λ given. Answered (began desk_start accounts.now.book) (asking.Commit prepared actor) held.old (side_of (began desk_start accounts.now.book) (view seat.old) draws (C.given clock.old)) given held.new (side_of (began desk_start accounts.now.book) (view seat.new) draws (C.given clock.new))) }
    ensures fell { (draws : Option (List (List ℕ))) →
        IfErr result (Fell (asking.Commit prepared actor) (side_of (began desk_start accounts.now.book) (view seat.old) draws (C.given clock.old)) (side_of (began desk_start accounts.now.book) (view seat.new) draws (C.given clock.new))) }
    ensures made { C.made_with clock.new ≡ C.made_with clock.old }
{
    let ticket = held.take_ticket();
    let reading = clock.now();
    match accounts.commit(rt, alloc, seat, ticket, prepared, actor, reading) {
        Committed::Done(reply) => Ok(Input::Ran(reply)),
        Committed::Stale(late, statement) => {
            held.was_late(late);
            Ok(Input::StaleStatement(statement))
        }
        Committed::Memory => Err(Ending::Told(SessionEnd::Memory)),
        Committed::BookEnd => Err(Ending::BookEnd),
    }
}

/// A statement is prepared and executed in one turn.
pub fn commit_locked<K: Keeper + Drop, C: Clock, R: Wait>(
    rt: &R,
    alloc: Global,
    accounts: &SharedAccounts<K>,
    seat: &mut Seat<K>,
    clock: &mut C,
    held: &mut Held,
    statement: Statement,
    salt: [u8; 20],
    actor: u64,
) -> Result<Input, Ending>
    requires own { Sits accounts.now seat.old }
    requires may { MayAsk (held_of held.old) (asking.CommitLocked statement salt actor) }
    requires can { CanBeDone (asking.CommitLocked statement salt actor) }
    requires keeps { Keeps (began desk_start accounts.now.book) (entries_seen (view seat.old)) (held_of held.old) }
    ensures own { Sits accounts.now seat.new }
    ensures number { (view seat.new).carried ≡ (view seat.old).carried }
    ensures answered { (draws : Option (List (List ℕ))) →
        IfOk result (λ given. Answered (began desk_start accounts.now.book) (asking.CommitLocked statement salt actor) held.old (side_of (began desk_start accounts.now.book) (view seat.old) draws (C.given clock.old)) given held.new (side_of (began desk_start accounts.now.book) (view seat.new) draws (C.given clock.new))) }
    ensures fell { (draws : Option (List (List ℕ))) →
        IfErr result (Fell (asking.CommitLocked statement salt actor) (side_of (began desk_start accounts.now.book) (view seat.old) draws (C.given clock.old)) (side_of (began desk_start accounts.now.book) (view seat.new) draws (C.given clock.new))) }
    ensures made { C.made_with clock.new ≡ C.made_with clock.old }
{
    let late = held.take_late();
    let reading = clock.now();
    match accounts.commit_locked(rt, alloc, seat, late, statement, &salt, actor, reading) {
        Committed::Done(reply) => Ok(Input::Ran(reply)),
        Committed::Stale(_, _) => unreachable!(),
        Committed::Memory => Err(Ending::Told(SessionEnd::Memory)),
        Committed::BookEnd => Err(Ending::BookEnd),
    }
}

/// A statement that has nothing to prepare is executed.
pub fn commit_plain<K: Keeper + Drop, C: Clock, R: Wait>(
    rt: &R,
    alloc: Global,
    accounts: &SharedAccounts<K>,
    seat: &mut Seat<K>,
    clock: &mut C,
    held: &mut Held,
    statement: Statement,
    actor: u64,
) -> Result<Input, Ending>
    requires own { Sits accounts.now seat.old }
    requires may { MayAsk (held_of held.old) (asking.CommitPlain statement actor) }
    requires can { CanBeDone (asking.CommitPlain statement actor) }
    requires keeps { Keeps (began desk_start accounts.now.book) (entries_seen (view seat.old)) (held_of held.old) }
    ensures own { Sits accounts.now seat.new }
    ensures number { (view seat.new).carried ≡ (view seat.old).carried }
    ensures answered { (draws : Option (List (List ℕ))) →
        IfOk result (λ given. Answered (began desk_start accounts.now.book) (asking.CommitPlain statement actor) held.old (side_of (began desk_start accounts.now.book) (view seat.old) draws (C.given clock.old)) given held.new (side_of (began desk_start accounts.now.book) (view seat.new) draws (C.given clock.new))) }
    ensures fell { (draws : Option (List (List ℕ))) →
        IfErr result (Fell (asking.CommitPlain statement actor) (side_of (began desk_start accounts.now.book) (view seat.old) draws (C.given clock.old)) (side_of (began desk_start accounts.now.book) (view seat.new) draws (C.given clock.new))) }
    ensures made { C.made_with clock.new ≡ C.made_with clock.old }
{
    held.call();
    let reading = clock.now();
    match accounts.commit_plain(rt, alloc, seat, statement, actor, reading) {
        Committed::Done(reply) => Ok(Input::Ran(reply)),
        Committed::Stale(_, _) => unreachable!(),
        Committed::Memory => Err(Ending::Told(SessionEnd::Memory)),
        Committed::BookEnd => Err(Ending::BookEnd),
    }
}
