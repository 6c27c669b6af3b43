//! Draws, and looks at accounts.

ghost use Rattle.serve_talk.specs.Fitting.{MayAsk};
ghost use Rattle.session_serve.specs.Answering.{Answered, Fell};
ghost use Rattle.session_serve.specs.Holding.{Keeps, held_of};
ghost use Rattle.session_serve.specs.Siding.{side_of};
ghost use Rattle.session_talk.specs.declared.actions.Ask.TheVariants as asking;
ghost use Rattle.shared_accounts.specs.Desks.{desk_start};
ghost use Rattle.shared_accounts.specs.Sharing.{AccountsView, Sits};
ghost use Rattle.shared_accounts.specs.declared.desk.Begun.{Begun};
ghost use Rattle.std.specs.Prelude.{◌≡◌, ℕ, List, Option, IfErr, IfOk};
ghost use Rattle.turn_book.specs.Book.{began, view};
ghost use Rattle.turn_book.specs.Views.{entries_seen};

use crate::holding::Held;
use account_history::Who;
use lg_outside::Keeper;
use serve_talk::Ending;
use server_outside::Draws;
use session_talk::{Input, SessionEnd};
use shared_accounts::{Seat, SharedAccounts};
use std::alloc::Global;
use std::sync::Wait;
use turn_book::TurnFault;

/// A fresh nonce.
pub fn draw<D: Draws>(draws: &mut D, held: &mut Held) -> Input
    ensures answered { (begun : Begun) (v : AccountsView) (clock : Option (List ℕ)) → Keeps begun (entries_seen v) (held_of held.old) →
        Answered begun asking.Draw held.old (side_of begun v (D.given draws.old) clock) result held.new (side_of begun v (D.given draws.new) clock) }
    ensures made { D.made_with draws.new ≡ D.made_with draws.old }
{
    Input::Drawn(draws.draw())
}

/// A look at an account.
pub fn observe<K: Keeper + Drop, R: Wait>(
    rt: &R,
    alloc: Global,
    accounts: &SharedAccounts<K>,
    seat: &mut Seat<K>,
    held: &mut Held,
    who: Who,
) -> Result<Input, Ending>
    requires own { Sits accounts.now seat.old }
    requires may { MayAsk (held_of held.old) (asking.Observe who) }
    requires keeps { Keeps (began desk_start accounts.now.book) (entries_seen (view seat.old)) (held_of held.old) }
    ensures own { Sits accounts.now seat.new }
    ensures number { (view seat.new).carried ≡ (view seat.old).carried }
    ensures answered { (draws : Option (List (List ℕ))) (clock : Option (List ℕ)) →
        IfOk result (λ given. Answered (began desk_start accounts.now.book) (asking.Observe who) held.old (side_of (began desk_start accounts.now.book) (view seat.old) draws clock) given held.new (side_of (began desk_start accounts.now.book) (view seat.new) draws clock)) }
    ensures fell { (draws : Option (List (List ℕ))) (clock : Option (List ℕ)) →
        IfErr result (Fell (asking.Observe who) (side_of (began desk_start accounts.now.book) (view seat.old) draws clock) (side_of (began desk_start accounts.now.book) (view seat.new) draws clock)) }
{
    held.call();
    match accounts.observe(rt, alloc, seat, &who) {
        Ok((look, ticket)) => {
            held.looked(ticket);
            Ok(Input::Looked(look))
        }
        Err(TurnFault::Memory) => Err(Ending::Told(SessionEnd::Memory)),
        Err(TurnFault::BookEnd) => Err(Ending::BookEnd),
    }
}

/// The look again, after the first stale answer.
pub fn renew<K: Keeper + Drop, R: Wait>(
    rt: &R,
    alloc: Global,
    accounts: &SharedAccounts<K>,
    seat: &mut Seat<K>,
    held: &mut Held,
    who: Who,
) -> Result<Input, Ending>
    requires own { Sits accounts.now seat.old }
    requires may { MayAsk (held_of held.old) (asking.Renew who) }
    requires keeps { Keeps (began desk_start accounts.now.book) (entries_seen (view seat.old)) (held_of held.old) }
    ensures own { Sits accounts.now seat.new }
    ensures number { (view seat.new).carried ≡ (view seat.old).carried }
    ensures answered { (draws : Option (List (List ℕ))) (clock : Option (List ℕ)) →
        IfOk result (λ given. Answered (began desk_start accounts.now.book) (asking.Renew who) held.old (side_of (began desk_start accounts.now.book) (view seat.old) draws clock) given held.new (side_of (began desk_start accounts.now.book) (view seat.new) draws clock)) }
    ensures fell { (draws : Option (List (List ℕ))) (clock : Option (List ℕ)) →
        IfErr result (Fell (asking.Renew who) (side_of (began desk_start accounts.now.book) (view seat.old) draws clock) (side_of (began desk_start accounts.now.book) (view seat.new) draws clock)) }
{
    let late = held.take_late();
    match accounts.renew(rt, alloc, seat, late, &who) {
        Ok((look, ticket)) => {
            held.looked(ticket);
            Ok(Input::Looked(look))
        }
        Err(TurnFault::Memory) => Err(Ending::Told(SessionEnd::Memory)),
        Err(TurnFault::BookEnd) => Err(Ending::BookEnd),
    }
}
