//! Answering what a session asks its own side.

ghost use Rattle.serve_talk.specs.Fitting.{MayAsk};
ghost use Rattle.session_serve.specs.Answering.{Answered, Fell, IsOwn};
ghost use Rattle.session_serve.specs.Holding.{Keeps, held_of};
ghost use Rattle.session_serve.specs.Siding.{side_of};
ghost use Rattle.session_talk.specs.Doable.{CanBeDone};
ghost use Rattle.shared_accounts.specs.Desks.{desk_start};
ghost use Rattle.shared_accounts.specs.Sharing.{Sits};
ghost use Rattle.std.specs.Prelude.{◌≡◌, IfErr, IfOk};
ghost use Rattle.turn_book.specs.Book.{began, view};
ghost use Rattle.turn_book.specs.Views.{entries_seen};

use crate::holding::Held;
use crate::looking::{draw, observe, renew};
use crate::settling::{check_evidence, settle, settle_locked};
use crate::statements::{commit, commit_locked, commit_plain, prepare_on};
use lg_outside::Keeper;
use serve_talk::Ending;
use server_outside::{Clock, Draws, Gate};
use session_talk::{Ask, Input};
use shared_accounts::{Seat, SharedAccounts};
use std::alloc::Global;
use std::sync::Wait;

/// Answers an ask that isn't for a packet, or says how the session ends.
pub fn answer<K: Keeper + Drop, C: Clock, D: Draws, G: Gate, R: Wait>(
    rt: &R,
    alloc: Global,
    accounts: &SharedAccounts<K>,
    seat: &mut Seat<K>,
    clock: &mut C,
    draws: &mut D,
    gate: &G,
    id: u32,
    held: &mut Held,
    asks: Ask,
) -> Result<Input, Ending>
    requires own { Sits accounts.now seat.old }
    requires kind { IsOwn asks }
    requires may { MayAsk (held_of held.old) asks }
    requires can { CanBeDone asks }
    requires keeps { Keeps (began desk_start accounts.now.book) (entries_seen (view seat.old)) (held_of held.old) }
    ensures own { Sits accounts.now seat.new }
    ensures number { (view seat.new).carried ≡ (view seat.old).carried }
    ensures answered { IfOk result (λ given. Answered (began desk_start accounts.now.book) asks held.old (side_of (began desk_start accounts.now.book) (view seat.old) (D.given draws.old) (C.given clock.old)) given held.new (side_of (began desk_start accounts.now.book) (view seat.new) (D.given draws.new) (C.given clock.new))) }
    ensures fell { IfErr result (Fell asks (side_of (began desk_start accounts.now.book) (view seat.old) (D.given draws.old) (C.given clock.old)) (side_of (began desk_start accounts.now.book) (view seat.new) (D.given draws.new) (C.given clock.new))) }
    ensures clock { C.made_with clock.new ≡ C.made_with clock.old }
    ensures draws { D.made_with draws.new ≡ D.made_with draws.old }
{
    match asks {
        Ask::Read { .. } => unreachable!(),
        Ask::Ended(_) => unreachable!(),
        Ask::Draw => Ok(draw(draws, held)),
        Ask::Observe(who) => observe(rt, alloc, accounts, seat, held, who),
        Ask::Renew(who) => renew(rt, alloc, accounts, seat, held, who),
        Ask::Check { look, evidences } => Ok(check_evidence(gate, id, held, look, evidences)),
        Ask::Settle { checked, flags } => settle(rt, accounts, seat, clock, held, checked, flags),
        Ask::SettleLocked {
            user,
            evidences,
            flags,
        } => settle_locked(rt, accounts, seat, clock, held, user, evidences, flags),
        Ask::Prepare {
            look,
            statement,
            salt,
            actor,
        } => prepare_on(alloc, held, look, statement, salt, actor),
        Ask::Commit { prepared, actor } => {
            commit(rt, alloc, accounts, seat, clock, held, prepared, actor)
        }
        Ask::CommitLocked {
            statement,
            salt,
            actor,
        } => commit_locked(
            rt, alloc, accounts, seat, clock, held, statement, salt, actor,
        ),
        Ask::CommitPlain { statement, actor } => {
            commit_plain(rt, alloc, accounts, seat, clock, held, statement, actor)
        }
    }
}
