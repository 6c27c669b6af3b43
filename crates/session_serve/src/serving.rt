//! The turns of a session that is served.

ghost use Rattle.lg_outside.specs.Faults.{Rose};
ghost use Rattle.serve_talk.specs.Paths.{Anything, Halts, Turned, from, nothing_loose};
ghost use Rattle.serve_talk.specs.Sides.{Moment, Side};
ghost use Rattle.session_engine.specs.Standing.{talk_of_session};
ghost use Rattle.session_serve.specs.Holding.{Keeps, held_of};
ghost use Rattle.session_serve.specs.Siding.{side_of};
ghost use Rattle.session_serve.specs.Standing.{Begins, GoesOn, IsReady, point_of, stands_of};
ghost use Rattle.session_talk.specs.Logins as login;
ghost use Rattle.session_talk.specs.declared.actions.Ask.TheVariants as asking;
ghost use Rattle.shared_accounts.specs.Desks.{desk_start};
ghost use Rattle.shared_accounts.specs.Sharing.{AccountsView, Sits};
ghost use Rattle.shared_accounts.specs.declared.desk.Begun.{Begun};
ghost use Rattle.std.specs.Prelude.{◌≡◌, ◌≢◌, ◌≤◌, ℕ, List, Option, IfErr, IfNone, IfOk, IfSome, false, true};
ghost use Rattle.turn_book.specs.Book.{began, view};
ghost use Rattle.turn_book.specs.Views.{entries_seen};

use crate::answering::answer;
use crate::giving::give;
use crate::holding::Held;
use crate::reading::hear;
use lg_outside::{Keeper, Link};
use packet_frame::Frames;
use serve_talk::Ending;
use server_outside::{Clock, Draws, Gate};
use session_engine::Session;
use session_talk::{Ask, Input};
use shared_accounts::{Seat, SharedAccounts};
use std::alloc::Global;
use std::sync::Wait;

/// The id of the packet that is asked for, if it is one.
fn wanted(asks: &Ask) -> Option<u8>
    ensures some { IfSome result (λ want. asks.now ≡ asking.Read want) }
    ensures none { IfNone result ((want : ℕ) → asks.now ≢ asking.Read want) }
{
    match asks {
        Ask::Read { want } => Some(*want),
        _ => None,
    }
}

/// A new session is given the nonce that it begins with, and says its greeting.
pub fn begin<L: Link, D: Draws>(
    alloc: Global,
    session: &mut Session,
    link: &mut L,
    draws: &mut D,
) -> Result<Ask, Ending>
    requires open { L.finished link.old ≡ false }
    requires new { (id : ℕ) × (stands_of session.old ≡ record { next = 0; at = login.session id }) }
    ensures begins { (id : ℕ) → stands_of session.old ≡ record { next = 0; at = login.session id } → (begun : Begun) (v : AccountsView) (clock : Option (List ℕ)) →
        IfOk result (Begins begun id (record { link = L.told link.old; side = side_of begun v (D.given draws.old) clock }) session.new (L.told link.new) (side_of begun v (D.given draws.new) clock)) }
    ensures halts { (id : ℕ) → stands_of session.old ≡ record { next = 0; at = login.session id } → (begun : Begun) (v : AccountsView) (clock : Option (List ℕ)) →
        IfErr result (Halts (from id (record { link = L.told link.old; side = side_of begun v (D.given draws.old) clock })) (record { link = L.told link.new; side = side_of begun v (D.given draws.new) clock }) (Rose (L.fault_count link.old) (L.fault_count link.new))) }
    ensures stays { L.finished link.new ≡ false }
    ensures rising { L.fault_count link.old ≤ L.fault_count link.new }
    ensures made { D.made_with draws.new ≡ D.made_with draws.old }
{
    let nonce = draws.draw();
    give(alloc, session, link, Input::Start { nonce })
}

/// One turn: what is asked for is read or answered, and given to the session.
pub fn turn<K: Keeper + Drop, L: Link, C: Clock, D: Draws, G: Gate, R: Wait>(
    rt: &R,
    alloc: Global,
    accounts: &SharedAccounts<K>,
    seat: &mut Seat<K>,
    link: &mut L,
    clock: &mut C,
    draws: &mut D,
    gate: &G,
    id: u32,
    session: &mut Session,
    frames: &mut Frames,
    held: &mut Held,
    asks: Ask,
) -> Result<Ask, Ending>
    requires open { L.finished link.old ≡ false }
    requires own { Sits accounts.now seat.old }
    requires ready { IsReady session.old frames.old held.old asks }
    requires keeps { Keeps (began desk_start accounts.now.book) (entries_seen (view seat.old)) (held_of held.old) }
    ensures own { Sits accounts.now seat.new }
    ensures number { (view seat.new).carried ≡ (view seat.old).carried }
    ensures goes_on { IfOk result (GoesOn (began desk_start accounts.now.book) (point_of session.old frames.old held.old (L.told link.old) (side_of (began desk_start accounts.now.book) (view seat.old) (D.given draws.old) (C.given clock.old))) session.new frames.new held.new (L.told link.new) (side_of (began desk_start accounts.now.book) (view seat.new) (D.given draws.new) (C.given clock.new))) }
    ensures halts { IfErr result (Halts (point_of session.old frames.old held.old (L.told link.old) (side_of (began desk_start accounts.now.book) (view seat.old) (D.given draws.old) (C.given clock.old))) (record { link = L.told link.new; side = side_of (began desk_start accounts.now.book) (view seat.new) (D.given draws.new) (C.given clock.new) }) (Rose (L.fault_count link.old) (L.fault_count link.new))) }
    ensures stays { L.finished link.new ≡ false }
    ensures rising { L.fault_count link.old ≤ L.fault_count link.new }
    ensures clock { C.made_with clock.new ≡ C.made_with clock.old }
    ensures draws { D.made_with draws.new ≡ D.made_with draws.old }
{
    match wanted(&asks) {
        Some(want) => hear(alloc, session, frames, held, link, want),
        None => match answer(
            rt, alloc, accounts, seat, clock, draws, gate, id, held, asks,
        ) {
            Ok(given) => give(alloc, session, link, given),
            Err(how) => Err(how),
        },
    }
}
