//! Serving a session to its end.

ghost use Rattle.lg_outside.specs.Faults.{Rose};
ghost use Rattle.serve_talk.specs.Paths.{Leads, from};
ghost use Rattle.serve_talk.specs.Serving.{Serves};
ghost use Rattle.serve_talk.specs.Sides.{Moment};
ghost use Rattle.session_serve.specs.Holding.{Keeps, held_of};
ghost use Rattle.session_serve.specs.Siding.{side_of};
ghost use Rattle.session_serve.specs.Standing.{IsReady, point_of};
ghost use Rattle.shared_accounts.specs.Desks.{desk_start};
ghost use Rattle.shared_accounts.specs.Sharing.{Sits};
ghost use Rattle.std.specs.Prelude.{◌≡◌, ◌≤◌, ℕ, false, true};
ghost use Rattle.turn_book.specs.Book.{began, view};
ghost use Rattle.turn_book.specs.Views.{entries_seen};

use crate::holding::Held;
use crate::serving::{begin, turn};
use lg_outside::{Keeper, Link};
use link_packets::new_reader;
use packet_frame::Frames;
use serve_talk::Ending;
use server_outside::{Clock, Draws, Gate};
use session_engine::Session;
use session_talk::Ask;
use shared_accounts::{Seat, SharedAccounts};
use std::alloc::Global;
use std::sync::Wait;

/// Takes turns until the session ends.
fn serve_on<K: Keeper + Drop, L: Link, C: Clock, D: Draws, G: Gate, R: Wait>(
    rt: &R,
    alloc: Global,
    accounts: &SharedAccounts<K>,
    seat: &mut Seat<K>,
    link: &mut L,
    clock: &mut C,
    draws: &mut D,
    gate: &G,
    id: u32,
    session: &mut Session,
    frames: &mut Frames,
    held: &mut Held,
    first: Ask,
) -> Ending
    requires open { L.finished link.old ≡ false }
    requires own { Sits accounts.now seat.old }
    requires ready { IsReady session.old frames.old held.old first }
    requires keeps { Keeps (began desk_start accounts.now.book) (entries_seen (view seat.old)) (held_of held.old) }
    ensures own { Sits accounts.now seat.new }
    ensures number { (view seat.new).carried ≡ (view seat.old).carried }
    ensures serves { (n : ℕ) (x : Moment) (before : ℕ) → before ≤ L.fault_count link.old → Leads (from n x) (point_of session.old frames.old held.old (L.told link.old) (side_of (began desk_start accounts.now.book) (view seat.old) (D.given draws.old) (C.given clock.old))) →
        Serves n x (record { link = L.told link.new; side = (side_of (began desk_start accounts.now.book) (view seat.new) (D.given draws.new) (C.given clock.new)) }) (Rose before (L.fault_count link.new)) result }
    ensures stays { L.finished link.new ≡ false }
    ensures rising { L.fault_count link.old ≤ L.fault_count link.new }
    ensures clock { C.made_with clock.new ≡ C.made_with clock.old }
    ensures draws { D.made_with draws.new ≡ D.made_with draws.old }
{
    let mut asks = first;
    'turns: for _ in rt.forever() {
        match turn(
            rt, alloc, accounts, seat, link, clock, draws, gate, id, session, frames, held, asks,
        ) {
            Ok(next) => asks = next,
            Err(how) => return how,
        }
    }
    unreachable!()
}

/// Serves a session until it ends. The link isn't ended here.
fn serve<K: Keeper + Drop, L: Link, C: Clock, D: Draws, G: Gate, R: Wait>(
    rt: &R,
    alloc: Global,
    accounts: &SharedAccounts<K>,
    seat: &mut Seat<K>,
    link: &mut L,
    clock: &mut C,
    draws: &mut D,
    gate: &G,
    id: u32,
) -> Ending
    requires open { L.finished link.old ≡ false }
    requires own { Sits accounts.now seat.old }
    ensures own { Sits accounts.now seat.new }
    ensures number { (view seat.new).carried ≡ (view seat.old).carried }
    ensures serves { Serves id (record { link = L.told link.old; side = (side_of (began desk_start accounts.now.book) (view seat.old) (D.given draws.old) (C.given clock.old)) }) (record { link = L.told link.new; side = (side_of (began desk_start accounts.now.book) (view seat.new) (D.given draws.new) (C.given clock.new)) }) (Rose (L.fault_count link.old) (L.fault_count link.new)) result }
    ensures stays { L.finished link.new ≡ false }
    ensures rising { L.fault_count link.old ≤ L.fault_count link.new }
    ensures clock { C.made_with clock.new ≡ C.made_with clock.old }
    ensures draws { D.made_with draws.new ≡ D.made_with draws.old }
{
    let mut session = Session::new(alloc, id);
    let mut frames = new_reader(alloc);
    let mut held = Held::new();
    match begin(alloc, &mut session, link, draws) {
        Ok(first) => serve_on(
            rt,
            alloc,
            accounts,
            seat,
            link,
            clock,
            draws,
            gate,
            id,
            &mut session,
            &mut frames,
            &mut held,
            first,
        ),
        Err(how) => how,
    }
}

/// Serves the session with this number over the link, and ends the link.
///
/// What is written and the end are those of the session's transcript for the bytes that were read and the entries that the seat
/// added; the nonces and salts are those that were drawn, and the readings of the entries those of the clock, in order. At most
/// five turns of the book are drawn for each packet. Where the link failed, or there was no memory, a part was written of what
/// was due.
pub fn serve_session<K: Keeper + Drop, L: Link, C: Clock, D: Draws, G: Gate, R: Wait>(
    rt: &R,
    alloc: Global,
    accounts: &SharedAccounts<K>,
    seat: &mut Seat<K>,
    link: &mut L,
    clock: &mut C,
    draws: &mut D,
    gate: &G,
    id: u32,
) -> Ending
    requires open { L.finished link.old ≡ false }
    requires own { Sits accounts.now seat.old }
    ensures own { Sits accounts.now seat.new }
    ensures number { (view seat.new).carried ≡ (view seat.old).carried }
    ensures serves { Serves id (record { link = L.told link.old; side = side_of (began desk_start accounts.now.book) (view seat.old) (D.given draws.old) (C.given clock.old) }) (record { link = L.told link.new; side = side_of (began desk_start accounts.now.book) (view seat.new) (D.given draws.new) (C.given clock.new) }) (Rose (L.fault_count link.old) (L.fault_count link.new)) result }
    ensures finished { L.finished link.new ≡ true }
    ensures rising { L.fault_count link.old ≤ L.fault_count link.new }
    ensures clock { C.made_with clock.new ≡ C.made_with clock.old }
    ensures draws { D.made_with draws.new ≡ D.made_with draws.old }
{
    let how = serve(rt, alloc, accounts, seat, link, clock, draws, gate, id);
    link.finish();
    how
}
