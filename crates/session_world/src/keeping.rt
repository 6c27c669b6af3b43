//! What an event does to a session that is kept.

ghost use Rattle.session_engine.specs.Standing.{talk_of_session};
ghost use Rattle.session_talk.specs.Logins as login;
ghost use Rattle.session_world.specs.Going.{going};
ghost use Rattle.session_world.specs.Leading.{with_lines};
ghost use Rattle.session_world.specs.Worlds.{IsAt, Place, is_call, is_end, is_open_by, is_over, is_there, more_at, no_bytes, place_of, waits};
ghost use Rattle.session_world.specs.declared.calls.Calls.TheVariants as allowed;
ghost use Rattle.session_world.specs.declared.calls.Peer.TheVariants as peer;
ghost use Rattle.std.specs.Prelude.{◌≡◌, ℕ, IfOk, OnOk};

use crate::calls::{Calls, Peer};
use crate::going::go_on;
use crate::held::Held;
use crate::output::Output;
use crate::turns::{Seat, begin};
use lg_base::Memory;
use packet_stream::Inbox;
use session_engine::Session;
use session_talk::Ask;
use std::alloc::Global;
use world_table::Table;

/// A session goes on with what an event allows.
pub fn go(
    alloc: Global,
    held: Held,
    calls: Calls,
    table: &mut Table,
    out: &mut Output,
) -> Result<Held, Memory>
    ensures there { (number : ℕ) (place : Place) → IsAt number place held → IfOk result (IsAt number (place_of place.peer (going place.peer calls table.old place.next place.at place.unread))) }
    ensures common { (number : ℕ) (place : Place) → IsAt number place held → OnOk result (table.new ≡ (going place.peer calls table.old place.next place.at place.unread).common) }
    ensures printed { (number : ℕ) (place : Place) → IsAt number place held → OnOk result (out.new ≡ with_lines number (going place.peer calls table.old place.next place.at place.unread).lines out.old) }
{
    let Held { mut seat, asks, .. } = held;
    let asks = go_on(alloc, &mut seat, asks, calls, table, out)?;
    Ok(Held { seat, asks })
}

/// A session whose nonce is drawn and whose greeting is sent.
#[tactic(auto, using(crate::proofs::Kept::is_begun_of))]
pub fn open(alloc: Global, number: u32, table: &mut Table, out: &mut Output) -> Result<Held, Memory>
    ensures there { IfOk result (IsAt number (place_of peer.Open (going peer.Open allowed.Nothing table.old 0 (login.session number) no_bytes))) }
    ensures common { OnOk result (table.new ≡ (going peer.Open allowed.Nothing table.old 0 (login.session number) no_bytes).common) }
    ensures printed { OnOk result (out.new ≡ with_lines number (going peer.Open allowed.Nothing table.old 0 (login.session number) no_bytes).lines out.old) }
{
    let mut seat = Seat {
        number,
        peer: Peer::Open,
        session: Session::new(alloc, number),
        inbox: Inbox::new(alloc),
    };
    let asks = begin(&mut seat, table, out)?;
    go(alloc, Held { seat, asks }, Calls::Nothing, table, out)
}

/// Further bytes came to a session.
pub fn with_bytes(held: Held, bytes: &[u8]) -> Result<Held, Memory>
    ensures { (number : ℕ) (place : Place) → IsAt number place held → IfOk result (IsAt number (more_at place bytes.now)) }
{
    let Held { mut seat, asks, .. } = held;
    seat.inbox.add(bytes)?;
    Ok(Held { seat, asks })
}

/// A session whose peer stands otherwise.
pub fn with_peer(held: Held, peer: Peer) -> Held
    ensures { (number : ℕ) (place : Place) → IsAt number place held → IsAt number (record place { peer = peer }) result }
{
    let Held { mut seat, asks, .. } = held;
    seat.peer = peer;
    Held { seat, asks }
}

/// Whether something is asked, and the peer is there.
fn is_open(asks: &Ask, peer: Peer) -> bool
    ensures { result ≡ is_open_by asks.now peer }
{
    match (asks, peer) {
        (Ask::Ended(_), _) => false,
        (_, Peer::Open) => true,
        (_, Peer::Closed) => false,
        (_, Peer::Failed) => false,
    }
}

/// Whether bytes and the end still come to a session: it hasn't ended, and its peer is there.
#[tactic(auto, using(crate::proofs::Kept::peer_asked))]
pub fn is_peer_there(held: &Held) -> bool
    ensures { result ≡ is_there (talk_of_session held.now.seat.session) held.now.seat.peer }
{
    is_open(&held.asks, held.seat.peer)
}

fn is_account_call(asks: &Ask) -> bool
    ensures { result ≡ is_call asks.now }
{
    match asks {
        Ask::Read { .. } => false,
        Ask::Draw => false,
        Ask::Observe(_) => true,
        Ask::Renew(_) => true,
        Ask::Check { .. } => false,
        Ask::Settle { .. } => true,
        Ask::SettleLocked { .. } => true,
        Ask::Prepare { .. } => false,
        Ask::Commit { .. } => true,
        Ask::CommitLocked { .. } => true,
        Ask::CommitPlain { .. } => true,
        Ask::Ended(_) => false,
    }
}

/// Whether a session waits for a call of the account store.
#[tactic(auto, using(crate::proofs::Kept::waits_asked))]
pub fn waits_for_call(held: &Held) -> bool
    ensures { result ≡ waits (talk_of_session held.now.seat.session) }
{
    is_account_call(&held.asks)
}

/// Whether a session asks for nothing more.
fn is_end(asks: &Ask) -> bool
    ensures { result ≡ is_end asks.now }
{
    match asks {
        Ask::Ended(_) => true,
        _ => false,
    }
}

/// Whether a session has ended.
#[tactic(auto, using(crate::proofs::Kept::over_asked))]
pub fn has_ended(held: &Held) -> bool
    ensures { result ≡ is_over (talk_of_session held.now.seat.session) }
{
    is_end(&held.asks)
}
