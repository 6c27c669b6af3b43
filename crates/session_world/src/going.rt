//! How far a session goes in one event.

ghost use Rattle.session_engine.specs.Standing.{next_of, talk_of_session};
ghost use Rattle.session_talk.specs.Turns.{IsBegun, asked};
ghost use Rattle.session_world.specs.Going.{spent};
ghost use Rattle.session_world.specs.Leading.{IsCall, Rests};
ghost use Rattle.session_world.specs.Seats.{AsksOn, LeadsOn, NearsRest, SameSeat};
ghost use Rattle.session_world.specs.declared.calls.Calls.TheVariants as allowed;
ghost use Rattle.std.specs.Prelude.{◌≡◌, ◌≢◌, ◌≤◌, ◌↔◌, length, IfOk, IsTrue, OnOk};

use crate::calls::Calls;
use crate::output::Output;
use crate::statements::{commit, execute, prepare_on};
use crate::turns::{Seat, check_evidence, draw, look, read, settle, settle_locked};
use lg_base::Memory;
use session_talk::Ask;
use std::alloc::Global;
use world_table::Table;
use world_table::printing::print_end;
use world_table::statements::no_salt;

/// The most turns that a session takes until it reads a packet or rests: it asks at most eight questions between two
/// packets, and then may be told that no packet comes.
const TURNS: u32 = 9;

/// What one turn leads to.
#[derive(Drop)]
pub enum Turn {
    /// The session asks this next, and so many calls are left.
    Goes(Ask, Calls),
    /// It still asks this, and nothing more comes of the event.
    Rests(Ask),
}

fn may_call(calls: Calls) -> bool
    ensures { IsTrue result ↔ (calls ≢ allowed.Nothing) }
{
    match calls {
        Calls::Nothing => false,
        Calls::One => true,
        Calls::All => true,
    }
}

/// The calls that are left after one.
fn spend(calls: Calls) -> Calls
    ensures { result ≡ spent calls }
{
    match calls {
        Calls::Nothing => Calls::Nothing,
        Calls::One => Calls::Nothing,
        Calls::All => Calls::All,
    }
}

/// One turn: what was asked is answered, if it may be.
#[tactic(auto, using(crate::proofs::Turned::call_rests, crate::proofs::Turned::ended_rests))]
fn take_turn(
    alloc: Global,
    seat: &mut Seat,
    asks: Ask,
    calls: Calls,
    table: &mut Table,
    out: &mut Output,
) -> Result<Turn, Memory>
    requires asked { asks ≡ asked (next_of seat.old.session) (talk_of_session seat.old.session) }
    requires begun { IsBegun (talk_of_session seat.old.session) }
    ensures same { SameSeat seat.old seat.new }
    ensures shorter { length seat.new.inbox.bytes ≤ length seat.old.inbox.bytes }
    ensures leads { IfOk result (LeadsOn calls seat.old table.old out.old seat.new table.new out.new) }
    ensures nears { IfOk result (NearsRest seat.old seat.new) }
    ensures asks { IfOk result (AsksOn seat.new) }
    ensures begun { OnOk result (IsBegun (talk_of_session seat.new.session)) }
{
    match asks {
        Ask::Read { want } => match read(alloc, seat, want, out)? {
            Some(next) => Ok(Turn::Goes(next, calls)),
            None => Ok(Turn::Rests(Ask::Read { want })),
        },
        Ask::Draw => Ok(Turn::Goes(draw(seat, table, out)?, calls)),
        Ask::Check { look, evidences } => Ok(Turn::Goes(
            check_evidence(seat, look, evidences, out)?,
            calls,
        )),
        Ask::Prepare {
            look,
            statement,
            salt,
            actor,
        } => Ok(Turn::Goes(
            prepare_on(alloc, seat, look, statement, salt, actor, out)?,
            calls,
        )),
        Ask::Ended(how) => {
            print_end(&mut out.lines, seat.number, how)?;
            Ok(Turn::Rests(Ask::Ended(how)))
        }
        Ask::Observe(who) => take_call(alloc, seat, Ask::Observe(who), calls, table, out),
        Ask::Renew(who) => take_call(alloc, seat, Ask::Renew(who), calls, table, out),
        Ask::Settle { checked, flags } => take_call(
            alloc,
            seat,
            Ask::Settle { checked, flags },
            calls,
            table,
            out,
        ),
        Ask::SettleLocked {
            user,
            evidences,
            flags,
        } => take_call(
            alloc,
            seat,
            Ask::SettleLocked {
                user,
                evidences,
                flags,
            },
            calls,
            table,
            out,
        ),
        Ask::Commit { prepared, actor } => take_call(
            alloc,
            seat,
            Ask::Commit { prepared, actor },
            calls,
            table,
            out,
        ),
        Ask::CommitLocked {
            statement,
            salt,
            actor,
        } => take_call(
            alloc,
            seat,
            Ask::CommitLocked {
                statement,
                salt,
                actor,
            },
            calls,
            table,
            out,
        ),
        Ask::CommitPlain { statement, actor } => take_call(
            alloc,
            seat,
            Ask::CommitPlain { statement, actor },
            calls,
            table,
            out,
        ),
    }
}

/// One turn with the account store.
#[tactic(auto, using(crate::proofs::Turned::call_rests))]
fn take_call(
    alloc: Global,
    seat: &mut Seat,
    asks: Ask,
    calls: Calls,
    table: &mut Table,
    out: &mut Output,
) -> Result<Turn, Memory>
    requires asked { asks ≡ asked (next_of seat.old.session) (talk_of_session seat.old.session) }
    requires call { IsCall asks }
    requires begun { IsBegun (talk_of_session seat.old.session) }
    ensures same { SameSeat seat.old seat.new }
    ensures shorter { length seat.new.inbox.bytes ≤ length seat.old.inbox.bytes }
    ensures leads { IfOk result (LeadsOn calls seat.old table.old out.old seat.new table.new out.new) }
    ensures nears { IfOk result (NearsRest seat.old seat.new) }
    ensures asks { IfOk result (AsksOn seat.new) }
    ensures begun { OnOk result (IsBegun (talk_of_session seat.new.session)) }
{
    if !may_call(calls) {
        return Ok(Turn::Rests(asks));
    }
    let left = spend(calls);
    match asks {
        Ask::Observe(who) => Ok(Turn::Goes(look(alloc, seat, &who, table, out)?, left)),
        Ask::Renew(who) => Ok(Turn::Goes(look(alloc, seat, &who, table, out)?, left)),
        Ask::Settle { checked, flags } => Ok(Turn::Goes(
            settle(seat, checked, flags, table, out)?,
            left,
        )),
        Ask::SettleLocked {
            user,
            evidences,
            flags,
        } => Ok(Turn::Goes(
            settle_locked(seat, &user, &evidences, flags, table, out)?,
            left,
        )),
        Ask::Commit { prepared, actor } => Ok(Turn::Goes(
            commit(alloc, seat, prepared, actor, table, out)?,
            left,
        )),
        Ask::CommitLocked {
            statement,
            salt,
            actor,
        } => Ok(Turn::Goes(
            execute(alloc, seat, &statement, &salt, actor, table, out)?,
            left,
        )),
        Ask::CommitPlain { statement, actor } => Ok(Turn::Goes(
            execute(alloc, seat, &statement, &no_salt(), actor, table, out)?,
            left,
        )),
        other => Ok(Turn::Rests(other)),
    }
}

/// A session goes on: it reads what it can, is given draws and checks at once, and is answered as many calls as are
/// allowed. What it then asks for is handed out.
#[tactic(auto, using(crate::proofs::Bounded::session_lasts))]
pub fn go_on(
    alloc: Global,
    seat: &mut Seat,
    first: Ask,
    calls: Calls,
    table: &mut Table,
    out: &mut Output,
) -> Result<Ask, Memory>
    requires asked { first ≡ asked (next_of seat.old.session) (talk_of_session seat.old.session) }
    requires begun { IsBegun (talk_of_session seat.old.session) }
    ensures same { SameSeat seat.old seat.new }
    ensures rests { OnOk result (Rests seat.new.number seat.new.peer out.new table.new (next_of seat.new.session) (talk_of_session seat.new.session) seat.new.inbox out.old calls table.old (next_of seat.old.session) (talk_of_session seat.old.session) seat.old.inbox) }
    ensures asks { IfOk result (λ asks. asks ≡ asked (next_of seat.new.session) (talk_of_session seat.new.session)) }
    ensures begun { OnOk result (IsBegun (talk_of_session seat.new.session)) }
{
    let mut asks = first;
    let mut left = calls;
    let mut turns = TURNS;
    'turns: loop {
        let unread = seat.inbox.len();
        match take_turn(alloc, seat, asks, left, table, out)? {
            Turn::Rests(asks) => return Ok(asks),
            Turn::Goes(next, more) => {
                asks = next;
                left = more;
            }
        }
        // Only the measure needs them: they never run out.
        turns = if seat.inbox.len() < unread {
            TURNS
        } else {
            turns - 1
        };
    }
}
