//! One turn of a session: what it asked for is answered, and what it sends because of that is printed.

ghost use Rattle.session_engine.specs.Standing.{next_of, talk_of_session};
ghost use Rattle.session_talk.specs.Logins as login;
ghost use Rattle.session_talk.specs.Turns.{IsAsked, IsBegun, asked, is_answer};
ghost use Rattle.session_talk.specs.declared.actions.Ask.TheVariants as ask;
ghost use Rattle.session_world.specs.Going.{spent};
ghost use Rattle.session_world.specs.Lasting.{ReadsOrSteps, Steps, StepsOn};
ghost use Rattle.session_world.specs.Leading.{Acted, IsLookAsked, Leads, Rests};
ghost use Rattle.session_world.specs.Seats.{SameSeat};
ghost use Rattle.session_world.specs.declared.calls.Calls.TheVariants as allowed;
ghost use Rattle.std.specs.Prelude.{◌≡◌, ◌≢◌, ◌≤◌, length, IfOk, IfNone, IfSome, IsTrue, OnOk};
ghost use Rattle.world_table.specs.Table.{Common};

use crate::calls::{Calls, Peer};
use crate::output::Output;
use account_history::Who;
use factor_chain::{Checked, Evidences, Look, check};
use lg_base::{Bytes, Memory};
use packet_stream::{Found, Inbox};
use session_engine::Session;
use session_talk::{Action, Ask, Input};
use std::alloc::Global;
use world_table::Table;
use world_table::printing::print_stale;

/// A session in a world: its number, its peer, and the bytes that it hasn't read.
#[derive(Drop)]
pub struct Seat {
    pub number: u32,
    pub peer: Peer,
    pub session: Session,
    pub inbox: Inbox,
}

/// Gives a session an input, and puts out what it sends because of it. What it asks for next is handed out.
pub fn act(
    session: &mut Session,
    number: u32,
    input: Input,
    out: &mut Output,
) -> Result<Ask, Memory>
    requires answers { IsTrue (is_answer (talk_of_session session.old) input) }
    requires asked { IsAsked (talk_of_session session.old) input }
    ensures acted { OnOk result (Acted number (next_of session.old) (talk_of_session session.old) input out.old out.new (next_of session.new) (talk_of_session session.new)) }
    ensures steps { OnOk result (StepsOn input (talk_of_session session.old) (talk_of_session session.new)) }
    ensures asks { IfOk result (λ asks. asks ≡ asked (next_of session.new) (talk_of_session session.new)) }
    ensures begun { OnOk result (IsBegun (talk_of_session session.new)) }
{
    let Action { first, send, ask } = session.on(input)?;
    out.put_sends(number, first, send.as_slice())?;
    Ok(ask)
}

/// The session waits for a packet: it is read, or a fault or the peer's end is told. None where there is nothing to
/// read yet.
#[tactic(auto, using(crate::proofs::Answering::read_answers, crate::proofs::Giving::free_asked, crate::proofs::Turned::packet_leads, crate::proofs::Turned::fault_leads, crate::proofs::Turned::closed_leads, crate::proofs::Turned::failed_leads, crate::proofs::Turned::waits_rests))]
pub fn read(
    alloc: Global,
    seat: &mut Seat,
    want: u8,
    out: &mut Output,
) -> Result<Option<Ask>, Memory>
    requires asked { asked (next_of seat.old.session) (talk_of_session seat.old.session) ≡ ask.Read want }
    requires begun { IsBegun (talk_of_session seat.old.session) }
    ensures same { SameSeat seat.old seat.new }
    ensures leads { (calls : Calls) (c : Common) → IfOk result (λ next. IfSome next (λ _. Leads seat.new.number seat.new.peer out.new calls c (next_of seat.new.session) (talk_of_session seat.new.session) seat.new.inbox out.old calls c (next_of seat.old.session) (talk_of_session seat.old.session) seat.old.inbox)) }
    ensures rests { (calls : Calls) (c : Common) → IfOk result (λ next. IfNone next (Rests seat.new.number seat.new.peer out.new c (next_of seat.new.session) (talk_of_session seat.new.session) seat.new.inbox out.old calls c (next_of seat.old.session) (talk_of_session seat.old.session) seat.old.inbox)) }
    ensures shorter { length seat.new.inbox.bytes ≤ length seat.old.inbox.bytes }
    ensures steps { IfOk result (λ next. IfSome next (λ _. ReadsOrSteps seat.old.inbox (talk_of_session seat.old.session) seat.new.inbox (talk_of_session seat.new.session))) }
    ensures unchanged { IfOk result (λ next. IfNone next (seat.new.session ≡ seat.old.session)) }
    ensures asks { IfOk result (λ next. IfSome next (λ asks. asks ≡ asked (next_of seat.new.session) (talk_of_session seat.new.session))) }
    ensures begun { OnOk result (IsBegun (talk_of_session seat.new.session)) }
{
    match seat.inbox.take(alloc, want)? {
        Found::Packet(packet) => Ok(Some(act(
            &mut seat.session,
            seat.number,
            Input::Packet(packet),
            out,
        )?)),
        Found::Fault(fault) => Ok(Some(act(
            &mut seat.session,
            seat.number,
            Input::Frame(fault),
            out,
        )?)),
        Found::Nothing => match seat.peer {
            Peer::Open => Ok(None),
            Peer::Closed => {
                let cut = !seat.inbox.is_empty();
                Ok(Some(act(&mut seat.session, seat.number, Input::End { cut }, out)?))
            }
            Peer::Failed => Ok(Some(act(&mut seat.session, seat.number, Input::LinkFailed, out)?)),
        },
    }
}

/// A new session begins with a nonce that is drawn, and sends its greeting.
#[tactic(auto, using(crate::proofs::Answering::start_answers, crate::proofs::Giving::free_asked, crate::proofs::Turned::begin_leads))]
pub fn begin(seat: &mut Seat, table: &mut Table, out: &mut Output) -> Result<Ask, Memory>
    requires { talk_of_session seat.old.session ≡ login.session seat.old.number }
    ensures same { SameSeat seat.old seat.new }
    ensures inbox { seat.new.inbox ≡ seat.old.inbox }
    ensures leads { (calls : Calls) → OnOk result (Leads seat.new.number seat.new.peer out.new calls table.new (next_of seat.new.session) (talk_of_session seat.new.session) seat.new.inbox out.old calls table.old (next_of seat.old.session) (talk_of_session seat.old.session) seat.old.inbox) }
    ensures asks { IfOk result (λ asks. asks ≡ asked (next_of seat.new.session) (talk_of_session seat.new.session)) }
    ensures begun { OnOk result (IsBegun (talk_of_session seat.new.session)) }
{
    let nonce = table.draw()?;
    act(&mut seat.session, seat.number, Input::Start { nonce }, out)
}

/// The session waits for a nonce, which is drawn.
#[tactic(auto, using(crate::proofs::Answering::draw_answers, crate::proofs::Giving::free_asked))]
pub fn draw(seat: &mut Seat, table: &mut Table, out: &mut Output) -> Result<Ask, Memory>
    requires asked { asked (next_of seat.old.session) (talk_of_session seat.old.session) ≡ ask.Draw }
    requires begun { IsBegun (talk_of_session seat.old.session) }
    ensures same { SameSeat seat.old seat.new }
    ensures inbox { seat.new.inbox ≡ seat.old.inbox }
    ensures leads { (calls : Calls) → OnOk result (Leads seat.new.number seat.new.peer out.new calls table.new (next_of seat.new.session) (talk_of_session seat.new.session) seat.new.inbox out.old calls table.old (next_of seat.old.session) (talk_of_session seat.old.session) seat.old.inbox) }
    ensures steps { OnOk result (Steps (talk_of_session seat.old.session) (talk_of_session seat.new.session)) }
    ensures asks { IfOk result (λ asks. asks ≡ asked (next_of seat.new.session) (talk_of_session seat.new.session)) }
    ensures begun { OnOk result (IsBegun (talk_of_session seat.new.session)) }
{
    let nonce = table.draw()?;
    act(&mut seat.session, seat.number, Input::Drawn(nonce), out)
}

/// The session waits for the check of evidence on a look.
#[tactic(auto, using(crate::proofs::Answering::check_answers, crate::proofs::Giving::check_asked))]
pub fn check_evidence(
    seat: &mut Seat,
    look: Look,
    evidences: Evidences,
    out: &mut Output,
) -> Result<Ask, Memory>
    requires asked { asked (next_of seat.old.session) (talk_of_session seat.old.session) ≡ ask.Check look evidences }
    requires begun { IsBegun (talk_of_session seat.old.session) }
    ensures same { SameSeat seat.old seat.new }
    ensures inbox { seat.new.inbox ≡ seat.old.inbox }
    ensures leads { (calls : Calls) (c : Common) → OnOk result (Leads seat.new.number seat.new.peer out.new calls c (next_of seat.new.session) (talk_of_session seat.new.session) seat.new.inbox out.old calls c (next_of seat.old.session) (talk_of_session seat.old.session) seat.old.inbox) }
    ensures steps { OnOk result (Steps (talk_of_session seat.old.session) (talk_of_session seat.new.session)) }
    ensures asks { IfOk result (λ asks. asks ≡ asked (next_of seat.new.session) (talk_of_session seat.new.session)) }
    ensures begun { OnOk result (IsBegun (talk_of_session seat.new.session)) }
{
    let checked = check(look, evidences);
    act(&mut seat.session, seat.number, Input::Checked(checked), out)
}

/// The session waits for a look at an account, for the first time or again.
#[tactic(auto, using(crate::proofs::Answering::look_answers, crate::proofs::Giving::free_asked))]
pub fn look(
    alloc: Global,
    seat: &mut Seat,
    who: &Who,
    table: &mut Table,
    out: &mut Output,
) -> Result<Ask, Memory>
    requires asked { IsLookAsked (asked (next_of seat.old.session) (talk_of_session seat.old.session)) who.now }
    requires begun { IsBegun (talk_of_session seat.old.session) }
    ensures same { SameSeat seat.old seat.new }
    ensures inbox { seat.new.inbox ≡ seat.old.inbox }
    ensures leads { (calls : Calls) → calls ≢ allowed.Nothing → OnOk result (Leads seat.new.number seat.new.peer out.new (spent calls) table.new (next_of seat.new.session) (talk_of_session seat.new.session) seat.new.inbox out.old calls table.old (next_of seat.old.session) (talk_of_session seat.old.session) seat.old.inbox) }
    ensures steps { OnOk result (Steps (talk_of_session seat.old.session) (talk_of_session seat.new.session)) }
    ensures asks { IfOk result (λ asks. asks ≡ asked (next_of seat.new.session) (talk_of_session seat.new.session)) }
    ensures begun { OnOk result (IsBegun (talk_of_session seat.new.session)) }
{
    let look = table.look(alloc, who, &mut out.lines)?;
    act(&mut seat.session, seat.number, Input::Looked(look), out)
}

/// The session waits for the settling of an attempt, by what was checked.
#[tactic(auto, using(crate::proofs::Answering::stale_answers, crate::proofs::Answering::settled_answers, crate::proofs::Giving::free_asked, crate::proofs::Giving::stale_asked))]
pub fn settle(
    seat: &mut Seat,
    checked: Checked,
    flags: u32,
    table: &mut Table,
    out: &mut Output,
) -> Result<Ask, Memory>
    requires asked { asked (next_of seat.old.session) (talk_of_session seat.old.session) ≡ ask.Settle checked flags }
    requires begun { IsBegun (talk_of_session seat.old.session) }
    ensures same { SameSeat seat.old seat.new }
    ensures inbox { seat.new.inbox ≡ seat.old.inbox }
    ensures leads { (calls : Calls) → calls ≢ allowed.Nothing → OnOk result (Leads seat.new.number seat.new.peer out.new (spent calls) table.new (next_of seat.new.session) (talk_of_session seat.new.session) seat.new.inbox out.old calls table.old (next_of seat.old.session) (talk_of_session seat.old.session) seat.old.inbox) }
    ensures steps { OnOk result (Steps (talk_of_session seat.old.session) (talk_of_session seat.new.session)) }
    ensures asks { IfOk result (λ asks. asks ≡ asked (next_of seat.new.session) (talk_of_session seat.new.session)) }
    ensures begun { OnOk result (IsBegun (talk_of_session seat.new.session)) }
{
    if table.is_stale(checked.look()) {
        print_stale(&mut out.lines, seat.number)?;
        return act(
            &mut seat.session,
            seat.number,
            Input::Stale(checked.into_evidences()),
            out,
        );
    }
    let reply = table.settle(
        checked.look().user.as_slice(),
        checked.evidences(),
        flags,
        &mut out.lines,
    )?;
    act(&mut seat.session, seat.number, Input::Settled(reply), out)
}

/// The session waits for the settling of an attempt, whose evidence is checked in the same step.
#[tactic(auto, using(crate::proofs::Answering::locked_answers, crate::proofs::Giving::free_asked))]
pub fn settle_locked(
    seat: &mut Seat,
    user: &Bytes,
    evidences: &Evidences,
    flags: u32,
    table: &mut Table,
    out: &mut Output,
) -> Result<Ask, Memory>
    requires asked { asked (next_of seat.old.session) (talk_of_session seat.old.session) ≡ ask.SettleLocked user.now evidences.now flags }
    requires begun { IsBegun (talk_of_session seat.old.session) }
    ensures same { SameSeat seat.old seat.new }
    ensures inbox { seat.new.inbox ≡ seat.old.inbox }
    ensures leads { (calls : Calls) → calls ≢ allowed.Nothing → OnOk result (Leads seat.new.number seat.new.peer out.new (spent calls) table.new (next_of seat.new.session) (talk_of_session seat.new.session) seat.new.inbox out.old calls table.old (next_of seat.old.session) (talk_of_session seat.old.session) seat.old.inbox) }
    ensures steps { OnOk result (Steps (talk_of_session seat.old.session) (talk_of_session seat.new.session)) }
    ensures asks { IfOk result (λ asks. asks ≡ asked (next_of seat.new.session) (talk_of_session seat.new.session)) }
    ensures begun { OnOk result (IsBegun (talk_of_session seat.new.session)) }
{
    let reply = table.settle(user.as_slice(), evidences, flags, &mut out.lines)?;
    act(&mut seat.session, seat.number, Input::Settled(reply), out)
}
