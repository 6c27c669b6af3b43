//! Turns of a session that has an account statement executed.

ghost use Rattle.session_engine.specs.Standing.{next_of, talk_of_session};
ghost use Rattle.session_talk.specs.Turns.{IsBegun, asked};
ghost use Rattle.session_talk.specs.declared.actions.Ask.TheVariants as ask;
ghost use Rattle.session_world.specs.Going.{spent};
ghost use Rattle.session_world.specs.Lasting.{Steps};
ghost use Rattle.session_world.specs.Leading.{IsExecutionAsked, Leads};
ghost use Rattle.session_world.specs.Seats.{SameSeat};
ghost use Rattle.session_world.specs.declared.calls.Calls.{Calls};
ghost use Rattle.session_world.specs.declared.calls.Calls.TheVariants as allowed;
ghost use Rattle.std.specs.Prelude.{◌≡◌, ◌≢◌, IfOk, OnOk};
ghost use Rattle.world_table.specs.Table.{Common};

use crate::output::Output;
use crate::turns::{Seat, act};
use account_history::{Prepared, prepare};
use factor_chain::Look;
use lg_base::Memory;
use session_talk::{Ask, Input};
use std::alloc::Global;
use stmt_rules::Statement;
use world_table::Table;
use world_table::printing::print_stale;
use world_table::statements::{is_preparable, is_salt, is_written};

/// The session waits for a statement to be prepared on a look.
#[tactic(auto, using(crate::proofs::Answering::prepared_answers, crate::proofs::Giving::prepared_asked))]
pub fn prepare_on(
    alloc: Global,
    seat: &mut Seat,
    look: Look,
    statement: Statement,
    salt: [u8; 20],
    actor: u64,
    out: &mut Output,
) -> Result<Ask, Memory>
    requires asked { asked (next_of seat.old.session) (talk_of_session seat.old.session) ≡ ask.Prepare look statement salt actor }
    requires begun { IsBegun (talk_of_session seat.old.session) }
    ensures same { SameSeat seat.old seat.new }
    ensures inbox { seat.new.inbox ≡ seat.old.inbox }
    ensures leads { (calls : Calls) (c : Common) → OnOk result (Leads seat.new.number seat.new.peer out.new calls c (next_of seat.new.session) (talk_of_session seat.new.session) seat.new.inbox out.old calls c (next_of seat.old.session) (talk_of_session seat.old.session) seat.old.inbox) }
    ensures steps { OnOk result (Steps (talk_of_session seat.old.session) (talk_of_session seat.new.session)) }
    ensures asks { IfOk result (λ asks. asks ≡ asked (next_of seat.new.session) (talk_of_session seat.new.session)) }
    ensures begun { OnOk result (IsBegun (talk_of_session seat.new.session)) }
{
    // A session asks this of no other statement, and with no other salt.
    if !is_preparable(&statement) {
        return Err(Memory);
    }
    if !is_written(&statement) {
        return Err(Memory);
    }
    if !is_salt(&salt) {
        return Err(Memory);
    }
    let prepared = prepare(alloc, look, statement, &salt, actor)?;
    act(
        &mut seat.session,
        seat.number,
        Input::Prepared(prepared),
        out,
    )
}

/// The session waits for the execution of a statement that was prepared.
#[tactic(auto, using(crate::proofs::Answering::stale_statement_answers, crate::proofs::Answering::committed_answers, crate::proofs::Giving::free_asked, crate::proofs::Giving::stale_statement_asked))]
pub fn commit(
    alloc: Global,
    seat: &mut Seat,
    prepared: Prepared,
    actor: u64,
    table: &mut Table,
    out: &mut Output,
) -> Result<Ask, Memory>
    requires asked { asked (next_of seat.old.session) (talk_of_session seat.old.session) ≡ ask.Commit prepared actor }
    requires begun { IsBegun (talk_of_session seat.old.session) }
    ensures same { SameSeat seat.old seat.new }
    ensures inbox { seat.new.inbox ≡ seat.old.inbox }
    ensures leads { (calls : Calls) → calls ≢ allowed.Nothing → OnOk result (Leads seat.new.number seat.new.peer out.new (spent calls) table.new (next_of seat.new.session) (talk_of_session seat.new.session) seat.new.inbox out.old calls table.old (next_of seat.old.session) (talk_of_session seat.old.session) seat.old.inbox) }
    ensures steps { OnOk result (Steps (talk_of_session seat.old.session) (talk_of_session seat.new.session)) }
    ensures asks { IfOk result (λ asks. asks ≡ asked (next_of seat.new.session) (talk_of_session seat.new.session)) }
    ensures begun { OnOk result (IsBegun (talk_of_session seat.new.session)) }
{
    if table.is_stale(prepared.look()) {
        print_stale(&mut out.lines, seat.number)?;
        return act(
            &mut seat.session,
            seat.number,
            Input::StaleStatement(prepared.into_statement()),
            out,
        );
    }
    let reply = table.execute(
        alloc,
        prepared.statement(),
        prepared.salt(),
        actor,
        &mut out.lines,
    )?;
    act(&mut seat.session, seat.number, Input::Ran(reply), out)
}

/// The session waits for the execution of a statement that is prepared in the same step, or has nothing to prepare.
#[tactic(auto, using(crate::proofs::Answering::executed_answers, crate::proofs::Giving::free_asked))]
pub fn execute(
    alloc: Global,
    seat: &mut Seat,
    statement: &Statement,
    salt: &[u8; 20],
    actor: u64,
    table: &mut Table,
    out: &mut Output,
) -> Result<Ask, Memory>
    requires asked { IsExecutionAsked (asked (next_of seat.old.session) (talk_of_session seat.old.session)) statement.now salt.now actor }
    requires begun { IsBegun (talk_of_session seat.old.session) }
    ensures same { SameSeat seat.old seat.new }
    ensures inbox { seat.new.inbox ≡ seat.old.inbox }
    ensures leads { (calls : Calls) → calls ≢ allowed.Nothing → OnOk result (Leads seat.new.number seat.new.peer out.new (spent calls) table.new (next_of seat.new.session) (talk_of_session seat.new.session) seat.new.inbox out.old calls table.old (next_of seat.old.session) (talk_of_session seat.old.session) seat.old.inbox) }
    ensures steps { OnOk result (Steps (talk_of_session seat.old.session) (talk_of_session seat.new.session)) }
    ensures asks { IfOk result (λ asks. asks ≡ asked (next_of seat.new.session) (talk_of_session seat.new.session)) }
    ensures begun { OnOk result (IsBegun (talk_of_session seat.new.session)) }
{
    // A session asks this of no other statement, and with no other salt.
    if !is_written(statement) {
        return Err(Memory);
    }
    if !is_salt(salt) {
        return Err(Memory);
    }
    let reply = table.execute(alloc, statement, salt, actor, &mut out.lines)?;
    act(&mut seat.session, seat.number, Input::Ran(reply), out)
}
