//! How the execution of an account statement goes on with the answer to what was asked.

ghost use Rattle.session_engine.specs.Standing.{Stands, stage_talk};
ghost use Rattle.session_talk.specs.Turns.{IsAsked, heard};
ghost use Rattle.session_talk.specs.declared.inputs.Input.TheVariants as input;
ghost use Rattle.session_engine.specs.declared.stages.Stage.TheVariants as stage;
ghost use Rattle.std.specs.Prelude.{◌≡◌, IfOk};

use crate::stages::Stage;
use crate::statements::{commit, finish_statement, go_on_late, prepare_on, salt_on};
use crate::steps::Step;
use account_history::Prepared;
use factor_chain::Look;
use ghost_value::GhostValue;
use lg_base::Memory;
use session_talk::{Input, OpenSession};
use std::alloc::Global;
use stmt_rules::Statement;

/// The account was looked at.
#[tactic(auto, unfolding(crate::specs::Standing::stage_talk, session_talk::specs::Turns::heard, session_talk::specs::Talk::on_look))]
fn on_looking(
    alloc: Global,
    opened: OpenSession,
    statement: Statement,
    input: Input,
) -> Result<Step, Memory>
    ensures { IfOk result (λ step. Stands step (heard (stage_talk opened (stage.Looking statement)) input)) }
{
    match input {
        Input::Looked(look) => salt_on(alloc, opened, look, statement),
        _ => Err(Memory),
    }
}

/// A salt was drawn.
#[tactic(auto, unfolding(crate::specs::Standing::stage_talk, session_talk::specs::Turns::heard, session_talk::specs::Talk::on_drawn))]
fn on_salting(
    alloc: Global,
    opened: OpenSession,
    look: Look,
    statement: Statement,
    input: Input,
) -> Result<Step, Memory>
    ensures { IfOk result (λ step. Stands step (heard (stage_talk opened (stage.Salting look statement)) input)) }
{
    match input {
        Input::Drawn(salt) => prepare_on(alloc, opened, false, look, statement, salt),
        _ => Err(Memory),
    }
}

/// The statement was prepared.
fn on_preparing(
    alloc: Global,
    opened: OpenSession,
    again: bool,
    look: GhostValue<Look>,
    statement: GhostValue<Statement>,
    salt: [u8; 20],
    input: Input,
) -> Result<Step, Memory>
    requires { IsAsked (stage_talk opened (stage.Preparing again look statement salt)) input }
    ensures { IfOk result (λ step. Stands step (heard (stage_talk opened (stage.Preparing again look statement salt)) input)) }
{
    match input {
        Input::Prepared(prepared) => commit(alloc, opened, again, salt, prepared),
        _ => Err(Memory),
    }
}

/// The statement was executed, or it wasn't.
#[tactic(auto, unfolding(crate::specs::Standing::stage_talk, session_talk::specs::Turns::heard, session_talk::specs::Talk::on_ran, session_talk::specs::Turns::IsAsked))]
fn on_committing(
    alloc: Global,
    opened: OpenSession,
    again: bool,
    salt: [u8; 20],
    prepared: GhostValue<Prepared>,
    input: Input,
) -> Result<Step, Memory>
    requires { IsAsked (stage_talk opened (stage.Committing again salt prepared)) input }
    ensures { IfOk result (λ step. Stands step (heard (stage_talk opened (stage.Committing again salt prepared)) input)) }
{
    match input {
        Input::StaleStatement(statement) => go_on_late(alloc, opened, again, statement, salt),
        Input::Ran(reply) => finish_statement(alloc, opened, reply),
        _ => Err(Memory),
    }
}

/// The account was looked at again.
#[tactic(auto, unfolding(crate::specs::Standing::stage_talk, session_talk::specs::Turns::heard, session_talk::specs::Talk::on_look))]
fn on_renewing(
    alloc: Global,
    opened: OpenSession,
    statement: Statement,
    salt: [u8; 20],
    input: Input,
) -> Result<Step, Memory>
    ensures { IfOk result (λ step. Stands step (heard (stage_talk opened (stage.Renewing statement salt)) input)) }
{
    match input {
        Input::Looked(look) => prepare_on(alloc, opened, true, look, statement, salt),
        _ => Err(Memory),
    }
}

/// The statement was executed in one step with its preparing.
#[tactic(auto, unfolding(crate::specs::Standing::stage_talk, session_talk::specs::Turns::heard, session_talk::specs::Talk::on_ran_locked))]
fn on_locking(
    alloc: Global,
    opened: OpenSession,
    statement: GhostValue<Statement>,
    salt: [u8; 20],
    input: Input,
) -> Result<Step, Memory>
    ensures { IfOk result (λ step. Stands step (heard (stage_talk opened (stage.Locking statement salt)) input)) }
{
    match input {
        Input::Ran(reply) => finish_statement(alloc, opened, reply),
        _ => Err(Memory),
    }
}

/// The statement that had nothing to prepare was executed.
#[tactic(auto, unfolding(crate::specs::Standing::stage_talk, session_talk::specs::Turns::heard, session_talk::specs::Talk::on_ran_locked))]
fn on_plain(
    alloc: Global,
    opened: OpenSession,
    statement: GhostValue<Statement>,
    input: Input,
) -> Result<Step, Memory>
    ensures { IfOk result (λ step. Stands step (heard (stage_talk opened (stage.Plain statement)) input)) }
{
    match input {
        Input::Ran(reply) => finish_statement(alloc, opened, reply),
        _ => Err(Memory),
    }
}

/// Goes on from a stage with the answer to what was asked.
pub fn go_on_from(
    alloc: Global,
    opened: OpenSession,
    stage: Stage,
    input: Input,
) -> Result<Step, Memory>
    requires { IsAsked (stage_talk opened stage) input }
    ensures { IfOk result (λ step. Stands step (heard (stage_talk opened stage) input)) }
{
    match stage {
        Stage::Looking { statement } => on_looking(alloc, opened, statement, input),
        Stage::Salting { look, statement } => on_salting(alloc, opened, look, statement, input),
        Stage::Preparing {
            again,
            look,
            statement,
            salt,
        } => on_preparing(alloc, opened, again, look, statement, salt, input),
        Stage::Committing {
            again,
            salt,
            prepared,
        } => on_committing(alloc, opened, again, salt, prepared, input),
        Stage::Renewing { statement, salt } => on_renewing(alloc, opened, statement, salt, input),
        Stage::Locking { statement, salt } => on_locking(alloc, opened, statement, salt, input),
        Stage::Plain { statement } => on_plain(alloc, opened, statement, input),
    }
}
