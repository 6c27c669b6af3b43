//! Account statements: what a sandbox lets through, and the steps of their execution.
//!
//! MySQL 8.0 Reference Manual, "Account Management Statements" and "Server Handling of Expired Passwords".

ghost use Rattle.account_history.specs.Preparing as prepare;
ghost use Rattle.account_history.specs.Naming.{same_host};
ghost use Rattle.account_history.specs.Refusals.{auth_in, auth_of};
ghost use Rattle.account_history.specs.declared.entries.Who.TheVariants.{Account};
ghost use Rattle.interaction.specs.Talk.{Says};
ghost use Rattle.lg_base.specs.declared.errors.Code.TheVariants as code;
ghost use Rattle.session_engine.specs.Standing.{Stands, syntax_at};
ghost use Rattle.session_talk.specs.Logins.{commands, commands_left};
ghost use Rattle.session_talk.specs.Statements as stating;
ghost use Rattle.session_talk.specs.Texts as text;
ghost use Rattle.std.specs.Prelude.{◌≡◌, IfOk, false};
ghost use Rattle.wire_form.specs.Payloads.{Gives};

use crate::notes::{note_look, note_prepared, note_statement};
use crate::payloads::{error_payload, ok_payload};
use crate::phases::Phase;
use crate::stages::Stage;
use crate::steps::{Step, quiet, saying};
use account_history::{Prepared, StmtReply, Who};
use factor_chain::Look;
use lg_base::{Bytes, Code, Host, Memory, Name};
use session_talk::{Ask, OpenSession};
use std::alloc::Global;
use stmt_rules::{Auth, Change, Statement, Target};
use stmt_syntax::{SyntaxFault, read};

/// The salt of a statement without BY.
const NO_SALT: [u8; 20] = [46; 20];

/// Whether a password stands behind BY, be it empty.
fn has_password(auth: &Option<Auth>) -> bool
    ensures { result ≡ stating.has_password auth.now }
{
    match auth {
        Some(auth) => auth.password.is_some(),
        None => false,
    }
}

/// Whether a change sets a password by BY.
fn sets_password(change: &Change) -> bool
    ensures { result ≡ stating.has_password (auth_in change.now) }
{
    match change {
        Change::Nothing => false,
        Change::Password(auth) => auth.password.is_some(),
        Change::Discard => false,
        Change::Add(_, _) => false,
        Change::Modify(_, _) => false,
        Change::DropFactor(_) => false,
    }
}

/// Whether a salt is to be drawn: a password stands behind BY.
fn wants_salt(statement: &Statement) -> bool
    ensures { result ≡ stating.has_password (auth_of statement.now) }
{
    match statement {
        Statement::Create { auth, .. } => has_password(auth),
        Statement::Alter { change, .. } => sets_password(change),
        Statement::Drop { .. } => false,
        Statement::Flush => false,
        Statement::Grant { .. } => false,
        Statement::Revoke { .. } => false,
    }
}

/// Whether a statement is prepared before it is executed.
fn is_preparable(statement: &Statement) -> bool
    ensures { result ≡ prepare.is_preparable statement.now }
{
    match statement {
        Statement::Create { .. } => true,
        Statement::Alter { .. } => true,
        Statement::Drop { .. } => false,
        Statement::Flush => false,
        Statement::Grant { .. } => false,
        Statement::Revoke { .. } => false,
    }
}

/// Whether two hosts are the same.
fn is_host(host: Host, other: Host) -> bool
    ensures { result ≡ same_host host other }
{
    match host {
        Host::Localhost => matches!(other, Host::Localhost),
        Host::Any => matches!(other, Host::Any),
    }
}

/// Whether a name is the one with the user and the host that opened the session.
fn is_name_of(opened: &OpenSession, name: &Name) -> bool
    ensures { result ≡ stating.is_name_of opened.now name.now }
{
    let is_user = name.user.as_slice() == opened.name.user.as_slice();
    let same_host = is_host(name.host, opened.name.host);
    is_user && same_host
}

/// Whether an ALTER USER is about the session's own account.
fn is_own_target(opened: &OpenSession, target: &Target) -> bool
    ensures { result ≡ stating.is_own_target opened.now target.now }
{
    match target {
        Target::Own => true,
        Target::Named(name) => is_name_of(opened, name),
    }
}

/// Whether a statement sets a new password of the session's own account.
fn sets_own_password(opened: &OpenSession, statement: &Statement) -> bool
    ensures { result ≡ stating.sets_own_password opened.now statement.now }
{
    match statement {
        Statement::Create { .. } => false,
        Statement::Alter { target, change, .. } => {
            let is_own = is_own_target(opened, target);
            is_own && sets_password(change)
        }
        Statement::Drop { .. } => false,
        Statement::Flush => false,
        Statement::Grant { .. } => false,
        Statement::Revoke { .. } => false,
    }
}

/// Whether a sandbox, if this is one, lets a statement through.
fn is_let_through(opened: &OpenSession, statement: &Statement) -> bool
    ensures { result ≡ stating.is_let_through opened.now statement.now }
{
    !opened.sandbox || sets_own_password(opened, statement)
}

/// The account of exactly a name.
fn account_of(alloc: Global, name: &Name) -> Result<Who, Memory>
    ensures { IfOk result (λ who. who ≡ Account name.now) }
{
    Ok(Who::Account(Name {
        user: Bytes::copy(alloc, name.user.as_slice())?,
        host: name.host,
    }))
}

/// Whose account a statement is about.
fn who_of(alloc: Global, actor: u64, statement: &Statement) -> Result<Who, Memory>
    ensures { IfOk result (λ who. who ≡ prepare.who_of actor statement.now) }
{
    match statement {
        Statement::Create { name, .. } => account_of(alloc, name),
        Statement::Alter { target, .. } => {
            match target {
                Target::Own => Ok(Who::Own(actor)),
                Target::Named(name) => account_of(alloc, name),
            }
        }
        Statement::Drop { name } => account_of(alloc, name),
        Statement::Flush => Ok(Who::Own(actor)),
        Statement::Grant { name, .. } => account_of(alloc, name),
        Statement::Revoke { name, .. } => account_of(alloc, name),
    }
}

/// An error is told, and the session goes on.
pub fn tell(alloc: Global, code: &Code, opened: OpenSession) -> Result<Step, Memory>
    ensures { IfOk result (λ step. Stands step (Says (text.error_payload code.now) (commands opened))) }
{
    let payload = error_payload(alloc, code)?;
    say_on(alloc, payload, opened)
}

/// The session says that all went well, and goes on.
pub fn agree(alloc: Global, opened: OpenSession) -> Result<Step, Memory>
    ensures { IfOk result (λ step. Stands step (Says text.ok_payload (commands opened))) }
{
    let payload = ok_payload(alloc)?;
    say_on(alloc, payload, opened)
}

/// A payload is sent, and the session goes on.
#[tactic(auto, unfolding(crate::specs::Standing::talk_of, session_talk::specs::Turns::question, session_talk::specs::Turns::rest, session_talk::specs::Turns::said))]
fn say_on(alloc: Global, payload: Bytes, opened: OpenSession) -> Result<Step, Memory>
    ensures { IfOk result (λ step. Stands step (Says payload (commands opened))) }
{
    saying(alloc, payload, None, Phase::Commanding { opened })
}

/// The reply to a statement is told. What was done ends a sandbox.
pub fn finish_statement(
    alloc: Global,
    opened: OpenSession,
    reply: StmtReply,
) -> Result<Step, Memory>
    ensures { IfOk result (λ step. Stands step (stating.ran (commands_left opened.left) opened reply)) }
{
    match reply {
        StmtReply::Done => {
            let later = OpenSession {
                sandbox: false,
                ..opened
            };
            agree(alloc, later)
        }
        StmtReply::Refused(code) => tell(alloc, &code, opened),
    }
}

/// A statement is to be prepared on a look.
#[tactic(auto, unfolding(crate::specs::Standing::talk_of, crate::specs::Standing::stage_talk, session_talk::specs::Turns::question, session_talk::specs::Turns::rest, session_talk::specs::Turns::said))]
pub fn prepare_on(
    alloc: Global,
    opened: OpenSession,
    again: bool,
    look: Look,
    statement: Statement,
    salt: [u8; 20],
) -> Result<Step, Memory>
    ensures { IfOk result (λ step. Stands step (stating.preparing (commands_left opened.left) again opened look statement salt)) }
{
    let actor = opened.account;
    let stage = Stage::Preparing {
        again,
        look: note_look(&look),
        statement: note_statement(&statement),
        salt,
    };
    let ask = Ask::Prepare {
        look,
        statement,
        salt,
        actor,
    };
    Ok(quiet(alloc, Some(ask), Phase::Executing { opened, stage }))
}

/// A statement that was prepared with a salt is to be executed.
#[tactic(auto, unfolding(crate::specs::Standing::talk_of, crate::specs::Standing::stage_talk, session_talk::specs::Turns::question, session_talk::specs::Turns::rest, session_talk::specs::Turns::said))]
pub fn commit(
    alloc: Global,
    opened: OpenSession,
    again: bool,
    salt: [u8; 20],
    prepared: Prepared,
) -> Result<Step, Memory>
    ensures { IfOk result (λ step. Stands step (stating.committing_or (commands_left opened.left)
        (stating.after_stale (commands_left opened.left) again opened prepared.statement salt) opened prepared)) }
{
    let actor = opened.account;
    let stage = Stage::Committing {
        again,
        salt,
        prepared: note_prepared(&prepared),
    };
    Ok(quiet(
        alloc,
        Some(Ask::Commit { prepared, actor }),
        Phase::Executing { opened, stage },
    ))
}

/// The account is to be looked at again.
#[tactic(auto, unfolding(crate::specs::Standing::talk_of, crate::specs::Standing::stage_talk, session_talk::specs::Turns::question, session_talk::specs::Turns::rest, session_talk::specs::Turns::said))]
fn look_again(
    alloc: Global,
    opened: OpenSession,
    statement: Statement,
    salt: [u8; 20],
) -> Result<Step, Memory>
    ensures { IfOk result (λ step. Stands step (stating.looking_again (commands_left opened.left) opened statement salt)) }
{
    let who = who_of(alloc, opened.account, &statement)?;
    let stage = Stage::Renewing { statement, salt };
    Ok(quiet(
        alloc,
        Some(Ask::Renew(who)),
        Phase::Executing { opened, stage },
    ))
}

/// The statement is to be executed in one step with its preparing.
#[tactic(auto, unfolding(crate::specs::Standing::talk_of, crate::specs::Standing::stage_talk, session_talk::specs::Turns::question, session_talk::specs::Turns::rest, session_talk::specs::Turns::said))]
fn commit_locked(
    alloc: Global,
    opened: OpenSession,
    statement: Statement,
    salt: [u8; 20],
) -> Result<Step, Memory>
    ensures { IfOk result (λ step. Stands step (stating.committing_locked (commands_left opened.left) opened statement salt)) }
{
    let actor = opened.account;
    let stage = Stage::Locking {
        statement: note_statement(&statement),
        salt,
    };
    let ask = Ask::CommitLocked {
        statement,
        salt,
        actor,
    };
    Ok(quiet(alloc, Some(ask), Phase::Executing { opened, stage }))
}

/// The statement wasn't executed, since what it was prepared on may have changed. The salt stays.
pub fn go_on_late(
    alloc: Global,
    opened: OpenSession,
    again: bool,
    statement: Statement,
    salt: [u8; 20],
) -> Result<Step, Memory>
    ensures { IfOk result (λ step. Stands step (stating.after_stale (commands_left opened.left) again opened statement salt)) }
{
    if again {
        commit_locked(alloc, opened, statement, salt)
    } else {
        look_again(alloc, opened, statement, salt)
    }
}

/// A salt is to be drawn.
#[tactic(auto, unfolding(crate::specs::Standing::talk_of, crate::specs::Standing::stage_talk, session_talk::specs::Turns::question, session_talk::specs::Turns::rest, session_talk::specs::Turns::said))]
fn draw_salt(
    alloc: Global,
    opened: OpenSession,
    look: Look,
    statement: Statement,
) -> Result<Step, Memory>
    ensures { IfOk result (λ step. Stands step (stating.salting (commands_left opened.left) opened look statement)) }
{
    let stage = Stage::Salting { look, statement };
    Ok(quiet(alloc, Some(Ask::Draw), Phase::Executing { opened, stage }))
}

/// The account that a statement is about was looked at: a salt is to be drawn where BY stands.
pub fn salt_on(
    alloc: Global,
    opened: OpenSession,
    look: Look,
    statement: Statement,
) -> Result<Step, Memory>
    ensures { IfOk result (λ step. Stands step (stating.salted (commands_left opened.left) (stating.has_password (auth_of statement)) opened look statement)) }
{
    if wants_salt(&statement) {
        draw_salt(alloc, opened, look, statement)
    } else {
        prepare_on(alloc, opened, false, look, statement, NO_SALT)
    }
}

/// The account that a statement is about is to be looked at.
#[tactic(auto, unfolding(crate::specs::Standing::talk_of, crate::specs::Standing::stage_talk, session_talk::specs::Turns::question, session_talk::specs::Turns::rest, session_talk::specs::Turns::said))]
fn look_at(alloc: Global, opened: OpenSession, statement: Statement) -> Result<Step, Memory>
    ensures { IfOk result (λ step. Stands step (stating.looking_at (commands_left opened.left) opened statement)) }
{
    let who = who_of(alloc, opened.account, &statement)?;
    let stage = Stage::Looking { statement };
    Ok(quiet(
        alloc,
        Some(Ask::Observe(who)),
        Phase::Executing { opened, stage },
    ))
}

/// A statement that has nothing to prepare is to be executed.
#[tactic(auto, unfolding(crate::specs::Standing::talk_of, crate::specs::Standing::stage_talk, session_talk::specs::Turns::question, session_talk::specs::Turns::rest, session_talk::specs::Turns::said))]
fn commit_plain(alloc: Global, opened: OpenSession, statement: Statement) -> Result<Step, Memory>
    ensures { IfOk result (λ step. Stands step (stating.committing_plain (commands_left opened.left) opened statement)) }
{
    let actor = opened.account;
    let stage = Stage::Plain {
        statement: note_statement(&statement),
    };
    Ok(quiet(
        alloc,
        Some(Ask::CommitPlain { statement, actor }),
        Phase::Executing { opened, stage },
    ))
}

/// A statement is to be executed.
fn execute(alloc: Global, opened: OpenSession, statement: Statement) -> Result<Step, Memory>
    ensures { IfOk result (λ step. Stands step (stating.executing (commands_left opened.left) (prepare.is_preparable statement) opened statement)) }
{
    if is_preparable(&statement) {
        look_at(alloc, opened, statement)
    } else {
        commit_plain(alloc, opened, statement)
    }
}

/// A statement, as far as a sandbox lets it through.
fn state(alloc: Global, opened: OpenSession, statement: Statement) -> Result<Step, Memory>
    ensures { IfOk result (λ step. Stands step (stating.stated (commands_left opened.left) (stating.is_let_through opened statement) opened statement)) }
{
    if is_let_through(&opened, &statement) {
        execute(alloc, opened, statement)
    } else {
        tell(alloc, &Code::Sandboxed, opened)
    }
}

/// The statement that a text is.
#[tactic(auto, using(crate::proofs::Found::statement_found))]
fn read_statement(alloc: Global, text: &[u8]) -> Result<Statement, SyntaxFault>
    ensures { Gives syntax_at result (stating.statement_in text.now) }
{
    read(alloc, text)
}

/// A text that is no statement is refused, at the place of its fault.
fn refuse_text(alloc: Global, opened: OpenSession, place: u64) -> Result<Step, Memory>
    ensures { IfOk result (λ step. Stands step (Says (text.error_payload (code.Syntax place)) (commands opened))) }
{
    tell(alloc, &Code::Syntax { place }, opened)
}

/// The text of COM_QUERY.
#[tactic(auto, using(crate::proofs::Found::queries))]
pub fn query(alloc: Global, opened: OpenSession, text: &[u8]) -> Result<Step, Memory>
    ensures { IfOk result (λ step. Stands step (stating.queried (commands_left opened.left) opened text.now)) }
{
    match read_statement(alloc, text) {
        Ok(statement) => state(alloc, opened, statement),
        Err(SyntaxFault::At { place }) => refuse_text(alloc, opened, place as u64),
        Err(SyntaxFault::Memory) => Err(Memory),
    }
}
