//! A session, and the answers that it is given.

ghost use Rattle.session_engine.specs.Standing.{next_of, talk_of_session};
ghost use Rattle.session_probe.specs.Fitting.{gives_back};
ghost use Rattle.session_talk.specs.Talk.{Own};
ghost use Rattle.session_talk.specs.Turns.{IsAsked, IsFitting, asked};
ghost use Rattle.std.specs.Prelude.{◌≡◌, IfOk, IfSome, not};

use crate::given::plain_input;
use crate::looks::NONCE;
use account_history::{Prepared, prepare};
use factor_chain::{Look, check};
use lg_base::Memory;
use session_engine::Session;
use session_talk::{Action, Ask, Input};
use std::alloc::Global;
use std::mem;
use stmt_rules::Statement;
use world_table::statements::{is_preparable, is_salt, is_written};

/// A session, and what it did last.
#[derive(Drop)]
pub struct Driven {
    pub session: Session,
    pub action: Action,
    ghost asks: { action.ask ≡ asked (next_of session) (talk_of_session session) },
}

/// Where the session stands that the lines drive.
#[derive(Drop)]
pub enum State {
    /// There is no session: none has begun, or a line was no answer to what its session asked.
    Absent,
    At(Driven),
    /// There was no memory.
    Failed(Session),
}

/// What was asked about, checked.
fn checked(ask: Ask) -> Option<Input>
    ensures { IfSome result (IsFitting (Own ask)) }
{
    match ask {
        Ask::Check { look, evidences } => Some(Input::Checked(check(look, evidences))),
        _ => None,
    }
}

/// What was asked about, handed back.
fn stale(ask: Ask) -> Option<Input>
    ensures { IfSome result (IsFitting (Own ask)) }
{
    match ask {
        Ask::Settle { checked, flags: _ } => Some(Input::Stale(checked.into_evidences())),
        Ask::Commit { prepared, actor: _ } => {
            Some(Input::StaleStatement(prepared.into_statement()))
        }
        _ => None,
    }
}

/// A statement that was asked about, prepared; none where no session may ask about it so.
fn prepare_statement(
    alloc: Global,
    look: Look,
    statement: Statement,
    salt: [u8; 20],
    actor: u64,
) -> Result<Option<Prepared>, Memory>
    ensures { IfOk result (λ made. IfSome made (λ p. p ≡ record { look = look; statement = statement; salt = salt; actor = actor })) }
{
    if !is_preparable(&statement) {
        return Ok(None);
    }
    if !is_written(&statement) {
        return Ok(None);
    }
    if !is_salt(&salt) {
        return Ok(None);
    }
    Ok(Some(prepare(alloc, look, statement, &salt, actor)?))
}

/// What was asked about, prepared.
fn prepared(alloc: Global, ask: Ask) -> Result<Option<Input>, Memory>
    ensures { IfOk result (λ input. IfSome input (IsFitting (Own ask))) }
{
    match ask {
        Ask::Prepare {
            look,
            statement,
            salt,
            actor,
        } => match prepare_statement(alloc, look, statement, salt, actor)? {
            Some(made) => Ok(Some(Input::Prepared(made))),
            None => Ok(None),
        },
        _ => Ok(None),
    }
}

/// Whether an input gives nothing back.
fn is_plain(input: &Input) -> bool
    ensures { result ≡ not (gives_back input.now) }
{
    !matches!(
        input,
        Input::Checked(_) | Input::Stale(_) | Input::Prepared(_) | Input::StaleStatement(_)
    )
}

/// An input of the other kinds.
#[tactic(auto, using(crate::proofs::Fitting::plain_fits))]
fn other(alloc: Global, ask: Ask, words: &[&str]) -> Result<Option<Input>, Memory>
    ensures { IfOk result (λ input. IfSome input (IsFitting (Own ask))) }
{
    let _ = ask;
    match plain_input(alloc, words)? {
        Some(input) if is_plain(&input) => Ok(Some(input)),
        _ => Ok(None),
    }
}

/// The input of a line.
fn input_of(alloc: Global, ask: Ask, words: &[&str]) -> Result<Option<Input>, Memory>
    ensures { IfOk result (λ input. IfSome input (IsFitting (Own ask))) }
{
    match words {
        ["checked"] => Ok(checked(ask)),
        ["stale"] => Ok(stale(ask)),
        ["prepared"] => prepared(alloc, ask),
        _ => other(alloc, ask, words),
    }
}

/// Gives a session an input that fits what it asked.
fn give(session: Session, input: Input) -> State
    requires { IsAsked (talk_of_session session) input }
{
    let mut session = session;
    if !session.answers(&input) {
        return State::Absent;
    }
    match session.on(input) {
        Ok(action) => State::At(Driven { session, action }),
        Err(Memory) => State::Failed(session),
    }
}

/// Gives a session the answer to its last ask.
#[tactic(auto, using(crate::proofs::Fitting::fits))]
fn take(alloc: Global, driven: Driven, words: &[&str]) -> State {
    let Driven { session, action } = driven;
    match input_of(alloc, action.ask, words) {
        Ok(Some(input)) => give(session, input),
        _ => State::Absent,
    }
}

/// Where a session stands that is given the answer to its last ask, unless it has failed.
fn answered(alloc: Global, state: State, words: &[&str]) -> State {
    match state {
        State::Absent => State::Absent,
        State::At(driven) => take(alloc, driven, words),
        State::Failed(session) => State::Failed(session),
    }
}

/// A state takes the place of the one before.
pub fn put(state: &mut State, after: State) {
    drop(mem::replace(state, after));
}

/// The session is given the answer to its last ask, unless it has failed.
pub fn answer(alloc: Global, state: &mut State, words: &[&str]) {
    let before = mem::replace(state, State::Absent);
    put(state, answered(alloc, before, words));
}

/// Gives a session an input that gives nothing back.
#[tactic(auto, using(crate::proofs::Fitting::plain_is_asked))]
fn give_plain(session: Session, input: Input) -> State {
    if !is_plain(&input) {
        return State::Absent;
    }
    give(session, input)
}

/// A new session that has its first nonce.
pub fn begin(alloc: Global) -> State {
    give_plain(Session::new(alloc, 1), Input::Start { nonce: NONCE })
}
