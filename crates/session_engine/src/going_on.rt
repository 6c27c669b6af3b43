//! How each phase goes on with the answer to what was asked.

ghost use Rattle.auth_packets.specs.Handshake.{response};
ghost use Rattle.session_engine.specs.Standing.{Stands, talk_of};
ghost use Rattle.session_talk.specs.Logins as login;
ghost use Rattle.interaction.specs.Talk.{Over};
ghost use Rattle.session_talk.specs.Turns.{IsAsked, heard, is_answer};
ghost use Rattle.session_talk.specs.declared.ends.SessionEnd.TheVariants as end;
ghost use Rattle.std.specs.Prelude.{◌≡◌, IfOk, IsErr, IsTrue};

use crate::commanding::take_command;
use crate::executing::go_on_from;
use crate::logins::{answer, claim_on, greet, respond, switch_to, take_password};
use crate::phases::Phase;
use crate::settling::{check, finish, go_on_stale, settle};
use crate::steps::{Step, fault, over};
use factor_chain::{Checked, Evidences, Look};
use ghost_value::GhostValue;
use lg_base::Memory;
use session_talk::{Attempting, Claim, Input, OpenSession, SessionEnd};
use std::alloc::Global;

/// A new session begins.
#[tactic(auto, unfolding(session_talk::specs::Turns::heard, session_talk::specs::Talk::on_start))]
fn on_fresh(alloc: Global, id: u32, input: Input) -> Result<Step, Memory>
    ensures { IfOk result (λ step. Stands step (heard (login.session id) input)) }
{
    match input {
        Input::Start { nonce } => greet(alloc, id, nonce),
        _ => Err(Memory),
    }
}

/// The response was read, or reading ended.
#[tactic(auto, unfolding(session_talk::specs::Turns::heard, session_talk::specs::Logins::heard_by))]
fn on_greeted(alloc: Global, nonce: [u8; 20], input: Input) -> Result<Step, Memory>
    ensures { IfOk result (λ step. Stands step (heard (login.greeted nonce) input)) }
{
    match input {
        Input::Packet(packet) => respond(alloc, nonce, packet.payload.as_slice()),
        Input::Frame(found) => fault(alloc, found),
        Input::End { cut } => Ok(over(alloc, SessionEnd::PeerClosed { cut })),
        Input::LinkFailed => Ok(over(alloc, SessionEnd::LinkFault)),
        _ => Err(Memory),
    }
}

/// The account was looked at.
#[tactic(auto, unfolding(session_talk::specs::Turns::heard, session_talk::specs::Talk::on_look))]
fn on_looking(
    alloc: Global,
    attempt: Attempting,
    claim: Claim,
    input: Input,
) -> Result<Step, Memory>
    ensures { IfOk result (λ step. Stands step (heard (login.looking attempt claim) input)) }
{
    match input {
        Input::Looked(look) => claim_on(alloc, attempt, claim, look),
        _ => Err(Memory),
    }
}

/// A fresh nonce was drawn.
#[tactic(auto, unfolding(session_talk::specs::Turns::heard, session_talk::specs::Talk::on_drawn))]
fn on_switching(
    alloc: Global,
    attempt: Attempting,
    look: Look,
    input: Input,
) -> Result<Step, Memory>
    ensures { IfOk result (λ step. Stands step (heard (login.switching attempt look) input)) }
{
    match input {
        Input::Drawn(nonce) => switch_to(alloc, attempt, look, nonce),
        _ => Err(Memory),
    }
}

/// The answer to the fresh nonce was read, or reading ended.
#[tactic(auto, unfolding(session_talk::specs::Turns::heard, session_talk::specs::Logins::heard_by))]
fn on_switched(
    alloc: Global,
    attempt: Attempting,
    look: Look,
    nonce: [u8; 20],
    input: Input,
) -> Result<Step, Memory>
    ensures { IfOk result (λ step. Stands step (heard (login.switched attempt look nonce) input)) }
{
    match input {
        Input::Packet(packet) => answer(alloc, attempt, look, nonce, packet.payload),
        Input::Frame(found) => fault(alloc, found),
        Input::End { cut } => Ok(over(alloc, SessionEnd::PeerClosed { cut })),
        Input::LinkFailed => Ok(over(alloc, SessionEnd::LinkFault)),
        _ => Err(Memory),
    }
}

/// The password was read, or reading ended.
#[tactic(auto, unfolding(session_talk::specs::Turns::heard, session_talk::specs::Logins::heard_by))]
fn on_clearing(alloc: Global, attempt: Attempting, look: Look, input: Input) -> Result<Step, Memory>
    ensures { IfOk result (λ step. Stands step (heard (login.clearing attempt look) input)) }
{
    match input {
        Input::Packet(packet) => take_password(alloc, attempt, look, packet.payload.as_slice()),
        Input::Frame(found) => fault(alloc, found),
        Input::End { cut } => Ok(over(alloc, SessionEnd::PeerClosed { cut })),
        Input::LinkFailed => Ok(over(alloc, SessionEnd::LinkFault)),
        _ => Err(Memory),
    }
}

/// The evidence was checked.
#[tactic(auto, unfolding(session_talk::specs::Turns::heard, session_talk::specs::Talk::on_checked, session_talk::specs::Turns::IsAsked))]
fn on_checking(
    alloc: Global,
    attempt: Attempting,
    again: bool,
    look: GhostValue<Look>,
    evidences: GhostValue<Evidences>,
    input: Input,
) -> Result<Step, Memory>
    requires { IsAsked (login.checking again attempt look.value evidences.value) input }
    ensures { IfOk result (λ step. Stands step (heard (login.checking again attempt look.value evidences.value) input)) }
{
    match input {
        Input::Checked(checked) => Ok(settle(alloc, attempt, again, checked)),
        _ => Err(Memory),
    }
}

/// The attempt was settled, or it wasn't.
#[tactic(auto, unfolding(session_talk::specs::Turns::heard, session_talk::specs::Talk::on_settled, session_talk::specs::Turns::IsAsked))]
fn on_settling(
    alloc: Global,
    attempt: Attempting,
    again: bool,
    checked: GhostValue<Checked>,
    input: Input,
) -> Result<Step, Memory>
    requires { IsAsked (login.settling again attempt checked.value) input }
    ensures { IfOk result (λ step. Stands step (heard (login.settling again attempt checked.value) input)) }
{
    match input {
        Input::Stale(evidences) => go_on_stale(alloc, attempt, again, evidences),
        Input::Settled(reply) => finish(alloc, attempt, reply),
        _ => Err(Memory),
    }
}

/// The account was looked at again.
#[tactic(auto, unfolding(session_talk::specs::Turns::heard, session_talk::specs::Talk::on_look))]
fn on_renewing(
    alloc: Global,
    attempt: Attempting,
    evidences: Evidences,
    input: Input,
) -> Result<Step, Memory>
    ensures { IfOk result (λ step. Stands step (heard (login.renewing attempt evidences) input)) }
{
    match input {
        Input::Looked(look) => Ok(check(alloc, attempt, true, look, evidences)),
        _ => Err(Memory),
    }
}

/// The attempt was settled in one step with the check.
#[tactic(auto, unfolding(session_talk::specs::Turns::heard, session_talk::specs::Talk::on_locked))]
fn on_locking(
    alloc: Global,
    attempt: Attempting,
    evidences: GhostValue<Evidences>,
    input: Input,
) -> Result<Step, Memory>
    ensures { IfOk result (λ step. Stands step (heard (login.locking attempt evidences.value) input)) }
{
    match input {
        Input::Settled(reply) => finish(alloc, attempt, reply),
        _ => Err(Memory),
    }
}

/// A command was read, or reading ended.
#[tactic(auto, unfolding(session_talk::specs::Turns::heard, session_talk::specs::Logins::heard_by))]
fn on_commanding(alloc: Global, opened: OpenSession, input: Input) -> Result<Step, Memory>
    ensures { IfOk result (λ step. Stands step (heard (login.commands opened) input)) }
{
    match input {
        Input::Packet(packet) => take_command(alloc, opened, packet.payload.as_slice()),
        Input::Frame(found) => fault(alloc, found),
        Input::End { cut } => Ok(over(alloc, SessionEnd::PeerClosed { cut })),
        Input::LinkFailed => Ok(over(alloc, SessionEnd::LinkFault)),
        _ => Err(Memory),
    }
}

/// Goes on from a phase with the answer to what was asked.
#[tactic(auto, unfolding(crate::specs::Standing::talk_of))]
pub fn go_on(alloc: Global, phase: Phase, input: Input) -> Result<Step, Memory>
    requires { IsAsked (talk_of phase) input }
    ensures steps { IfOk result (λ step. Stands step (heard (talk_of phase) input)) }
    ensures stays { talk_of phase ≡ Over end.Memory → IsErr result }
{
    match phase {
        Phase::Fresh { id } => on_fresh(alloc, id, input),
        Phase::Greeted { nonce } => on_greeted(alloc, nonce, input),
        Phase::Looking { attempt, claim } => on_looking(alloc, attempt, claim, input),
        Phase::Switching { attempt, look } => on_switching(alloc, attempt, look, input),
        Phase::Switched {
            attempt,
            look,
            nonce,
        } => on_switched(alloc, attempt, look, nonce, input),
        Phase::Clearing { attempt, look } => on_clearing(alloc, attempt, look, input),
        Phase::Checking {
            attempt,
            again,
            look,
            evidences,
        } => on_checking(alloc, attempt, again, look, evidences, input),
        Phase::Settling {
            attempt,
            again,
            checked,
        } => on_settling(alloc, attempt, again, checked, input),
        Phase::Renewing { attempt, evidences } => on_renewing(alloc, attempt, evidences, input),
        Phase::Locking { attempt, evidences } => on_locking(alloc, attempt, evidences, input),
        Phase::Commanding { opened } => on_commanding(alloc, opened, input),
        Phase::Executing { opened, stage } => go_on_from(alloc, opened, stage, input),
        Phase::Over(_) => Err(Memory),
    }
}
