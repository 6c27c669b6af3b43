//! The check of evidence, and the settling of an attempt.

ghost use Rattle.session_engine.specs.Standing.{Stands};
ghost use Rattle.session_talk.specs.Logins as login;
ghost use Rattle.session_talk.specs.Logins.{after_stale, all_commands, decided, opened_on};
ghost use Rattle.session_talk.specs.Texts.{days_of};
ghost use Rattle.interaction.specs.Talk.{Says};
ghost use Rattle.session_talk.specs.Turns.{question, rest, said};
ghost use Rattle.std.specs.Prelude.{◌≡◌, ◌∷◌, [], IfOk, false};

use crate::notes::{note_checked, note_evidences, note_look};
use crate::phases::Phase;
use crate::statements::agree;
use crate::steps::{Step, close, quiet, saying};
use account_history::{Reply, Who};
use factor_chain::{Checked, Evidence, Evidences, Look};
use lg_base::{Bytes, Code, Host, Memory, Name};
use login_lock::LockTime;
use session_talk::{Ask, Attempting, OpenSession, SessionEnd};
use std::alloc::Global;

/// How many commands of a session are done.
const ALL_COMMANDS: u32 = 1_048_575;

/// The days of a lock, where it ends.
fn days_of_lock(time: LockTime) -> Option<u16>
    ensures { result ≡ days_of time }
{
    match time {
        LockTime::Days(days) => Some(days),
        LockTime::Unbounded => None,
    }
}

/// What a session knows of itself that an attempt opens on an account.
fn open_on(attempt: Attempting, account: u64, host: Host, sandbox: bool) -> OpenSession
    ensures { result ≡ opened_on attempt account host sandbox }
{
    let Attempting { user, flags } = attempt;
    OpenSession {
        account,
        name: Name { user, host },
        sandbox,
        flags,
        left: ALL_COMMANDS,
    }
}

/// The session that a reply opens, or the error that names the rule by which the attempt is refused.
fn decide(attempt: Attempting, reply: Reply) -> Result<OpenSession, Code>
    ensures { result ≡ decided attempt reply }
{
    match reply {
        Reply::Opened { account, host } => Ok(open_on(attempt, account, host, false)),
        Reply::Sandbox { account, host } => Ok(open_on(attempt, account, host, true)),
        Reply::Blocked { rule, left } => Err(Code::Blocked {
            user: attempt.user,
            days: days_of_lock(rule.time),
            left,
            limit: rule.attempts,
        }),
        Reply::Denied { using_password } => Err(Code::Denied {
            user: attempt.user,
            using_password,
        }),
        Reply::Locked => Err(Code::Locked { user: attempt.user }),
        Reply::MustChange => Err(Code::MustChange),
    }
}

/// The session opens, or the refusal is told.
pub fn finish(alloc: Global, attempt: Attempting, reply: Reply) -> Result<Step, Memory>
    ensures { IfOk result (λ step. Stands step (login.outcome attempt reply)) }
{
    match decide(attempt, reply) {
        Ok(opened) => agree(alloc, opened),
        Err(code) => {
            let how = SessionEnd::Refused {
                number: code.number(),
            };
            close(alloc, &code, how)
        }
    }
}

/// Evidence is to be checked on a look.
#[tactic(auto, unfolding(crate::specs::Standing::talk_of, session_talk::specs::Turns::question, session_talk::specs::Turns::rest, session_talk::specs::Turns::said))]
pub fn check(
    alloc: Global,
    attempt: Attempting,
    again: bool,
    look: Look,
    evidences: Evidences,
) -> Step
    ensures { Stands result (login.checking again attempt look evidences) }
{
    let phase = Phase::Checking {
        attempt,
        again,
        look: note_look(&look),
        evidences: note_evidences(&evidences),
    };
    quiet(alloc, Some(Ask::Check { look, evidences }), phase)
}

/// A payload is sent, and evidence is to be checked on the first look.
#[tactic(auto, unfolding(crate::specs::Standing::talk_of, session_talk::specs::Turns::question, session_talk::specs::Turns::rest, session_talk::specs::Turns::said))]
pub fn check_after(
    alloc: Global,
    payload: Bytes,
    attempt: Attempting,
    look: Look,
    evidences: Evidences,
) -> Result<Step, Memory>
    ensures { IfOk result (λ step. Stands step (Says payload (login.checking false attempt look evidences))) }
{
    let phase = Phase::Checking {
        attempt,
        again: false,
        look: note_look(&look),
        evidences: note_evidences(&evidences),
    };
    saying(alloc, payload, Some(Ask::Check { look, evidences }), phase)
}

/// One piece of evidence is to be checked on the first look.
pub fn prove_by(
    alloc: Global,
    attempt: Attempting,
    look: Look,
    given: Evidence,
) -> Result<Step, Memory>
    ensures { IfOk result (λ step. Stands step (login.proved attempt look given)) }
{
    let evidences = Evidences::new(alloc, given)?;
    Ok(check(alloc, attempt, false, look, evidences))
}

/// What was checked is to be settled.
#[tactic(auto, unfolding(crate::specs::Standing::talk_of, session_talk::specs::Turns::question, session_talk::specs::Turns::rest, session_talk::specs::Turns::said))]
pub fn settle(alloc: Global, attempt: Attempting, again: bool, checked: Checked) -> Step
    ensures { Stands result (login.settling again attempt checked) }
{
    let flags = attempt.flags;
    let phase = Phase::Settling {
        attempt,
        again,
        checked: note_checked(&checked),
    };
    quiet(alloc, Some(Ask::Settle { checked, flags }), phase)
}

/// The account is to be looked at again.
#[tactic(auto, unfolding(crate::specs::Standing::talk_of, session_talk::specs::Turns::question, session_talk::specs::Turns::rest, session_talk::specs::Turns::said))]
fn renew(alloc: Global, attempt: Attempting, evidences: Evidences) -> Result<Step, Memory>
    ensures { IfOk result (λ step. Stands step (login.renewing attempt evidences)) }
{
    let who = Who::Login(Bytes::copy(alloc, attempt.user.as_slice())?);
    let phase = Phase::Renewing { attempt, evidences };
    Ok(quiet(alloc, Some(Ask::Renew(who)), phase))
}

/// The attempt is to be settled in one step with the check.
#[tactic(auto, unfolding(crate::specs::Standing::talk_of, session_talk::specs::Turns::question, session_talk::specs::Turns::rest, session_talk::specs::Turns::said))]
fn lock(alloc: Global, attempt: Attempting, evidences: Evidences) -> Result<Step, Memory>
    ensures { IfOk result (λ step. Stands step (login.locking attempt evidences)) }
{
    let user = Bytes::copy(alloc, attempt.user.as_slice())?;
    let flags = attempt.flags;
    let phase = Phase::Locking {
        attempt,
        evidences: note_evidences(&evidences),
    };
    let ask = Ask::SettleLocked {
        user,
        evidences,
        flags,
    };
    Ok(quiet(alloc, Some(ask), phase))
}

/// The attempt wasn't settled, since the look may be out of date.
pub fn go_on_stale(
    alloc: Global,
    attempt: Attempting,
    again: bool,
    evidences: Evidences,
) -> Result<Step, Memory>
    ensures { IfOk result (λ step. Stands step (after_stale again attempt evidences)) }
{
    if again {
        lock(alloc, attempt, evidences)
    } else {
        renew(alloc, attempt, evidences)
    }
}
