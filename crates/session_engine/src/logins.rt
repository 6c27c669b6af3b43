//! A login up to its evidence: the greeting, the response, the method and the answer.

ghost use Rattle.session_engine.specs.Standing.{Stands};
ghost use Rattle.session_talk.specs.Logins as login;
ghost use Rattle.session_talk.specs.Logins.{attempt_of, claim_of, clear_evidence, is_blank, method_of, without_zero};
ghost use Rattle.interaction.specs.Talk.{Says};
ghost use Rattle.session_talk.specs.Texts as text;
ghost use Rattle.factor_chain.specs.Checking.{known_fits_of};
ghost use Rattle.factor_chain.specs.declared.evidence_list.Evidence.TheVariants as evidence;
ghost use Rattle.auth_packets.specs.Handshake.{response};
ghost use Rattle.auth_packets.specs.Faults.{malformed_at};
ghost use Rattle.wire_form.specs.Payloads.{Gives, start};
ghost use Rattle.std.specs.Prelude.{◌≡◌, IfOk};

use crate::payloads::{fast_payload, full_payload, greeting_payload, name_of, switch_payload};
use crate::phases::Phase;
use crate::settling::{check_after, prove_by};
use crate::steps::{Step, break_off, quiet, saying};
use account_history::Who;
use auth_packets::{PacketFault, Response};
use factor_chain::{Evidence, Evidences, Look, Method, known_fits};
use lg_base::{Bytes, Code, Memory};
use session_talk::{Ask, Attempting, Claim};
use std::alloc::Global;

/// The greeting is sent.
#[tactic(auto, unfolding(crate::specs::Standing::talk_of, session_talk::specs::Turns::question, session_talk::specs::Turns::rest, session_talk::specs::Turns::said))]
pub fn greet(alloc: Global, id: u32, nonce: [u8; 20]) -> Result<Step, Memory>
    ensures { IfOk result (λ step. Stands step (login.greeting id nonce)) }
{
    let payload = greeting_payload(alloc, id, nonce)?;
    saying(alloc, payload, None, Phase::Greeted { nonce })
}

/// The client's response to the greeting, as it is read.
#[tactic(auto, using(crate::proofs::Found::response_found))]
fn read_response(alloc: Global, payload: &[u8]) -> Result<Response, PacketFault>
    ensures { Gives malformed_at result (response.read (start payload.now)) }
{
    Response::read(alloc, payload)
}

/// The client's response to the greeting.
#[tactic(auto, using(crate::proofs::Found::responds))]
pub fn respond(alloc: Global, nonce: [u8; 20], payload: &[u8]) -> Result<Step, Memory>
    ensures { IfOk result (λ step. Stands step (login.responded nonce (response.read (start payload.now)))) }
{
    match read_response(alloc, payload) {
        Ok(said) => look_for(alloc, nonce, said),
        Err(PacketFault::Malformed { at }) => break_off(alloc, &Code::BadHandshake, at as u64),
        Err(PacketFault::Memory) => Err(Memory),
    }
}

/// The account of a client that responded is to be looked at.
#[tactic(auto, unfolding(crate::specs::Standing::talk_of, session_talk::specs::Turns::question, session_talk::specs::Turns::rest, session_talk::specs::Turns::said))]
fn look_for(alloc: Global, nonce: [u8; 20], said: Response) -> Result<Step, Memory>
    ensures { IfOk result (λ step. Stands step (login.looking (attempt_of said) (claim_of nonce said))) }
{
    let Response {
        flags,
        user,
        auth,
        plugin,
        ..
    } = said;
    let who = Who::Login(Bytes::copy(alloc, user.as_slice())?);
    let phase = Phase::Looking {
        attempt: Attempting { user, flags },
        claim: Claim {
            nonce,
            plugin,
            auth,
        },
    };
    Ok(quiet(alloc, Some(Ask::Observe(who)), phase))
}

/// The method of the account that a look shows, or caching_sha2_password where there is none.
fn method_shown(look: &Look) -> Method
    ensures { result ≡ method_of look.now }
{
    match &look.in_force {
        Some(account) => account.method,
        None => Method::CachingSha2,
    }
}

/// The account was looked at: the answer counts, or the client is to switch.
#[tactic(auto, unfolding(crate::specs::Standing::talk_of, session_talk::specs::Turns::question, session_talk::specs::Turns::rest, session_talk::specs::Turns::said))]
pub fn claim_on(
    alloc: Global,
    attempt: Attempting,
    claim: Claim,
    look: Look,
) -> Result<Step, Memory>
    ensures { IfOk result (λ step. Stands step (login.claimed attempt claim look (login.is_named claim look))) }
{
    if claim.plugin.as_slice() == name_of(method_shown(&look)) {
        return answer(alloc, attempt, look, claim.nonce, claim.auth);
    }
    Ok(quiet(alloc, Some(Ask::Draw), Phase::Switching { attempt, look }))
}

/// The client is told to switch to the account's method, with a fresh nonce.
#[tactic(auto, unfolding(crate::specs::Standing::talk_of, session_talk::specs::Turns::question, session_talk::specs::Turns::rest, session_talk::specs::Turns::said))]
pub fn switch_to(
    alloc: Global,
    attempt: Attempting,
    look: Look,
    nonce: [u8; 20],
) -> Result<Step, Memory>
    ensures { IfOk result (λ step. Stands step (Says (text.switch_payload (method_of look) nonce) (login.switched attempt look nonce))) }
{
    let payload = switch_payload(alloc, method_shown(&look), nonce)?;
    let phase = Phase::Switched {
        attempt,
        look,
        nonce,
    };
    saying(alloc, payload, None, phase)
}

/// Whether no password was used: the answer is empty, or one byte 00.
fn is_blank_answer(bytes: &[u8]) -> bool
    ensures { result ≡ is_blank bytes.now }
{
    match bytes {
        [] => true,
        [first] => *first == 0,
        _ => false,
    }
}

/// The answer to a nonce.
pub fn answer(
    alloc: Global,
    attempt: Attempting,
    look: Look,
    nonce: [u8; 20],
    bytes: Bytes,
) -> Result<Step, Memory>
    ensures { IfOk result (λ step. Stands step (login.answer attempt look nonce bytes)) }
{
    if is_blank_answer(bytes.as_slice()) {
        return prove_by(alloc, attempt, look, Evidence::Empty);
    }
    match method_shown(&look) {
        Method::Native => prove_by(
            alloc,
            attempt,
            look,
            Evidence::Native {
                nonce,
                response: bytes,
            },
        ),
        Method::CachingSha2 => answer_caching(alloc, attempt, look, nonce, &bytes),
    }
}

/// An answer of caching_sha2_password: it fits a digest that the look shows, or the password is asked for.
#[tactic(auto, using(crate::proofs::Found::known_has_32))]
fn answer_caching(
    alloc: Global,
    attempt: Attempting,
    look: Look,
    nonce: [u8; 20],
    bytes: &Bytes,
) -> Result<Step, Memory>
    ensures { IfOk result (λ step. Stands step (login.caching attempt look nonce bytes.now (known_fits_of look.in_force nonce bytes.now))) }
{
    let known = known_fits(&look, &nonce, bytes.as_slice());
    match <[u8; 32]>::try_from(bytes.as_slice()) {
        Ok(response) => {
            if known {
                answer_fast(alloc, attempt, look, nonce, response)
            } else {
                ask_for_password(alloc, attempt, look)
            }
        }
        Err(_) => ask_for_password(alloc, attempt, look),
    }
}

/// The fast answer was right.
fn answer_fast(
    alloc: Global,
    attempt: Attempting,
    look: Look,
    nonce: [u8; 20],
    response: [u8; 32],
) -> Result<Step, Memory>
    ensures { IfOk result (λ step. Stands step (Says text.fast_payload (login.proved attempt look (evidence.Fast nonce response)))) }
{
    let payload = fast_payload(alloc)?;
    let evidences = Evidences::new(alloc, Evidence::Fast { nonce, response })?;
    check_after(alloc, payload, attempt, look, evidences)
}

/// The password is asked for.
#[tactic(auto, unfolding(crate::specs::Standing::talk_of, session_talk::specs::Turns::question, session_talk::specs::Turns::rest, session_talk::specs::Turns::said))]
fn ask_for_password(alloc: Global, attempt: Attempting, look: Look) -> Result<Step, Memory>
    ensures { IfOk result (λ step. Stands step (Says text.full_payload (login.clearing attempt look))) }
{
    let payload = full_payload(alloc)?;
    saying(alloc, payload, None, Phase::Clearing { attempt, look })
}

/// A text without one last 00.
#[tactic(auto, using(crate::proofs::Found::without_ending, crate::proofs::Found::with_ending))]
fn without_last_zero(text: &[u8]) -> &[u8]
    ensures { result.now ≡ without_zero text.now }
{
    match text.split_last() {
        Some((last, front)) => { if *last == 0 { front } else { text } }
        None => text,
    }
}

/// A password in the clear.
fn evidence_of(alloc: Global, password: &[u8]) -> Result<Evidence, Memory>
    ensures { IfOk result (λ given. given ≡ clear_evidence password.now) }
{
    if password.is_empty() {
        return Ok(Evidence::Empty);
    }
    Ok(Evidence::Full {
        password: Bytes::copy(alloc, password)?,
    })
}

/// The client sent its password.
pub fn take_password(
    alloc: Global,
    attempt: Attempting,
    look: Look,
    text: &[u8],
) -> Result<Step, Memory>
    ensures { IfOk result (λ step. Stands step (login.proved attempt look (clear_evidence (without_zero text.now)))) }
{
    let given = evidence_of(alloc, without_last_zero(text))?;
    prove_by(alloc, attempt, look, given)
}
