//! One step of a session: what it sends, what it asks for, and where it then stands.

ghost use Rattle.session_engine.specs.Standing.{Stands};
ghost use Rattle.session_talk.specs.Logins.{broken, closing, faulted};
ghost use Rattle.interaction.specs.Talk.{Over};
ghost use Rattle.std.specs.Prelude.{◌≡◌, [], ◌∷◌, IfOk};

use crate::payloads::error_payload;
use crate::phases::Phase;
use lg_base::{Bytes, Code, Items, Memory};
use packet_frame::FrameFault;
use session_talk::{Ask, SessionEnd};
use std::alloc::Global;
use std::mem;

/// What a session does next. Where `ask` is None, it waits for a packet.
#[derive(Drop)]
pub struct Step {
    pub send: Items<Bytes>,
    pub ask: Option<Ask>,
    pub phase: Phase,
}

/// Nothing is sent.
pub fn quiet(alloc: Global, ask: Option<Ask>, phase: Phase) -> Step
    ensures send { result.send ≡ [] }
    ensures ask { result.ask ≡ ask }
    ensures phase { result.phase ≡ phase }
{
    Step {
        send: Items::new(alloc),
        ask,
        phase,
    }
}

/// One payload is sent.
pub fn saying(alloc: Global, payload: Bytes, ask: Option<Ask>, phase: Phase) -> Result<Step, Memory>
    ensures send { IfOk result (λ step. step.send ≡ payload ∷ []) }
    ensures ask { IfOk result (λ step. step.ask ≡ ask) }
    ensures phase { IfOk result (λ step. step.phase ≡ phase) }
{
    match one_payload(alloc, payload) {
        Ok(send) => Ok(Step { send, ask, phase }),
        Err(fault) => {
            mem::drop(ask);
            mem::drop(phase);
            Err(fault)
        }
    }
}

/// A list of one payload.
fn one_payload(alloc: Global, payload: Bytes) -> Result<Items<Bytes>, Memory>
    ensures { IfOk result (λ send. send ≡ payload ∷ []) }
{
    let mut send = Items::new(alloc);
    send.push(payload)?;
    Ok(send)
}

/// The session ends, and nothing is sent.
#[tactic(auto, unfolding(crate::specs::Standing::talk_of, session_talk::specs::Turns::question, session_talk::specs::Turns::rest, session_talk::specs::Turns::said))]
pub fn over(alloc: Global, how: SessionEnd) -> Step
    ensures { Stands result (Over how) }
{
    quiet(alloc, Some(Ask::Ended(how)), Phase::Over(how))
}

/// The session ends with an error that is told.
#[tactic(auto, unfolding(crate::specs::Standing::talk_of, session_talk::specs::Turns::question, session_talk::specs::Turns::rest, session_talk::specs::Turns::said))]
pub fn close(alloc: Global, code: &Code, how: SessionEnd) -> Result<Step, Memory>
    ensures { IfOk result (λ step. Stands step (closing code.now how)) }
{
    let payload = error_payload(alloc, code)?;
    saying(alloc, payload, Some(Ask::Ended(how)), Phase::Over(how))
}

/// The session ends since the peer broke the protocol at a place.
pub fn break_off(alloc: Global, code: &Code, at: u64) -> Result<Step, Memory>
    ensures { IfOk result (λ step. Stands step (broken code.now at)) }
{
    let how = SessionEnd::Bad {
        number: code.number(),
        at,
    };
    close(alloc, code, how)
}

/// The session ends at a fault of framing.
pub fn fault(alloc: Global, found: FrameFault) -> Result<Step, Memory>
    ensures { IfOk result (λ step. Stands step (faulted found)) }
{
    match found {
        FrameFault::TooLarge { at } => break_off(alloc, &Code::TooLarge, at),
        FrameFault::OutOfOrder { at, .. } => break_off(alloc, &Code::OutOfOrder, at),
        FrameFault::Memory => Err(Memory),
    }
}
