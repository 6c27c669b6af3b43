//! Giving a session an input, and saying over its link what it says.

ghost use Rattle.lg_outside.specs.Faults.{Rose};
ghost use Rattle.link_packets.specs.Moving.{Moved};
ghost use Rattle.packet_stream.specs.Packing.{packets_text};
ghost use Rattle.packet_stream.specs.Sent.{sent_from};
ghost use Rattle.serve_talk.specs.declared.endings.Ending.TheVariants.{Told};
ghost use Rattle.session_engine.specs.Standing.{next_of, talk_of_session};
ghost use Rattle.session_serve.specs.Saying.{Broke, Finishes, IsCut, IsNext, Said};
ghost use Rattle.session_serve.specs.Standing.{stands_of};
ghost use Rattle.session_talk.specs.Turns.{Acts, IsAsked, is_answer};
ghost use Rattle.session_talk.specs.declared.ends.SessionEnd.TheVariants as end;
ghost use Rattle.std.specs.Prelude.{◌≡◌, ◌≤◌, [], IfErr, IfOk, IsTrue, OnOk, false};

use lg_base::{Bytes, Memory};
use lg_outside::Link;
use link_packets::{WriteEnd, write_packets};
use serve_talk::Ending;
use session_engine::Session;
use session_talk::{Action, Ask, Input, SessionEnd};
use std::alloc::Global;
use std::mem;

/// What a session asks, or its end.
fn going_on(ask: Ask) -> Result<Ask, Ending>
    ensures { IsNext ask result }
{
    match ask {
        Ask::Ended(how) => Err(Ending::Told(how)),
        other => Ok(other),
    }
}

/// The session takes the input, and says what to send and what it asks next.
fn take(session: &mut Session, given: Input) -> Result<Action, Ending>
    requires answers { IsTrue (is_answer (talk_of_session session.old) given) }
    requires asked { IsAsked (talk_of_session session.old) given }
    ensures acts { IfOk result (λ action. Acts (next_of session.old) (talk_of_session session.old) given action (next_of session.new) (talk_of_session session.new)) }
    ensures failed { IfErr result (λ how. how ≡ Told end.Memory) }
{
    match session.on(given) {
        Ok(action) => Ok(action),
        Err(Memory) => Err(Ending::Told(SessionEnd::Memory)),
    }
}

/// The payloads are written by one call.
fn write<L: Link>(alloc: Global, link: &mut L, first: u8, send: &[Bytes]) -> Result<(), Ending>
    requires { L.finished link.old ≡ false }
    ensures sent { OnOk result (Moved (L.told link.old) (L.told link.new) [] (packets_text (sent_from first send.now))) }
    ensures cut { IfErr result (IsCut (packets_text (sent_from first send.now)) (L.told link.old) (L.told link.new) (Rose (L.fault_count link.old) (L.fault_count link.new))) }
    ensures stays { L.finished link.new ≡ false }
    ensures rising { L.fault_count link.old ≤ L.fault_count link.new }
{
    match write_packets(alloc, link, first, send) {
        Ok(()) => Ok(()),
        Err(WriteEnd::Failed) => Err(Ending::Told(SessionEnd::LinkFault)),
        Err(WriteEnd::Memory) => Err(Ending::Told(SessionEnd::Memory)),
    }
}

/// What a session asks once its payloads were written, or how it ended.
fn finish(written: Result<(), Ending>, ask: Ask) -> Result<Ask, Ending>
    ensures { Finishes written ask result }
{
    match written {
        Ok(()) => going_on(ask),
        Err(how) => {
            mem::drop(ask);
            Err(how)
        }
    }
}

/// Gives a session an input and writes all that it says because of it by one call. What it asks for next is handed out.
pub fn give<L: Link>(
    alloc: Global,
    session: &mut Session,
    link: &mut L,
    given: Input,
) -> Result<Ask, Ending>
    requires open { L.finished link.old ≡ false }
    requires answers { IsTrue (is_answer (talk_of_session session.old) given) }
    requires asked { IsAsked (talk_of_session session.old) given }
    ensures said { IfOk result (Said (stands_of session.old) given (stands_of session.new) (L.told link.old) (L.told link.new)) }
    ensures broke { IfErr result (Broke (stands_of session.old) given (L.told link.old) (L.told link.new) (Rose (L.fault_count link.old) (L.fault_count link.new))) }
    ensures stays { L.finished link.new ≡ false }
    ensures rising { L.fault_count link.old ≤ L.fault_count link.new }
{
    match take(session, given) {
        Ok(Action { first, send, ask }) => {
            let written = write(alloc, link, first, send.as_slice());
            finish(written, ask)
        }
        Err(how) => Err(how),
    }
}
