//! Reading a packet for a session.

ghost use Rattle.lg_outside.specs.Faults.{Rose};
ghost use Rattle.serve_talk.specs.Paths.{Halts};
ghost use Rattle.serve_talk.specs.Sides.{Side};
ghost use Rattle.session_engine.specs.Standing.{talk_of_session};
ghost use Rattle.session_serve.specs.Holding.{Keeps, held_of};
ghost use Rattle.session_serve.specs.Saying.{Broke};
ghost use Rattle.session_serve.specs.Standing.{GoesOn, IsReady, point_of, stands_of};
ghost use Rattle.session_talk.specs.Runs.{IsLive};
ghost use Rattle.session_talk.specs.Turns.{IsAsked, is_answer};
ghost use Rattle.session_talk.specs.declared.actions.Ask.TheVariants as asking;
ghost use Rattle.session_talk.specs.declared.inputs.Input.TheVariants as input;
ghost use Rattle.shared_accounts.specs.declared.desk.Begun.{Begun};
ghost use Rattle.std.specs.Prelude.{◌≡◌, ◌≤◌, IfErr, IfOk, IsTrue, false};

use crate::giving::give;
use crate::holding::Held;
use lg_outside::Link;
use link_packets::{ReadEnd, read_packet};
use packet_frame::{FrameFault, Frames, Want};
use serve_talk::Ending;
use session_engine::Session;
use session_talk::{Ask, Input, SessionEnd};
use std::alloc::Global;

/// A fault of framing is told, and the session is over.
fn break_off<L: Link>(
    alloc: Global,
    session: &mut Session,
    link: &mut L,
    fault: FrameFault,
) -> Ending
    requires open { L.finished link.old ≡ false }
    requires live { IsLive (talk_of_session session.old) }
    requires answers { IsTrue (is_answer (talk_of_session session.old) (input.Frame fault)) }
    requires asked { IsAsked (talk_of_session session.old) (input.Frame fault) }
    ensures broke { Broke (stands_of session.old) (input.Frame fault) (L.told link.old) (L.told link.new) (Rose (L.fault_count link.old) (L.fault_count link.new)) result }
    ensures stays { L.finished link.new ≡ false }
    ensures rising { L.fault_count link.old ≤ L.fault_count link.new }
{
    match give(alloc, session, link, Input::Frame(fault)) {
        Ok(_) => unreachable!(),
        Err(how) => how,
    }
}

/// The session waits for a packet: it is read, or a fault is told, or the session ends.
pub fn hear<L: Link>(
    alloc: Global,
    session: &mut Session,
    frames: &mut Frames,
    held: &mut Held,
    link: &mut L,
    want: u8,
) -> Result<Ask, Ending>
    requires open { L.finished link.old ≡ false }
    requires ready { IsReady session.old frames.old held.old (asking.Read want) }
    ensures goes_on { (begun : Begun) (side : Side) → Keeps begun side.seen.entries (held_of held.old) → IfOk result (GoesOn begun (point_of session.old frames.old held.old (L.told link.old) side) session.new frames.new held.new (L.told link.new) side) }
    ensures halts { (side : Side) → IfErr result (Halts (point_of session.old frames.old held.old (L.told link.old) side) (record { link = L.told link.new; side = side }) (Rose (L.fault_count link.old) (L.fault_count link.new))) }
    ensures stays { L.finished link.new ≡ false }
    ensures rising { L.fault_count link.old ≤ L.fault_count link.new }
{
    frames.expect(Want::Exactly(want));
    match read_packet(link, frames) {
        Ok(packet) => {
            held.read();
            give(alloc, session, link, Input::Packet(packet))
        }
        Err(ReadEnd::Faulty(fault)) => Err(break_off(alloc, session, link, fault)),
        Err(ReadEnd::Closed { cut }) => Err(Ending::Told(SessionEnd::PeerClosed { cut })),
        Err(ReadEnd::Failed) => Err(Ending::Told(SessionEnd::LinkFault)),
        Err(ReadEnd::Memory) => Err(Ending::Told(SessionEnd::Memory)),
    }
}
