//! A session.

ghost use Rattle.session_engine.specs.Standing.{talk_of};
ghost use Rattle.session_talk.specs.Logins as login;
ghost use Rattle.session_talk.specs.Turns.{or_read};
ghost use Rattle.std.specs.Prelude.{◌≡◌};

use crate::answering::had_no_memory;
use crate::going_on::go_on;
use crate::phases::Phase;
use crate::steps::Step;
use lg_base::Memory;
use packet_stream::id_behind_all;
use session_talk::{Action, Ask, Input, SessionEnd};
use std::alloc::Global;
use std::mem;

/// The server's end of a session.
#[derive(Drop)]
pub struct Session {
    alloc: Global,
    /// The sequence id of the next packet.
    next: u8,
    phase: Phase,
}

impl Session {
    ghost use Rattle.session_engine.specs.Standing.{HasFailed, next_of, talk_of_session};
    ghost use Rattle.session_talk.specs.Logins as login;
    ghost use Rattle.packet_frame.specs.declared.packets.FrameFault.TheVariants.{Memory as NoMemory};
    ghost use Rattle.session_talk.specs.Turns.{Acts, IsAsked, is_answer};
    ghost use Rattle.session_talk.specs.declared.inputs.Input.TheVariants.{Frame};
    ghost use Rattle.std.specs.Prelude.{◌≡◌, IfOk, IsErr, IsTrue, OnErr};

    /// A session of a connection with this number. It waits for [`Input::Start`].
    #[tactic(auto, unfolding(crate::specs::Standing::talk_of))]
    pub fn new(alloc: Global, id: u32) -> Session
        ensures talk { talk_of_session result ≡ login.session id }
        ensures next { next_of result ≡ 0 }
    {
        Session {
            alloc,
            next: 0,
            phase: Phase::Fresh { id },
        }
    }

    /// Whether an input is of the kind that the session waits for. A session that has failed takes anything.
    pub fn answers(&self, input: &Input) -> bool
        ensures { result ≡ is_answer (talk_of_session self.now) input.now }
    {
        self.phase.is_answered_by(input)
    }

    /// Goes on with the answer to the last ask. After `Memory` the session has failed, and answers so from then on. A
    /// fault of framing for want of memory is answered so too.
    #[tactic(auto, unfolding(crate::specs::Standing::talk_of))]
    pub fn on(&mut self, input: Input) -> Result<Action, Memory>
        requires answers { IsTrue (is_answer (talk_of_session self.old) input) }
        requires asked { IsAsked (talk_of_session self.old) input }
        ensures acts { IfOk result (λ action. Acts (next_of self.old) (talk_of_session self.old) input action (next_of self.new) (talk_of_session self.new)) }
        ensures failed { OnErr result (HasFailed self.new) }
        ensures unread { input ≡ Frame NoMemory → IsErr result }
        ensures stays { HasFailed self.old → IsErr result }
    {
        let first = self.phase.first_id(self.next, &input);
        let phase = mem::replace(&mut self.phase, Phase::Over(SessionEnd::Memory));
        if had_no_memory(&input) {
            mem::drop(input);
            mem::drop(phase);
            return Err(Memory);
        }
        let Step { send, ask, phase } = go_on(self.alloc, phase, input)?;
        let next = id_behind_all(first, send.as_slice());
        let want = phase.wanted(next);
        self.next = next;
        self.phase = phase;
        Ok(Action {
            first,
            send,
            ask: asked_or_read(ask, want),
        })
    }
}

/// What is asked for, or else a packet.
fn asked_or_read(ask: Option<Ask>, want: u8) -> Ask
    ensures { result ≡ or_read want ask }
{
    match ask {
        Some(ask) => ask,
        None => Ask::Read { want },
    }
}
