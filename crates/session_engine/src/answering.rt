//! Which inputs answer what a session waits for, and sequence ids.

ghost use Rattle.session_engine.specs.Standing as engine;
ghost use Rattle.session_engine.specs.Standing.{talk_of};
ghost use Rattle.session_talk.specs.Turns as turn;
ghost use Rattle.session_talk.specs.Turns.{is_salt_byte, has_few_labels};
ghost use Rattle.std.specs.Prelude.{◌≡◌};
ghost use Rattle.packet_frame.specs.Packets as frame;

use crate::phases::Phase;
use factor_chain::Look;
use packet_frame::FrameFault;
use session_talk::{Input, SessionEnd};

/// Whether a nonce is of the alphabet of salts.
fn is_nonce(nonce: &[u8]) -> bool
    ensures { result ≡ turn.is_nonce nonce.now }
{
    nonce.iter().all(|b| is_of_salt(*b))
}

fn is_of_salt(b: u8) -> bool
    ensures { result ≡ is_salt_byte b }
{
    matches!(b, 46..=57 | 65..=90 | 97..=122)
}

/// Whether the account that a look shows has at most two further factors.
fn has_few(look: &Look) -> bool
    ensures { result ≡ has_few_labels look.now.in_force }
{
    match &look.in_force {
        Some(account) => account.labels.len() <= 2,
        None => true,
    }
}

/// Whether an input is what comes of reading.
fn is_read(input: &Input) -> bool
    ensures { result ≡ turn.is_read input.now }
{
    matches!(
        input,
        Input::Packet(_) | Input::Frame(_) | Input::End { .. } | Input::LinkFailed
    )
}

fn is_settled(input: &Input) -> bool
    ensures { result ≡ turn.is_settled input.now }
{
    matches!(input, Input::Settled(_))
}

pub fn is_look(input: &Input) -> bool
    ensures { result ≡ turn.is_look input.now }
{
    match input {
        Input::Looked(look) => has_few(look),
        _ => false,
    }
}

pub fn is_draw(input: &Input) -> bool
    ensures { result ≡ turn.is_draw input.now }
{
    match input {
        Input::Drawn(nonce) => is_nonce(nonce),
        _ => false,
    }
}

/// Whether there was no memory to read a packet.
pub fn had_no_memory(input: &Input) -> bool
    ensures { result ≡ engine.had_no_memory input.now }
{
    matches!(input, Input::Frame(FrameFault::Memory))
}

impl Phase {
    /// Whether an input is of the kind that is waited for.
    #[tactic(auto, unfolding(crate::specs::Standing::talk_of, session_talk::specs::Turns::is_answer))]
    pub fn is_answered_by(&self, input: &Input) -> bool
        ensures { result ≡ turn.is_answer (talk_of self.now) input.now }
    {
        match self {
            Phase::Fresh { .. } => matches!(input, Input::Start { .. }),
            Phase::Greeted { .. } => is_read(input),
            Phase::Looking { .. } => is_look(input),
            Phase::Switching { .. } => is_draw(input),
            Phase::Switched { .. } => is_read(input),
            Phase::Clearing { .. } => is_read(input),
            Phase::Checking { .. } => matches!(input, Input::Checked(_)),
            Phase::Settling { .. } => matches!(input, Input::Stale(_) | Input::Settled(_)),
            Phase::Renewing { .. } => is_look(input),
            Phase::Locking { .. } => is_settled(input),
            Phase::Commanding { .. } => is_read(input),
            Phase::Executing { stage, .. } => stage.is_answered_by(input),
            Phase::Over(SessionEnd::Memory) => true,
            Phase::Over(_) => false,
        }
    }
}

/// The sequence id that comes after another one.
fn id_after(id: u8) -> u8
    ensures { result ≡ frame.id_after id }
{
    id.wrapping_add(1)
}

impl Phase {
    /// The sequence id that is wanted of the packet that is waited for: commands begin anew.
    #[tactic(auto, using(crate::proofs::Found::next_of_stage), unfolding(crate::specs::Standing::talk_of, session_talk::specs::Turns::wanted_by))]
    pub fn wanted(&self, next: u8) -> u8
        ensures { result ≡ turn.wanted_by next (talk_of self.now) }
    {
        match self {
            Phase::Commanding { .. } => 0,
            Phase::Executing { .. } => next,
            _ => next,
        }
    }

    /// The sequence id of the first packet that is sent after an input.
    pub fn first_id(&self, next: u8, input: &Input) -> u8
        ensures { result ≡ turn.first_id next (talk_of self.now) input.now }
    {
        match input {
            Input::Packet(packet) => id_after(packet.last),
            Input::Frame(_) => id_after(self.wanted(next)),
            _ => next,
        }
    }
}
