//! A client that is given the server's packets, and says what to write.

ghost use Rattle.login_client.specs.Acting.{Acts};
ghost use Rattle.login_client.specs.Claims.{AreFit, AreUsable, IsSound};
ghost use Rattle.login_client.specs.Zeros.{HasNoZero};
ghost use Rattle.login_client.specs.Conversation.{conversation};
ghost use Rattle.login_client.specs.Phases.{StepsAt, act_of};
ghost use Rattle.login_client.specs.Talk.{IsWaiting};
ghost use Rattle.std.specs.Prelude.{◌≡◌, IfOk, OnErr};

use crate::claims::{Claim, ClientOptions, Secrets};
use crate::ends::ClientAct;
use crate::hearing::hear;
use crate::phases::{Phase, Step};
use lg_base::{Bytes, Memory};
use packet_frame::Packet;
use std::alloc::Global;

/// A client in a login. Contracts see what is left of its talk.
#[derive(Drop)]
pub struct Client {
    alloc: Global,
    claim: Claim,
    phase: Phase,
    ghost sound: { IsSound claim },
}

impl Client {
    ghost use Rattle.login_client.specs.Clients.{talk_of};

    /// A client that waits for the server's greeting.
    #[tactic(auto, unfolding(crate::specs::Clients::talk_of))]
    pub fn new(
        alloc: Global,
        user: &[u8],
        secrets: &Secrets,
        options: &ClientOptions,
        local: bool,
    ) -> Result<Client, Memory>
        requires user { HasNoZero user.now }
        requires secrets { AreFit secrets.now }
        requires options { AreUsable options.now }
        ensures { IfOk result (λ client. talk_of client ≡ conversation (record {
          user = user.now;
          secrets = secrets.now;
          options = options.now;
          local = local;
        })) }
    {
        let claim = Claim {
            user: Bytes::copy(alloc, user)?,
            secrets: secrets.copy(alloc)?,
            options: *options,
            local,
        };
        Ok(Client {
            alloc,
            claim,
            phase: Phase::Connected,
        })
    }

    /// Hears the payload of the server's next packet, and says what to do: `None` is to wait for a further
    /// packet. After `Memory` the client is unchanged.
    #[tactic(auto, unfolding(crate::specs::Clients::talk_of))]
    pub fn on(&mut self, packet: &Packet) -> Result<Option<ClientAct>, Memory>
        requires { IsWaiting (talk_of self.old) }
        ensures acts { IfOk result (λ act. Acts (talk_of self.old) packet.now act (talk_of self.new)) }
        ensures err { OnErr result (talk_of self.new ≡ talk_of self.old) }
    {
        let Step { says, phase } = self.step_at(packet.payload.as_slice())?;
        self.phase = phase;
        Ok(act_of(says, phase, packet.last))
    }

    /// The step at a payload.
    #[tactic(auto, unfolding(crate::specs::Clients::talk_of))]
    fn step_at(&self, payload: &[u8]) -> Result<Step, Memory>
        ensures { IfOk result (λ step. StepsAt self.now.claim (talk_of self.now) payload.now step) }
    {
        let heard = hear(self.alloc, payload)?;
        let step = self.claim.step(self.alloc, self.phase, &heard)?;
        Ok(step)
    }
}

/// What a client does that says this, if anything, and then stands at a phase, behind a packet with some last
/// sequence id.
fn act_of(says: Option<Bytes>, phase: Phase, last: u8) -> Option<ClientAct>
    ensures { result ≡ act_of says phase last }
{
    match says {
        Some(payload) => {
            let first = last.wrapping_add(1);
            Some(ClientAct::Send { first, payload })
        }
        None => match phase.end() {
            Some(end) => Some(ClientAct::Done(end)),
            None => None,
        },
    }
}
