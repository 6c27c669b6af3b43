//! A client that is given bytes as they come, and writes packets into an output.

ghost use Rattle.client_wire.specs.Ends.{ComesTo, HearsTo, LeadsTo, got_by, heard_by, stands_at, with_bytes};
ghost use Rattle.client_wire.specs.declared.ends.Turn.TheVariants.{Ends};
ghost use Rattle.login_client.specs.Claims.{AreFit, AreUsable};
ghost use Rattle.login_client.specs.Conversation.{conversation};
ghost use Rattle.login_client.specs.Talk.{IsWaiting, Over, result_of};
ghost use Rattle.login_client.specs.Zeros.{HasNoZero};
ghost use Rattle.std.specs.Prelude.{◌≡◌, ◌++◌, [], IfNone, IfOk, OnOk};

use lg_base::{Memory, Out};
use login_client::{Client, ClientAct, ClientOptions, LoginEnd, Secrets};
use packet_frame::Packet;
use packet_stream::{Found, Inbox, add_packet};
use std::alloc::Global;

/// A client in a login, and the bytes that it hasn't read. Contracts see where it stands.
#[derive(Drop)]
pub struct ClientEnd {
    client: Client,
    next: u8,
    inbox: Inbox,
    ended: Option<LoginEnd>,
}

/// What a turn came to.
#[derive(Clone, Copy)]
pub enum Turn {
    /// A packet was read, and the client waits for a further one.
    Read,
    /// There is less than a packet.
    Waits,
    /// The client is done.
    Ends(LoginEnd),
}

impl ClientEnd {
    ghost use Rattle.client_wire.specs.Ends.{standing_of};

    /// A client that waits for the server's greeting, where no byte has come.
    #[tactic(auto, unfolding(crate::specs::Ends::standing_of))]
    pub fn new(
        alloc: Global,
        user: &[u8],
        secrets: &Secrets,
        options: &ClientOptions,
        local: bool,
    ) -> Result<ClientEnd, Memory>
        requires user { HasNoZero user.now }
        requires secrets { AreFit secrets.now }
        requires options { AreUsable options.now }
        ensures { IfOk result (λ end. standing_of end ≡ record {
          next = 0;
          at = conversation (record { user = user.now; secrets = secrets.now; options = options.now; local = local });
          unread = record { place = 0; bytes = [] };
        }) }
    {
        let client = Client::new(alloc, user, secrets, options, local)?;
        Ok(ClientEnd {
            client,
            next: 0,
            inbox: Inbox::new(alloc),
            ended: None,
        })
    }

    /// Further bytes came. The client writes what it says because of them, and the answer is how its login ended, if it
    /// did. After `Memory` a part may have been read, and a part written.
    #[tactic(auto, unfolding(crate::specs::Ends::standing_of))]
    pub fn get(
        &mut self,
        alloc: Global,
        bytes: &[u8],
        out: &mut Out,
    ) -> Result<Option<LoginEnd>, Memory>
        requires { IsWaiting (standing_of self.old).at }
        ensures stands { OnOk result (standing_of self.new ≡ stands_at (got_by (with_bytes (standing_of self.old) bytes.now))) }
        ensures sent { OnOk result (out.new ≡ out.old ++ (got_by (with_bytes (standing_of self.old) bytes.now)).sent) }
        ensures answer { IfOk result (λ end. end ≡ result_of (standing_of self.new).at) }
        ensures waits { IfOk result (λ end. IfNone end (IsWaiting (standing_of self.new).at)) }
    {
        self.inbox.add(bytes)?;
        'turns: loop {
            match self.turn(alloc, out)? {
                Turn::Read => {}
                Turn::Waits => return Ok(None),
                Turn::Ends(end) => return Ok(Some(end)),
            }
        }
    }

    /// Reads the packet at the front of the bytes, if there is one, and says what the client says because of it.
    #[tactic(auto, unfolding(crate::specs::Ends::standing_of))]
    fn turn(&mut self, alloc: Global, out: &mut Out) -> Result<Turn, Memory>
        requires { IsWaiting (standing_of self.old).at }
        ensures leads { OnOk result (LeadsTo (standing_of self.old) (standing_of self.new) out.old out.new) }
        ensures comes { IfOk result (λ turn. ComesTo turn (standing_of self.old) (standing_of self.new)) }
    {
        match self.inbox.take(alloc, self.next)? {
            Found::Packet(packet) => self.hear(&packet, out),
            Found::Nothing => Ok(Turn::Waits),
            Found::Fault(fault) => Ok(self.end(LoginEnd::Framing(fault))),
        }
    }

    /// Hears a packet that was read, and says what the client says because of it.
    #[tactic(auto, unfolding(crate::specs::Ends::standing_of))]
    fn hear(&mut self, packet: &Packet, out: &mut Out) -> Result<Turn, Memory>
        requires { IsWaiting (standing_of self.old).at }
        ensures leads { OnOk result (LeadsTo (heard_by packet.now (standing_of self.old)) (standing_of self.new) out.old out.new) }
        ensures unread { (standing_of self.new).unread ≡ (standing_of self.old).unread }
        ensures hears { IfOk result (λ turn. HearsTo turn (standing_of self.new)) }
    {
        let act = self.client.on(packet)?;
        self.next = packet.last.wrapping_add(1);
        match act {
            None => Ok(Turn::Read),
            Some(ClientAct::Send { first, payload }) => {
                self.next = add_packet(out, first, payload.as_slice())?;
                Ok(Turn::Read)
            }
            Some(ClientAct::Done(end)) => Ok(self.end(end)),
        }
    }

    /// The login is over.
    #[tactic(auto, unfolding(crate::specs::Ends::standing_of))]
    fn end(&mut self, end: LoginEnd) -> Turn
        ensures over { standing_of self.new ≡ record { next = (standing_of self.old).next; at = Over end; unread = (standing_of self.old).unread } }
        ensures told { result ≡ Ends end }
    {
        self.ended = Some(end);
        Turn::Ends(end)
    }
}
