//! A login over a link.
//!
//! MySQL client/server protocol documentation, "Connection Phase" and "MySQL Packets".

ghost use Rattle.lg_outside.specs.Faults.{Rose};
ghost use Rattle.link_packets.specs.Reading.{between};
ghost use Rattle.login_client.specs.Claims.{AreFit, AreUsable};
ghost use Rattle.login_client.specs.Zeros.{HasNoZero};
ghost use Rattle.login_client.specs.Clients.{talk_of};
ghost use Rattle.login_client.specs.Conversation.{conversation};
ghost use Rattle.login_client.specs.Exchange.{EndsAs, EndsWithin};
ghost use Rattle.login_client.specs.Talk.{IsWaiting};
ghost use Rattle.login_client.specs.Turning.{GoesOn, end_of_read, end_of_write};
ghost use Rattle.std.specs.Prelude.{◌≡◌, ℕ, ◌≤◌, ◌^◌, IfNone, IfSome, false};

use crate::claims::{ClientOptions, Secrets};
use crate::client::Client;
use crate::ends::{ClientAct, LoginEnd};
use lg_base::Memory;
use lg_outside::Link;
use link_packets::{ReadEnd, WriteEnd, new_reader, read_packet, write_packets};
use packet_frame::{Frames, Want};
use packet_stream::id_behind;
use std::alloc::Global;

/// The most packets of a server in a login: the greeting, a switch, more data, two further factors, OK or ERR.
const MOST_PACKETS: u32 = 6;

/// How a login ends where no packet was read.
fn end_of_read(end: ReadEnd) -> LoginEnd
    ensures { result ≡ end_of_read end }
{
    match end {
        ReadEnd::Faulty(fault) => LoginEnd::Framing(fault),
        ReadEnd::Closed { .. } => LoginEnd::PeerClosed,
        ReadEnd::Failed => LoginEnd::LinkFault,
        ReadEnd::Memory => LoginEnd::Memory,
    }
}

/// How a login ends where a packet wasn't written whole.
fn end_of_write(end: WriteEnd) -> LoginEnd
    ensures { result ≡ end_of_write end }
{
    match end {
        WriteEnd::Failed => LoginEnd::LinkFault,
        WriteEnd::Memory => LoginEnd::Memory,
    }
}

/// Hears the server's next packet, does what the client says, and answers how the login ended, if it did.
fn turn<L: Link>(
    alloc: Global,
    link: &mut L,
    client: &mut Client,
    frames: &mut Frames,
) -> Option<LoginEnd>
    requires open { L.finished link.old ≡ false }
    requires waits { IsWaiting (talk_of client.old) }
    requires begun { (id place : ℕ) × (frames.old ≡ between id place) × (place ≤ 2 ^ 32) }
    ensures goes_on { (id place n : ℕ) → frames.old ≡ between id place → EndsWithin n (talk_of client.old) →
        IfNone result (GoesOn n (talk_of client.old) id place (L.told link.old) (L.told link.new) (talk_of client.new) frames.new) }
    ensures ends { (id place n : ℕ) → frames.old ≡ between id place → EndsWithin n (talk_of client.old) →
        IfSome result (λ end. EndsAs (talk_of client.old) id place (L.told link.old) (L.told link.new) (Rose (L.fault_count link.old) (L.fault_count link.new)) end) }
    ensures stays { L.finished link.new ≡ false }
    ensures place { L.local link.new ≡ L.local link.old }
    ensures dialled { L.dialled link.new ≡ L.dialled link.old }
    ensures rising { L.fault_count link.old ≤ L.fault_count link.new }
{
    let packet = match read_packet(link, frames) {
        Ok(packet) => packet,
        Err(end) => return Some(end_of_read(end)),
    };
    let act = match client.on(&packet) {
        Ok(act) => act,
        Err(Memory) => return Some(LoginEnd::Memory),
    };
    let (first, payload) = match act {
        None => return None,
        Some(ClientAct::Done(end)) => return Some(end),
        Some(ClientAct::Send { first, payload }) => (first, payload),
    };
    let next = id_behind(first, payload.as_slice());
    match write_packets(alloc, link, first, &[payload]) {
        Ok(()) => {
            frames.expect(Want::Exactly(next));
            None
        }
        Err(end) => Some(end_of_write(end)),
    }
}

/// Logs in over a link, which isn't ended here.
///
/// What is written are the payloads of the client's talk for the payloads that the server sent, in packets, and
/// the answer is the talk's result. It is `Framing` where the bytes that were read are no packets, and
/// `PeerClosed` where they end while the talk waits for a payload. `LinkFault` comes only where the link's count
/// of faults rose, or stands at its end; then, and where there was no memory, a part was written of what was due.
/// No byte is read behind the packet that decides the result.
pub fn login<L: Link>(
    alloc: Global,
    link: &mut L,
    user: &[u8],
    secrets: &Secrets,
    options: &ClientOptions,
) -> LoginEnd
    requires open { L.finished link.old ≡ false }
    requires user { HasNoZero user.now }
    requires secrets { AreFit secrets.now }
    requires options { AreUsable options.now }
    ensures ends { EndsAs (conversation (record {
      user = user.now;
      secrets = secrets.now;
      options = options.now;
      local = L.local link.old;
    })) 0 0 (L.told link.old) (L.told link.new) (Rose (L.fault_count link.old) (L.fault_count link.new)) result }
    ensures stays { L.finished link.new ≡ false }
    ensures place { L.local link.new ≡ L.local link.old }
    ensures dialled { L.dialled link.new ≡ L.dialled link.old }
    ensures rising { L.fault_count link.old ≤ L.fault_count link.new }
{
    let mut client = match Client::new(alloc, user, secrets, options, link.is_local()) {
        Ok(client) => client,
        Err(Memory) => return LoginEnd::Memory,
    };
    let mut frames = new_reader(alloc);
    'turns: for _count in 0..MOST_PACKETS {
        match turn(alloc, link, &mut client, &mut frames) {
            Some(end) => return end,
            None => {}
        }
    }
    unreachable!()
}
