//! The login clients of a world, by the numbers of their sessions.

ghost use Rattle.login_client.specs.Claims.{AreFit, AreUsable};
ghost use Rattle.login_client.specs.declared.ends.LoginEnd.TheVariants as end;
ghost use Rattle.login_client.specs.Zeros.{HasNoZero};
ghost use Rattle.client_wire.specs.Clients.{AreClients, AreClientsBeside, IsClientTaken, client_of};
ghost use Rattle.client_wire.specs.UnderWay.{Client, claim_of, client_after, new_client, result_by, sent_to, with_client};
ghost use Rattle.std.specs.Prelude.{◌≡◌, ◌++◌, ℕ, Option, Some, drop, take, true, IfOk, OnOk};

use crate::ends::ClientEnd;
use crate::held_client::HeldClient;
use lg_base::{Memory, Out};
use login_client::{ClientOptions, LoginEnd, Secrets};
use packet_stream::Queue;
use std::alloc::Global;
use std::collections::BTreeMap;

impl HeldClient {
    /// A client on the server's machine, to which bytes are under way. It may say its secrets in the clear.
    pub fn new(
        alloc: Global,
        flags: u32,
        user: &[u8],
        secrets: &Secrets,
        bytes: &[u8],
    ) -> Result<HeldClient, Memory>
        requires user { HasNoZero user.now }
        requires secrets { AreFit secrets.now }
        requires options { AreUsable (record { flags = flags; clear = true }) }
        ensures { IfOk result (λ held. client_of held ≡ new_client (claim_of flags user.now secrets.now) bytes.now) }
    {
        let options = ClientOptions { flags, clear: true };
        let end = ClientEnd::new(alloc, user, secrets, &options, true)?;
        let mut coming = Queue::new(alloc);
        coming.add(bytes)?;
        Ok(HeldClient {
            end,
            coming,
            leaving: Queue::new(alloc),
            result: None,
        })
    }

    /// Its session sends bytes.
    pub fn sent(self, bytes: &[u8]) -> Result<HeldClient, Memory>
        ensures { IfOk result (λ held. client_of held ≡ sent_to bytes.now (client_of self)) }
    {
        let HeldClient {
            end,
            mut coming,
            leaving,
            result,
            ..
        } = self;
        coming.add(bytes)?;
        Ok(HeldClient {
            end,
            coming,
            leaving,
            result,
        })
    }

    /// It writes bytes.
    pub fn writes(self, bytes: &[u8]) -> Result<HeldClient, Memory>
        ensures { IfOk result (λ held. client_of held ≡ record (client_of self) { leaving = (client_of self).leaving ++ bytes.now }) }
    {
        let HeldClient {
            end,
            coming,
            mut leaving,
            result,
            ..
        } = self;
        leaving.add(bytes)?;
        Ok(HeldClient {
            end,
            coming,
            leaving,
            result,
        })
    }

    /// At most so many of its bytes have come to its session.
    pub fn brought(self, most: u64) -> HeldClient
        ensures { client_of result ≡ record (client_of self) { leaving = drop most (client_of self).leaving } }
    {
        let HeldClient {
            end,
            coming,
            mut leaving,
            result,
            ..
        } = self;
        leaving.skip(most);
        HeldClient {
            end,
            coming,
            leaving,
            result,
        }
    }

    /// Its result is told, since nothing more can come to it.
    pub fn cut_off(self) -> HeldClient
        ensures { client_of result ≡ record (client_of self) { result = Some end.PeerClosed } }
    {
        let HeldClient {
            end,
            coming,
            leaving,
            ..
        } = self;
        HeldClient {
            end,
            coming,
            leaving,
            result: Some(LoginEnd::PeerClosed),
        }
    }
}

/// At most so many of the bytes under way come to a client, which writes what it says at them. Its result, if it has just
/// come to it.
pub fn get(
    alloc: Global,
    held: HeldClient,
    most: u64,
) -> Result<(HeldClient, Option<LoginEnd>), Memory>
    ensures client { IfOk result (λ got. client_of got.0 ≡ client_after (client_of held).result (client_of held) (take most (client_of held).coming) (drop most (client_of held).coming)) }
    ensures told { IfOk result (λ got. got.1 ≡ result_by (client_of held).result (client_of held) (take most (client_of held).coming)) }
{
    let HeldClient {
        mut end,
        mut coming,
        mut leaving,
        result,
        ..
    } = held;
    if result.is_some() {
        coming.skip(most);
        let held = HeldClient {
            end,
            coming,
            leaving,
            result,
        };
        return Ok((held, None));
    }
    let mut text = Out::new(alloc);
    let told = end.get(alloc, coming.front(most), &mut text)?;
    coming.skip(most);
    leaving.add(text.as_slice())?;
    let held = HeldClient {
        end,
        coming,
        leaving,
        result: told,
    };
    Ok((held, told))
}

/// Takes the client of a session out, if there is one.
pub fn take(clients: &mut BTreeMap<u32, HeldClient>, number: u32) -> Option<HeldClient>
    ensures { (all : ℕ → Option Client) → AreClients clients.old all → IsClientTaken number all clients.new result }
{
    clients.remove(&number)
}

/// Puts a client where none of its session is. After `Memory` nothing is said of those that are kept.
pub fn keep(
    clients: &mut BTreeMap<u32, HeldClient>,
    number: u32,
    held: HeldClient,
) -> Result<(), Memory>
    ensures { (all : ℕ → Option Client) → AreClientsBeside number clients.old all → OnOk result (AreClients clients.new (with_client all number (client_of held))) }
{
    match clients.insert(number, held) {
        Ok(_) => Ok(()),
        Err(_) => Err(Memory),
    }
}
