//! What a payload of the server says to a client that logs in.
//!
//! MySQL client/server protocol documentation, "Connection Phase Packets" and "Generic Response Packets".

ghost use Rattle.login_client.specs.Heard.{heard_of};
ghost use Rattle.login_client.specs.Hearing.{IsHeard};
ghost use Rattle.std.specs.Prelude.{◌≡◌, true, IfOk, ◌∷◌, List, ℕ};

use auth_packets::{ErrPacket, Greeting, NextFactor, OkPacket, PacketFault, Switch};
use lg_base::Memory;
use std::alloc::Global;

/// What a payload says, by its first byte.
#[derive(Debug, Drop)]
pub enum Heard {
    Greets(Greeting),
    /// A switch, whose data begins at a place of the payload.
    Switches { switch: Switch, at: u64 },
    /// 01 03: the answer was right.
    Fast,
    /// 01 04: the server wants the password itself.
    Full,
    Asks(NextFactor),
    Accepts,
    Refuses { number: u16 },
    /// The payload begins as a greeting, and is none.
    BrokenGreeting { at: u64 },
    BrokenSwitch { at: u64 },
    BrokenFactor { at: u64 },
    BrokenOk { at: u64 },
    BrokenErr { at: u64 },
    /// It begins as no message, or is more data of another kind.
    Other,
}

/// What a payload says.
#[tactic(auto, using(crate::proofs::HeardOf::result_read))]
pub(crate) fn hear(alloc: Global, payload: &[u8]) -> Result<Heard, Memory>
    ensures meant { IfOk result (λ heard. IsHeard payload.now heard) }
    ensures read { IfOk result (λ heard. heard ≡ heard_of payload.now) }
{
    match payload {
        [] => Ok(Heard::Other),
        [0x0a, ..] => hear_greeting(alloc, payload),
        [0xfe, ..] => hear_switch(alloc, payload),
        [0x01, 0x03] => Ok(Heard::Fast),
        [0x01, 0x04] => Ok(Heard::Full),
        [0x02, ..] => hear_factor(alloc, payload),
        [0x00, ..] => hear_ok(alloc, payload),
        [0xff, ..] => hear_err(alloc, payload),
        _ => Ok(Heard::Other),
    }
}

fn hear_greeting(alloc: Global, payload: &[u8]) -> Result<Heard, Memory>
    requires { (rest : List ℕ) × (payload.now ≡ 10 ∷ rest) }
    ensures { IfOk result (λ heard. IsHeard payload.now heard) }
{
    match Greeting::read(alloc, payload) {
        Ok(greeting) => Ok(Heard::Greets(greeting)),
        Err(PacketFault::Malformed { at }) => Ok(Heard::BrokenGreeting { at: at as u64 }),
        Err(PacketFault::Memory) => Err(Memory),
    }
}

fn hear_switch(alloc: Global, payload: &[u8]) -> Result<Heard, Memory>
    requires { (rest : List ℕ) × (payload.now ≡ 254 ∷ rest) }
    ensures { IfOk result (λ heard. IsHeard payload.now heard) }
{
    match Switch::read(alloc, payload) {
        Ok(switch) => {
            let at = payload.len().saturating_sub(switch.body.as_slice().len()) as u64;
            Ok(Heard::Switches { switch, at })
        }
        Err(PacketFault::Malformed { at }) => Ok(Heard::BrokenSwitch { at: at as u64 }),
        Err(PacketFault::Memory) => Err(Memory),
    }
}

fn hear_factor(alloc: Global, payload: &[u8]) -> Result<Heard, Memory>
    requires { (rest : List ℕ) × (payload.now ≡ 2 ∷ rest) }
    ensures { IfOk result (λ heard. IsHeard payload.now heard) }
{
    match NextFactor::read(alloc, payload) {
        Ok(factor) => Ok(Heard::Asks(factor)),
        Err(PacketFault::Malformed { at }) => Ok(Heard::BrokenFactor { at: at as u64 }),
        Err(PacketFault::Memory) => Err(Memory),
    }
}

fn hear_ok(alloc: Global, payload: &[u8]) -> Result<Heard, Memory>
    requires { (rest : List ℕ) × (payload.now ≡ 0 ∷ rest) }
    ensures { IfOk result (λ heard. IsHeard payload.now heard) }
{
    match OkPacket::read(alloc, payload) {
        Ok(_) => Ok(Heard::Accepts),
        Err(PacketFault::Malformed { at }) => Ok(Heard::BrokenOk { at: at as u64 }),
        Err(PacketFault::Memory) => Err(Memory),
    }
}

fn hear_err(alloc: Global, payload: &[u8]) -> Result<Heard, Memory>
    requires { (rest : List ℕ) × (payload.now ≡ 255 ∷ rest) }
    ensures { IfOk result (λ heard. IsHeard payload.now heard) }
{
    match ErrPacket::read(alloc, payload) {
        Ok(packet) => Ok(Heard::Refuses {
            number: packet.number,
        }),
        Err(PacketFault::Malformed { at }) => Ok(Heard::BrokenErr { at: at as u64 }),
        Err(PacketFault::Memory) => Err(Memory),
    }
}
