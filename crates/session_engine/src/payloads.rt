//! The payloads that the server sends.

ghost use Rattle.session_talk.specs.Texts as text;
ghost use Rattle.auth_packets.specs.Exchange.{more_text};
ghost use Rattle.session_talk.specs.Texts.{err_of, greeting_of, method_name};
ghost use Rattle.std.specs.Prelude.{◌≡◌, [], ◌∷◌, IfOk};

use auth_packets::{ErrPacket, Greeting, More, OkPacket, Switch};
use factor_chain::Method;
use lg_base::{Bytes, Code, Memory, Out};
use std::alloc::Global;

/// The server's capability flags: PROTOCOL_41, TRANSACTIONS, SECURE_CONNECTION, PLUGIN_AUTH, the length-encoded
/// answer, expired passwords, multi-factor authentication.
const FLAGS: u32 = 0x1078_A208;

/// The name of a method on the wire.
#[tactic(auto, unfolding(session_talk::specs::Texts::native_name, session_talk::specs::Texts::caching_name))]
pub fn name_of(method: Method) -> &'static [u8]
    ensures { result.now ≡ method_name method }
{
    match method {
        Method::Native => b"mysql_native_password",
        Method::CachingSha2 => b"caching_sha2_password",
    }
}

#[tactic(auto, unfolding(session_talk::specs::Texts::greeting_of, session_talk::specs::Texts::version))]
fn make_greeting(alloc: Global, id: u32, nonce: [u8; 20]) -> Result<Greeting, Memory>
    ensures { IfOk result (λ made. made ≡ greeting_of id nonce) }
{
    Ok(Greeting {
        version: Bytes::copy(alloc, b"8.0.0-login")?,
        id,
        nonce,
        flags: FLAGS,
        charset: 255,
        status: 2,
        plugin: Bytes::copy(alloc, name_of(Method::CachingSha2))?,
    })
}

/// The greeting of a session.
#[tactic(auto, unfolding(session_talk::specs::Texts::greeting_payload))]
pub fn greeting_payload(alloc: Global, id: u32, nonce: [u8; 20]) -> Result<Bytes, Memory>
    ensures { IfOk result (λ payload. payload ≡ text.greeting_payload id nonce) }
{
    let mut payload = Out::new(alloc);
    make_greeting(alloc, id, nonce)?.write(&mut payload)?;
    Ok(payload.into_bytes())
}

/// A switch to a method, with a nonce.
#[tactic(auto, using(crate::proofs::Whole::no_zero_in_name), unfolding(session_talk::specs::Texts::switch_payload))]
pub fn switch_payload(alloc: Global, method: Method, nonce: [u8; 20]) -> Result<Bytes, Memory>
    ensures { IfOk result (λ payload. payload ≡ text.switch_payload method nonce) }
{
    let mut body = Out::new(alloc);
    body.bytes(&nonce)?;
    body.byte(0)?;
    let switch = Switch {
        plugin: Bytes::copy(alloc, name_of(method))?,
        body: body.into_bytes(),
    };
    let mut payload = Out::new(alloc);
    switch.write(&mut payload)?;
    Ok(payload.into_bytes())
}

/// More data of caching_sha2_password, of one byte.
fn more_payload(alloc: Global, first: u8) -> Result<Bytes, Memory>
    ensures { IfOk result (λ payload. payload ≡ more_text (record { body = first ∷ [] })) }
{
    let more = More {
        body: Bytes::copy(alloc, &[first])?,
    };
    let mut payload = Out::new(alloc);
    more.write(&mut payload)?;
    Ok(payload.into_bytes())
}

/// The fast answer was right.
#[tactic(auto, unfolding(session_talk::specs::Texts::fast_payload))]
pub fn fast_payload(alloc: Global) -> Result<Bytes, Memory>
    ensures { IfOk result (λ payload. payload ≡ text.fast_payload) }
{
    more_payload(alloc, 3)
}

/// The password is asked for.
#[tactic(auto, unfolding(session_talk::specs::Texts::full_payload))]
pub fn full_payload(alloc: Global) -> Result<Bytes, Memory>
    ensures { IfOk result (λ payload. payload ≡ text.full_payload) }
{
    more_payload(alloc, 4)
}

/// All went well.
#[tactic(auto, unfolding(session_talk::specs::Texts::ok_payload))]
pub fn ok_payload(alloc: Global) -> Result<Bytes, Memory>
    ensures { IfOk result (λ payload. payload ≡ text.ok_payload) }
{
    let ok = OkPacket {
        affected: 0,
        last_id: 0,
        status: 2,
        warnings: 0,
        info: Bytes::copy(alloc, &[])?,
    };
    let mut payload = Out::new(alloc);
    ok.write(&mut payload)?;
    Ok(payload.into_bytes())
}

/// An error as a packet.
fn packet_of(alloc: Global, code: &Code) -> Result<ErrPacket, Memory>
    ensures { IfOk result (λ packet. packet ≡ err_of code.now) }
{
    let mut text = Out::new(alloc);
    code.text(&mut text)?;
    Ok(ErrPacket {
        number: code.number(),
        state: code.state(),
        text: text.into_bytes(),
    })
}

/// An error.
#[tactic(auto, unfolding(session_talk::specs::Texts::error_payload))]
pub fn error_payload(alloc: Global, code: &Code) -> Result<Bytes, Memory>
    ensures { IfOk result (λ payload. payload ≡ text.error_payload code.now) }
{
    let mut payload = Out::new(alloc);
    packet_of(alloc, code)?.write(&mut payload)?;
    Ok(payload.into_bytes())
}
