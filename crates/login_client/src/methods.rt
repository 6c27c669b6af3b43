//! The authentication methods that a client knows, and its answers by them.
//!
//! MySQL client/server protocol documentation, "Authentication Methods".

ghost use Rattle.login_client.specs.Methods.{answer_of, caching_name, clear_name, clear_text, first_method, is_nonce_end, method_of, name_of, native_name, nonce_of, scrambled};
ghost use Rattle.std.specs.Prelude.{◌≡◌, ◌<◌, IfOk, length};

use lg_base::{Bytes, Memory, Out};
use std::alloc::Global;

/// An authentication method, as far as a client knows it.
#[derive(Clone, Copy, Debug, PartialEq, Eq)]
pub enum Method {
    Native,
    CachingSha2,
    /// The secret and a 00, as they are.
    Clear,
    Unknown,
}

#[tactic(auto, unfolding(crate::specs::Methods::native_name))]
fn native() -> &'static [u8]
    ensures { result.now ≡ native_name }
{
    b"mysql_native_password"
}

#[tactic(auto, unfolding(crate::specs::Methods::caching_name))]
fn caching() -> &'static [u8]
    ensures { result.now ≡ caching_name }
{
    b"caching_sha2_password"
}

#[tactic(auto, unfolding(crate::specs::Methods::clear_name))]
fn in_the_clear() -> &'static [u8]
    ensures { result.now ≡ clear_name }
{
    b"mysql_clear_password"
}

/// The method that a name stands for.
pub(crate) fn method_of(name: &[u8]) -> Method
    ensures { result ≡ method_of name.now }
{
    if name == native() {
        return Method::Native;
    }
    if name == caching() {
        return Method::CachingSha2;
    }
    if name == in_the_clear() {
        return Method::Clear;
    }
    Method::Unknown
}

/// The method that answers a greeting which names this one.
pub(crate) fn first_method(method: Method) -> Method
    ensures { result ≡ first_method method }
{
    match method {
        Method::Native => Method::Native,
        Method::CachingSha2 | Method::Clear | Method::Unknown => Method::CachingSha2,
    }
}

/// The name of the method that answers a greeting.
pub(crate) fn name_of(method: Method) -> &'static [u8]
    ensures { result.now ≡ name_of method }
{
    match method {
        Method::Native => native(),
        Method::CachingSha2 | Method::Clear | Method::Unknown => caching(),
    }
}

/// The answer to a nonce. An empty secret has an empty answer.
pub(crate) fn answer(
    alloc: Global,
    method: Method,
    secret: &[u8],
    nonce: &[u8; 20],
) -> Result<Bytes, Memory>
    ensures answer { IfOk result (λ answer. answer ≡ answer_of method secret.now nonce.now) }
    ensures short { IfOk result (λ answer. length answer < 256) }
{
    if secret.is_empty() {
        return Bytes::copy(alloc, &[]);
    }
    match method {
        Method::Native => Bytes::copy(alloc, &native_scramble::respond(secret, nonce)),
        Method::CachingSha2 | Method::Clear | Method::Unknown => {
            Bytes::copy(alloc, &caching_sha2::fast_response(secret, nonce))
        }
    }
}

/// A secret as it is, and the 00 that ends it.
pub(crate) fn clear(alloc: Global, secret: &[u8]) -> Result<Bytes, Memory>
    ensures { IfOk result (λ text. text ≡ clear_text secret.now) }
{
    let mut text = Out::new(alloc);
    text.bytes(secret)?;
    text.byte(0)?;
    Ok(text.into_bytes())
}

/// The nonce in the data of a switch: twenty bytes, with or without a 00 behind them.
pub(crate) fn nonce_of(body: &[u8]) -> Option<[u8; 20]>
    ensures { result ≡ nonce_of body.now }
{
    if body.len() < 20 {
        return None;
    }
    let (nonce, end) = body.split_at(20);
    if !is_nonce_end(end) {
        return None;
    }
    let mut found = [0; 20];
    found.copy_from_slice(nonce);
    Some(found)
}

fn is_nonce_end(end: &[u8]) -> bool
    ensures { result ≡ is_nonce_end end.now }
{
    match end {
        [] => true,
        [b] => *b == 0,
        _ => false,
    }
}
