//! Who logs in, with which secrets, and what the client may do.

ghost use Rattle.login_client.specs.Zeros.{HasNoZero};
ghost use Rattle.std.specs.Prelude.{◌≡◌, ◌↔◌, IfOk, IfSome, IsTrue};

use auth_packets::flags::{CONNECT_ATTRS, CONNECT_WITH_DB, has_needed, is_set};
use lg_base::{Bytes, Memory};
use std::alloc::Global;

/// The secrets of the factors. None of them holds the byte 00.
#[derive(Debug, PartialEq, Eq, Drop)]
pub struct Secrets {
    /// The password. An empty one has an empty answer.
    pub first: Bytes,
    pub second: Option<Bytes>,
    pub third: Option<Bytes>,
}

/// What a client may do.
#[derive(Clone, Copy, Debug, PartialEq, Eq)]
pub struct ClientOptions {
    /// The capability flags that it tells the server.
    pub flags: u32,
    /// Whether the method that writes a secret in the clear is permitted, where the peer is on this machine.
    pub clear: bool,
}

/// Who logs in, and where the server is.
#[derive(Debug, PartialEq, Eq, Drop)]
pub struct Claim {
    /// The user, a text without 00.
    pub user: Bytes,
    pub secrets: Secrets,
    pub options: ClientOptions,
    /// Whether the server is on this machine, so that nobody else reads what is written.
    pub local: bool,
}

/// Whether a text holds no byte 00, so that one can end it.
pub fn has_no_zero(text: &[u8]) -> bool
    ensures { IsTrue result ↔ HasNoZero text.now }
{
    !text.iter().any(|x| *x == 0)
}

/// Whether a secret, if there is one, holds no byte 00.
fn has_no_zero_if_some(secret: &Option<Bytes>) -> bool
    ensures { IsTrue result ↔ IfSome secret.now HasNoZero }
{
    match secret {
        Some(secret) => has_no_zero(secret.as_slice()),
        None => true,
    }
}

impl ClientOptions {
    ghost use Rattle.login_client.specs.Claims.{AreUsable};

    /// Whether the flags have those that both ends need, and none that tells of a database or of attributes.
    pub fn are_usable(&self) -> bool
        ensures { IsTrue result ↔ AreUsable self.now }
    {
        if !has_needed(self.flags) {
            return false;
        }
        if is_set(CONNECT_WITH_DB, self.flags) {
            return false;
        }
        !is_set(CONNECT_ATTRS, self.flags)
    }
}

/// A copy of a secret, if there is one.
fn copy_if_some(alloc: Global, secret: &Option<Bytes>) -> Result<Option<Bytes>, Memory>
    ensures { IfOk result (λ copied. copied ≡ secret.now) }
{
    match secret {
        Some(secret) => Ok(Some(Bytes::copy(alloc, secret.as_slice())?)),
        None => Ok(None),
    }
}

impl Secrets {
    ghost use Rattle.login_client.specs.Claims.{AreFit};

    /// Whether no secret holds a byte 00.
    pub fn are_fit(&self) -> bool
        ensures { IsTrue result ↔ AreFit self.now }
    {
        if !has_no_zero(self.first.as_slice()) {
            return false;
        }
        if !has_no_zero_if_some(&self.second) {
            return false;
        }
        has_no_zero_if_some(&self.third)
    }

    /// The same secrets, in memory of their own.
    pub(crate) fn copy(&self, alloc: Global) -> Result<Secrets, Memory>
        ensures { IfOk result (λ copied. copied ≡ self.now) }
    {
        Ok(Secrets {
            first: Bytes::copy(alloc, self.first.as_slice())?,
            second: copy_if_some(alloc, &self.second)?,
            third: copy_if_some(alloc, &self.third)?,
        })
    }
}
