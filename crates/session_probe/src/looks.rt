//! Looks at accounts of each kind.

use caching_sha2::Sha2Stored;
use factor_chain::{Credential, InForce, Look, Method, Stored};
use lg_base::{Bytes, Host, Items, Memory, Name};
use std::alloc::Global;

/// The nonce of the greeting.
pub const NONCE: [u8; 20] = *b"00000000000000000001";

/// SHA1(SHA1(password)) of `password`.
const HASH: [u8; 20] =
    *b"\x24\x70\xc0\xc0\x6d\xee\x42\xfd\x16\x18\xbb\x99\x00\x5a\xdc\xa2\xec\x9d\x1e\x19";

/// SHA256(SHA256(password)) of `one`.
const DIGEST: [u8; 32] = *b"\xfe\x8d\x7a\x87\x3d\xc4\x89\x61\xa6\xaf\x33\x4c\x99\x6b\x2c\xb3\
      \xce\x37\x14\x9d\x5c\xe9\xc9\x25\x39\x52\xa5\x4c\x6a\x92\xc1\xad";

/// The salted sum of `one`.
const SALTED: Sha2Stored = Sha2Stored {
    thousands: 1,
    salt: *b"saltSALT0123./abcXYZ",
    sum: *b"0D5UP34ySOlek92QERtnzExqEzimSsFlX7vx7rfGxL2",
};

/// An account that a look shows.
#[derive(Clone, Copy)]
pub enum Shown {
    Nobody,
    /// Of the native method, with the password `password`.
    Native,
    /// Of the caching method, with the password `one`.
    Salted,
    /// The same, and the digest of its password is known.
    Known,
    /// Of the caching method, with the empty password.
    Empty,
    /// The same, with so many labels of further factors.
    Labelled(usize),
}

pub fn shown_of(word: &str) -> Option<Shown> {
    match word {
        "nobody" => Some(Shown::Nobody),
        "native" => Some(Shown::Native),
        "salted" => Some(Shown::Salted),
        "known" => Some(Shown::Known),
        "empty" => Some(Shown::Empty),
        _ => None,
    }
}

fn method_of(shown: Shown) -> Method {
    match shown {
        Shown::Native => Method::Native,
        _ => Method::CachingSha2,
    }
}

fn credential_of(shown: Shown) -> Credential {
    let (stored, digest) = match shown {
        Shown::Native => (Stored::Native(HASH), None),
        Shown::Salted => (Stored::Sha2(SALTED), None),
        Shown::Known => (Stored::Sha2(SALTED), Some(DIGEST)),
        _ => (Stored::Empty, None),
    };
    Credential {
        id: 1,
        stored,
        digest,
    }
}

fn labels(alloc: Global, shown: Shown) -> Result<Items<Bytes>, Memory> {
    let count = match shown {
        Shown::Labelled(count) => count,
        _ => 0,
    };
    let mut labels = Items::new(alloc);
    for _ in 0..count {
        labels.push(Bytes::copy(alloc, b"pin")?)?;
    }
    Ok(labels)
}

fn in_force(alloc: Global, shown: Shown) -> Result<InForce, Memory> {
    Ok(InForce {
        account: 3,
        name: Name {
            user: Bytes::copy(alloc, b"ann")?,
            host: Host::Localhost,
        },
        method: method_of(shown),
        primary: credential_of(shown),
        secondary: None,
        labels: labels(alloc, shown)?,
        past: Items::new(alloc),
    })
}

/// A look at a user, with this stamp.
pub fn look(alloc: Global, shown: Shown, stamp: u64) -> Result<Look, Memory> {
    let found = match shown {
        Shown::Nobody => None,
        _ => Some(in_force(alloc, shown)?),
    };
    Ok(Look {
        user: Bytes::copy(alloc, b"ann")?,
        stamp,
        in_force: found,
    })
}
