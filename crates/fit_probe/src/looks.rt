//! The accounts of lines.

use caching_sha2::Sha2Stored;
use factor_chain::{Credential, InForce, Look, Method, Stored};
use lg_base::{Bytes, Host, Items, Memory, Name};
use std::alloc::Global;

/// Exactly so many bytes, written in hexadecimal digits.
pub fn bytes_of<const N: usize>(alloc: Global, text: &str) -> Option<[u8; N]> {
    let bytes = hex::decode(alloc, text).ok()?;
    <[u8; N]>::try_from(bytes.as_slice()).ok()
}

fn salted(thousands: &str, salt: &str, sum: &str) -> Option<Stored> {
    Some(Stored::Sha2(Sha2Stored {
        thousands: thousands.parse::<u16>().ok()?,
        salt: <[u8; 20]>::try_from(salt.as_bytes()).ok()?,
        sum: <[u8; 43]>::try_from(sum.as_bytes()).ok()?,
    }))
}

/// What is stored of a password.
pub fn stored_of(alloc: Global, text: &str) -> Option<Stored> {
    let words: Vec<&str> = text.split(',').collect(alloc).ok()?;
    match words.as_slice() {
        ["empty"] => Some(Stored::Empty),
        ["native", hash] => Some(Stored::Native(bytes_of(alloc, hash)?)),
        ["sha2", thousands, salt, sum] => salted(thousands, salt, sum),
        _ => None,
    }
}

fn credential_of(alloc: Global, text: &str) -> Option<Credential> {
    let (stored, digest) = text.split_once('|')?;
    Some(Credential {
        id: 1,
        stored: stored_of(alloc, stored)?,
        digest: bytes_of(alloc, digest),
    })
}

fn labels_of(alloc: Global, text: &str) -> Result<Items<Bytes>, Memory> {
    let mut labels = Items::new(alloc);
    if text == "-" {
        return Ok(labels);
    }
    for label in text.split(',') {
        labels.push(Bytes::copy(alloc, label.as_bytes())?)?;
    }
    Ok(labels)
}

/// A look at a user.
pub fn look(alloc: Global, primary: &str, secondary: &str, labels: &str) -> Result<Look, Memory> {
    let labels = labels_of(alloc, labels)?;
    let name = Name {
        user: Bytes::copy(alloc, b"ann")?,
        host: Host::Localhost,
    };
    let in_force = credential_of(alloc, primary).map(|primary| InForce {
        account: 3,
        name,
        method: Method::Native,
        primary,
        secondary: credential_of(alloc, secondary),
        labels,
        past: Items::new(alloc),
    });
    Ok(Look {
        user: Bytes::copy(alloc, b"ann")?,
        stamp: 7,
        in_force,
    })
}
