//! What is kept of passwords, and what a look at an account shows.

use caching_sha2::Sha2Stored;
use lg_base::{Bytes, Items, Name};

/// The method of an account's first factor.
#[derive(Clone, Copy, Debug, PartialEq, Eq)]
pub enum Method {
    /// `mysql_native_password`.
    Native,
    /// `caching_sha2_password`.
    CachingSha2,
}

/// What is stored of a password.
#[derive(Clone, Copy, Debug, PartialEq, Eq)]
pub enum Stored {
    /// The empty password, of either method.
    Empty,
    /// SHA1(SHA1(password)), of `mysql_native_password`.
    Native([u8; 20]),
    /// The salted sum of `caching_sha2_password`.
    Sha2(Sha2Stored),
}

/// A password of an account: its number, what is stored of it, and its digest where that is known.
#[derive(Clone, Copy, Debug, PartialEq, Eq)]
pub struct Credential {
    pub id: u64,
    pub stored: Stored,
    pub digest: Option<[u8; 32]>,
}

/// A password that an account had, and the moment at which it was set.
#[derive(Clone, Copy, Debug, PartialEq, Eq)]
pub struct PastRecord {
    pub moment: u64,
    pub stored: Stored,
}

/// The account that is in force for a user: its number, name and method, its passwords, the labels of its
/// further factors, and its past passwords, newest first.
#[derive(Debug, Drop)]
pub struct InForce {
    pub account: u64,
    pub name: Name,
    pub method: Method,
    pub primary: Credential,
    pub secondary: Option<Credential>,
    pub labels: Items<Bytes>,
    pub past: Items<PastRecord>,
}

/// What was seen of a user: the stamp, which rises with each change of the user's credentials, and the
/// account in force, if any.
#[derive(Debug, Drop)]
pub struct Look {
    pub user: Bytes,
    pub stamp: u64,
    pub in_force: Option<InForce>,
}
