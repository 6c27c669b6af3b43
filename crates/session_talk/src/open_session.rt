//! A session that has opened.

use lg_base::Name;

/// What a session knows of itself once an attempt has opened it.
#[derive(Debug, Drop)]
pub struct OpenSession {
    /// The number of the account that it opened on.
    pub account: u64,
    /// The user that logged in, and the host of the account.
    pub name: Name,
    /// Whether the password has expired: nothing is done before it was changed.
    pub sandbox: bool,
    /// The client's capability flags.
    pub flags: u32,
    /// How many commands may still be done.
    pub left: u32,
}
