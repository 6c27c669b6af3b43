//! Account names: a user and the host that it connects from.
//!
//! MySQL 8.0 Reference Manual, "Specifying Account Names". Two hosts are known here, `localhost` and
//! the pattern `%` for any host.

use crate::byte_list::Bytes;

/// The host part of an account name.
#[derive(Clone, Copy, Debug, PartialEq, Eq)]
pub enum Host {
    /// `localhost`.
    Localhost,
    /// `%`, any host.
    Any,
}

/// An account name, as in `'user'@'localhost'`. Users are compared byte by byte.
#[derive(Debug, PartialEq, Eq, Drop)]
pub struct Name {
    pub user: Bytes,
    pub host: Host,
}
