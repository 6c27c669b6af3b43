//! An account with its options, and the settings of the server that its default options take.

use factor_chain::{Method, PastRecord, Stored};
use lg_base::{Bytes, Items, Name};
use login_lock::LockRule;

/// How long a password lasts: PASSWORD EXPIRE.
#[derive(Clone, Copy, Debug, PartialEq, Eq)]
pub enum Lifetime {
    /// The server's setting.
    Default,
    /// For ever.
    Never,
    /// So many days.
    Days(u16),
}

/// A limit on the reuse of passwords: PASSWORD HISTORY, PASSWORD REUSE INTERVAL.
#[derive(Clone, Copy, Debug, PartialEq, Eq)]
pub enum Limit {
    /// The server's setting.
    Default,
    /// So many passwords or days.
    Count(u16),
}

/// An account. Moments are seconds, and its past passwords stand newest first.
#[derive(Debug, Drop)]
pub struct Account {
    pub id: u64,
    pub name: Name,
    pub method: Method,
    pub primary: Stored,
    pub primary_id: u64,
    /// The secondary password with its number.
    pub secondary: Option<(Stored, u64)>,
    /// The labels of the factors after the first.
    pub labels: Items<Bytes>,
    /// When the password was last changed.
    pub changed: u64,
    /// Whether the password was set to expired.
    pub expired: bool,
    pub lifetime: Lifetime,
    pub history: Limit,
    pub reuse: Limit,
    pub lock: LockRule,
    /// ACCOUNT LOCK.
    pub locked: bool,
    pub create_user: bool,
    /// APPLICATION_PASSWORD_ADMIN.
    pub password_admin: bool,
    pub past: Items<PastRecord>,
}

/// The server's settings: `default_password_lifetime` in days, where 0 is for ever,
/// `disconnect_on_expired_password`, `password_history` and `password_reuse_interval`.
#[derive(Clone, Copy, Debug, PartialEq, Eq)]
pub struct Settings {
    pub lifetime: u16,
    pub disconnect: bool,
    pub history: u16,
    pub reuse: u16,
}
