//! What the statements say: the values that texts are read to, and printed from.
//!
//! MySQL 8.0 Reference Manual, "CREATE USER Statement", "ALTER USER Statement", "DROP USER Statement",
//! "FLUSH Statement", "GRANT Statement" and "REVOKE Statement".

use lg_base::{Bytes, Items, Name};

/// The account that an `ALTER USER` changes.
#[derive(Debug, Drop)]
pub enum Target {
    /// `USER()`: the account of the session.
    Own,
    /// The account of this name.
    Named(Name),
}

/// `IDENTIFIED [WITH method] [BY password] [RETAIN CURRENT PASSWORD]`.
#[derive(Debug, Drop)]
pub struct Auth {
    /// The word after WITH, as written.
    pub method: Option<Bytes>,
    /// The password after BY.
    pub password: Option<Bytes>,
    /// Whether RETAIN CURRENT PASSWORD stands, as it may behind BY alone, and in ALTER USER alone.
    pub retain: bool,
}

/// `IDENTIFIED WITH method AS label`, of a second or third factor.
#[derive(Debug, Drop)]
pub struct FactorAuth {
    /// The word after WITH, as written.
    pub method: Bytes,
    /// The label after AS.
    pub label: Bytes,
}

/// What an `ALTER USER` does to the ways of authentication.
#[derive(Debug, Drop)]
pub enum Change {
    /// Options alone stand.
    Nothing,
    /// A new password, a new method, or both.
    Password(Auth),
    /// `DISCARD OLD PASSWORD`.
    Discard,
    /// `ADD n FACTOR`, where n is 2 or 3.
    Add(u8, FactorAuth),
    /// `MODIFY n FACTOR`, where n is 2 or 3.
    Modify(u8, FactorAuth),
    /// `DROP n FACTOR`, where n is 2 or 3.
    DropFactor(u8),
}

/// `PASSWORD EXPIRE`.
#[derive(Clone, Copy, Debug, PartialEq, Eq)]
pub enum Expire {
    /// At once.
    Now,
    /// After the server's default lifetime.
    Default,
    /// Never.
    Never,
    /// So many days after each change.
    Days(u32),
}

/// `PASSWORD HISTORY` and `PASSWORD REUSE INTERVAL`.
#[derive(Clone, Copy, Debug, PartialEq, Eq)]
pub enum Bound {
    /// The server's default.
    Default,
    /// So many passwords, or so many days.
    Count(u32),
}

/// `PASSWORD_LOCK_TIME`.
#[derive(Clone, Copy, Debug, PartialEq, Eq)]
pub enum Time {
    /// So many days.
    Days(u32),
    /// Until the account is unlocked.
    Unbounded,
}

/// The options of an account. Of several of one kind the last one counts.
#[derive(Clone, Copy, Debug, PartialEq, Eq)]
pub struct Options {
    /// `PASSWORD EXPIRE`.
    pub expire: Option<Expire>,
    /// `PASSWORD HISTORY`.
    pub history: Option<Bound>,
    /// `PASSWORD REUSE INTERVAL`.
    pub reuse: Option<Bound>,
    /// `FAILED_LOGIN_ATTEMPTS`.
    pub attempts: Option<u32>,
    /// `PASSWORD_LOCK_TIME`.
    pub lock_time: Option<Time>,
    /// `ACCOUNT LOCK`, or `ACCOUNT UNLOCK` as false.
    pub lock: Option<bool>,
}

/// The privileges that a `GRANT` or a `REVOKE` names.
#[derive(Clone, Copy, Debug, PartialEq, Eq)]
pub struct Privileges {
    /// CREATE USER.
    pub create_user: bool,
    /// APPLICATION_PASSWORD_ADMIN.
    pub password_admin: bool,
}

/// An account statement.
#[derive(Debug, Drop)]
pub enum Statement {
    /// `CREATE USER`, with at most two further factors.
    Create {
        name: Name,
        auth: Option<Auth>,
        factors: Items<FactorAuth>,
        options: Options,
    },
    /// `ALTER USER`, with a change or an option.
    Alter {
        target: Target,
        change: Change,
        options: Options,
    },
    /// `DROP USER`.
    Drop {
        name: Name,
    },
    /// `FLUSH PRIVILEGES`.
    Flush,
    /// `GRANT`, with a privilege.
    Grant {
        privileges: Privileges,
        name: Name,
    },
    /// `REVOKE`, with a privilege.
    Revoke {
        privileges: Privileges,
        name: Name,
    },
}
