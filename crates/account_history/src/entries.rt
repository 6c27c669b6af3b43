//! The entries of a history. A program makes none of these values but the parts of an entry that it is
//! given or answers: the history itself is what contracts see.

use account_rules::{Account, Settings};
use factor_chain::{Evidences, Look};
use lg_base::{Bytes, Code, Host, Items, Name};
use login_lock::LockRule;
use stmt_rules::Statement;

/// Whose account is looked at.
#[derive(Debug, Drop)]
pub enum Who {
    /// The account in force for a user that logs in.
    Login(Bytes),
    /// The account of exactly this name.
    Account(Name),
    /// The account with this number.
    Own(u64),
}

/// An account that stands from the start.
#[derive(Debug, Drop)]
pub struct Opening {
    pub user: Bytes,
    pub password: Bytes,
}

/// What an attempt to log in is answered.
#[derive(Clone, Copy, Debug, PartialEq, Eq)]
pub enum Reply {
    /// A session opens on this account.
    Opened { account: u64, host: Host },
    /// A session opens, and may do nothing before the password was changed.
    Sandbox { account: u64, host: Host },
    /// The lock after failed logins is in force. `left` is the days until it ends, or 0 for a lock without
    /// end.
    Blocked { rule: LockRule, left: u32 },
    /// The evidence doesn't fit, or there is no account.
    Denied { using_password: bool },
    /// The account is locked by ACCOUNT LOCK.
    Locked,
    /// The password has expired.
    MustChange,
}

/// One attempt to log in: the user, the evidence of each factor, the client's capability flags, the reading
/// of the clock, and the reply.
#[derive(Debug, Drop)]
pub struct Attempt {
    pub user: Bytes,
    pub evidences: Evidences,
    pub flags: u32,
    pub reading: u64,
    pub reply: Reply,
}

/// What an account statement is answered.
#[derive(Debug, PartialEq, Eq, Drop)]
pub enum StmtReply {
    /// It was done.
    Done,
    /// It was refused with this error, and changed no account.
    Refused(Code),
}

/// One account statement that was executed.
#[derive(Debug, Drop)]
pub struct Execution {
    pub statement: Statement,
    /// The salt that a new password of the caching method takes.
    pub salt: [u8; 20],
    /// The number of the account that asked for it.
    pub actor: u64,
    /// The reading of the clock.
    pub reading: u64,
    /// The count of faults of the keeper of the accounts, after the statement.
    pub count: u64,
    /// Whether the keeper was called, and whether that call failed.
    pub called: bool,
    pub failed: bool,
    pub reply: StmtReply,
}

/// One entry of a history.
#[derive(Debug, Drop)]
pub enum Entry {
    /// An account was looked at, and this was seen.
    Observed { who: Who, look: Look },
    /// An attempt to log in.
    Attempted(Attempt),
    /// An account statement was executed.
    Executed(Execution),
}

/// An entry with its maker: the number of the session that made it, as a list of numbers.
#[derive(Debug, Drop)]
pub struct MadeEntry {
    pub maker: Items<u64>,
    pub entry: Entry,
}

/// Where a history starts: the accounts in ascending order of their numbers, the settings, and the count of
/// faults of the keeper of the accounts.
#[derive(Debug, Drop)]
pub struct Start {
    pub accounts: Items<Account>,
    pub settings: Settings,
    pub count: u64,
}

/// A history as a list: its start and its entries, oldest first.
#[derive(Debug, Drop)]
pub struct Log {
    pub start: Start,
    pub entries: Items<Entry>,
}
