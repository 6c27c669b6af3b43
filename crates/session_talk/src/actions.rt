//! What a session does next.

use crate::ends::SessionEnd;
use account_history::{Prepared, Who};
use factor_chain::{Checked, Evidences, Look};
use lg_base::{Bytes, Items};
use stmt_rules::Statement;

/// What a session asks for. Exactly one answer is given to it.
#[derive(Debug, Drop)]
pub enum Ask {
    /// A packet whose sequence id is `want`.
    Read {
        want: u8,
    },
    /// A fresh nonce.
    Draw,
    /// A look at an account.
    Observe(Who),
    /// The look once more, after a stale answer.
    Renew(Who),
    /// The check of evidence on a look.
    Check {
        look: Look,
        evidences: Evidences,
    },
    /// The settling of an attempt.
    Settle {
        checked: Checked,
        flags: u32,
    },
    /// The settling of an attempt whose evidence is checked in the same step.
    SettleLocked {
        user: Bytes,
        evidences: Evidences,
        flags: u32,
    },
    /// The preparing of a CREATE USER or an ALTER USER on a look at the account that it is about, for the account with
    /// the number `actor`.
    Prepare {
        look: Look,
        statement: Statement,
        salt: [u8; 20],
        actor: u64,
    },
    /// The execution of a statement that was prepared.
    Commit {
        prepared: Prepared,
        actor: u64,
    },
    /// The execution of a CREATE USER or an ALTER USER that is prepared in the same step.
    CommitLocked {
        statement: Statement,
        salt: [u8; 20],
        actor: u64,
    },
    /// The execution of a statement that has nothing to prepare.
    CommitPlain {
        statement: Statement,
        actor: u64,
    },
    /// Nothing: the session has ended.
    Ended(SessionEnd),
}

/// What a session does on an input: it sends payloads, the first with the sequence id `first`, and then asks.
#[derive(Debug, Drop)]
pub struct Action {
    pub first: u8,
    pub send: Items<Bytes>,
    pub ask: Ask,
}
