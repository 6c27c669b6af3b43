//! The calls that the desk serves, and what they are answered.

use account_history::{Prepared, StmtReply, Who};
use factor_chain::{Checked, Evidences};
use std::alloc::Global;
use stmt_rules::Statement;

/// What a call that was prepared on a look is answered.
#[derive(Drop)]
pub enum Outcome<R> {
    Done(R),
    /// The user's stamp is this greater one.
    Stale(u64),
}

/// What a statement is answered, and the keeper's count of faults after it.
#[derive(Drop)]
pub struct Ran {
    pub reply: StmtReply,
    pub count: u64,
}

/// A look at an account.
#[derive(Drop)]
pub struct LookCall<'a> {
    pub alloc: Global,
    pub who: &'a Who,
}

/// An attempt whose evidence was checked on a look.
#[derive(Drop)]
pub struct AttemptCall<'a> {
    pub checked: &'a Checked,
    pub flags: u32,
    pub reading: u64,
}

/// An attempt that is checked in the turn.
#[derive(Drop)]
pub struct LockedAttemptCall<'a> {
    pub user: &'a [u8],
    pub evidences: &'a Evidences,
    pub flags: u32,
    pub reading: u64,
}

/// A statement that was prepared on a look.
#[derive(Drop)]
pub struct CommitCall<'a> {
    pub alloc: Global,
    pub prepared: &'a Prepared,
    pub actor: u64,
    pub reading: u64,
}

/// A statement that is prepared in the turn.
#[derive(Drop)]
pub struct LockedCommitCall<'a> {
    pub alloc: Global,
    pub statement: &'a Statement,
    pub salt: &'a [u8; 20],
    pub actor: u64,
    pub reading: u64,
}
