//! What a statement asks for before it is executed, whether it is one that can be, and what its reply tells of the keeper.

ghost use Rattle.account_history.specs.Given.{is_done};
ghost use Rattle.account_history.specs.Legal.{changes_accounts};
ghost use Rattle.account_history.specs.Preparing.{is_preparable, who_of};
ghost use Rattle.account_history.specs.Sound.{AddsAtMostThird, IsWritten};
ghost use Rattle.account_history.specs.Refusals.{retains};
ghost use Rattle.sha256_crypt.specs.Alphabet.{IsSaltByte};
ghost use Rattle.std.specs.List.{All};
ghost use Rattle.std.specs.Prelude.{◌≡◌, ◌↔◌, false, IfOk, IsTrue};
ghost use Rattle.session_talk.specs.Statements.{no_salt};
ghost use Rattle.world_table.specs.Statements.{has_by, is_keeper_fault, was_called};

use account_history::setting::auth_of;
use account_history::{StmtReply, Who};
use lg_base::{Bytes, Code, Memory, Name};
use std::alloc::Global;
use stmt_rules::{Auth, Change, Statement, Target};

/// Whether a statement is one that is prepared: a CREATE USER or an ALTER USER.
pub fn is_preparable(statement: &Statement) -> bool
    ensures { result ≡ is_preparable statement.now }
{
    match statement {
        Statement::Create { .. } => true,
        Statement::Alter { .. } => true,
        Statement::Drop { .. } => false,
        Statement::Flush => false,
        Statement::Grant { .. } => false,
        Statement::Revoke { .. } => false,
    }
}

/// Whether a CREATE USER's password retains none.
fn retains_none(auth: &Option<Auth>) -> bool
    ensures { IsTrue result ↔ (retains auth.now ≡ false) }
{
    match auth {
        Some(auth) => !auth.retain,
        None => true,
    }
}

/// Whether a factor that is added is the second or the third.
fn adds_at_most_third(change: &Change) -> bool
    ensures { IsTrue result ↔ AddsAtMostThird change.now }
{
    match change {
        Change::Add(number, _) => *number <= 3,
        Change::Nothing => true,
        Change::Password(_) => true,
        Change::Discard => true,
        Change::Modify(_, _) => true,
        Change::DropFactor(_) => true,
    }
}

/// Whether a statement is as the grammar has each: a CREATE USER retains no password and has at most two further factors, and
/// none is added behind the third.
pub fn is_written(statement: &Statement) -> bool
    ensures { IsTrue result ↔ IsWritten statement.now }
{
    match statement {
        Statement::Create { auth, factors, .. } => retains_none(auth) && factors.len() <= 2,
        Statement::Alter { change, .. } => adds_at_most_third(change),
        Statement::Drop { .. } => true,
        Statement::Flush => true,
        Statement::Grant { .. } => true,
        Statement::Revoke { .. } => true,
    }
}

/// The salt of a statement that draws none.
pub fn no_salt() -> [u8; 20]
    ensures dots { result ≡ no_salt }
    ensures letters { All IsSaltByte result }
{
    *b"...................."
}

/// Whether a byte is of the alphabet of salts, `./0-9A-Za-z`.
#[tactic(auto, unfolding(sha256_crypt::specs::Alphabet::IsSaltByte))]
fn is_letter(byte: u8) -> bool
    ensures { IsTrue result ↔ IsSaltByte byte }
{
    matches!(byte, b'.'..=b'9' | b'A'..=b'Z' | b'a'..=b'z')
}

/// Whether all bytes are of the alphabet of salts.
pub fn is_salt(salt: &[u8; 20]) -> bool
    ensures { IsTrue result ↔ All IsSaltByte salt.now }
{
    salt.iter().all(|&byte| is_letter(byte))
}

fn copied(alloc: Global, name: &Name) -> Result<Name, Memory>
    ensures { IfOk result (λ copy. copy ≡ name.now) }
{
    Ok(Name {
        user: Bytes::copy(alloc, name.user.as_slice())?,
        host: name.host,
    })
}

/// The account that a statement is about, where the account with the number `actor` asks for it.
pub fn who_of(alloc: Global, actor: u64, statement: &Statement) -> Result<Who, Memory>
    ensures { IfOk result (λ who. who ≡ who_of actor statement.now) }
{
    match statement {
        Statement::Create { name, .. } => Ok(Who::Account(copied(alloc, name)?)),
        Statement::Alter { target, .. } => match target {
            Target::Own => Ok(Who::Own(actor)),
            Target::Named(name) => Ok(Who::Account(copied(alloc, name)?)),
        },
        Statement::Drop { name } => Ok(Who::Account(copied(alloc, name)?)),
        Statement::Flush => Ok(Who::Own(actor)),
        Statement::Grant { name, .. } => Ok(Who::Account(copied(alloc, name)?)),
        Statement::Revoke { name, .. } => Ok(Who::Account(copied(alloc, name)?)),
    }
}

/// Whether a statement has a password behind BY.
pub fn has_by(statement: &Statement) -> bool
    ensures { result ≡ has_by statement.now }
{
    match auth_of(statement) {
        Some(auth) => auth.password.is_some(),
        None => false,
    }
}

/// Whether a statement changes an account. FLUSH PRIVILEGES doesn't.
fn changes_accounts(statement: &Statement) -> bool
    ensures { result ≡ changes_accounts statement.now }
{
    match statement {
        Statement::Create { .. } => true,
        Statement::Alter { .. } => true,
        Statement::Drop { .. } => true,
        Statement::Flush => false,
        Statement::Grant { .. } => true,
        Statement::Revoke { .. } => true,
    }
}

/// Whether the keeper failed, by what a statement was answered.
pub fn is_keeper_fault(reply: &StmtReply) -> bool
    ensures { result ≡ is_keeper_fault reply.now }
{
    match reply {
        StmtReply::Done => false,
        StmtReply::Refused(code) => match code {
            Code::KeeperFault => true,
            _ => false,
        },
    }
}

fn is_done(reply: &StmtReply) -> bool
    ensures { result ≡ is_done reply.now }
{
    match reply {
        StmtReply::Done => true,
        StmtReply::Refused(_) => false,
    }
}

/// Whether the keeper was called for a statement, by what that was answered.
pub fn was_called(reply: &StmtReply, statement: &Statement) -> bool
    ensures { result ≡ was_called reply.now statement.now }
{
    (is_done(reply) || is_keeper_fault(reply)) && changes_accounts(statement)
}
