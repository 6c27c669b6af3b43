//! Whose stamp a statement raises.

ghost use Rattle.account_history.specs.Stamps.{is_change};
ghost use Rattle.account_machine.specs.Clearing.{cleared_user, is_flush, is_user, raises};
ghost use Rattle.account_machine.specs.Counting.{is_listed, stamp_in};
ghost use Rattle.std.specs.Prelude.{◌≡◌, ◌+◌, ◌<◌, ◌^◌, ℕ, List, true, IfOk, OnOk, IfSome, option_copied, if◌then◌else◌};

use crate::stamps::Stamps;
use account_rules::Account;
use lg_base::{Bytes, Memory};
use std::alloc::Global;
use stmt_rules::{Change, Statement};

pub fn is_change(change: &Change) -> bool
    ensures { result ≡ is_change change.now }
{
    match change {
        Change::Nothing => false,
        Change::Password(_) => true,
        Change::Discard => true,
        Change::Add(..) => true,
        Change::Modify(..) => true,
        Change::DropFactor(_) => true,
    }
}

fn copy_user(alloc: Global, user: &Bytes) -> Result<Option<Bytes>, Memory>
    ensures { IfOk result (λ made. made ≡ Some user.now) }
{
    Ok(Some(Bytes::copy(alloc, user.as_slice())?))
}

/// The user whose accounts a statement clears, by the account that it is about.
pub fn cleared_user(
    alloc: Global,
    statement: &Statement,
    target: Option<&Account>,
) -> Result<Option<Bytes>, Memory>
    ensures { IfOk result (λ made. made ≡ cleared_user statement.now (option_copied target.entry)) }
{
    match statement {
        Statement::Create { name, .. } => copy_user(alloc, &name.user),
        Statement::Alter { change, .. } => {
            if !is_change(change) {
                return Ok(None);
            }
            match target {
                Some(account) => copy_user(alloc, &account.name.user),
                None => Ok(None),
            }
        }
        Statement::Drop { name } => copy_user(alloc, &name.user),
        Statement::Flush => Ok(None),
        Statement::Grant { .. } => Ok(None),
        Statement::Revoke { .. } => Ok(None),
    }
}

pub fn is_flush(statement: &Statement) -> bool
    ensures { result ≡ is_flush statement.now }
{
    match statement {
        Statement::Create { .. } => false,
        Statement::Alter { .. } => false,
        Statement::Drop { .. } => false,
        Statement::Flush => true,
        Statement::Grant { .. } => false,
        Statement::Revoke { .. } => false,
    }
}

/// Lists the user whose accounts are cleared, so that raising its stamp takes no memory. No stamp changes.
pub fn list_cleared(
    alloc: Global,
    stamps: &mut Stamps,
    cleared: &Option<Bytes>,
) -> Result<(), Memory>
    ensures same { (other : List ℕ) → stamp_in stamps.new other ≡ stamp_in stamps.old other }
    ensures listed { OnOk result (IfSome cleared.now (λ user. is_listed stamps.new.users.items user ≡ true)) }
{
    match cleared {
        Some(user) => stamps.list(alloc, user.as_slice()),
        None => Ok(()),
    }
}

/// Raises the stamps that a statement raises.
pub fn raise_stamps(stamps: &mut Stamps, statement: &Statement, cleared: &Option<Bytes>)
    requires listed { IfSome cleared.now (λ user. is_listed stamps.old.users.items user ≡ true) }
    requires room { (user : List ℕ) → stamp_in stamps.old user + 1 < 2 ^ 64 }
    ensures { (user : List ℕ) → stamp_in stamps.new user
        ≡ (if raises statement.now cleared.now user then stamp_in stamps.old user + 1 else stamp_in stamps.old user) }
{
    if is_flush(statement) {
        stamps.raise_all();
        return;
    }
    match cleared {
        Some(user) => stamps.raise(user.as_slice()),
        None => {}
    }
}
