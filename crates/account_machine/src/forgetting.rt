//! The digests that a statement clears.

ghost use Rattle.account_machine.specs.Digesting.{cleared_numbers, forgets, is_among, numbers_of};
ghost use Rattle.digest_cache.specs.Cache.{digest_of};
ghost use Rattle.std.specs.Prelude.{◌≡◌, ◌≤◌, ◌*◌, ◌+◌, ℕ, if◌then◌else◌, None, Some, IfOk, OnErr, length, option_copied};

use crate::clearing::{is_change, is_flush};
use account_rules::Account;
use digest_cache::Digests;
use lg_base::Memory;
use stmt_rules::Statement;

/// Makes room for a digest of each password of so many accounts, which have at most two each. No digest changes.
pub fn make_room(digests: &mut Digests, accounts: usize) -> Result<(), Memory>
    ensures kept { digests.new.entries ≡ digests.old.entries }
    ensures room { IfOk result (λ _. 2 * accounts ≤ digests.new.spare) }
    ensures stays { digests.old.spare ≤ digests.new.spare }
{
    match accounts.checked_mul(2) {
        Some(most) => digests.reserve(most),
        None => Err(Memory),
    }
}

/// The numbers of the passwords of an account.
fn numbers_of(account: Option<&Account>) -> Option<(u64, Option<u64>)>
    ensures { result ≡ numbers_of (option_copied account.entry) }
{
    match account {
        Some(account) => match account.secondary {
            Some((_, id)) => Some((account.primary_id, Some(id))),
            None => Some((account.primary_id, None)),
        },
        None => None,
    }
}

/// The numbers of the passwords that a statement clears, by the account that it is about.
pub fn cleared_numbers(
    statement: &Statement,
    target: Option<&Account>,
) -> Option<(u64, Option<u64>)>
    ensures { result ≡ cleared_numbers statement.now (option_copied target.entry) }
{
    match statement {
        Statement::Create { .. } => numbers_of(target),
        Statement::Alter { change, .. } => {
            if is_change(change) {
                numbers_of(target)
            } else {
                None
            }
        }
        Statement::Drop { .. } => numbers_of(target),
        Statement::Flush => None,
        Statement::Grant { .. } => None,
        Statement::Revoke { .. } => None,
    }
}

/// Takes out the digests of these passwords.
fn take_out(digests: &mut Digests, cleared: Option<(u64, Option<u64>)>)
    ensures kept { (q : ℕ) → digest_of digests.new q ≡ (if is_among cleared q then None else digest_of digests.old q) }
    ensures room { digests.old.spare ≤ digests.new.spare }
{
    match cleared {
        Some((primary, secondary)) => {
            digests.remove(primary);
            match secondary {
                Some(id) => digests.remove(id),
                None => {}
            }
        }
        None => {}
    }
}

/// Takes out the digests that a statement clears: those of these passwords, and all with FLUSH PRIVILEGES.
pub fn forget(digests: &mut Digests, statement: &Statement, cleared: Option<(u64, Option<u64>)>)
    ensures kept { (q : ℕ) → digest_of digests.new q ≡ (if forgets statement.now cleared q then None else digest_of digests.old q) }
    ensures room { digests.old.spare ≤ digests.new.spare }
{
    if is_flush(statement) {
        digests.clear_all();
        return;
    }
    take_out(digests, cleared)
}
