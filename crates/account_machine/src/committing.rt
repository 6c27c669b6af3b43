//! What a statement that isn't refused changes in the parts of the machine.

ghost use Rattle.account_history.specs.Legal.{changes_accounts};
ghost use Rattle.account_history.specs.Refusals.{misplaced, new_password, options_fit, options_of};
ghost use Rattle.account_history.specs.Targets.{target_of};
ghost use Rattle.account_machine.specs.Clearing.{cleared_user, raises};
ghost use Rattle.account_machine.specs.Counting.{is_listed, stamp_in};
ghost use Rattle.account_machine.specs.Digesting.{cleared_numbers, forgets};
ghost use Rattle.account_machine.specs.Executing.{NextFits, given_of, kept_after, rows_after};
ghost use Rattle.account_machine.specs.Keeping.{Keeps};
ghost use Rattle.account_machine.specs.Looks.{accounts_of};
ghost use Rattle.digest_cache.specs.Cache.{digest_of};
ghost use Rattle.lg_outside.specs.Faults.{Rose};
ghost use Rattle.std.specs.Prelude.{◌≡◌, ◌≤◌, ◌<◌, ◌^◌, ◌+◌, ◌*◌, ◌&&◌, length, true, false, None, IfSome, IfOk, OnErr, ℕ, List, if◌then◌else◌};

use crate::clearing::{cleared_user, list_cleared, raise_stamps};
use crate::executing::{Numbers, execute};
use crate::forgetting::{cleared_numbers, forget, make_room};
use crate::looks::account_at;
use crate::rows::Row;
use crate::stamps::Stamps;
use crate::targets::find_target;
use digest_cache::Digests;
use lg_base::{Bytes, Memory};
use lg_outside::Keeper;
use std::alloc::Global;
use stmt_rules::Statement;

/// The number of changes with one more, or want of memory at the end of its type.
pub fn next_change(changes: u64) -> Result<u64, Memory>
    ensures { IfOk result (λ next. next ≡ changes + 1) }
{
    if changes == u64::MAX {
        return Err(Memory);
    }
    Ok(changes + 1)
}

/// Lists the user whose accounts a statement clears, so that raising its stamp takes no memory. No stamp changes.
fn list_user(
    alloc: Global,
    rows: &[Row],
    stamps: &mut Stamps,
    statement: &Statement,
    actor: u64,
) -> Result<Option<Bytes>, Memory>
    ensures user { IfOk result (λ user. user ≡ cleared_user statement.now (target_of (accounts_of rows.now) statement.now actor)) }
    ensures same { (other : List ℕ) → stamp_in stamps.new other ≡ stamp_in stamps.old other }
    ensures listed { IfOk result (λ user. IfSome user (λ name. is_listed stamps.new.users.items name ≡ true)) }
{
    let target = account_at(rows, find_target(rows, statement, actor));
    let cleared = cleared_user(alloc, statement, target)?;
    list_cleared(alloc, stamps, &cleared)?;
    Ok(cleared)
}

/// The numbers of the passwords that a statement clears.
fn forgotten_numbers(rows: &[Row], statement: &Statement, actor: u64) -> Option<(u64, Option<u64>)>
    ensures { result ≡ cleared_numbers statement.now (target_of (accounts_of rows.now) statement.now actor) }
{
    let target = account_at(rows, find_target(rows, statement, actor));
    cleared_numbers(statement, target)
}

/// Does a statement that isn't refused, raises the stamps that it raises, and takes out the digests that it clears. False
/// where the keeper failed, and then no row, no stamp and no digest changes. There is room for the digests of all
/// passwords then.
pub fn perform<K: Keeper>(
    alloc: Global,
    rows: &mut Vec<Row>,
    stamps: &mut Stamps,
    digests: &mut Digests,
    numbers: &Numbers,
    statement: &Statement,
    salt: &[u8; 20],
    actor: u64,
    now: u64,
    keeper: &mut K,
) -> Result<bool, Memory>
    requires placed { misplaced statement.now (target_of (accounts_of rows.old.items) statement.now actor) ≡ None }
    requires account { numbers.now.account + 1 < 2 ^ 64 }
    requires credential { numbers.now.credential + 1 < 2 ^ 64 }
    requires password { length (new_password statement.now) ≤ 256 }
    requires options { options_fit (options_of statement.now) ≡ true }
    requires room { (user : List ℕ) → stamp_in stamps.old user + 1 < 2 ^ 64 }
    requires fits { NextFits statement.now (given_of numbers.now) actor salt.now now (accounts_of rows.old.items) }
    ensures done { IfOk result (λ done. rows.new.items ≡ (if done then rows_after statement.now (given_of numbers.now) actor salt.now now rows.old.items else rows.old.items)) }
    ensures stamps { IfOk result (λ done. (user : List ℕ) → stamp_in stamps.new user
        ≡ (if done && raises statement.now (cleared_user statement.now (target_of (accounts_of rows.old.items) statement.now actor)) user
        then stamp_in stamps.old user + 1 else stamp_in stamps.old user)) }
    ensures digests { IfOk result (λ done. (q : ℕ) → digest_of digests.new q
        ≡ (if done && forgets statement.now (cleared_numbers statement.now (target_of (accounts_of rows.old.items) statement.now actor)) q
        then None else digest_of digests.old q)) }
    ensures room { IfOk result (λ _. 2 * (length rows.old.items + 1) ≤ digests.new.spare) }
    ensures err { OnErr result (rows.new.items ≡ rows.old.items) }
    ensures err_digests { OnErr result ((q : ℕ) → digest_of digests.new q ≡ digest_of digests.old q) }
    ensures stays { digests.old.spare ≤ digests.new.spare }
    ensures err_stamps { OnErr result ((user : List ℕ) → stamp_in stamps.new user ≡ stamp_in stamps.old user) }
    ensures kept { Keeps (kept_after statement.now (given_of numbers.now) actor salt.now now (accounts_of rows.old.items)) (K.told_rows keeper.old) (K.told_rows keeper.new) result }
    ensures called { IfOk result (λ done. done ≡ false → changes_accounts statement.now ≡ true) }
    ensures uncalled { changes_accounts statement.now ≡ false → keeper.new ≡ keeper.old }
    ensures cause { IfOk result (λ done. done ≡ false → Rose (K.fault_count keeper.old) (K.fault_count keeper.new)) }
    ensures rising { K.fault_count keeper.old ≤ K.fault_count keeper.new }
    ensures err_count { OnErr result (K.fault_count keeper.new ≡ K.fault_count keeper.old) }
{
    let cleared = list_user(alloc, rows.as_slice(), stamps, statement, actor)?;
    let forgotten = forgotten_numbers(rows.as_slice(), statement, actor);
    make_room(digests, rows.len() + 1)?;
    let done = execute(alloc, rows, numbers, statement, salt, actor, now, keeper)?;
    if done {
        raise_stamps(stamps, statement, &cleared);
        forget(digests, statement, forgotten);
        return Ok(true);
    }
    Ok(false)
}
