//! A statement that isn't refused is done: the keeper is called, and then the rows change.

ghost use Rattle.account_history.specs.Effects.{created, with_changed, without};
ghost use Rattle.account_history.specs.Given.{given_after, given_in_change};
ghost use Rattle.account_history.specs.Legal.{changes_accounts};
ghost use Rattle.account_history.specs.Refusals.{auth_of, is_bad_password, misplaced, new_password, new_password_in, options_fit, options_of};
ghost use Rattle.account_history.specs.Targets.{is_named_by, target_of};
ghost use Rattle.account_keeper.specs.Record.{FitsRecord, record_text};
ghost use Rattle.account_machine.specs.Executing.{NextFits, clears_of, given_of, kept_after, next_of, no_failures, put_account, put_target, remove_target, row_with, rows_after, rows_changed};
ghost use Rattle.account_machine.specs.Keeping.{Keeps};
ghost use Rattle.account_machine.specs.Looks.{accounts_of};
ghost use Rattle.account_machine.specs.Targets.{place_of_target};
ghost use Rattle.lg_outside.specs.Faults.{Rose};
ghost use Rattle.lg_outside.specs.Keeping.{put_row, remove_row};
ghost use Rattle.std.specs.Prelude.{◌≡◌, ◌≤◌, ◌<◌, ◌^◌, ◌+◌, ◌++◌, ◌∷◌, [], length, map, true, false, is_some, IfSome, Some, None, IfOk, OnErr, ℕ, if◌then◌else◌};

use crate::effects::{begun_account, change, copy_account, grant, labels_of, revoke, set_password};
use crate::keeping::{add, replace, take_away};
use crate::options::{clear_failures, set_options};
use crate::rows::Row;
use crate::targets::find_target;
use account_rules::Account;
use lg_base::{Memory, Name};
use lg_outside::Keeper;
use login_lock::Tally;
use std::alloc::Global;
use stmt_rules::{Auth, Change, FactorAuth, Options, Statement};

/// The greatest numbers of an account and of a password that were ever given.
#[derive(Clone, Copy, Debug, PartialEq, Eq)]
pub struct Numbers {
    pub account: u64,
    pub credential: u64,
}

/// The account that CREATE USER makes.
pub fn created(
    alloc: Global,
    numbers: &Numbers,
    name: &Name,
    auth: &Option<Auth>,
    factors: &[FactorAuth],
    options: &Options,
    salt: &[u8; 20],
    now: u64,
) -> Result<Account, Memory>
    requires account { numbers.now.account + 1 < 2 ^ 64 }
    requires credential { numbers.now.credential + 1 < 2 ^ 64 }
    requires password { length (new_password_in auth.now) ≤ 256 }
    requires options { options_fit options.now ≡ true }
    ensures { IfOk result (λ made. made ≡ created (given_of numbers.now) salt.now now name.now auth.now factors.now options.now) }
{
    let mut account = begun_account(alloc, numbers.account + 1, name)?;
    let id = numbers.credential + 1;
    match auth {
        Some(auth) => set_password(alloc, &mut account, auth, id, salt, now)?,
        None => {
            let none = Auth {
                method: None,
                password: None,
                retain: false,
            };
            set_password(alloc, &mut account, &none, id, salt, now)?
        }
    }
    account.labels = labels_of(alloc, factors)?;
    set_options(&mut account, options);
    Ok(account)
}

/// An account after a statement that changes it.
fn next_account(
    alloc: Global,
    numbers: &Numbers,
    account: &Account,
    statement: &Statement,
    salt: &[u8; 20],
    now: u64,
) -> Result<Account, Memory>
    requires credential { numbers.now.credential + 1 < 2 ^ 64 }
    requires password { length (new_password statement.now) ≤ 256 }
    requires options { options_fit (options_of statement.now) ≡ true }
    ensures { IfOk result (λ made. made ≡ next_of statement.now (given_of numbers.now) salt.now now account.now) }
{
    let mut next = copy_account(alloc, account)?;
    match statement {
        Statement::Create { .. } => {}
        Statement::Alter {
            change: changed,
            options,
            ..
        } => {
            change(alloc, &mut next, changed, numbers.credential + 1, salt, now)?;
            set_options(&mut next, options);
        }
        Statement::Drop { .. } => {}
        Statement::Flush => {}
        Statement::Grant { privileges, .. } => grant(&mut next, privileges),
        Statement::Revoke { privileges, .. } => revoke(&mut next, privileges),
    }
    Ok(next)
}

/// Whether a statement clears the failures that count against the account that it changes.
fn clears_failures(statement: &Statement) -> bool
    ensures { result ≡ clears_of statement.now }
{
    match statement {
        Statement::Create { .. } => false,
        Statement::Alter { options, .. } => clear_failures(options),
        Statement::Drop { .. } => false,
        Statement::Flush => false,
        Statement::Grant { .. } => false,
        Statement::Revoke { .. } => false,
    }
}

/// A row with the account after a statement that changes it.
fn next_row(
    alloc: Global,
    numbers: &Numbers,
    row: &Row,
    statement: &Statement,
    salt: &[u8; 20],
    now: u64,
) -> Result<Row, Memory>
    requires credential { numbers.now.credential + 1 < 2 ^ 64 }
    requires password { length (new_password statement.now) ≤ 256 }
    requires options { options_fit (options_of statement.now) ≡ true }
    ensures { IfOk result (λ made. made ≡ row_with (clears_of statement.now) (next_of statement.now (given_of numbers.now) salt.now now) row.now) }
{
    let account = next_account(alloc, numbers, &row.account, statement, salt, now)?;
    let tally = if clears_failures(statement) {
        Tally::new()
    } else {
        row.tally
    };
    Ok(Row { account, tally })
}

/// FLUSH PRIVILEGES.
fn clear_rows(rows: &mut [Row])
    ensures { rows.new ≡ map (row_with true (λ a. a)) rows.old }
{
    'rows: for row in rows.iter_mut() {
        row.tally.clear();
    }
}

/// CREATE USER.
fn create<K: Keeper>(
    alloc: Global,
    rows: &mut Vec<Row>,
    account: Account,
    keeper: &mut K,
) -> Result<bool, Memory>
    requires { FitsRecord account }
    ensures done { IfOk result (λ done. rows.new.items ≡ (if done then rows.old.items ++ record { account = account; tally = no_failures } ∷ [] else rows.old.items)) }
    ensures err { OnErr result (rows.new.items ≡ rows.old.items) }
    ensures kept { Keeps (put_account account) (K.told_rows keeper.old) (K.told_rows keeper.new) result }
    ensures cause { IfOk result (λ done. done ≡ false → Rose (K.fault_count keeper.old) (K.fault_count keeper.new)) }
    ensures rising { K.fault_count keeper.old ≤ K.fault_count keeper.new }
    ensures err_count { OnErr result (K.fault_count keeper.new ≡ K.fault_count keeper.old) }
{
    let tally = Tally::new();
    add(alloc, rows, Row { account, tally }, keeper)
}

/// DROP USER.
fn drop_target<K: Keeper>(
    rows: &mut Vec<Row>,
    statement: &Statement,
    actor: u64,
    keeper: &mut K,
) -> Result<bool, Memory>
    requires { is_some (target_of (accounts_of rows.old.items) statement.now actor) ≡ true }
    ensures done { IfOk result (λ done. rows.new.items ≡ (if done then without (λ row. is_named_by statement.now actor row.account) rows.old.items else rows.old.items)) }
    ensures err { OnErr result (rows.new.items ≡ rows.old.items) }
    ensures kept { Keeps (remove_target (target_of (accounts_of rows.old.items) statement.now actor)) (K.told_rows keeper.old) (K.told_rows keeper.new) result }
    ensures cause { IfOk result (λ done. done ≡ false → Rose (K.fault_count keeper.old) (K.fault_count keeper.new)) }
    ensures rising { K.fault_count keeper.old ≤ K.fault_count keeper.new }
    ensures err_count { OnErr result (K.fault_count keeper.new ≡ K.fault_count keeper.old) }
{
    match find_target(rows.as_slice(), statement, actor) {
        Some(place) => {
            let key = rows[place].account.id;
            take_away(rows, place, key, keeper)
        }
        None => unreachable!(),
    }
}

/// ALTER USER, GRANT and REVOKE.
fn change_target<K: Keeper>(
    alloc: Global,
    rows: &mut Vec<Row>,
    numbers: &Numbers,
    statement: &Statement,
    salt: &[u8; 20],
    actor: u64,
    now: u64,
    keeper: &mut K,
) -> Result<bool, Memory>
    requires found { is_some (target_of (accounts_of rows.old.items) statement.now actor) ≡ true }
    requires credential { numbers.now.credential + 1 < 2 ^ 64 }
    requires password { length (new_password statement.now) ≤ 256 }
    requires options { options_fit (options_of statement.now) ≡ true }
    requires fits { IfSome (target_of (accounts_of rows.old.items) statement.now actor)
        (λ a. FitsRecord (next_of statement.now (given_of numbers.now) salt.now now a)) }
    ensures done { IfOk result (λ done. rows.new.items ≡ (if done then rows_changed statement.now (given_of numbers.now) actor salt.now now rows.old.items else rows.old.items)) }
    ensures err { OnErr result (rows.new.items ≡ rows.old.items) }
    ensures kept { Keeps (put_target (next_of statement.now (given_of numbers.now) salt.now now) (target_of (accounts_of rows.old.items) statement.now actor)) (K.told_rows keeper.old) (K.told_rows keeper.new) result }
    ensures cause { IfOk result (λ done. done ≡ false → Rose (K.fault_count keeper.old) (K.fault_count keeper.new)) }
    ensures rising { K.fault_count keeper.old ≤ K.fault_count keeper.new }
    ensures err_count { OnErr result (K.fault_count keeper.new ≡ K.fault_count keeper.old) }
{
    match find_target(rows.as_slice(), statement, actor) {
        Some(place) => {
            let row = next_row(alloc, numbers, &rows[place], statement, salt, now)?;
            replace(alloc, rows, place, row, keeper)
        }
        None => unreachable!(),
    }
}

/// Does a statement that isn't refused. False where the keeper failed, and then no row changes.
pub fn execute<K: Keeper>(
    alloc: Global,
    rows: &mut Vec<Row>,
    numbers: &Numbers,
    statement: &Statement,
    salt: &[u8; 20],
    actor: u64,
    now: u64,
    keeper: &mut K,
) -> Result<bool, Memory>
    requires placed { misplaced statement.now (target_of (accounts_of rows.old.items) statement.now actor) ≡ None }
    requires account { numbers.now.account + 1 < 2 ^ 64 }
    requires credential { numbers.now.credential + 1 < 2 ^ 64 }
    requires password { length (new_password statement.now) ≤ 256 }
    requires options { options_fit (options_of statement.now) ≡ true }
    requires fits { NextFits statement.now (given_of numbers.now) actor salt.now now (accounts_of rows.old.items) }
    ensures done { IfOk result (λ done. rows.new.items ≡ (if done then rows_after statement.now (given_of numbers.now) actor salt.now now rows.old.items else rows.old.items)) }
    ensures err { OnErr result (rows.new.items ≡ rows.old.items) }
    ensures kept { Keeps (kept_after statement.now (given_of numbers.now) actor salt.now now (accounts_of rows.old.items)) (K.told_rows keeper.old) (K.told_rows keeper.new) result }
    ensures called { IfOk result (λ done. done ≡ false → changes_accounts statement.now ≡ true) }
    ensures uncalled { changes_accounts statement.now ≡ false → keeper.new ≡ keeper.old }
    ensures cause { IfOk result (λ done. done ≡ false → Rose (K.fault_count keeper.old) (K.fault_count keeper.new)) }
    ensures rising { K.fault_count keeper.old ≤ K.fault_count keeper.new }
    ensures err_count { OnErr result (K.fault_count keeper.new ≡ K.fault_count keeper.old) }
{
    match statement {
        Statement::Create {
            name,
            auth,
            factors,
            options,
        } => {
            let account = created(
                alloc,
                numbers,
                name,
                auth,
                factors.as_slice(),
                options,
                salt,
                now,
            )?;
            create(alloc, rows, account, keeper)
        }
        Statement::Alter { .. } => {
            change_target(alloc, rows, numbers, statement, salt, actor, now, keeper)
        }
        Statement::Drop { .. } => drop_target(rows, statement, actor, keeper),
        Statement::Flush => {
            clear_rows(rows.as_mut_slice());
            Ok(true)
        }
        Statement::Grant { .. } => {
            change_target(alloc, rows, numbers, statement, salt, actor, now, keeper)
        }
        Statement::Revoke { .. } => {
            change_target(alloc, rows, numbers, statement, salt, actor, now, keeper)
        }
    }
}

/// The greatest numbers after a statement that is done, or want of memory at the end of their type.
pub fn next_numbers(numbers: &Numbers, statement: &Statement) -> Result<Numbers, Memory>
    ensures { IfOk result (λ next. (given_of next ≡ given_after (given_of numbers.now) statement.now)
        × (numbers.now.account + 1 < 2 ^ 64) × (numbers.now.credential + 1 < 2 ^ 64)) }
{
    let account = numbers.account;
    let credential = numbers.credential;
    if account == u64::MAX || credential == u64::MAX {
        return Err(Memory);
    }
    match statement {
        Statement::Create { .. } => Ok(Numbers {
            account: account + 1,
            credential: credential + 1,
        }),
        Statement::Alter { change, .. } => Ok(Numbers {
            account,
            credential: next_credential(credential, change),
        }),
        Statement::Drop { .. } => Ok(*numbers),
        Statement::Flush => Ok(*numbers),
        Statement::Grant { .. } => Ok(*numbers),
        Statement::Revoke { .. } => Ok(*numbers),
    }
}

/// A new password takes the next number.
fn next_credential(credential: u64, change: &Change) -> u64
    requires { credential + 1 < 2 ^ 64 }
    ensures { (account : ℕ) → record { account = account; credential = result } ≡ given_in_change (record { account = account; credential = credential }) change.now }
{
    match change {
        Change::Nothing => credential,
        Change::Password(_) => credential + 1,
        Change::Discard => credential,
        Change::Add(..) => credential,
        Change::Modify(..) => credential,
        Change::DropFactor(_) => credential,
    }
}
