//! The keeper's part of a statement: one record is put or removed, and then the rows change.

ghost use Rattle.account_keeper.specs.Record.{FitsRecord, record_text};
ghost use Rattle.account_machine.specs.Keeping.{Keeps};
ghost use Rattle.lg_outside.specs.Faults.{Rose};
ghost use Rattle.lg_outside.specs.Keeping.{put_row, remove_row};
ghost use Rattle.std.specs.Prelude.{◌≡◌, ◌≤◌, ◌<◌, ◌++◌, ◌∷◌, [], length, remove, false, IfOk, OnErr, if◌then◌else◌, slice_set};

use crate::rows::Row;
use account_keeper::write_record;
use account_rules::Account;
use lg_base::{Memory, Out};
use lg_outside::{KeepFault, Keeper};
use std::alloc::Global;

/// Puts the record of an account. False where the keeper failed.
fn put_account<K: Keeper>(alloc: Global, account: &Account, keeper: &mut K) -> Result<bool, Memory>
    requires { FitsRecord account.now }
    ensures rows { Keeps (put_row account.now.id (record_text account.now)) (K.told_rows keeper.old) (K.told_rows keeper.new) result }
    ensures cause { IfOk result (λ done. done ≡ false → Rose (K.fault_count keeper.old) (K.fault_count keeper.new)) }
    ensures rising { K.fault_count keeper.old ≤ K.fault_count keeper.new }
    ensures err_count { OnErr result (K.fault_count keeper.new ≡ K.fault_count keeper.old) }
{
    let mut text = Out::new(alloc);
    write_record(account, &mut text)?;
    match keeper.put(account.id, text.as_slice()) {
        Ok(()) => Ok(true),
        Err(KeepFault::Failed) => Ok(false),
        Err(KeepFault::Memory) => Err(Memory),
    }
}

/// Removes the record under a key. False where the keeper failed.
fn remove_record<K: Keeper>(key: u64, keeper: &mut K) -> Result<bool, Memory>
    ensures rows { Keeps (remove_row key) (K.told_rows keeper.old) (K.told_rows keeper.new) result }
    ensures cause { IfOk result (λ done. done ≡ false → Rose (K.fault_count keeper.old) (K.fault_count keeper.new)) }
    ensures rising { K.fault_count keeper.old ≤ K.fault_count keeper.new }
    ensures err_count { OnErr result (K.fault_count keeper.new ≡ K.fault_count keeper.old) }
{
    match keeper.remove(key) {
        Ok(()) => Ok(true),
        Err(KeepFault::Failed) => Ok(false),
        Err(KeepFault::Memory) => Err(Memory),
    }
}

/// Puts a changed account in place of the one at a place.
pub fn replace<K: Keeper>(
    alloc: Global,
    rows: &mut Vec<Row>,
    place: usize,
    row: Row,
    keeper: &mut K,
) -> Result<bool, Memory>
    requires place { place < length rows.old.items }
    requires fits { FitsRecord row.account }
    ensures done { IfOk result (λ done. rows.new.items ≡ (if done then slice_set rows.old.items place row else rows.old.items)) }
    ensures err { OnErr result (rows.new.items ≡ rows.old.items) }
    ensures rows { Keeps (put_row row.account.id (record_text row.account)) (K.told_rows keeper.old) (K.told_rows keeper.new) result }
    ensures cause { IfOk result (λ done. done ≡ false → Rose (K.fault_count keeper.old) (K.fault_count keeper.new)) }
    ensures rising { K.fault_count keeper.old ≤ K.fault_count keeper.new }
    ensures err_count { OnErr result (K.fault_count keeper.new ≡ K.fault_count keeper.old) }
{
    let done = put_account(alloc, &row.account, keeper)?;
    if done {
        rows[place] = row;
    }
    Ok(done)
}

/// Adds a new account.
pub fn add<K: Keeper>(
    alloc: Global,
    rows: &mut Vec<Row>,
    row: Row,
    keeper: &mut K,
) -> Result<bool, Memory>
    requires { FitsRecord row.account }
    ensures done { IfOk result (λ done. rows.new.items ≡ (if done then rows.old.items ++ row ∷ [] else rows.old.items)) }
    ensures err { OnErr result (rows.new.items ≡ rows.old.items) }
    ensures rows { Keeps (put_row row.account.id (record_text row.account)) (K.told_rows keeper.old) (K.told_rows keeper.new) result }
    ensures cause { IfOk result (λ done. done ≡ false → Rose (K.fault_count keeper.old) (K.fault_count keeper.new)) }
    ensures rising { K.fault_count keeper.old ≤ K.fault_count keeper.new }
    ensures err_count { OnErr result (K.fault_count keeper.new ≡ K.fault_count keeper.old) }
{
    rows.reserve(1)?;
    let done = put_account(alloc, &row.account, keeper)?;
    if done {
        match rows.push(row) {
            Ok(()) => {}
            Err(_) => unreachable!(),
        }
    }
    Ok(done)
}

/// Takes the account at a place away.
pub fn take_away<K: Keeper>(
    rows: &mut Vec<Row>,
    place: usize,
    key: u64,
    keeper: &mut K,
) -> Result<bool, Memory>
    requires { place < length rows.old.items }
    ensures done { IfOk result (λ done. rows.new.items ≡ (if done then remove rows.old.items place else rows.old.items)) }
    ensures err { OnErr result (rows.new.items ≡ rows.old.items) }
    ensures rows { Keeps (remove_row key) (K.told_rows keeper.old) (K.told_rows keeper.new) result }
    ensures cause { IfOk result (λ done. done ≡ false → Rose (K.fault_count keeper.old) (K.fault_count keeper.new)) }
    ensures rising { K.fault_count keeper.old ≤ K.fault_count keeper.new }
    ensures err_count { OnErr result (K.fault_count keeper.new ≡ K.fault_count keeper.old) }
{
    let done = remove_record(key, keeper)?;
    if done {
        rows.remove(place);
    }
    Ok(done)
}
