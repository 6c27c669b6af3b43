//! The statements that a keeper runs on its file.

ghost use Rattle.lg_outside.specs.Keeping.{Ascend};
ghost use Rattle.sqlite.specs.Held.{state};
ghost use Rattle.sqlite_keeper.specs.Runs.{Runs};
ghost use Rattle.sqlite.specs.State.{Executes, HasCleanDisk};
ghost use Rattle.sqlite.specs.declared.types.Value.TheVariants.{Blob, Int};
ghost use Rattle.std.specs.Prelude.{◌≡◌, ◌≤◌, ◌-◌, ◌^◌, [], ◌∷◌, Err, IfOk, IsSome, IsTrue, None, OnErr, OnOk, is_err, is_some, nat_lt, pos};

use lg_base::{Bytes, Items};
use lg_outside::Row;
use sqlite::{Alter, Connection, Error, ErrorCode, Row as Found, params};
use std::alloc::Global;

/// The table of rows, as its text stands in the file.
const TABLE: &str =
    "CREATE TABLE account (\"key\" INTEGER PRIMARY KEY, record BLOB NOT NULL) STRICT";

/// The texts of the table and of all that stands over it.
const TEXTS: &str = "SELECT sql FROM sqlite_schema WHERE tbl_name = 'account'";

const ALL_ROWS: &str = "SELECT \"key\", record FROM account ORDER BY \"key\"";

pub(crate) const PUT: &str =
    "INSERT INTO account (\"key\", record) VALUES (?1, ?2) ON CONFLICT (\"key\") DO UPDATE SET record = excluded.record";

pub(crate) const REMOVE: &str = "DELETE FROM account WHERE \"key\" = ?1";

/// What is answered where the file holds what a keeper doesn't write.
const NOT_OURS: Error = Error::SqliteFailure(ErrorCode::NotADatabase);

/// What is answered by a keeper that isn't attached.
const NOT_ATTACHED: Error = Error::SqliteFailure(ErrorCode::CannotOpen);

const NO_MEMORY: Error = Error::SqliteFailure(ErrorCode::OutOfMemory);

/// Whether the table is there. A table of another text, a view of its name, and an index or a trigger over it are refused.
pub(crate) fn find_table<S: Alter>(file: &mut Connection<S>) -> Result<bool, Error> {
    let mut texts = file.query(TEXTS, &[])?;
    texts.advance()?;
    match texts.get() {
        None => return Ok(false),
        Some(found) => {
            if found.get::<String>(0)?.as_str() != TABLE {
                return Err(NOT_OURS);
            }
        }
    }
    texts.advance()?;
    match texts.get() {
        None => Ok(true),
        Some(_) => Err(NOT_OURS),
    }
}

/// Makes the table.
pub(crate) fn make_table<S: Alter>(file: &mut Connection<S>) -> Result<usize, Error> {
    file.execute(TABLE, &[])
}

/// The row that a query found. A key below 0 is refused.
fn read_row(found: &Found) -> Result<Row, Error> {
    Ok(Row {
        key: found.get::<u64>(0)?,
        bytes: Bytes::from_vec(found.get::<Vec<u8>>(1)?),
    })
}

/// The rows that the table has, in the order in which they come.
fn find_rows<S: Alter>(alloc: Global, file: &mut Connection<S>) -> Result<Items<Row>, Error> {
    let mut rows = Items::new(alloc);
    let mut answer = file.query(ALL_ROWS, &[])?;
    for _ in 0..u64::MAX {
        answer.advance()?;
        match answer.get() {
            Some(found) => {
                let row = read_row(found)?;
                if rows.push(row).is_err() {
                    return Err(NO_MEMORY);
                }
            }
            None => return Ok(rows),
        }
    }
    Err(NOT_OURS)
}

/// Whether the keys rise from each row to the next.
fn ascends(rows: &[Row]) -> bool
    ensures { IsTrue result → Ascend rows.now }
{
    let [first, rest @ ..] = rows else {
        return true;
    };
    let mut low = first.key;
    let mut left = rest;
    'rows: while let [next, behind @ ..] = left {
        if next.key <= low {
            return false;
        }
        low = next.key;
        left = behind;
    }
    true
}

/// All rows, in ascending order of their keys. Rows that don't ascend are refused.
pub(crate) fn load_from<S: Alter>(
    alloc: Global,
    file: &mut Option<Connection<S>>,
) -> Result<Items<Row>, Error>
    ensures ascend { IfOk result Ascend }
    ensures stays { is_some file.new ≡ is_some file.old }
    ensures unattached { file.old ≡ None → result ≡ Err (Error.SqliteFailure ErrorCode.CannotOpen) }
{
    let Some(file) = file else {
        return Err(NOT_ATTACHED);
    };
    let rows = find_rows(alloc, file)?;
    if !ascends(rows.as_slice()) {
        return Err(NOT_OURS);
    }
    Ok(rows)
}

/// The key as a number of the database, which has none above 2^63 - 1.
fn signed_key(key: u64) -> Result<i64, Error>
    ensures fits { IfOk result (λ signed. signed ≡ pos key) }
    ensures large { is_err result ≡ nat_lt (2 ^ 63 - 1) key }
    ensures kind { OnErr result (result ≡ Err (Error.IntegralValueOutOfRange 0)) }
{
    match i64::try_from(key) {
        Ok(signed) => Ok(signed),
        Err(_) => Err(Error::IntegralValueOutOfRange(0)),
    }
}

/// Puts a row in place of the one that has its key, if any.
pub(crate) fn put_into<S: Alter>(
    file: &mut Option<Connection<S>>,
    key: u64,
    bytes: &[u8],
) -> Result<(), Error>
    ensures stays { is_some file.new ≡ is_some file.old }
    ensures unattached { file.old ≡ None → result ≡ Err (Error.SqliteFailure ErrorCode.CannotOpen) }
    ensures large { IsSome file.old → 2 ^ 63 ≤ key → result ≡ Err (Error.IntegralValueOutOfRange 0) }
    ensures runs { OnOk result (Runs S.Store PUT.now (Int (pos key) ∷ Blob bytes.now ∷ []) file.old file.new) }
{
    let Some(file) = file else {
        return Err(NOT_ATTACHED);
    };
    put_row(file, signed_key(key)?, bytes)?;
    Ok(())
}

/// Takes the row with this key out, if there is one.
pub(crate) fn remove_from<S: Alter>(file: &mut Option<Connection<S>>, key: u64) -> Result<(), Error>
    ensures stays { is_some file.new ≡ is_some file.old }
    ensures unattached { file.old ≡ None → result ≡ Err (Error.SqliteFailure ErrorCode.CannotOpen) }
    ensures large { IsSome file.old → 2 ^ 63 ≤ key → result ≡ Err (Error.IntegralValueOutOfRange 0) }
    ensures runs { OnOk result (Runs S.Store REMOVE.now (Int (pos key) ∷ []) file.old file.new) }
{
    let Some(file) = file else {
        return Err(NOT_ATTACHED);
    };
    remove_row(file, signed_key(key)?)?;
    Ok(())
}

/// Runs the statement that puts a row.
fn put_row<S: Alter>(file: &mut Connection<S>, key: i64, bytes: &[u8]) -> Result<usize, Error>
    ensures runs { HasCleanDisk (state S.Store file.new) → Executes PUT.now (Int key ∷ Blob bytes.now ∷ []) (state S.Store file.old) (state S.Store file.new) result }
{
    file.execute(PUT, params![key, bytes])
}

/// Runs the statement that takes a row out.
fn remove_row<S: Alter>(file: &mut Connection<S>, key: i64) -> Result<usize, Error>
    ensures runs { HasCleanDisk (state S.Store file.new) → Executes REMOVE.now (Int key ∷ []) (state S.Store file.old) (state S.Store file.new) result }
{
    file.execute(REMOVE, params![key])
}
