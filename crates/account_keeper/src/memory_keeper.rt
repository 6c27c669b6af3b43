//! A keeper in memory, which tells its rows to contracts and fails at listed calls.

ghost use Rattle.account_keeper.specs.Shelf.{GoesAsPlanned, IsPlace};
ghost use Rattle.lg_outside.specs.Keeping.{Ascend, Changes, IsCaused, IsLoaded, put_row, remove_row, rows_below};
ghost use Rattle.lg_outside.specs.Faults.{counted};
ghost use Rattle.std.specs.Prelude.{◌≡◌, ◌↔◌, ◌≤◌, Some, Err, [], ◌∷◌, ◌++◌, IfOk, OnOk, OnErr, IsTrue, length};

use lg_base::{Bytes, Items, Memory};
use lg_outside::{KeepFault, Keeper, PlannedFaults, Row};
use std::alloc::Global;
use std::marker::Model;

/// A keeper whose rows stand in memory, and which fails at listed calls.
#[derive(Debug, Drop)]
pub struct MemoryKeeper {
    rows: Vec<Row>,
    plan: PlannedFaults,
}

impl Model for MemoryKeeper {
    ghost use Rattle.account_keeper.specs.Shelf.{Shelf};
    ghost use Rattle.lg_outside.specs.Keeping.{Ascend};

    ghost Value = { Shelf };

    ghost view = { λ k. record { rows = k.rows.items; plan = k.plan } };

    ghost invariant = { λ k. Ascend k.rows.items };
}

/// How many rows have a smaller key: the place of the key's own row, where it has one.
fn place_of(rows: &[Row], key: u64) -> usize
    ensures { result ≡ length (rows_below key rows.now) }
{
    rows.iter().filter(|row| row.key < key).count()
}

/// A copy of the rows.
fn copied(alloc: Global, rows: &[Row]) -> Result<Items<Row>, Memory>
    ensures { IfOk result (λ copy. copy ≡ rows.now) }
{
    let mut copy = Items::new(alloc);
    for row in rows {
        copy.push(Row {
            key: row.key,
            bytes: Bytes::copy(alloc, row.bytes.as_slice())?,
        })?;
    }
    Ok(copy)
}

impl MemoryKeeper {
    /// A keeper of `rows` whose calls with the numbers in `failing` fail, counted from 1 over all calls
    /// that can fail. The rows' memory is the keeper's from then on, and its calls take theirs from the same
    /// allocator.
    pub fn new(rows: Items<Row>, failing: Items<u64>) -> MemoryKeeper
        requires { Ascend rows }
        ensures { result ≡ record { rows = rows; plan = record { failing = failing; calls = 0; faults = 0 } } }
    {
        MemoryKeeper {
            rows: rows.into_vec(),
            plan: PlannedFaults::new(failing),
        }
    }

    /// The rows in ascending order of their keys.
    pub fn rows(&self) -> &[Row]
        ensures { result.now ≡ self.now.rows }
    {
        self.rows.as_slice()
    }

    /// Lists the next call too. After `Memory` nothing is changed.
    pub fn fail_next(&mut self) -> Result<(), Memory>
        ensures ok { OnOk result (self.new ≡ record self.old { plan = record self.old.plan { failing = self.old.plan.failing ++ counted self.old.plan.calls ∷ [] } }) }
        ensures err { OnErr result (self.new ≡ self.old) }
    {
        self.plan.fail_next()
    }

    /// Counts one more of the calls that can fail, which does where the plan says so.
    fn count_call(&mut self) -> Result<(), KeepFault>
        ensures rows { self.new.rows ≡ self.old.rows }
        ensures planned { GoesAsPlanned self.old.plan self.new.plan result }
        ensures cause { IsCaused self.old.plan.faults self.new.plan.faults result }
        ensures rising { self.old.plan.faults ≤ self.new.plan.faults }
    {
        if self.plan.next_fails(false) {
            return Err(KeepFault::Failed);
        }
        Ok(())
    }
}

/// Where a key has its row, or else where it belongs.
fn seek(rows: &[Row], key: u64) -> Result<usize, usize>
    requires { Ascend rows.now }
    ensures { IsPlace key rows.now result }
{
    let place = place_of(rows, key);
    if place < rows.len() && rows[place].key == key {
        return Ok(place);
    }
    Err(place)
}

/// Puts a row at its place among rows that ascend, instead of the one that has its key.
#[tactic(auto, using(crate::proofs::RowLaws::put_new, crate::proofs::RowLaws::is_within, crate::proofs::RowLaws::is_inside, crate::proofs::RowLaws::put_ascends))]
fn put_row(rows: &mut Vec<Row>, row: Row) -> Result<(), Memory>
    requires { Ascend rows.old.items }
    ensures ok { OnOk result (rows.new.items ≡ put_row row.key row.bytes rows.old.items) }
    ensures err { OnErr result (rows.new.items ≡ rows.old.items) }
    ensures ascend { Ascend rows.new.items }
{
    match seek(rows, row.key) {
        Ok(place) => rows[place] = row,
        Err(place) => rows.insert(place, row)?,
    }
    Ok(())
}

/// Takes the row with this key out of rows that ascend, if there is one.
#[tactic(auto, using(crate::proofs::RowLaws::removed, crate::proofs::RowLaws::is_within, crate::proofs::RowLaws::remove_ascends))]
fn remove_row(rows: &mut Vec<Row>, key: u64)
    requires { Ascend rows.old.items }
    ensures rows { rows.new.items ≡ remove_row key rows.old.items }
    ensures ascend { Ascend rows.new.items }
{
    if let Ok(place) = seek(rows, key) {
        rows.remove(place);
    }
}

impl Keeper for MemoryKeeper {
    ghost told_rows = { λ k. Some k.rows };

    ghost fault_count = { λ k. k.plan.faults };

    // Each call is one of those that can fail, and the plan alone decides which do.
    fn attach(&mut self, _place: &str) -> Result<(), KeepFault>
        ensures rows { Some self.new.rows ≡ Some self.old.rows }
        ensures cause { IsCaused self.old.plan.faults self.new.plan.faults result }
        ensures rising { self.old.plan.faults ≤ self.new.plan.faults }
        ensures planned { GoesAsPlanned self.old.plan self.new.plan result }
    {
        self.count_call()
    }

    fn load(&mut self) -> Result<Items<Row>, KeepFault>
        ensures ascend { IfOk result Ascend }
        ensures told { IsLoaded (Some self.old.rows) result }
        ensures rows { Some self.new.rows ≡ Some self.old.rows }
        ensures cause { IsCaused self.old.plan.faults self.new.plan.faults result }
        ensures rising { self.old.plan.faults ≤ self.new.plan.faults }
        ensures planned { GoesAsPlanned self.old.plan self.new.plan result }
    {
        self.count_call()?;
        Ok(copied(*self.rows.allocator(), &self.rows)?)
    }

    fn put(&mut self, key: u64, bytes: &[u8]) -> Result<(), KeepFault>
        ensures rows { Changes (put_row key bytes.now) (Some self.old.rows) (Some self.new.rows) result }
        ensures cause { IsCaused self.old.plan.faults self.new.plan.faults result }
        ensures rising { self.old.plan.faults ≤ self.new.plan.faults }
        ensures planned { GoesAsPlanned self.old.plan self.new.plan result }
    {
        self.count_call()?;
        let bytes = Bytes::copy(*self.rows.allocator(), bytes)?;
        Ok(put_row(&mut self.rows, Row { key, bytes })?)
    }

    fn remove(&mut self, key: u64) -> Result<(), KeepFault>
        ensures rows { Changes (remove_row key) (Some self.old.rows) (Some self.new.rows) result }
        ensures cause { IsCaused self.old.plan.faults self.new.plan.faults result }
        ensures rising { self.old.plan.faults ≤ self.new.plan.faults }
        ensures planned { GoesAsPlanned self.old.plan self.new.plan result }
    {
        self.count_call()?;
        remove_row(&mut self.rows, key);
        Ok(())
    }

    fn faults(&self) -> u64 {
        self.plan.faults()
    }
}
