//! A table of many rows, written and read back.

use lg_base::{Bytes, Items, Memory};
use result_sets::{Cell, Cells, Column, Kind, Table, read_table, write_table};
use std::alloc::Global;

/// What was written, and what was read of it.
#[derive(Debug, Drop)]
pub struct Counts {
    pub payloads: usize,
    pub columns: usize,
    pub rows: usize,
    /// The cells that hold the number of their row, or NULL in each first one.
    pub cells: u64,
}

/// NULL in the first column, and the number of the row in each other one.
fn cells_of(alloc: Global, columns: u64, row: u64) -> Result<Cells, Memory> {
    let mut cells = Items::new(alloc);
    cells.push(Cell::Null)?;
    for _ in 1..columns {
        cells.push(Cell::Value(Bytes::copy(alloc, &row.to_le_bytes())?))?;
    }
    Ok(cells)
}

fn table_of(alloc: Global, columns: u64, rows: u64) -> Result<Table, Memory> {
    let mut table = Table {
        columns: Items::new(alloc),
        rows: Items::new(alloc),
    };
    for _ in 0..columns {
        table.columns.push(Column {
            name: Bytes::copy(alloc, b"name")?,
            kind: Kind::Number,
        })?;
    }
    for row in 0..rows {
        table.rows.push(cells_of(alloc, columns, row)?)?;
    }
    Ok(table)
}

/// How many cells of a row are as `cells_of` makes them.
fn fitting(cells: &Cells, row: u64) -> u64 {
    let mut count = 0_u64;
    for cell in cells.as_slice() {
        let fits = match cell {
            Cell::Null => true,
            Cell::Value(value) => value.as_slice() == row.to_le_bytes().as_slice(),
        };
        count = count.saturating_add(u64::from(fits));
    }
    count
}

fn all_fitting(table: &Table) -> u64 {
    let mut count = 0_u64;
    let mut row = 0_u64;
    for cells in table.rows.as_slice() {
        count = count.saturating_add(fitting(cells, row));
        row = row.saturating_add(1);
    }
    count
}

/// Writes a table of so many columns and rows, and reads it back. It is `None` where that can't be written.
pub fn count(alloc: Global, columns: u64, rows: u64) -> Option<Counts> {
    let table = table_of(alloc, columns, rows).ok()?;
    if !table.is_whole() {
        return None;
    }
    let payloads = write_table(alloc, &table).ok()?;
    let found = read_table(alloc, payloads.as_slice()).ok()?;
    Some(Counts {
        payloads: payloads.len(),
        columns: found.columns.len(),
        rows: found.rows.len(),
        cells: all_fitting(&found),
    })
}
