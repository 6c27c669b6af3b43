//! Reading a table.

ghost use Rattle.result_sets.specs.Faults.{malformed_at};
ghost use Rattle.result_sets.specs.Layout.{column, column_count, ending};
ghost use Rattle.result_sets.specs.Reading.{Ends, line, nothing_read, taken, with_column, with_columns, with_line, with_middle};
ghost use Rattle.result_sets.specs.Table.{IsReadTable};
ghost use Rattle.std.specs.Prelude.{◌≡◌, length};
ghost use Rattle.wire_form.specs.Fields.{map_found};
ghost use Rattle.wire_form.specs.Payloads.{Gives, start};

use crate::fault::{PayloadFault, TableFault};
use crate::payloads::{read_column, read_count, read_ending, read_line};
use crate::table::{Cells, Column, Table};
use lg_base::{Bytes, Items};
use std::alloc::Global;

/// What the next payload has to be.
#[derive(Clone, Copy, Debug, PartialEq, Eq)]
enum Awaited {
    /// The number of columns.
    Count,
    /// A column, or EOF behind so many of them.
    Columns { count: u64 },
    /// A row, or EOF.
    Rows,
    /// None: the table is whole.
    Nothing,
}

/// What was read of a table, payload by payload.
#[derive(Debug, Drop)]
struct Progress {
    columns: Items<Column>,
    rows: Items<Cells>,
    awaited: Awaited,
}

fn new_progress(alloc: Global) -> Progress
    ensures { result ≡ nothing_read }
{
    Progress {
        columns: Items::new(alloc),
        rows: Items::new(alloc),
        awaited: Awaited::Count,
    }
}

/// Takes the number of columns.
fn take_count(mut progress: Progress, payload: &[u8]) -> Result<Progress, PayloadFault>
    ensures { Gives malformed_at result (map_found (with_columns progress) (column_count.read (start payload.now))) }
{
    let count = read_count(payload)?;
    progress.awaited = Awaited::Columns { count };
    Ok(progress)
}

/// Takes a column.
fn take_column(
    alloc: Global,
    mut progress: Progress,
    payload: &[u8],
) -> Result<Progress, PayloadFault>
    ensures { Gives malformed_at result (map_found (with_column progress) (column.read (start payload.now))) }
{
    let column = read_column(alloc, payload)?;
    progress.columns.push(column)?;
    Ok(progress)
}

/// Takes EOF behind the columns.
fn take_middle(mut progress: Progress, payload: &[u8]) -> Result<Progress, PayloadFault>
    ensures { Gives malformed_at result (map_found (with_middle progress) (ending.read (start payload.now))) }
{
    read_ending(payload)?;
    progress.awaited = Awaited::Rows;
    Ok(progress)
}

/// Takes a row, or EOF behind the rows.
fn take_line(
    alloc: Global,
    mut progress: Progress,
    payload: &[u8],
) -> Result<Progress, PayloadFault>
    ensures { Gives malformed_at result (map_found (with_line progress) ((line (length progress.columns)).read (start payload.now))) }
{
    match read_line(alloc, progress.columns.len(), payload) {
        Ok(Some(row)) => {
            progress.rows.push(row)?;
            Ok(progress)
        }
        Ok(None) => {
            progress.awaited = Awaited::Nothing;
            Ok(progress)
        }
        Err(fault) => Err(fault),
    }
}

/// Takes the next payload.
#[tactic(auto, unfolding(crate::specs::Reading::taken))]
fn take(alloc: Global, progress: Progress, payload: &[u8]) -> Result<Progress, PayloadFault>
    ensures { Gives malformed_at result (taken progress payload.now) }
{
    match progress.awaited {
        Awaited::Count => take_count(progress, payload),
        Awaited::Columns { count } => {
            if progress.columns.len() as u64 == count {
                take_middle(progress, payload)
            } else {
                take_column(alloc, progress, payload)
            }
        }
        Awaited::Rows => take_line(alloc, progress, payload),
        Awaited::Nothing => Err(PayloadFault::Malformed { at: 0 }),
    }
}

/// The table behind its last payload. A list that ends before it has so many payloads.
fn end(progress: Progress, length: usize) -> Result<Table, TableFault>
    ensures { Ends progress length result }
{
    match progress.awaited {
        Awaited::Nothing => Ok(Table {
            columns: progress.columns,
            rows: progress.rows,
        }),
        _ => Err(TableFault::Malformed {
            index: length,
            at: 0,
        }),
    }
}

/// Reads a list of payloads that is a table's, exactly where it is one.
pub fn read_table(alloc: Global, payloads: &[Bytes]) -> Result<Table, TableFault>
    ensures { IsReadTable payloads.now result }
{
    let mut progress = new_progress(alloc);
    let mut index = 0;
    for payload in payloads {
        match take(alloc, progress, payload.as_slice()) {
            Ok(next) => progress = next,
            Err(fault) => return Err(fault.in_payload(index)),
        }
        index += 1;
    }
    end(progress, index)
}
