//! What is printed of a table.

use lg_base::Bytes;
use result_sets::{Cell, Cells, Column, Kind, Table, write_table};
use std::io;

fn print_bytes(rt: &HostRuntime, bytes: &[u8]) -> io::Result<()> {
    if bytes.is_empty() {
        return print!(rt; "- ");
    }
    let text = hex::encode(rt.alloc(), bytes)?;
    print!(rt; "{text} ")
}

fn print_column(rt: &HostRuntime, column: &Column) -> io::Result<()> {
    print_bytes(rt, column.name.as_slice())?;
    match column.kind {
        Kind::Text => print!(rt; "text "),
        Kind::Number => print!(rt; "number "),
    }
}

fn print_row(rt: &HostRuntime, cells: &Cells) -> io::Result<()> {
    print!(rt; "row ")?;
    for cell in cells.as_slice() {
        match cell {
            Cell::Null => print!(rt; "null ")?,
            Cell::Value(value) => print_bytes(rt, value.as_slice())?,
        }
    }
    Ok(())
}

/// `same`, or the payloads that are written of a table.
fn print_written(rt: &HostRuntime, table: &Table, payloads: &[Bytes]) -> io::Result<()> {
    if !table.is_whole() {
        return println!(rt; "not whole");
    }
    let Ok(written) = write_table(rt.alloc(), table) else {
        return println!(rt; "memory");
    };
    if written.as_slice() == payloads {
        return println!(rt; "same");
    }
    print!(rt; "written ")?;
    for payload in written.as_slice() {
        print_bytes(rt, payload.as_slice())?;
    }
    println!(rt; "")
}

/// A table that was read of payloads.
pub fn print_table(rt: &HostRuntime, table: &Table, payloads: &[Bytes]) -> io::Result<()> {
    for column in table.columns.as_slice() {
        print_column(rt, column)?;
    }
    for row in table.rows.as_slice() {
        print_row(rt, row)?;
    }
    print_written(rt, table, payloads)
}
