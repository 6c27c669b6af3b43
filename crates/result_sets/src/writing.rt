//! Writing a table.

ghost use Rattle.result_sets.specs.Layout.{cell_text, column, column_text, kind_text, text_bytes};
ghost use Rattle.result_sets.specs.Table.{IsShort, IsWhole, row_text, table_text, tabulates};
ghost use Rattle.std.specs.Prelude.{◌≡◌, [], ◌∷◌, ◌++◌, length, All, IfOk, OnOk, map};

use crate::table::{Cell, Column, Kind, Table};
use lg_base::{Bytes, Items, Memory, Out};
use std::alloc::Global;

/// Adds a text behind its length.
fn write_text(text: &[u8], out: &mut Out) -> Result<(), Memory>
    ensures { OnOk result (out.new ≡ out.old ++ text_bytes text.now) }
{
    out.lenenc(text.len() as u64)?;
    out.bytes(text)
}

/// Adds the character set, the length and the type of a column.
fn write_kind(kind: Kind, out: &mut Out) -> Result<(), Memory>
    ensures { OnOk result (out.new ≡ out.old ++ kind_text kind) }
{
    match kind {
        Kind::Text => out.bytes(&[0xff, 0x00, 0x00, 0x04, 0x00, 0x00, 0xfd]),
        Kind::Number => out.bytes(&[0x3f, 0x00, 0x14, 0x00, 0x00, 0x00, 0x08]),
    }
}

/// The payload of a column, without a schema or a table.
#[tactic(auto, unfolding(crate::specs::Layout::column_text), using(crate::proofs::Written::column_spelled))]
fn write_column(alloc: Global, written: &Column) -> Result<Bytes, Memory>
    ensures ok { IfOk result (λ text. text ≡ column_text written.now) }
    ensures spelled { column.Spells written.now (column_text written.now) }
{
    let name = written.name.as_slice();
    let _size = name.len();
    let mut out = Out::new(alloc);
    out.bytes(b"\x03def\x00\x00\x00")?;
    write_text(name, &mut out)?;
    out.bytes(&[0x00, 0x0c])?;
    write_kind(written.kind, &mut out)?;
    out.bytes(&[0x00, 0x00, 0x00, 0x00, 0x00])?;
    Bytes::copy(alloc, out.as_slice())
}

/// Adds NULL, or the text of a value.
#[tactic(auto, unfolding(crate::specs::Layout::cell_text))]
fn write_cell(cell: &Cell, out: &mut Out) -> Result<(), Memory>
    ensures ok { OnOk result (out.new ≡ out.old ++ cell_text cell.now) }
    ensures short { IsShort cell.now }
{
    match cell {
        Cell::Null => out.byte(0xfb),
        Cell::Value(text) => write_text(text.as_slice(), out),
    }
}

/// The payload of a row.
fn write_row(alloc: Global, cells: &[Cell]) -> Result<Bytes, Memory>
    ensures ok { IfOk result (λ text. text ≡ row_text cells.now) }
    ensures short { IfOk result (λ _. All IsShort cells.now) }
{
    let mut out = Out::new(alloc);
    for cell in cells {
        write_cell(cell, &mut out)?;
    }
    Bytes::copy(alloc, out.as_slice())
}

/// Adds a payload for each column.
fn write_columns(
    alloc: Global,
    columns: &[Column],
    payloads: &mut Items<Bytes>,
) -> Result<(), Memory>
    ensures ok { OnOk result (payloads.new ≡ payloads.old ++ map column_text columns.now) }
    ensures spelled { OnOk result (All (λ v. column.Spells v (column_text v)) columns.now) }
{
    for column in columns {
        let payload = write_column(alloc, column)?;
        payloads.push(payload)?;
    }
    Ok(())
}

/// Adds a payload for each row.
fn write_rows(
    alloc: Global,
    rows: &[Items<Cell>],
    payloads: &mut Items<Bytes>,
) -> Result<(), Memory>
    ensures ok { OnOk result (payloads.new ≡ payloads.old ++ map row_text rows.now) }
    ensures short { OnOk result (All (λ r. All IsShort r) rows.now) }
{
    for row in rows {
        let payload = write_row(alloc, row.as_slice())?;
        payloads.push(payload)?;
    }
    Ok(())
}

/// The payloads in order, and what is known of the columns and cells that they were written of.
#[tactic(auto, unfolding(crate::specs::Table::table_text))]
fn write_payloads(alloc: Global, table: &Table) -> Result<Items<Bytes>, Memory>
    ensures ok { IfOk result (λ payloads. payloads ≡ table_text table.now) }
    ensures columns { IfOk result (λ _. All (λ v. column.Spells v (column_text v)) table.now.columns) }
    ensures rows { IfOk result (λ _. All (λ r. All IsShort r) table.now.rows) }
{
    let mut payloads = Items::new(alloc);
    let mut count = Out::new(alloc);
    count.lenenc(table.columns.len() as u64)?;
    payloads.push(Bytes::copy(alloc, count.as_slice())?)?;
    write_columns(alloc, table.columns.as_slice(), &mut payloads)?;
    payloads.push(Bytes::copy(alloc, &ENDING)?)?;
    write_rows(alloc, table.rows.as_slice(), &mut payloads)?;
    payloads.push(Bytes::copy(alloc, &ENDING)?)?;
    Ok(payloads)
}

/// The payloads of a table of 1 to 8 columns and at most 65,536 rows: the number of columns, the columns, EOF, the rows,
/// EOF. They spell the table.
pub fn write_table(alloc: Global, table: &Table) -> Result<Items<Bytes>, Memory>
    requires { IsWhole table.now }
    ensures ok { IfOk result (λ payloads. payloads ≡ table_text table.now) }
    ensures spelled { IfOk result (λ payloads. tabulates table.now payloads) }
{
    let payloads = write_payloads(alloc, table)?;
    Ok(payloads)
}

/// EOF without warnings, and the status AUTOCOMMIT.
const ENDING: [u8; 5] = [0xfe, 0x00, 0x00, 0x02, 0x00];
