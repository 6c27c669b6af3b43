//! Reading the payloads of a table, one by one.

ghost use Rattle.result_sets.specs.Faults.{malformed_at, misfit_at};
ghost use Rattle.result_sets.specs.Layout.{cell, cells, column, column_count, ending, kind_of, row, text};
ghost use Rattle.result_sets.specs.Reading.{line};
ghost use Rattle.std.specs.Prelude.{◌≡◌};
ghost use Rattle.wire_form.specs.Fields.{mark};
ghost use Rattle.wire_form.specs.Forms.{nothing};
ghost use Rattle.wire_form.specs.Payloads.{Gives, Steps, start};

use crate::fault::{Misfit, PayloadFault};
use crate::table::{Cell, Cells, Column, Kind};
use lg_base::{Bytes, Items, Reader};
use std::alloc::Global;

/// A byte that has to stand there.
fn read_mark(byte: u8, reader: &mut Reader) -> Result<(), Misfit>
    ensures { Steps (λ x. x) misfit_at reader.new result ((mark byte).read reader.old) }
{
    let at = reader.at();
    let x = reader.read_u8()?;
    if x != byte {
        return Err(Misfit { at });
    }
    Ok(())
}

/// That no byte is left.
fn read_end(reader: &mut Reader) -> Result<(), Misfit>
    ensures { Gives misfit_at result (nothing.read reader.old) }
{
    match reader.peek() {
        None => Ok(()),
        Some(_) => Err(Misfit { at: reader.at() }),
    }
}

/// A text behind its length.
fn read_text<'a>(reader: &mut Reader<'a>) -> Result<&'a [u8], Misfit>
    ensures { Steps (λ x. x.now) misfit_at reader.new result (text.read reader.old) }
{
    let length = reader.lenenc()?;
    Ok(reader.take(length)?)
}

/// The number of columns.
#[tactic(auto, unfolding(crate::specs::Layout::column_count), using(crate::proofs::Counts::behind_lenenc))]
pub(crate) fn read_count(payload: &[u8]) -> Result<u64, Misfit>
    ensures { Gives misfit_at result (column_count.read (start payload.now)) }
{
    let mut reader = Reader::new(payload);
    let count = reader.lenenc()?;
    if count == 0 {
        return Err(Misfit {
            at: reader.at() - 1,
        });
    }
    read_end(&mut reader)?;
    Ok(count)
}

/// What the type of a column tells of its cells.
fn kind_of(column_type: u8) -> Kind
    ensures { result ≡ kind_of column_type }
{
    if column_type == 0x08 {
        Kind::Number
    } else {
        Kind::Text
    }
}

/// A column.
#[tactic(auto, unfolding(crate::specs::Layout::column))]
pub(crate) fn read_column(alloc: Global, payload: &[u8]) -> Result<Column, PayloadFault>
    ensures { Gives malformed_at result (column.read (start payload.now)) }
{
    let mut reader = Reader::new(payload);
    let _catalog = read_text(&mut reader)?;
    let _schema = read_text(&mut reader)?;
    let _table = read_text(&mut reader)?;
    let _original_table = read_text(&mut reader)?;
    let name = read_text(&mut reader)?;
    let _original_name = read_text(&mut reader)?;
    read_mark(0x0c, &mut reader)?;
    let _charset_and_length = reader.take(6)?;
    let kind = kind_of(reader.read_u8()?);
    let _flags_and_decimals = reader.take(5)?;
    read_end(&mut reader)?;
    let name = Bytes::copy(alloc, name)?;
    Ok(Column { name, kind })
}

/// EOF.
#[tactic(auto, unfolding(crate::specs::Layout::ending))]
pub(crate) fn read_ending(payload: &[u8]) -> Result<(), Misfit>
    ensures { Gives misfit_at result (ending.read (start payload.now)) }
{
    let mut reader = Reader::new(payload);
    read_mark(0xfe, &mut reader)?;
    let _warnings_and_status = reader.take(4)?;
    read_end(&mut reader)
}

/// NULL, or the text of a value.
#[tactic(auto, unfolding(crate::specs::Layout::cell))]
fn read_cell(alloc: Global, reader: &mut Reader) -> Result<Cell, PayloadFault>
    ensures { Steps (λ x. x) malformed_at reader.new result (cell.read reader.old) }
{
    if reader.peek() == Some(0xfb) {
        read_mark(0xfb, reader)?;
        Ok(Cell::Null)
    } else {
        let text = read_text(reader)?;
        let value = Bytes::copy(alloc, text)?;
        Ok(Cell::Value(value))
    }
}

/// So many cells.
fn read_cells(alloc: Global, count: usize, reader: &mut Reader) -> Result<Cells, PayloadFault>
    ensures { Steps (λ x. x) malformed_at reader.new result ((cells count).read reader.old) }
{
    let mut found = Items::new(alloc);
    for _ in 0..count {
        let cell = read_cell(alloc, reader)?;
        found.push(cell)?;
    }
    Ok(found)
}

/// A row of so many cells.
#[tactic(auto, unfolding(crate::specs::Layout::row))]
fn read_row(alloc: Global, count: usize, payload: &[u8]) -> Result<Cells, PayloadFault>
    ensures { Gives malformed_at result ((row count).read (start payload.now)) }
{
    let mut reader = Reader::new(payload);
    let found = read_cells(alloc, count, &mut reader)?;
    read_end(&mut reader)?;
    Ok(found)
}

/// EOF, or a row of so many cells.
#[tactic(auto, unfolding(crate::specs::Reading::line))]
pub(crate) fn read_line(
    alloc: Global,
    count: usize,
    payload: &[u8],
) -> Result<Option<Cells>, PayloadFault>
    ensures { Gives malformed_at result ((line count).read (start payload.now)) }
{
    match read_ending(payload) {
        Ok(()) => Ok(None),
        Err(_) => match read_row(alloc, count, payload) {
            Ok(found) => Ok(Some(found)),
            Err(fault) => Err(fault),
        },
    }
}
