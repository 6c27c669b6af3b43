//! A table: its columns, and rows of as many cells.

ghost use Rattle.result_sets.specs.Table.{IsWhole};
ghost use Rattle.std.specs.Prelude.{◌≡◌, ◌↔◌, All, IsTrue, length};

use lg_base::{Bytes, Items};

/// What the cells of a column are. Each is sent as a text.
#[derive(Clone, Copy, Debug, PartialEq, Eq)]
pub enum Kind {
    Text,
    Number,
}

/// A column's name and kind.
#[derive(Debug, PartialEq, Eq, Drop)]
pub struct Column {
    pub name: Bytes,
    pub kind: Kind,
}

/// NULL, or the text of a value.
#[derive(Debug, PartialEq, Eq, Drop)]
pub enum Cell {
    Null,
    Value(Bytes),
}

/// The cells of a row, one for each column.
pub type Cells = Items<Cell>;

/// What a query answers.
#[derive(Debug, Drop)]
pub struct Table {
    pub columns: Items<Column>,
    pub rows: Items<Cells>,
}

impl Table {
    /// Whether the table can be written: it has 1 to 8 columns, at most 65,536 rows, and as many cells in each row as
    /// columns.
    pub fn is_whole(&self) -> bool
        ensures { IsTrue result ↔ IsWhole self.now }
    {
        let width = self.columns.len();
        if width == 0 || width > 8 || self.rows.len() > 65536 {
            return false;
        }
        have_width(self.rows.as_slice(), width)
    }
}

/// Whether each row has so many cells.
fn have_width(rows: &[Cells], width: usize) -> bool
    ensures { IsTrue result ↔ All (λ r. length r ≡ width) rows.now }
{
    rows.iter().all(|row| row.len() == width)
}
