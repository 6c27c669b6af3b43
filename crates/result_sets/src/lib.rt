//! Text result sets with EOF packets. **A table is read exactly where its payloads are, what is written of a table is read
//! back as that table, and a fault is at the first payload that fits no table.**
//!
//! "Text Resultset" and "Column Definition 41" of the MySQL client/server protocol documentation give the layout.
//! specs/Table.antt relates a table to the whole list of its payloads; specs/Layout.antt has the form of each payload in
//! the grammar of `wire_form`. Framing is below; which query is answered by which table is above.
#![tactic(auto)]

pub mod fault;
pub mod laws;
mod payloads;
pub mod reading;
pub mod table;
pub mod writing;

pub use fault::TableFault;
pub use reading::read_table;
pub use table::{Cell, Cells, Column, Kind, Table};
pub use writing::write_table;
