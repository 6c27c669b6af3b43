//! The small types that every layer of the login server shares: lists of bytes and of items over one
//! allocator, the writer and the reader of wire fields, account names, and the errors that a server
//! sends. It stands on the standard library alone.
//!
//! The fields follow "Protocol Data Types" of the MySQL client/server protocol documentation: numbers
//! are little-endian, and lengths are length-encoded integers.
#![tactic(auto)]

pub mod allocation;
pub mod byte_list;
pub mod crossing;
pub mod errors;
pub mod input;
pub mod item_list;
pub mod names;
pub mod output;

pub use allocation::Memory;
pub use byte_list::Bytes;
pub use crossing::crosses;
pub use errors::{Code, Operation};
pub use input::{ReadFault, Reader};
pub use item_list::Items;
pub use names::{Host, Name};
pub use output::Out;

#[cfg(test)]
mod tests;
