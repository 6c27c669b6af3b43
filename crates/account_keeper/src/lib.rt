//! What is kept of accounts: the record of an account as bytes, and a keeper of such rows in memory.
//!
//! **An account that fits has one record, which is what is written of it; bytes are read exactly where they
//! are a record, and then they give the account whose record they are, with ids of credentials that are 0; a
//! keeper in memory changes the one row that it is asked to, and none where a call doesn't succeed.** The layout
//! of a record is this project's own and stands in `specs/Record.antt`, field by field. Below stand
//! `account_rules` for accounts, the methods' crates for the stored texts of passwords, and `lg_outside` for
//! keepers.
#![tactic(auto)]

pub mod fitting;
pub mod memory_keeper;
pub mod reading;
pub mod writing;

pub use fitting::fits_record;
pub use memory_keeper::MemoryKeeper;
pub use reading::{RecordFault, read_record};
pub use writing::write_record;
