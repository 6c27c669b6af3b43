//! A keeper of rows in an SQLite file.
//!
//! **A call that answered Ok is on the disk before it returns; a call fails only where the keeper's count of faults rose.**
//! The first of these rests on the kit's `sqlite` and on the system, and is tested; the second is proved. What the file
//! holds is told to no contract, but each statement that is run on it is: its text and its parameters.
//!
//! The file is opened in the way that supposes nothing of a torn write, so each change waits for the disk twice. It is
//! made with the mode 0600, since it holds stored passwords. One process at a time has it open. Below stand `lg_outside`
//! for keepers and `sqlite` of the kit, which reads and writes the format of SQLite 3.
#![tactic(auto)]

pub mod keeper;
pub mod opening;
pub mod sending;
pub mod statements;

pub use keeper::{FileKeeper, SqliteKeeper};
