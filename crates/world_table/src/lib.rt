//! What all sessions of a world have in common, and the lines that are printed of it.
//!
//! **A [`Table`] holds the accounts with their history, the reading of the clock, and how many nonces were drawn; each
//! look and each attempt is noted in the history as `specs/Table.antt` says, and its line printed.** The lines of
//! sessions are printed here too (`specs/Printing.antt`). They are this project's own; the payloads in them are those of
//! the MySQL client/server protocol. Below stand `account_machine` for the accounts and `session_talk` for the words of a
//! session's end.
#![tactic(auto)]

pub mod printing;
pub mod statements;
pub mod table;

pub use table::Table;
