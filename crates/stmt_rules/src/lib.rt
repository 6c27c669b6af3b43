//! The rules of the grammar of account statements, and the values that they are read to.
//!
//! **[`Cursor::statement`] reads the tokens of a text by the grammar: it gives the one statement that they
//! are, or stops at the first token at which no statement fits.** Each rule is read by a call of its own,
//! and the proof that what is spelled is what is read comes with the ways in which rules are put together.
//!
//! The grammar is a part of the one in the MySQL 8.0 Reference Manual, "Account Management Statements".
//! `lg_base` and `stmt_tokens` stand below.
#![tactic(auto)]

mod cursor;
mod rules;
mod statement;

pub use cursor::{Cursor, Fault};
pub use statement::{
    Auth, Bound, Change, Expire, FactorAuth, Options, Privileges, Statement, Target, Time,
};
