//! The tokens of a text of SQL: words, texts in quotes and signs.
//!
//! **[`tokens`] gives the tokens of a text, each with the place of its first byte.** `matching` says what a
//! rule of a grammar may ask of one of them.
//!
//! MySQL 8.0 Reference Manual, "String Literals" and "Schema Object Names". `lg_base` stands below.
#![tactic(auto)]

mod matching;
mod token;

pub use matching::number_of;
pub use token::{Kind, Token, tokens};
