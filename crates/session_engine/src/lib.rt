//! The server's end of a session, as a pure machine: it is given the answer to what it asked for last, and says what
//! to send and what it asks for next. It has no link, no clock, no draws and no accounts of its own.
//!
//! **What a [`Session`] does on each input is what the talk of `session_talk` says: it sends those payloads, asks that
//! question, and goes on as that talk.** Below it stand `session_talk`, `auth_packets`, `factor_chain`,
//! `packet_frame` and, for account statements, `stmt_syntax` and `account_history`.
//!
//! MySQL client/server protocol documentation, "Connection Phase" and "Command Phase".
#![tactic(auto)]

mod answering;
mod commanding;
mod executing;
mod going_on;
mod logins;
mod notes;
mod payloads;
pub mod phases;
pub mod session;
mod settling;
pub mod stages;
mod statements;
pub mod steps;

pub use session::Session;
pub use session_talk::{Action, Ask, Input, OpenSession, SessionEnd};
