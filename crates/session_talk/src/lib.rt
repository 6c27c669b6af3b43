//! The model of the server's end of a session, and the plain types in which a session is driven.
//!
//! **A session's whole behaviour is one talk: what it says, what it waits for and how it goes on, by what the
//! peer sends and what the account store answers.** It is a tree of `interaction`, whose questions are the asks of a
//! session. The definitions stand in `specs/`: the talk by the parts of a login, what each question is, what is owed for
//! payloads and answers, the same over bytes, what bytes and entries give to a session, and a login as a relation on its
//! moves. This crate has no code but the types of inputs and actions and the laws of the model. Below it stand
//! `account_history`, `auth_packets` and `interaction`.
//!
//! MySQL client/server protocol documentation, "Connection Phase" and "Command Phase".
#![tactic(auto)]

pub mod actions;
pub mod attempts;
pub mod ends;
pub mod inputs;
pub mod laws;
pub mod open_session;

pub use actions::{Action, Ask};
pub use attempts::{Attempting, Claim};
pub use ends::SessionEnd;
pub use inputs::Input;
pub use open_session::OpenSession;
