//! The messages of a login: each is read from a payload exactly where the payload spells one, and what is
//! written is read back as the same message.
//!
//! The layouts are those of "Connection Phase Packets", "Generic Response Packets" and "Command Phase" of
//! the MySQL client/server protocol documentation. The definitions in specs/ state them in the grammar of
//! `wire_form`; framing is below, and what the messages mean to a session is above.
#![tactic(auto)]

pub mod commands;
pub mod exchange;
pub mod fault;
mod fields;
pub mod flags;
pub mod handshake;
pub mod laws;
pub mod replies;

pub use commands::{ChangeUser, Command};
pub use exchange::{More, NextFactor, Switch};
pub use fault::PacketFault;
pub use handshake::{Greeting, Response};
pub use replies::{EofPacket, ErrPacket, OkPacket};
