//! The client's end of a login to a MySQL server.
//!
//! **[`login`] writes the payloads of the client's talk for the payloads that the server sent, and ends with the
//! talk's result; a secret is written in the clear only to a server on this machine.** The talk is
//! `conversation` of specs/Conversation.antt, and `laws` says what it comes to over payloads and packets: among it
//! that a client is in exactly by the payloads of a whole login, which specs/Whole.antt lays end to end.
//!
//! It follows "Connection Phase" of the MySQL client/server protocol documentation. Below stand `auth_packets`
//! for the messages, `packet_frame` for packets, `native_scramble` and `caching_sha2` for the answers, and
//! `lg_outside` for the link. [`Client`] is the same without a link: it is given packets.
#![tactic(auto)]

pub mod claims;
pub mod client;
pub mod ends;
pub mod hearing;
pub mod laws;
pub mod logins;
pub mod methods;
pub mod phases;

pub use claims::{Claim, ClientOptions, Secrets, has_no_zero};
pub use client::Client;
pub use ends::{ClientAct, LoginEnd, Reason};
pub use logins::login;
