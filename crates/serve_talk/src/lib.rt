//! What serving a session comes to: the model of a session's loop over a link, the calls of shared accounts, a clock and draws.
//!
//! **A session that is served stands in a transcript: of the bytes that were read, the entries that its seat added, the
//! payloads that were written and its end.** The definitions stand in `specs/`; this crate has no code but the end of a
//! session and the laws. Below it stand `session_talk` and `link_packets`.
#![tactic(auto)]

pub mod endings;
pub mod laws;

pub use endings::Ending;
