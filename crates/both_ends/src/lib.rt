//! What holds of both ends of a login together.
//!
//! **A client that gets the payloads that a session sends ends as the reply to the session's first attempt tells it, and
//! opens only where that reply opens.** Nothing is asked of what the client writes: the laws hold behind any peer that
//! hands the server's payloads on. This crate has no code but the laws. Below it stand `session_talk`, the server's end,
//! and `login_client`, the client's.
//!
//! MySQL client/server protocol documentation, "Connection Phase".
#![tactic(auto)]

pub mod laws;
