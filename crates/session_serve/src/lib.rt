//! A session over a link and the shared accounts.
//!
//! **[`serve_session`] says over the link what the session's transcript says, for the bytes that were read and the entries that
//! were added by its seat, and ends as that transcript does; where the link failed or there was no memory, a part of it was
//! written.** The promise is `Serves` of `serve_talk`. The machine of `session_engine` decides everything; here its questions
//! are answered: by the link, by the calls of `shared_accounts`, by a clock and by draws. That a call which waits returns
//! isn't promised.
#![tactic(auto)]

pub mod answering;
pub mod giving;
pub mod holding;
pub mod looking;
pub mod reading;
pub mod serving;
pub mod sessions;
pub mod settling;
pub mod statements;

pub use serve_talk::Ending;
pub use sessions::serve_session;
