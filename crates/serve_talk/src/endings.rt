//! How a session that is served ends.

use session_talk::SessionEnd;

/// How a session ended.
#[derive(Clone, Copy, Debug, PartialEq, Eq)]
pub enum Ending {
    /// As its talk says, or since its link failed or no memory was to be had.
    Told(SessionEnd),
    /// It came to a call of the accounts when no turn of their book was left.
    BookEnd,
}
