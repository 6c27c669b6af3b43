//! What an event allows a session, and how its peer stands.

/// How many calls of the account store an event allows.
#[derive(Clone, Copy, Debug, PartialEq, Eq)]
pub enum Calls {
    Nothing,
    One,
    All,
}

/// How the peer's bytes go on behind those that it has sent.
#[derive(Clone, Copy, Debug, PartialEq, Eq)]
pub enum Peer {
    /// More may come.
    Open,
    /// The peer has closed the connection.
    Closed,
    /// The link fails.
    Failed,
}
