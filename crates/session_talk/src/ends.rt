//! How a session ends.

/// How a session ended.
#[derive(Clone, Copy, Debug, PartialEq, Eq)]
pub enum SessionEnd {
    /// The client said COM_QUIT.
    Quit,
    /// The peer closed the connection, within a packet where `cut` is true.
    PeerClosed { cut: bool },
    /// The attempt was refused with the error of this number.
    Refused { number: u16 },
    /// The peer broke the protocol. `at` is the place in the payload for a malformed response, and in the stream
    /// for a fault of framing.
    Bad { number: u16, at: u64 },
    /// Reading or writing failed.
    LinkFault,
    /// The session came to its last command, which isn't done.
    SessionLong,
    /// No memory was to be had.
    Memory,
}
