//! How a login ends, and what a client does next.

use lg_base::Bytes;
use packet_frame::FrameFault;

/// Why a client doesn't answer what it was asked for. Where several hold it is the first one, by `first_reason` of
/// specs/Reasons.antt.
#[derive(Clone, Copy, Debug, PartialEq, Eq)]
pub enum Reason {
    /// It doesn't know the method.
    UnknownMethod,
    /// It has no secret for the factor.
    NoSecret,
    /// It would have to write a secret in the clear, and the server isn't on this machine.
    NotLocal,
    /// It would have to write a secret in the clear, which isn't permitted.
    ClearNotPermitted,
}

/// How a login ended.
#[derive(Clone, Copy, Debug, PartialEq, Eq)]
pub enum LoginEnd {
    /// The server said OK.
    Opened,
    /// The server said ERR, with this number.
    Refused { number: u16 },
    /// A payload is none that may stand there. `at` is the place in it.
    Malformed { at: u64 },
    /// The bytes are no packets. Its fault is never `Memory`.
    Framing(FrameFault),
    /// The client doesn't answer.
    WontSend(Reason),
    /// The server ended the connection first.
    PeerClosed,
    /// The link failed: its count of faults rose, or stands at its end.
    LinkFault,
    /// No memory was to be had.
    Memory,
}

/// What a client does after a payload.
#[derive(Debug, PartialEq, Eq, Drop)]
pub enum ClientAct {
    /// It writes a payload, in a packet with this sequence id.
    Send { first: u8, payload: Bytes },
    /// The login is over.
    Done(LoginEnd),
}
