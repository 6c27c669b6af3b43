//! How long a payload may be.

/// The most bytes of a payload that an end of a login takes. A packet with such a payload is one piece.
pub const MAX_PAYLOAD: u32 = 1_048_576;
