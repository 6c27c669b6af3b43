//! What a stream of packets holds: the packets and the fault that may end it.
//!
//! MySQL client/server protocol documentation, "MySQL Packets".

ghost use Rattle.std.specs.Prelude.{◌≡◌};

use lg_base::Bytes;
use std::alloc::AllocError;

/// A piece with so many bytes of payload is continued by the next one.
pub const FULL: usize = 16_777_215;

/// Which sequence id the next packet must begin with.
#[derive(Clone, Copy, Debug, PartialEq, Eq)]
pub enum Want {
    /// This very id.
    Exactly(u8),
    /// Any id.
    Any,
}

/// A packet, its pieces joined.
#[derive(Debug, PartialEq, Eq, Drop)]
pub struct Packet {
    /// The sequence id of its first piece.
    pub first: u8,
    /// The sequence id of its last piece.
    pub last: u8,
    /// The place in the stream of its first header's first byte, counted in bytes from 0.
    pub at: u64,
    /// What the pieces carry, joined.
    pub payload: Bytes,
}

/// Why a stream gives no further packet.
#[derive(Clone, Copy, Debug, PartialEq, Eq)]
pub enum FrameFault {
    /// The header at `at` takes the payload over the limit.
    TooLarge { at: u64 },
    /// The header at `at` has the sequence id `got` in place of `want`.
    OutOfOrder { at: u64, want: u8, got: u8 },
    /// No memory was to be had. Nothing was read, and the same bytes may be fed again.
    Memory,
}

impl From<AllocError> for FrameFault {
    ghost use Rattle.packet_frame.specs.declared.packets.FrameFault.TheVariants.{Memory};

    ghost from_gives = { λ _ fault. fault ≡ Memory };

    fn from(_refused: AllocError) -> FrameFault {
        FrameFault::Memory
    }
}
