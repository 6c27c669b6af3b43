//! Why a message can't be read.

ghost use Rattle.auth_packets.specs.declared.fault.PacketFault.TheVariants.{Malformed, Memory};
ghost use Rattle.std.specs.Prelude.{◌≡◌};
ghost use Rattle.wire_form.specs.Fields.{place_of};

use lg_base::ReadFault;
use std::alloc::{AllocError, AllocFailed};

/// Why a message can't be read.
#[derive(Clone, Copy, Debug, PartialEq, Eq)]
pub enum PacketFault {
    /// The payload is no spelling of a message. `at` is the length of its longest front that goes on to
    /// one.
    Malformed { at: usize },
    /// No memory was to be had.
    Memory,
}

impl From<ReadFault> for PacketFault {
    ghost from_gives = { λ fault e. e ≡ Malformed (place_of fault) };

    fn from(fault: ReadFault) -> PacketFault {
        match fault {
            ReadFault::Short { at } | ReadFault::BadLenenc { at } => PacketFault::Malformed { at },
        }
    }
}

impl From<lg_base::Memory> for PacketFault {
    ghost from_gives = { λ _ e. e ≡ Memory };

    fn from(_refused: lg_base::Memory) -> PacketFault {
        PacketFault::Memory
    }
}
