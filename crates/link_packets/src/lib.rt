//! Packets over a link.
//!
//! **[`read_packet`] reads the next packet and no byte behind it, in pieces of at most 16 KiB, or says why there is none;
//! [`write_packets`] writes the packets of all payloads by one call of the link.** What is read and written is told in the
//! link's own words where it tells its bytes.
//!
//! Below stand `packet_frame`, whose reader takes the bytes, `packet_stream` and `lg_outside`.
//!
//! MySQL client/server protocol documentation, "MySQL Packets".
#![tactic(auto)]

pub mod reading;
pub mod writing;

pub use reading::{ReadEnd, new_reader, read_packet};
pub use writing::{WriteEnd, write_packets};
