//! Packets of the MySQL client/server protocol, found in a stream of bytes however it is cut into
//! pieces of reading, and written.
//!
//! **`Frames` gives the packets of the stream and its first fault, each at its place, for every
//! cutting; `write_packet` writes a packet that is read again.** It stands on `lg_base` alone.
//!
//! MySQL client/server protocol documentation, "MySQL Packets" and "Sending More Than 16Mb".
#![tactic(auto)]

pub mod frames;
pub mod laws;
pub mod packets;
mod progress;
pub mod writing;

pub use frames::Frames;
pub use packets::{FrameFault, Packet, Want};
pub use writing::write_packet;

#[cfg(test)]
mod tests;
