//! Packets in a stream of bytes, as both ends of a connection keep and write them.
//!
//! **[`Inbox`] keeps bytes that a peer has sent, however they are cut, and takes exactly the packet that stands at their
//! front, or says which fault stands there; [`add_packets`] adds the packets of payloads, whose sequence ids rise from a
//! first one.** [`Queue`] keeps bytes that are under way. After want of memory each of them is as it was.
//!
//! [`packet_frame::Frames`] takes no byte behind the packet that it reads; an [`Inbox`] takes all bytes that have come, and
//! keeps those behind the packet. Below stand `packet_frame` and `lg_base`.
//!
//! MySQL client/server protocol documentation, "MySQL Packets" and "Sending More Than 16Mb".
#![tactic(auto)]

pub mod ids;
pub mod inbox;
pub mod limits;
pub mod packing;
pub mod queue;
#[cfg(test)]
mod tests;

pub use ids::{id_behind, id_behind_all};
pub use inbox::{Found, Inbox};
pub use limits::MAX_PAYLOAD;
pub use packing::{add_packet, add_packets};
pub use queue::Queue;
