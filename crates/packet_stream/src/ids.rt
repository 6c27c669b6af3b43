//! Sequence ids of packets, by their payloads.
//!
//! MySQL client/server protocol documentation, "Sequence ID" and "Sending More Than 16Mb".

ghost use Rattle.packet_stream.specs.Sent as sent;
ghost use Rattle.std.specs.Prelude.{◌≡◌};

use lg_base::Bytes;
use packet_frame::packets::FULL;

/// The sequence id that comes after a payload: one for each piece, and wrapping from 255 to 0.
pub fn id_behind(first: u8, payload: &[u8]) -> u8
    ensures { result ≡ sent.id_behind first payload.now }
{
    let pieces = (payload.len() / FULL % 256) as u8;
    first.wrapping_add(pieces).wrapping_add(1)
}

/// The sequence id that comes after some payloads.
pub fn id_behind_all(first: u8, payloads: &[Bytes]) -> u8
    ensures { result ≡ sent.id_behind_all first payloads.now }
{
    let mut next = first;
    'payloads: for payload in payloads {
        next = id_behind(next, payload.as_slice());
    }
    next
}
