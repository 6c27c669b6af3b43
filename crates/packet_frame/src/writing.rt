//! Packets as they are written.
//!
//! MySQL client/server protocol documentation, "MySQL Packets" and "Sending More Than 16Mb".

ghost use Rattle.packet_frame.specs.Packets.{header_text, WritesPacket, WritesPieces};
ghost use Rattle.std.specs.Prelude.{◌≡◌, ◌<◌, ◌++◌, ℕ, List, length, IfOk, OnOk, OnErr};

use crate::packets::FULL;
use lg_base::{Memory, Out};

/// Adds the packet with this payload and this first sequence id, and answers the id that comes after its
/// last one. After `Memory`, `out` is unchanged.
pub fn write_packet(first: u8, payload: &[u8], out: &mut Out) -> Result<u8, Memory>
    ensures ok { IfOk result (λ next. WritesPacket first payload.now next out.old out.new) }
    ensures err { OnErr result (out.new ≡ out.old) }
{
    let before = out.as_slice().len();
    let written = write_pieces(first, payload, out);
    if written.is_err() {
        out.truncate(before);
    }
    written
}

/// Adds the packet, or after `Memory` a part of it.
fn write_pieces(first: u8, payload: &[u8], out: &mut Out) -> Result<u8, Memory>
    ensures ok { IfOk result (λ next. WritesPacket first payload.now next out.old out.new) }
    ensures err { OnErr result ((more : List ℕ) × (out.new ≡ out.old ++ more)) }
{
    let mut id = first;
    let mut rest = payload;
    'pieces: while rest.len() >= FULL {
        let (piece, behind) = rest.split_at(FULL);
        write_piece(id, piece, out)?;
        rest = behind;
        id = id.wrapping_add(1);
    }
    write_piece(id, rest, out)?;
    Ok(id.wrapping_add(1))
}

/// Adds one piece, or after `Memory` a part of it.
fn write_piece(id: u8, piece: &[u8], out: &mut Out) -> Result<(), Memory>
    requires { length piece.now < 16777216 }
    ensures ok { OnOk result (out.new ≡ out.old ++ (header_text (length piece.now) id ++ piece.now)) }
    ensures err { OnErr result ((more : List ℕ) × (out.new ≡ out.old ++ more)) }
{
    let [low, middle, high, _] = (piece.len() as u32).to_le_bytes();
    out.bytes(&[low, middle, high, id])?;
    out.bytes(piece)
}
