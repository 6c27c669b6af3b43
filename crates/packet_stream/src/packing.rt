//! Packets as they are written, by their payloads.
//!
//! MySQL client/server protocol documentation, "MySQL Packets" and "Sending More Than 16Mb".

ghost use Rattle.packet_stream.specs.Packing.{packet_text, packets_text};
ghost use Rattle.packet_stream.specs.Sent.{id_behind, sent_from};
ghost use Rattle.std.specs.Prelude.{◌≡◌, ◌++◌, ℕ, List, IfOk, OnErr, OnOk};

use lg_base::{Bytes, Memory, Out};
use packet_frame::write_packet;

/// Adds the packet with this payload and this first sequence id, and answers the id that comes behind it.
/// After `Memory`, `out` is unchanged.
pub fn add_packet(out: &mut Out, first: u8, payload: &[u8]) -> Result<u8, Memory>
    ensures text { OnOk result (out.new ≡ out.old ++ packet_text first payload.now) }
    ensures next { IfOk result (λ next. next ≡ id_behind first payload.now) }
    ensures err { OnErr result (out.new ≡ out.old) }
{
    let next = write_packet(first, payload, out)?;
    Ok(next)
}

/// Adds the packets with these payloads end to end, the first with this sequence id. After `Memory`, `out` is unchanged.
pub fn add_packets(out: &mut Out, first: u8, payloads: &[Bytes]) -> Result<(), Memory>
    ensures text { OnOk result (out.new ≡ out.old ++ packets_text (sent_from first payloads.now)) }
    ensures err { OnErr result (out.new ≡ out.old) }
{
    let before = out.as_slice().len();
    let added = add_each(out, first, payloads);
    if added.is_err() {
        out.truncate(before);
    }
    added
}

/// Adds the packets, or after `Memory` some of them.
fn add_each(out: &mut Out, first: u8, payloads: &[Bytes]) -> Result<(), Memory>
    ensures text { OnOk result (out.new ≡ out.old ++ packets_text (sent_from first payloads.now)) }
    ensures err { OnErr result ((more : List ℕ) × (out.new ≡ out.old ++ more)) }
{
    let mut next = first;
    'payloads: for payload in payloads {
        next = add_packet(out, next, payload.as_slice())?;
    }
    Ok(())
}
