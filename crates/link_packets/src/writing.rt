//! Writing the packets of payloads.

ghost use Rattle.lg_outside.specs.Faults.{Rose};
ghost use Rattle.link_packets.specs.Moving.{Moved};
ghost use Rattle.link_packets.specs.Writing.{Fails};
ghost use Rattle.packet_stream.specs.Packing.{packets_text};
ghost use Rattle.packet_stream.specs.Sent.{sent_from};
ghost use Rattle.std.specs.Prelude.{◌≡◌, ◌≤◌, [], IfErr, OnOk, false};

use lg_base::{Bytes, Memory, Out};
use lg_outside::Link;
use packet_stream::add_packets;
use std::alloc::Global;

/// Why not all packets were written.
#[derive(Clone, Copy, Debug, PartialEq, Eq)]
pub enum WriteEnd {
    /// The link failed. A part may have been written.
    Failed,
    /// No memory was to be had, and nothing was written.
    Memory,
}

/// Writes the packets with these payloads by one call, the first with this sequence id. Where there is no payload, the link
/// isn't called.
pub fn write_packets<L: Link>(
    alloc: Global,
    link: &mut L,
    first: u8,
    payloads: &[Bytes],
) -> Result<(), WriteEnd>
    requires { L.finished link.old ≡ false }
    ensures sent { OnOk result (Moved (L.told link.old) (L.told link.new) [] (packets_text (sent_from first payloads.now))) }
    ensures cut { IfErr result (λ end. Fails (packets_text (sent_from first payloads.now)) (L.told link.old) (L.told link.new) (Rose (L.fault_count link.old) (L.fault_count link.new)) end) }
    ensures stays { L.finished link.new ≡ false }
    ensures place { L.local link.new ≡ L.local link.old }
    ensures dialled { L.dialled link.new ≡ L.dialled link.old }
    ensures rising { L.fault_count link.old ≤ L.fault_count link.new }
{
    if payloads.is_empty() {
        return Ok(());
    }
    let mut text = Out::new(alloc);
    match add_packets(&mut text, first, payloads) {
        Ok(()) => {}
        Err(Memory) => return Err(WriteEnd::Memory),
    }
    match link.write_all(text.as_slice()) {
        Ok(()) => Ok(()),
        Err(_) => Err(WriteEnd::Failed),
    }
}
