//! Reading one packet.

ghost use Rattle.lg_outside.specs.Faults.{Rose};
ghost use Rattle.link_packets.specs.Reading.{ReadsPacket, Stops, between, end_at};
ghost use Rattle.link_packets.specs.declared.reading.ReadEnd.TheVariants.{Closed};
ghost use Rattle.packet_frame.specs.Framing.{front_of};
ghost use Rattle.packet_frame.specs.Front.{Part};
ghost use Rattle.std.specs.Prelude.{◌≡◌, ◌==◌, ◌≤◌, ◌^◌, ℕ, IfErr, IfOk, false, length, not};

use lg_outside::Link;
use packet_frame::{FrameFault, Frames, Packet, Want};
use packet_stream::MAX_PAYLOAD;
use std::alloc::Global;

/// The most bytes read at a time.
const PIECE: usize = 16_384;

/// Why no packet was read.
#[derive(Clone, Copy, Debug, PartialEq, Eq)]
pub enum ReadEnd {
    /// The bytes are no packet. The fault is never `Memory`.
    Faulty(FrameFault),
    /// The peer ended the connection, within a packet where `cut` is true.
    Closed { cut: bool },
    /// The link failed.
    Failed,
    /// No memory was to be had for what was read.
    Memory,
}

/// A reader at the start of a stream, whose first packet has the sequence id 0.
pub fn new_reader(alloc: Global) -> Frames
    ensures { result ≡ between 0 0 }
{
    Frames::new(alloc, MAX_PAYLOAD, Want::Exactly(0))
}

/// Why no packet comes after a fault of the reader.
fn end_at(fault: FrameFault) -> ReadEnd
    ensures { result ≡ end_at fault }
{
    match fault {
        FrameFault::Memory => ReadEnd::Memory,
        FrameFault::TooLarge { .. } | FrameFault::OutOfOrder { .. } => ReadEnd::Faulty(fault),
    }
}

/// The peer ended the connection, within a packet or between two.
#[tactic(auto, using(crate::proofs::Packets::held_of_part))]
fn closed_within(frames: &Frames) -> ReadEnd
    ensures { (missing : ℕ) → front_of frames.now ≡ Part missing → result ≡ Closed (not (length (frames.now).held == 0)) }
{
    let held = frames.held();
    ReadEnd::Closed { cut: held != 0 }
}

/// Reads the next packet, and no byte behind it, by a reader that stands between two packets. After an error the reader may
/// hold a part of a packet.
pub fn read_packet<L: Link>(link: &mut L, frames: &mut Frames) -> Result<Packet, ReadEnd>
    requires open { L.finished link.old ≡ false }
    requires begun { (id place : ℕ) × (frames.old ≡ between id place) × (place ≤ 2 ^ 62) }
    ensures packet { (id place : ℕ) → frames.old ≡ between id place →
        IfOk result (λ packet. ReadsPacket id place (L.told link.old) (L.told link.new) packet frames.new) }
    ensures stops { (id place : ℕ) → frames.old ≡ between id place →
        IfErr result (λ end. Stops id place (L.told link.old) (L.told link.new) (Rose (L.fault_count link.old) (L.fault_count link.new)) end) }
    ensures stays { L.finished link.new ≡ false }
    ensures place { L.local link.new ≡ L.local link.old }
    ensures dialled { L.dialled link.new ≡ L.dialled link.old }
    ensures rising { L.fault_count link.old ≤ L.fault_count link.new }
{
    let mut piece = [0u8; PIECE];
    'reads: loop {
        let room = frames.missing().min(PIECE);
        let count = match link.read(&mut piece[..room]) {
            Ok(count) => count,
            Err(_) => return Err(ReadEnd::Failed),
        };
        if count == 0 {
            return Err(closed_within(frames));
        }
        match frames.feed(&piece[..count]) {
            Ok(_) => {}
            Err(fault) => return Err(end_at(fault)),
        }
        match frames.take() {
            Some(packet) => return Ok(packet),
            None => {}
        }
    }
}
