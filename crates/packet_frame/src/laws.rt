//! Laws of packets and streams, for the crates that stand on this one. The functions do nothing: what
//! they say is in their contracts.

ghost use Rattle.packet_frame.specs.Framing.{Framing, new_framing};
ghost use Rattle.packet_frame.specs.Front.{Front, Whole, front, IsFront, StaysWith};
ghost use Rattle.packet_frame.specs.Packets.{Wants, IsPacket};
ghost use Rattle.packet_frame.specs.Streams.{Ending, Faulty, IsEnding, IsStream, Move, bytes_of, packets_of, IsRun};
ghost use Rattle.std.specs.Prelude.{◌≡◌, ◌↔◌, ◌<◌, ◌≤◌, ◌++◌, [], ℕ, List, All, length};

use crate::packets::{FrameFault, Packet, Want};

/// What is computed of the front of bytes is what stands there: a packet, less than a packet, or a fault.
pub fn front_is_what_stands_there()
    ensures { (limit : ℕ) (want : Want) (place : ℕ) (bytes : List ℕ) (found : Front) →
        All (λ x. x < 256) bytes →
        (IsFront limit want place bytes found) ↔ (front limit want place bytes ≡ found) }
{}

/// A packet at the front stays that packet with further bytes behind it, and a fault stays that fault.
pub fn front_stays_with_more_behind()
    ensures { (limit : ℕ) (want : Want) (place : ℕ) (bytes more : List ℕ) →
        StaysWith more (front limit want place bytes) (front limit want place (bytes ++ more)) }
{}

/// Every list of bytes is a stream: packets laid end to end, and an ending.
pub fn bytes_are_a_stream()
    ensures { (limit : ℕ) (next : ℕ → Want) (want : Want) (place : ℕ) (bytes : List ℕ) →
        All (λ x. x < 256) bytes →
        (packets : List Packet) × (ending : Ending)
        × IsStream limit next want place bytes packets ending }
{}

/// A stream has one reading: its packets and its ending are determined by its bytes.
pub fn streams_have_one_reading()
    ensures { (limit : ℕ) (next : ℕ → Want) (want : Want) (place : ℕ) (bytes : List ℕ)
        (packets others : List Packet) (ending other : Ending) →
        IsStream limit next want place bytes packets ending →
        IsStream limit next want place bytes others other →
        (packets ≡ others) × (ending ≡ other) }
{}

/// What a reader gives is the stream of the bytes that it was fed, whatever pieces it was fed.
pub fn readers_give_the_stream()
    ensures { (limit : ℕ) (next : ℕ → Want) (want : Want) (moves : List Move) (v : Framing)
        (ending : Ending) →
        IsRun next (new_framing limit want) moves v →
        IsEnding v.limit v.want v.start v.held ending →
        IsStream limit next want 0 (bytes_of moves) (packets_of moves) ending }
{}

/// A stream that ends at a fault is that stream whatever follows.
pub fn faults_end_the_stream()
    ensures { (limit : ℕ) (next : ℕ → Want) (want : Want) (place : ℕ) (bytes : List ℕ)
        (packets : List Packet) (fault : FrameFault) (more : List ℕ) →
        IsStream limit next want place bytes packets (Faulty fault) →
        IsStream limit next want place (bytes ++ more) packets (Faulty fault) }
{}

/// The packets of a stream don't depend on the cutting: two readers that were fed the same bytes in
/// whatever pieces give the same packets, and end in the same way.
pub fn cutting_changes_nothing()
    ensures { (limit : ℕ) (next : ℕ → Want) (want : Want) (moves others : List Move)
        (v w : Framing) (ending other : Ending) →
        bytes_of moves ≡ bytes_of others →
        IsRun next (new_framing limit want) moves v →
        IsEnding v.limit v.want v.start v.held ending →
        IsRun next (new_framing limit want) others w →
        IsEnding w.limit w.want w.start w.held other →
        (packets_of moves ≡ packets_of others) × (ending ≡ other) }
{}

/// A packet is found at the front of any bytes that begin with it, where its first id is wanted and its
/// payload fits. So what `write_packet` wrote is read again.
pub fn packets_are_found()
    ensures { (limit fits : ℕ) (want wanted : Want) (first last : ℕ)
        (payload text behind : List ℕ) (place : ℕ) →
        IsPacket fits wanted first last payload text → Wants want first → length payload ≤ limit →
        front limit want place (text ++ behind) ≡ Whole first last payload behind }
{}
