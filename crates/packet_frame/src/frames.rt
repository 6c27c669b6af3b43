//! A reader of a stream of packets, which takes its bytes however they are cut.
//!
//! MySQL client/server protocol documentation, "MySQL Packets" and "Sending More Than 16Mb".

ghost use Rattle.packet_frame.specs.Framing.{new_framing, place_of, front_of, held_length, IsWhole, IsReading, Takes, Refuses, TakesPacket, after_expect, missing_of};
ghost use Rattle.packet_frame.specs.Front.{Part, Fault};
ghost use Rattle.std.specs.Prelude.{◌≡◌, ◌⊎◌, ◌↔◌, ◌+◌, ◌^◌, ◌≤◌, [], length, IfOk, IfErr, IfSome, IfNone, IsTrue};

use crate::packets::{FrameFault, Packet, Want};
use crate::progress::Progress;
use std::alloc::Global;
use std::marker::Model;

/// A reader of a stream. Contracts see the greatest payload, the wanted id and the place of the present
/// packet, and the bytes taken since the last packet.
#[derive(Drop)]
pub struct Frames {
    alloc: Global,
    progress: Progress,
}

impl Model for Frames {
    ghost use Rattle.packet_frame.specs.Framing.{Framing};
    ghost use Rattle.packet_frame.specs.Progress.{framing, IsProgress};

    ghost Value = { Framing };

    ghost view = { λ f. framing f.progress };

    ghost invariant = { λ f. IsProgress f.progress };
}

impl Frames {
    /// A reader at the start of a stream. A packet has at most `limit` bytes of payload.
    pub fn new(alloc: Global, limit: u32, want: Want) -> Frames
        requires { limit ≤ 50331645 }
        ensures starts { result ≡ new_framing limit want }
        ensures between { front_of result ≡ Part 4 }
    {
        Frames {
            alloc,
            progress: Progress::new(alloc, limit, want),
        }
    }

    /// Takes bytes of `piece` up to the end of the present header, or of the present piece of payload,
    /// and answers how many. The answer is 0 where the piece is empty or a packet waits to be taken out.
    ///
    /// A fault is answered at the fourth byte of its header, which counts as taken, and by every later
    /// call. `Memory` changes nothing, and the same bytes may be fed again.
    pub fn feed(&mut self, piece: &[u8]) -> Result<usize, FrameFault>
        requires { place_of self.old + length piece.now ≤ 2 ^ 63 }
        ensures ok { IfOk result (λ count. Takes self.old piece.now count self.new) }
        ensures err { IfErr result (λ fault. Refuses self.old piece.now fault self.new) }
        ensures reading { IsReading self.new }

        // It takes nothing exactly where there is nothing to take, or a packet waits.
        ensures nothing { IfOk result (λ count.
            (count ≡ 0) ↔ ((piece.now ≡ []) ⊎ IsWhole (front_of self.old))) }

        // After a fault every call answers it.
        ensures again { (fault : FrameFault) → front_of self.old ≡ Fault fault →
            (result ≡ Err fault) × (self.new ≡ self.old) }
    {
        self.progress.feed(piece)
    }

    /// Whether a packet waits to be taken out.
    pub fn ready(&self) -> bool
        ensures whole { IsTrue result ↔ IsWhole (front_of self.now) }
        ensures reading { IsReading self.now }
    {
        self.progress.is_ready()
    }

    /// The packet that waits, if there is one. The next one is wanted with the id after its last one.
    pub fn take(&mut self) -> Option<Packet>
        ensures some { IfSome result (λ packet. TakesPacket self.old packet self.new) }
        ensures none { IfNone result ((self.new ≡ self.old) × (IsWhole (front_of self.old) → ⊥)) }
    {
        self.progress.take(self.alloc)
    }

    /// Sets which id the next packet must begin with. While a packet waits, this changes nothing, since
    /// taking it out sets it anew.
    pub fn expect(&mut self, want: Want)
        requires { held_length self.old ≡ 0 }
        ensures { self.new ≡ after_expect (front_of self.old) self.old want }
    {
        self.progress.expect(want)
    }

    /// How many bytes of an unfinished packet were taken, its headers included: 0 between packets.
    pub fn held(&self) -> u64
        ensures length { result ≡ held_length self.now }
        ensures reading { IsReading self.now }
    {
        self.progress.held()
    }

    /// How many bytes end the present header, or the present piece of payload: as many as `feed` takes at most.
    /// It is 0 where a packet waits, and after a fault.
    pub fn missing(&self) -> usize
        ensures missing { result ≡ missing_of (front_of self.now) }
        ensures reading { IsReading self.now }
    {
        self.progress.missing()
    }

    /// How many bytes of the stream were taken.
    pub fn place(&self) -> u64
        ensures { result ≡ place_of self.now }
    {
        self.progress.place()
    }
}
