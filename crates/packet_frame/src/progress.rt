//! The packet that is being read: its full pieces, and the present header or piece of payload.
//!
//! MySQL client/server protocol documentation, "MySQL Packets" and "Sending More Than 16Mb".

ghost use Rattle.packet_frame.specs.Framing.{new_framing, place_of, held_length, front_of, after_expect, missing_of, IsSound, IsWhole, IsReading, Takes, Refuses, TakesPacket};
ghost use Rattle.packet_frame.specs.Front.{Fault};
ghost use Rattle.packet_frame.specs.Packets.{full_size, pieces_text, header_text, Wants, IsRefused};
ghost use Rattle.packet_frame.specs.Progress.{framing, done_pieces, header_place, IsProgress, IsBetween};
ghost use Rattle.std.specs.Prelude.{◌≡◌, ℕ, ◌+◌, ◌-◌, ◌*◌, ◌^◌, ◌<◌, ◌≤◌, ◌++◌, [], length, take, IfOk, IfErr, IfSome, IfNone, IsTrue, ◌↔◌};

use crate::packets::{FULL, FrameFault, Packet, Want};
use lg_base::Bytes;
use std::alloc::Global;
use std::mem;

/// What is read next.
#[derive(Clone, Copy)]
pub enum Stage {
    /// A header.
    Header,
    /// A piece of payload of so many bytes.
    Payload { size: usize },
    /// Nothing: the packet is whole.
    Ready,
    /// Nothing: the stream has a fault.
    Failed(FrameFault),
}

/// A packet of which some bytes were read.
#[derive(Drop)]
pub struct Progress {
    /// The greatest payload.
    pub limit: u32,
    /// The wanted id of the packet's first header.
    pub want: Want,
    /// The wanted id of the next header.
    pub next: Want,
    /// The place of the packet's first header.
    pub start: u64,
    /// The id of the packet's first header, once it was read.
    pub first: u8,
    /// The id of the last header that was read whole.
    pub last: u8,
    /// How many full pieces were read.
    pub full: usize,
    /// The present header, of which `seen` bytes were read.
    pub header: [u8; 4],
    pub seen: usize,
    /// What came of the payload, all pieces joined.
    pub payload: Vec<u8>,
    pub stage: Stage,
}

/// The header with the bytes of `piece` after the first `seen`.
fn filled(mut header: [u8; 4], seen: usize, piece: &[u8]) -> [u8; 4]
    requires { seen + length piece.now ≤ 4 }
    ensures four { length result ≡ 4 }
    ensures bytes { take (seen + length piece.now) result ≡ take seen header ++ piece.now }
{
    header[seen..seen + piece.len()].copy_from_slice(piece);
    header
}

/// The length and the id that a header holds.
fn fields(header: [u8; 4]) -> (usize, u8)
    ensures held { header ≡ header_text result.0 result.1 }
    ensures in_range { result.0 < 16777216 }
{
    let [low, middle, high, id] = header;
    (u32::from_le_bytes([low, middle, high, 0]) as usize, id)
}

/// The first id of a packet, `full` pieces of which come before the piece with this id.
fn first_of(full: usize, first: u8, id: u8) -> u8
    ensures none { full ≡ 0 → result ≡ id }
    ensures some { 0 < full → result ≡ first }
{
    if full == 0 { id } else { first }
}

/// What is read after a header that states so many bytes of payload.
fn stage_of(size: usize) -> Stage
    ensures none { size ≡ 0 → result ≡ Stage.Ready }
    ensures some { 0 < size → result ≡ Stage.Payload size }
{
    if size == 0 {
        Stage::Ready
    } else {
        Stage::Payload { size }
    }
}

impl Progress {
    /// No byte of a packet yet.
    #[tactic(auto, unfolding(crate::specs::Progress::full_pieces))]
    pub fn new(alloc: Global, limit: u32, want: Want) -> Progress
        requires { limit ≤ 50331645 }
        ensures sound { IsProgress result }
        ensures starts { framing result ≡ new_framing limit want }
    {
        Progress {
            limit,
            want,
            next: want,
            start: 0,
            first: 0,
            last: 0,
            full: 0,
            header: [0; 4],
            seen: 0,
            payload: Vec::new(alloc),
            stage: Stage::Header,
        }
    }

    /// The place of the present header.
    fn header_place(&self) -> u64
        requires { IsProgress self.now }
        ensures { result ≡ header_place self.now }
    {
        self.start + (self.full * (FULL + 4)) as u64
    }

    /// The length and the id of a whole header, or the fault that it has.
    fn admit(&self, header: [u8; 4]) -> Result<(usize, u8), FrameFault>
        requires { IsProgress self.now }
        ensures ok { IfOk result (λ found.
            (header ≡ header_text found.0 found.1) × (found.0 ≤ full_size)
            × Wants self.now.next found.1 × (self.now.full * full_size + found.0 ≤ self.now.limit)) }
        ensures err { IfErr result (λ fault. (size id : ℕ) × (header ≡ header_text size id) × (size < 16777216)
            × IsRefused (self.now.limit - self.now.full * full_size) self.now.next (header_place self.now)
            size id fault) }
    {
        let (size, id) = fields(header);
        let at = self.header_place();
        match self.next {
            Want::Exactly(want) if want != id => Err(FrameFault::OutOfOrder { at, want, got: id }),
            _ if size > self.limit as usize - self.full * FULL => {
                Err(FrameFault::TooLarge { at })
            }
            _ => Ok((size, id)),
        }
    }

    /// Goes on to the payload of a piece, after its header.
    fn begin_piece(&mut self, header: [u8; 4], size: usize, id: u8)
        requires stage { self.old.stage ≡ Stage.Header }
        requires sound { IsProgress self.old }
        requires in_place { header_place self.old + 4 ≤ 2 ^ 63 }
        requires is { header ≡ header_text size id }
        requires in_range { size ≤ full_size }
        requires wanted { Wants self.old.next id }
        requires fits { self.old.full * full_size + size ≤ self.old.limit }
        ensures sound { IsProgress self.new }
        ensures taken { framing self.new ≡ record (framing self.old) {
          held = pieces_text self.old.first (done_pieces self.old) ++ header;
        } }
        ensures no_fault { IsSound (front_of (framing self.new)) }
    {
        let first = first_of(self.full, self.first, id);
        let stage = stage_of(size);
        self.first = first;
        self.last = id;
        self.header = header;
        self.seen = 4;
        self.stage = stage;
    }

    /// Takes bytes of the present header.
    fn take_header(&mut self, piece: &[u8]) -> Result<usize, FrameFault>
        requires stage { self.old.stage ≡ Stage.Header }
        requires sound { IsProgress self.old }
        requires in_place { place_of (framing self.old) + length piece.now ≤ 2 ^ 63 }
        ensures sound { IsProgress self.new }
        ensures ok { IfOk result (λ count. Takes (framing self.old) piece.now count (framing self.new)) }
        ensures err { IfErr result (λ fault. Refuses (framing self.old) piece.now fault (framing self.new)) }
    {
        let count = piece.len().min(4 - self.seen);
        let header = filled(self.header, self.seen, &piece[..count]);
        if self.seen + count < 4 {
            self.header = header;
            self.seen += count;
            return Ok(count);
        }
        match self.admit(header) {
            Ok((size, id)) => {
                self.payload.reserve(size)?;
                self.begin_piece(header, size, id);
                Ok(count)
            }
            Err(fault) => {
                self.header = header;
                self.seen = 4;
                self.stage = Stage::Failed(fault);
                Err(fault)
            }
        }
    }

    /// Goes on after the end of a piece of payload.
    fn end_piece(&mut self, size: usize)
        requires stage { self.old.stage ≡ Stage.Payload size }
        requires begun { IsBetween self.old size }
        ensures sound { IsProgress self.new }
        ensures same { framing self.new ≡ framing self.old }
        ensures no_fault { IsSound (front_of (framing self.new)) }
    {
        if size == FULL {
            self.full += 1;
            self.seen = 0;
            self.next = Want::Exactly(self.last.wrapping_add(1));
            self.stage = Stage::Header;
        } else {
            self.stage = Stage::Ready;
        }
    }

    /// Takes bytes of the present piece of payload, which has `size` bytes.
    fn take_payload(&mut self, size: usize, piece: &[u8]) -> Result<usize, FrameFault>
        requires stage { self.old.stage ≡ Stage.Payload size }
        requires sound { IsProgress self.old }
        requires in_place { place_of (framing self.old) + length piece.now ≤ 2 ^ 63 }
        ensures sound { IsProgress self.new }
        ensures ok { IfOk result (λ count. Takes (framing self.old) piece.now count (framing self.new)) }
        ensures err { IfErr result (λ fault. Refuses (framing self.old) piece.now fault (framing self.new)) }
    {
        let missing = self.full * FULL + size - self.payload.len();
        let count = piece.len().min(missing);
        self.payload.extend_from_slice(&piece[..count])?;
        if count == missing {
            self.end_piece(size);
        }
        Ok(count)
    }

    /// Takes bytes of `piece` up to the end of the present header or piece of payload.
    pub fn feed(&mut self, piece: &[u8]) -> Result<usize, FrameFault>
        requires sound { IsProgress self.old }
        requires in_place { place_of (framing self.old) + length piece.now ≤ 2 ^ 63 }
        ensures sound { IsProgress self.new }
        ensures ok { IfOk result (λ count. Takes (framing self.old) piece.now count (framing self.new)) }
        ensures err { IfErr result (λ fault. Refuses (framing self.old) piece.now fault (framing self.new)) }
        ensures again { (fault : FrameFault) → front_of (framing self.old) ≡ Fault fault →
            (result ≡ Err fault) × (framing self.new ≡ framing self.old) }
    {
        match self.stage {
            Stage::Header => self.take_header(piece),
            Stage::Payload { size } => self.take_payload(size, piece),
            Stage::Ready => Ok(0),
            Stage::Failed(fault) => Err(fault),
        }
    }

    /// How many bytes end the present header or piece of payload, where one is read.
    pub fn missing(&self) -> usize
        requires { IsProgress self.now }
        ensures value { result ≡ missing_of (front_of (framing self.now)) }
        ensures reading { IsReading (framing self.now) }
    {
        match self.stage {
            Stage::Header => 4 - self.seen,
            Stage::Payload { size } => self.full * FULL + size - self.payload.len(),
            Stage::Ready => 0,
            Stage::Failed(_) => 0,
        }
    }

    /// How many bytes of the stream were read.
    pub fn place(&self) -> u64
        requires { IsProgress self.now }
        ensures value { result ≡ place_of (framing self.now) }
        ensures reading { IsReading (framing self.now) }
    {
        self.header_place() + self.seen as u64 + (self.payload.len() - self.full * FULL) as u64
    }

    /// Whether the packet is whole.
    pub fn is_ready(&self) -> bool
        requires { IsProgress self.now }
        ensures whole { IsTrue result ↔ IsWhole (front_of (framing self.now)) }
        ensures stage { IsTrue result → self.now.stage ≡ Stage.Ready }
        ensures reading { IsReading (framing self.now) }
    {
        matches!(self.stage, Stage::Ready)
    }

    /// The whole packet, if there is one. The next one is wanted with the id after its last one.
    pub fn take(&mut self, alloc: Global) -> Option<Packet>
        requires { IsProgress self.old }
        ensures sound { IsProgress self.new }
        ensures none { IfNone result
            ((self.new ≡ self.old) × (IsWhole (front_of (framing self.old)) → ⊥)) }
        ensures some { IfSome result (λ packet. TakesPacket (framing self.old) packet (framing self.new)) }
    {
        if !self.is_ready() {
            return None;
        }
        let place = self.place();
        let packet = Packet {
            first: self.first,
            last: self.last,
            at: self.start,
            payload: Bytes::from_vec(mem::replace(&mut self.payload, Vec::new(alloc))),
        };
        self.want = Want::Exactly(self.last.wrapping_add(1));
        self.next = self.want;
        self.start = place;
        self.full = 0;
        self.seen = 0;
        self.stage = Stage::Header;
        Some(packet)
    }

    /// How many bytes of an unfinished packet were read.
    pub fn held(&self) -> u64
        requires { IsProgress self.now }
        ensures length { result ≡ held_length (framing self.now) }
        ensures reading { IsReading (framing self.now) }
    {
        if self.is_ready() {
            0
        } else {
            self.place() - self.start
        }
    }

    /// Sets which id the next packet must begin with.
    pub fn expect(&mut self, want: Want)
        requires sound { IsProgress self.old }
        requires between { held_length (framing self.old) ≡ 0 }
        ensures sound { IsProgress self.new }
        ensures wanted { framing self.new
            ≡ after_expect (front_of (framing self.old)) (framing self.old) want }
    {
        if !self.is_ready() {
            self.want = want;
            self.next = want;
        }
    }
}
