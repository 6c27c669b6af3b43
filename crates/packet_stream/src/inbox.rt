//! The bytes that a peer has sent and that weren't read.
//!
//! Payloads have at most [`MAX_PAYLOAD`] bytes, so each packet that is read is one piece: MySQL client/server protocol
//! documentation, "MySQL Packets".

ghost use Rattle.packet_stream.specs.Inbox.{IsShown, IsTakenOff, Splits, Takes};
ghost use Rattle.std.specs.Prelude.{◌≡◌, ◌≤◌, ◌==◌, ◌++◌, [], length, IfOk, OnOk, OnErr};

use crate::limits::MAX_PAYLOAD;
use lg_base::{Bytes, Memory};
use packet_frame::{FrameFault, Packet};
use std::alloc::Global;
use std::marker::Model;

/// The bytes of a header.
const HEADER: usize = 4;

/// What stands at the front of the bytes.
#[derive(Drop)]
pub enum Found {
    Packet(Packet),
    /// Less than a packet.
    Nothing,
    Fault(FrameFault),
}

/// Bytes that weren't read, and the place of the first of them in the stream.
#[derive(Drop)]
pub struct Inbox {
    place: u64,
    held: Vec<u8>,
    read: usize,
}

impl Model for Inbox {
    ghost use Rattle.packet_stream.specs.Streams.{Stream};
    ghost use Rattle.std.specs.Prelude.{◌≤◌, drop, length};

    ghost Value = { Stream };

    ghost view = { λ i. record { place = i.place; bytes = drop i.read i.held.items } };

    ghost invariant = { λ i. i.read ≤ length i.held.items };
}

/// What stands at the front of bytes.
#[derive(Clone, Copy)]
pub enum Shown<'a> {
    /// A packet with this payload, and what follows it.
    Whole { payload: &'a [u8], behind: &'a [u8] },
    /// Less than a packet.
    Part,
    Fault(FrameFault),
}

/// What stands at the front of bytes, whose first one stands at the place `at`, where a packet with the sequence id
/// `want` is to begin.
fn show(bytes: &[u8], want: u8, at: u64) -> Shown<'_>
    ensures front { IsShown want at bytes.now result }
    ensures splits { Splits bytes.now result }
{
    let [low, middle, high, got, behind @ ..] = bytes else {
        return Shown::Part;
    };
    if *got != want {
        return Shown::Fault(FrameFault::OutOfOrder {
            at,
            want,
            got: *got,
        });
    }
    let size = u32::from_le_bytes([*low, *middle, *high, 0]);
    if size > MAX_PAYLOAD {
        return Shown::Fault(FrameFault::TooLarge { at });
    }
    let size = size as usize;
    if behind.len() < size {
        return Shown::Part;
    }
    let (payload, behind) = behind.split_at(size);
    Shown::Whole { payload, behind }
}

impl Inbox {
    /// No bytes, at the start of a stream.
    pub fn new(alloc: Global) -> Inbox
        ensures { result ≡ record { place = 0; bytes = [] } }
    {
        Inbox {
            place: 0,
            held: Vec::new(alloc),
            read: 0,
        }
    }

    /// Whether all bytes were read.
    pub fn is_empty(&self) -> bool
        ensures { result ≡ (length self.now.bytes == 0) }
    {
        self.read == self.held.len()
    }

    /// How many bytes weren't read.
    pub fn len(&self) -> usize
        ensures { result ≡ length self.now.bytes }
    {
        self.held.len() - self.read
    }

    /// Further bytes came. After `Memory` none did.
    pub fn add(&mut self, bytes: &[u8]) -> Result<(), Memory>
        ensures ok { OnOk result (self.new ≡ record { place = self.old.place; bytes = self.old.bytes ++ bytes.now }) }
        ensures err { OnErr result (self.new ≡ self.old) }
    {
        if self.read == self.held.len() {
            self.held.clear();
            self.read = 0;
        }
        self.held.extend_from_slice(bytes)?;
        Ok(())
    }

    /// Takes the packet at the front, which must have the sequence id `want`. Where there is none, and after a fault,
    /// nothing is taken.
    pub fn take(&mut self, alloc: Global, want: u8) -> Result<Found, Memory>
        ensures ok { IfOk result (Takes want self.old self.new) }
        ensures shorter { length self.new.bytes ≤ length self.old.bytes }
        ensures taken { IfOk result (IsTakenOff self.old self.new) }
        ensures err { OnErr result (self.new ≡ self.old) }
    {
        let (read, at) = (self.read, self.place);
        match show(&self.held[read..], want, at) {
            Shown::Whole { payload, .. } => {
                let size = HEADER + payload.len();
                let payload = Bytes::copy(alloc, payload)?;
                let place = at.checked_add(size as u64).ok_or(Memory)?;
                self.place = place;
                self.read = read + size;
                Ok(Found::Packet(Packet {
                    first: want,
                    last: want,
                    at,
                    payload,
                }))
            }
            Shown::Part => Ok(Found::Nothing),
            Shown::Fault(fault) => Ok(Found::Fault(fault)),
        }
    }
}
