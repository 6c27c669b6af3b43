//! What the streams in memory share: bytes that are given piece by piece, and room that is filled.

ghost use Rattle.std.specs.Prelude.{◌≡◌, ◌≤◌, ◌<◌, ◌-◌, [], ◌++◌, IfOk, drop, length, min, nat_lt, take};

use lg_base::{Bytes, Memory};
use std::alloc::Global;
use std::marker::Model;

/// Bytes of which the first ones were given.
#[derive(Debug, Drop)]
pub(crate) struct Unread {
    bytes: Bytes,
    given: usize,
}

impl Model for Unread {
    ghost use Rattle.lg_outside.specs.MemoryParts.{Parted};
    ghost use Rattle.std.specs.Prelude.{◌≤◌, drop, length, take};

    ghost Value = { Parted };

    ghost view = { λ u. record { given = take u.given u.bytes; left = drop u.given u.bytes } };

    ghost invariant = { λ u. u.given ≤ length u.bytes };
}

impl Unread {
    /// Bytes of which none was given.
    pub(crate) fn new(bytes: Bytes) -> Unread
        ensures { result ≡ record { given = []; left = bytes } }
    {
        Unread { bytes, given: 0 }
    }

    /// Gives all that is left or that the buffer has room for, and answers how many bytes.
    pub(crate) fn give(&mut self, buf: &mut [u8]) -> usize
        ensures count { result ≡ min (length self.old.left) (length buf.old) }
        ensures bytes { take result buf.new ≡ take result self.old.left }
        ensures after { self.new ≡ record { given = self.old.given ++ take result self.old.left; left = drop result self.old.left } }
    {
        let left = &self.bytes.as_slice()[self.given..];
        let count = left.len().min(buf.len());
        buf[..count].copy_from_slice(&left[..count]);
        self.given += count;
        count
    }
}

/// Room for a number of bytes, of which the first ones are filled.
#[derive(Debug, Drop)]
pub(crate) struct Room {
    room: Vec<u8>,
    filled: usize,
}

impl Model for Room {
    ghost use Rattle.lg_outside.specs.MemoryParts.{Filled};
    ghost use Rattle.std.specs.Prelude.{◌≤◌, take, length};

    ghost Value = { Filled };

    ghost view = { λ s. record { bytes = take s.filled s.room.items; room = length s.room.items } };

    ghost invariant = { λ s. s.filled ≤ length s.room.items };
}

impl Room {
    /// Room for `room` bytes, none of which is filled.
    pub(crate) fn new(alloc: Global, room: usize) -> Result<Room, Memory>
        ensures { IfOk result (λ made. made ≡ record { bytes = []; room = room }) }
    {
        Ok(Room {
            room: vec![in alloc; 0; room]?,
            filled: 0,
        })
    }

    /// Whether there is too little room left for the bytes.
    pub(crate) fn is_short(&self, bytes: &[u8]) -> bool
        ensures { result ≡ nat_lt (self.now.room - length self.now.bytes) (length bytes.now) }
    {
        self.room.len() - self.filled < bytes.len()
    }

    /// Fills the room that is left with bytes that fit in it.
    pub(crate) fn fill(&mut self, bytes: &[u8])
        requires { length bytes.now ≤ self.old.room - length self.old.bytes }
        ensures { self.new ≡ record self.old { bytes = self.old.bytes ++ bytes.now } }
    {
        let end = self.filled + bytes.len();
        self.room.as_mut_slice()[self.filled..end].copy_from_slice(bytes);
        self.filled = end;
    }

    /// The bytes that are filled.
    pub(crate) fn bytes(&self) -> &[u8]
        ensures { result.now ≡ self.now.bytes }
    {
        &self.room.as_slice()[..self.filled]
    }
}
