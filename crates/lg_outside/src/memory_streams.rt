//! A source and a sink in memory, which tell their bytes to contracts.

ghost use Rattle.lg_outside.specs.Faults.{Rose};
ghost use Rattle.lg_outside.specs.Plan.{after_call, fails_next};
ghost use Rattle.lg_outside.specs.Streams.{Adds, Gives};
ghost use Rattle.std.specs.Prelude.{◌≡◌, ◌<◌, ◌≤◌, ◌-◌, ◌||◌, Some, [], IfOk, OnErr, is_err, length, min, nat_lt};

use crate::memory_parts::{Room, Unread};
use crate::planned_faults::PlannedFaults;
use crate::streams::{Failed, Sink, Source};
use lg_base::{Bytes, Items, Memory};
use std::alloc::Global;
use std::marker::Model;

/// A source that gives the bytes that it was made with, and fails at listed reads.
#[derive(Debug, Drop)]
pub struct MemorySource {
    unread: Unread,
    plan: PlannedFaults,
}

impl Model for MemorySource {
    ghost use Rattle.lg_outside.specs.MemoryStreams.{Stream};

    ghost Value = { Stream };

    ghost view = { λ s. record { bytes = s.unread.left; plan = s.plan } };
}

impl MemorySource {
    /// A source of `bytes` whose reads with the numbers in `failing` fail, counted from 1.
    pub fn new(bytes: Bytes, failing: Items<u64>) -> MemorySource
        ensures { result ≡ record { bytes = bytes; plan = record { failing = failing; calls = 0; faults = 0 } } }
    {
        MemorySource {
            unread: Unread::new(bytes),
            plan: PlannedFaults::new(failing),
        }
    }
}

impl Source for MemorySource {
    ghost left = { λ s. Some s.bytes };

    ghost fault_count = { λ s. s.plan.faults };

    // It fails at the listed calls alone, and else gives all that is left or that the buffer has room for.
    fn read(&mut self, buf: &mut [u8]) -> Result<usize, Failed>
        requires { 0 < length buf.old }
        ensures within { IfOk result (λ count. count ≤ length buf.new) }
        ensures bytes { Gives (Some self.old.bytes) (Some self.new.bytes) result buf.new }
        ensures cause { OnErr result (Rose self.old.plan.faults self.new.plan.faults) }
        ensures rising { self.old.plan.faults ≤ self.new.plan.faults }

        ensures fails { is_err result ≡ fails_next self.old.plan }
        ensures plan { self.new.plan ≡ after_call self.old.plan (is_err result) }
        ensures count { IfOk result (λ count. count ≡ min (length self.old.bytes) (length buf.old)) }
    {
        if self.plan.next_fails(false) {
            return Err(Failed);
        }
        Ok(self.unread.give(buf))
    }

    fn faults(&self) -> u64 {
        self.plan.faults()
    }
}

/// A sink with room for a number of bytes, which fails at listed writes and where the room is short.
#[derive(Debug, Drop)]
pub struct MemorySink {
    store: Room,
    plan: PlannedFaults,
}

impl Model for MemorySink {
    ghost use Rattle.lg_outside.specs.MemoryStreams.{Store};

    ghost Value = { Store };

    ghost view = { λ s. record { bytes = s.store.bytes; room = s.store.room; plan = s.plan } };
}

impl MemorySink {
    /// A sink with room for `room` bytes whose writes with the numbers in `failing` fail, counted from 1.
    pub fn new(alloc: Global, room: usize, failing: Items<u64>) -> Result<MemorySink, Memory>
        ensures { IfOk result (λ made. made ≡ record { bytes = []; room = room; plan = record { failing = failing; calls = 0; faults = 0 } }) }
    {
        Ok(MemorySink {
            store: Room::new(alloc, room)?,
            plan: PlannedFaults::new(failing),
        })
    }

    /// What was written.
    pub fn written(&self) -> &[u8]
        ensures { result.now ≡ self.now.bytes }
    {
        self.store.bytes()
    }
}

impl Sink for MemorySink {
    ghost written = { λ s. Some s.bytes };

    ghost fault_count = { λ s. s.plan.faults };

    // It fails at the listed calls and where the bytes don't fit in the room that is left, and a write that
    // fails adds nothing.
    fn write_all(&mut self, bytes: &[u8]) -> Result<(), Failed>
        ensures bytes { Adds (Some self.old.bytes) (Some self.new.bytes) result bytes.now }
        ensures cause { OnErr result (Rose self.old.plan.faults self.new.plan.faults) }
        ensures rising { self.old.plan.faults ≤ self.new.plan.faults }

        ensures fails { is_err result ≡ (nat_lt (self.old.room - length self.old.bytes) (length bytes.now) || fails_next self.old.plan) }
        ensures plan { self.new.plan ≡ after_call self.old.plan (is_err result) }
        ensures room { self.new.room ≡ self.old.room }
        ensures err { OnErr result (self.new.bytes ≡ self.old.bytes) }
    {
        if self.plan.next_fails(self.store.is_short(bytes)) {
            return Err(Failed);
        }
        self.store.fill(bytes);
        Ok(())
    }

    fn faults(&self) -> u64 {
        self.plan.faults()
    }
}
