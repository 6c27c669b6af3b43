//! A link in memory, which tells its bytes to contracts.

ghost use Rattle.lg_outside.specs.Faults.{Rose};
ghost use Rattle.lg_outside.specs.Links.{Dials, Receives, Sends};
ghost use Rattle.lg_outside.specs.MemoryLinks.{traffic};
ghost use Rattle.lg_outside.specs.Plan.{after_call, fails_next};
ghost use Rattle.std.specs.Prelude.{◌≡◌, ◌<◌, ◌≤◌, ◌-◌, ◌||◌, Some, [], ◌∷◌, ◌++◌, false, true, IfOk, OnErr, is_err, length, min, nat_lt};

use crate::links::{Dial, Link};
use crate::memory_parts::{Room, Unread};
use crate::planned_faults::PlannedFaults;
use crate::streams::Failed;
use ghost_value::{Denotes, GhostValue};
use lg_base::{Bytes, Items, Memory};
use std::alloc::Global;
use std::marker::Model;

/// A link whose peer sent the bytes that it was made with, and that has room for a number of bytes to be
/// written. It fails at listed calls of `read`, `write_all` and `dial`, and where the room is short. The paths that
/// are dialled are kept for contracts alone.
#[derive(Drop)]
pub struct MemoryLink {
    unread: Unread,
    store: Room,
    is_local: bool,
    dialled: GhostValue<Items<Bytes>>,
    is_finished: bool,
    plan: PlannedFaults,
}

impl Model for MemoryLink {
    ghost use Rattle.lg_outside.specs.MemoryLinks.{Wire};

    ghost Value = { Wire };

    ghost view = { λ s. record {
      read = s.unread.given;
      left = s.unread.left;
      written = s.store.bytes;
      room = s.store.room;
      local = s.is_local;
      dialled = s.dialled.value;
      finished = s.is_finished;
      plan = s.plan;
    } };
}

impl MemoryLink {
    /// A link that came with `bytes` and has room for `room` bytes. Its calls with the numbers in `failing`
    /// fail, counted from 1 over reads, writes and dials together.
    pub fn new(
        alloc: Global,
        bytes: Bytes,
        room: usize,
        is_local: bool,
        failing: Items<u64>,
    ) -> Result<MemoryLink, Memory>
        ensures { IfOk result (λ made. made ≡ record {
          read = [];
          left = bytes;
          written = [];
          room = room;
          local = is_local;
          dialled = [];
          finished = false;
          plan = record { failing = failing; calls = 0; faults = 0 };
        }) }
    {
        Ok(MemoryLink {
            unread: Unread::new(bytes),
            store: Room::new(alloc, room)?,
            is_local,
            dialled: GhostValue::of(&NoDial),
            is_finished: false,
            plan: PlannedFaults::new(failing),
        })
    }

    /// What was written.
    pub fn written(&self) -> &[u8]
        ensures { result.now ≡ self.now.written }
    {
        self.store.bytes()
    }
}

impl Link for MemoryLink {
    ghost told = { λ s. Some (traffic s) };

    ghost local = { λ s. s.local };

    ghost dialled = { λ s. Some s.dialled };

    ghost finished = { λ s. s.finished };

    ghost fault_count = { λ s. s.plan.faults };

    // It fails at the listed calls alone, and else gives all that is left or that the buffer has room for.
    fn read(&mut self, buf: &mut [u8]) -> Result<usize, Failed>
        requires room { 0 < length buf.old }
        requires open { self.old.finished ≡ false }
        ensures within { IfOk result (λ count. count ≤ length buf.new) }
        ensures bytes { Receives (Some (traffic self.old)) (Some (traffic self.new)) result buf.new }
        ensures place { self.new.local ≡ self.old.local }
        ensures dialled { Some self.new.dialled ≡ Some self.old.dialled }
        ensures stays { self.new.finished ≡ false }
        ensures cause { OnErr result (Rose self.old.plan.faults self.new.plan.faults) }
        ensures rising { self.old.plan.faults ≤ self.new.plan.faults }

        ensures fails { is_err result ≡ fails_next self.old.plan }
        ensures plan { self.new.plan ≡ after_call self.old.plan (is_err result) }
        ensures count { IfOk result (λ count. count ≡ min (length self.old.left) (length buf.old)) }
        ensures room { self.new.room ≡ self.old.room }
    {
        if self.plan.next_fails(false) {
            return Err(Failed);
        }
        Ok(self.unread.give(buf))
    }

    // It fails at the listed calls and where the bytes don't fit in the room that is left, and a write that
    // fails adds nothing.
    fn write_all(&mut self, bytes: &[u8]) -> Result<(), Failed>
        requires { self.old.finished ≡ false }
        ensures bytes { Sends (Some (traffic self.old)) (Some (traffic self.new)) result bytes.now }
        ensures place { self.new.local ≡ self.old.local }
        ensures dialled { Some self.new.dialled ≡ Some self.old.dialled }
        ensures stays { self.new.finished ≡ false }
        ensures cause { OnErr result (Rose self.old.plan.faults self.new.plan.faults) }
        ensures rising { self.old.plan.faults ≤ self.new.plan.faults }

        ensures fails { is_err result ≡ (nat_lt (self.old.room - length self.old.written) (length bytes.now) || fails_next self.old.plan) }
        ensures plan { self.new.plan ≡ after_call self.old.plan (is_err result) }
        ensures room { self.new.room ≡ self.old.room }
        ensures err { OnErr result (self.new.written ≡ self.old.written) }
    {
        if self.plan.next_fails(self.store.is_short(bytes)) {
            return Err(Failed);
        }
        self.store.fill(bytes);
        Ok(())
    }

    fn is_local(&self) -> bool {
        self.is_local
    }

    fn finish(&mut self)
        ensures done { self.new ≡ record self.old { finished = true } }
        ensures bytes { traffic self.new ≡ traffic self.old }
        ensures place { self.new.local ≡ self.old.local }
        ensures dialled { Some self.new.dialled ≡ Some self.old.dialled }
        ensures faults { self.new.plan.faults ≡ self.old.plan.faults }
    {
        self.is_finished = true;
    }

    fn faults(&self) -> u64 {
        self.plan.faults()
    }
}

impl Dial for MemoryLink {
    // It fails at the listed calls alone, whatever the path, and changes nothing but the plan and what was dialled.
    fn dial(&mut self, path: &str) -> Result<(), Failed>
        ensures dialled { Dials (Some self.old.dialled) (Some self.new.dialled) result path.now }
        ensures bytes { Some (traffic self.new) ≡ Some (traffic self.old) }
        ensures place { self.new.local ≡ self.old.local }
        ensures stays { self.new.finished ≡ self.old.finished }
        ensures cause { OnErr result (Rose self.old.plan.faults self.new.plan.faults) }
        ensures rising { self.old.plan.faults ≤ self.new.plan.faults }

        ensures fails { is_err result ≡ fails_next self.old.plan }
        ensures after { self.new ≡ record self.old { dialled = self.new.dialled; plan = after_call self.old.plan (is_err result) } }
    {
        if self.plan.next_fails(false) {
            return Err(Failed);
        }
        let dialled = &self.dialled;
        self.dialled = GhostValue::of(&DialNote { dialled, path });
        Ok(())
    }
}

/// No path.
#[derive(Drop)]
struct NoDial;

impl Denotes<Items<Bytes>> for NoDial {
    ghost denoted = { λ _. [] };
}

/// One path more.
#[derive(Drop)]
struct DialNote<'a> {
    dialled: &'a GhostValue<Items<Bytes>>,
    path: &'a str,
}

impl<'a> Denotes<Items<Bytes>> for DialNote<'a> {
    ghost denoted = { λ n. n.dialled.now.value ++ n.path.now ∷ [] };
}
