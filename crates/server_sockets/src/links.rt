//! A link of a door, with its deadlines. It tells nothing of content.

ghost use Rattle.lg_outside.specs.Faults.{Rose, counted};
ghost use Rattle.lg_outside.specs.Links.{Receives, Sends};
ghost use Rattle.lg_outside.specs.Traffic.{untold, untold_paths};
ghost use Rattle.server_sockets.specs.Counts.{count_after};
ghost use Rattle.server_sockets.specs.Sights.{new_sight, seen};
ghost use Rattle.std.specs.Prelude.{◌≡◌, ◌<◌, ◌≤◌, IfOk, IfSome, None, OnErr, false, true, is_none, length, option_map};

use crate::rooms::Room;
use crate::sights::Sight;
use crate::waits::{moment_after, read_until, write_until};
use lg_outside::{Failed, Link};
use std::os::unix::net::UnixStream;
use std::time::{Clock, Duration};

/// How long after the connection came a login has to be over, in seconds.
const LOGIN: u64 = 10;

/// How long a session may be without a byte, in seconds: 8 hours.
const IDLE: u64 = 28800;

/// How long a peer may take for what is written to it, in seconds.
const TAKING: u64 = 60;

/// A stream, and the room that it takes.
#[derive(Drop)]
struct Connected {
    stream: UnixStream,
    room: Room,
}

/// A connection that a door accepted: its stream and its room until it is finished, until when the login has to be over,
/// and what was seen of that.
#[derive(Drop)]
pub struct StreamLink<T> {
    time: T,
    socket: Option<Connected>,
    until: Duration,
    sight: Sight,
    faults: u64,
}

impl<T> StreamLink<T> {
    /// Counts a failure.
    fn fail(&mut self) -> Failed
        ensures count { self.new.faults ≡ counted self.old.faults }
        ensures rising { self.old.faults ≤ self.new.faults }
        ensures socket { self.new.socket ≡ self.old.socket }
        ensures sight { self.new.sight ≡ self.old.sight }
    {
        self.faults = self.faults.saturating_add(1);
        Failed
    }
}

impl<T: Clock> StreamLink<T> {
    /// A link over a stream that has just come, where the system gives the time.
    pub(crate) fn over(time: T, stream: UnixStream, room: Room) -> Option<StreamLink<T>>
    where
        T: Drop,
        ensures { IfSome result (λ link. (is_none link.socket ≡ false) × (link.faults ≡ 0) × (link.sight ≡ new_sight)) }
    {
        let until = moment_after(&time, Duration::from_secs(LOGIN))?;
        Some(StreamLink {
            time,
            socket: Some(Connected { stream, room }),
            until,
            sight: Sight::new(),
            faults: 0,
        })
    }

    /// Until when the next byte has to come.
    fn reads_until(&self) -> Option<Duration> {
        if self.sight.is_over() {
            return moment_after(&self.time, Duration::from_secs(IDLE));
        }
        Some(self.until)
    }

    /// Reads once, up to its deadline.
    fn read_once(&mut self, buf: &mut [u8]) -> Result<usize, Failed>
        ensures within { IfOk result (λ count. count ≤ length buf.new) }
        ensures socket { is_none self.new.socket ≡ is_none self.old.socket }
        ensures sight { self.new.sight ≡ self.old.sight }
        ensures faults { self.new.faults ≡ self.old.faults }
    {
        let Some(until) = self.reads_until() else {
            return Err(Failed);
        };
        match &mut self.socket {
            Some(connected) => read_until(&self.time, &mut connected.stream, until, buf),
            None => Err(Failed),
        }
    }

    /// Writes all, up to its deadline.
    fn write_whole(&mut self, bytes: &[u8]) -> Result<(), Failed>
        ensures socket { is_none self.new.socket ≡ is_none self.old.socket }
        ensures sight { self.new.sight ≡ self.old.sight }
        ensures faults { self.new.faults ≡ self.old.faults }
    {
        let Some(until) = moment_after(&self.time, Duration::from_secs(TAKING)) else {
            return Err(Failed);
        };
        match &mut self.socket {
            Some(connected) => write_until(&self.time, &mut connected.stream, until, bytes),
            None => Err(Failed),
        }
    }
}

impl<T: Clock> Link for StreamLink<T> {
    ghost told = { λ _. untold };

    ghost local = { λ _. true };

    ghost dialled = { λ _. untold_paths };

    ghost finished = { λ s. is_none s.socket };

    ghost fault_count = { λ s. s.faults };

    // A read past its deadline counts as a fault, and so does each error of the stream.
    fn read(&mut self, buf: &mut [u8]) -> Result<usize, Failed>
        requires room { 0 < length buf.old }
        requires open { is_none self.old.socket ≡ false }
        ensures within { IfOk result (λ count. count ≤ length buf.new) }
        ensures bytes { Receives untold untold result buf.new }
        ensures place { true ≡ true }
        ensures dialled { untold_paths ≡ untold_paths }
        ensures stays { is_none self.new.socket ≡ false }
        ensures cause { OnErr result (Rose self.old.faults self.new.faults) }
        ensures rising { self.old.faults ≤ self.new.faults }

        ensures count { self.new.faults ≡ count_after self.old.faults result }
        ensures sight { self.new.sight ≡ self.old.sight }
    {
        match self.read_once(buf) {
            Ok(count) => Ok(count),
            Err(_) => Err(self.fail()),
        }
    }

    // A write that the peer doesn't take in time counts as a fault, and so does each error of the stream. What is
    // written is seen, whatever the stream takes of it.
    fn write_all(&mut self, bytes: &[u8]) -> Result<(), Failed>
        requires { is_none self.old.socket ≡ false }
        ensures bytes { Sends untold untold result bytes.now }
        ensures place { true ≡ true }
        ensures dialled { untold_paths ≡ untold_paths }
        ensures stays { is_none self.new.socket ≡ false }
        ensures cause { OnErr result (Rose self.old.faults self.new.faults) }
        ensures rising { self.old.faults ≤ self.new.faults }

        ensures count { self.new.faults ≡ count_after self.old.faults result }
        ensures sight { self.new.sight ≡ seen self.old.sight bytes.now }
    {
        self.sight.see(bytes);
        match self.write_whole(bytes) {
            Ok(()) => Ok(()),
            Err(_) => Err(self.fail()),
        }
    }

    fn is_local(&self) -> bool {
        true
    }

    // The stream is closed, and the room is given back.
    fn finish(&mut self)
        ensures done { is_none self.new.socket ≡ true }
        ensures bytes { untold ≡ untold }
        ensures place { true ≡ true }
        ensures dialled { untold_paths ≡ untold_paths }
        ensures faults { self.new.faults ≡ self.old.faults }

        ensures sight { self.new.sight ≡ self.old.sight }
    {
        self.socket = None;
    }

    fn faults(&self) -> u64 {
        self.faults
    }
}
