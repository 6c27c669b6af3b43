//! A link over a Unix stream socket, whose peer is always on this machine. It tells nothing of content.

ghost use Rattle.lg_outside.specs.Faults.{Rose, counted};
ghost use Rattle.lg_outside.specs.Links.{Dials, Receives, Sends};
ghost use Rattle.lg_outside.specs.Traffic.{untold, untold_paths};
ghost use Rattle.std.specs.Prelude.{◌≡◌, ◌<◌, ◌≤◌, if◌then◌else◌, IfOk, IsSome, None, OnErr, OnOk, false, true, is_err, length};

use crate::links::{Dial, Link};
use crate::standard_streams::{read_some, write_whole};
use crate::streams::Failed;
use mio::net as without_waiting;
use std::io;
use std::net::Net;
use std::os::unix::net::UnixStream;

/// A link over a Unix stream socket, once it was connected. `N` is what it connects by, which a link that a
/// server accepted needs not have.
#[derive(Drop)]
pub struct UnixLink<N> {
    net: N,
    stream: Option<UnixStream>,
    is_finished: bool,
    faults: u64,
}

impl<N> UnixLink<N> {
    /// A link that isn't connected yet. Until it is, reads and writes fail.
    pub fn new(net: N) -> UnixLink<N>
        ensures { result ≡ record { net = net; stream = None; is_finished = false; faults = 0 } }
    {
        UnixLink {
            net,
            stream: None,
            is_finished: false,
            faults: 0,
        }
    }

    /// A link over a stream.
    pub fn over(net: N, stream: UnixStream) -> UnixLink<N>
        ensures { result ≡ record { net = net; stream = Some stream; is_finished = false; faults = 0 } }
    {
        UnixLink {
            net,
            stream: Some(stream),
            is_finished: false,
            faults: 0,
        }
    }

    /// Counts a failure.
    fn fail(&mut self) -> Failed
        ensures count { self.new.faults ≡ counted self.old.faults }
        ensures rising { self.old.faults ≤ self.new.faults }
        ensures stays { self.new.is_finished ≡ self.old.is_finished }
        ensures stream { self.new.stream ≡ self.old.stream }
    {
        self.faults = self.faults.saturating_add(1);
        Failed
    }
}

impl<N> Link for UnixLink<N> {
    ghost told = { λ _. untold };

    ghost local = { λ _. true };

    ghost dialled = { λ _. untold_paths };

    ghost finished = { λ s. s.is_finished };

    ghost fault_count = { λ s. s.faults };

    // It is one read of the stream, repeated where a signal interrupts it. Each other error counts as a fault.
    fn read(&mut self, buf: &mut [u8]) -> Result<usize, Failed>
        requires room { 0 < length buf.old }
        requires open { self.old.is_finished ≡ false }
        ensures within { IfOk result (λ count. count ≤ length buf.new) }
        ensures bytes { Receives untold untold result buf.new }
        ensures place { true ≡ true }
        ensures dialled { untold_paths ≡ untold_paths }
        ensures stays { self.new.is_finished ≡ false }
        ensures cause { OnErr result (Rose self.old.faults self.new.faults) }
        ensures rising { self.old.faults ≤ self.new.faults }

        ensures count { self.new.faults ≡ (if is_err result then counted self.old.faults else self.old.faults) }
    {
        match read_stream(&mut self.stream, buf) {
            Ok(count) => Ok(count),
            Err(_) => Err(self.fail()),
        }
    }

    // It writes to the stream until that one took all. An error of the stream counts as a fault, and so does
    // a write that took nothing.
    fn write_all(&mut self, bytes: &[u8]) -> Result<(), Failed>
        requires { self.old.is_finished ≡ false }
        ensures bytes { Sends untold untold result bytes.now }
        ensures place { true ≡ true }
        ensures dialled { untold_paths ≡ untold_paths }
        ensures stays { self.new.is_finished ≡ false }
        ensures cause { OnErr result (Rose self.old.faults self.new.faults) }
        ensures rising { self.old.faults ≤ self.new.faults }

        ensures count { self.new.faults ≡ (if is_err result then counted self.old.faults else self.old.faults) }
    {
        match write_stream(&mut self.stream, bytes) {
            Ok(()) => Ok(()),
            Err(_) => Err(self.fail()),
        }
    }

    fn is_local(&self) -> bool {
        true
    }

    // The stream is closed.
    fn finish(&mut self)
        ensures done { self.new.is_finished ≡ true }
        ensures bytes { untold ≡ untold }
        ensures place { true ≡ true }
        ensures dialled { untold_paths ≡ untold_paths }
        ensures faults { self.new.faults ≡ self.old.faults }

        ensures closed { self.new.stream ≡ None }
    {
        self.stream = None;
        self.is_finished = true;
    }

    fn faults(&self) -> u64 {
        self.faults
    }
}

impl<N: Net> Dial for UnixLink<N> {
    // It connects a new stream, in place of the one that it had. An error leaves that one. Where more peers wait at the
    // socket than the system lets wait, it fails at once.
    fn dial(&mut self, path: &str) -> Result<(), Failed>
        ensures dialled { Dials untold_paths untold_paths result path.now }
        ensures bytes { untold ≡ untold }
        ensures place { true ≡ true }
        ensures stays { self.new.is_finished ≡ self.old.is_finished }
        ensures cause { OnErr result (Rose self.old.faults self.new.faults) }
        ensures rising { self.old.faults ≤ self.new.faults }

        ensures count { self.new.faults ≡ (if is_err result then counted self.old.faults else self.old.faults) }
        ensures connected { OnOk result (IsSome self.new.stream) }
        ensures kept { OnErr result (self.new.stream ≡ self.old.stream) }
    {
        match connect(&self.net, path) {
            Ok(stream) => {
                self.stream = Some(stream);
                Ok(())
            }
            Err(_) => Err(self.fail()),
        }
    }
}

/// A stream that is connected to the socket at the path. The standard library's own call would wait while no more peers
/// may wait there.
fn connect<N: Net>(net: &N, path: &str) -> io::Result<UnixStream> {
    let stream = UnixStream::from(without_waiting::UnixStream::connect(net, path)?);
    stream.set_nonblocking(false)?;
    Ok(stream)
}

/// Reads from a stream, if there is one.
fn read_stream(stream: &mut Option<UnixStream>, buf: &mut [u8]) -> Result<usize, Failed>
    ensures { IfOk result (λ count. count ≤ length buf.new) }
{
    match stream {
        Some(stream) => read_some(stream, buf),
        None => Err(Failed),
    }
}

/// Writes to a stream, if there is one, until it took all.
fn write_stream(stream: &mut Option<UnixStream>, bytes: &[u8]) -> Result<(), Failed> {
    match stream {
        Some(stream) => write_whole(stream, bytes),
        None => Err(Failed),
    }
}
