//! Adapters over the standard library's readers and writers, whose calls are repeated where a signal interrupts
//! them. As streams they tell nothing of content. Of
//! their calls it is proved that each hands on what its reader gave or its writer took, as far as those
//! tell it, and that the count of faults rises exactly where a call fails.

ghost use Rattle.lg_outside.specs.Faults.{Rose, counted};
ghost use Rattle.lg_outside.specs.Streams.{Adds, AddsTo, Gives};
ghost use Rattle.std.specs.Io.KnownBytes.{Appends, ReadConsumes, WriteAppends};
ghost use Rattle.std.specs.Prelude.{◌≡◌, ◌<◌, ◌≤◌, if◌then◌else◌, IfOk, None, OnErr, is_err, length, take};

use crate::streams::{Failed, Sink, Source};
use std::io::{ErrorKind, Read, Write};

/// A source over a reader, as standard input.
#[derive(Debug, Drop)]
pub struct StdSource<R> {
    reader: R,
    faults: u64,
}

impl<R: Read> StdSource<R> {
    /// A source of what `reader` gives.
    pub fn new(reader: R) -> StdSource<R>
        ensures { result ≡ record { reader = reader; faults = 0 } }
    {
        StdSource { reader, faults: 0 }
    }
}

impl<R: Read> Source for StdSource<R> {
    ghost left = { λ _. None };

    ghost fault_count = { λ s. s.faults };

    // It is one read of the reader, repeated where a signal interrupts it. Each other error counts as a fault.
    fn read(&mut self, buf: &mut [u8]) -> Result<usize, Failed>
        requires { 0 < length buf.old }
        ensures within { IfOk result (λ count. count ≤ length buf.new) }
        ensures bytes { Gives None None result buf.new }
        ensures cause { OnErr result (Rose self.old.faults self.new.faults) }
        ensures rising { self.old.faults ≤ self.new.faults }

        ensures reader { ReadConsumes (R.remaining self.old.reader) (R.remaining self.new.reader) result buf.new }
        ensures count { self.new.faults ≡ (if is_err result then counted self.old.faults else self.old.faults) }
    {
        match read_some(&mut self.reader, buf) {
            Ok(count) => Ok(count),
            Err(_) => {
                self.faults = self.faults.saturating_add(1);
                Err(Failed)
            }
        }
    }

    fn faults(&self) -> u64 {
        self.faults
    }
}

/// One read, repeated where a signal interrupts it.
pub(crate) fn read_some<R: Read>(reader: &mut R, buf: &mut [u8]) -> Result<usize, Failed>
    ensures within { IfOk result (λ count. count ≤ length buf.new) }
    ensures reader { ReadConsumes (R.remaining reader.old) (R.remaining reader.new) result buf.new }
{
    for _ in 0..u64::MAX {
        match reader.read(buf) {
            Ok(count) => return Ok(count),
            Err(error) => {
                if error.kind() != ErrorKind::Interrupted {
                    return Err(Failed);
                }
            }
        }
    }
    Err(Failed)
}

/// One write, repeated where a signal interrupts it. An error has taken nothing.
fn write_once<W: Write>(writer: &mut W, bytes: &[u8]) -> usize
    ensures within { result ≤ length bytes.now }
    ensures writer { Appends (W.contents writer.old) (W.contents writer.new) (take result bytes.now) }
{
    for _ in 0..u64::MAX {
        match writer.write(bytes) {
            Ok(count) => return count,
            Err(error) => {
                if error.kind() != ErrorKind::Interrupted {
                    return 0;
                }
            }
        }
    }
    0
}

/// Writes at least one of the bytes, and answers how many. A write that takes nothing is a failure.
fn write_some<W: Write>(writer: &mut W, bytes: &[u8]) -> Result<usize, Failed>
    requires { 0 < length bytes.now }
    ensures within { IfOk result (λ count. (1 ≤ count) × (count ≤ length bytes.now)) }
    ensures writer { WriteAppends (W.contents writer.old) (W.contents writer.new) result bytes.now }
{
    let written = write_once(writer, bytes);
    if written == 0 {
        return Err(Failed);
    }
    Ok(written)
}

/// Writes to the writer until that one took all. An error of the writer is a failure, and so is a write that
/// takes nothing.
pub(crate) fn write_whole<W: Write>(writer: &mut W, bytes: &[u8]) -> Result<(), Failed>
    ensures { AddsTo (W.contents writer.old) (W.contents writer.new) result bytes.now }
{
    let mut left = bytes;
    while !left.is_empty() {
        match write_some(writer, left) {
            Ok(count) => left = &left[count..],
            Err(failed) => return Err(failed),
        }
    }
    Ok(())
}

/// A sink over a writer, as standard output.
#[derive(Debug, Drop)]
pub struct StdSink<W> {
    writer: W,
    faults: u64,
}

impl<W: Write> StdSink<W> {
    /// A sink that writes to `writer`.
    pub fn new(writer: W) -> StdSink<W>
        ensures { result ≡ record { writer = writer; faults = 0 } }
    {
        StdSink { writer, faults: 0 }
    }
}

impl<W: Write> Sink for StdSink<W> {
    ghost written = { λ _. None };

    ghost fault_count = { λ s. s.faults };

    // It writes to the writer until that one took all. An error of the writer counts as a fault, and so
    // does a write that took nothing.
    fn write_all(&mut self, bytes: &[u8]) -> Result<(), Failed>
        ensures bytes { Adds None None result bytes.now }
        ensures cause { OnErr result (Rose self.old.faults self.new.faults) }
        ensures rising { self.old.faults ≤ self.new.faults }

        ensures writer { AddsTo (W.contents self.old.writer) (W.contents self.new.writer) result bytes.now }
        ensures count { self.new.faults ≡ (if is_err result then counted self.old.faults else self.old.faults) }
    {
        let written = write_whole(&mut self.writer, bytes);
        if written.is_err() {
            self.faults = self.faults.saturating_add(1);
        }
        written
    }

    fn faults(&self) -> u64 {
        self.faults
    }
}
