//! Streams and links that are read and written piece by piece and fail in between, each seen through its trait.

ghost use Rattle.std.specs.Prelude.{◌≡◌, false};

use crate::{
    Dial, Failed, Link, MemoryLink, MemorySink, MemorySource, PlannedFaults, Sink, Source, StdSink,
    StdSource, UnixLink,
};
use lg_base::{Bytes, Items, Memory};
use std::alloc::Global;
use std::io::{Error, ErrorKind, Read, Result as IoResult, Write};
use std::os::unix::net::{UnixListener, UnixStream};
use std::process::Abort;
use std::test::Fail;
use std::{fs, process};

/// The numbers of the calls that are to fail.
fn calls(alloc: Global, numbers: &[u64]) -> Result<Items<u64>, Memory> {
    Ok(Items::from_vec(Vec::from_slice(alloc, numbers)?))
}

/// Reads into room for three bytes, and compares the bytes, whether the read failed, and the count of faults.
fn check_read<S: Source>(rt: &impl Abort, source: &mut S, bytes: &[u8], failed: bool, faults: u64) {
    let mut piece = [0u8; 3];
    match source.read(&mut piece) {
        Ok(count) => {
            assert_eq!(rt; &piece[..count], bytes);
            assert!(rt; !failed);
        }
        Err(Failed) => assert!(rt; failed),
    }
    assert_eq!(rt; source.faults(), faults);
}

/// Writes the bytes, and compares whether the write failed and the count of faults.
fn check_write<S: Sink>(rt: &impl Abort, sink: &mut S, bytes: &[u8], failed: bool, faults: u64) {
    let result = sink.write_all(bytes);
    assert_eq!(rt; result.is_err(), failed);
    assert_eq!(rt; sink.faults(), faults);
}

#[test]
fn a_source_in_memory_gives_its_bytes_and_fails_where_told(rt: HostRuntime) -> Result<(), Fail> {
    let bytes = Bytes::copy(rt.alloc(), b"abcdefg")?;
    let mut source = MemorySource::new(bytes, calls(rt.alloc(), &[2, 5])?);
    for (piece, failed, faults) in [
        (b"abc".as_slice(), false, 0),
        (b"".as_slice(), true, 1),
        (b"def".as_slice(), false, 1),
        (b"g".as_slice(), false, 1),
        (b"".as_slice(), true, 2),
        (b"".as_slice(), false, 2),
        (b"".as_slice(), false, 2),
    ] {
        check_read(&rt, &mut source, piece, failed, faults);
    }
    Ok(())
}

#[test]
fn a_sink_in_memory_fails_where_told_and_where_its_room_ends(rt: HostRuntime) -> Result<(), Fail> {
    let mut sink = MemorySink::new(rt.alloc(), 5, calls(rt.alloc(), &[2, 7])?)?;
    for (piece, failed, faults, written) in [
        (b"ab".as_slice(), false, 0, b"ab".as_slice()),
        (b"c".as_slice(), true, 1, b"ab".as_slice()),
        (b"cdef".as_slice(), true, 2, b"ab".as_slice()),
        (b"cde".as_slice(), false, 2, b"abcde".as_slice()),
        (b"f".as_slice(), true, 3, b"abcde".as_slice()),
        (b"".as_slice(), false, 3, b"abcde".as_slice()),
        (b"".as_slice(), true, 4, b"abcde".as_slice()),
    ] {
        check_write(&rt, &mut sink, piece, failed, faults);
        assert_eq!(rt; sink.written(), written);
    }
    Ok(())
}

#[test]
fn the_next_call_can_be_listed(rt: HostRuntime) -> Result<(), Fail> {
    let mut plan = PlannedFaults::new(calls(rt.alloc(), &[3])?);
    assert!(rt; !plan.next_fails(false));
    plan.fail_next()?;
    assert!(rt; plan.next_fails(false));
    assert!(rt; plan.next_fails(false));
    assert!(rt; plan.next_fails(true));
    assert!(rt; !plan.next_fails(false));
    assert_eq!(rt; plan.faults(), 3);
    Ok(())
}

/// A reader and writer that moves at most two bytes a call. Its second call fails, a signal interrupts its third, and its
/// fifth takes nothing.
#[derive(Drop)]
struct Halting<T> {
    inner: T,
    calls: u8,
}

impl<T> Halting<T> {
    /// How many of so many bytes the next call moves.
    fn room(&mut self, length: usize) -> IoResult<usize> {
        self.calls = self.calls.saturating_add(1);
        match self.calls {
            2 => Err(Error::from(ErrorKind::BrokenPipe)),
            3 => Err(Error::from(ErrorKind::Interrupted)),
            5 => Ok(0),
            _ => Ok(length.min(2)),
        }
    }
}

impl<T: Read> Read for Halting<T> {
    fn read(&mut self, buf: &mut [u8]) -> IoResult<usize> {
        let count = self.room(buf.len())?.min(buf.len());
        self.inner.read(&mut buf[..count])
    }
}

impl<T: Write> Write for Halting<T> {
    fn write(&mut self, buf: &[u8]) -> IoResult<usize> {
        let count = self.room(buf.len())?.min(buf.len());
        self.inner.write(&buf[..count])
    }

    fn flush(&mut self) -> IoResult<()> {
        Ok(())
    }
}

#[test]
fn a_reader_is_a_source(rt: HostRuntime) {
    let mut source = StdSource::new(b"abcd".as_slice());
    check_read(&rt, &mut source, b"abc", false, 0);
    check_read(&rt, &mut source, b"d", false, 0);
    check_read(&rt, &mut source, b"", false, 0);
    let (inner, calls) = (b"abcd".as_slice(), 0);
    let mut source = StdSource::new(Halting { inner, calls });
    check_read(&rt, &mut source, b"ab", false, 0);
    check_read(&rt, &mut source, b"", true, 1);
    check_read(&rt, &mut source, b"cd", false, 1);
}

#[test]
fn a_writer_is_a_sink(rt: HostRuntime) {
    let mut written = Vec::new(rt.alloc());
    let mut sink = StdSink::new(&mut written);
    check_write(&rt, &mut sink, b"ab", false, 0);
    check_write(&rt, &mut sink, b"", false, 0);
    check_write(&rt, &mut sink, b"c", false, 0);
    assert_eq!(rt; written.as_slice(), b"abc".as_slice());

    let mut written = Vec::new(rt.alloc());
    let (inner, calls) = (&mut written, 0);
    let mut sink = StdSink::new(Halting { inner, calls });
    check_write(&rt, &mut sink, b"abc", true, 1);
    check_write(&rt, &mut sink, b"defg", true, 2);
    check_write(&rt, &mut sink, b"hij", false, 2);
    assert_eq!(rt; written.as_slice(), b"abdehij".as_slice());
}

/// Reads from a link into room for three bytes, and compares the bytes, whether the read failed, and the count
/// of faults.
fn check_receive<L: Link>(rt: &impl Abort, link: &mut L, bytes: &[u8], failed: bool, faults: u64)
    requires { L.finished link.old ≡ false }
    ensures { L.finished link.new ≡ false }
{
    let mut piece = [0u8; 3];
    match link.read(&mut piece) {
        Ok(count) => {
            assert_eq!(rt; &piece[..count], bytes);
            assert!(rt; !failed);
        }
        Err(Failed) => assert!(rt; failed),
    }
    assert_eq!(rt; link.faults(), faults);
}

/// Writes the bytes to a link, and compares whether the write failed and the count of faults.
fn check_send<L: Link>(rt: &impl Abort, link: &mut L, bytes: &[u8], failed: bool, faults: u64)
    requires { L.finished link.old ≡ false }
    ensures { L.finished link.new ≡ false }
{
    let result = link.write_all(bytes);
    assert_eq!(rt; result.is_err(), failed);
    assert_eq!(rt; link.faults(), faults);
}

#[test]
fn the_calls_of_a_link_in_memory_are_numbered_together(rt: HostRuntime) -> Result<(), Fail> {
    let bytes = Bytes::copy(rt.alloc(), b"abcde")?;
    let failing = calls(rt.alloc(), &[2, 3, 5])?;
    let mut link = MemoryLink::new(rt.alloc(), bytes, 4, false, failing)?;
    check_receive(&rt, &mut link, b"abc", false, 0);
    check_send(&rt, &mut link, b"x", true, 1);
    assert!(rt; link.dial("nowhere").is_err());
    check_send(&rt, &mut link, b"xyz", false, 2);
    check_receive(&rt, &mut link, b"", true, 3);
    assert!(rt; link.dial("nowhere").is_ok());
    check_receive(&rt, &mut link, b"de", false, 3);
    check_send(&rt, &mut link, b"uv", true, 4);
    check_receive(&rt, &mut link, b"", false, 4);
    assert!(rt; !link.is_local());
    link.finish();
    assert_eq!(rt; link.written(), b"xyz".as_slice());
    assert_eq!(rt; link.faults(), 4);
    Ok(())
}

#[test]
fn a_link_in_memory_says_where_its_peer_is(rt: HostRuntime) -> Result<(), Fail> {
    let bytes = Bytes::copy(rt.alloc(), b"")?;
    let link = MemoryLink::new(rt.alloc(), bytes, 0, true, calls(rt.alloc(), &[])?)?;
    assert!(rt; link.is_local());
    assert!(rt; link.written().is_empty());
    Ok(())
}

#[test]
fn a_unix_socket_is_a_link(rt: HostRuntime) -> Result<(), Fail> {
    let id = process::id(rt.process());
    let path = format!(in rt.alloc(); "/tmp/lg_outside-{id}.sock")?;
    let mut link = UnixLink::new(&rt);
    check_receive(&rt, &mut link, b"", true, 1);
    check_send(&rt, &mut link, b"ab", true, 2);
    assert!(rt; link.dial(path.as_str()).is_err());
    let listener = UnixListener::bind(&rt, path.as_str())?;
    assert!(rt; link.dial(path.as_str()).is_ok());
    let (stream, _) = listener.accept()?;
    fs::remove_file(&rt, path.as_str())?;
    let mut peer = UnixLink::over((), stream);
    check_send(&rt, &mut link, b"abcd", false, 3);
    check_receive(&rt, &mut peer, b"abc", false, 0);
    check_send(&rt, &mut peer, b"x", false, 0);
    check_receive(&rt, &mut peer, b"d", false, 0);
    check_receive(&rt, &mut link, b"x", false, 3);
    assert!(rt; link.is_local());
    link.finish();
    check_receive(&rt, &mut peer, b"", false, 0);
    check_send(&rt, &mut peer, b"y", true, 1);
    Ok(())
}
