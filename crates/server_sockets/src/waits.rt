//! Reads and writes of a stream that wait up to a moment. A call that a signal interrupts is repeated.

ghost use Rattle.std.specs.Prelude.{◌<◌, ◌≤◌, IfOk, length};

use lg_outside::Failed;
use std::io::{ErrorKind, Read, Write};
use std::os::unix::net::UnixStream;
use std::time::{Clock, Duration};

/// The moment so long after now, where the system gives the time.
pub(crate) fn moment_after<T: Clock>(time: &T, wait: Duration) -> Option<Duration> {
    match time.monotonic() {
        Ok(now) => Some(now.saturating_add(wait)),
        Err(_) => None,
    }
}

/// How long it is until a moment, where that is to come and the system gives the time.
fn left_until<T: Clock>(time: &T, until: Duration) -> Option<Duration> {
    let now = match time.monotonic() {
        Ok(now) => now,
        Err(_) => return None,
    };
    let left = until.saturating_sub(now);
    if left.is_zero() {
        return None;
    }
    Some(left)
}

/// One read of the stream.
pub(crate) fn read_until<T: Clock>(
    time: &T,
    stream: &mut UnixStream,
    until: Duration,
    buf: &mut [u8],
) -> Result<usize, Failed>
    ensures { IfOk result (λ count. count ≤ length buf.new) }
{
    for _ in 0..u64::MAX {
        let Some(left) = left_until(time, until) else {
            return Err(Failed);
        };
        if stream.set_read_timeout(Some(left)).is_err() {
            return Err(Failed);
        }
        match stream.read(buf) {
            Ok(count) => return Ok(count),
            Err(error) => {
                if error.kind() != ErrorKind::Interrupted {
                    return Err(Failed);
                }
            }
        }
    }
    Err(Failed)
}

/// Writes at least one of the bytes, and answers how many.
fn write_some<T: Clock>(
    time: &T,
    stream: &mut UnixStream,
    until: Duration,
    bytes: &[u8],
) -> Result<usize, Failed>
    requires { 0 < length bytes.now }
    ensures { IfOk result (λ count. (1 ≤ count) × (count ≤ length bytes.now)) }
{
    for _ in 0..u64::MAX {
        let Some(left) = left_until(time, until) else {
            return Err(Failed);
        };
        if stream.set_write_timeout(Some(left)).is_err() {
            return Err(Failed);
        }
        match stream.write(bytes) {
            Ok(0) => return Err(Failed),
            Ok(count) => return Ok(count),
            Err(error) => {
                if error.kind() != ErrorKind::Interrupted {
                    return Err(Failed);
                }
            }
        }
    }
    Err(Failed)
}

/// Writes to the stream until that one took all.
pub(crate) fn write_until<T: Clock>(
    time: &T,
    stream: &mut UnixStream,
    until: Duration,
    bytes: &[u8],
) -> Result<(), Failed> {
    let mut left = bytes;
    while !left.is_empty() {
        match write_some(time, stream, until, left) {
            Ok(count) => left = &left[count..],
            Err(failed) => return Err(failed),
        }
    }
    Ok(())
}
