//! A verifier that asks a Unix socket. It tells nothing of its verdicts.
//!
//! It writes the label, the user and the password in hexadecimal, `-` where one is empty, one space apart and ended by LF,
//! and reads one byte: `1` where the password is right and `0` where it isn't.

ghost use Rattle.lg_outside.specs.Faults.{Rose};
ghost use Rattle.server_outside.specs.Verdicts.{Judged, StaysSound};
ghost use Rattle.server_sockets.specs.Counts.{count_after, untold_verdicts};
ghost use Rattle.std.specs.Prelude.{◌≡◌, ◌*◌, ◌<◌, ◌≤◌, IfOk, None, Ok, OnErr, false, is_ok, length, option_map};

use crate::waits::{moment_after, read_until, write_until};
use lg_base::{Bytes, Memory};
use lg_outside::Failed;
use mio::net as without_waiting;
use server_outside::Verifier;
use std::alloc::Global;
use std::io;
use std::net::Net;
use std::os::unix::net::UnixStream;
use std::time::{Clock, Duration};

/// How long one question may take, from its connect to its answer, in seconds.
const ANSWER: u64 = 5;

/// How many bytes are written at a time.
const PIECE: usize = 64;

/// A verifier that asks at a socket, if it has a path, and accepts nothing without one.
#[derive(Drop)]
pub struct SocketVerifier<R> {
    rt: R,
    path: Option<Bytes>,
    faults: u64,
}

impl<R> SocketVerifier<R> {
    /// A verifier that asks at the path, if there is one.
    pub fn new(alloc: Global, rt: R, path: Option<&str>) -> Result<SocketVerifier<R>, Memory>
    where
        R: Drop,
        ensures { IfOk result (λ made. (made.path ≡ option_map (λ text. text.now) path.entry) × (made.faults ≡ 0)) }
    {
        let path = match path {
            Some(path) => Some(Bytes::copy(alloc, path.as_bytes())?),
            None => None,
        };
        Ok(SocketVerifier {
            rt,
            path,
            faults: 0,
        })
    }
}

impl<R: Net + Clock> Verifier for SocketVerifier<R> {
    ghost use Rattle.std.specs.Prelude.{List, Option, ℕ};

    ghost Made = { Option (List ℕ) };

    ghost made_with = { λ v. v.path };

    ghost given = { λ _. untold_verdicts };

    ghost sound = { λ _. false };

    ghost fault_count = { λ v. v.faults };

    // Any other answer, an end, and a question that isn't answered in time count as faults.
    fn verify(&mut self, label: &[u8], user: &[u8], password: &[u8]) -> Result<bool, Failed>
        ensures made { self.new.path ≡ self.old.path }
        ensures given { Judged untold_verdicts untold_verdicts label.now user.now password.now result }
        ensures sound { StaysSound false false self.old.faults self.new.faults (is_ok result) }
        ensures cause { OnErr result (Rose self.old.faults self.new.faults) }
        ensures rising { self.old.faults ≤ self.new.faults }

        ensures count { self.new.faults ≡ count_after self.old.faults result }
        ensures without { self.old.path ≡ None → result ≡ Ok false }
    {
        let Some(path) = &self.path else {
            return Ok(false);
        };
        match ask(&self.rt, path.as_slice(), label, user, password) {
            Ok(is_right) => Ok(is_right),
            Err(failed) => {
                self.faults = self.faults.saturating_add(1);
                Err(failed)
            }
        }
    }

    fn faults(&self) -> u64 {
        self.faults
    }
}

/// Asks at the path.
fn ask<R: Net + Clock>(
    rt: &R,
    path: &[u8],
    label: &[u8],
    user: &[u8],
    password: &[u8],
) -> Result<bool, Failed> {
    let Some(until) = moment_after(rt, Duration::from_secs(ANSWER)) else {
        return Err(Failed);
    };
    let Ok(path) = str::from_utf8(path) else {
        return Err(Failed);
    };
    let Ok(mut stream) = connect(rt, path) else {
        return Err(Failed);
    };
    let stream = &mut stream;
    write_word(rt, stream, until, label)?;
    write_until(rt, stream, until, b" ")?;
    write_word(rt, stream, until, user)?;
    write_until(rt, stream, until, b" ")?;
    write_word(rt, stream, until, password)?;
    write_until(rt, stream, until, b"\n")?;
    let mut answer = [0u8; 1];
    match read_until(rt, stream, until, &mut answer)? {
        0 => Err(Failed),
        _ => verdict(answer[0]),
    }
}

/// The verdict that a byte is.
fn verdict(answer: u8) -> Result<bool, Failed> {
    match answer {
        b'1' => Ok(true),
        b'0' => Ok(false),
        _ => Err(Failed),
    }
}

/// A stream that is connected to the socket at the path. It doesn't wait where no more peers may wait there.
fn connect<R: Net>(net: &R, path: &str) -> io::Result<UnixStream> {
    let stream = UnixStream::from(without_waiting::UnixStream::connect(net, path)?);
    stream.set_nonblocking(false)?;
    Ok(stream)
}

/// Writes a word in hexadecimal, piece by piece.
fn write_word<R: Clock>(
    time: &R,
    stream: &mut UnixStream,
    until: Duration,
    word: &[u8],
) -> Result<(), Failed> {
    if word.is_empty() {
        return write_until(time, stream, until, b"-");
    }
    let mut left = word;
    while !left.is_empty() {
        let size = left.len().min(PIECE / 2);
        let mut room = [0u8; PIECE];
        let letters = &mut room[..2 * size];
        if hex::encode_to_slice(&left[..size], letters).is_err() {
            return Err(Failed);
        }
        write_until(time, stream, until, letters)?;
        left = &left[size..];
    }
    Ok(())
}
