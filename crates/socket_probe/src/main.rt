//! Runs the server's outside over Unix sockets, for the tests and the benchmark of `server_sockets`. Each line of input is
//! a call:
//!
//! - `door PATH` opens a door and takes its links, each in a thread that writes back what it reads, until the door is
//!   closed. `open` is printed once it listens, `end K closed` or `end K failed` where the K-th link ends, and at last
//!   `closed`, or `failed N` with the door's count of faults;
//! - `place PATH` is where the verifier asks from then on, and `ask LABEL USER PASSWORD` asks it (words, `-` for none);
//!   it is answered by `right`, `wrong` or `failed N` with the verifier's count of faults;
//! - `draws` makes draws of two sessions, and is answered by `ok` where those of one session are the same each time and
//!   those of two differ;
//! - `time` is answered by a reading of the clock, in seconds since 1970;
//! - `dial PATH` connects one link, the same each time, to the path, and is answered by `ok` or `failed N` with the link's
//!   count of faults;
//! - `both PATH` opens a door and connects to it in the same process, and is answered by `ok` where what is written at one
//!   end is read at the other, and the file of the socket is gone at the end.
//!
//! A line of another form is answered by `bad`. Nothing is proved of it but that it is safe.
#![tactic(auto)]

mod ends;
mod serving;

use ends::{dial, meet};
use lg_base::Memory;
use lg_outside::UnixLink;
use server_outside::{Clock, Draws, Maker, Verifier};
use server_sockets::{SocketVerifier, SystemMaker};
use serving::keep_door;
use std::io;

/// A word, none for `-`.
fn word(text: &str) -> &[u8] {
    if text == "-" {
        return b"";
    }
    text.as_bytes()
}

/// The three words of a question.
fn words_of(line: &str) -> Option<(&str, &str, &str)> {
    let (label, rest) = line.split_once(' ')?;
    let (user, password) = rest.split_once(' ')?;
    Some((label, user, password))
}

/// Asks, and prints the answer.
fn ask(rt: &HostRuntime, verifier: &mut SocketVerifier<HostRuntime>, line: &str) -> io::Result<()> {
    let Some((label, user, password)) = words_of(line) else {
        return println!(rt; "bad");
    };
    match verifier.verify(word(label), word(user), word(password)) {
        Ok(true) => println!(rt; "right"),
        Ok(false) => println!(rt; "wrong"),
        Err(_) => {
            let faults = verifier.faults();
            println!(rt; "failed {faults}")
        }
    }
}

/// Whether the draws of one session are the same each time, and those of two differ.
fn draws_stand<M: Maker>(maker: &mut M) -> Result<bool, Memory> {
    if maker.seed().is_err() {
        return Ok(false);
    }
    let first = maker.draws(1)?.draw();
    let again = maker.draws(1)?.draw();
    let other = maker.draws(2)?.draw();
    Ok(first == again && first != other)
}

fn print_draws(rt: &HostRuntime, maker: &mut SystemMaker<HostRuntime>) -> io::Result<()> {
    match draws_stand(maker) {
        Ok(true) => println!(rt; "ok"),
        Ok(false) => println!(rt; "failed"),
        Err(_) => println!(rt; "memory"),
    }
}

fn print_time(rt: &HostRuntime, maker: &mut SystemMaker<HostRuntime>) -> io::Result<()> {
    match maker.clock() {
        Ok(mut clock) => {
            let seconds = clock.now();
            println!(rt; "{seconds}")
        }
        Err(_) => println!(rt; "memory"),
    }
}

fn main(rt: HostRuntime) -> io::Result<()> {
    let mut maker = SystemMaker::new(rt.alloc(), rt);
    let mut verifier = maker.verifier(None).ok();
    let mut peer = UnixLink::new(rt);
    for line in rt.lines(rt.alloc()) {
        let line = line?;
        let (name, rest) = line.as_str().split_once(' ').unwrap_or((line.as_str(), ""));
        match (name, &mut verifier) {
            ("door", _) => keep_door(&rt, rest)?,
            ("place", _) => verifier = maker.verifier(Some(rest)).ok(),
            ("ask", Some(verifier)) => ask(&rt, verifier, rest)?,
            ("draws", _) => print_draws(&rt, &mut maker)?,
            ("time", _) => print_time(&rt, &mut maker)?,
            ("dial", _) => dial(&rt, &mut peer, rest)?,
            ("both", _) => meet(&rt, rest)?,
            _ => println!(rt; "bad")?,
        }
    }
    Ok(())
}
