//! Drives sessions by the answers to what they ask, one a line, as tests of `session_engine`. What a session then does is
//! printed: the sequence id of what it sends next, the payloads that it sends, and what it asks. The lines and their
//! answers come from session_engine/vectors/sessions.py:
//!
//! | Line | Is |
//! |---|---|
//! | `new` | a new session, which is given its first nonce |
//! | `packet ID HEX` | a packet with this sequence id and payload |
//! | `drawn TEXT` | a nonce of 20 bytes |
//! | `looked ACCOUNT STAMP` | a look that shows such an account |
//! | `checked`, `prepared`, `stale` | what was asked about, checked, prepared, or neither settled nor executed |
//! | `opened`, `sandbox`, `denied`, `blank`, `locked`, `blocked DAYS LEFT` | the reply to an attempt |
//! | `ran done`, `ran reused`, `ran fault` | the reply to a statement |
//! | `memory` | no memory for a packet |
//! | `answers` | changes nothing: which inputs answer the session |
//! | `nonces` | the same of nonces that begin or end with each byte |
//! | `commands COUNT` | so many commands, which are done or not known |
#![tactic(auto)]

mod answering;
mod driving;
mod given;
mod looks;
mod printing;

use driving::{State, answer, begin, put};
use lg_base::Memory;
use printing::print_state;
use std::alloc::Global;
use std::io;

/// Gives the session an answer, and prints what it does.
fn go_on(rt: &HostRuntime, state: &mut State, words: &[&str]) -> io::Result<()> {
    if !matches!(state, State::At(_)) {
        return println!(rt; "no session");
    }
    answer(rt.alloc(), state, words);
    print_state(rt, state)
}

fn print_inputs(rt: &HostRuntime, state: &State) -> io::Result<()> {
    let marks = match state {
        State::Absent => return println!(rt; "no session"),
        State::At(driven) => answering::marks(rt.alloc(), &driven.session),
        State::Failed(session) => answering::marks(rt.alloc(), session),
    };
    match marks {
        Ok(marks) => printing::print_marks(rt, &marks),
        Err(Memory) => println!(rt; "memory"),
    }
}

fn print_nonces(rt: &HostRuntime, state: &State) -> io::Result<()> {
    let State::At(driven) = state else {
        return println!(rt; "no session");
    };
    for byte in 0..=255u8 {
        if answering::takes_nonces_of(&driven.session, byte) {
            print!(rt; "{byte:02x}")?;
        }
    }
    println!(rt; "")
}

/// COM_PING at every second command, and else an empty payload, which is none.
fn command_line(number: u32) -> [&'static str; 3] {
    if number % 2 == 0 {
        ["packet", "0", "0e"]
    } else {
        ["packet", "0", ""]
    }
}

/// Whether the session sent an error last, where there is one.
fn has_sent_error(state: &State) -> Option<bool> {
    match state {
        State::At(driven) => Some(printing::is_error(&driven.action)),
        _ => None,
    }
}

/// Gives the session so many commands. How many of them were done, and how many weren't known?
fn obey(alloc: Global, state: &mut State, count: u32) -> (u32, u32) {
    let (mut done, mut unknown) = (0u32, 0u32);
    for number in 0..count {
        answer(alloc, state, &command_line(number));
        match has_sent_error(state) {
            Some(true) => unknown = unknown.saturating_add(1),
            Some(false) => done = done.saturating_add(1),
            None => break,
        }
    }
    (done, unknown)
}

fn print_commands(rt: &HostRuntime, state: &mut State, count: u32) -> io::Result<()> {
    let (done, unknown) = obey(rt.alloc(), state, count);
    println!(rt; "ok {done} errors {unknown}")
}

/// A new session takes the place of the one before.
fn begin_anew(rt: &HostRuntime, state: &mut State) -> io::Result<()> {
    put(state, begin(rt.alloc()));
    print_state(rt, state)
}

fn follow(rt: &HostRuntime, state: &mut State, words: &[&str]) -> io::Result<()> {
    match words {
        ["new"] => begin_anew(rt, state),
        ["answers"] => print_inputs(rt, state),
        ["nonces"] => print_nonces(rt, state),
        ["commands", count] => print_commands(rt, state, count.parse::<u32>().unwrap_or(0)),
        _ => go_on(rt, state, words),
    }
}

fn main(rt: HostRuntime) -> io::Result<()> {
    let mut state = State::Absent;
    for line in rt.lines(rt.alloc()) {
        let line = line?;
        let words: Vec<&str> = line.as_str().split(' ').collect(rt.alloc())?;
        follow(&rt, &mut state, words.as_slice())?;
    }
    Ok(())
}
