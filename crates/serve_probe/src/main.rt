//! Serves sessions over links in memory and shared accounts, one after the other, for tests/served.
//!
//! The input is cases. A case is a line `calls NUMBERS`, with the calls of each session's link that fail, counted from 1 (`-`
//! for none), and then a replay script, up to its line `end`. Its events come in their order, of which these are taken:
//!
//! | Event | Is |
//! |---|---|
//! | `clock N` | the clock reads N: for the statements of `admin`, and as the next reading of the session that has begun |
//! | `admin TEXT` | root has this account statement executed |
//! | `open S` | session S begins |
//! | `bytes S HEX` | its peer has sent these bytes |
//! | `run S` | session S is served until it ends; its peer ends behind the bytes |
//!
//! Printed are `written S HEX`, all bytes that were written to the link; `ended S WORDS`, as a replay prints it, or `ended S book`;
//! and `done` behind each case, or `bad` where it is none.
#![tactic(auto)]

mod administering;
mod cases;
mod printing;
mod serving;

use cases::{Fault, run_case};
use lg_base::Out;
use std::alloc::AllocGlobal;
use std::io::{self, Print};
use std::sync::Wait;

/// Runs a case, and prints what comes of it.
fn answer<R: Print + AllocGlobal + Wait>(rt: &R, calls: &str, text: Out) -> io::Result<()> {
    let alloc = rt.alloc();
    let mut out = Out::new(alloc);
    match run_case(rt, alloc, calls, text.as_slice(), &mut out) {
        Ok(()) => {
            let printed = std::str::from_utf8(out.as_slice()).unwrap_or("");
            println!(rt; "{printed}done")
        }
        Err(Fault::Case) => println!(rt; "bad"),
        Err(Fault::Memory) => println!(rt; "memory"),
    }
}

/// Adds a line to a text.
fn add_line(text: &mut Out, line: &str) -> bool {
    text.bytes(line.as_bytes()).is_ok() && text.byte(b'\n').is_ok()
}

fn main(rt: HostRuntime) -> io::Result<()> {
    let alloc = rt.alloc();
    let mut calls = String::new(alloc);
    let mut text = Out::new(alloc);
    for line in rt.lines(alloc) {
        let line = line?;
        if line.as_str().starts_with("calls ") {
            calls = line;
            continue;
        }
        if !add_line(&mut text, line.as_str()) {
            return println!(rt; "memory");
        }
        if line.as_str() == "end" {
            answer(&rt, calls.as_str(), text)?;
            text = Out::new(alloc);
        }
    }
    Ok(())
}
