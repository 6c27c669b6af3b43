//! Calls the forms in memory of the server's outside, its draws and its clock, for the tests of `server_outside`. Each line
//! of input is a call, and lists of numbers are parted by commas, `-` for none:
//!
//! - `clock READINGS COUNT`: so many readings of a clock with this list;
//! - `system SECONDS`: a reading of the system's clock over a time that stands still, `-` where there is none;
//! - `counted COUNT`, `chacha HEX ID COUNT`: so many draws, by numbers, or from a seed and a session's id;
//! - `seed BYTE`: a seed from a source whose bytes are all this one;
//! - `judge FAILING WORD..`: a verifier that accepts the password `1234` of `ann` at `pin`, and fails at the listed calls,
//!   asked for each word; the word `+` lists its next call too;
//! - `door FAILING COUNT`: a door with links of the bytes `a` and `b`, opened, and then asked so often for a link;
//! - `maker FAILING READINGS`: a maker that is seeded twice, and one of each that it makes;
//! - `gate`: two sessions that pass a gate in two threads.
//!
//! A line of another form is answered by `bad`. Nothing is proved of it but that it is safe.
#![tactic(auto)]

mod judging;
mod making;
mod opening;
mod telling;

use lg_base::{Items, Memory};
use server_outside::{Gate, NoGate, PairGate};
use std::alloc::Global;
use std::thread::Threads;
use std::{io, thread};

/// Why a line wasn't answered.
#[derive(Drop)]
pub enum Fault {
    Line,
    Memory,
    Output(io::Error),
}

impl From<Memory> for Fault {
    fn from(_refused: Memory) -> Fault {
        Fault::Memory
    }
}

impl From<io::Error> for Fault {
    fn from(error: io::Error) -> Fault {
        Fault::Output(error)
    }
}

/// The list of numbers of a word.
pub fn numbers(alloc: Global, text: &str) -> Result<Items<u64>, Fault> {
    let mut numbers = Items::new(alloc);
    if text == "-" {
        return Ok(numbers);
    }
    for word in text.split(',') {
        match word.parse::<u64>() {
            Ok(number) => numbers.push(number)?,
            Err(_) => return Err(Fault::Line),
        }
    }
    Ok(numbers)
}

/// Whether two sessions met at a gate that they passed in two threads, and hadn't met before.
fn pass_gate<R: Threads>(rt: &R) -> bool {
    NoGate.checking(1);
    let gate = PairGate::new();
    let before = gate.met();
    thread::join(rt, || gate.checking(1), || gate.checking(2));
    !before && gate.met()
}

/// Answers a line.
fn answer(rt: &HostRuntime, line: &str) -> Result<(), Fault> {
    let (name, rest) = line.split_once(' ').unwrap_or((line, ""));
    match name {
        "clock" => telling::readings(rt, rest),
        "system" => telling::system(rt, rest),
        "counted" => telling::counted(rt, rest),
        "chacha" => telling::chacha(rt, rest),
        "seed" => telling::seed(rt, rest),
        "judge" => judging::judge(rt, rest),
        "door" => opening::open(rt, rest),
        "maker" => making::make(rt, rest),
        _ => Err(Fault::Line),
    }
}

fn main(rt: HostRuntime) -> io::Result<()> {
    for line in rt.lines(rt.alloc()) {
        let line = line?;
        if line.as_str() == "gate" {
            let word = if pass_gate(&rt) { "met" } else { "missed" };
            println!(rt; "{}", word)?;
            continue;
        }
        match answer(&rt, line.as_str()) {
            Ok(()) => {}
            Err(Fault::Line) => println!(rt; "bad")?,
            Err(Fault::Memory) => println!(rt; "memory")?,
            Err(Fault::Output(error)) => return Err(error),
        }
    }
    Ok(())
}
