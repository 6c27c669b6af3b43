//! Reads account statements, one a line in hexadecimal, as tests of `stmt_syntax`: `place HEX` is answered by the
//! place at which no statement fits, or by `read`, and `print HEX` by the statement as it is printed, in
//! hexadecimal, or by the place. `long FRONT PART COUNT BACK` is a text too long for a line: FRONT, COUNT times PART, and
//! BACK. It is answered by the length and the last bytes of what is printed of it, or by the place. The lines and their
//! answers come from stmt_syntax/vectors/places.py.
#![tactic(auto)]

use lg_base::Out;
use std::io;
use stmt_syntax::{SyntaxFault, print, read};

fn print_fault(rt: &HostRuntime, fault: SyntaxFault) -> io::Result<()> {
    match fault {
        SyntaxFault::At { place } => println!(rt; "{place}"),
        SyntaxFault::Memory => println!(rt; "memory"),
    }
}

fn answer_place(rt: &HostRuntime, text: &[u8]) -> io::Result<()> {
    match read(rt.alloc(), text) {
        Ok(_) => println!(rt; "read"),
        Err(fault) => print_fault(rt, fault),
    }
}

fn answer_print(rt: &HostRuntime, text: &[u8]) -> io::Result<()> {
    match read(rt.alloc(), text) {
        Ok(statement) => {
            let mut out = Out::new(rt.alloc());
            if print(&statement, &mut out).is_err() {
                return println!(rt; "memory");
            }
            let printed = hex::encode(rt.alloc(), out.as_slice())?;
            println!(rt; "{printed}")
        }
        Err(fault) => print_fault(rt, fault),
    }
}

/// The bytes that stand in hexadecimal digits, or none.
fn bytes_of(rt: &HostRuntime, text: &str) -> Vec<u8> {
    hex::decode(rt.alloc(), text).unwrap_or(Vec::new(rt.alloc()))
}

fn long_text(rt: &HostRuntime, parts: [&str; 3], count: u32) -> io::Result<Vec<u8>> {
    let [front, part, back] = parts;
    let part = bytes_of(rt, part);
    let mut text = bytes_of(rt, front);
    for _ in 0..count {
        text.extend_from_slice(part.as_slice())?;
    }
    text.extend_from_slice(bytes_of(rt, back).as_slice())?;
    Ok(text)
}

fn answer_long(rt: &HostRuntime, parts: [&str; 3], count: u32) -> io::Result<()> {
    let text = long_text(rt, parts, count)?;
    match read(rt.alloc(), text.as_slice()) {
        Ok(statement) => {
            let mut out = Out::new(rt.alloc());
            if print(&statement, &mut out).is_err() {
                return println!(rt; "memory");
            }
            let printed = out.as_slice();
            let (_, last) = printed.split_at(printed.len().saturating_sub(20));
            println!(rt; "{} {}", printed.len(), hex::encode(rt.alloc(), last)?)
        }
        Err(fault) => print_fault(rt, fault),
    }
}

fn main(rt: HostRuntime) -> io::Result<()> {
    for line in rt.lines(rt.alloc()) {
        let line = line?;
        let words: Vec<&str> = line.as_str().split(' ').collect(rt.alloc())?;
        match words.as_slice() {
            ["print", text] => answer_print(&rt, bytes_of(&rt, *text).as_slice())?,
            ["place", text] => answer_place(&rt, bytes_of(&rt, *text).as_slice())?,
            ["long", front, part, count, back] => {
                let count = count.parse::<u32>().unwrap_or(0);
                answer_long(&rt, [*front, *part, *back], count)?;
            }
            _ => println!(rt; "no text")?,
        }
    }
    Ok(())
}
