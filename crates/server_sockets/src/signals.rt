//! Signals that wait for the process.
//!
//! A process that was started with TERM and INT blocked goes on where one of them is sent, and the system's file on the
//! process then shows it as pending: the lines `SigPnd` and `ShdPnd` have a bit for each signal in hexadecimal.

ghost use Rattle.std.specs.Prelude.{◌≤◌, IfOk, length};

use std::io::{ErrorKind, Read};
use std::rt::Files;
use std::{fs, io};

/// The system's file on this process.
const STATUS: &str = "/proc/self/status";

/// How much of that file is looked at. The lines stand in its first two kilobytes, but for one with the groups of the
/// process, which takes up to 11 bytes for each.
const MOST: usize = 8192;

/// How many digits stand in such a line.
const DIGITS: usize = 16;

/// TERM has the number 15 and INT 2, counted from 1.
const TERM_OR_INT: u64 = 1 << 14 | 1 << 1;

/// Whether TERM or INT is pending. Where the system doesn't tell, none is.
pub(crate) fn is_told_to_end<F: Files>(files: &F) -> bool {
    let mut room = [0u8; MOST];
    match read_status(files, &mut room) {
        Ok(count) => {
            let status = &room[..count];
            let waiting = pending(status, b"SigPnd:\t") | pending(status, b"ShdPnd:\t");
            waiting & TERM_OR_INT != 0
        }
        Err(_) => false,
    }
}

/// Reads the beginning of the system's file, as much as there is room for, and answers how much that is.
fn read_status<F: Files>(files: &F, room: &mut [u8]) -> io::Result<usize>
    ensures { IfOk result (λ count. count ≤ length room.new) }
{
    let mut file = fs::open(files, STATUS)?;
    let mut count = 0;
    for _ in 0..MOST {
        if count == room.len() {
            return Ok(count);
        }
        match file.read(&mut room[count..]) {
            Ok(0) => return Ok(count),
            Ok(more) => count += more,
            Err(error) => {
                if error.kind() != ErrorKind::Interrupted {
                    return Err(error);
                }
            }
        }
    }
    Ok(count)
}

/// The bits of the line that begins so, or 0 where there is none.
fn pending(status: &[u8], name: &[u8; 8]) -> u64 {
    for place in 0..status.len() {
        let left = &status[place..];
        if left.starts_with(name) {
            return bits(&left[name.len()..]);
        }
    }
    0
}

/// The number that stands in front in hexadecimal digits.
fn bits(text: &[u8]) -> u64 {
    let mut number = 0u64;
    for letter in text.iter().take(DIGITS) {
        let digit = match *letter {
            b'0'..=b'9' => *letter - b'0',
            b'a'..=b'f' => *letter - b'a' + 10,
            _ => return number,
        };
        number = number << 4 | u64::from(digit);
    }
    number
}
