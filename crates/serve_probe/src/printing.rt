//! The lines of a session that was served.

use lg_base::{Memory, Out};
use session_serve::Ending;
use world_table::printing::{add_numbered, print_end};

/// The line of all bytes that were written.
pub fn print_written(out: &mut Out, session: u32, written: &[u8]) -> Result<(), Memory> {
    add_numbered(out, b"written ", u64::from(session), b' ')?;
    let word = hex::encode(out.allocator(), written)?;
    out.bytes(word.as_bytes())?;
    out.byte(b'\n')
}

/// The line of the end.
pub fn print_ending(out: &mut Out, session: u32, how: Ending) -> Result<(), Memory> {
    match how {
        Ending::Told(end) => print_end(out, session, end),
        Ending::BookEnd => {
            add_numbered(out, b"ended ", u64::from(session), b' ')?;
            out.bytes(b"book\n")
        }
    }
}
