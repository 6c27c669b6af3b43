//! Reads account statements, one a line, for the benchmark of reading: each is answered by `read`, or by the
//! place of the first token at which no statement fits.
#![tactic(auto)]

use std::io;
use stmt_syntax::{SyntaxFault, read};

fn main(rt: HostRuntime) -> io::Result<()> {
    for line in rt.lines(rt.alloc()) {
        let line = line?;
        match read(rt.alloc(), line.as_bytes()) {
            Ok(_) => println!(rt; "read")?,
            Err(SyntaxFault::At { place }) => println!(rt; "{place}")?,
            Err(SyntaxFault::Memory) => println!(rt; "memory")?,
        }
    }
    Ok(())
}
