//! Reads and writes tables, one a line, as tests of `result_sets`. A line `table HEX HEX ..` is a list of payloads, `-`
//! an empty one. It is answered by the table and the payloads that are written of it (`same` where those are the list),
//! or by the payload and the place in it at which no table fits. A line `count COLUMNS ROWS` asks for a table of so many
//! columns and rows to be written and read back, and is answered by how many payloads, columns, rows and cells there are.
//! The lines and their answers come from result_sets/vectors/places.py.
#![tactic(auto)]

mod counting;
mod printing;

use lg_base::{Bytes, Items};
use result_sets::{TableFault, read_table};
use std::io;

/// The payloads of a line, or `None` where a word is no payload.
fn payloads_of(rt: &HostRuntime, line: &str) -> io::Result<Option<Items<Bytes>>> {
    let mut payloads = Items::new(rt.alloc());
    let words: Vec<&str> = line.split(' ').collect(rt.alloc())?;
    for word in words.as_slice() {
        let text = if *word == "-" { "" } else { *word };
        match hex::decode(rt.alloc(), text) {
            Ok(payload) => {
                if payloads.push(Bytes::from_vec(payload)).is_err() {
                    return Ok(None);
                }
            }
            Err(_) => return Ok(None),
        }
    }
    Ok(Some(payloads))
}

fn answer_table(rt: &HostRuntime, line: &str) -> io::Result<()> {
    let Some(payloads) = payloads_of(rt, line)? else {
        return println!(rt; "no payloads");
    };
    match read_table(rt.alloc(), payloads.as_slice()) {
        Ok(table) => printing::print_table(rt, &table, payloads.as_slice()),
        Err(TableFault::Malformed { index, at }) => println!(rt; "payload {index} at {at}"),
        Err(TableFault::Memory) => println!(rt; "memory"),
    }
}

fn answer_count(rt: &HostRuntime, text: &str) -> io::Result<()> {
    let (columns, rows) = text.split_once(' ').unwrap_or(("", ""));
    let columns = columns.parse::<u64>().unwrap_or(0);
    let rows = rows.parse::<u64>().unwrap_or(0);
    match counting::count(rt.alloc(), columns, rows) {
        Some(counts) => println!(rt;
            "payloads {} columns {} rows {} cells {}",
            counts.payloads, counts.columns, counts.rows, counts.cells
        ),
        None => println!(rt; "no table"),
    }
}

fn main(rt: HostRuntime) -> io::Result<()> {
    for line in rt.lines(rt.alloc()) {
        let line = line?;
        match line.as_str().split_once(' ') {
            Some(("table", text)) => answer_table(&rt, text)?,
            Some(("count", text)) => answer_count(&rt, text)?,
            _ => println!(rt; "no kind")?,
        }
    }
    Ok(())
}
