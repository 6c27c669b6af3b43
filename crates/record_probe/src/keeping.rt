//! The calls of a keeper in memory.

use account_keeper::MemoryKeeper;
use lg_base::Items;
use lg_outside::{KeepFault, Keeper, Row};
use std::io;

fn print_fault(rt: &HostRuntime, fault: KeepFault) -> io::Result<()> {
    match fault {
        KeepFault::Failed => println!(rt; "failed"),
        KeepFault::Memory => println!(rt; "memory"),
    }
}

fn print_done<T: Drop>(rt: &HostRuntime, done: Result<T, KeepFault>) -> io::Result<()> {
    match done {
        Ok(_) => println!(rt; "done"),
        Err(fault) => print_fault(rt, fault),
    }
}

fn print_rows(rt: &HostRuntime, rows: &[Row]) -> io::Result<()> {
    for row in rows {
        let text = hex::encode(rt.alloc(), row.bytes.as_slice())?;
        print!(rt; "{}={text} ", row.key)?;
    }
    Ok(())
}

fn print_loaded(rt: &HostRuntime, loaded: Result<Items<Row>, KeepFault>) -> io::Result<()> {
    match loaded {
        Ok(rows) => {
            print_rows(rt, rows.as_slice())?;
            println!(rt; "loaded")
        }
        Err(fault) => print_fault(rt, fault),
    }
}

/// A keeper without rows, whose calls with these numbers fail.
pub fn new_keeper(rt: &HostRuntime, failing: &[u64]) -> io::Result<MemoryKeeper> {
    let failing = Items::from_vec(Vec::from_slice(rt.alloc(), failing)?);
    Ok(MemoryKeeper::new(Items::new(rt.alloc()), failing))
}

fn put(rt: &HostRuntime, keeper: &mut MemoryKeeper, key: u64, text: &str) -> io::Result<()> {
    match hex::decode(rt.alloc(), text) {
        Ok(bytes) => print_done(rt, keeper.put(key, bytes.as_slice())),
        Err(_) => println!(rt; "no bytes"),
    }
}

/// Asks a keeper: `attach`, `load`, `put KEY HEX`, `remove KEY`, `fail`, after which the next call fails, or `rows`, which
/// is answered by its rows and how many calls have failed.
pub fn answer(rt: &HostRuntime, keeper: &mut MemoryKeeper, words: &[&str]) -> io::Result<()> {
    match words {
        ["attach"] => print_done(rt, keeper.attach("here")),
        ["load"] => print_loaded(rt, keeper.load()),
        ["put", key, text] => put(rt, keeper, key.parse::<u64>().unwrap_or(0), *text),
        ["remove", key] => print_done(rt, keeper.remove(key.parse::<u64>().unwrap_or(0))),
        ["fail"] => match keeper.fail_next() {
            Ok(()) => println!(rt; "done"),
            Err(_) => println!(rt; "memory"),
        },
        ["rows"] => {
            print_rows(rt, keeper.rows())?;
            println!(rt; "faults {}", keeper.faults())
        }
        _ => println!(rt; "no call"),
    }
}
