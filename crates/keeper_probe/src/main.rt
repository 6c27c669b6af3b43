//! Runs a keeper over an SQLite file, for the tests and the benchmark of `sqlite_keeper`. Each line of input is a call:
//!
//! - `attach PLACE`, `put KEY HEX` (`-` for no bytes), `remove KEY`, each answered by `ok`;
//! - `load`, answered by a line `row KEY HEX` for each row and by `ok`;
//! - `fill KEY COUNT SIZE`, which puts so many rows from this key on, each of so many bytes that are the key's lowest, and
//!   is answered by `put KEY` after each, as soon as it succeeded, and by `ok` at the end;
//! - `loads COUNT`, which loads so often and prints no rows, answered by `ok`;
//! - `away`, which gives the keeper to another thread for a call and takes it back, answered by `ok`.
//!
//! In place of `ok` comes `failed N` or `memory N` with the count of faults, and `bad` for a line of another form. Nothing
//! is proved of it but that it is safe.
#![tactic(auto)]

mod calls;

use calls::{Call, read_call};
use lg_outside::{KeepFault, Keeper, Row};
use sqlite_keeper::FileKeeper;
use std::thread::Threads;
use std::{io, thread};

/// Prints how a call ended.
fn print_end<R: Print>(rt: &R, ended: Result<(), KeepFault>, faults: u64) -> io::Result<()> {
    match ended {
        Ok(()) => println!(rt; "ok"),
        Err(KeepFault::Failed) => println!(rt; "failed {faults}"),
        Err(KeepFault::Memory) => println!(rt; "memory {faults}"),
    }
}

/// The letters of bytes, `-` for none.
fn print_row<R: Print + AllocGlobal>(rt: &R, row: &Row) -> io::Result<()> {
    let key = row.key;
    if row.bytes.as_slice().is_empty() {
        return println!(rt; "row {key} -");
    }
    let text = hex::encode(rt.alloc(), row.bytes.as_slice())?;
    println!(rt; "row {key} {text}")
}

/// Loads, and prints the rows.
fn load<K: Keeper, R: Print + AllocGlobal>(rt: &R, keeper: &mut K) -> io::Result<()> {
    match keeper.load() {
        Ok(rows) => {
            for row in rows.as_slice() {
                print_row(rt, row)?;
            }
            print_end(rt, Ok(()), keeper.faults())
        }
        Err(fault) => print_end(rt, Err(fault), keeper.faults()),
    }
}

/// Loads so often.
fn load_often<K: Keeper, R: Print>(rt: &R, keeper: &mut K, count: u64) -> io::Result<()> {
    for _ in 0..count {
        if let Err(fault) = keeper.load() {
            return print_end(rt, Err(fault), keeper.faults());
        }
    }
    print_end(rt, Ok(()), keeper.faults())
}

/// Puts so many rows from this key on.
fn fill<K: Keeper, R: Print + AllocGlobal>(
    rt: &R,
    keeper: &mut K,
    first: u64,
    count: u64,
    size: usize,
) -> io::Result<()> {
    for turn in 0..count {
        let key = first.wrapping_add(turn);
        let bytes = vec![in rt.alloc(); (key & 0xff) as u8; size]?;
        match keeper.put(key, bytes.as_slice()) {
            Ok(()) => println!(rt; "put {key}")?,
            Err(fault) => return print_end(rt, Err(fault), keeper.faults()),
        }
    }
    print_end(rt, Ok(()), keeper.faults())
}

/// Loads in another thread, and gives the keeper back. Where no thread can be started the caller does it.
fn load_away<K: Keeper + Drop + Send + 'static, R: Threads>(rt: &R, keeper: K) -> K {
    let job = move || {
        let mut keeper = keeper;
        let _ = keeper.load();
        keeper
    };
    match thread::spawn(rt, job) {
        Ok(handle) => handle.join(rt),
        Err(refused) => {
            let job = refused.value;
            job()
        }
    }
}

/// Makes the calls of a line, and gives the keeper back.
fn answer<K: Keeper + Drop + Send + 'static, R: Print + AllocGlobal + Threads>(
    rt: &R,
    keeper: K,
    line: &str,
) -> io::Result<K> {
    let mut keeper = keeper;
    match read_call(rt.alloc(), line) {
        Some(Call::Attach(place)) => {
            let ended = keeper.attach(place);
            print_end(rt, ended, keeper.faults())?;
        }
        Some(Call::Put(key, bytes)) => {
            let ended = keeper.put(key, bytes.as_slice());
            print_end(rt, ended, keeper.faults())?;
        }
        Some(Call::Remove(key)) => {
            let ended = keeper.remove(key);
            print_end(rt, ended, keeper.faults())?;
        }
        Some(Call::Load) => load(rt, &mut keeper)?,
        Some(Call::Loads(count)) => load_often(rt, &mut keeper, count)?,
        Some(Call::Fill(first, count, size)) => fill(rt, &mut keeper, first, count, size)?,
        Some(Call::Away) => {
            let keeper = load_away(rt, keeper);
            print_end(rt, Ok(()), keeper.faults())?;
            return Ok(keeper);
        }
        None => println!(rt; "bad")?,
    }
    Ok(keeper)
}

/// Makes the calls of all lines.
fn run<K: Keeper + Drop + Send + 'static, R: Print + Input + AllocGlobal + Threads>(
    rt: &R,
    keeper: K,
) -> io::Result<()> {
    let mut keeper = keeper;
    for line in rt.lines(rt.alloc()) {
        let line = line?;
        keeper = answer(rt, keeper, line.as_str())?;
    }
    Ok(())
}

fn main(rt: HostRuntime) -> io::Result<()> {
    run(&rt, FileKeeper::new(rt))
}
