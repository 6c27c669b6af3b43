//! Reads records of accounts, one a line, as tests of `account_keeper`: a line is `KEY HEX`, the key of a row and
//! its bytes. It is answered by `bad`, or by the account and what is written of it (`same` where that is the
//! row's bytes) after its credentials got other ids. Lines that begin with `keeper` are the calls of a keeper in memory.
//! The lines and their answers come from account_keeper/vectors/records.py.
#![tactic(auto)]

mod keeping;
mod printing;

use account_keeper::{RecordFault, fits_record, read_record, write_record};
use account_rules::Account;
use lg_base::Out;
use std::io;

/// Gives the account and its credentials other ids, which no record keeps.
fn renumber(account: &mut Account) {
    account.id = 8;
    account.primary_id = 3;
    account.secondary = match account.secondary {
        Some((stored, _)) => Some((stored, 4)),
        None => None,
    };
}

fn print_written(rt: &HostRuntime, account: &Account, bytes: &[u8]) -> io::Result<()> {
    if !fits_record(account) {
        return println!(rt; "doesn't fit");
    }
    let mut out = Out::new(rt.alloc());
    if write_record(account, &mut out).is_err() {
        return println!(rt; "memory");
    }
    if out.as_slice() == bytes {
        return println!(rt; "same");
    }
    let text = hex::encode(rt.alloc(), out.as_slice())?;
    println!(rt; "written={text}")
}

fn answer(rt: &HostRuntime, key: u64, bytes: &[u8]) -> io::Result<()> {
    match read_record(rt.alloc(), key, bytes) {
        Ok(mut account) => {
            printing::print_account(rt, &account)?;
            renumber(&mut account);
            print_written(rt, &account, bytes)
        }
        Err(RecordFault::Bad) => println!(rt; "bad"),
        Err(RecordFault::Memory) => println!(rt; "memory"),
    }
}

fn answer_record(rt: &HostRuntime, key: &str, text: &str) -> io::Result<()> {
    let key = key.parse::<u64>().unwrap_or(0);
    match hex::decode(rt.alloc(), text) {
        Ok(bytes) => answer(rt, key, bytes.as_slice()),
        Err(_) => println!(rt; "no record"),
    }
}

fn main(rt: HostRuntime) -> io::Result<()> {
    let mut keeper = keeping::new_keeper(&rt, &[1, 2, 4, 6])?;
    for line in rt.lines(rt.alloc()) {
        let line = line?;
        let words: Vec<&str> = line.as_str().split(' ').collect(rt.alloc())?;
        match words.as_slice() {
            ["keeper", "new"] => {
                keeper = keeping::new_keeper(&rt, &[])?;
            }
            ["keeper", call @ ..] => keeping::answer(&rt, &mut keeper, call)?,
            [key, text] => answer_record(&rt, *key, *text)?,
            _ => println!(rt; "no record")?,
        }
    }
    Ok(())
}
