//! Executes account statements and attempts to log in, one a line, as tests of `account_machine`:
//!
//! | Line | Is | Answered by |
//! |---|---|---|
//! | `start LIFETIME DISCONNECT HISTORY REUSE [KEY HEX]..` | settings, and the rows of a keeper, from which the accounts are loaded | `ready`, or `bad row` and the key of the first bad one |
//! | `restart` | the keeper's rows are loaded again | `ready` |
//! | `fail` | the next call of the keeper is to fail | `planned` |
//! | `statement ACTOR READING TEXT` | an account statement | `done`, or `refused` and the error's number |
//! | `prepared ACTOR READING TEXT` | the same, prepared on a look where it may set a password | the same |
//! | `login USER FLAGS READING EVIDENCE..` | an attempt to log in | its reply |
//! | `settle USER FLAGS READING EVIDENCE..` | the same, checked on a look | its reply |
//! | `look login USER`, `look name USER HOST`, `look own NUMBER` | a look | what it shows |
//! | `rows` | nothing | the keeper's rows |
//!
//! Users are hexadecimal digits, or `-` for the empty one. Evidence is `native,HEX`, `fast,HEX`, `full,HEX`, `empty` or
//! `external,HEX,yes`. The lines and their answers come from account_machine/vectors/machine.py.
#![tactic(auto)]

mod evidence;
mod printing;
mod site;

use account_history::Who;
use account_keeper::MemoryKeeper;
use account_machine::MachineFault;
use account_rules::Settings;
use lg_base::{Bytes, Host, Items, Memory, Name};
use lg_outside::Keeper;
use printing::{print_look, print_outcome, print_reply, print_rows};
use site::{Site, begin};
use std::alloc::Global;
use std::io;

/// The bytes of a word.
fn bytes_of(alloc: Global, word: &str) -> Option<Bytes> {
    if word == "-" {
        return Some(Bytes::from_vec(Vec::new(alloc)));
    }
    Some(Bytes::from_vec(hex::decode(alloc, word).ok()?))
}

fn number_of(word: &str) -> u64 {
    word.parse::<u64>().unwrap_or(0)
}

fn host_of(word: &str) -> Host {
    if word == "%" {
        return Host::Any;
    }
    Host::Localhost
}

/// Whose account a look is at.
fn who_of(alloc: Global, words: &[&str]) -> Option<Who> {
    match words {
        ["login", user] => Some(Who::Login(bytes_of(alloc, user)?)),
        ["name", user, host] => Some(Who::Account(Name {
            user: bytes_of(alloc, user)?,
            host: host_of(host),
        })),
        ["own", number] => Some(Who::Own(number_of(number))),
        _ => None,
    }
}

fn answer_statement(
    rt: &HostRuntime,
    site: &mut Site,
    numbers: [&str; 2],
    text: &str,
    is_prepared: bool,
) -> io::Result<()> {
    let [actor, reading] = numbers;
    let (actor, reading) = (number_of(actor), number_of(reading));
    let outcome = if is_prepared {
        site.execute_prepared(rt.alloc(), text.as_bytes(), actor, reading)
    } else {
        site.execute(rt.alloc(), text.as_bytes(), actor, reading)
    };
    print_outcome(rt, &outcome)
}

fn answer_login(
    rt: &HostRuntime,
    site: &mut Site,
    user: &str,
    numbers: [&str; 2],
    given: &[&str],
) -> io::Result<()> {
    let [flags, reading] = numbers;
    let flags = flags.parse::<u32>().unwrap_or(0);
    let (Some(user), Ok(Some(evidences))) = (
        bytes_of(rt.alloc(), user),
        evidence::evidences(rt.alloc(), given),
    ) else {
        return println!(rt; "no line");
    };
    let reply = site.attempt(user.as_slice(), &evidences, flags, number_of(reading));
    print_reply(rt, &reply)
}

/// The same where the evidence is checked on a look beforehand.
fn answer_settle(
    rt: &HostRuntime,
    site: &mut Site,
    user: &str,
    numbers: [&str; 2],
    given: &[&str],
) -> io::Result<()> {
    let [flags, reading] = numbers;
    let flags = flags.parse::<u32>().unwrap_or(0);
    let (Some(user), Ok(Some(evidences))) = (
        bytes_of(rt.alloc(), user),
        evidence::evidences(rt.alloc(), given),
    ) else {
        return println!(rt; "no line");
    };
    match site.settle(
        rt.alloc(),
        user.as_slice(),
        evidences,
        flags,
        number_of(reading),
    ) {
        Ok(reply) => print_reply(rt, &reply),
        Err(Memory) => println!(rt; "memory"),
    }
}

fn answer_look(rt: &HostRuntime, site: &mut Site, words: &[&str]) -> io::Result<()> {
    let Some(who) = who_of(rt.alloc(), words) else {
        return println!(rt; "no line");
    };
    match site.look(rt.alloc(), &who) {
        Ok(look) => print_look(rt, &look),
        Err(Memory) => println!(rt; "memory"),
    }
}

/// A word where something was done.
fn print_mark(rt: &HostRuntime, done: bool, word: &'static str) -> io::Result<()> {
    println!(rt; "{}", if done { word } else { "failed" })
}

fn answer(rt: &HostRuntime, site: &mut Site, line: &str) -> io::Result<()> {
    let words: Vec<&str> = line.splitn(4, ' ').collect(rt.alloc())?;
    match words.as_slice() {
        ["statement", actor, reading, text] => {
            answer_statement(rt, site, [*actor, *reading], text, false)
        }
        ["prepared", actor, reading, text] => {
            answer_statement(rt, site, [*actor, *reading], text, true)
        }
        ["rows"] => print_rows(rt, site.rows()),
        ["fail"] => print_mark(rt, site.plan_failure(), "planned"),
        ["restart"] => print_mark(rt, site.restart(rt.alloc()), "ready"),
        _ => {
            let words: Vec<&str> = line.split(' ').collect(rt.alloc())?;
            match words.as_slice() {
                ["login", user, flags, reading, given @ ..] => {
                    answer_login(rt, site, user, [*flags, *reading], given)
                }
                ["settle", user, flags, reading, given @ ..] => {
                    answer_settle(rt, site, user, [*flags, *reading], given)
                }
                ["look", whose @ ..] => answer_look(rt, site, whose),
                _ => println!(rt; "no line"),
            }
        }
    }
}

/// A keeper that has been given these keys and rows.
fn keeper_of(alloc: Global, words: &[&str]) -> Option<MemoryKeeper> {
    let mut keeper = MemoryKeeper::new(Items::new(alloc), Items::new(alloc));
    for pair in words.chunks(2) {
        let [key, row] = pair else {
            return None;
        };
        let bytes = hex::decode(alloc, row).ok()?;
        keeper.put(number_of(key), bytes.as_slice()).ok()?;
    }
    Some(keeper)
}

fn setting_of(word: &str) -> u16 {
    word.parse::<u16>().unwrap_or(0)
}

/// The accounts of a line `start`.
fn start(alloc: Global, line: &str) -> Option<Result<Site, MachineFault>> {
    let words: Vec<&str> = line.split(' ').collect(alloc).ok()?;
    let [_, lifetime, disconnect, history, reuse, rows @ ..] = words.as_slice() else {
        return None;
    };
    let settings = Settings {
        lifetime: setting_of(lifetime),
        disconnect: *disconnect == "1",
        history: setting_of(history),
        reuse: setting_of(reuse),
    };
    Some(begin(alloc, keeper_of(alloc, rows)?, settings))
}

/// Prints whether accounts were loaded, and gives them.
fn print_start(rt: &HostRuntime, line: &str) -> io::Result<Option<Site>> {
    match start(rt.alloc(), line) {
        Some(Ok(site)) => {
            println!(rt; "ready")?;
            return Ok(Some(site));
        }
        Some(Err(MachineFault::BadRow { key })) => println!(rt; "bad row {key}")?,
        Some(Err(MachineFault::Memory)) => println!(rt; "memory")?,
        None => println!(rt; "no line")?,
    }
    Ok(None)
}

fn main(rt: HostRuntime) -> io::Result<()> {
    let mut site = None;
    for line in rt.lines(rt.alloc()) {
        let line = line?;
        if line.as_str().starts_with("start ") {
            site = print_start(&rt, line.as_str())?;
            continue;
        }
        match &mut site {
            Some(site) => answer(&rt, site, line.as_str())?,
            None => println!(&rt; "no accounts")?,
        }
    }
    Ok(())
}
