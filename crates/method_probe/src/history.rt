//! Past passwords.

use crate::words::{bytes_of, no_line, past_of, print_whether};
use factor_chain::{PastRecord, Stored};
use lg_base::{Items, Memory};
use password_history::{forbids, full, remember, used};
use std::alloc::Global;
use std::io;

fn print_used(rt: &HostRuntime, used: &[bool]) -> io::Result<()> {
    for fits in used {
        print!(rt; "{} ", if *fits { "fits" } else { "no" })?;
    }
    println!(rt; "{}", used.len())
}

pub fn answer_used(rt: &HostRuntime, words: &[&str]) -> io::Result<()> {
    let [password, past @ ..] = words else {
        return no_line(rt);
    };
    let password = bytes_of(rt.alloc(), *password);
    let past = past_of(rt.alloc(), past).unwrap_or(Items::new(rt.alloc()));
    match used(rt.alloc(), past.as_slice(), password.as_slice()) {
        Ok(used) => print_used(rt, used.as_slice()),
        Err(Memory) => println!(rt; "memory"),
    }
}

/// The limits of a check.
#[derive(Drop)]
struct Limits {
    history: u16,
    reuse: u16,
    now: u64,
}

fn limits_of(history: &str, reuse: &str, now: &str) -> Limits {
    Limits {
        history: history.parse::<u16>().unwrap_or(0),
        reuse: reuse.parse::<u16>().unwrap_or(0),
        now: now.parse::<u64>().unwrap_or(0),
    }
}

fn is_forbidden(
    alloc: Global,
    past: &[PastRecord],
    password: &[u8],
    limits: &Limits,
) -> Result<bool, Memory> {
    let used = used(alloc, past, password)?;
    Ok(forbids(
        past,
        used.as_slice(),
        limits.history,
        limits.reuse,
        limits.now,
    ))
}

pub fn answer_forbids(rt: &HostRuntime, words: &[&str]) -> io::Result<()> {
    let [password, history, reuse, now, past @ ..] = words else {
        return no_line(rt);
    };
    let limits = limits_of(*history, *reuse, *now);
    let password = bytes_of(rt.alloc(), *password);
    let past = past_of(rt.alloc(), past).unwrap_or(Items::new(rt.alloc()));
    match is_forbidden(rt.alloc(), past.as_slice(), password.as_slice(), &limits) {
        Ok(forbidden) => print_whether(rt, forbidden),
        Err(Memory) => println!(rt; "memory"),
    }
}

/// The empty password at a moment.
fn set_at(moment: u64) -> PastRecord {
    PastRecord {
        moment,
        stored: Stored::Empty,
    }
}

fn same_moments(alloc: Global, count: u32, moment: u64) -> Result<Items<PastRecord>, Memory> {
    let mut past = Items::new(alloc);
    for _ in 0..count {
        past.push(set_at(moment))?;
    }
    Ok(past)
}

pub fn answer_full(rt: &HostRuntime, words: &[&str]) -> io::Result<()> {
    let [reuse, now, count, moment] = words else {
        return no_line(rt);
    };
    let limits = limits_of("0", *reuse, *now);
    let count = count.parse::<u32>().unwrap_or(0);
    let moment = moment.parse::<u64>().unwrap_or(0);
    match same_moments(rt.alloc(), count, moment) {
        Ok(past) => print_whether(rt, full(past.as_slice(), limits.reuse, limits.now)),
        Err(Memory) => println!(rt; "memory"),
    }
}

/// So many passwords, set at the moments from 0 on.
fn set_from_zero(alloc: Global, count: u64) -> Result<Items<PastRecord>, Memory> {
    let mut past = Items::new(alloc);
    for moment in 0..count {
        remember(alloc, &mut past, set_at(moment))?;
    }
    Ok(past)
}

fn print_kept(rt: &HostRuntime, past: &[PastRecord], limits: &Limits) -> io::Result<()> {
    print!(rt; "{} ", past.len())?;
    for record in past {
        print!(rt; "{} ", record.moment)?;
    }
    print_whether(rt, full(past, limits.reuse, limits.now))
}

pub fn answer_remember(rt: &HostRuntime, words: &[&str]) -> io::Result<()> {
    let [count, reuse, now] = words else {
        return no_line(rt);
    };
    let limits = limits_of("0", *reuse, *now);
    match set_from_zero(rt.alloc(), count.parse::<u64>().unwrap_or(0)) {
        Ok(past) => print_kept(rt, past.as_slice(), &limits),
        Err(Memory) => println!(rt; "memory"),
    }
}
