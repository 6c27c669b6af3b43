//! Runs over shared accounts, one a line:
//!
//! | Line | Is |
//! |---|---|
//! | `two-seats` | one seat changes a password, and another that meets a split of it sees the new stamp |
//! | `stale-twice` | an attempt that is stale twice, and is answered in the turn |
//! | `fail THREADS ATTEMPTS` | threads that fail to log in to one account, which fifty failures lock for a day |
//! | `change THREADS ATTEMPTS CHANGES` | the first thread changes a password, and the others log in |
//! | `open THREADS ATTEMPTS` | threads that log in without a password, for bench/shared to time |
//!
//! What is printed is the same in whatever order the threads run.
#![tactic(auto)]

mod calls;
mod counts;
mod crowds;
mod seats;

use account_history::Reply;
use counts::Counts;
use crowds::{Crowd, change_together, fail_together, open_together};
use seats::{Overtaken, Stamps, stale_twice, two_seats};
use std::alloc::Global;
use std::io;
use std::sync::Wait;
use std::thread::Threads;

/// What a line comes to.
#[derive(Drop)]
enum Outcome {
    TwoSeats(Stamps),
    StaleTwice(Overtaken),
    Failed(Crowd),
    Changed(Crowd),
    Opened(Counts),
    /// The line is no run, or memory or the book's turns were at their end.
    Nothing,
}

fn number_of(word: &str) -> u64 {
    word.parse::<u64>().unwrap_or(0)
}

/// The run of a line.
fn run<R: Threads + Wait + Sync>(rt: &R, alloc: Global, line: &str) -> Option<Outcome> {
    let words: Vec<&str> = line.split(' ').collect(alloc).ok()?;
    match words.as_slice() {
        ["two-seats"] => Some(Outcome::TwoSeats(two_seats(rt, alloc)?)),
        ["stale-twice"] => Some(Outcome::StaleTwice(stale_twice(rt, alloc)?)),
        ["fail", threads, attempts] => {
            let crowd = fail_together(rt, alloc, number_of(threads), number_of(attempts))?;
            Some(Outcome::Failed(crowd))
        }
        ["change", threads, attempts, changes] => {
            let (threads, attempts) = (number_of(threads), number_of(attempts));
            let crowd = change_together(rt, alloc, threads, attempts, number_of(changes))?;
            Some(Outcome::Changed(crowd))
        }
        ["open", threads, attempts] => {
            let counts = open_together(rt, alloc, number_of(threads), number_of(attempts))?;
            Some(Outcome::Opened(counts))
        }
        _ => None,
    }
}

fn word_of(reply: &Reply) -> &'static str {
    match reply {
        Reply::Opened { .. } => "opened",
        Reply::Sandbox { .. } => "sandbox",
        Reply::Blocked { .. } => "blocked",
        Reply::Denied { using_password } => {
            if *using_password {
                "denied with a password"
            } else {
                "denied without a password"
            }
        }
        Reply::Locked => "locked",
        Reply::MustChange => "must change",
    }
}

fn print_overtaken(rt: &HostRuntime, end: &Overtaken) -> io::Result<()> {
    println!(rt;
        "stale-twice: stale {}, the stamp rose by {}",
        end.first, end.rise
    )?;
    println!(rt; "stale-twice: stale {}", end.second)?;
    println!(rt; "stale-twice: {}", word_of(&end.reply))?;
    println!(rt; "stale-twice: then {}", word_of(&end.next))?;
    println!(rt;
        "stale-twice: {}",
        if end.is_closed {
            "closed"
        } else {
            "not closed"
        }
    )
}

fn print_failures(rt: &HostRuntime, crowd: &Crowd) -> io::Result<()> {
    let counts = crowd.counts;
    println!(rt;
        "fail: denied {}, blocked {}",
        counts.denied, counts.blocked
    )?;
    println!(rt; "fail: opened {}, others {}", counts.opened, counts.others)?;
    println!(rt;
        "fail: then {}, and last {}",
        word_of(&crowd.then),
        word_of(&crowd.last)
    )
}

fn print_changes(rt: &HostRuntime, crowd: &Crowd) -> io::Result<()> {
    let counts = crowd.counts;
    let answered = counts.opened.wrapping_add(counts.denied);
    println!(rt; "change: changed {}, answered {answered}", counts.changed)?;
    println!(rt;
        "change: opened by a retired password {}, others {}",
        counts.retired, counts.others
    )?;
    println!(rt;
        "change: then {}, and last {}",
        word_of(&crowd.then),
        word_of(&crowd.last)
    )
}

fn print_outcome(rt: &HostRuntime, outcome: &Outcome) -> io::Result<()> {
    match outcome {
        Outcome::TwoSeats(stamps) => {
            println!(rt; "two-seats: stamps {} {}", stamps.before, stamps.after)
        }
        Outcome::StaleTwice(end) => print_overtaken(rt, end),
        Outcome::Failed(crowd) => print_failures(rt, crowd),
        Outcome::Changed(crowd) => print_changes(rt, crowd),
        Outcome::Opened(counts) => println!(rt; "open: opened {}", counts.opened),
        Outcome::Nothing => println!(rt; "nothing"),
    }
}

fn main(rt: HostRuntime) -> io::Result<()> {
    for line in rt.lines(rt.alloc()) {
        let line = line?;
        let outcome = run(&rt, rt.alloc(), line.as_str()).unwrap_or(Outcome::Nothing);
        print_outcome(&rt, &outcome)?;
    }
    Ok(())
}
