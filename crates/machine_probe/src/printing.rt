//! What is printed of replies, looks and rows.

use crate::site::Outcome;
use account_history::{Reply, StmtReply};
use factor_chain::{Credential, InForce, Look, Method, Stored};
use lg_base::Host;
use lg_outside::Row;
use login_lock::LockTime;
use native_scramble::write_stored as write_native;
use std::io;

fn print_hex(rt: &HostRuntime, bytes: &[u8]) -> io::Result<()> {
    let text = hex::encode(rt.alloc(), bytes)?;
    print!(rt; "{text}")
}

/// A user, or `-` for the empty one.
fn print_user(rt: &HostRuntime, user: &[u8]) -> io::Result<()> {
    if user.is_empty() {
        return print!(rt; "-");
    }
    print_hex(rt, user)
}

fn host_text(host: Host) -> &'static str {
    match host {
        Host::Localhost => "localhost",
        Host::Any => "%",
    }
}

fn method_text(method: Method) -> &'static str {
    match method {
        Method::Native => "native",
        Method::CachingSha2 => "caching",
    }
}

pub fn print_outcome(rt: &HostRuntime, outcome: &Outcome) -> io::Result<()> {
    match outcome {
        Outcome::Answered(StmtReply::Done) => println!(rt; "done"),
        Outcome::Answered(StmtReply::Refused(code)) => println!(rt; "refused {}", code.number()),
        Outcome::NoStatement(place) => println!(rt; "no statement at {place}"),
        Outcome::Memory => println!(rt; "memory"),
    }
}

pub fn print_reply(rt: &HostRuntime, reply: &Reply) -> io::Result<()> {
    match reply {
        Reply::Opened { account, host } => println!(rt; "opened {account} {}", host_text(*host)),
        Reply::Sandbox { account, host } => println!(rt; "sandbox {account} {}", host_text(*host)),
        Reply::Blocked { rule, left } => match rule.time {
            LockTime::Days(days) => println!(rt; "blocked {} {days} {left}", rule.attempts),
            LockTime::Unbounded => println!(rt; "blocked {} unbounded {left}", rule.attempts),
        },
        Reply::Denied { using_password } => {
            println!(rt; "denied {}", if *using_password { "yes" } else { "no" })
        }
        Reply::Locked => println!(rt; "locked"),
        Reply::MustChange => println!(rt; "mustchange"),
    }
}

/// What is stored, as a record has it.
fn print_stored(rt: &HostRuntime, stored: &Stored) -> io::Result<()> {
    match stored {
        Stored::Empty => print!(rt; "00"),
        Stored::Native(stage2) => {
            print!(rt; "01")?;
            print_hex(rt, write_native(stage2).as_slice())
        }
        Stored::Sha2(value) => {
            print!(rt; "02")?;
            print_hex(rt, b"$A$005$")?;
            print_hex(rt, value.salt.as_slice())?;
            print_hex(rt, value.sum.as_slice())
        }
    }
}

fn print_credential(rt: &HostRuntime, credential: &Credential) -> io::Result<()> {
    print!(rt; " {} ", credential.id)?;
    print_stored(rt, &credential.stored)?;
    match &credential.digest {
        Some(digest) => {
            print!(rt; " ")?;
            print_hex(rt, digest.as_slice())
        }
        None => print!(rt; " -"),
    }
}

fn print_account(rt: &HostRuntime, account: &InForce) -> io::Result<()> {
    print!(rt; " {} ", account.account)?;
    print_user(rt, account.name.user.as_slice())?;
    print!(rt; " {} ", host_text(account.name.host))?;
    print!(rt; "{}", method_text(account.method))?;
    print_credential(rt, &account.primary)?;
    if let Some(secondary) = &account.secondary {
        print_credential(rt, secondary)?;
    }
    for label in account.labels.as_slice() {
        print!(rt; " label ")?;
        print_hex(rt, label.as_slice())?;
    }
    for past in account.past.as_slice() {
        print!(rt; " past {} ", past.moment)?;
        print_stored(rt, &past.stored)?;
    }
    println!(rt; "")
}

pub fn print_look(rt: &HostRuntime, look: &Look) -> io::Result<()> {
    print_user(rt, look.user.as_slice())?;
    print!(rt; " {}", look.stamp)?;
    match &look.in_force {
        Some(account) => print_account(rt, account),
        None => println!(rt; " none"),
    }
}

pub fn print_rows(rt: &HostRuntime, rows: &[Row]) -> io::Result<()> {
    if rows.is_empty() {
        return println!(rt; "none");
    }
    let mut first = true;
    for row in rows {
        print!(rt; "{}{} ", if first { "" } else { " " }, row.key)?;
        print_hex(rt, row.bytes.as_slice())?;
        first = false;
    }
    println!(rt; "")
}
