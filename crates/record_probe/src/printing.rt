//! What is printed of an account.

use account_rules::{Account, Lifetime, Limit};
use factor_chain::{Method, PastRecord, Stored};
use lg_base::{Bytes, Host};
use login_lock::{LockRule, LockTime};
use std::io;

fn print_hex(rt: &HostRuntime, bytes: &[u8]) -> io::Result<()> {
    let text = hex::encode(rt.alloc(), bytes)?;
    print!(rt; "{text} ")
}

fn print_stored(rt: &HostRuntime, stored: &Stored) -> io::Result<()> {
    match stored {
        Stored::Empty => print!(rt; "empty "),
        Stored::Native(stage2) => print_hex(rt, stage2.as_slice()),
        Stored::Sha2(held) => {
            print!(rt; "{} ", held.thousands)?;
            print_hex(rt, held.salt.as_slice())?;
            print_hex(rt, held.sum.as_slice())
        }
    }
}

fn print_secondary(rt: &HostRuntime, secondary: &Option<(Stored, u64)>) -> io::Result<()> {
    match secondary {
        Some((stored, id)) => {
            print!(rt; "secondary {id} ")?;
            print_stored(rt, stored)
        }
        None => Ok(()),
    }
}

fn host_text(host: Host) -> &'static str {
    match host {
        Host::Localhost => "localhost",
        Host::Any => "%",
    }
}

fn method_text(method: Method) -> &'static str {
    match method {
        Method::Native => "native",
        Method::CachingSha2 => "caching",
    }
}

fn print_credentials(rt: &HostRuntime, account: &Account) -> io::Result<()> {
    print_hex(rt, account.name.user.as_slice())?;
    print!(rt; "{} ", host_text(account.name.host))?;
    print!(rt; "{} ", method_text(account.method))?;
    print!(rt; "primary {} ", account.primary_id)?;
    print_stored(rt, &account.primary)?;
    print_secondary(rt, &account.secondary)
}

fn print_lifetime(rt: &HostRuntime, lifetime: Lifetime) -> io::Result<()> {
    match lifetime {
        Lifetime::Default => print!(rt; "lifetime default "),
        Lifetime::Never => print!(rt; "lifetime never "),
        Lifetime::Days(days) => print!(rt; "lifetime {days} "),
    }
}

fn print_limit(rt: &HostRuntime, name: &str, limit: Limit) -> io::Result<()> {
    match limit {
        Limit::Default => print!(rt; "{name} default "),
        Limit::Count(count) => print!(rt; "{name} {count} "),
    }
}

fn print_lock(rt: &HostRuntime, lock: &LockRule) -> io::Result<()> {
    print!(rt; "attempts {} ", lock.attempts)?;
    match lock.time {
        LockTime::Days(days) => print!(rt; "days {days} "),
        LockTime::Unbounded => print!(rt; "unbounded "),
    }
}

fn print_labels(rt: &HostRuntime, labels: &[Bytes]) -> io::Result<()> {
    for label in labels {
        print!(rt; "label ")?;
        print_hex(rt, label.as_slice())?;
    }
    Ok(())
}

fn print_past(rt: &HostRuntime, past: &[PastRecord]) -> io::Result<()> {
    for record in past {
        print!(rt; "past {} ", record.moment)?;
        print_stored(rt, &record.stored)?;
    }
    Ok(())
}

fn flag(word: &'static str, there: bool) -> &'static str {
    if there { word } else { "" }
}

fn print_flags(rt: &HostRuntime, account: &Account) -> io::Result<()> {
    print!(rt; "{}", flag("expired ", account.expired))?;
    print!(rt; "{}", flag("locked ", account.locked))?;
    print!(rt; "{}", flag("create_user ", account.create_user))?;
    print!(rt; "{}", flag("password_admin ", account.password_admin))
}

pub fn print_account(rt: &HostRuntime, account: &Account) -> io::Result<()> {
    print!(rt; "{} ", account.id)?;
    print_credentials(rt, account)?;
    print_labels(rt, account.labels.as_slice())?;
    print!(rt; "changed {} ", account.changed)?;
    print_lifetime(rt, account.lifetime)?;
    print_limit(rt, "history", account.history)?;
    print_limit(rt, "reuse", account.reuse)?;
    print_lock(rt, &account.lock)?;
    print_flags(rt, account)?;
    print_past(rt, account.past.as_slice())
}
