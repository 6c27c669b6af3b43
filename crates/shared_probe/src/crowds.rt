//! Runs of many threads, each with a seat of one book.

ghost use Rattle.shared_accounts.specs.Sharing.{Sits};
ghost use Rattle.std.specs.Prelude.{◌<◌};
ghost use denote.Param.Send.{IsSend, IsSync};

use crate::calls::{Tried, attempt, begin, no_password, perform, try_password};
use crate::counts::Counts;
use account_history::Reply;
use lg_outside::Keeper;
use shared_accounts::{Seat, SharedAccounts};
use std::alloc::Global;
use std::sync::Wait;
use std::sync::atomic::{AtomicU64, Ordering};
use std::thread;
use std::thread::Threads;

const ANN: &[u8] = b"ann";

const ROOT: &[u8] = b"root";

/// What each thread does.
#[derive(Clone, Copy)]
pub enum Work {
    /// Attempts with a wrong password, the n-th of them at the second n.
    Fail { attempts: u64 },
    /// Attempts of root, without a password.
    Open { attempts: u64 },
    /// The first thread changes the password, and the others log in.
    Change { changes: u64, attempts: u64 },
}

fn fail<K: Keeper + Drop, R: Wait>(
    rt: &R,
    alloc: Global,
    shared: &SharedAccounts<K>,
    mut seat: Seat<K>,
    attempts: u64,
    newest: &AtomicU64,
) -> Counts
    requires own { Sits shared.now seat }
{
    let mut counts = Counts::none();
    for reading in 0..attempts {
        let tried = try_password(rt, alloc, shared, &mut seat, ANN, b"wrong", reading, newest);
        counts = counts.with(&tried);
    }
    counts
}

fn open_one<K: Keeper + Drop, R: Wait>(
    rt: &R,
    alloc: Global,
    shared: &SharedAccounts<K>,
    seat: &mut Seat<K>,
    newest: &AtomicU64,
) -> Option<Tried>
    requires own { Sits shared.now seat.old }
    ensures own { Sits shared.now seat.new }
{
    let evidences = no_password(alloc).ok()?;
    attempt(rt, alloc, shared, seat, ROOT, evidences, 0, newest)
}

fn open<K: Keeper + Drop, R: Wait>(
    rt: &R,
    alloc: Global,
    shared: &SharedAccounts<K>,
    mut seat: Seat<K>,
    attempts: u64,
    newest: &AtomicU64,
) -> Counts
    requires own { Sits shared.now seat }
{
    let mut counts = Counts::none();
    for _ in 0..attempts {
        let tried = open_one(rt, alloc, shared, &mut seat, newest);
        counts = counts.with(&tried);
    }
    counts
}

/// Gives `ann` the password of this number.
fn change_to<K: Keeper + Drop, R: Wait>(
    rt: &R,
    alloc: Global,
    shared: &SharedAccounts<K>,
    seat: &mut Seat<K>,
    number: u64,
) -> Option<()>
    requires own { Sits shared.now seat.old }
    ensures own { Sits shared.now seat.new }
{
    let text = format!(in alloc; "ALTER USER 'ann'@'localhost' IDENTIFIED BY 'p{number}'").ok()?;
    perform(rt, alloc, shared, seat, text.as_str().as_bytes())
}

/// Gives `ann` the passwords 2, 3 and so on, and tells in `newest` which is set.
fn change<K: Keeper + Drop, R: Wait>(
    rt: &R,
    alloc: Global,
    shared: &SharedAccounts<K>,
    mut seat: Seat<K>,
    changes: u64,
    newest: &AtomicU64,
) -> Counts
    requires own { Sits shared.now seat }
{
    let mut counts = Counts::none();
    for number in 0..changes {
        let next = number.wrapping_add(2);
        let done = change_to(rt, alloc, shared, &mut seat, next);
        counts = counts.with_change(done.is_some());
        if done.is_some() {
            newest.store(next, Ordering::SeqCst);
        }
    }
    counts
}

/// An attempt of `ann` with the password of this number.
fn try_number<K: Keeper + Drop, R: Wait>(
    rt: &R,
    alloc: Global,
    shared: &SharedAccounts<K>,
    seat: &mut Seat<K>,
    number: u64,
    newest: &AtomicU64,
) -> Option<Tried>
    requires own { Sits shared.now seat.old }
    ensures own { Sits shared.now seat.new }
{
    let password = format!(in alloc; "p{number}").ok()?;
    try_password(
        rt,
        alloc,
        shared,
        seat,
        ANN,
        password.as_str().as_bytes(),
        0,
        newest,
    )
}

/// Attempts with the newest password that the thread knows of, and with the one before it, by turns. The password's number
/// is the stamp with which it came.
fn log_in<K: Keeper + Drop, R: Wait>(
    rt: &R,
    alloc: Global,
    shared: &SharedAccounts<K>,
    mut seat: Seat<K>,
    attempts: u64,
    newest: &AtomicU64,
) -> Counts
    requires own { Sits shared.now seat }
{
    let mut counts = Counts::none();
    let mut known = 1;
    for turn in 0..attempts {
        let number = u64::saturating_sub(known, turn % 2);
        let tried = try_number(rt, alloc, shared, &mut seat, number, newest);
        counts = counts.with(&tried).with_number(&tried, number);
        known = stamp_of(&tried, known);
    }
    counts
}

fn stamp_of(tried: &Option<Tried>, before: u64) -> u64 {
    match tried {
        Some(tried) => tried.stamp,
        None => before,
    }
}

/// The work of the thread with this number.
fn do_work<K: Keeper + Drop, R: Wait>(
    rt: &R,
    alloc: Global,
    shared: &SharedAccounts<K>,
    seat: Seat<K>,
    work: Work,
    number: u64,
    newest: &AtomicU64,
) -> Counts
    requires own { Sits shared.now seat }
{
    match work {
        Work::Fail { attempts } => fail(rt, alloc, shared, seat, attempts, newest),
        Work::Open { attempts } => open(rt, alloc, shared, seat, attempts, newest),
        Work::Change { changes, attempts } => {
            if number == 0 {
                return change(rt, alloc, shared, seat, changes, newest);
            }
            log_in(rt, alloc, shared, seat, attempts, newest)
        }
    }
}

/// The work of so many threads, whose numbers are this one and the next, in two halves of them.
fn in_threads<K: Keeper + Drop + Send, R: Threads + Wait + Sync>(
    rt: &R,
    alloc: Global,
    shared: &SharedAccounts<K>,
    mut seat: Seat<K>,
    work: Work,
    threads: u64,
    number: u64,
    newest: &AtomicU64,
) -> Counts
    requires own { Sits shared.now seat }
{
    if threads <= 1 {
        return do_work(rt, alloc, shared, seat, work, number, newest);
    }
    let other = shared.split(&mut seat);
    let low = threads / 2;
    let high = threads - low;
    let next = number.wrapping_add(low);
    let front = move ||
        requires { IsSync R.row × IsSend K.row × (0 < low) × Sits shared.now seat }
    { in_threads(rt, alloc, shared, seat, work, low, number, newest) };
    let back = move ||
        requires { IsSync R.row × IsSend K.row × (0 < high) × Sits shared.now other }
    { in_threads(rt, alloc, shared, other, work, high, next, newest) };
    let (one, two) = thread::join(rt, front, back);
    one.plus(two)
}

/// What came of the threads, and of two attempts after them.
#[derive(Drop)]
pub struct Crowd {
    pub counts: Counts,
    pub then: Reply,
    pub last: Reply,
}

/// Threads that fail on an account which fifty failures lock for a day. Then attempts with the right password before the lock
/// can have ended, and once it must have ended if it was set once.
pub fn fail_together<R: Threads + Wait + Sync>(
    rt: &R,
    alloc: Global,
    threads: u64,
    attempts: u64,
) -> Option<Crowd> {
    let (shared, mut seat) = begin(alloc).ok()?;
    let created =
        b"CREATE USER 'ann'@'localhost' IDENTIFIED WITH mysql_native_password BY 'p1' FAILED_LOGIN_ATTEMPTS 50 PASSWORD_LOCK_TIME 1";
    perform(rt, alloc, &shared, &mut seat, created.as_slice())?;
    let other = shared.split(&mut seat);
    let newest = AtomicU64::new(0);
    let counts = in_threads(
        rt,
        alloc,
        &shared,
        other,
        Work::Fail { attempts },
        threads,
        0,
        &newest,
    );
    let then = try_password(rt, alloc, &shared, &mut seat, ANN, b"p1", 86_411, &newest)?.reply;
    let last = try_password(rt, alloc, &shared, &mut seat, ANN, b"p1", 86_450, &newest)?.reply;
    Some(Crowd { counts, then, last })
}

/// A thread that changes a password so often, while the others log in. Then an attempt with the newest password, and one
/// with the password before it.
pub fn change_together<R: Threads + Wait + Sync>(
    rt: &R,
    alloc: Global,
    threads: u64,
    attempts: u64,
    changes: u64,
) -> Option<Crowd> {
    let (shared, mut seat) = begin(alloc).ok()?;
    let created = b"CREATE USER 'ann'@'localhost' IDENTIFIED WITH mysql_native_password BY 'p1'";
    perform(rt, alloc, &shared, &mut seat, created.as_slice())?;
    let other = shared.split(&mut seat);
    let newest = AtomicU64::new(1);
    let counts = in_threads(
        rt,
        alloc,
        &shared,
        other,
        Work::Change { changes, attempts },
        threads,
        0,
        &newest,
    );
    let last_number = changes.wrapping_add(1);
    let then = try_number(rt, alloc, &shared, &mut seat, last_number, &newest)?.reply;
    let last = try_number(rt, alloc, &shared, &mut seat, changes, &newest)?.reply;
    Some(Crowd { counts, then, last })
}

/// Threads that log in as root, without a password.
pub fn open_together<R: Threads + Wait + Sync>(
    rt: &R,
    alloc: Global,
    threads: u64,
    attempts: u64,
) -> Option<Counts> {
    let (shared, seat) = begin(alloc).ok()?;
    let newest = AtomicU64::new(0);
    Some(in_threads(
        rt,
        alloc,
        &shared,
        seat,
        Work::Open { attempts },
        threads,
        0,
        &newest,
    ))
}
