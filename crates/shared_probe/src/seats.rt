//! Runs of two seats of one book, in one thread.

ghost use Rattle.account_history.specs.declared.entries.Who.TheVariants.{Login};
ghost use Rattle.shared_accounts.specs.Sharing.{Sits};
ghost use Rattle.std.specs.Prelude.{◌≡◌};

use crate::calls::{FLAGS, Tried, attempt_locked, begin, login_of, native, perform, try_password};
use account_history::Reply;
use factor_chain::{Evidences, check};
use lg_outside::Keeper;
use shared_accounts::{Late, Seat, Settled, SharedAccounts};
use std::alloc::Global;
use std::sync::Wait;
use std::sync::atomic::AtomicU64;

const ANN: &[u8] = b"ann";

/// The stamps that a seat saw before another seat changed a password, and after it met a split of that seat.
#[derive(Drop)]
pub struct Stamps {
    pub before: u64,
    pub after: u64,
}

/// The stamp of `ann` on a look.
fn stamp_seen<K: Keeper + Drop, R: Wait>(
    rt: &R,
    alloc: Global,
    shared: &SharedAccounts<K>,
    seat: &mut Seat<K>,
) -> Option<u64>
    requires own { Sits shared.now seat.old }
    ensures own { Sits shared.now seat.new }
{
    let who = login_of(alloc, ANN).ok()?;
    match shared.observe(rt, alloc, seat, &who) {
        Ok((look, _ticket)) => Some(look.stamp),
        Err(_fault) => None,
    }
}

/// One seat changes a password. The other meets a split of it, and looks.
pub fn two_seats<R: Wait>(rt: &R, alloc: Global) -> Option<Stamps> {
    let (shared, mut one) = begin(alloc).ok()?;
    let created = b"CREATE USER 'ann'@'localhost' IDENTIFIED WITH mysql_native_password BY 'p1'";
    perform(rt, alloc, &shared, &mut one, created.as_slice())?;
    let mut two = shared.split(&mut one);
    let before = stamp_seen(rt, alloc, &shared, &mut two)?;
    let changed = b"ALTER USER 'ann'@'localhost' IDENTIFIED BY 'p2'";
    perform(rt, alloc, &shared, &mut one, changed.as_slice())?;
    let part = shared.split(&mut one);
    shared.meet(&mut two, part);
    let after = stamp_seen(rt, alloc, &shared, &mut two)?;
    Some(Stamps { before, after })
}

/// What an attempt came to whose password was changed twice while it was checked.
#[derive(Drop)]
pub struct Overtaken {
    /// The first stale answer's number, and how far its stamp is above the look's.
    pub first: u8,
    pub rise: u64,
    /// The second stale answer's number.
    pub second: u8,
    /// The answer in the turn, and that of the next attempt, with a wrong password.
    pub reply: Reply,
    pub next: Reply,
    /// Whether the accounts came back when the book was closed.
    pub is_closed: bool,
}

/// The second half: the seat looks again, the other changes the password again, and the attempt ends in the turn.
fn overtaken_again<K: Keeper + Drop, R: Wait>(
    rt: &R,
    alloc: Global,
    shared: &SharedAccounts<K>,
    one: &mut Seat<K>,
    two: &mut Seat<K>,
    user: &[u8],
    late: Late,
    evidences: Evidences,
) -> Option<(u8, Tried)>
    requires one { Sits shared.now one.old }
    requires two { Sits shared.now two.old }
    requires late { (late.number ≡ 1) × (late.who ≡ Login user.now) }
    ensures one { Sits shared.now one.new }
    ensures two { Sits shared.now two.new }
{
    let Ok(who) = login_of(alloc, user) else {
        return None;
    };
    let Ok((look, ticket)) = shared.renew(rt, alloc, one, late, &who) else {
        return None;
    };
    let checked = check(look, evidences);
    let changed = b"ALTER USER 'ann'@'localhost' IDENTIFIED BY 'p3'";
    perform(rt, alloc, shared, two, changed.as_slice())?;
    match shared.settle(rt, one, ticket, checked, FLAGS, 0) {
        Settled::Done(_reply) => None,
        Settled::Stale(late, evidences) => {
            let number = late.number();
            let set = AtomicU64::new(0);
            let tried = attempt_locked(rt, shared, one, user, late, evidences, 0, &set)?;
            Some((number, tried))
        }
        Settled::BookEnd => None,
    }
}

/// One seat looks and checks the right password, and the other changes it; the same again, and the attempt ends in the
/// turn. Two failures lock the account for a day.
pub fn stale_twice<R: Wait>(rt: &R, alloc: Global) -> Option<Overtaken> {
    let (shared, mut one) = begin(alloc).ok()?;
    let created =
        b"CREATE USER 'ann'@'localhost' IDENTIFIED WITH mysql_native_password BY 'p1' FAILED_LOGIN_ATTEMPTS 2 PASSWORD_LOCK_TIME 1";
    perform(rt, alloc, &shared, &mut one, created.as_slice())?;
    let mut two = shared.split(&mut one);
    let who = login_of(alloc, ANN).ok()?;
    let evidences = native(alloc, b"p1").ok()?;
    let Ok((look, ticket)) = shared.observe(rt, alloc, &mut one, &who) else {
        return None;
    };
    let seen = ticket.stamp();
    let checked = check(look, evidences);
    let changed = b"ALTER USER 'ann'@'localhost' IDENTIFIED BY 'p2'";
    perform(rt, alloc, &shared, &mut two, changed.as_slice())?;
    match shared.settle(rt, &mut one, ticket, checked, FLAGS, 0) {
        Settled::Done(_reply) => None,
        Settled::Stale(late, evidences) => {
            let first = late.number();
            let rise = late.stamp().saturating_sub(seen);
            let (second, tried) = overtaken_again(
                rt, alloc, &shared, &mut one, &mut two, ANN, late, evidences,
            )?;
            let set = AtomicU64::new(0);
            let next = try_password(rt, alloc, &shared, &mut one, ANN, b"wrong", 0, &set)?.reply;
            shared.meet(&mut one, two);
            let is_closed = shared.close(&mut one).is_some();
            Some(Overtaken {
                first,
                rise,
                second,
                reply: tried.reply,
                next,
                is_closed,
            })
        }
        Settled::BookEnd => None,
    }
}
