//! Which past passwords a password fits, and what follows from that.

ghost use Rattle.password_history.specs.Reuse.{forbidden_by, is_any, is_full, is_young, is_young_used, used_of, with_latest};
ghost use Rattle.std.specs.Prelude.{◌≡◌, ◌∷◌, length, take, IfOk, OnErr, OnOk};

use factor_chain::{PastRecord, fits_password};
use lg_base::{Items, Memory};
use login_lock::SECONDS_PER_DAY;
use std::alloc::Global;

/// The most past passwords that an account keeps.
const MOST_PAST: usize = 256;

/// Tells of each past password whether this one fits it.
pub fn used(alloc: Global, past: &[PastRecord], password: &[u8]) -> Result<Items<bool>, Memory>
    ensures { IfOk result (λ used. used ≡ used_of past.now password.now) }
{
    let mut used = Items::new(alloc);
    'records: for record in past {
        used.push(fits_password(&record.stored, password))?;
    }
    Ok(used)
}

/// Whether a past password was set less than so many days ago.
fn is_young(past: &PastRecord, reuse: u16, now: u64) -> bool
    ensures { result ≡ is_young reuse now past.now }
{
    u128::from(now) < u128::from(past.moment) + SECONDS_PER_DAY * u128::from(reuse)
}

/// Whether one of the newest past passwords is fitted.
fn is_any_used(used: &[bool], history: u16) -> bool
    ensures { result ≡ is_any (take history used.now) }
{
    used.iter().take(usize::from(history)).any(|fitted| *fitted)
}

/// Whether a past password is fitted that was set less than so many days ago.
fn is_young_used(past: &[PastRecord], used: &[bool], reuse: u16, now: u64) -> bool
    requires { length used.now ≡ length past.now }
    ensures { result ≡ is_young_used reuse now past.now used.now }
{
    past.iter()
        .zip(used)
        .any(|(record, fitted)| is_young(record, reuse, now) && *fitted)
}

/// Whether a password may not be used again, where `used` tells of each past password whether it fits: one of the newest
/// `history` is fitted, or one that was set less than `reuse` days before `now`.
pub fn forbids(past: &[PastRecord], used: &[bool], history: u16, reuse: u16, now: u64) -> bool
    requires { length used.now ≡ length past.now }
    ensures { result ≡ forbidden_by past.now used.now history reuse now }
{
    is_any_used(used, history) || is_young_used(past, used, reuse, now)
}

/// Whether an account keeps as many past passwords as it can, and the oldest was set less than `reuse` days before `now`.
pub fn full(past: &[PastRecord], reuse: u16, now: u64) -> bool
    ensures { result ≡ is_full past.now reuse now }
{
    if past.len() != MOST_PAST {
        return false;
    }
    match past {
        [.., oldest] => is_young(oldest, reuse, now),
        [] => false,
    }
}

/// Puts a password first, and drops the oldest where there were 256. After `Memory` the list is unchanged.
#[tactic(auto, using(crate::proofs::Records::take_least))]
pub fn remember(
    alloc: Global,
    past: &mut Items<PastRecord>,
    latest: PastRecord,
) -> Result<(), Memory>
    ensures ok { OnOk result (past.new ≡ with_latest latest past.old) }
    ensures err { OnErr result (past.new ≡ past.old) }
{
    let kept = past.as_slice();
    let count = kept.len().min(MOST_PAST - 1);
    let mut held = Vec::new(alloc);
    held.push(latest)?;
    held.extend_from_slice(&kept[..count])?;
    *past = Items::from_vec(held);
    Ok(())
}
