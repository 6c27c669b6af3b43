//! Whether a password has expired, and the first rule that refuses a login.

ghost use Rattle.account_rules.specs.Refusals.{can_handle_expired, days_in_force, first_rule, is_expired};
ghost use Rattle.std.specs.Prelude.{◌≡◌};

use crate::accounts::{Account, Lifetime, Settings};
use login_lock::{SECONDS_PER_DAY, Tally};

/// The capability flag of a client that can go on with an expired password.
const CAN_HANDLE_EXPIRED_PASSWORDS: u32 = 0x0040_0000;

/// Why a login is refused.
#[derive(Clone, Copy, Debug, PartialEq, Eq)]
pub enum Rule {
    /// The lock after failed logins is in force, or this failure sets it.
    Blocked,
    /// The evidence doesn't fit.
    Denied,
    /// The account is locked by ACCOUNT LOCK.
    Locked,
    /// The password has expired, and the client can't go on with it.
    MustChange,
}

/// How many days a password lasts, where 0 is for ever.
fn days_in_force(lifetime: Lifetime, settings: &Settings) -> u16
    ensures { result ≡ days_in_force lifetime settings.now }
{
    match lifetime {
        Lifetime::Default => settings.lifetime,
        Lifetime::Never => 0,
        Lifetime::Days(days) => days,
    }
}

/// Whether the account's password has expired: it was set to expired, or the lifetime in force is over.
pub fn expired(account: &Account, settings: &Settings, now: u64) -> bool
    ensures { result ≡ is_expired account.now settings.now now }
{
    if account.expired {
        return true;
    }
    let days = days_in_force(account.lifetime, settings);
    let changed = account.changed;
    days >= 1 && u128::from(now) >= u128::from(changed) + SECONDS_PER_DAY * u128::from(days)
}

fn can_handle_expired(flags: u32) -> bool
    ensures { result ≡ can_handle_expired flags }
{
    flags & CAN_HANDLE_EXPIRED_PASSWORDS != 0
}

/// The first rule that refuses a login on an account with these failures, whose evidence verified or not,
/// from a client with these flags. It changes nothing.
pub fn first_refusal(
    account: &Account,
    tally: &Tally,
    verified: bool,
    flags: u32,
    settings: &Settings,
    now: u64,
) -> Option<Rule>
    ensures { result ≡ first_rule account.now tally.now verified flags settings.now now }
{
    let standing = tally.resumed(&account.lock, now);
    if standing.blocked(&account.lock, now) {
        return Some(Rule::Blocked);
    }
    if !verified {
        if standing.next_locks(&account.lock) {
            return Some(Rule::Blocked);
        }
        return Some(Rule::Denied);
    }
    if account.locked {
        return Some(Rule::Locked);
    }
    if settings.disconnect && !can_handle_expired(flags) && expired(account, settings, now) {
        return Some(Rule::MustChange);
    }
    None
}
