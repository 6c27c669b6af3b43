//! Moments at both edges of a lifetime, and logins against which several rules stand at once.

use crate::{Account, Lifetime, Limit, Rule, Settings, expired, first_refusal};
use factor_chain::{Method, Stored};
use lg_base::{Bytes, Host, Items, Memory, Name};
use login_lock::{LockRule, LockTime, Tally};
use std::alloc::Global;
use std::test::Fail;

/// The greatest moment.
const LAST: u64 = u64::MAX;

/// The flag of a client that can go on with an expired password.
const CAN: u32 = 0x0040_0000;

/// The server's settings: passwords last one day, and expired ones are refused.
const ONE_DAY: Settings = Settings {
    lifetime: 1,
    disconnect: true,
    history: 0,
    reuse: 0,
};

/// An account whose password was set at moment 0, with no option set.
fn account(alloc: Global) -> Result<Account, Memory> {
    let user = Bytes::copy(alloc, b"ann")?;
    Ok(Account {
        id: 1,
        name: Name {
            user,
            host: Host::Localhost,
        },
        method: Method::CachingSha2,
        primary: Stored::Empty,
        primary_id: 1,
        secondary: None,
        labels: Items::new(alloc),
        changed: 0,
        expired: false,
        lifetime: Lifetime::Default,
        history: Limit::Default,
        reuse: Limit::Default,
        lock: LockRule {
            attempts: 0,
            time: LockTime::Days(0),
        },
        locked: false,
        create_user: false,
        password_admin: false,
        past: Items::new(alloc),
    })
}

#[test]
fn a_password_expires_when_its_days_are_over(rt: HostRuntime) -> Result<(), Fail> {
    let mut account = account(rt.alloc())?;
    for (setting, lifetime, changed, now, over) in [
        (1, Lifetime::Default, 0, 86_399, false),
        (1, Lifetime::Default, 0, 86_400, true),
        (1, Lifetime::Default, 1000, 87_399, false),
        (1, Lifetime::Default, 1000, 87_400, true),
        (0, Lifetime::Default, 0, LAST, false),
        (1, Lifetime::Never, 0, LAST, false),
        (1, Lifetime::Days(0), 0, LAST, false),
        (1, Lifetime::Days(2), 0, 172_799, false),
        (1, Lifetime::Days(2), 0, 172_800, true),
        (0, Lifetime::Days(65_535), 0, 5_662_223_999, false),
        (0, Lifetime::Days(65_535), 0, 5_662_224_000, true),
        (1, Lifetime::Default, LAST - 86_400, LAST - 1, false),
        (1, Lifetime::Default, LAST - 86_400, LAST, true),
        (1, Lifetime::Default, LAST - 86_399, LAST, false),
        (1, Lifetime::Days(65_535), LAST, LAST, false),
        (1, Lifetime::Default, 1000, 5, false),
    ] {
        account.lifetime = lifetime;
        account.changed = changed;
        let settings = Settings {
            lifetime: setting,
            ..ONE_DAY
        };
        account.expired = false;
        assert_eq!(rt; expired(&account, &settings, now), over, "at {now}");
        account.expired = true;
        assert!(rt; expired(&account, &settings, now));
    }
    Ok(())
}

#[test]
fn an_expired_password_is_refused_to_clients_that_cannot_go_on(
    rt: HostRuntime,
) -> Result<(), Fail> {
    let account = account(rt.alloc())?;
    for (disconnect, flags, now, refusal) in [
        (true, 0, 86_399, None),
        (true, 0, 86_400, Some(Rule::MustChange)),
        (true, CAN, 86_400, None),
        (true, u32::MAX, 86_400, None),
        (true, u32::MAX - CAN, 86_400, Some(Rule::MustChange)),
        (false, 0, 86_400, None),
    ] {
        let settings = Settings {
            disconnect,
            ..ONE_DAY
        };
        let found = first_refusal(&account, &Tally::new(), true, flags, &settings, now);
        assert_eq!(rt; found, refusal, "at {now} with {flags}");
    }
    Ok(())
}

#[test]
fn the_first_rule_that_stands_refuses(rt: HostRuntime) -> Result<(), Fail> {
    let mut account = account(rt.alloc())?;
    account.expired = true;
    account.lock = LockRule {
        attempts: 2,
        time: LockTime::Days(1),
    };
    let none = Tally::new();
    let one = Tally {
        count: 1,
        locked: None,
    };
    let full = Tally {
        count: 2,
        locked: Some(1000),
    };
    for (tally, verified, locked, now, refusal) in [
        (full, true, true, 1000, Rule::Blocked),
        (full, false, true, 87_399, Rule::Blocked),
        (full, true, true, 87_400, Rule::Locked),
        (full, false, true, 87_400, Rule::Denied),
        (one, false, true, 1000, Rule::Blocked),
        (none, false, true, 1000, Rule::Denied),
        (none, false, false, 1000, Rule::Denied),
        (one, true, true, 1000, Rule::Locked),
        (one, true, false, 1000, Rule::MustChange),
        (full, true, false, LAST, Rule::MustChange),
    ] {
        account.locked = locked;
        let found = first_refusal(&account, &tally, verified, 0, &ONE_DAY, now);
        assert_eq!(rt; found, Some(refusal), "at {now}");
    }
    Ok(())
}
