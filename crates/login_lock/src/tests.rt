//! The manual's example of three failures and a day, the edges of a lock and the greatest moments.
use super::{LockRule, LockTime, Tally};

#[test]
fn three_failures_lock_for_a_day(rt: HostRuntime) {
    let rule = LockRule {
        attempts: 3,
        time: LockTime::Days(1),
    };
    let mut tally = Tally::new();
    let first = tally.fail(&rule, 1000);
    assert!(rt; !first);
    assert!(rt; !tally.next_locks(&rule));
    let second = tally.fail(&rule, 1000);
    assert!(rt; !second);
    assert!(rt; tally.next_locks(&rule));
    let third = tally.fail(&rule, 1000);
    assert!(rt; third);
    let last_second = tally.blocked(&rule, 87_399);
    assert!(rt; last_second);
    assert_eq!(rt; tally.left(&rule, 87_399), 1);
    assert!(rt; !tally.blocked(&rule, 87_400));
}

#[test]
fn a_begun_day_counts_whole(rt: HostRuntime) {
    let rule = LockRule {
        attempts: 1,
        time: LockTime::Days(2),
    };
    let tally = Tally {
        count: 1,
        locked: Some(1000),
    };
    for (now, left) in [(1000, 2), (1001, 2), (87_399, 2), (87_400, 1), (173_799, 1)] {
        let blocked = tally.blocked(&rule, now);
        assert!(rt; blocked);
        assert!(rt; now >= 1000);
        assert_eq!(rt; tally.left(&rule, now), left, "at {now}");
    }
    assert!(rt; !tally.blocked(&rule, 173_800));
}

#[test]
fn attempts_count_outside_a_lock_alone(rt: HostRuntime) {
    let rule = LockRule {
        attempts: 2,
        time: LockTime::Days(1),
    };
    let mut tally = Tally::new();
    for (now, opened, verified, count, locked) in [
        (10, false, false, 1, None),
        (15, false, true, 1, None),
        (20, false, false, 2, Some(20)),
        (86_419, false, false, 2, Some(20)),
        (86_420, false, false, 1, None),
        (86_421, true, true, 0, None),
        (86_422, false, false, 1, None),
    ] {
        tally.settle(&rule, opened, verified, now);
        assert_eq!(rt; tally, Tally { count, locked }, "at {now}");
    }
}

#[test]
fn a_lock_that_has_ended_is_forgotten(rt: HostRuntime) {
    let rule = LockRule {
        attempts: 1,
        time: LockTime::Days(1),
    };
    let tally = Tally {
        count: 1,
        locked: Some(5),
    };
    assert_eq!(rt; tally.resumed(&rule, 86_404), tally);
    assert_eq!(rt; tally.resumed(&rule, 86_405), Tally::new());
}

#[test]
fn the_greatest_moments_do_not_wrap(rt: HostRuntime) {
    for (days, left) in [(32_767, 32_767), (u16::MAX, 65_535)] {
        let rule = LockRule {
            attempts: 1,
            time: LockTime::Days(days),
        };
        let tally = Tally {
            count: 1,
            locked: Some(u64::MAX),
        };
        let blocked = tally.blocked(&rule, u64::MAX);
        assert!(rt; blocked);
        assert_eq!(rt; tally.left(&rule, u64::MAX), left);
        assert!(rt; tally.blocked(&rule, 0));
    }
    let unbounded = LockRule {
        attempts: 1,
        time: LockTime::Unbounded,
    };
    let tally = Tally {
        count: 1,
        locked: Some(0),
    };
    assert!(rt; tally.blocked(&unbounded, u64::MAX));
}

#[test]
fn a_rule_tracks_where_both_options_are_set(rt: HostRuntime) {
    for (attempts, time, tracked) in [
        (0, LockTime::Days(1), false),
        (1, LockTime::Days(0), false),
        (0, LockTime::Unbounded, false),
        (1, LockTime::Days(1), true),
        (u16::MAX, LockTime::Unbounded, true),
    ] {
        let rule = LockRule { attempts, time };
        assert_eq!(rt; rule.tracks(), tracked, "{rule:?}");
    }
}
