//! Failed-login tracking: the count of failures in a row and the lock that they set.
//!
//! **A [`Tally`] is the number of an account's failures that count since it was last cleared, and
//! the moment of the one at which they reached the limit; the account is blocked from that moment
//! until the lock time is over, to the second.**
//!
//! The rule is the one of the MySQL 8.0 Reference Manual, Password Management, "Failed-Login
//! Tracking and Temporary Account Locking", with the options FAILED_LOGIN_ATTEMPTS and
//! PASSWORD_LOCK_TIME. The manual leaves open, and this crate settles: a day is 86,400 seconds, and
//! a failure during a lock doesn't count. Moments are seconds, and sums of them are taken without a
//! bound. Nothing stands below this crate, and no call takes memory.
#![tactic(auto)]

ghost use Rattle.std.specs.Option.{ForSome};
ghost use Rattle.std.specs.Prelude.{◌≡◌, ◌≢◌, ◌↔◌, ℕ, ◌+◌, ◌<◌, ◌≤◌, List, [], ◌∷◌, ◌++◌, IsTrue, if◌then◌else◌, Some, None, is_some, ◌&&◌};

/// The seconds of a day.
pub const SECONDS_PER_DAY: u128 = 86_400;

/// How long a lock lasts: PASSWORD_LOCK_TIME.
#[derive(Debug, Clone, Copy, PartialEq, Eq)]
pub enum LockTime {
    /// A number of days, where 0 turns tracking off.
    Days(u16),
    /// Until the tally is cleared.
    Unbounded,
}

impl LockTime {
    ghost use Rattle.login_lock.specs.Lock.{has_ended};

    /// Whether a lock that was set at `set` has ended at `now`.
    fn has_ended(self, set: u64, now: u64) -> bool
        ensures { result ≡ has_ended self set now }
    {
        match self {
            LockTime::Days(days) => u128::from(now)
                >= u128::from(set) + SECONDS_PER_DAY * u128::from(days),
            LockTime::Unbounded => false,
        }
    }
}

/// How many failures in a row lock an account, and for how long.
#[derive(Debug, Clone, Copy, PartialEq, Eq)]
pub struct LockRule {
    /// FAILED_LOGIN_ATTEMPTS, where 0 turns tracking off.
    pub attempts: u16,
    /// PASSWORD_LOCK_TIME.
    pub time: LockTime,
}

impl LockRule {
    ghost use Rattle.login_lock.specs.Lock.{tracks};

    /// Whether failures are counted: both options are other than 0.
    pub fn tracks(&self) -> bool
        ensures { result ≡ tracks self.now }
    {
        self.attempts >= 1 && self.time != LockTime::Days(0)
    }
}

/// The failures that count against an account since they were last cleared.
#[derive(Debug, Clone, Copy, PartialEq, Eq)]
pub struct Tally {
    /// How many there are.
    pub count: u16,
    /// The moment of the one at which their number reached the limit.
    pub locked: Option<u64>,
}

impl Tally {
    ghost use Rattle.login_lock.specs.Lock.{IsTally, after, days_left, is_blocked, is_over, locked_at, next_locks, standing, tally_of, tracks};
    ghost use Rattle.login_lock.specs.declared.LockRule.{LockRule};

    /// No failure and no lock.
    pub fn new() -> Tally
        ensures value { result ≡ record { count = 0; locked = None } }
        ensures none { (rule : LockRule) → result ≡ tally_of rule [] }
    {
        Tally {
            count: 0,
            locked: None,
        }
    }

    /// Whether a lock is in force: the rule tracks, a lock was set, and it hasn't ended.
    pub fn blocked(&self, rule: &LockRule, now: u64) -> bool
        ensures { result ≡ is_blocked rule.now self.now.locked now }
    {
        match self.locked {
            Some(set) => rule.tracks() && !rule.time.has_ended(set, now),
            None => false,
        }
    }

    /// Counts a failure, and says whether the count thereby reaches the limit, which sets the lock
    /// at that moment. It is for a rule that tracks, where no lock is set and the count is below the
    /// limit.
    pub fn fail(&mut self, rule: &LockRule, now: u64) -> bool
        requires tracks { IsTrue (tracks rule.now) }
        requires unlocked { self.old.locked ≡ None }
        requires below { self.old.count < rule.now.attempts }
        ensures count { self.new.count ≡ self.old.count + 1 }
        ensures reached { IsTrue result ↔ (self.new.count ≡ rule.now.attempts) }
        ensures locked { self.new.locked ≡ (if result then Some now else None) }
        ensures step { (failures : List ℕ) → self.old ≡ tally_of rule.now failures
            → self.new ≡ tally_of rule.now (failures ++ now ∷ []) }
    {
        let attempts = rule.attempts;
        self.count += 1;
        let reached = self.count == attempts;
        if reached {
            self.locked = Some(now);
        }
        reached
    }

    /// Whether the next failure that counts sets the lock.
    pub fn next_locks(&self, rule: &LockRule) -> bool
        ensures value { result ≡ next_locks rule.now self.now.count }
        ensures step { (failures : List ℕ) (now : ℕ) → self.now ≡ tally_of rule.now failures
            → self.now.locked ≡ None
            → result ≡ (tracks rule.now && is_some (locked_at rule.now (failures ++ now ∷ []))) }
    {
        rule.tracks() && u32::from(self.count) + 1 == u32::from(rule.attempts)
    }

    /// Forgets the failures and the lock.
    pub fn clear(&mut self)
        ensures value { self.new ≡ record { count = 0; locked = None } }
        ensures none { (rule : LockRule) → self.new ≡ tally_of rule [] }
    {
        *self = Tally::new();
    }

    /// The days until the lock ends, a begun one counted whole. It is for a lock of a number of
    /// days that is in force and was set at no later moment.
    pub fn left(&self, rule: &LockRule, now: u64) -> u32
        requires blocked { IsTrue (is_blocked rule.now self.now.locked now) }
        requires days { rule.now.time ≢ LockTime.Unbounded }
        requires since { ForSome self.now.locked (λ set. set ≤ now) }
        ensures { result ≡ days_left rule.now.time self.now.locked now }
    {
        match rule.time {
            LockTime::Days(days) => match self.locked {
                Some(set) => {
                    let end = u128::from(set) + SECONDS_PER_DAY * u128::from(days);
                    (end - u128::from(now)).div_ceil(SECONDS_PER_DAY) as u32
                }
                None => unreachable!(),
            },
            LockTime::Unbounded => unreachable!(),
        }
    }

    /// The tally that stands at a moment: a new one once the lock has ended.
    pub fn resumed(&self, rule: &LockRule, now: u64) -> Tally
        ensures value { result ≡ (if is_over rule.now self.now.locked now
            then record { count = 0; locked = None } else self.now) }
        ensures step { (failures : List ℕ) → self.now ≡ tally_of rule.now failures
            → result ≡ tally_of rule.now (standing rule.now failures now) }
    {
        match self.locked {
            Some(set) if rule.time.has_ended(set, now) => Tally::new(),
            _ => *self,
        }
    }

    /// Takes in one attempt at a moment. A lock that has ended is forgotten first. Then an attempt
    /// that opened a session clears the tally, and one that didn't verify is counted where the rule
    /// tracks and no lock is in force. The tally is one that these calls made by the same rule.
    pub fn settle(&mut self, rule: &LockRule, opened: bool, verified: bool, now: u64)
        requires { IsTally rule.now self.old }
        ensures step { (failures : List ℕ) → self.old ≡ tally_of rule.now failures
            → self.new ≡ tally_of rule.now (after rule.now failures opened verified now) }
        ensures kept { IsTally rule.now self.new }
    {
        *self = self.resumed(rule, now);
        if opened {
            self.clear();
        } else if !verified && rule.tracks() && !self.blocked(rule, now) {
            self.fail(rule, now);
        }
    }
}

#[cfg(test)]
mod tests;
