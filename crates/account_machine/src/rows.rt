//! The accounts that the machine keeps, each with its tally, and what an attempt on an account is answered.

ghost use Rattle.account_history.specs.Answers.{reply_of, since_of, uses_password};
ghost use Rattle.account_history.specs.Known.{credential, primary_of, secondary_of};
ghost use Rattle.account_history.specs.Records.{is_at, same_host};
ghost use Rattle.account_machine.specs.Rows.{place_at, place_in_force};
ghost use Rattle.digest_cache.specs.Cache.{digest_of};
ghost use Rattle.login_lock.specs.Lock.{days_left as days_left_of};
ghost use Rattle.account_history.specs.Failures.{opens};
ghost use Rattle.std.specs.Option.{ForSome};
ghost use Rattle.std.specs.Prelude.{◌≡◌, ◌≤◌};

use account_history::Reply;
use account_rules::{Account, Rule, Settings, expired, first_refusal};
use digest_cache::Digests;
use factor_chain::{Credential, Evidence, Evidences, Stored};
use lg_base::Host;
use login_lock::{LockTime, Tally};

/// An account and the failures that count against it.
#[derive(Debug, Drop)]
pub struct Row {
    pub account: Account,
    pub tally: Tally,
}

fn is_host(host: Host, other: Host) -> bool
    ensures { result ≡ same_host host other }
{
    match host {
        Host::Localhost => match other {
            Host::Localhost => true,
            Host::Any => false,
        },
        Host::Any => match other {
            Host::Localhost => false,
            Host::Any => true,
        },
    }
}

pub fn is_account_at(account: &Account, user: &[u8], host: Host) -> bool
    ensures { result ≡ is_at user.now host account.now }
{
    account.name.user.as_slice() == user && is_host(account.name.host, host)
}

/// The place of the account of a user at a host.
fn find_at(rows: &[Row], user: &[u8], host: Host) -> Option<usize>
    ensures { result ≡ place_at user.now host rows.now }
{
    rows.iter()
        .position(|row| is_account_at(&row.account, user, host))
}

/// The place of the account in force for a user.
pub fn find_in_force(rows: &[Row], user: &[u8]) -> Option<usize>
    ensures { result ≡ place_in_force rows.now user.now }
{
    match find_at(rows, user, Host::Localhost) {
        Some(place) => Some(place),
        None => find_at(rows, user, Host::Any),
    }
}

/// A stored password as a credential, with the digest that is kept of it.
fn credential(digests: &Digests, id: u64, stored: Stored) -> Credential
    ensures { result ≡ credential (digest_of digests.now) id stored }
{
    Credential {
        id,
        stored,
        digest: digests.of(id),
    }
}

/// The account's primary password.
pub fn primary(digests: &Digests, account: &Account) -> Credential
    ensures { result ≡ primary_of (digest_of digests.now) account.now }
{
    credential(digests, account.primary_id, account.primary)
}

/// The account's secondary password, if it has one.
pub fn secondary(digests: &Digests, account: &Account) -> Option<Credential>
    ensures { result ≡ secondary_of (digest_of digests.now) account.now }
{
    match account.secondary {
        Some((stored, id)) => Some(credential(digests, id, stored)),
        None => None,
    }
}

/// Whether the evidence begins with another than the empty password.
pub fn uses_a_password(evidences: &Evidences) -> bool
    ensures { result ≡ uses_password evidences.now }
{
    match evidences.as_slice() {
        [] => true,
        [Evidence::Empty, ..] => false,
        [_, ..] => true,
    }
}

/// The reply to an attempt on an account that is refused or not.
fn reply_to(
    refusal: Option<Rule>,
    row: &Row,
    evidences: &Evidences,
    settings: &Settings,
    now: u64,
) -> Reply
    requires { ForSome row.now.tally.locked (λ set. set ≤ now) }
    ensures { result ≡ reply_of refusal row.now.account row.now.tally evidences.now settings.now now }
{
    let account = &row.account;
    match refusal {
        Some(Rule::Blocked) => Reply::Blocked {
            rule: account.lock,
            left: days_left(account, &row.tally, now),
        },
        Some(Rule::Denied) => Reply::Denied {
            using_password: uses_a_password(evidences),
        },
        Some(Rule::Locked) => Reply::Locked,
        Some(Rule::MustChange) => Reply::MustChange,
        None => {
            if expired(account, settings, now) {
                Reply::Sandbox {
                    account: account.id,
                    host: account.name.host,
                }
            } else {
                Reply::Opened {
                    account: account.id,
                    host: account.name.host,
                }
            }
        }
    }
}

/// The days until a blocked account's lock ends, where it was set before or is set now: 0 for a lock
/// without end.
fn days_left(account: &Account, tally: &Tally, now: u64) -> u32
    requires { ForSome tally.now.locked (λ set. set ≤ now) }
    ensures { result ≡ days_left_of account.now.lock.time (since_of account.now.lock tally.now now) now }
{
    let rule = account.lock;
    match rule.time {
        LockTime::Unbounded => 0,
        LockTime::Days(days) => {
            if tally.blocked(&rule, now) {
                tally.left(&rule, now)
            } else {
                u32::from(days)
            }
        }
    }
}

impl Row {
    ghost use Rattle.account_history.specs.Answers.{account_reply};
    ghost use Rattle.account_history.specs.Failures.{opens};
    ghost use Rattle.login_lock.specs.Lock.{IsTally, after, tally_of};
    ghost use Rattle.std.specs.Option.{ForSome};
    ghost use Rattle.std.specs.Prelude.{◌≡◌, ◌≤◌, List, ℕ};

    /// One attempt on the account, whose evidence verifies or not.
    pub fn attempt(
        &mut self,
        verified: bool,
        evidences: &Evidences,
        flags: u32,
        settings: &Settings,
        now: u64,
    ) -> Reply
        requires counted { IsTally self.old.account.lock self.old.tally }
        requires since { ForSome self.old.tally.locked (λ set. set ≤ now) }
        ensures reply { result ≡ account_reply self.old.account self.old.tally verified evidences.now flags settings.now now }
        ensures account { self.new.account ≡ self.old.account }
        ensures tally { (failures : List ℕ) → self.old.tally ≡ tally_of self.old.account.lock failures
            → self.new.tally ≡ tally_of self.old.account.lock (after self.old.account.lock failures (opens result) verified now) }
    {
        let refusal = first_refusal(&self.account, &self.tally, verified, flags, settings, now);
        let reply = reply_to(refusal, self, evidences, settings, now);
        let rule = self.account.lock;
        self.tally.settle(&rule, is_open(&reply), verified, now);
        reply
    }
}

/// Whether a session opened.
pub fn is_open(reply: &Reply) -> bool
    ensures { result ≡ opens reply.now }
{
    match reply {
        Reply::Opened { .. } => true,
        Reply::Sandbox { .. } => true,
        Reply::Blocked { .. } => false,
        Reply::Denied { .. } => false,
        Reply::Locked => false,
        Reply::MustChange => false,
    }
}
