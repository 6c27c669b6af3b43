//! One attempt on the accounts.

ghost use Rattle.account_history.specs.Answers.{account_reply, reply_for};
ghost use Rattle.account_history.specs.Failures.{opens};
ghost use Rattle.account_history.specs.Histories.{History, moment, start_of, ◌▹◌};
ghost use Rattle.account_history.specs.Known.{clear_password, shown_by};
ghost use Rattle.account_history.specs.Naming.{or_else};
ghost use Rattle.account_history.specs.Records.{in_force, records};
ghost use Rattle.account_history.specs.Verifying.{account_verifies};
ghost use Rattle.account_history.specs.declared.entries.Attempt.{Attempt};
ghost use Rattle.account_history.specs.declared.entries.Entry.TheVariants.{Attempted};
ghost use Rattle.account_machine.specs.Digesting.{AreDigests, missing, missing_in};
ghost use Rattle.account_machine.specs.Rows.{Rise, rows_of};
ghost use Rattle.account_rules.specs.declared.accounts.Account.{Account};
ghost use Rattle.digest_cache.specs.Cache.{digest_of};
ghost use Rattle.login_lock.specs.Lock.{IsTally, after, tally_of};
ghost use Rattle.std.specs.Option.{ForSome};
ghost use Rattle.std.specs.Prelude.{◌≡◌, ◌≤◌, ℕ, List, max, if◌then◌else◌, Some, None, slice_get};

use crate::rows::{Row, find_in_force, is_open, uses_a_password};
use crate::verdicts::{is_fit, keep_shown, verdict};
use account_history::Reply;
use account_rules::Settings;
use digest_cache::Digests;
use factor_chain::Evidences;

/// One attempt on the account of a row. Where a session opens, the digest that the evidence shows is kept.
fn attempt_at(
    row: &mut Row,
    digests: &mut Digests,
    settings: &Settings,
    evidences: &Evidences,
    flags: u32,
    now: u64,
) -> Reply
    requires counted { IsTally row.old.account.lock row.old.tally }
    requires since { ForSome row.old.tally.locked (λ set. set ≤ now) }
    requires room { missing_in (digest_of digests.old) row.old.account ≤ digests.old.spare }
    ensures reply { result ≡ account_reply row.old.account row.old.tally
        (account_verifies (digest_of digests.old) row.old.account evidences.now) evidences.now flags settings.now now }
    ensures account { row.new.account ≡ row.old.account }
    ensures tally { (failures : List ℕ) → row.old.tally ≡ tally_of row.old.account.lock failures
        → row.new.tally ≡ tally_of row.old.account.lock
        (after row.old.account.lock failures (opens result) (account_verifies (digest_of digests.old) row.old.account evidences.now) now) }
    ensures kept { (q : ℕ) → digest_of digests.new q ≡ or_else (digest_of digests.old q)
        (if opens result then shown_by row.old.account (clear_password evidences.now) q else None) }
    ensures room { (accounts : List Account) (place : ℕ) → slice_get accounts place ≡ Some row.old.account
        → missing (digest_of digests.old) accounts ≤ digests.old.spare → missing (digest_of digests.new) accounts ≤ digests.new.spare }
{
    let _given = evidences.len();
    let fit = verdict(digests, &row.account, evidences);
    let reply = row.attempt(is_fit(fit), evidences, flags, settings, now);
    if is_open(&reply) {
        keep_shown(digests, &row.account, fit, evidences);
    }
    reply
}

/// One attempt of a user on the accounts: on the one in force, if any.
pub fn attempt_on(
    rows: &mut Vec<Row>,
    digests: &mut Digests,
    settings: &Settings,
    user: &[u8],
    evidences: &Evidences,
    flags: u32,
    now: u64,
) -> Reply
    requires { (h : History) × (rows.old.items ≡ rows_of h) × (moment h ≤ now) × AreDigests digests.old h }
    ensures reply { (h : History) → rows.old.items ≡ rows_of h → AreDigests digests.old h → settings.now ≡ (start_of h).settings
        → result ≡ reply_for h (in_force (records h) user.now) evidences.now flags now }
    ensures rows { (h : History) (t : Attempt) → rows.old.items ≡ rows_of h → AreDigests digests.old h → Rise 0 (records h)
        → max t.reading (moment h) ≡ now → t.user ≡ user.now → t.evidences ≡ evidences.now → t.reply ≡ result
        → rows.new.items ≡ rows_of (h ▹ Attempted t) }
    ensures digests { (h : History) (t : Attempt) → rows.old.items ≡ rows_of h → AreDigests digests.old h
        → t.user ≡ user.now → t.evidences ≡ evidences.now → t.reply ≡ result → AreDigests digests.new (h ▹ Attempted t) }
{
    match find_in_force(rows.as_slice(), user) {
        Some(place) => {
            let row = &mut rows[place];
            attempt_at(row, digests, settings, evidences, flags, now)
        }
        None => Reply::Denied {
            using_password: uses_a_password(evidences),
        },
    }
}
