//! Which accounts have a record: the ranges of the fields, and what must stand together.

ghost use Rattle.account_keeper.specs.Record.{FallFrom, FitsRecord, IsOf, IsSet, LabelFits, LabelsFit, LifetimeFits, LimitFits, LockTimeFits, PasswordFits, PastFits, PastsFit, SecondaryFits, StoredFits, UserFits};
ghost use Rattle.caching_sha2.specs.Stored.{IsSaltByte, IsStorable};
ghost use Rattle.std.specs.List.{All};
ghost use Rattle.std.specs.Prelude.{◌≡◌, ◌↔◌, ◌<◌, IsTrue, length};

use account_rules::{Account, Lifetime, Limit};
use caching_sha2::{Sha2Stored, is_salt_byte};
use factor_chain::{Method, PastRecord, Stored};
use lg_base::Bytes;
use login_lock::LockTime;

/// Whether all bytes are of the alphabet of salts and sums.
fn is_salt<const N: usize>(bytes: &[u8; N]) -> bool
    ensures salt { IsTrue result ↔ All IsSaltByte bytes.now }
    ensures length { length bytes.now ≡ N }
{
    bytes.iter().all(|&byte| is_salt_byte(byte))
}

/// Whether a salted sum has a stored text.
fn is_storable(value: &Sha2Stored) -> bool
    ensures { IsTrue result ↔ (IsStorable value.now × (length value.now.salt ≡ 20) × (length value.now.sum ≡ 43)) }
{
    if value.thousands < 1 || value.thousands > 4095 {
        return false;
    }
    is_salt(&value.salt) && is_salt(&value.sum)
}

/// That a slice of bytes has no greater numbers.
fn are_bytes(bytes: &[u8]) -> bool
    ensures { IsTrue result ↔ All (λ x. x < 256) bytes.now }
{
    let _bytes = bytes;
    true
}

/// A digest of the native method always has a text.
fn digest_fits(digest: &[u8; 20]) -> bool
    ensures { IsTrue result ↔ ((length digest.now ≡ 20) × All (λ x. x < 256) digest.now) }
{
    are_bytes(digest.as_slice())
}

/// Whether what is stored has a text.
fn stored_fits(stored: &Stored) -> bool
    ensures { IsTrue result ↔ StoredFits stored.now }
{
    match stored {
        Stored::Empty => true,
        Stored::Native(digest) => digest_fits(digest),
        Stored::Sha2(value) => is_storable(value),
    }
}

/// Whether a password is empty or of the account's method.
fn is_of(method: Method, stored: &Stored) -> bool
    ensures { IsTrue result ↔ IsOf method stored.now }
{
    match stored {
        Stored::Empty => true,
        Stored::Native(_) => match method {
            Method::Native => true,
            Method::CachingSha2 => false,
        },
        Stored::Sha2(_) => match method {
            Method::Native => false,
            Method::CachingSha2 => true,
        },
    }
}

fn password_fits(method: Method, stored: &Stored) -> bool
    ensures { IsTrue result ↔ PasswordFits method stored.now }
{
    is_of(method, stored) && stored_fits(stored)
}

/// Whether a password isn't empty.
fn is_set(stored: &Stored) -> bool
    ensures { IsTrue result ↔ IsSet stored.now }
{
    match stored {
        Stored::Empty => false,
        Stored::Native(_) => true,
        Stored::Sha2(_) => true,
    }
}

fn secondary_fits(method: Method, primary: &Stored, secondary: &Option<(Stored, u64)>) -> bool
    ensures { IsTrue result ↔ SecondaryFits method primary.now secondary.now }
{
    match secondary {
        None => true,
        Some((stored, _)) => password_fits(method, stored) && is_set(stored) && is_set(primary),
    }
}

fn user_fits(user: &[u8]) -> bool
    ensures { IsTrue result ↔ UserFits user.now }
{
    if user.is_empty() || user.len() > 32 {
        return false;
    }
    !user.iter().any(|byte| *byte == 0)
}

fn label_fits(label: &Bytes) -> bool
    ensures { IsTrue result ↔ LabelFits label.now }
{
    let length = label.as_slice().len();
    1 <= length && length <= 64
}

fn labels_fit(labels: &[Bytes]) -> bool
    ensures { IsTrue result ↔ LabelsFit labels.now }
{
    if labels.len() > 2 {
        return false;
    }
    labels.iter().all(label_fits)
}

fn lifetime_fits(lifetime: Lifetime) -> bool
    ensures { IsTrue result ↔ LifetimeFits lifetime }
{
    match lifetime {
        Lifetime::Default => true,
        Lifetime::Never => true,
        Lifetime::Days(days) => days >= 1,
    }
}

fn limit_fits(most: u16, limit: Limit) -> bool
    ensures { IsTrue result ↔ LimitFits most limit }
{
    match limit {
        Limit::Default => true,
        Limit::Count(count) => count <= most,
    }
}

fn lock_time_fits(time: LockTime) -> bool
    ensures { IsTrue result ↔ LockTimeFits time }
{
    match time {
        LockTime::Days(days) => days <= 32767,
        LockTime::Unbounded => true,
    }
}

fn past_fits(past: &PastRecord) -> bool
    ensures { IsTrue result ↔ PastFits past.now }
{
    let _moment = past.moment;
    stored_fits(&past.stored) && is_set(&past.stored)
}

/// Whether the moments don't rise from one to the next, the first of them at most the latest.
fn fall_from(latest: u64, past: &[PastRecord]) -> bool
    ensures { IsTrue result ↔ FallFrom latest past.now }
{
    let mut before = latest;
    let mut left = past;
    while let [record, older @ ..] = left {
        if record.moment > before {
            return false;
        }
        before = record.moment;
        left = older;
    }
    true
}

fn pasts_fit(past: &[PastRecord]) -> bool
    ensures { IsTrue result ↔ PastsFit past.now }
{
    if past.len() > 256 || !past.iter().all(past_fits) {
        return false;
    }
    match past {
        [] => true,
        [first, older @ ..] => fall_from(first.moment, older),
    }
}

/// Whether the account's fields but its id and its credentials' ids fit the layout of a record. It takes no
/// memory.
pub fn fits_record(account: &Account) -> bool
    ensures { IsTrue result ↔ FitsRecord account.now }
{
    let _changed = account.changed;
    if !user_fits(account.name.user.as_slice()) {
        return false;
    }
    if !password_fits(account.method, &account.primary) {
        return false;
    }
    if !secondary_fits(account.method, &account.primary, &account.secondary) {
        return false;
    }
    if !labels_fit(account.labels.as_slice()) {
        return false;
    }
    if !lifetime_fits(account.lifetime) {
        return false;
    }
    if !limit_fits(256, account.history) || !limit_fits(65535, account.reuse) {
        return false;
    }
    if account.lock.attempts > 32767 || !lock_time_fits(account.lock.time) {
        return false;
    }
    pasts_fit(account.past.as_slice())
}
