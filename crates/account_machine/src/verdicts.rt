//! What evidence on an account fits, and the digest that it shows.

ghost use Rattle.account_history.specs.Known.{clear_password, primary_of, secondary_of, shown_by, shown_of};
ghost use Rattle.account_history.specs.Naming.{or_else};
ghost use Rattle.account_history.specs.Verifying.{account_verifies};
ghost use Rattle.account_machine.specs.Digesting.{first_of_all, first_on, missing, missing_in, number_of, verdict_on};
ghost use Rattle.account_rules.specs.declared.accounts.Account.{Account};
ghost use Rattle.digest_cache.specs.Cache.{digest_of};
ghost use Rattle.factor_chain.specs.Checking.{fit_on as fit_on_account, is_fit};
ghost use Rattle.factor_chain.specs.declared.evidence_list.Fit.TheVariants as fit;
ghost use Rattle.std.specs.List.{list_all, enumerate_from};
ghost use Rattle.std.specs.Prelude.{◌≡◌, ◌≤◌, ◌&&◌, ℕ, List, drop, if◌then◌else◌, Some, None, option_copied, slice_get};

use crate::rows::{primary, secondary};
use account_rules::Account;
use caching_sha2::digest;
use digest_cache::Digests;
use factor_chain::{Credential, Evidence, Evidences, Fit, fit_on};
use lg_base::{Bytes, Items};

/// What the first piece of evidence fits.
fn first_fit(
    primary: &Credential,
    secondary: &Option<Credential>,
    labels: &Items<Bytes>,
    evidences: &[Evidence],
) -> Fit
    ensures { result ≡ first_of_all primary.now secondary.now evidences.now }
{
    match evidences {
        [] => Fit::Nothing,
        [given, ..] => fit_on(primary, secondary, labels, given, 0),
    }
}

/// Whether each further piece of evidence fits at its place.
fn further_fit(
    primary: &Credential,
    secondary: &Option<Credential>,
    labels: &Items<Bytes>,
    evidences: &[Evidence],
) -> bool
    ensures { result ≡ list_all (λ placed. is_fit (fit_on_account primary.now secondary.now labels.now placed.1 placed.0)) (drop 1 (enumerate_from 0 evidences.now)) }
{
    evidences.iter().enumerate().skip(1).all(|(place, given)| fit_on(
        primary, secondary, labels, given, place,
    ) != Fit::Nothing)
}

/// Whether something fits.
pub fn is_fit(fit: Fit) -> bool
    ensures { result ≡ is_fit fit }
{
    match fit {
        Fit::Nothing => false,
        Fit::Primary => true,
        Fit::Secondary => true,
        Fit::Factor => true,
    }
}

/// What the first piece fits, where the further ones fit too.
fn settled(first: Fit, further: bool) -> Fit
    ensures { result ≡ (if is_fit first && further then first else fit.Nothing) }
{
    if is_fit(first) && further {
        return first;
    }
    Fit::Nothing
}

/// What the first piece of evidence fits where each factor of an account has its evidence and each piece fits, and else
/// nothing.
pub fn verdict(digests: &Digests, account: &Account, evidences: &Evidences) -> Fit
    ensures { result ≡ verdict_on (digest_of digests.now) account.now evidences.now }
{
    let factors = account.labels.len();
    let count = evidences.len();
    if count - 1 != factors {
        return Fit::Nothing;
    }
    let given = evidences.as_slice();
    let primary = primary(digests, account);
    let secondary = secondary(digests, account);
    let first = first_fit(&primary, &secondary, &account.labels, given);
    let further = further_fit(&primary, &secondary, &account.labels, given);
    settled(first, further)
}

/// The number of the account's password that a first piece fits.
fn number_of(account: &Account, fit: Fit) -> Option<u64>
    ensures { result ≡ number_of account.now fit }
{
    match fit {
        Fit::Nothing => None,
        Fit::Primary => Some(account.primary_id),
        Fit::Secondary => match account.secondary {
            Some((_, id)) => Some(id),
            None => None,
        },
        Fit::Factor => None,
    }
}

/// The password in clear that evidence begins with.
fn clear_password(evidences: &[Evidence]) -> Option<&Bytes>
    ensures { option_copied result ≡ clear_password evidences.now }
{
    match evidences {
        [] => None,
        [Evidence::Native { .. }, ..] => None,
        [Evidence::Fast { .. }, ..] => None,
        [Evidence::Full { password }, ..] => Some(password),
        [Evidence::Empty, ..] => None,
        [Evidence::External { .. }, ..] => None,
    }
}

/// Keeps the digest of a password in clear for the password of the account that it fits, unless one is kept already.
fn keep(digests: &mut Digests, account: &Account, fit: Fit, password: &Bytes)
    requires room { missing_in (digest_of digests.old) account.now ≤ digests.old.spare }
    ensures kept { (q : ℕ) → digest_of digests.new q ≡ or_else (digest_of digests.old q) (shown_of q password.now (number_of account.now fit)) }
    ensures room { (accounts : List Account) (place : ℕ) → slice_get accounts place ≡ Some account.now
        → missing (digest_of digests.old) accounts ≤ digests.old.spare → missing (digest_of digests.new) accounts ≤ digests.new.spare }
{
    match number_of(account, fit) {
        Some(id) => digests.put(id, digest(password.as_slice())),
        None => {}
    }
}

/// Keeps the digest that evidence shows, whose first piece fits so, unless one is kept already.
pub fn keep_shown(digests: &mut Digests, account: &Account, fit: Fit, evidences: &Evidences)
    requires room { missing_in (digest_of digests.old) account.now ≤ digests.old.spare }
    requires fit { fit ≡ first_on (digest_of digests.old) account.now evidences.now }
    ensures kept { (q : ℕ) → digest_of digests.new q ≡ or_else (digest_of digests.old q) (shown_by account.now (clear_password evidences.now) q) }
    ensures room { (accounts : List Account) (place : ℕ) → slice_get accounts place ≡ Some account.now
        → missing (digest_of digests.old) accounts ≤ digests.old.spare → missing (digest_of digests.new) accounts ≤ digests.new.spare }
{
    match clear_password(evidences.as_slice()) {
        Some(password) => keep(digests, account, fit, password),
        None => {}
    }
}
