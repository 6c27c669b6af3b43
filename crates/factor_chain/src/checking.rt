//! The check of evidence against credentials.

ghost use Rattle.factor_chain.specs.Checking.{all_fit as all_fit_at, all_fit_on as all_fit_on_account, answer_fits as native_fits, digest_fits as known_digest_fits, fit_at as fit_at_place, fit_on as fit_on_account, fits as evidence_fits, first_fit as first_fit_of, is_fit as some_fit, known_fits_of, label_fit as labelled_fit, password_fits, sum_is_of};
ghost use Rattle.std.specs.List.{list_all};
ghost use Rattle.std.specs.Prelude.{◌≡◌, ◌<◌, ◌≤◌, ◌&&◌, length, nat_le, Some};

use crate::credentials::{Credential, Look, Stored};
use crate::evidence_list::{Evidence, Evidences, Fit};
use caching_sha2::{Sha2Stored, fast_right};
use lg_base::{Bytes, Items};
use native_scramble::{right, stage2};
use sha256_crypt::crypt;
use std::marker::Model;

/// The most bytes that a password has.
const LONGEST_PASSWORD: usize = 256;

/// Whether a password fits what is stored. More than 256 bytes never fit, and the empty password fits
/// [`Stored::Empty`] alone.
pub fn fits_password(stored: &Stored, password: &[u8]) -> bool
    ensures { result ≡ password_fits stored.now password.now }
{
    match stored {
        Stored::Empty => password.is_empty(),
        Stored::Native(digest) => { is_in_length(password) && stage2(password) == *digest }
        Stored::Sha2(value) => is_in_length(password) && is_sum_of(value, password),
    }
}

fn is_in_length(password: &[u8]) -> bool
    ensures { result ≡ (nat_le 1 (length password.now) && nat_le (length password.now) 256) }
{
    !password.is_empty() && password.len() <= LONGEST_PASSWORD
}

/// Whether a salted sum is of this password.
fn is_sum_of(value: &Sha2Stored, password: &[u8]) -> bool
    requires { length password.now ≤ 256 }
    ensures { result ≡ sum_is_of value.now password.now }
{
    let thousands = value.thousands;
    if thousands < 1 || thousands > 4095 {
        return false;
    }
    crypt(password, &value.salt, 1000 * u32::from(thousands)) == value.sum
}

/// Whether an answer of the native method is right for what is stored.
fn answer_fits(stored: &Stored, nonce: &[u8; 20], response: &[u8]) -> bool
    ensures { result ≡ native_fits stored.now nonce.now response.now }
{
    let Stored::Native(digest) = stored else {
        return false;
    };
    match <&[u8; 20]>::try_from(response) {
        Ok(response) => right(digest, nonce, response),
        Err(_) => false,
    }
}

/// Whether an answer of the fast path is right for a credential's digest.
fn digest_fits(credential: &Credential, nonce: &[u8; 20], response: &[u8; 32]) -> bool
    ensures { result ≡ known_digest_fits credential.now.digest nonce.now response.now }
{
    match credential.digest {
        Some(digest) => fast_right(&digest, nonce, response),
        None => false,
    }
}

/// Whether evidence of a first factor fits a credential.
fn fits(given: &Evidence, credential: &Credential) -> bool
    ensures { result ≡ evidence_fits given.now credential.now }
{
    match given {
        Evidence::Native { nonce, response } => {
            answer_fits(&credential.stored, nonce, response.as_slice())
        }
        Evidence::Fast { nonce, response } => digest_fits(credential, nonce, response),
        Evidence::Full { password } => match credential.stored {
            Stored::Sha2(_) => fits_password(&credential.stored, password.as_slice()),
            Stored::Empty => false,
            Stored::Native(_) => false,
        },
        Evidence::Empty => match credential.stored {
            Stored::Empty => true,
            Stored::Native(_) => false,
            Stored::Sha2(_) => false,
        },
        Evidence::External {
            label: _,
            accepted: _,
        } => false,
    }
}

/// What evidence of a first factor fits: the primary is tried, then the secondary.
fn first_fit(given: &Evidence, primary: &Credential, secondary: &Option<Credential>) -> Fit
    ensures { result ≡ first_fit_of given.now primary.now secondary.now }
{
    if fits(given, primary) {
        return Fit::Primary;
    }
    match secondary {
        Some(credential) => {
            if fits(given, credential) {
                Fit::Secondary
            } else {
                Fit::Nothing
            }
        }
        None => Fit::Nothing,
    }
}

/// What evidence of a further factor fits, under the label of its place.
fn label_fit(given: &Evidence, wanted: &Bytes) -> Fit
    ensures { result ≡ labelled_fit given.now (Some wanted.now) }
{
    match given {
        Evidence::External { label, accepted } => {
            if *accepted && label == wanted {
                Fit::Factor
            } else {
                Fit::Nothing
            }
        }
        Evidence::Native {
            nonce: _,
            response: _,
        } => Fit::Nothing,
        Evidence::Fast {
            nonce: _,
            response: _,
        } => Fit::Nothing,
        Evidence::Full { password: _ } => Fit::Nothing,
        Evidence::Empty => Fit::Nothing,
    }
}

/// What the evidence at a place, counted from 0, fits of an account's passwords and labels.
pub fn fit_on(
    primary: &Credential,
    secondary: &Option<Credential>,
    labels: &Items<Bytes>,
    given: &Evidence,
    place: usize,
) -> Fit
    ensures { result ≡ fit_on_account primary.now secondary.now labels.now given.now place }
{
    if place == 0 {
        return first_fit(given, primary, secondary);
    }
    match labels.as_slice().get(place - 1) {
        Some(wanted) => label_fit(given, wanted),
        None => Fit::Nothing,
    }
}

/// Whether each piece of evidence fits an account's passwords and labels at its place.
pub fn all_fit_on(
    primary: &Credential,
    secondary: &Option<Credential>,
    labels: &Items<Bytes>,
    evidences: &Evidences,
) -> bool
    ensures { result ≡ all_fit_on_account primary.now secondary.now labels.now evidences.now }
{
    evidences.as_slice().iter().enumerate().all(|(place, given)| fit_on(
        primary, secondary, labels, given, place,
    ) != Fit::Nothing)
}

/// Evidence that was checked on a look. Its type keeps that each verdict is the one of the rule of
/// fitting on that look.
#[derive(Debug, Drop)]
pub struct Checked {
    look: Look,
    evidences: Evidences,
    fits: [Fit; 3],
}

impl Model for Checked {
    ghost use Rattle.std.specs.Prelude.{◌≡◌, [], ◌∷◌};
    ghost use Rattle.factor_chain.specs.Checking.{fit_at};
    ghost use Rattle.factor_chain.specs.CheckedOf.{CheckedOf};

    ghost Value = { CheckedOf };

    ghost view = { λ c. record { look = c.look; evidences = c.evidences } };

    ghost invariant = { λ c. c.fits ≡ fit_at c.look c.evidences 0 ∷ fit_at c.look c.evidences 1 ∷ fit_at c.look c.evidences 2 ∷ [] };
}

/// Checks each piece of evidence on a look.
pub fn check(look: Look, evidences: Evidences) -> Checked
    ensures { result ≡ record { look = look; evidences = evidences } }
{
    let fits = [
        fit_at(&look, &evidences, 0),
        fit_at(&look, &evidences, 1),
        fit_at(&look, &evidences, 2),
    ];
    Checked {
        look,
        evidences,
        fits,
    }
}

/// What the evidence at a place fits on a look: nothing where there is no evidence or no account.
fn fit_at(look: &Look, evidences: &Evidences, place: usize) -> Fit
    ensures { result ≡ fit_at_place look.now evidences.now place }
{
    let Some(account) = &look.in_force else {
        return Fit::Nothing;
    };
    match evidences.as_slice().get(place) {
        Some(given) => fit_on(
            &account.primary,
            &account.secondary,
            &account.labels,
            given,
            place,
        ),
        None => Fit::Nothing,
    }
}

fn is_fit(fit: Fit) -> bool
    ensures { result ≡ some_fit fit }
{
    match fit {
        Fit::Nothing => false,
        Fit::Primary => true,
        Fit::Secondary => true,
        Fit::Factor => true,
    }
}

fn are_fits(fits: &[Fit]) -> bool
    ensures { result ≡ list_all some_fit fits.now }
{
    fits.iter().all(|fit| is_fit(*fit))
}

impl Checked {
    /// What the evidence at `index` fits.
    pub fn fit(&self, index: usize) -> Fit
        requires { index < length self.now.evidences }
        ensures { result ≡ fit_at_place self.now.look self.now.evidences index }
    {
        let count = self.evidences.len();
        self.fits[index]
    }

    /// Whether each piece of evidence fits.
    pub fn all_fit(&self) -> bool
        ensures { result ≡ all_fit_at self.now.look self.now.evidences }
    {
        let count = self.evidences.len();
        are_fits(&self.fits[..count])
    }

    /// The stamp of the look.
    pub fn stamp(&self) -> u64
        ensures { result ≡ self.now.look.stamp }
    {
        self.look.stamp
    }

    /// The look.
    pub fn look(&self) -> &Look
        ensures { result.now ≡ self.now.look }
    {
        &self.look
    }

    /// The evidence.
    pub fn evidences(&self) -> &Evidences
        ensures { result.now ≡ self.now.evidences }
    {
        &self.evidences
    }

    /// The look and the evidence.
    pub fn into_parts(self) -> (Look, Evidences)
        ensures look { result.0 ≡ self.look }
        ensures evidences { result.1 ≡ self.evidences }
    {
        let Checked {
            look,
            evidences,
            fits: _,
        } = self;
        (look, evidences)
    }

    /// The evidence. The look is given up.
    pub fn into_evidences(self) -> Evidences
        ensures { result ≡ self.evidences }
    {
        self.into_parts().1
    }
}

/// Whether a response has 32 bytes and is right for a digest that the look shows.
pub fn known_fits(look: &Look, nonce: &[u8; 20], response: &[u8]) -> bool
    ensures { result ≡ known_fits_of look.now.in_force nonce.now response.now }
{
    let Some(account) = &look.in_force else {
        return false;
    };
    let Ok(response) = <&[u8; 32]>::try_from(response) else {
        return false;
    };
    if digest_fits(&account.primary, nonce, response) {
        return true;
    }
    match &account.secondary {
        Some(credential) => digest_fits(credential, nonce, response),
        None => false,
    }
}
