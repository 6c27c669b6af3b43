//! Methods by their names, and what is stored of a new password.

ghost use Rattle.account_history.specs.Passwords.{method_after, method_named, same_method, secondary_after, stored_of, stored_by, with_password};
ghost use Rattle.factor_chain.specs.Checking.{is_empty};
ghost use Rattle.stmt_tokens.specs.Patterns.{is_same};
ghost use Rattle.std.specs.Prelude.{◌≡◌, ◌≤◌, length, OnOk};

use account_rules::Account;
use caching_sha2::Sha2Stored;
use factor_chain::{Method, PastRecord, Stored};
use lg_base::{Bytes, Memory};
use native_scramble::stage2;
use password_history::remember;
use sha256_crypt::crypt;
use std::alloc::Global;
use stmt_rules::Auth;

/// Whether two texts are the same letters, in any case.
#[tactic(auto, unfolding(stmt_tokens::specs::Patterns::is_same))]
pub fn is_same(left: &[u8], right: &[u8]) -> bool
    ensures { result ≡ is_same left.now right.now }
{
    left.eq_ignore_ascii_case(right)
}

/// The method of a name, in any case of its letters.
pub fn method_named(name: &[u8]) -> Option<Method>
    ensures { result ≡ method_named name.now }
{
    if is_same(name, b"mysql_native_password") {
        Some(Method::Native)
    } else if is_same(name, b"caching_sha2_password") {
        Some(Method::CachingSha2)
    } else {
        None
    }
}

/// The method after a statement: the one behind WITH, or else the one that stands.
pub fn method_after(name: &Option<Bytes>, standing: Method) -> Method
    ensures { result ≡ method_after name.now standing }
{
    match name {
        Some(name) => match method_named(name.as_slice()) {
            Some(method) => method,
            None => standing,
        },
        None => standing,
    }
}

pub fn is_method(method: Method, other: Method) -> bool
    ensures { result ≡ same_method method other }
{
    match method {
        Method::Native => match other {
            Method::Native => true,
            Method::CachingSha2 => false,
        },
        Method::CachingSha2 => match other {
            Method::Native => false,
            Method::CachingSha2 => true,
        },
    }
}

pub fn is_empty(stored: &Stored) -> bool
    ensures { result ≡ is_empty stored.now }
{
    match stored {
        Stored::Empty => true,
        Stored::Native(_) => false,
        Stored::Sha2(_) => false,
    }
}

/// What is stored of a password. A caching one takes 5000 rounds and the salt.
pub fn stored_of(method: Method, salt: &[u8; 20], password: &[u8]) -> Stored
    requires { length password.now ≤ 256 }
    ensures { result ≡ stored_of method salt.now password.now }
{
    match password {
        [] => Stored::Empty,
        [_, ..] => match method {
            Method::Native => Stored::Native(stage2(password)),
            Method::CachingSha2 => Stored::Sha2(Sha2Stored {
                thousands: 5,
                salt: *salt,
                sum: crypt(password, salt.as_slice(), 5000),
            }),
        },
    }
}
