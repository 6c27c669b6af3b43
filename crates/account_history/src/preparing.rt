//! Statements that are prepared on a look, before they are committed.

ghost use Rattle.account_history.specs.Preparing.{PreparedOf, auth_set, is_preparable, fits_set, method_before, method_seen, past_seen, stored_by_auth, stored_for, stored_set};
ghost use Rattle.account_history.specs.Refusals.{new_password};
ghost use Rattle.account_history.specs.Sound.{IsWritten};
ghost use Rattle.password_history.specs.Reuse.{used_of};
ghost use Rattle.sha256_crypt.specs.Alphabet.{IsSaltByte};
ghost use Rattle.std.specs.List.{All};
ghost use Rattle.std.specs.Prelude.{◌≡◌, IfOk, IsTrue, option_copied};

use crate::passwords::{method_after, stored_of};
use crate::setting::{auth_of, new_password, password_of};
use factor_chain::{InForce, Look, Method, PastRecord, Stored};
use lg_base::{Items, Memory};
use password_history::used;
use std::alloc::Global;
use std::marker::Model;
use stmt_rules::{Auth, Statement};

/// The most bytes of a password.
const LONGEST_PASSWORD: usize = 256;

/// A CREATE USER or an ALTER USER that was prepared on a look. Its type keeps what is stored of the new password, and
/// which of the past passwords that the look shows it fits. It also keeps that the statement is as the grammar has it, and
/// that the salt is of the alphabet of salts.
#[derive(Debug, Drop)]
pub struct Prepared {
    look: Look,
    statement: Statement,
    salt: [u8; 20],
    actor: u64,
    stored: Option<Stored>,
    fits: Items<bool>,
}

impl Model for Prepared {
    ghost use Rattle.std.specs.Prelude.{◌≡◌, IsTrue};
    ghost use Rattle.account_history.specs.Preparing.{PreparedOf, fits_set, is_preparable, stored_set};
    ghost use Rattle.account_history.specs.Sound.{IsWritten};
    ghost use Rattle.sha256_crypt.specs.Alphabet.{IsSaltByte};
    ghost use Rattle.std.specs.List.{All};

    ghost Value = { PreparedOf };

    ghost view = { λ p. record { look = p.look; statement = p.statement; salt = p.salt; actor = p.actor } };

    ghost invariant = { λ p. IsTrue (is_preparable p.statement)
        × IsWritten p.statement
        × All IsSaltByte p.salt
        × (p.stored ≡ stored_set (record { look = p.look; statement = p.statement; salt = p.salt; actor = p.actor }))
        × (p.fits ≡ fits_set (record { look = p.look; statement = p.statement; salt = p.salt; actor = p.actor })) };
}

/// The method of the account that is seen.
fn method_seen(seen: &Option<InForce>) -> Method
    ensures { result ≡ method_seen seen.now }
{
    match seen {
        Some(account) => account.method,
        None => Method::CachingSha2,
    }
}

/// The method that stands without WITH.
fn method_before(statement: &Statement, seen: &Option<InForce>) -> Method
    ensures { result ≡ method_before statement.now seen.now }
{
    match statement {
        Statement::Create { .. } => Method::CachingSha2,
        Statement::Alter { .. } => method_seen(seen),
        Statement::Drop { .. } => method_seen(seen),
        Statement::Flush => method_seen(seen),
        Statement::Grant { .. } => method_seen(seen),
        Statement::Revoke { .. } => method_seen(seen),
    }
}

/// What is stored of a password, unless it is too long.
fn stored_for(salt: &[u8; 20], method: Method, auth: &Auth) -> Option<Stored>
    ensures { result ≡ stored_for salt.now method auth.now }
{
    let password = password_of(&auth.password);
    if password.len() > LONGEST_PASSWORD {
        return None;
    }
    Some(stored_of(method_after(&auth.method, method), salt, password))
}

/// What is stored of the new password.
fn stored_set(statement: &Statement, method: Method, salt: &[u8; 20]) -> Option<Stored>
    ensures { result ≡ stored_by_auth salt.now method (auth_set statement.now) }
{
    match statement {
        Statement::Create { auth, .. } => match auth {
            Some(auth) => stored_for(salt, method, auth),
            None => Some(Stored::Empty),
        },
        Statement::Alter { .. } => match auth_of(statement) {
            Some(auth) => stored_for(salt, method, auth),
            None => None,
        },
        Statement::Drop { .. } => None,
        Statement::Flush => None,
        Statement::Grant { .. } => None,
        Statement::Revoke { .. } => None,
    }
}

/// The past passwords of the account that is seen.
fn past_seen(seen: &Option<InForce>) -> &[PastRecord]
    ensures { result.now ≡ past_seen seen.now }
{
    match seen {
        Some(account) => account.past.as_slice(),
        None => &[],
    }
}

/// Prepares a CREATE USER or an ALTER USER that the account with the number `actor` asks for, on a look at the account
/// that it is about: computes what is stored of the new password with the salt, and which of the past passwords it fits.
/// The statement is one that the grammar gives, and the salt is of the alphabet of salts. `Memory` is the only error.
pub fn prepare(
    alloc: Global,
    look: Look,
    statement: Statement,
    salt: &[u8; 20],
    actor: u64,
) -> Result<Prepared, Memory>
    requires kind { IsTrue (is_preparable statement) }
    requires written { IsWritten statement }
    requires letters { All IsSaltByte salt.now }
    ensures { IfOk result (λ p. p ≡ record { look = look; statement = statement; salt = salt.now; actor = actor }) }
{
    let method = method_before(&statement, &look.in_force);
    let stored = stored_set(&statement, method, salt);
    let fits = used(alloc, past_seen(&look.in_force), new_password(&statement))?;
    Ok(Prepared {
        look,
        statement,
        salt: *salt,
        actor,
        stored,
        fits,
    })
}

impl Prepared {
    ghost use Rattle.account_history.specs.Preparing.{is_preparable};
    ghost use Rattle.account_history.specs.Sound.{IsWritten};
    ghost use Rattle.sha256_crypt.specs.Alphabet.{IsSaltByte};
    ghost use Rattle.std.specs.List.{All};
    ghost use Rattle.std.specs.Prelude.{◌≡◌, IsTrue};

    /// The look that the statement was prepared on.
    pub fn look(&self) -> &Look
        ensures { result.now ≡ self.now.look }
    {
        &self.look
    }

    /// The statement, which is a CREATE USER or an ALTER USER.
    pub fn statement(&self) -> &Statement
        ensures statement { result.now ≡ self.now.statement }
        ensures kind { IsTrue (is_preparable result.now) }
        ensures written { IsWritten result.now }
    {
        &self.statement
    }

    /// The salt, which is of the alphabet of salts.
    pub fn salt(&self) -> &[u8; 20]
        ensures salt { result.now ≡ self.now.salt }
        ensures letters { All IsSaltByte result.now }
    {
        &self.salt
    }

    /// The number of the account that asks for it.
    pub fn actor(&self) -> u64
        ensures { result ≡ self.now.actor }
    {
        self.actor
    }

    /// The statement. What was prepared is given up.
    pub fn into_statement(self) -> Statement
        ensures statement { result ≡ self.statement }
        ensures kind { IsTrue (is_preparable result) }
        ensures written { IsWritten result }
    {
        self.statement
    }
}
