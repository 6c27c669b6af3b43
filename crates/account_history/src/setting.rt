//! The password that a statement sets.

ghost use Rattle.account_history.specs.Passwords.{password_of};
ghost use Rattle.account_history.specs.Refusals.{auth_in, auth_of, new_password, new_password_in};
ghost use Rattle.std.specs.Prelude.{◌≡◌, option_copied};

use lg_base::Bytes;
use stmt_rules::{Auth, Change, Statement};

/// The new password with its method, if the statement has one.
pub fn auth_of(statement: &Statement) -> Option<&Auth>
    ensures { option_copied result ≡ auth_of statement.now }
{
    match statement {
        Statement::Create { auth, .. } => auth.as_ref(),
        Statement::Alter { change, .. } => match change {
            Change::Password(auth) => Some(auth),
            Change::Nothing => None,
            Change::Discard => None,
            Change::Add(..) => None,
            Change::Modify(..) => None,
            Change::DropFactor(_) => None,
        },
        Statement::Drop { .. } => None,
        Statement::Flush => None,
        Statement::Grant { .. } => None,
        Statement::Revoke { .. } => None,
    }
}

/// The password behind BY; without it the new password is empty.
pub fn password_of(password: &Option<Bytes>) -> &[u8]
    ensures { result.now ≡ password_of password.now }
{
    match password {
        Some(password) => password.as_slice(),
        None => b"",
    }
}

/// The new password, which is empty where the statement has none.
pub fn new_password(statement: &Statement) -> &[u8]
    ensures { result.now ≡ new_password statement.now }
{
    match auth_of(statement) {
        Some(auth) => password_of(&auth.password),
        None => b"",
    }
}
