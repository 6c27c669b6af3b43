//! The accounts that stand from the start.

ghost use Rattle.account_machine.specs.Openings.{native_accounts, native_stored, opening_accounts, plain_account};
ghost use Rattle.account_machine.specs.Rows.{new_rows};
ghost use Rattle.std.specs.Prelude.{◌≡◌, ◌∷◌, [], IfOk};

use crate::rows::Row;
use account_history::Opening;
use account_rules::{Account, Lifetime, Limit};
use factor_chain::{Method, Stored};
use lg_base::{Bytes, Host, Items, Memory, Name};
use login_lock::{LockRule, LockTime, Tally};
use native_scramble::stage2;
use std::alloc::Global;

/// An account at `localhost` with default options.
fn make_account(
    alloc: Global,
    id: u64,
    user: &[u8],
    method: Method,
    primary: Stored,
    privileged: bool,
) -> Result<Account, Memory>
    ensures { IfOk result (λ made. made ≡ plain_account id user.now method primary privileged) }
{
    Ok(Account {
        id,
        name: Name {
            user: Bytes::copy(alloc, user)?,
            host: Host::Localhost,
        },
        method,
        primary,
        primary_id: id,
        secondary: None,
        labels: Items::new(alloc),
        changed: 0,
        expired: false,
        lifetime: Lifetime::Default,
        history: Limit::Default,
        reuse: Limit::Default,
        lock: LockRule {
            attempts: 0,
            time: LockTime::Days(0),
        },
        locked: false,
        create_user: privileged,
        password_admin: privileged,
        past: Items::new(alloc),
    })
}

/// What is stored of a native account's password.
fn stored(password: &[u8]) -> Stored
    ensures { result ≡ native_stored password.now }
{
    if password.is_empty() {
        Stored::Empty
    } else {
        Stored::Native(stage2(password))
    }
}

/// The rows of a start.
pub fn opening_rows(alloc: Global, extra: &[Opening]) -> Result<Vec<Row>, Memory>
    ensures { IfOk result (λ rows. rows.items ≡ new_rows (opening_accounts extra.now)) }
{
    let root = make_account(alloc, 1, b"root", Method::CachingSha2, Stored::Empty, true)?;
    let mut rows = Vec::new(alloc);
    rows.push(Row {
        account: root,
        tally: Tally::new(),
    })?;
    let mut id: u64 = 2;
    for opening in extra {
        let primary = stored(opening.password.as_slice());
        let account = make_account(
            alloc,
            id,
            opening.user.as_slice(),
            Method::Native,
            primary,
            false,
        )?;
        rows.push(Row {
            account,
            tally: Tally::new(),
        })?;
        id += 1;
    }
    Ok(rows)
}
