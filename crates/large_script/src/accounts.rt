//! The accounts of a large run.

ghost use Rattle.large_script.specs.Generating as text;
ghost use Rattle.large_script.specs.Generating.{account_events};
ghost use Rattle.std.specs.Prelude.{◌≡◌, ◌<◌, ◌++◌, IfOk, OnOk};

use lg_base::{Bytes, Items, Memory, Out};
use script_text::Event;
use std::alloc::Global;

/// How many accounts there are.
const ACCOUNTS: u8 = 8;

/// The method of an account.
#[tactic(auto, unfolding(crate::specs::Generating::method_name))]
fn method_name(account: u8) -> &'static [u8]
    ensures { result.now ≡ text.method_name account }
{
    if account % 2 == 0 {
        b"mysql_native_password"
    } else {
        b"caching_sha2_password"
    }
}

/// The text of the statement that creates an account.
#[tactic(auto, unfolding(crate::specs::Generating::create_text))]
fn create_text(alloc: Global, account: u8) -> Result<Bytes, Memory>
    requires { account < 8 }
    ensures { IfOk result (λ made. made ≡ text.create_text account) }
{
    let digit = b'0' + account;
    let mut made = Out::new(alloc);
    made.bytes(b"CREATE USER '")?;
    made.bytes(&[b'u', digit])?;
    made.bytes(b"'@'localhost' IDENTIFIED WITH ")?;
    made.bytes(method_name(account))?;
    made.bytes(b" BY '")?;
    made.bytes(&[b'p', digit])?;
    made.bytes(b"' FAILED_LOGIN_ATTEMPTS 3 PASSWORD_LOCK_TIME 1")?;
    Ok(made.into_bytes())
}

/// Adds the events that create the accounts.
pub fn add_accounts(alloc: Global, events: &mut Items<Event>) -> Result<(), Memory>
    ensures { OnOk result (events.new ≡ events.old ++ account_events 8) }
{
    let mut account = 0;
    'accounts: while account < ACCOUNTS {
        let text = create_text(alloc, account)?;
        events.push(Event::Admin { text })?;
        account += 1;
    }
    Ok(())
}
