//! What a script begins with: the accounts of its setup, and the login clients of its events.

use account_machine::Accounts;
use lg_base::Memory;
use login_client::{Client, ClientOptions};
use script_text::{Event, Script};
use std::alloc::Global;

/// Makes the start that a script tells of.
fn start(alloc: Global, script: &Script) -> Result<(), Memory> {
    let setup = script.setup();
    let _accounts = Accounts::opening(alloc, setup.accounts.as_slice(), setup.settings)?;
    Ok(())
}

/// Makes a client of each line `client`.
fn make_clients(alloc: Global, script: &Script) -> Result<(), Memory> {
    for event in script.events() {
        if let Event::Client {
            session: _,
            flags,
            user,
            secrets,
        } = event
        {
            let options = ClientOptions {
                flags: *flags,
                clear: true,
            };
            let _client = Client::new(alloc, user.as_slice(), secrets, &options, true)?;
        }
    }
    Ok(())
}

/// Whether all of it can be made.
pub fn can_begin(alloc: Global, script: &Script) -> bool {
    start(alloc, script).is_ok() && make_clients(alloc, script).is_ok()
}
