//! Scripts of large runs, each made of a number.
//!
//! **[`generate`] gives the script of a number: eight accounts, and a thousand clients that log in one after another, each
//! session open with its greeting sent while the next one is opened.** Users, passwords and the moments at which the
//! privileges are flushed are drawn by a linear congruence from the number, as `specs/Draws.antt` and
//! `specs/Generating.antt` say; its constants are those of the C standard's example of `rand`. Below stand `script_text` for
//! scripts, `account_rules` for their settings, and `login_client` for what a client logs in with.
#![tactic(auto)]

ghost use Rattle.large_script.specs.Generating.{generated, generated_events};
ghost use Rattle.script_text.specs.Reading.{setup_of, start};
ghost use Rattle.std.specs.Prelude.{◌≡◌, IfOk};

mod accounts;
mod draws;
mod sessions;

use account_rules::Settings;
use accounts::add_accounts;
use lg_base::{Items, Memory};
use script_text::{Event, Script, Setup};
pub use sessions::SESSIONS;
use sessions::add_sessions;
use std::alloc::Global;

/// The clock's first reading, in seconds.
const FIRST_READING: u64 = 1000;

/// The setup of a script without setup lines.
fn no_setup(alloc: Global) -> Setup
    ensures { result ≡ setup_of start }
{
    Setup {
        accounts: Items::new(alloc),
        settings: Settings {
            lifetime: 0,
            disconnect: true,
            history: 0,
            reuse: 0,
        },
    }
}

/// The events of the script of a number.
#[tactic(auto, unfolding(crate::specs::Generating::generated_events))]
fn events_of(alloc: Global, number: u32) -> Result<Items<Event>, Memory>
    ensures { IfOk result (λ events. events ≡ generated_events number) }
{
    let mut events = Items::new(alloc);
    events.push(Event::Clock {
        reading: FIRST_READING,
    })?;
    add_accounts(alloc, &mut events)?;
    add_sessions(alloc, number, &mut events)?;
    events.push(Event::Run { session: SESSIONS })?;
    Ok(events)
}

/// The script of a number.
pub fn generate(alloc: Global, number: u32) -> Result<Script, Memory>
    ensures { IfOk result (λ script. script ≡ generated number) }
{
    let events = events_of(alloc, number)?;
    Ok(Script::new(no_setup(alloc), events))
}
