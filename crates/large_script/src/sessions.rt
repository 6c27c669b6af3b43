//! The sessions of a large run.

ghost use Rattle.large_script.specs.Generating as text;
ghost use Rattle.large_script.specs.Generating.{flush_if, run_before, secrets_of, session_events, sessions_events};
ghost use Rattle.std.specs.Prelude.{◌≡◌, ◌+◌, ◌%◌, ◌++◌, IfOk, OnOk};

use crate::draws::{Drawn, Draws};
use lg_base::{Bytes, Items, Memory};
use login_client::Secrets;
use script_text::Event;
use std::alloc::Global;

/// How many sessions there are.
pub const SESSIONS: u32 = 1000;

/// The flags of each client.
const FLAGS: u32 = 0x1028_a200;

/// The digit of the account that is drawn.
fn digit_of(drawn: &Drawn) -> u8
    ensures { result ≡ 48 + (drawn.now).user % 8 }
{
    b'0' + (drawn.user % 8) as u8
}

/// The password of the client that is drawn.
#[tactic(auto, unfolding(crate::specs::Generating::secret_of))]
fn secret_of(alloc: Global, drawn: &Drawn) -> Result<Bytes, Memory>
    ensures { IfOk result (λ secret. secret ≡ text.secret_of drawn.now) }
{
    if drawn.secret % 4 == 0 {
        return Bytes::copy(alloc, b"bad");
    }
    Bytes::copy(alloc, &[b'p', digit_of(drawn)])
}

/// The client that is drawn begins a session.
fn client_of(alloc: Global, session: u32, drawn: &Drawn) -> Result<Event, Memory>
    ensures { IfOk result (λ begun. begun ≡ text.client_of session drawn.now) }
{
    Ok(Event::Client {
        session,
        flags: FLAGS,
        user: Bytes::copy(alloc, &[b'u', digit_of(drawn)])?,
        secrets: Secrets {
            first: secret_of(alloc, drawn)?,
            second: None,
            third: None,
        },
    })
}

/// The administrator flushes the privileges.
#[tactic(auto, unfolding(crate::specs::Generating::flush))]
fn flush(alloc: Global) -> Result<Event, Memory>
    ensures { IfOk result (λ flushed. flushed ≡ text.flush) }
{
    Ok(Event::Admin {
        text: Bytes::copy(alloc, b"FLUSH PRIVILEGES")?,
    })
}

/// Adds that the privileges are flushed, where that is drawn.
#[tactic(auto, unfolding(crate::specs::Generating::flush_if))]
fn add_flush(alloc: Global, drawn: u32, events: &mut Items<Event>) -> Result<(), Memory>
    ensures { OnOk result (events.new ≡ events.old ++ flush_if drawn) }
{
    if drawn % 50 == 0 {
        let flushed = flush(alloc)?;
        return events.push(flushed);
    }
    Ok(())
}

/// Adds the run of the session before this one, if there is one.
#[tactic(auto, unfolding(crate::specs::Generating::run_before))]
fn add_run_before(session: u32, events: &mut Items<Event>) -> Result<(), Memory>
    ensures { OnOk result (events.new ≡ events.old ++ run_before session) }
{
    if session <= 1 {
        return Ok(());
    }
    events.push(Event::Run {
        session: session - 1,
    })
}

/// Adds the events of a session.
fn add_session(
    alloc: Global,
    session: u32,
    drawn: &Drawn,
    events: &mut Items<Event>,
) -> Result<(), Memory>
    ensures { OnOk result (events.new ≡ events.old ++ session_events session drawn.now) }
{
    events.push(Event::Clock {
        reading: 1000 + 600 * u64::from(session),
    })?;
    add_flush(alloc, drawn.flush, events)?;
    events.push(client_of(alloc, session, drawn)?)?;
    add_run_before(session, events)
}

/// Adds the events of all sessions, as is drawn from a number.
pub fn add_sessions(alloc: Global, number: u32, events: &mut Items<Event>) -> Result<(), Memory>
    ensures { OnOk result (events.new ≡ events.old ++ sessions_events 1000 number) }
{
    let mut draws = Draws::new(number);
    let mut count = 0;
    'sessions: while count < SESSIONS {
        let drawn = draws.draw_session();
        add_session(alloc, count + 1, &drawn, events)?;
        count += 1;
    }
    Ok(())
}
