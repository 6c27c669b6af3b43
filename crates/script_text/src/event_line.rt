//! A line of a script by which something happens.

ghost use Rattle.script_text.specs.EventLines.{bytes_of, count_of, event_by, event_word_of, fault_of, reading_of, session_of, text_of};
ghost use Rattle.script_text.specs.Words.{all_text, pair, single, with_text};
ghost use Rattle.std.specs.Prelude.{◌≡◌, IfOk, option_map};

use crate::client_line::read_client;
use crate::event::Event;
use crate::words::{Words, bytes_of, number_of, session_of};
use lg_base::{Bytes, Memory};
use std::alloc::Global;

/// The words that such a line may begin with.
#[derive(Clone, Copy, Debug, PartialEq, Eq)]
pub enum EventWord {
    Clock,
    Admin,
    Open,
    Client,
    Bytes,
    Up,
    Down,
    Step,
    Run,
    Say,
    Command,
    Close,
    Cut,
    Fail,
}

/// The word that such a line begins with.
#[tactic(auto, unfolding(crate::specs::EventLines::event_word_of))]
pub fn event_word_of(word: &[u8]) -> Option<EventWord>
    ensures { result ≡ event_word_of word.now }
{
    if word == b"clock".as_slice() {
        Some(EventWord::Clock)
    } else if word == b"admin".as_slice() {
        Some(EventWord::Admin)
    } else if word == b"open".as_slice() {
        Some(EventWord::Open)
    } else if word == b"client".as_slice() {
        Some(EventWord::Client)
    } else if word == b"bytes".as_slice() {
        Some(EventWord::Bytes)
    } else if word == b"up".as_slice() {
        Some(EventWord::Up)
    } else if word == b"down".as_slice() {
        Some(EventWord::Down)
    } else if word == b"step".as_slice() {
        Some(EventWord::Step)
    } else if word == b"run".as_slice() {
        Some(EventWord::Run)
    } else if word == b"say".as_slice() {
        Some(EventWord::Say)
    } else if word == b"command".as_slice() {
        Some(EventWord::Command)
    } else if word == b"close".as_slice() {
        Some(EventWord::Close)
    } else if word == b"cut".as_slice() {
        Some(EventWord::Cut)
    } else if word == b"fail".as_slice() {
        Some(EventWord::Fail)
    } else {
        None
    }
}

/// The reading of `clock N`.
fn read_clock(arguments: &Words) -> Option<u64>
    ensures { result ≡ reading_of (single arguments.now) }
{
    number_of(arguments.one()?, u64::MAX)
}

/// The text of a line `admin`.
fn read_admin(alloc: Global, arguments: &Words) -> Result<Option<Bytes>, Memory>
    ensures { IfOk result (λ found. found ≡ all_text arguments.now) }
{
    match arguments.text() {
        None => Ok(None),
        Some(text) => Ok(Some(Bytes::copy(alloc, text)?)),
    }
}

/// What fails by a line `fail`.
#[tactic(auto, unfolding(crate::specs::EventLines::fault_of))]
fn read_fault(arguments: &Words) -> Option<Event>
    ensures { result ≡ fault_of (single arguments.now) }
{
    if arguments.one()? == b"keeper".as_slice() {
        Some(Event::FailKeeper)
    } else {
        None
    }
}

/// The session of a line that names one and nothing else.
fn read_session(arguments: &Words) -> Option<u32>
    ensures { result ≡ session_of (single arguments.now) }
{
    session_of(arguments.one()?)
}

/// The session and the bytes of a line `bytes` or `command`.
fn read_bytes(alloc: Global, arguments: &Words) -> Result<Option<(u32, Bytes)>, Memory>
    ensures { IfOk result (λ found. found ≡ bytes_of (pair arguments.now)) }
{
    let Some((session, bytes)) = arguments.two() else {
        return Ok(None);
    };
    let Some(session) = session_of(session) else {
        return Ok(None);
    };
    let Some(bytes) = bytes_of(alloc, bytes)? else {
        return Ok(None);
    };
    Ok(Some((session, bytes)))
}

/// The session and the count of a line `up` or `down`.
fn read_count(arguments: &Words) -> Option<(u32, u64)>
    ensures { result ≡ count_of (pair arguments.now) }
{
    let Some((session, count)) = arguments.two() else {
        return None;
    };
    let Some(session) = session_of(session) else {
        return None;
    };
    match number_of(count, u64::MAX) {
        None => None,
        Some(count) => Some((session, count)),
    }
}

/// The session and the text of a line `say`.
fn read_text(alloc: Global, arguments: &Words) -> Result<Option<(u32, Bytes)>, Memory>
    ensures { IfOk result (λ found. found ≡ text_of (with_text arguments.now)) }
{
    let Some((session, text)) = arguments.with_text() else {
        return Ok(None);
    };
    let Some(session) = session_of(session) else {
        return Ok(None);
    };
    Ok(Some((session, Bytes::copy(alloc, text)?)))
}

/// What happens by a line's first word and the words behind it.
pub fn read_event(
    alloc: Global,
    word: EventWord,
    arguments: &Words,
) -> Result<Option<Event>, Memory>
    ensures { IfOk result (λ found. found ≡ event_by word arguments.now) }
{
    match word {
        EventWord::Clock => Ok(read_clock(arguments).map(|reading| Event::Clock { reading })),
        EventWord::Admin => Ok(read_admin(alloc, arguments)?.map(|text| Event::Admin { text })),
        EventWord::Open => Ok(read_session(arguments).map(|session| Event::Open { session })),
        EventWord::Client => read_client(alloc, arguments),
        EventWord::Bytes => Ok(read_bytes(alloc, arguments)?.map(|(
            session,
            bytes,
        )| Event::FromPeer { session, bytes })),
        EventWord::Up => Ok(read_count(arguments).map(|(session, most)| Event::Up {
            session,
            most,
        })),
        EventWord::Down => Ok(read_count(arguments).map(|(session, most)| Event::Down {
            session,
            most,
        })),
        EventWord::Step => Ok(read_session(arguments).map(|session| Event::Step { session })),
        EventWord::Run => Ok(read_session(arguments).map(|session| Event::Run { session })),
        EventWord::Say => Ok(read_text(alloc, arguments)?.map(|(session, text)| Event::Say {
            session,
            text,
        })),
        EventWord::Command => Ok(read_bytes(alloc, arguments)?.map(|(
            session,
            payload,
        )| Event::Command { session, payload })),
        EventWord::Close => Ok(read_session(arguments).map(|session| Event::Close { session })),
        EventWord::Cut => Ok(read_session(arguments).map(|session| Event::Cut { session })),
        EventWord::Fail => Ok(read_fault(arguments)),
    }
}
