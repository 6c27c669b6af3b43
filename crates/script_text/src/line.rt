//! A line of a script, and what it says.

ghost use Rattle.account_machine.specs.Openings.{is_opening_password, is_opening_user};
ghost use Rattle.script_text.specs.Lines.{IsGiven, keyword_of, line_of, opening_of, said_by, setting_of};
ghost use Rattle.script_text.specs.Words.{number_word, pair};
ghost use Rattle.std.specs.Prelude.{◌≡◌, IfOk, option_map};

use crate::event::Event;
use crate::event_line::{EventWord, event_word_of, read_event};
use crate::words::{Words, bytes_of, number_of};
use account_history::Opening;
use lg_base::Memory;
use std::alloc::Global;

/// The words that a line may begin with.
#[derive(Clone, Copy, Debug, PartialEq, Eq)]
pub enum Keyword {
    Account,
    Set,
    Event(EventWord),
    End,
}

/// A setting of the server, with its value.
#[derive(Clone, Copy, Debug, PartialEq, Eq)]
pub enum Setting {
    Lifetime(u16),
    History(u16),
    Reuse(u16),
    Disconnect(bool),
}

/// What a line says.
#[derive(Debug, Drop)]
pub enum Line {
    /// Nothing: it has no bytes or begins with `#`.
    Skipped,
    /// A native account stands from the start.
    Account(Opening),
    /// A setting has this value.
    Set(Setting),
    /// This happens.
    Happens(Event),
    /// The script ends.
    End,
}

/// The word that a line begins with.
#[tactic(auto, unfolding(crate::specs::Lines::keyword_of))]
fn keyword_of(word: &[u8]) -> Option<Keyword>
    ensures { result ≡ keyword_of word.now }
{
    if word == b"account".as_slice() {
        Some(Keyword::Account)
    } else if word == b"set".as_slice() {
        Some(Keyword::Set)
    } else if word == b"end".as_slice() {
        Some(Keyword::End)
    } else {
        event_word_of(word).map(|word| Keyword::Event(word))
    }
}

/// Whether a start may add an account of this user: 1 to 32 bytes without 00, and not `root`.
fn is_user(user: &[u8]) -> bool
    ensures { result ≡ is_opening_user user.now }
{
    !user.is_empty() && user.len() <= 32 && !user.contains(&0) && user != b"root".as_slice()
}

/// Whether such an account may have this password: at most 256 bytes without 00.
fn is_password(password: &[u8]) -> bool
    ensures { result ≡ is_opening_password password.now }
{
    password.len() <= 256 && !password.contains(&0)
}

/// The account of `account HEX HEX`.
fn read_account(alloc: Global, arguments: &Words) -> Result<Option<Opening>, Memory>
    ensures { IfOk result (λ found. found ≡ opening_of (pair arguments.now)) }
{
    let Some((user, password)) = arguments.two() else {
        return Ok(None);
    };
    let Some(user) = bytes_of(alloc, user)? else {
        return Ok(None);
    };
    let Some(password) = bytes_of(alloc, password)? else {
        return Ok(None);
    };
    if is_user(user.as_slice()) && is_password(password.as_slice()) {
        Ok(Some(Opening { user, password }))
    } else {
        Ok(None)
    }
}

/// The number of a setting's days or passwords.
fn small(number: &[u8], most: u16) -> Option<u16>
    ensures { result ≡ number_word most number.now }
{
    match number_of(number, u64::from(most)) {
        None => None,
        Some(number) => Some(number as u16),
    }
}

/// The setting of `set NAME N`.
#[tactic(auto, unfolding(crate::specs::Lines::setting_of))]
fn read_setting(arguments: &Words) -> Option<Setting>
    ensures { result ≡ setting_of (pair arguments.now) }
{
    let (name, number) = arguments.two()?;
    if name == b"lifetime".as_slice() {
        Some(Setting::Lifetime(small(number, 65535)?))
    } else if name == b"history".as_slice() {
        Some(Setting::History(small(number, 256)?))
    } else if name == b"reuse".as_slice() {
        Some(Setting::Reuse(small(number, 65535)?))
    } else if name == b"disconnect".as_slice() {
        Some(Setting::Disconnect(small(number, 1)? == 1))
    } else {
        None
    }
}

/// What a line says by its first word and the words behind it.
fn said_by(alloc: Global, keyword: Keyword, arguments: &Words) -> Result<Option<Line>, Memory>
    ensures { IfOk result (λ found. found ≡ said_by keyword arguments.now) }
{
    match keyword {
        Keyword::Account => Ok(read_account(alloc, arguments)?.map(|opening| Line::Account(
            opening,
        ))),
        Keyword::Set => Ok(read_setting(arguments).map(|setting| Line::Set(setting))),
        Keyword::Event(word) => Ok(read_event(alloc, word, arguments)?.map(|event| Line::Happens(
            event,
        ))),
        Keyword::End => Ok(if arguments.is_empty() {
            Some(Line::End)
        } else {
            None
        }),
    }
}

/// What a line says, if it is one that a script may have.
pub fn read_line(alloc: Global, line: &[u8]) -> Result<Option<Line>, Memory>
    ensures said { IfOk result (λ found. found ≡ line_of line.now) }
    ensures given { IfOk result IsGiven }
{
    match line {
        [] | [b'#', ..] => return Ok(Some(Line::Skipped)),
        _ => {}
    }
    let (word, arguments) = Words::split(line);
    match keyword_of(word) {
        None => Ok(None),
        Some(keyword) => said_by(alloc, keyword, &arguments),
    }
}
