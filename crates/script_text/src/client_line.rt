//! A line of a script by which a session with a login client begins.

ghost use Rattle.script_text.specs.ClientLines.{flags_word, is_client, secret_of, secrets_of};
ghost use Rattle.script_text.specs.EventLines.{client_of};
ghost use Rattle.script_text.specs.Words.{one_to_three};
ghost use Rattle.std.specs.Option.{option_copied};
ghost use Rattle.std.specs.Prelude.{◌≡◌, IfOk};

use crate::event::Event;
use crate::words::{Words, bytes_of, session_of};
use lg_base::{Bytes, Memory};
use login_client::{ClientOptions, Secrets, has_no_zero};
use std::alloc::Global;

/// The flags of a word of eight hexadecimal digits.
fn flags_of(alloc: Global, word: &[u8]) -> Result<Option<u32>, Memory>
    ensures { IfOk result (λ found. found ≡ flags_word word.now) }
{
    let Some(bytes) = bytes_of(alloc, word)? else {
        return Ok(None);
    };
    match bytes.as_slice() {
        [a, b, c, d] => Ok(Some(u32::from_be_bytes([*a, *b, *c, *d]))),
        _ => Ok(None),
    }
}

/// The secret of a word, if one stands there.
fn secret_of(alloc: Global, word: Option<&[u8]>) -> Result<Option<Option<Bytes>>, Memory>
    ensures { IfOk result (λ found. found ≡ secret_of (option_copied word.entry)) }
{
    match word {
        None => Ok(Some(None)),
        Some(word) => Ok(bytes_of(alloc, word)?.map(|secret| Some(secret))),
    }
}

/// The secrets of one to three words.
fn read_secrets(alloc: Global, words: &Words) -> Result<Option<Secrets>, Memory>
    ensures { IfOk result (λ found. found ≡ secrets_of (one_to_three words.now)) }
{
    let Some((first, second, third)) = words.one_to_three() else {
        return Ok(None);
    };
    let Some(first) = bytes_of(alloc, first)? else {
        return Ok(None);
    };
    let Some(second) = secret_of(alloc, second)? else {
        return Ok(None);
    };
    let Some(third) = secret_of(alloc, third)? else {
        return Ok(None);
    };
    Ok(Some(Secrets {
        first,
        second,
        third,
    }))
}

/// Whether a client can log in with this.
fn is_client(flags: u32, user: &[u8], secrets: &Secrets) -> bool
    ensures { result ≡ is_client flags user.now secrets.now }
{
    let options = ClientOptions { flags, clear: true };
    if !options.are_usable() {
        return false;
    }
    if !has_no_zero(user) {
        return false;
    }
    secrets.are_fit()
}

/// What happens by `client S FLAGS HEX HEX [HEX] [HEX]`.
pub fn read_client(alloc: Global, arguments: &Words) -> Result<Option<Event>, Memory>
    ensures { IfOk result (λ found. found ≡ client_of arguments.now) }
{
    let Some((session, words)) = arguments.next() else {
        return Ok(None);
    };
    let Some((flags, words)) = words.next() else {
        return Ok(None);
    };
    let Some((user, words)) = words.next() else {
        return Ok(None);
    };
    let Some(session) = session_of(session) else {
        return Ok(None);
    };
    let Some(flags) = flags_of(alloc, flags)? else {
        return Ok(None);
    };
    let Some(user) = bytes_of(alloc, user)? else {
        return Ok(None);
    };
    let Some(secrets) = read_secrets(alloc, &words)? else {
        return Ok(None);
    };
    if !is_client(flags, user.as_slice(), &secrets) {
        return Ok(None);
    }
    Ok(Some(Event::Client {
        session,
        flags,
        user,
        secrets,
    }))
}
