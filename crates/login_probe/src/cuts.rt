//! A client in parts, which is given what a server sends in two pieces, cut at every place.

ghost use Rattle.client_wire.specs.Ends.{standing_of};
ghost use Rattle.login_client.specs.Talk.{IsWaiting};
ghost use Rattle.std.specs.Prelude.{IfOk, IfSome};

use crate::{options_of, secrets_of};
use client_wire::{ClientEnd, add_words};
use lg_base::{Memory, Out};
use login_client::{LoginEnd, has_no_zero};
use std::alloc::Global;
use std::{io, str};

/// How a login ended, if it has, and what the client wrote.
#[derive(Drop)]
struct Outcome {
    end: Option<LoginEnd>,
    written: Out,
}

/// A client of `nat` on the server's machine. None where no client can be made, which doesn't happen.
fn client(alloc: Global) -> Result<Option<ClientEnd>, Memory>
    ensures { IfOk result (λ made. IfSome made (λ client. IsWaiting (standing_of client).at)) }
{
    let secrets = secrets_of(alloc, 1)?;
    let options = options_of(true);
    let user = b"nat";
    if !has_no_zero(user) || !secrets.are_fit() || !options.are_usable() {
        return Ok(None);
    }
    Ok(Some(ClientEnd::new(alloc, user, &secrets, &options, true)?))
}

/// What a new client comes to that is given bytes in two pieces, cut at a place.
fn give(alloc: Global, bytes: &[u8], cut: usize) -> Result<Option<Outcome>, Memory> {
    let (first, second) = bytes.split_at(cut.min(bytes.len()));
    let Some(mut client) = client(alloc)? else {
        return Ok(None);
    };
    let mut written = Out::new(alloc);
    let end = match client.get(alloc, first, &mut written)? {
        Some(end) => Some(end),
        None => client.get(alloc, second, &mut written)?,
    };
    Ok(Some(Outcome { end, written }))
}

/// Whether a client comes to the same wherever the bytes are cut.
fn is_cut_alike(alloc: Global, bytes: &[u8], whole: &Outcome) -> Result<bool, Memory> {
    for cut in 0..bytes.len() {
        let Some(cut) = give(alloc, bytes, cut)? else {
            return Ok(false);
        };
        if cut.end != whole.end || cut.written.as_slice() != whole.written.as_slice() {
            return Ok(false);
        }
    }
    Ok(true)
}

/// Prints the words of an end.
pub fn print_words(rt: &HostRuntime, end: LoginEnd) -> io::Result<()> {
    let mut words = Out::new(rt.alloc());
    if add_words(&mut words, end).is_err() {
        return print!(rt; "memory");
    }
    match str::from_utf8(words.as_slice()) {
        Ok(words) => print!(rt; "{words}"),
        Err(_) => print!(rt; "no text"),
    }
}

fn print_outcome(rt: &HostRuntime, outcome: &Outcome) -> io::Result<()> {
    match outcome.end {
        Some(end) => print_words(rt, end)?,
        None => print!(rt; "waits")?,
    }
    let written = hex::encode(rt.alloc(), outcome.written.as_slice())?;
    println!(rt; " written {written}")
}

/// Prints what a client comes to that is given bytes, or that it differs by where they are cut.
pub fn answer(rt: &HostRuntime, bytes: &[u8]) -> io::Result<()> {
    let Ok(Some(whole)) = give(rt.alloc(), bytes, bytes.len()) else {
        return println!(rt; "no client");
    };
    match is_cut_alike(rt.alloc(), bytes, &whole) {
        Ok(true) => print_outcome(rt, &whole),
        _ => println!(rt; "differs where it is cut"),
    }
}
