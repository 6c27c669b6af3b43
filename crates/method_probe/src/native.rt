//! mysql_native_password.

use crate::words::{array_of, bytes_of, no_line, print_whether};
use native_scramble::{read_stored, respond, right, stage2, write_stored};
use std::{io, str};

fn text_of(stored: &[u8; 41]) -> &str {
    str::from_utf8(stored).unwrap_or("no text")
}

pub fn answer(rt: &HostRuntime, words: &[&str]) -> io::Result<()> {
    let [password, nonce] = words else {
        return no_line(rt);
    };
    let Some(nonce) = array_of::<20>(rt.alloc(), *nonce) else {
        return no_line(rt);
    };
    let password = bytes_of(rt.alloc(), *password);
    let stored = write_stored(&stage2(password.as_slice()));
    let response = respond(password.as_slice(), &nonce);
    let response = hex::encode(rt.alloc(), response.as_slice())?;
    println!(rt; "{} {response}", text_of(&stored))
}

pub fn answer_right(rt: &HostRuntime, words: &[&str]) -> io::Result<()> {
    let [text, nonce, response] = words else {
        return no_line(rt);
    };
    let (Some(stored), Some(nonce), Some(response)) = (
        read_stored(text.as_bytes()),
        array_of::<20>(rt.alloc(), *nonce),
        array_of::<20>(rt.alloc(), *response),
    ) else {
        return no_line(rt);
    };
    print_whether(rt, right(&stored, &nonce, &response))
}

pub fn answer_stored(rt: &HostRuntime, words: &[&str]) -> io::Result<()> {
    let [text] = words else {
        return no_line(rt);
    };
    match read_stored(bytes_of(rt.alloc(), *text).as_slice()) {
        Some(stored) => println!(rt; "{}", text_of(&write_stored(&stored))),
        None => println!(rt; "none"),
    }
}
