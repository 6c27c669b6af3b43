//! caching_sha2_password.

use crate::words::{array_of, bytes_of, no_line, print_whether};
use caching_sha2::{
    Sha2Stored, digest, fast_response, fast_right, is_salt_byte, read_stored, write_stored,
};
use sha256_crypt::salt_byte;
use std::{io, str};

pub fn answer(rt: &HostRuntime, words: &[&str]) -> io::Result<()> {
    let [password, nonce] = words else {
        return no_line(rt);
    };
    let Some(nonce) = array_of::<20>(rt.alloc(), *nonce) else {
        return no_line(rt);
    };
    let password = bytes_of(rt.alloc(), *password);
    let digest = hex::encode(rt.alloc(), digest(password.as_slice()).as_slice())?;
    let response = fast_response(password.as_slice(), &nonce);
    println!(rt;
        "{digest} {}",
        hex::encode(rt.alloc(), response.as_slice())?
    )
}

pub fn answer_right(rt: &HostRuntime, words: &[&str]) -> io::Result<()> {
    let [digest, nonce, response] = words else {
        return no_line(rt);
    };
    let (Some(digest), Some(nonce), Some(response)) = (
        array_of::<32>(rt.alloc(), *digest),
        array_of::<20>(rt.alloc(), *nonce),
        array_of::<32>(rt.alloc(), *response),
    ) else {
        return no_line(rt);
    };
    print_whether(rt, fast_right(&digest, &nonce, &response))
}

fn print_stored(rt: &HostRuntime, stored: &Sha2Stored, same: bool) -> io::Result<()> {
    let salt = str::from_utf8(&stored.salt).unwrap_or("no text");
    let sum = str::from_utf8(&stored.sum).unwrap_or("no text");
    print!(rt; "{} {salt} {sum} ", stored.thousands)?;
    println!(rt; "{}", if same { "same" } else { "other" })
}

pub fn answer_stored(rt: &HostRuntime, words: &[&str]) -> io::Result<()> {
    let [text] = words else {
        return no_line(rt);
    };
    let text = bytes_of(rt.alloc(), *text);
    match read_stored(text.as_slice()) {
        Some(stored) => {
            let same = write_stored(&stored).as_slice() == text.as_slice();
            print_stored(rt, &stored, same)
        }
        None => println!(rt; "none"),
    }
}

pub fn answer_salt(rt: &HostRuntime, words: &[&str]) -> io::Result<()> {
    let [number] = words else {
        return no_line(rt);
    };
    let number = number.parse::<u8>().unwrap_or(0);
    if number < 64 {
        print!(rt; "{} ", salt_byte(number))?;
    }
    print_whether(rt, is_salt_byte(number))
}
