//! Prints sums of SHA-256 crypt, as tests of `sha256_crypt` and for comparison with other implementations, as
//! interop/crypt_check does. Each line of input is `PASSWORD SALT ROUNDS`, the first two in hexadecimal or `-` where they are
//! empty, and is answered by its sum, or by `bad` where it isn't of this form. The lines and their answers come from
//! interop/crypt_vectors.py.
#![tactic(auto)]

use sha256_crypt::crypt;
use std::alloc::Global;
use std::io;

/// The bytes of a word in hexadecimal, or of `-`, which has none.
fn bytes_of(alloc: Global, word: &str) -> Option<Vec<u8>> {
    if word == "-" {
        return Some(Vec::new(alloc));
    }
    hex::decode(alloc, word).ok()
}

/// The sum that a line asks for.
fn sum_of(alloc: Global, line: &str) -> Option<[u8; 43]> {
    let (password, rest) = line.split_once(' ')?;
    let (salt, rounds) = rest.split_once(' ')?;
    let password = bytes_of(alloc, password)?;
    let salt = bytes_of(alloc, salt)?;
    let rounds = rounds.parse::<u32>().ok()?;
    if password.len() > 256 || salt.len() > 20 || rounds == 0 || rounds > 4_095_000 {
        return None;
    }
    Some(crypt(password.as_slice(), salt.as_slice(), rounds))
}

fn main(rt: HostRuntime) -> io::Result<()> {
    for line in rt.lines(rt.alloc()) {
        match sum_of(rt.alloc(), line?.as_str()) {
            Some(sum) => println!(rt; "{}", str::from_utf8(&sum).unwrap_or("bad"))?,
            None => println!(rt; "bad")?,
        }
    }
    Ok(())
}
