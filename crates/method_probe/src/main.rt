//! Asks the authentication methods, one case a line, as tests of `native_scramble`, `caching_sha2`, `sha256_crypt` and
//! `password_history`:
//!
//! | Line | Answered by |
//! |---|---|
//! | `native PASSWORD NONCE` | the stored text, and the answer to the nonce |
//! | `native-right TEXT NONCE RESPONSE` | whether the response is right for the stored text |
//! | `native-stored TEXT` | whether the text is a stored one, and the text that is written of it |
//! | `caching PASSWORD NONCE` | the digest, and the fast response to the nonce |
//! | `caching-right DIGEST NONCE RESPONSE` | whether the response is right for the digest |
//! | `caching-stored TEXT` | the thousands of rounds, the salt and the sum that the text spells, and whether it is written so |
//! | `salt NUMBER` | the byte of a salt that a number writes, and whether the number is a byte of salts |
//! | `used PASSWORD PAST..` | which of the past passwords the password fits |
//! | `forbids PASSWORD HISTORY REUSE NOW PAST..` | whether the password may not be used again |
//! | `full REUSE NOW COUNT MOMENT` | whether a list is full of so many passwords of one moment |
//! | `remember COUNT REUSE NOW` | the moments that are kept of so many passwords, set from 0 on, and whether the list is full |
//!
//! Bytes stand in hexadecimal digits, `-` is none. A past password is `MOMENT,STORED`, newest first, and what is stored is
//! `empty`, `native,HEX` or `sha2,THOUSANDS,SALT,SUM`. The lines and their answers come from
//! password_history/vectors/methods.py.
#![tactic(auto)]

mod caching;
mod history;
mod native;
mod words;

use std::io;

fn answer(rt: &HostRuntime, kind: &str, words: &[&str]) -> io::Result<()> {
    match kind {
        "native" => native::answer(rt, words),
        "native-right" => native::answer_right(rt, words),
        "native-stored" => native::answer_stored(rt, words),
        "caching" => caching::answer(rt, words),
        "caching-right" => caching::answer_right(rt, words),
        "caching-stored" => caching::answer_stored(rt, words),
        "salt" => caching::answer_salt(rt, words),
        "used" => history::answer_used(rt, words),
        "forbids" => history::answer_forbids(rt, words),
        "full" => history::answer_full(rt, words),
        "remember" => history::answer_remember(rt, words),
        _ => println!(rt; "no kind"),
    }
}

fn main(rt: HostRuntime) -> io::Result<()> {
    for line in rt.lines(rt.alloc()) {
        let line = line?;
        let words: Vec<&str> = line.as_str().split(' ').collect(rt.alloc())?;
        match words.as_slice() {
            [kind, words @ ..] => answer(&rt, *kind, words)?,
            [] => println!(rt; "no line")?,
        }
    }
    Ok(())
}
