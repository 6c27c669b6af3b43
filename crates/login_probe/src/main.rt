//! Logs in over links in memory, one a line, as tests of `login_client`: a line is
//! `PLACE CLEAR FACTORS FAILING HEX`, whether the server is `local` or `away`, whether the method in the clear is
//! `permitted` or `refused`, the number of factors that the client has a secret for, the call of the link that
//! fails (0 for none), and the bytes that the server sends. It is answered by the login's end, the words of the end, the
//! link's faults and what was written. `cut HEX` is asked of the client in parts of `client_wire`, whose bytes are cut at
//! every place. The lines and their answers come from login_client/vectors/logins.py.
#![tactic(auto)]

mod cuts;
mod printing;

use lg_base::{Bytes, Items, Memory};
use lg_outside::{Link, MemoryLink};
use login_client::{ClientOptions, LoginEnd, Secrets, has_no_zero, login};
use std::alloc::Global;
use std::io;

/// Where a login takes place.
#[derive(Drop)]
struct Place {
    local: bool,
    clear: bool,
    factors: u8,
    failing: u64,
}

fn place_of(local: &str, clear: &str, factors: &str, failing: &str) -> Place {
    Place {
        local: local == "local",
        clear: clear == "permitted",
        factors: factors.parse::<u8>().unwrap_or(0),
        failing: failing.parse::<u64>().unwrap_or(0),
    }
}

fn secret(alloc: Global, text: &[u8], there: bool) -> Result<Option<Bytes>, Memory> {
    if !there {
        return Ok(None);
    }
    Ok(Some(Bytes::copy(alloc, text)?))
}

fn secrets_of(alloc: Global, factors: u8) -> Result<Secrets, Memory> {
    Ok(Secrets {
        first: Bytes::copy(alloc, b"password")?,
        second: secret(alloc, b"two", factors > 1)?,
        third: secret(alloc, b"three", factors > 2)?,
    })
}

fn options_of(clear: bool) -> ClientOptions {
    ClientOptions {
        flags: 0x0008_8200,
        clear,
    }
}

/// Logs in as the user `nat`. None where no client can be made, which none of the lines asks for.
fn log_in(
    alloc: Global,
    place: &Place,
    sent: Bytes,
) -> Result<Option<(LoginEnd, MemoryLink)>, Memory> {
    let secrets = secrets_of(alloc, place.factors)?;
    let options = options_of(place.clear);
    let user = b"nat";
    if !has_no_zero(user) || !secrets.are_fit() || !options.are_usable() {
        return Ok(None);
    }
    let failing = Items::from_vec(Vec::from_slice(alloc, &[place.failing])?);
    let mut link = MemoryLink::new(alloc, sent, 4096, place.local, failing)?;
    let end = login(alloc, &mut link, user, &secrets, &options);
    Ok(Some((end, link)))
}

fn answer(rt: &HostRuntime, place: &Place, sent: Vec<u8>) -> io::Result<()> {
    match log_in(rt.alloc(), place, Bytes::from_vec(sent)) {
        Ok(Some((end, link))) => {
            printing::print_end(rt, end)?;
            print!(rt; " words ")?;
            cuts::print_words(rt, end)?;
            let written = hex::encode(rt.alloc(), link.written())?;
            println!(rt; " faults {} written {written}", link.faults())
        }
        Ok(None) => println!(rt; "no client"),
        Err(Memory) => println!(rt; "memory"),
    }
}

/// The bytes that stand in hexadecimal digits, or none.
fn sent_of(rt: &HostRuntime, text: &str) -> Vec<u8> {
    hex::decode(rt.alloc(), text).unwrap_or(Vec::new(rt.alloc()))
}

fn main(rt: HostRuntime) -> io::Result<()> {
    for line in rt.lines(rt.alloc()) {
        let line = line?;
        let words: Vec<&str> = line.as_str().split(' ').collect(rt.alloc())?;
        match words.as_slice() {
            ["cut", text] => cuts::answer(&rt, sent_of(&rt, *text).as_slice())?,
            [local, clear, factors, failing, text] => {
                let place = place_of(local, clear, factors, failing);
                answer(&rt, &place, sent_of(&rt, *text))?;
            }
            _ => println!(rt; "no login")?,
        }
    }
    Ok(())
}
