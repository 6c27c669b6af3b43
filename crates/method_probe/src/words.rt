//! What words of a line stand for.

use caching_sha2::Sha2Stored;
use factor_chain::{PastRecord, Stored};
use lg_base::{Items, Memory};
use std::alloc::Global;
use std::io;

/// Bytes in hexadecimal digits, or none where there is `-` or no such digits.
pub fn bytes_of(alloc: Global, word: &str) -> Vec<u8> {
    hex::decode(alloc, word).unwrap_or(Vec::new(alloc))
}

/// So many bytes in hexadecimal digits.
pub fn array_of<const N: usize>(alloc: Global, word: &str) -> Option<[u8; N]> {
    <[u8; N]>::try_from(bytes_of(alloc, word).as_slice()).ok()
}

fn stored_of(alloc: Global, words: &[&str]) -> Option<Stored> {
    match words {
        ["empty"] => Some(Stored::Empty),
        ["native", hash] => Some(Stored::Native(array_of(alloc, *hash)?)),
        ["sha2", thousands, salt, sum] => Some(Stored::Sha2(Sha2Stored {
            thousands: thousands.parse::<u16>().ok()?,
            salt: <[u8; 20]>::try_from(salt.as_bytes()).ok()?,
            sum: <[u8; 43]>::try_from(sum.as_bytes()).ok()?,
        })),
        _ => None,
    }
}

fn record_of(alloc: Global, word: &str) -> Option<PastRecord> {
    let words: Vec<&str> = word.split(',').collect(alloc).ok()?;
    let [moment, stored @ ..] = words.as_slice() else {
        return None;
    };
    Some(PastRecord {
        moment: moment.parse::<u64>().ok()?,
        stored: stored_of(alloc, stored)?,
    })
}

/// The past passwords of words. One that is none is left out.
pub fn past_of(alloc: Global, words: &[&str]) -> Result<Items<PastRecord>, Memory> {
    let mut past = Items::new(alloc);
    for word in words {
        if let Some(record) = record_of(alloc, *word) {
            past.push(record)?;
        }
    }
    Ok(past)
}

pub fn print_whether(rt: &HostRuntime, is: bool) -> io::Result<()> {
    println!(rt; "{}", if is { "yes" } else { "no" })
}

pub fn no_line(rt: &HostRuntime) -> io::Result<()> {
    println!(rt; "no line")
}
