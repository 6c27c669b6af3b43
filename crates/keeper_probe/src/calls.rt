//! The calls of a keeper, as lines say them.

use std::alloc::Global;

/// A call, or several.
#[derive(Drop)]
pub enum Call<'a> {
    Attach(&'a str),
    Put(u64, Vec<u8>),
    Remove(u64),
    Load,
    Loads(u64),
    Fill(u64, u64, usize),
    Away,
}

/// The bytes of a word in hexadecimal, none for `-`.
fn bytes_of(alloc: Global, text: &str) -> Option<Vec<u8>> {
    if text == "-" {
        return Some(Vec::new(alloc));
    }
    hex::decode(alloc, text).ok()
}

fn read_put(alloc: Global, rest: &str) -> Option<Call<'static>> {
    let (key, text) = rest.split_once(' ')?;
    let key = key.parse::<u64>().ok()?;
    Some(Call::Put(key, bytes_of(alloc, text)?))
}

fn read_fill(rest: &str) -> Option<Call<'static>> {
    let (first, rest) = rest.split_once(' ')?;
    let (count, size) = rest.split_once(' ')?;
    Some(Call::Fill(
        first.parse::<u64>().ok()?,
        count.parse::<u64>().ok()?,
        size.parse::<usize>().ok()?,
    ))
}

/// The call of a line.
pub fn read_call<'a>(alloc: Global, line: &'a str) -> Option<Call<'a>> {
    let (name, rest) = line.split_once(' ').unwrap_or((line, ""));
    match name {
        "attach" => Some(Call::Attach(rest)),
        "put" => read_put(alloc, rest),
        "remove" => Some(Call::Remove(rest.parse::<u64>().ok()?)),
        "load" => Some(Call::Load),
        "loads" => Some(Call::Loads(rest.parse::<u64>().ok()?)),
        "fill" => read_fill(rest),
        "away" => Some(Call::Away),
        _ => None,
    }
}
