//! Clocks and draws, and what they give.

use crate::{Fault, numbers};
use server_outside::{
    ChaChaDraws, Clock, CountedDraws, Draws, ListClock, SystemClock, random_seed,
};
use std::io;
use std::random::RandomSource;
use std::time::{Clock as TellsTime, Duration};

/// The number that a word is.
pub fn number(text: &str) -> Result<u64, Fault> {
    match text.parse::<u64>() {
        Ok(number) => Ok(number),
        Err(_) => Err(Fault::Line),
    }
}

/// The first word, and the rest behind a space.
pub fn parted(text: &str) -> Result<(&str, &str), Fault> {
    match text.split_once(' ') {
        Some(parts) => Ok(parts),
        None => Err(Fault::Line),
    }
}

/// Prints so many readings.
pub fn print_readings<C: Clock>(rt: &HostRuntime, clock: &mut C, count: u64) -> Result<(), Fault> {
    for _ in 0..count {
        let reading = clock.now();
        println!(rt; "reading {reading}")?;
    }
    Ok(())
}

/// Prints so many draws.
pub fn print_draws<D: Draws>(rt: &HostRuntime, draws: &mut D, count: u64) -> Result<(), Fault> {
    for _ in 0..count {
        let letters = draws.draw();
        match str::from_utf8(&letters) {
            Ok(text) => println!(rt; "draw {text}")?,
            Err(_) => println!(rt; "draw of other bytes")?,
        }
    }
    Ok(())
}

pub fn readings(rt: &HostRuntime, rest: &str) -> Result<(), Fault> {
    let (list, count) = parted(rest)?;
    let mut clock = ListClock::new(numbers(rt.alloc(), list)?);
    print_readings(rt, &mut clock, number(count)?)
}

/// A time that stands still, where there is one.
#[derive(Drop)]
struct Still {
    seconds: Option<u64>,
}

impl TellsTime for Still {
    fn monotonic(&self) -> io::Result<Duration> {
        self.since_1970()
    }

    fn since_1970(&self) -> io::Result<Duration> {
        match self.seconds {
            Some(seconds) => Ok(Duration::from_secs(seconds)),
            None => Err(io::Error::from(io::ErrorKind::Other)),
        }
    }
}

pub fn system(rt: &HostRuntime, rest: &str) -> Result<(), Fault> {
    let seconds = match rest {
        "-" => None,
        _ => Some(number(rest)?),
    };
    print_readings(rt, &mut SystemClock::new(Still { seconds }), 1)
}

pub fn counted(rt: &HostRuntime, rest: &str) -> Result<(), Fault> {
    let mut draws = CountedDraws::new();
    print_draws(rt, &mut draws, number(rest)?)
}

pub fn chacha(rt: &HostRuntime, rest: &str) -> Result<(), Fault> {
    let (text, rest) = parted(rest)?;
    let (id, count) = parted(rest)?;
    let mut seed = [0u8; 32];
    let Ok(()) = hex::decode_to_slice(text, &mut seed) else {
        return Err(Fault::Line);
    };
    let Ok(id) = id.parse::<u32>() else {
        return Err(Fault::Line);
    };
    let mut draws = ChaChaDraws::new(seed, id);
    print_draws(rt, &mut draws, number(count)?)
}

/// A source of bytes that are all alike.
#[derive(Drop)]
struct Alike {
    byte: u8,
}

impl RandomSource for Alike {
    fn fill_bytes(&self, buf: &mut [u8]) -> io::Result<()> {
        buf.fill(self.byte);
        Ok(())
    }
}

pub fn seed(rt: &HostRuntime, rest: &str) -> Result<(), Fault> {
    let Ok(byte) = rest.parse::<u8>() else {
        return Err(Fault::Line);
    };
    let seed = random_seed(&Alike { byte })?;
    let text = hex::encode(rt.alloc(), seed).map_err(|_| Fault::Memory)?;
    println!(rt; "seed {text}")?;
    Ok(())
}
