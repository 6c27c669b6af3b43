//! A maker in memory, and what it makes.

use crate::judging::{one_accepted, print_verdict};
use crate::telling::{parted, print_draws, print_readings};
use crate::{Fault, numbers};
use server_outside::{ListMaker, Maker};

/// Seeds a maker, and prints whether that succeeded, and then the first draw of session 7.
fn print_seed(rt: &HostRuntime, maker: &mut ListMaker) -> Result<(), Fault> {
    match maker.seed() {
        Ok(()) => {
            println!(rt; "seeded")?;
            print_draws(rt, &mut maker.draws(7)?, 1)
        }
        Err(_) => {
            let faults = maker.faults();
            println!(rt; "failed {faults}")?;
            Ok(())
        }
    }
}

/// Prints a verdict of a verifier and a reading of a clock that a maker makes.
fn print_made(rt: &HostRuntime, maker: &mut ListMaker) -> Result<(), Fault> {
    print_verdict(rt, &mut maker.verifier(None)?, b"1234")?;
    print_readings(rt, &mut maker.clock()?, 1)
}

pub fn make(rt: &HostRuntime, rest: &str) -> Result<(), Fault> {
    let alloc = rt.alloc();
    let (failing, readings) = parted(rest)?;
    let accepted = one_accepted(alloc)?;
    let mut maker = ListMaker::new(
        accepted,
        numbers(alloc, "-")?,
        numbers(alloc, readings)?,
        numbers(alloc, failing)?,
    );
    print_seed(rt, &mut maker)?;
    print_seed(rt, &mut maker)?;
    print_made(rt, &mut maker)
}
