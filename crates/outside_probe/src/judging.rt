//! Verifiers, and what they answer.

use crate::telling::parted;
use crate::{Fault, numbers};
use lg_base::{Bytes, Items, Memory};
use server_outside::{Accepted, ListVerifier, Verifier};
use std::alloc::Global;

/// The password `1234` of ann at the factor `pin`.
pub fn one_accepted(alloc: Global) -> Result<Items<Accepted>, Memory> {
    let mut accepted = Items::new(alloc);
    accepted.push(Accepted {
        label: Bytes::copy(alloc, b"pin")?,
        user: Bytes::copy(alloc, b"ann")?,
        password: Bytes::copy(alloc, b"1234")?,
    })?;
    Ok(accepted)
}

/// Asks a verifier, and prints its answer.
pub fn print_verdict<V: Verifier>(
    rt: &HostRuntime,
    verifier: &mut V,
    password: &[u8],
) -> Result<(), Fault> {
    match verifier.verify(b"pin", b"ann", password) {
        Ok(true) => println!(rt; "right")?,
        Ok(false) => println!(rt; "wrong")?,
        Err(_) => {
            let faults = verifier.faults();
            println!(rt; "failed {faults}")?;
        }
    }
    Ok(())
}

pub fn judge(rt: &HostRuntime, rest: &str) -> Result<(), Fault> {
    let (failing, words) = parted(rest)?;
    let accepted = one_accepted(rt.alloc())?;
    let mut verifier = ListVerifier::new(accepted, numbers(rt.alloc(), failing)?);
    for word in words.split(' ') {
        if word == "+" {
            verifier.fail_next()?;
        } else {
            print_verdict(rt, &mut verifier, word.as_bytes())?;
        }
    }
    Ok(())
}
