//! A door in memory, and the links that it gives.

ghost use Rattle.server_outside.specs.Foyers.{IsNew};
ghost use Rattle.std.specs.List.{All};
ghost use Rattle.std.specs.Prelude.{◌≡◌, IfOk, false};

use crate::telling::{number, parted};
use crate::{Fault, numbers};
use lg_base::{Bytes, Items, Memory};
use lg_outside::{Link, MemoryLink};
use server_outside::{Door, MemoryDoor};
use std::alloc::Global;

/// A link with one byte.
fn one_link(alloc: Global, byte: u8) -> Result<MemoryLink, Memory>
    ensures { IfOk result IsNew }
{
    let made = MemoryLink::new(
        alloc,
        Bytes::copy(alloc, &[byte])?,
        0,
        true,
        Items::new(alloc),
    )?;
    Ok(made)
}

/// Links with the bytes `a` and `b`.
fn two_links(alloc: Global) -> Result<Items<MemoryLink>, Memory>
    ensures { IfOk result (All IsNew) }
{
    let mut links = Items::new(alloc);
    links.push(one_link(alloc, b'a')?)?;
    links.push(one_link(alloc, b'b')?)?;
    Ok(links)
}

/// Prints the byte that a link brings.
fn print_byte(rt: &HostRuntime, link: &mut MemoryLink) -> Result<(), Fault>
    requires { link.old.finished ≡ false }
{
    let mut room = [0u8; 1];
    match link.read(&mut room) {
        Ok(1) => {
            let letter = char::from(room[0]);
            println!(rt; "link {letter}")?;
        }
        _ => println!(rt; "link without a byte")?,
    }
    Ok(())
}

/// Takes the next link and gives it back.
fn take_next(rt: &HostRuntime, door: &mut MemoryDoor) -> Result<(), Fault> {
    match door.next() {
        Ok(Some(mut link)) => {
            let printed = print_byte(rt, &mut link);
            link.finish();
            door.done(link);
            printed?;
        }
        Ok(None) => println!(rt; "closed")?,
        Err(_) => {
            let faults = door.faults();
            println!(rt; "failed {faults}")?;
        }
    }
    Ok(())
}

pub fn open(rt: &HostRuntime, rest: &str) -> Result<(), Fault> {
    let (failing, count) = parted(rest)?;
    let links = two_links(rt.alloc())?;
    let mut door = MemoryDoor::new(rt.alloc(), links, numbers(rt.alloc(), failing)?)?;
    match door.listen("here") {
        Ok(()) => println!(rt; "open")?,
        Err(_) => println!(rt; "failed")?,
    }
    for _ in 0..number(count)? {
        take_next(rt, &mut door)?;
    }
    let back = door.given_back().len();
    println!(rt; "back {back}")?;
    Ok(())
}
