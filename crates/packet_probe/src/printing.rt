//! What is printed of a message: its fields, and how it is written.

use auth_packets::PacketFault;
use lg_base::{Memory, Out};
use std::io;

pub fn print_bytes(rt: &HostRuntime, name: &str, bytes: &[u8]) -> io::Result<()> {
    let text = hex::encode(rt.alloc(), bytes)?;
    print!(rt; "{name}={text} ")
}

pub fn print_held(rt: &HostRuntime, name: &str, bytes: Option<&[u8]>) -> io::Result<()> {
    match bytes {
        Some(bytes) => print_bytes(rt, name, bytes),
        None => print!(rt; "{name}:none "),
    }
}

pub fn print_number(rt: &HostRuntime, name: &str, number: u64) -> io::Result<()> {
    print!(rt; "{name}={number} ")
}

pub fn print_fault(rt: &HostRuntime, fault: PacketFault) -> io::Result<()> {
    match fault {
        PacketFault::Malformed { at } => println!(rt; "at {at}"),
        PacketFault::Memory => println!(rt; "memory"),
    }
}

/// What was written of a message that this payload spells.
pub fn print_written(
    rt: &HostRuntime,
    payload: &[u8],
    written: Result<(), Memory>,
    out: &Out,
) -> io::Result<()> {
    if written.is_err() {
        return println!(rt; "memory");
    }
    if out.as_slice() == payload {
        return println!(rt; "same");
    }
    let text = hex::encode(rt.alloc(), out.as_slice())?;
    println!(rt; "written={text}")
}
