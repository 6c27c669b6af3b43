//! The commands of an open session.

use crate::printing::{print_bytes, print_fault, print_number, print_written};
use auth_packets::{ChangeUser, Command};
use lg_base::Out;
use std::io;

fn change_fields(rt: &HostRuntime, change: &ChangeUser) -> io::Result<()> {
    print_bytes(rt, "user", change.user.as_slice())?;
    print_bytes(rt, "auth", change.auth.as_slice())?;
    print_bytes(rt, "database", change.database.as_slice())?;
    print_bytes(rt, "rest", change.rest.as_slice())
}

pub fn change_user(rt: &HostRuntime, payload: &[u8]) -> io::Result<()> {
    match ChangeUser::read(rt.alloc(), payload) {
        Err(fault) => print_fault(rt, fault),
        Ok(change) if change.is_whole() => {
            change_fields(rt, &change)?;
            let mut out = Out::new(rt.alloc());
            let written = change.write(&mut out);
            print_written(rt, payload, written, &out)
        }
        Ok(_) => println!(rt; "not whole"),
    }
}

fn command_fields(rt: &HostRuntime, command: &Command) -> io::Result<()> {
    match command {
        Command::Quit => print!(rt; "quit "),
        Command::Query { text } => print_bytes(rt, "query", text.as_slice()),
        Command::Ping => print!(rt; "ping "),
        Command::Reset => print!(rt; "reset "),
        Command::ChangeUser(change) => change_fields(rt, change),
        Command::Other { first } => print_number(rt, "other", u64::from(*first)),
        Command::Nothing => print!(rt; "nothing "),
    }
}

pub fn command(rt: &HostRuntime, payload: &[u8]) -> io::Result<()> {
    match Command::read(rt.alloc(), payload) {
        Err(fault) => print_fault(rt, fault),
        Ok(command) if command.is_whole() => {
            command_fields(rt, &command)?;
            let mut out = Out::new(rt.alloc());
            let written = command.write(&mut out);
            print_written(rt, payload, written, &out)
        }
        Ok(_) => println!(rt; "not whole"),
    }
}

/// Whether another command may begin with the byte, which no payload spells for those that are known.
pub fn other(rt: &HostRuntime, payload: &[u8]) -> io::Result<()> {
    match payload {
        [first] if (Command::Other { first: *first }).is_whole() => println!(rt; "whole"),
        [_] => println!(rt; "not whole"),
        _ => println!(rt; "no byte"),
    }
}
