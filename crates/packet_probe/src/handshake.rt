//! The greeting and the response to it.

use crate::printing::{print_bytes, print_fault, print_held, print_number, print_written};
use auth_packets::{Greeting, Response};
use lg_base::{Bytes, Out};
use std::io;

fn greeting_fields(rt: &HostRuntime, greeting: &Greeting) -> io::Result<()> {
    print_bytes(rt, "version", greeting.version.as_slice())?;
    print_number(rt, "id", u64::from(greeting.id))?;
    print_bytes(rt, "nonce", greeting.nonce.as_slice())?;
    print_number(rt, "flags", u64::from(greeting.flags))?;
    print_number(rt, "charset", u64::from(greeting.charset))?;
    print_number(rt, "status", u64::from(greeting.status))?;
    print_bytes(rt, "plugin", greeting.plugin.as_slice())
}

pub fn greeting(rt: &HostRuntime, payload: &[u8]) -> io::Result<()> {
    match Greeting::read(rt.alloc(), payload) {
        Err(fault) => print_fault(rt, fault),
        Ok(greeting) if greeting.is_whole() => {
            greeting_fields(rt, &greeting)?;
            let mut out = Out::new(rt.alloc());
            let written = greeting.write(&mut out);
            print_written(rt, payload, written, &out)
        }
        Ok(_) => println!(rt; "not whole"),
    }
}

fn held(bytes: &Option<Bytes>) -> Option<&[u8]> {
    match bytes {
        Some(bytes) => Some(bytes.as_slice()),
        None => None,
    }
}

fn response_fields(rt: &HostRuntime, response: &Response) -> io::Result<()> {
    print_number(rt, "flags", u64::from(response.flags))?;
    print_number(rt, "max_packet", u64::from(response.max_packet))?;
    print_number(rt, "charset", u64::from(response.charset))?;
    print_bytes(rt, "user", response.user.as_slice())?;
    print_bytes(rt, "auth", response.auth.as_slice())?;
    print_held(rt, "database", held(&response.database))?;
    print_bytes(rt, "plugin", response.plugin.as_slice())?;
    print_held(rt, "attributes", held(&response.attributes))?;
    print_bytes(rt, "rest", response.rest.as_slice())
}

pub fn response(rt: &HostRuntime, payload: &[u8]) -> io::Result<()> {
    match Response::read(rt.alloc(), payload) {
        Err(fault) => print_fault(rt, fault),
        Ok(response) if response.is_whole() => {
            response_fields(rt, &response)?;
            let mut out = Out::new(rt.alloc());
            let written = response.write(&mut out);
            print_written(rt, payload, written, &out)
        }
        Ok(_) => println!(rt; "not whole"),
    }
}
