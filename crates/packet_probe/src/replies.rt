//! What the server sends behind the greeting.

use crate::printing::{print_bytes, print_fault, print_number, print_written};
use auth_packets::{EofPacket, ErrPacket, More, NextFactor, OkPacket, Switch};
use lg_base::Out;
use std::io;

pub fn switch(rt: &HostRuntime, payload: &[u8]) -> io::Result<()> {
    match Switch::read(rt.alloc(), payload) {
        Err(fault) => print_fault(rt, fault),
        Ok(switch) if switch.is_whole() => {
            print_bytes(rt, "plugin", switch.plugin.as_slice())?;
            print_bytes(rt, "body", switch.body.as_slice())?;
            let mut out = Out::new(rt.alloc());
            let written = switch.write(&mut out);
            print_written(rt, payload, written, &out)
        }
        Ok(_) => println!(rt; "not whole"),
    }
}

pub fn more(rt: &HostRuntime, payload: &[u8]) -> io::Result<()> {
    match More::read(rt.alloc(), payload) {
        Err(fault) => print_fault(rt, fault),
        Ok(more) if more.is_whole() => {
            print_bytes(rt, "body", more.body.as_slice())?;
            let mut out = Out::new(rt.alloc());
            let written = more.write(&mut out);
            print_written(rt, payload, written, &out)
        }
        Ok(_) => println!(rt; "not whole"),
    }
}

pub fn next_factor(rt: &HostRuntime, payload: &[u8]) -> io::Result<()> {
    match NextFactor::read(rt.alloc(), payload) {
        Err(fault) => print_fault(rt, fault),
        Ok(next) if next.is_whole() => {
            print_bytes(rt, "plugin", next.plugin.as_slice())?;
            print_bytes(rt, "body", next.body.as_slice())?;
            let mut out = Out::new(rt.alloc());
            let written = next.write(&mut out);
            print_written(rt, payload, written, &out)
        }
        Ok(_) => println!(rt; "not whole"),
    }
}

fn ok_fields(rt: &HostRuntime, ok: &OkPacket) -> io::Result<()> {
    print_number(rt, "affected", ok.affected)?;
    print_number(rt, "last_id", ok.last_id)?;
    print_number(rt, "status", u64::from(ok.status))?;
    print_number(rt, "warnings", u64::from(ok.warnings))?;
    print_bytes(rt, "info", ok.info.as_slice())
}

pub fn ok(rt: &HostRuntime, payload: &[u8]) -> io::Result<()> {
    match OkPacket::read(rt.alloc(), payload) {
        Err(fault) => print_fault(rt, fault),
        Ok(ok) if ok.is_whole() => {
            ok_fields(rt, &ok)?;
            let mut out = Out::new(rt.alloc());
            let written = ok.write(&mut out);
            print_written(rt, payload, written, &out)
        }
        Ok(_) => println!(rt; "not whole"),
    }
}

pub fn err(rt: &HostRuntime, payload: &[u8]) -> io::Result<()> {
    match ErrPacket::read(rt.alloc(), payload) {
        Err(fault) => print_fault(rt, fault),
        Ok(err) if err.is_whole() => {
            print_number(rt, "number", u64::from(err.number))?;
            print_bytes(rt, "state", err.state.as_slice())?;
            print_bytes(rt, "text", err.text.as_slice())?;
            let mut out = Out::new(rt.alloc());
            let written = err.write(&mut out);
            print_written(rt, payload, written, &out)
        }
        Ok(_) => println!(rt; "not whole"),
    }
}

pub fn eof(rt: &HostRuntime, payload: &[u8]) -> io::Result<()> {
    match EofPacket::read(payload) {
        Err(fault) => print_fault(rt, fault),
        Ok(eof) if eof.is_whole() => {
            print_number(rt, "warnings", u64::from(eof.warnings))?;
            print_number(rt, "status", u64::from(eof.status))?;
            let mut out = Out::new(rt.alloc());
            let written = eof.write(&mut out);
            print_written(rt, payload, written, &out)
        }
        Ok(_) => println!(rt; "not whole"),
    }
}
