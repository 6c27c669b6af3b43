//! Reads scripts, one a line in hexadecimal, as tests of `script_text`. Each is answered by the number of its
//! first line that doesn't fit, or by its accounts, settings and events in one line, once the accounts and the clients that
//! it tells of were made. A number and a blank before the
//! script stand for so many lines `account` before it: it is answered by the number of its accounts and the user of the
//! last one. The scripts and their answers come from script_text/vectors/scripts.py.
#![tactic(auto)]

mod beginning;
mod many;
mod printing;

use script_text::{Script, ScriptFault, Setup};
use std::io;

fn print_setup(rt: &HostRuntime, setup: &Setup) -> io::Result<()> {
    for account in setup.accounts.as_slice() {
        print!(rt; "account")?;
        printing::print_bytes(rt, account.user.as_slice())?;
        printing::print_bytes(rt, account.password.as_slice())?;
        print!(rt; "; ")?;
    }
    let settings = setup.settings;
    print!(rt;
        "lifetime {} disconnect {}",
        settings.lifetime, settings.disconnect
    )?;
    print!(rt; " history {} reuse {}", settings.history, settings.reuse)
}

fn print_script(rt: &HostRuntime, script: &Script) -> io::Result<()> {
    print_setup(rt, script.setup())?;
    for event in script.events() {
        print!(rt; "; ")?;
        printing::print_event(rt, event)?;
    }
    println!(rt; "")
}

fn answer(rt: &HostRuntime, text: &[u8]) -> io::Result<()> {
    match Script::read(rt.alloc(), text) {
        Ok(script) => {
            if beginning::can_begin(rt.alloc(), &script) {
                print_script(rt, &script)
            } else {
                println!(rt; "can't begin")
            }
        }
        Err(ScriptFault::BadLine { line }) => println!(rt; "line {line}"),
        Err(ScriptFault::Memory) => println!(rt; "memory"),
    }
}

fn answer_line(rt: &HostRuntime, line: &str) -> io::Result<()> {
    match hex::decode(rt.alloc(), line) {
        Ok(text) => answer(rt, text.as_slice()),
        Err(_) => println!(rt; "no text"),
    }
}

fn main(rt: HostRuntime) -> io::Result<()> {
    for line in rt.lines(rt.alloc()) {
        let line = line?;
        match line.as_str().split_once(' ') {
            None => answer_line(&rt, line.as_str())?,
            Some((count, last)) => many::answer_many(&rt, count, last)?,
        }
    }
    Ok(())
}
