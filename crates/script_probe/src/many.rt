//! Scripts of many accounts, which stand in one short line.

use script_text::{Script, ScriptFault};
use std::alloc::{AllocError, Global};
use std::io;

/// Adds a line `account HEX -` whose user is the five digits of `number`.
fn add_account(text: &mut Vec<u8>, number: u32) -> Result<(), AllocError> {
    text.extend_from_slice(b"account ".as_slice())?;
    for place in [10000, 1000, 100, 10, 1] {
        let digit = (number / place % 10) as u8;
        text.extend_from_slice([b'3', b'0' + digit].as_slice())?;
    }
    text.extend_from_slice(b" -\n".as_slice())?;
    Ok(())
}

/// The text of so many accounts with these lines behind them.
fn many_lines(alloc: Global, count: u32, last: &[u8]) -> Result<Vec<u8>, AllocError> {
    let mut text = Vec::new(alloc);
    for number in 0..count {
        add_account(&mut text, number)?;
    }
    text.extend_from_slice(last)?;
    Ok(text)
}

fn print_last(rt: &HostRuntime, script: &Script) -> io::Result<()> {
    let accounts = script.setup().accounts.as_slice();
    print!(rt; "accounts {}", accounts.len())?;
    if let Some(account) = accounts.last() {
        crate::printing::print_bytes(rt, account.user.as_slice())?;
    }
    println!(rt; "")
}

fn answer(rt: &HostRuntime, text: &[u8]) -> io::Result<()> {
    match Script::read(rt.alloc(), text) {
        Ok(script) => print_last(rt, &script),
        Err(ScriptFault::BadLine { line }) => println!(rt; "line {line}"),
        Err(ScriptFault::Memory) => println!(rt; "memory"),
    }
}

/// Answers the script of so many accounts with these lines, in hexadecimal, behind them.
pub fn answer_many(rt: &HostRuntime, count: &str, last: &str) -> io::Result<()> {
    match (count.parse::<u32>(), hex::decode(rt.alloc(), last)) {
        (Ok(count), Ok(last)) => {
            let text = many_lines(rt.alloc(), count, last.as_slice())?;
            answer(rt, text.as_slice())
        }
        _ => println!(rt; "no text"),
    }
}
