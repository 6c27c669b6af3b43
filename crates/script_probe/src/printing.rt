//! What is printed of an event: its keyword, and its numbers in decimal or its bytes in hexadecimal.

use lg_base::Bytes;
use login_client::Secrets;
use script_text::Event;
use std::io;

/// Prints a blank and the bytes, or `-` for none.
pub fn print_bytes(rt: &HostRuntime, bytes: &[u8]) -> io::Result<()> {
    if bytes.is_empty() {
        return print!(rt; " -");
    }
    let text = hex::encode(rt.alloc(), bytes)?;
    print!(rt; " {text}")
}

fn print_secret(rt: &HostRuntime, secret: &Option<Bytes>) -> io::Result<()> {
    match secret {
        Some(secret) => print_bytes(rt, secret.as_slice()),
        None => print!(rt; " none"),
    }
}

fn print_secrets(rt: &HostRuntime, secrets: &Secrets) -> io::Result<()> {
    print_bytes(rt, secrets.first.as_slice())?;
    print_secret(rt, &secrets.second)?;
    print_secret(rt, &secrets.third)
}

fn print_client(
    rt: &HostRuntime,
    session: u32,
    flags: u32,
    user: &Bytes,
    secrets: &Secrets,
) -> io::Result<()> {
    print!(rt; "client {session} {flags}")?;
    print_bytes(rt, user.as_slice())?;
    print_secrets(rt, secrets)
}

fn print_sent(rt: &HostRuntime, keyword: &str, session: u32, bytes: &Bytes) -> io::Result<()> {
    print!(rt; "{keyword} {session}")?;
    print_bytes(rt, bytes.as_slice())
}

fn print_admin(rt: &HostRuntime, text: &Bytes) -> io::Result<()> {
    print!(rt; "admin")?;
    print_bytes(rt, text.as_slice())
}

pub fn print_event(rt: &HostRuntime, event: &Event) -> io::Result<()> {
    match event {
        Event::Clock { reading } => print!(rt; "clock {reading}"),
        Event::Admin { text } => print_admin(rt, text),
        Event::Open { session } => print!(rt; "open {session}"),
        Event::Client {
            session,
            flags,
            user,
            secrets,
        } => print_client(rt, *session, *flags, user, secrets),
        Event::FromPeer { session, bytes } => print_sent(rt, "bytes", *session, bytes),
        Event::Up { session, most } => print!(rt; "up {session} {most}"),
        Event::Down { session, most } => print!(rt; "down {session} {most}"),
        Event::Step { session } => print!(rt; "step {session}"),
        Event::Run { session } => print!(rt; "run {session}"),
        Event::Say { session, text } => print_sent(rt, "say", *session, text),
        Event::Command { session, payload } => print_sent(rt, "command", *session, payload),
        Event::Close { session } => print!(rt; "close {session}"),
        Event::Cut { session } => print!(rt; "cut {session}"),
        Event::FailKeeper => print!(rt; "fail keeper"),
    }
}
