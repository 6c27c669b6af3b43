//! Reads messages of a login, one a line, as tests of `auth_packets`: a line is `KIND HEX`, the kind of message
//! and the payload. It is answered by the message's fields and what `write` makes of it (`same` where that is the
//! payload), or by the place at which no message fits. `other HEX` is answered by whether another command may begin
//! with the byte. The lines and their answers come from auth_packets/vectors/places.py.
#![tactic(auto)]

mod commands;
mod handshake;
mod printing;
mod replies;

use std::io;

fn answer(rt: &HostRuntime, kind: &str, payload: &[u8]) -> io::Result<()> {
    match kind {
        "greeting" => handshake::greeting(rt, payload),
        "response" => handshake::response(rt, payload),
        "switch" => replies::switch(rt, payload),
        "more" => replies::more(rt, payload),
        "next" => replies::next_factor(rt, payload),
        "ok" => replies::ok(rt, payload),
        "err" => replies::err(rt, payload),
        "eof" => replies::eof(rt, payload),
        "change" => commands::change_user(rt, payload),
        "command" => commands::command(rt, payload),
        "other" => commands::other(rt, payload),
        _ => println!(rt; "no kind"),
    }
}

fn main(rt: HostRuntime) -> io::Result<()> {
    for line in rt.lines(rt.alloc()) {
        let line = line?;
        let (kind, text) = line.as_str().split_once(' ').unwrap_or(("", ""));
        match hex::decode(rt.alloc(), text) {
            Ok(payload) => answer(&rt, kind, payload.as_slice())?,
            Err(_) => println!(rt; "no payload")?,
        }
    }
    Ok(())
}
