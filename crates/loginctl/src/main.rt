//! `loginctl`: replays scripts of sessions against the login server's rules.
//!
//! **[`tool::run_tool`] prints, for a script of any number of sessions, exactly the lines of its events, whose entries
//! are a legal history; for a stream of packets it prints the line of each, and how the stream ended; and it logs in to
//! a server at a socket, and prints the client's result. Its status says why it ended.**
//! The words, the script and the printed lines are this project's own; the payloads in them are those of the
//! MySQL client/server protocol. Below stand `script_text` for scripts and `session_world` for what happens in them,
//! `packet_frame` for packets, `login_client` for the client, and `lg_outside` for streams and links.
#![tactic(auto)]

mod frames;
mod input;
mod login_words;
mod logins;
mod printing;
mod replay;
mod status;
mod tool;

use lg_outside::{StdSink, StdSource, UnixLink};
use status::Status;
use std::process::ExitCode;
use std::{env, io};

/// The words behind the program's name. Where one of them isn't UTF-8 there are none, so that the command line is
/// of no form.
fn read_words(rt: &HostRuntime) -> io::Result<Vec<String>> {
    match env::args(rt) {
        Ok(words) => Ok(words.skip(1).collect(rt.alloc())?),
        Err(fault) if fault.kind() == io::ErrorKind::InvalidData => Ok(Vec::new(rt.alloc())),
        Err(fault) => Err(fault),
    }
}

fn main(rt: HostRuntime) -> ExitCode {
    // The words are read into memory, so they can't be had only where memory is wanting.
    let Ok(words) = read_words(&rt) else {
        return ExitCode::from(Status::NoMemory.code());
    };
    let mut input = StdSource::new(rt.stdin());
    let mut out = StdSink::new(rt.stdout());
    let mut link = UnixLink::new(&rt);
    let status = tool::run_tool(
        rt.alloc(),
        words.as_slice(),
        &mut input,
        &mut out,
        &mut link,
    );
    ExitCode::from(status.code())
}

#[cfg(test)]
mod tests;
