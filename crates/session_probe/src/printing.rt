//! What is printed of what a session does.

use crate::answering::INPUTS;
use crate::driving::State;
use account_history::Who;
use account_history::setting::new_password;
use factor_chain::{Checked, Evidence, Evidences};
use lg_base::{Bytes, Host};
use session_talk::{Action, Ask, SessionEnd};
use std::io;
use stmt_rules::Statement;

/// Whether an action sends an error.
pub fn is_error(action: &Action) -> bool {
    match action.send.as_slice() {
        [payload] => payload.as_slice().first() == Some(&0xff),
        _ => false,
    }
}

fn print_hex(rt: &HostRuntime, bytes: &[u8]) -> io::Result<()> {
    let text = hex::encode(rt.alloc(), bytes)?;
    print!(rt; " {text}")
}

fn print_evidence(rt: &HostRuntime, evidence: &Evidence) -> io::Result<()> {
    match evidence {
        Evidence::Native { nonce, response } => {
            print!(rt; " native")?;
            print_hex(rt, nonce)?;
            print_hex(rt, response.as_slice())
        }
        Evidence::Fast { nonce, response } => {
            print!(rt; " fast")?;
            print_hex(rt, nonce)?;
            print_hex(rt, response)
        }
        Evidence::Full { password } => {
            print!(rt; " full")?;
            print_hex(rt, password.as_slice())
        }
        Evidence::Empty => print!(rt; " empty"),
        Evidence::External { label, accepted } => {
            print!(rt; " external {accepted}")?;
            print_hex(rt, label.as_slice())
        }
    }
}

fn print_evidences(rt: &HostRuntime, evidences: &Evidences) -> io::Result<()> {
    for evidence in evidences.as_slice() {
        print_evidence(rt, evidence)?;
    }
    Ok(())
}

fn print_who(rt: &HostRuntime, who: &Who) -> io::Result<()> {
    match who {
        Who::Login(user) => print_hex(rt, user.as_slice()),
        Who::Account(name) => {
            print!(rt;
                " at {}",
                if name.host == Host::Any {
                    "any"
                } else {
                    "localhost"
                }
            )?;
            print_hex(rt, name.user.as_slice())
        }
        Who::Own(account) => print!(rt; " own {account}"),
    }
}

fn word_of(statement: &Statement) -> &'static str {
    match statement {
        Statement::Create { .. } => "create",
        Statement::Alter { .. } => "alter",
        Statement::Drop { .. } => "drop",
        Statement::Flush => "flush",
        Statement::Grant { .. } => "grant",
        Statement::Revoke { .. } => "revoke",
    }
}

/// The account that asks for a statement, the kind of the statement, and its new password, unless that is empty.
fn print_statement(rt: &HostRuntime, statement: &Statement, actor: u64) -> io::Result<()> {
    print!(rt; " {actor} {}", word_of(statement))?;
    let password = new_password(statement);
    if password.is_empty() {
        return Ok(());
    }
    print_hex(rt, password)
}

fn print_end(rt: &HostRuntime, end: SessionEnd) -> io::Result<()> {
    match end {
        SessionEnd::Quit => print!(rt; "quit"),
        SessionEnd::PeerClosed { cut } => print!(rt; "peer closed {cut}"),
        SessionEnd::Refused { number } => print!(rt; "refused {number}"),
        SessionEnd::Bad { number, at } => print!(rt; "bad {number} at {at}"),
        SessionEnd::LinkFault => print!(rt; "link fault"),
        SessionEnd::SessionLong => print!(rt; "session long"),
        SessionEnd::Memory => print!(rt; "memory"),
    }
}

fn print_settling(rt: &HostRuntime, checked: &Checked, flags: u32) -> io::Result<()> {
    print!(rt; "settle {} {flags} {}", checked.stamp(), checked.all_fit())?;
    print_evidences(rt, checked.evidences())
}

fn print_locked(
    rt: &HostRuntime,
    user: &Bytes,
    evidences: &Evidences,
    flags: u32,
) -> io::Result<()> {
    print!(rt; "settle locked {flags}")?;
    print_hex(rt, user.as_slice())?;
    print_evidences(rt, evidences)
}

fn print_salt(
    rt: &HostRuntime,
    salt: &[u8; 20],
    statement: &Statement,
    actor: u64,
) -> io::Result<()> {
    print_hex(rt, salt)?;
    print_statement(rt, statement, actor)
}

/// What is asked about a statement.
fn print_statement_ask(rt: &HostRuntime, ask: &Ask) -> io::Result<()> {
    match ask {
        Ask::Prepare {
            look,
            statement,
            salt,
            actor,
        } => {
            print!(rt; "prepare {}", look.stamp)?;
            print_salt(rt, salt, statement, *actor)
        }
        Ask::Commit { prepared, actor } => {
            print!(rt; "commit {}", prepared.look().stamp)?;
            print_salt(rt, prepared.salt(), prepared.statement(), *actor)
        }
        Ask::CommitLocked {
            statement,
            salt,
            actor,
        } => {
            print!(rt; "commit locked")?;
            print_salt(rt, salt, statement, *actor)
        }
        Ask::CommitPlain { statement, actor } => {
            print!(rt; "commit plain")?;
            print_statement(rt, statement, *actor)
        }
        _ => Ok(()),
    }
}

fn print_look_at(rt: &HostRuntime, word: &str, who: &Who) -> io::Result<()> {
    print!(rt; "{word}")?;
    print_who(rt, who)
}

fn print_ask(rt: &HostRuntime, ask: &Ask) -> io::Result<()> {
    match ask {
        Ask::Read { want } => print!(rt; "read {want}"),
        Ask::Draw => print!(rt; "draw"),
        Ask::Observe(who) => print_look_at(rt, "observe", who),
        Ask::Renew(who) => print_look_at(rt, "renew", who),
        Ask::Check { look, evidences } => {
            print!(rt; "check {}", look.stamp)?;
            print_evidences(rt, evidences)
        }
        Ask::Settle { checked, flags } => print_settling(rt, checked, *flags),
        Ask::SettleLocked {
            user,
            evidences,
            flags,
        } => print_locked(rt, user, evidences, *flags),
        Ask::Ended(end) => print_end(rt, *end),
        _ => print_statement_ask(rt, ask),
    }
}

fn print_action(rt: &HostRuntime, action: &Action) -> io::Result<()> {
    print!(rt; "{}", action.first)?;
    for payload in action.send.as_slice() {
        print_hex(rt, payload.as_slice())?;
    }
    print!(rt; " ")?;
    print_ask(rt, &action.ask)?;
    println!(rt; "")
}

/// What a session did on an answer, or that there was none.
pub fn print_state(rt: &HostRuntime, state: &State) -> io::Result<()> {
    match state {
        State::At(driven) => print_action(rt, &driven.action),
        State::Failed(_) => println!(rt; "memory"),
        State::Absent => println!(rt; "no answer"),
    }
}

/// Whether each input answers a session: `y`, or `-`.
pub fn print_marks(rt: &HostRuntime, marks: &[bool; INPUTS]) -> io::Result<()> {
    for mark in marks {
        print!(rt; "{}", if *mark { 'y' } else { '-' })?;
    }
    println!(rt; "")
}
