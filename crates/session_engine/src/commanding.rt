//! Commands of an open session: "Command Phase".

ghost use Rattle.auth_packets.specs.Commands.{command};
ghost use Rattle.auth_packets.specs.Faults.{malformed_at};
ghost use Rattle.session_engine.specs.Standing.{Stands};
ghost use Rattle.session_talk.specs.Logins.{commanded, commands_left, next_command};
ghost use Rattle.std.specs.Prelude.{◌≡◌, IfOk};
ghost use Rattle.wire_form.specs.Payloads.{Gives, start};

use crate::statements::{agree, query, tell};
use crate::steps::{Step, over};
use auth_packets::{Command, PacketFault};
use lg_base::{Code, Memory};
use session_talk::{OpenSession, SessionEnd};
use std::alloc::Global;

/// A command, as it is read.
#[tactic(auto, using(crate::proofs::Found::command_found))]
fn read_command(alloc: Global, payload: &[u8]) -> Result<Command, PacketFault>
    ensures { Gives malformed_at result (command.read (start payload.now)) }
{
    Command::read(alloc, payload)
}

/// A command of a session that knows this of itself.
#[tactic(auto, using(crate::proofs::Found::obeys))]
fn obey(alloc: Global, opened: OpenSession, payload: &[u8]) -> Result<Step, Memory>
    ensures { IfOk result (λ step. Stands step (commanded (command.read (start payload.now)) (commands_left opened.left) opened)) }
{
    match read_command(alloc, payload) {
        Ok(Command::Quit) => Ok(over(alloc, SessionEnd::Quit)),
        Ok(Command::Ping) => agree(alloc, opened),
        Ok(Command::Reset) => agree(alloc, opened),
        Ok(Command::Query { text }) => query(alloc, opened, text.as_slice()),
        Ok(Command::ChangeUser(_)) => tell(alloc, &Code::UnknownCommand, opened),
        Ok(Command::Other { .. }) => tell(alloc, &Code::UnknownCommand, opened),
        Ok(Command::Nothing) => tell(alloc, &Code::UnknownCommand, opened),
        Err(PacketFault::Malformed { .. }) => tell(alloc, &Code::UnknownCommand, opened),
        Err(PacketFault::Memory) => Err(Memory),
    }
}

/// A payload that is read as a command, where so many are still done: at none the session ends.
#[tactic(auto, using(crate::proofs::Found::counted_down), unfolding(session_talk::specs::Logins::next_command))]
fn count_command(
    alloc: Global,
    left: u32,
    opened: OpenSession,
    payload: &[u8],
) -> Result<Step, Memory>
    ensures { IfOk result (λ step. Stands step (next_command left opened payload.now)) }
{
    if left == 0 {
        return Ok(over(alloc, SessionEnd::SessionLong));
    }
    let later = OpenSession {
        left: left - 1,
        ..opened
    };
    obey(alloc, later, payload)
}

/// A payload that is read as a command: it is done, unless it is the last of the session.
pub fn take_command(alloc: Global, opened: OpenSession, payload: &[u8]) -> Result<Step, Memory>
    ensures { IfOk result (λ step. Stands step (next_command opened.left opened payload.now)) }
{
    let left = opened.left;
    count_command(alloc, left, opened, payload)
}
