//! What a client says in an open session ("Command Phase"): COM_QUIT, COM_QUERY, COM_PING,
//! COM_RESET_CONNECTION and COM_CHANGE_USER. Every other payload is a command that the server doesn't
//! know.

ghost use Rattle.auth_packets.specs.Commands.{IsOther, IsWholeChange, IsWholeCommand, change, change_text, change_user, command, command_by, command_text, no_command, other, query};
ghost use Rattle.auth_packets.specs.Faults.{malformed_at};
ghost use Rattle.std.specs.Prelude.{◌≡◌, ◌↔◌, ◌++◌, Contains, IsFalse, IsTrue, OnOk, OnErr};
ghost use Rattle.wire_form.specs.Payloads.{Gives, GivesAs, IsReadAs, start};

use crate::fault::PacketFault;
use crate::fields::{has_no_zero, read_counted, read_end, read_mark, read_marked, read_name};
use crate::flags::read_any;
use lg_base::{Bytes, Memory, Out, Reader};
use std::alloc::Global;

/// The client logs in anew as another user.
#[derive(Debug, PartialEq, Eq, Drop)]
pub struct ChangeUser {
    /// A text without 00.
    pub user: Bytes,
    /// The answer to the nonce, at most 255 bytes.
    pub auth: Bytes,
    /// A text without 00.
    pub database: Bytes,
    /// The bytes behind the last field: character set, plugin and attributes where they are sent.
    pub rest: Bytes,
}

/// A command of an open session.
#[derive(Debug, PartialEq, Eq, Drop)]
pub enum Command {
    /// The client leaves.
    Quit,
    /// The client asks for a statement to be done.
    Query { text: Bytes },
    /// The client asks whether the server is there.
    Ping,
    /// The client begins its session anew.
    Reset,
    /// The client logs in anew.
    ChangeUser(ChangeUser),
    /// A command that begins with another byte.
    Other { first: u8 },
    /// No byte.
    Nothing,
}

impl ChangeUser {
    /// Reads a payload that is a change of user, exactly where it spells one.
    #[tactic(auto, using(crate::proofs::CommandLaws::change_read))]
    pub fn read(alloc: Global, payload: &[u8]) -> Result<ChangeUser, PacketFault>
        ensures { IsReadAs malformed_at change_user.Spells payload.now result }
    {
        let mut reader = Reader::new(payload);
        read_change(alloc, &mut reader)
    }

    /// Whether the fields fit the layout: no 00 in the texts, and an answer of at most 255 bytes.
    pub fn is_whole(&self) -> bool
        ensures { IsTrue result ↔ IsWholeChange self.now }
    {
        if !has_no_zero(self.user.as_slice()) {
            return false;
        }
        if self.auth.as_slice().len() > 255 {
            return false;
        }
        has_no_zero(self.database.as_slice())
    }

    /// Adds the payload of the change. After `Memory` nothing was added.
    #[tactic(auto, using(crate::proofs::CommandLaws::change_spelled))]
    pub fn write(&self, out: &mut Out) -> Result<(), Memory>
        requires { IsWholeChange self.now }
        ensures ok { OnOk result (out.new ≡ out.old ++ change_text self.now) }
        ensures err { OnErr result (out.new ≡ out.old) }
        ensures spelled { change_user.Spells self.now (change_text self.now) }
    {
        let mut text = out.beside();
        write_change(self, &mut text)?;
        out.bytes(text.as_slice())
    }
}

#[tactic(auto, unfolding(crate::specs::Commands::change_user))]
fn read_change(alloc: Global, reader: &mut Reader) -> Result<ChangeUser, PacketFault>
    ensures { Gives malformed_at result (change_user.read reader.old) }
{
    read_mark(0x11, reader)?;
    let user = read_name(alloc, reader)?;
    let auth = read_counted(alloc, false, reader)?;
    let database = read_name(alloc, reader)?;
    let rest = Bytes::copy(alloc, reader.rest())?;
    Ok(ChangeUser {
        user,
        auth,
        database,
        rest,
    })
}

#[tactic(auto, unfolding(crate::specs::Commands::change_text))]
fn write_change(change: &ChangeUser, out: &mut Out) -> Result<(), Memory>
    requires { IsWholeChange change.now }
    ensures { OnOk result (out.new ≡ out.old ++ change_text change.now) }
{
    let auth = change.auth.as_slice();
    out.byte(0x11)?;
    out.nul_text(change.user.as_slice())?;
    out.byte(auth.len() as u8)?;
    out.bytes(auth)?;
    out.nul_text(change.database.as_slice())?;
    out.bytes(change.rest.as_slice())
}

impl Command {
    /// Reads a payload as a command. Only a change of user can be malformed.
    #[tactic(auto, using(crate::proofs::CommandLaws::command_read))]
    pub fn read(alloc: Global, payload: &[u8]) -> Result<Command, PacketFault>
        ensures { IsReadAs malformed_at command.Spells payload.now result }
    {
        read_command(alloc, payload)
    }

    /// Whether the fields fit the layout: those of a change of user, and that another command begins with
    /// a byte that is none of the known ones.
    pub fn is_whole(&self) -> bool
        ensures { IsTrue result ↔ IsWholeCommand self.now }
    {
        match self {
            Command::ChangeUser(change) => change.is_whole(),
            Command::Other { first } => !is_known(*first),
            _ => true,
        }
    }

    /// Adds the payload of the command. After `Memory` nothing was added.
    #[tactic(auto, using(crate::proofs::CommandLaws::command_spelled))]
    pub fn write(&self, out: &mut Out) -> Result<(), Memory>
        requires { IsWholeCommand self.now }
        ensures ok { OnOk result (out.new ≡ out.old ++ command_text self.now) }
        ensures err { OnErr result (out.new ≡ out.old) }
        ensures spelled { command.Spells self.now (command_text self.now) }
    {
        let mut text = out.beside();
        write_command(self, &mut text)?;
        out.bytes(text.as_slice())
    }
}

/// Whether a command that begins with this byte is one of those that the server knows.
fn is_known(first: u8) -> bool
    ensures { IsFalse result ↔ IsOther first }
{
    matches!(first, 0x01 | 0x03 | 0x0e | 0x1f | 0x11)
}

#[tactic(auto, unfolding(crate::specs::Commands::query))]
fn read_query(alloc: Global, reader: &mut Reader) -> Result<Command, PacketFault>
    ensures { Gives malformed_at result (query.read reader.old) }
{
    let text = Bytes::copy(alloc, read_marked(0x03, reader)?)?;
    Ok(Command::Query { text })
}

#[tactic(auto, unfolding(crate::specs::Commands::change))]
fn read_change_command(alloc: Global, reader: &mut Reader) -> Result<Command, PacketFault>
    ensures { Gives malformed_at result (change.read reader.old) }
{
    Ok(Command::ChangeUser(read_change(alloc, reader)?))
}

#[tactic(auto, unfolding(crate::specs::Commands::other))]
fn read_other(reader: &mut Reader) -> Result<Command, PacketFault>
    ensures { Gives malformed_at result (other.read reader.old) }
{
    let first = read_any(reader)?;
    reader.rest();
    Ok(Command::Other { first })
}

#[tactic(auto, unfolding(crate::specs::Commands::no_command))]
fn read_nothing(reader: &mut Reader) -> Result<Command, PacketFault>
    ensures { Gives malformed_at result (no_command.read reader.old) }
{
    read_end(reader)?;
    Ok(Command::Nothing)
}

/// A command that begins with this byte, which is still to be read.
fn read_known(alloc: Global, first: u8, reader: &mut Reader) -> Result<Command, PacketFault>
    ensures { Gives malformed_at result ((command_by (Some first)).read reader.old) }
{
    match first {
        0x01 => {
            read_marked(0x01, reader)?;
            Ok(Command::Quit)
        }
        0x03 => read_query(alloc, reader),
        0x0e => {
            read_marked(0x0e, reader)?;
            Ok(Command::Ping)
        }
        0x1f => {
            read_marked(0x1f, reader)?;
            Ok(Command::Reset)
        }
        0x11 => read_change_command(alloc, reader),
        _ => read_other(reader),
    }
}

#[tactic(auto, unfolding(crate::specs::Commands::command))]
fn read_command(alloc: Global, payload: &[u8]) -> Result<Command, PacketFault>
    ensures { Gives malformed_at result (command.read (start payload.now)) }
{
    let mut reader = Reader::new(payload);
    match reader.peek() {
        None => read_nothing(&mut reader),
        Some(first) => read_known(alloc, first, &mut reader),
    }
}

#[tactic(auto, unfolding(crate::specs::Commands::command_text))]
fn write_command(command: &Command, out: &mut Out) -> Result<(), Memory>
    requires { IsWholeCommand command.now }
    ensures { OnOk result (out.new ≡ out.old ++ command_text command.now) }
{
    match command {
        Command::Quit => out.byte(0x01),
        Command::Query { text } => {
            out.byte(0x03)?;
            out.bytes(text.as_slice())
        }
        Command::Ping => out.byte(0x0e),
        Command::Reset => out.byte(0x1f),
        Command::ChangeUser(change) => write_change(change, out),
        Command::Other { first } => out.byte(*first),
        Command::Nothing => Ok(()),
    }
}
