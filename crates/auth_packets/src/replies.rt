//! What ends an exchange: OK, ERR and EOF ("Generic Response Packets").

ghost use Rattle.auth_packets.specs.Faults.{IsTold, malformed_at};
ghost use Rattle.auth_packets.specs.Replies.{eof_packet, eof_text, err_packet, err_text, ok_packet, ok_text, state_and_text};
ghost use Rattle.std.specs.Prelude.{◌≡◌, ◌++◌, IfErr, IsTrue, OnOk, OnErr};
ghost use Rattle.wire_form.specs.Payloads.{Gives, GivesAs, IsReadAs, start};

use crate::fault::PacketFault;
use crate::fields::{read_array, read_end, read_mark};
use lg_base::{Bytes, Memory, Out, Reader};
use std::alloc::Global;

/// The exchange went well.
#[derive(Debug, PartialEq, Eq, Drop)]
pub struct OkPacket {
    /// How many rows were changed.
    pub affected: u64,
    /// The last id that was given to a new row.
    pub last_id: u64,
    /// The server's status flags.
    pub status: u16,
    pub warnings: u16,
    /// A text for people.
    pub info: Bytes,
}

/// The exchange failed.
#[derive(Debug, PartialEq, Eq, Drop)]
pub struct ErrPacket {
    pub number: u16,
    pub state: [u8; 5],
    pub text: Bytes,
}

/// The end of a list of columns or rows.
#[derive(Debug, PartialEq, Eq, Drop)]
pub struct EofPacket {
    pub warnings: u16,
    /// The server's status flags.
    pub status: u16,
}

impl OkPacket {
    /// Reads a payload that is an OK, exactly where it spells one.
    #[tactic(auto, using(crate::proofs::RepliesLaws::ok_read))]
    pub fn read(alloc: Global, payload: &[u8]) -> Result<OkPacket, PacketFault>
        ensures { IsReadAs malformed_at ok_packet.Spells payload.now result }
    {
        read_ok(alloc, payload)
    }

    /// Whether the fields fit the layout, which they always do.
    pub fn is_whole(&self) -> bool
        ensures { IsTrue result }
    {
        true
    }

    /// Adds the payload of the packet. After `Memory` nothing was added.
    #[tactic(auto, using(crate::proofs::Written::ok_spelled))]
    pub fn write(&self, out: &mut Out) -> Result<(), Memory>
        ensures ok { OnOk result (out.new ≡ out.old ++ ok_text self.now) }
        ensures err { OnErr result (out.new ≡ out.old) }
        ensures spelled { ok_packet.Spells self.now (ok_text self.now) }
    {
        let _affected = self.affected;
        let _last_id = self.last_id;
        let _status = self.status;
        let _warnings = self.warnings;
        let mut text = out.beside();
        write_ok(self, &mut text)?;
        out.bytes(text.as_slice())
    }
}

#[tactic(auto, unfolding(crate::specs::Replies::ok_text))]
fn write_ok(packet: &OkPacket, out: &mut Out) -> Result<(), Memory>
    ensures { OnOk result (out.new ≡ out.old ++ ok_text packet.now) }
{
    out.byte(0x00)?;
    out.lenenc(packet.affected)?;
    out.lenenc(packet.last_id)?;
    out.write_u16(packet.status)?;
    out.write_u16(packet.warnings)?;
    out.bytes(packet.info.as_slice())
}

impl ErrPacket {
    /// Reads a payload that is an ERR, exactly where it spells one.
    #[tactic(auto, using(crate::proofs::RepliesLaws::err_read))]
    pub fn read(alloc: Global, payload: &[u8]) -> Result<ErrPacket, PacketFault>
        ensures { IsReadAs malformed_at err_packet.Spells payload.now result }
    {
        read_err(alloc, payload)
    }

    /// Whether the fields fit the layout, which they always do.
    pub fn is_whole(&self) -> bool
        ensures { IsTrue result }
    {
        true
    }

    /// Adds the payload of the packet. After `Memory` nothing was added.
    #[tactic(auto, using(crate::proofs::Written::err_spelled))]
    pub fn write(&self, out: &mut Out) -> Result<(), Memory>
        ensures ok { OnOk result (out.new ≡ out.old ++ err_text self.now) }
        ensures err { OnErr result (out.new ≡ out.old) }
        ensures spelled { err_packet.Spells self.now (err_text self.now) }
    {
        let _number = self.number;
        let mut text = out.beside();
        write_err(self, &mut text)?;
        out.bytes(text.as_slice())
    }
}

#[tactic(auto, unfolding(crate::specs::Replies::err_text))]
fn write_err(packet: &ErrPacket, out: &mut Out) -> Result<(), Memory>
    ensures { OnOk result (out.new ≡ out.old ++ err_text packet.now) }
{
    out.byte(0xff)?;
    out.write_u16(packet.number)?;
    out.byte(b'#')?;
    out.bytes(&packet.state)?;
    out.bytes(packet.text.as_slice())
}

impl EofPacket {
    /// Reads a payload that is an EOF, exactly where it spells one. It takes no memory, so it never answers `Memory`.
    #[tactic(auto, using(crate::proofs::RepliesLaws::eof_read))]
    pub fn read(payload: &[u8]) -> Result<EofPacket, PacketFault>
        ensures reads { IsReadAs malformed_at eof_packet.Spells payload.now result }
        ensures told { IfErr result IsTold }
    {
        read_eof(payload)
    }

    /// Whether the fields fit the layout, which they always do.
    pub fn is_whole(&self) -> bool
        ensures { IsTrue result }
    {
        true
    }

    /// Adds the payload of the packet. After `Memory` nothing was added.
    #[tactic(auto, using(crate::proofs::Written::eof_spelled))]
    pub fn write(&self, out: &mut Out) -> Result<(), Memory>
        ensures ok { OnOk result (out.new ≡ out.old ++ eof_text self.now) }
        ensures err { OnErr result (out.new ≡ out.old) }
        ensures spelled { eof_packet.Spells self.now (eof_text self.now) }
    {
        let _warnings = self.warnings;
        let _status = self.status;
        let mut text = out.beside();
        write_eof(self, &mut text)?;
        out.bytes(text.as_slice())
    }
}

#[tactic(auto, unfolding(crate::specs::Replies::eof_text))]
fn write_eof(packet: &EofPacket, out: &mut Out) -> Result<(), Memory>
    ensures { OnOk result (out.new ≡ out.old ++ eof_text packet.now) }
{
    out.byte(0xfe)?;
    out.write_u16(packet.warnings)?;
    out.write_u16(packet.status)
}

#[tactic(auto, unfolding(crate::specs::Replies::ok_packet))]
fn read_ok(alloc: Global, payload: &[u8]) -> Result<OkPacket, PacketFault>
    ensures { Gives malformed_at result (ok_packet.read (start payload.now)) }
{
    let mut reader = Reader::new(payload);
    read_mark(0x00, &mut reader)?;
    let affected = reader.lenenc()?;
    let last_id = reader.lenenc()?;
    let status = reader.read_u16()?;
    let warnings = reader.read_u16()?;
    let info = Bytes::copy(alloc, reader.rest())?;
    Ok(OkPacket {
        affected,
        last_id,
        status,
        warnings,
        info,
    })
}

/// The state behind `#`, and the text. Without `#` all is text, and the state is HY000.
#[tactic(auto, unfolding(crate::specs::Replies::state_and_text))]
fn read_state_and_text(alloc: Global, reader: &mut Reader) -> Result<([u8; 5], Bytes), PacketFault>
    ensures { GivesAs (λ x. (x.0, x.1)) malformed_at result (state_and_text.read reader.old) }
{
    if reader.peek() == Some(b'#') {
        read_mark(b'#', reader)?;
        let state = read_array(reader)?;
        let text = Bytes::copy(alloc, reader.rest())?;
        Ok((state, text))
    } else {
        Ok((*b"HY000", Bytes::copy(alloc, reader.rest())?))
    }
}

#[tactic(auto, unfolding(crate::specs::Replies::err_packet))]
fn read_err(alloc: Global, payload: &[u8]) -> Result<ErrPacket, PacketFault>
    ensures { Gives malformed_at result (err_packet.read (start payload.now)) }
{
    let mut reader = Reader::new(payload);
    read_mark(0xff, &mut reader)?;
    let number = reader.read_u16()?;
    let (state, text) = read_state_and_text(alloc, &mut reader)?;
    Ok(ErrPacket {
        number,
        state,
        text,
    })
}

#[tactic(auto, unfolding(crate::specs::Replies::eof_packet))]
fn read_eof(payload: &[u8]) -> Result<EofPacket, PacketFault>
    ensures gives { Gives malformed_at result (eof_packet.read (start payload.now)) }
    ensures told { IfErr result IsTold }
{
    let mut reader = Reader::new(payload);
    read_mark(0xfe, &mut reader)?;
    let warnings = reader.read_u16()?;
    let status = reader.read_u16()?;
    read_end(&mut reader)?;
    Ok(EofPacket { warnings, status })
}
