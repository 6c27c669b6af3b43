//! The first two messages of a login: the server's greeting ("Protocol::HandshakeV10") and the client's
//! response ("Protocol::HandshakeResponse41").

ghost use Rattle.auth_packets.specs.Faults.{malformed_at};
ghost use Rattle.auth_packets.specs.Flags.{CONNECT_WITH_DB, LENENC_CLIENT_DATA, is_set};
ghost use Rattle.auth_packets.specs.Handshake.{IsWholeGreeting, IsWholeResponse, answer, answer_text, attributes, attributes_text, claim, client, client_text, database, database_text, greeting, greeting_text, nonce, nonce_end, nonce_text, opening, opening_text, response, response_text, session, session_text};
ghost use Rattle.std.specs.Bool.{OnFalse};
ghost use Rattle.std.specs.Prelude.{◌≡◌, ◌↔◌, ◌<◌, [], ◌++◌, Contains, IfSome, IsTrue, OnOk, OnErr, is_some, length, unwrap_or};
ghost use Rattle.wire_form.specs.Forms.{last_name, nothing};
ghost use Rattle.wire_form.specs.Payloads.{Gives, GivesAs, IsReadAs, Steps, start};

use crate::fault::PacketFault;
use crate::fields::{
    has_no_zero, read_array, read_counted, read_end, read_mark, read_name, read_optional_counted,
    read_optional_name,
};
use crate::flags::{
    CONNECT_ATTRS, CONNECT_WITH_DB, PLUGIN_AUTH_LENENC_CLIENT_DATA, has_needed, is_set, read_flags,
    read_lower, read_upper,
};
use lg_base::{Bytes, Memory, Out, Reader};
use std::alloc::Global;

/// What a server says first.
#[derive(Debug, PartialEq, Eq, Drop)]
pub struct Greeting {
    /// The server's version, a text without 00.
    pub version: Bytes,
    /// The connection's number.
    pub id: u32,
    pub nonce: [u8; 20],
    /// The server's capability flags.
    pub flags: u32,
    pub charset: u8,
    /// The server's status flags.
    pub status: u16,
    /// The name of the authentication method, a text without 00.
    pub plugin: Bytes,
}

/// What the client answers to a greeting.
#[derive(Debug, PartialEq, Eq, Drop)]
pub struct Response {
    /// The client's capability flags.
    pub flags: u32,
    /// The longest packet that the client takes.
    pub max_packet: u32,
    pub charset: u8,
    /// A text without 00.
    pub user: Bytes,
    /// The answer to the nonce.
    pub auth: Bytes,
    /// A text without 00, there exactly with CONNECT_WITH_DB.
    pub database: Option<Bytes>,
    /// The name of the authentication method, a text without 00.
    pub plugin: Bytes,
    /// The connection attributes, there exactly with CONNECT_ATTRS.
    pub attributes: Option<Bytes>,
    /// The bytes behind the last field.
    pub rest: Bytes,
}

impl Greeting {
    /// Reads a payload that is a greeting, exactly where it spells one.
    #[tactic(auto, using(crate::proofs::HandshakeLaws::greeting_read))]
    pub fn read(alloc: Global, payload: &[u8]) -> Result<Greeting, PacketFault>
        ensures { IsReadAs malformed_at greeting.Spells payload.now result }
    {
        read_greeting(alloc, payload)
    }

    /// Whether the fields fit the layout: no 00 in the texts, and the flags that both ends need.
    pub fn is_whole(&self) -> bool
        ensures { IsTrue result ↔ IsWholeGreeting self.now }
    {
        if !has_no_zero(self.version.as_slice()) {
            return false;
        }
        if !has_needed(self.flags) {
            return false;
        }
        has_no_zero(self.plugin.as_slice())
    }

    /// Adds the payload of the greeting. After `Memory` nothing was added.
    #[tactic(auto, using(crate::proofs::Written::greeting_spelled))]
    pub fn write(&self, out: &mut Out) -> Result<(), Memory>
        requires { IsWholeGreeting self.now }
        ensures ok { OnOk result (out.new ≡ out.old ++ greeting_text self.now) }
        ensures err { OnErr result (out.new ≡ out.old) }
        ensures spelled { greeting.Spells self.now (greeting_text self.now) }
    {
        let _id = self.id;
        let _flags = self.flags;
        let _charset = self.charset;
        let _status = self.status;
        let mut text = out.beside();
        write_greeting(self, &mut text)?;
        out.bytes(text.as_slice())
    }
}

/// What a greeting begins with.
#[derive(Drop)]
struct Opening {
    server_version: Bytes,
    thread_id: u32,
    auth_plugin_data_part_1: [u8; 8],
}

/// What a greeting says of the session.
#[derive(Clone, Copy)]
struct Session {
    capability_flags_1: u16,
    character_set: u8,
    status_flags: u16,
    capability_flags_2: u16,
}

#[tactic(auto, unfolding(crate::specs::Handshake::opening))]
fn read_opening(alloc: Global, reader: &mut Reader) -> Result<Opening, PacketFault>
    ensures { Steps (λ x. (tt, (x.server_version, (x.thread_id, (x.auth_plugin_data_part_1, tt))))) malformed_at reader.new result (opening.read reader.old) }
{
    // protocol version [1 byte]
    read_mark(0x0a, reader)?;
    // server version [a text and 00]
    let server_version = read_name(alloc, reader)?;
    // thread id [4 bytes]
    let thread_id = reader.read_u32()?;
    // auth-plugin-data-part-1 [8 bytes]
    let auth_plugin_data_part_1 = read_array(reader)?;
    // filler [1 byte]
    reader.take(1)?;
    Ok(Opening {
        server_version,
        thread_id,
        auth_plugin_data_part_1,
    })
}

#[tactic(auto, unfolding(crate::specs::Handshake::session))]
fn read_session(reader: &mut Reader) -> Result<Session, PacketFault>
    ensures { Steps (λ x. (x.capability_flags_1, (x.character_set, (x.status_flags, x.capability_flags_2)))) malformed_at reader.new result (session.read reader.old) }
{
    // capability_flags_1 [2 bytes]
    let capability_flags_1 = read_lower(reader)?;
    // character_set [1 byte]
    let character_set = reader.read_u8()?;
    // status_flags [2 bytes]
    let status_flags = reader.read_u16()?;
    // capability_flags_2 [2 bytes]
    let capability_flags_2 = read_upper(reader)?;
    Ok(Session {
        capability_flags_1,
        character_set,
        status_flags,
        capability_flags_2,
    })
}

/// What stands behind the nonce, by the length that was stated for it.
#[tactic(auto, unfolding(crate::specs::Handshake::nonce_end))]
fn read_nonce_end(length: u8, reader: &mut Reader) -> Result<(), PacketFault>
    ensures { Steps (λ x. x) malformed_at reader.new result ((nonce_end length).read reader.old) }
{
    if length == 21 {
        return read_mark(0, reader);
    }
    reader.take(u64::from(length.saturating_sub(8).max(13) - 12))?;
    Ok(())
}

/// The stated length of the nonce, and its other twelve bytes.
#[tactic(auto, unfolding(crate::specs::Handshake::nonce))]
fn read_nonce(reader: &mut Reader) -> Result<(u8, [u8; 12]), PacketFault>
    ensures { Steps (λ x. ((x.0, tt), (x.1, tt))) malformed_at reader.new result (nonce.read reader.old) }
{
    // auth_plugin_data_len [1 byte]
    let auth_plugin_data_len = reader.read_u8()?;
    // reserved [10 bytes]
    reader.take(10)?;
    // auth-plugin-data-part-2 [max(13, auth_plugin_data_len - 8) bytes]
    let auth_plugin_data_part_2 = read_array(reader)?;
    read_nonce_end(auth_plugin_data_len, reader)?;
    Ok((auth_plugin_data_len, auth_plugin_data_part_2))
}

/// auth_plugin_name [a text and 00], the last field: its 00 may be missing.
fn read_last_name(alloc: Global, reader: &mut Reader) -> Result<Bytes, PacketFault>
    ensures { GivesAs (λ x. (x, tt)) malformed_at result ((last_name nothing tt).read reader.old) }
{
    match reader.nul_text() {
        Ok(text) => {
            read_end(reader)?;
            Ok(Bytes::copy(alloc, text)?)
        }
        Err(_) => Ok(Bytes::copy(alloc, reader.rest())?),
    }
}

/// The nonce's two parts together.
fn joined(first: [u8; 8], second: [u8; 12]) -> [u8; 20]
    ensures { result ≡ first ++ second }
{
    let mut nonce = [0; 20];
    let (front, back) = nonce.split_at_mut(8);
    front.copy_from_slice(&first);
    back.copy_from_slice(&second);
    nonce
}

#[tactic(auto, unfolding(crate::specs::Handshake::greeting))]
fn read_greeting(alloc: Global, payload: &[u8]) -> Result<Greeting, PacketFault>
    ensures { Gives malformed_at result (greeting.read (start payload.now)) }
{
    let mut reader = Reader::new(payload);
    let opening = read_opening(alloc, &mut reader)?;
    let session = read_session(&mut reader)?;
    let (_, auth_plugin_data_part_2) = read_nonce(&mut reader)?;
    let plugin = read_last_name(alloc, &mut reader)?;
    Ok(Greeting {
        version: opening.server_version,
        id: opening.thread_id,
        nonce: joined(opening.auth_plugin_data_part_1, auth_plugin_data_part_2),
        flags: u32::from(session.capability_flags_1)
            + 0x1_0000 * u32::from(session.capability_flags_2),
        charset: session.character_set,
        status: session.status_flags,
        plugin,
    })
}

#[tactic(auto, unfolding(crate::specs::Handshake::opening_text))]
fn write_opening(greeting: &Greeting, out: &mut Out) -> Result<(), Memory>
    requires { ¬ Contains greeting.now.version 0 }
    ensures { OnOk result (out.new ≡ out.old ++ opening_text greeting.now) }
{
    let (first, _) = greeting.nonce.split_at(8);
    out.byte(0x0a)?;
    out.nul_text(greeting.version.as_slice())?;
    out.write_u32(greeting.id)?;
    out.bytes(first)?;
    out.byte(0)
}

#[tactic(auto, unfolding(crate::specs::Handshake::session_text))]
fn write_session(greeting: &Greeting, out: &mut Out) -> Result<(), Memory>
    ensures { OnOk result (out.new ≡ out.old ++ session_text greeting.now) }
{
    out.write_u16((greeting.flags % 0x1_0000) as u16)?;
    out.byte(greeting.charset)?;
    out.write_u16(greeting.status)?;
    out.write_u16((greeting.flags / 0x1_0000) as u16)
}

#[tactic(auto, unfolding(crate::specs::Handshake::nonce_text))]
fn write_nonce(greeting: &Greeting, out: &mut Out) -> Result<(), Memory>
    ensures { OnOk result (out.new ≡ out.old ++ nonce_text greeting.now) }
{
    let (_, second) = greeting.nonce.split_at(8);
    out.byte(21)?;
    out.bytes(&[0; 10])?;
    out.bytes(second)?;
    out.byte(0)
}

#[tactic(auto, unfolding(crate::specs::Handshake::greeting_text))]
fn write_greeting(greeting: &Greeting, out: &mut Out) -> Result<(), Memory>
    requires { IsWholeGreeting greeting.now }
    ensures { OnOk result (out.new ≡ out.old ++ greeting_text greeting.now) }
{
    write_opening(greeting, out)?;
    write_session(greeting, out)?;
    write_nonce(greeting, out)?;
    out.nul_text(greeting.plugin.as_slice())
}

impl Response {
    /// Reads a payload that is a response, exactly where it spells one.
    #[tactic(auto, using(crate::proofs::HandshakeLaws::response_read))]
    pub fn read(alloc: Global, payload: &[u8]) -> Result<Response, PacketFault>
        ensures { IsReadAs malformed_at response.Spells payload.now result }
    {
        read_response(alloc, payload)
    }

    /// Whether the fields fit the layout: no 00 in the texts, the flags that both ends need, the optional
    /// fields exactly where the flags tell of them, and an answer of at most 255 bytes where its length
    /// has one byte.
    pub fn is_whole(&self) -> bool
        ensures { IsTrue result ↔ IsWholeResponse self.now }
    {
        if !has_needed(self.flags) {
            return false;
        }
        if !has_no_zero(self.user.as_slice()) {
            return false;
        }
        if !has_no_zero(self.plugin.as_slice()) {
            return false;
        }
        if !self.answer_fits() {
            return false;
        }
        if !self.database_fits() {
            return false;
        }
        self.attributes.is_some() == is_set(CONNECT_ATTRS, self.flags)
    }

    /// Adds the payload of the response. After `Memory` nothing was added.
    #[tactic(auto, using(crate::proofs::ResponseWritten::response_spelled))]
    pub fn write(&self, out: &mut Out) -> Result<(), Memory>
        requires { IsWholeResponse self.now }
        ensures ok { OnOk result (out.new ≡ out.old ++ response_text self.now) }
        ensures err { OnErr result (out.new ≡ out.old) }
        ensures spelled { response.Spells self.now (response_text self.now) }
    {
        let _flags = self.flags;
        let _max_packet = self.max_packet;
        let _charset = self.charset;
        let _answer_length = self.auth.as_slice().len();
        let _attributes_length = self.attributes_bytes().len();
        let mut text = out.beside();
        write_response(self, &mut text)?;
        out.bytes(text.as_slice())
    }

    /// The attributes, or no bytes where there are none.
    fn attributes_bytes(&self) -> &[u8]
        ensures { result.now ≡ unwrap_or self.now.attributes [] }
    {
        match &self.attributes {
            None => &[],
            Some(bytes) => bytes.as_slice(),
        }
    }

    fn answer_fits(&self) -> bool
        ensures { IsTrue result ↔ OnFalse (is_set LENENC_CLIENT_DATA self.now.flags) (length self.now.auth < 256) }
    {
        is_set(PLUGIN_AUTH_LENENC_CLIENT_DATA, self.flags) || self.auth.as_slice().len() < 256
    }

    fn database_fits(&self) -> bool
        ensures { IsTrue result ↔ ((is_some self.now.database ≡ is_set CONNECT_WITH_DB self.now.flags) × IfSome self.now.database (λ text. ¬ Contains text 0)) }
    {
        match &self.database {
            None => !is_set(CONNECT_WITH_DB, self.flags),
            Some(text) => { is_set(CONNECT_WITH_DB, self.flags) && has_no_zero(text.as_slice()) }
        }
    }
}

#[tactic(auto, unfolding(crate::specs::Handshake::client_text))]
fn write_client(response: &Response, out: &mut Out) -> Result<(), Memory>
    requires { ¬ Contains response.now.user 0 }
    ensures { OnOk result (out.new ≡ out.old ++ client_text response.now) }
{
    out.write_u32(response.flags)?;
    out.write_u32(response.max_packet)?;
    out.byte(response.charset)?;
    out.bytes(&[0; 23])?;
    out.nul_text(response.user.as_slice())
}

#[tactic(auto, unfolding(crate::specs::Handshake::answer_text))]
fn write_answer(flags: u32, auth: &[u8], out: &mut Out) -> Result<(), Memory>
    requires { OnFalse (is_set LENENC_CLIENT_DATA flags) (length auth.now < 256) }
    ensures { OnOk result (out.new ≡ out.old ++ answer_text flags auth.now) }
{
    if is_set(PLUGIN_AUTH_LENENC_CLIENT_DATA, flags) {
        out.lenenc(auth.len() as u64)?;
    } else {
        out.byte(auth.len() as u8)?;
    }
    out.bytes(auth)
}

#[tactic(auto, unfolding(crate::specs::Handshake::database_text))]
fn write_database(database: &Option<Bytes>, out: &mut Out) -> Result<(), Memory>
    requires { IfSome database.now (λ text. ¬ Contains text 0) }
    ensures { OnOk result (out.new ≡ out.old ++ database_text database.now) }
{
    match database {
        None => Ok(()),
        Some(text) => out.nul_text(text.as_slice()),
    }
}

#[tactic(auto, unfolding(crate::specs::Handshake::attributes_text))]
fn write_attributes(attributes: &Option<Bytes>, out: &mut Out) -> Result<(), Memory>
    ensures { OnOk result (out.new ≡ out.old ++ attributes_text attributes.now) }
{
    match attributes {
        None => Ok(()),
        Some(bytes) => {
            out.lenenc(bytes.as_slice().len() as u64)?;
            out.bytes(bytes.as_slice())
        }
    }
}

#[tactic(auto, unfolding(crate::specs::Handshake::response_text))]
fn write_response(response: &Response, out: &mut Out) -> Result<(), Memory>
    requires { IsWholeResponse response.now }
    ensures { OnOk result (out.new ≡ out.old ++ response_text response.now) }
{
    write_client(response, out)?;
    write_answer(response.flags, response.auth.as_slice(), out)?;
    write_database(&response.database, out)?;
    out.nul_text(response.plugin.as_slice())?;
    write_attributes(&response.attributes, out)?;
    out.bytes(response.rest.as_slice())
}

/// What a response begins with.
#[derive(Drop)]
struct Client {
    client_flag: u32,
    max_packet_size: u32,
    character_set: u8,
    username: Bytes,
}

/// What the client says to be let in.
#[derive(Drop)]
struct Claim {
    auth_response: Bytes,
    database: Option<Bytes>,
    client_plugin_name: Bytes,
}

#[tactic(auto, unfolding(crate::specs::Handshake::client))]
fn read_client(alloc: Global, reader: &mut Reader) -> Result<Client, PacketFault>
    ensures { Steps (λ x. (x.client_flag, (x.max_packet_size, (x.character_set, (tt, x.username))))) malformed_at reader.new result (client.read reader.old) }
{
    // client_flag [4 bytes]
    let client_flag = read_flags(reader)?;
    // max_packet_size [4 bytes]
    let max_packet_size = reader.read_u32()?;
    // character_set [1 byte]
    let character_set = reader.read_u8()?;
    // filler [23 bytes]
    reader.take(23)?;
    // username [a text and 00]
    let username = read_name(alloc, reader)?;
    Ok(Client {
        client_flag,
        max_packet_size,
        character_set,
        username,
    })
}

#[tactic(auto, unfolding(crate::specs::Handshake::answer))]
fn read_answer(alloc: Global, flags: u32, reader: &mut Reader) -> Result<Bytes, PacketFault>
    ensures { Steps (λ x. x) malformed_at reader.new result ((answer flags).read reader.old) }
{
    read_counted(alloc, is_set(PLUGIN_AUTH_LENENC_CLIENT_DATA, flags), reader)
}

#[tactic(auto, unfolding(crate::specs::Handshake::database))]
fn read_database(
    alloc: Global,
    flags: u32,
    reader: &mut Reader,
) -> Result<Option<Bytes>, PacketFault>
    ensures { Steps (λ x. x) malformed_at reader.new result ((database flags).read reader.old) }
{
    read_optional_name(alloc, is_set(CONNECT_WITH_DB, flags), reader)
}

#[tactic(auto, unfolding(crate::specs::Handshake::claim))]
fn read_claim(alloc: Global, flags: u32, reader: &mut Reader) -> Result<Claim, PacketFault>
    ensures { Steps (λ x. (x.auth_response, (x.database, x.client_plugin_name))) malformed_at reader.new result ((claim flags).read reader.old) }
{
    // auth_response [a length, length-encoded or in 1 byte, and so many bytes]
    let auth_response = read_answer(alloc, flags, reader)?;
    // database [a text and 00, with CLIENT_CONNECT_WITH_DB]
    let database = read_database(alloc, flags, reader)?;
    // client_plugin_name [a text and 00]
    let client_plugin_name = read_name(alloc, reader)?;
    Ok(Claim {
        auth_response,
        database,
        client_plugin_name,
    })
}

#[tactic(auto, unfolding(crate::specs::Handshake::attributes))]
fn read_attributes(
    alloc: Global,
    flags: u32,
    reader: &mut Reader,
) -> Result<Option<Bytes>, PacketFault>
    ensures { Steps (λ x. x) malformed_at reader.new result ((attributes flags).read reader.old) }
{
    read_optional_counted(alloc, is_set(CONNECT_ATTRS, flags), reader)
}

#[tactic(auto, unfolding(crate::specs::Handshake::response))]
fn read_response(alloc: Global, payload: &[u8]) -> Result<Response, PacketFault>
    ensures { Gives malformed_at result (response.read (start payload.now)) }
{
    let mut reader = Reader::new(payload);
    let client = read_client(alloc, &mut reader)?;
    let claim = read_claim(alloc, client.client_flag, &mut reader)?;
    // attributes [a length-encoded length and so many bytes, with CLIENT_CONNECT_ATTRS]
    let attributes = read_attributes(alloc, client.client_flag, &mut reader)?;
    let rest = Bytes::copy(alloc, reader.rest())?;
    Ok(Response {
        flags: client.client_flag,
        max_packet: client.max_packet_size,
        charset: client.character_set,
        user: client.username,
        auth: claim.auth_response,
        database: claim.database,
        plugin: claim.client_plugin_name,
        attributes,
        rest,
    })
}
