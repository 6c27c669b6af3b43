//! Capability flags: what each end of a connection can do. "Capabilities Flags" of the MySQL
//! client/server protocol documentation.

ghost use Rattle.auth_packets.specs.Faults.{malformed_at};
ghost use Rattle.auth_packets.specs.Flags.{HasNeeded, any_byte, flags, is_set, lower_flags, second_fits, third_fits, upper_flags};
ghost use Rattle.std.specs.Prelude.{◌≡◌, ◌↔◌, IsTrue};
ghost use Rattle.wire_form.specs.Fields.{byte};
ghost use Rattle.wire_form.specs.Payloads.{Steps};

use crate::fault::PacketFault;
use lg_base::Reader;

/// The response names a database.
pub const CONNECT_WITH_DB: u32 = 0x8;
/// The protocol of version 4.1.
pub const PROTOCOL_41: u32 = 0x200;
/// The server tells the status of transactions.
pub const TRANSACTIONS: u32 = 0x2000;
/// The authentication of version 4.1.
pub const SECURE_CONNECTION: u32 = 0x8000;
/// Authentication methods have names.
pub const PLUGIN_AUTH: u32 = 0x80000;
/// The response has connection attributes.
pub const CONNECT_ATTRS: u32 = 0x100000;
/// The answer in the response has a length-encoded length.
pub const PLUGIN_AUTH_LENENC_CLIENT_DATA: u32 = 0x200000;
/// The client can set a new password where the old one has expired.
pub const CAN_HANDLE_EXPIRED_PASSWORDS: u32 = 0x400000;
/// The client can answer for further factors.
pub const MULTI_FACTOR_AUTHENTICATION: u32 = 0x1000_0000;

/// Whether a flag is set.
pub fn is_set(flag: u32, flags: u32) -> bool
    ensures { result ≡ is_set flag flags }
{
    flags & flag != 0
}

/// Whether the flags have PROTOCOL_41, SECURE_CONNECTION and PLUGIN_AUTH, which both ends need.
pub fn has_needed(flags: u32) -> bool
    ensures { IsTrue result ↔ HasNeeded flags }
{
    second_fits(flags / 0x100 % 0x100) && third_fits(flags / 0x100 / 0x100 % 0x100)
}

/// PROTOCOL_41 and SECURE_CONNECTION are in the second byte.
fn second_fits(byte: u32) -> bool
    ensures { result ≡ second_fits byte }
{
    byte & 0x82 == 0x82
}

/// PLUGIN_AUTH is in the third byte.
fn third_fits(byte: u32) -> bool
    ensures { result ≡ third_fits byte }
{
    byte & 0x08 == 0x08
}

/// A byte of which the flags need nothing.
pub(crate) fn read_any(reader: &mut Reader) -> Result<u8, PacketFault>
    ensures { Steps (λ x. x) malformed_at reader.new result (any_byte.read reader.old) }
{
    Ok(reader.read_u8()?)
}

/// The flags' second byte.
fn read_second(reader: &mut Reader) -> Result<u8, PacketFault>
    ensures { Steps (λ x. x) malformed_at reader.new result ((byte second_fits).read reader.old) }
{
    let at = reader.at();
    let x = reader.read_u8()?;
    if !second_fits(u32::from(x)) {
        return Err(PacketFault::Malformed { at });
    }
    Ok(x)
}

/// The flags' third byte.
fn read_third(reader: &mut Reader) -> Result<u8, PacketFault>
    ensures { Steps (λ x. x) malformed_at reader.new result ((byte third_fits).read reader.old) }
{
    let at = reader.at();
    let x = reader.read_u8()?;
    if !third_fits(u32::from(x)) {
        return Err(PacketFault::Malformed { at });
    }
    Ok(x)
}

/// The four bytes of a response.
#[tactic(auto, unfolding(crate::specs::Flags::flags))]
pub(crate) fn read_flags(reader: &mut Reader) -> Result<u32, PacketFault>
    ensures { Steps (λ x. x) malformed_at reader.new result (flags.read reader.old) }
{
    let first = read_any(reader)?;
    let second = read_second(reader)?;
    let third = read_third(reader)?;
    let fourth = read_any(reader)?;
    Ok(u32::from_le_bytes([first, second, third, fourth]))
}

/// The lower two bytes, which stand first in a greeting.
#[tactic(auto, unfolding(crate::specs::Flags::lower_flags))]
pub(crate) fn read_lower(reader: &mut Reader) -> Result<u16, PacketFault>
    ensures { Steps (λ x. x) malformed_at reader.new result (lower_flags.read reader.old) }
{
    let first = read_any(reader)?;
    let second = read_second(reader)?;
    Ok(u16::from_le_bytes([first, second]))
}

/// The upper two bytes of a greeting.
#[tactic(auto, unfolding(crate::specs::Flags::upper_flags))]
pub(crate) fn read_upper(reader: &mut Reader) -> Result<u16, PacketFault>
    ensures { Steps (λ x. x) malformed_at reader.new result (upper_flags.read reader.old) }
{
    let third = read_third(reader)?;
    let fourth = read_any(reader)?;
    Ok(u16::from_le_bytes([third, fourth]))
}
