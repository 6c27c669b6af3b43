//! Fields that several messages have, read into memory of their own.

ghost use Rattle.auth_packets.specs.Faults.{IsTold, malformed_at};
ghost use Rattle.std.specs.Prelude.{◌↔◌, ◌<◌, Contains, IfErr, IsTrue};
ghost use Rattle.wire_form.specs.Fields.{bytes, chosen, counted, lenenc, mark, name, number, optional};
ghost use Rattle.wire_form.specs.Forms.{◌▹◌, nothing, rest};
ghost use Rattle.wire_form.specs.Payloads.{Gives, GivesAs, Steps};

use crate::fault::PacketFault;
use lg_base::{Bytes, Reader};
use std::alloc::Global;

/// A text up to its 00.
pub(crate) fn read_name(alloc: Global, reader: &mut Reader) -> Result<Bytes, PacketFault>
    ensures { Steps (λ x. x) malformed_at reader.new result (name.read reader.old) }
{
    let text = reader.nul_text()?;
    Ok(Bytes::copy(alloc, text)?)
}

/// A text that is there only where a flag is set.
pub(crate) fn read_optional_name(
    alloc: Global,
    flag: bool,
    reader: &mut Reader,
) -> Result<Option<Bytes>, PacketFault>
    ensures { Steps (λ x. x) malformed_at reader.new result ((optional flag name).read reader.old) }
{
    if flag {
        Ok(Some(read_name(alloc, reader)?))
    } else {
        Ok(None)
    }
}

/// A length: length-encoded, or in one byte.
fn read_length(is_lenenc: bool, reader: &mut Reader) -> Result<u64, PacketFault>
    ensures { Steps (λ x. x) malformed_at reader.new result ((chosen is_lenenc lenenc (number 1)).read reader.old) }
{
    if is_lenenc {
        Ok(reader.lenenc()?)
    } else {
        Ok(u64::from(reader.read_u8()?))
    }
}

/// Bytes behind their length.
pub(crate) fn read_counted(
    alloc: Global,
    is_lenenc: bool,
    reader: &mut Reader,
) -> Result<Bytes, PacketFault>
    ensures { Steps (λ x. x) malformed_at reader.new result ((counted (chosen is_lenenc lenenc (number 1))).read reader.old) }
{
    let length = read_length(is_lenenc, reader)?;
    let text = reader.take(length)?;
    Ok(Bytes::copy(alloc, text)?)
}

/// Bytes behind a length-encoded length, which are there only where a flag is set.
pub(crate) fn read_optional_counted(
    alloc: Global,
    flag: bool,
    reader: &mut Reader,
) -> Result<Option<Bytes>, PacketFault>
    ensures { Steps (λ x. x) malformed_at reader.new result ((optional flag (counted lenenc)).read reader.old) }
{
    if flag {
        Ok(Some(read_counted(alloc, true, reader)?))
    } else {
        Ok(None)
    }
}

/// The byte that a message begins with, or another that has to stand there.
pub(crate) fn read_mark(byte: u8, reader: &mut Reader) -> Result<(), PacketFault>
    ensures steps { Steps (λ x. x) malformed_at reader.new result ((mark byte).read reader.old) }
    ensures told { IfErr result IsTold }
{
    let at = reader.at();
    let x = reader.read_u8()?;
    if x != byte {
        return Err(PacketFault::Malformed { at });
    }
    Ok(())
}

/// That no byte is left.
pub(crate) fn read_end(reader: &mut Reader) -> Result<(), PacketFault>
    ensures gives { Gives malformed_at result (nothing.read reader.old) }
    ensures told { IfErr result IsTold }
{
    match reader.peek() {
        None => Ok(()),
        Some(_) => Err(PacketFault::Malformed { at: reader.at() }),
    }
}

/// The byte that a message begins with, and all bytes behind it.
pub(crate) fn read_marked<'a>(byte: u8, reader: &mut Reader<'a>) -> Result<&'a [u8], PacketFault>
    ensures { GivesAs (λ x. (tt, x.now)) malformed_at result ((mark byte ▹ rest).read reader.old) }
{
    read_mark(byte, reader)?;
    Ok(reader.rest())
}

/// Exactly `N` bytes.
#[tactic(auto, using(crate::proofs::FieldLemmas::bytes_read))]
pub(crate) fn read_array<const N: usize>(reader: &mut Reader) -> Result<[u8; N], PacketFault>
    ensures { Steps (λ x. x) malformed_at reader.new result ((bytes N).read reader.old) }
{
    let text = reader.take(N as u64)?;
    let mut held = [0; N];
    held.copy_from_slice(text);
    Ok(held)
}

/// Whether a text holds no 00, so that one can end it.
pub(crate) fn has_no_zero(text: &[u8]) -> bool
    ensures { IsTrue result ↔ (¬ Contains text.now 0) }
{
    !text.iter().any(|x| *x == 0)
}
