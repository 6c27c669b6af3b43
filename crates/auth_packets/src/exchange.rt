//! What a server says between the response and the end of a login: a switch to another method, more data
//! of the method, and the next factor ("Protocol::AuthSwitchRequest", "Protocol::AuthMoreData" and
//! "Protocol::AuthNextFactor").

ghost use Rattle.auth_packets.specs.Exchange.{more, more_text, next_factor, next_factor_text, plugin_and_data, switch, switch_text};
ghost use Rattle.auth_packets.specs.Faults.{malformed_at};
ghost use Rattle.std.specs.Prelude.{◌≡◌, ◌↔◌, ◌++◌, Contains, IsTrue, OnOk, OnErr};
ghost use Rattle.wire_form.specs.Payloads.{Gives, GivesAs, IsReadAs, start};

use crate::fault::PacketFault;
use crate::fields::{has_no_zero, read_mark, read_marked};
use lg_base::{Bytes, Memory, Out, Reader};
use std::alloc::Global;

/// The server asks for an answer of another method.
#[derive(Debug, PartialEq, Eq, Drop)]
pub struct Switch {
    /// The name of the authentication method, a text without 00.
    pub plugin: Bytes,
    /// The method's data, mostly a nonce and 00.
    pub body: Bytes,
}

/// More data of the authentication method.
#[derive(Debug, PartialEq, Eq, Drop)]
pub struct More {
    pub body: Bytes,
}

/// The server asks for the next factor.
#[derive(Debug, PartialEq, Eq, Drop)]
pub struct NextFactor {
    /// The name of the factor's authentication method, a text without 00.
    pub plugin: Bytes,
    /// The method's data.
    pub body: Bytes,
}

impl Switch {
    /// Reads a payload that is a switch, exactly where it spells one.
    #[tactic(auto, using(crate::proofs::ExchangeLaws::switch_read))]
    pub fn read(alloc: Global, payload: &[u8]) -> Result<Switch, PacketFault>
        ensures { IsReadAs malformed_at switch.Spells payload.now result }
    {
        read_switch(alloc, payload)
    }

    /// Whether the fields fit the layout: no 00 in the plugin's name.
    pub fn is_whole(&self) -> bool
        ensures { IsTrue result ↔ (¬ Contains self.now.plugin 0) }
    {
        has_no_zero(self.plugin.as_slice())
    }

    /// Adds the payload of the switch. After `Memory` nothing was added.
    #[tactic(auto, using(crate::proofs::ExchangeLaws::switch_spelled))]
    pub fn write(&self, out: &mut Out) -> Result<(), Memory>
        requires { ¬ Contains self.now.plugin 0 }
        ensures ok { OnOk result (out.new ≡ out.old ++ switch_text self.now) }
        ensures err { OnErr result (out.new ≡ out.old) }
        ensures spelled { switch.Spells self.now (switch_text self.now) }
    {
        let mut text = out.beside();
        write_switch(self, &mut text)?;
        out.bytes(text.as_slice())
    }
}

impl More {
    /// Reads a payload that is more data, exactly where it spells such.
    #[tactic(auto, using(crate::proofs::ExchangeLaws::more_read))]
    pub fn read(alloc: Global, payload: &[u8]) -> Result<More, PacketFault>
        ensures { IsReadAs malformed_at more.Spells payload.now result }
    {
        read_more(alloc, payload)
    }

    /// Whether the fields fit the layout, which they always do.
    pub fn is_whole(&self) -> bool
        ensures { IsTrue result }
    {
        true
    }

    /// Adds the payload. After `Memory` nothing was added.
    #[tactic(auto, using(crate::proofs::ExchangeLaws::more_spelled))]
    pub fn write(&self, out: &mut Out) -> Result<(), Memory>
        ensures ok { OnOk result (out.new ≡ out.old ++ more_text self.now) }
        ensures err { OnErr result (out.new ≡ out.old) }
        ensures spelled { more.Spells self.now (more_text self.now) }
    {
        let mut text = out.beside();
        write_more(self, &mut text)?;
        out.bytes(text.as_slice())
    }
}

impl NextFactor {
    /// Reads a payload that asks for the next factor, exactly where it spells such.
    #[tactic(auto, using(crate::proofs::ExchangeLaws::next_factor_read))]
    pub fn read(alloc: Global, payload: &[u8]) -> Result<NextFactor, PacketFault>
        ensures { IsReadAs malformed_at next_factor.Spells payload.now result }
    {
        read_next_factor(alloc, payload)
    }

    /// Whether the fields fit the layout: no 00 in the plugin's name.
    pub fn is_whole(&self) -> bool
        ensures { IsTrue result ↔ (¬ Contains self.now.plugin 0) }
    {
        has_no_zero(self.plugin.as_slice())
    }

    /// Adds the payload. After `Memory` nothing was added.
    #[tactic(auto, using(crate::proofs::ExchangeLaws::next_factor_spelled))]
    pub fn write(&self, out: &mut Out) -> Result<(), Memory>
        requires { ¬ Contains self.now.plugin 0 }
        ensures ok { OnOk result (out.new ≡ out.old ++ next_factor_text self.now) }
        ensures err { OnErr result (out.new ≡ out.old) }
        ensures spelled { next_factor.Spells self.now (next_factor_text self.now) }
    {
        let mut text = out.beside();
        write_next_factor(self, &mut text)?;
        out.bytes(text.as_slice())
    }
}

/// The name of a plugin and its data. Where there is no data, the name's 00 may be missing.
#[tactic(auto, unfolding(crate::specs::Exchange::plugin_and_data))]
fn read_plugin_and_data(alloc: Global, reader: &mut Reader) -> Result<(Bytes, Bytes), PacketFault>
    ensures { GivesAs (λ x. (x.0, x.1)) malformed_at result (plugin_and_data.read reader.old) }
{
    match reader.nul_text() {
        Ok(text) => {
            let plugin = Bytes::copy(alloc, text)?;
            let body = Bytes::copy(alloc, reader.rest())?;
            Ok((plugin, body))
        }
        Err(_) => {
            let plugin = Bytes::copy(alloc, reader.rest())?;
            let body = Bytes::copy(alloc, &[])?;
            Ok((plugin, body))
        }
    }
}

#[tactic(auto, unfolding(crate::specs::Exchange::switch))]
fn read_switch(alloc: Global, payload: &[u8]) -> Result<Switch, PacketFault>
    ensures { Gives malformed_at result (switch.read (start payload.now)) }
{
    let mut reader = Reader::new(payload);
    read_mark(0xfe, &mut reader)?;
    let (plugin, body) = read_plugin_and_data(alloc, &mut reader)?;
    Ok(Switch { plugin, body })
}

#[tactic(auto, unfolding(crate::specs::Exchange::more))]
fn read_more(alloc: Global, payload: &[u8]) -> Result<More, PacketFault>
    ensures { Gives malformed_at result (more.read (start payload.now)) }
{
    let mut reader = Reader::new(payload);
    let body = Bytes::copy(alloc, read_marked(0x01, &mut reader)?)?;
    Ok(More { body })
}

#[tactic(auto, unfolding(crate::specs::Exchange::next_factor))]
fn read_next_factor(alloc: Global, payload: &[u8]) -> Result<NextFactor, PacketFault>
    ensures { Gives malformed_at result (next_factor.read (start payload.now)) }
{
    let mut reader = Reader::new(payload);
    read_mark(0x02, &mut reader)?;
    let (plugin, body) = read_plugin_and_data(alloc, &mut reader)?;
    Ok(NextFactor { plugin, body })
}

#[tactic(auto, unfolding(crate::specs::Exchange::switch_text))]
fn write_switch(switch: &Switch, out: &mut Out) -> Result<(), Memory>
    requires { ¬ Contains switch.now.plugin 0 }
    ensures { OnOk result (out.new ≡ out.old ++ switch_text switch.now) }
{
    out.byte(0xfe)?;
    out.nul_text(switch.plugin.as_slice())?;
    out.bytes(switch.body.as_slice())
}

#[tactic(auto, unfolding(crate::specs::Exchange::more_text))]
fn write_more(more: &More, out: &mut Out) -> Result<(), Memory>
    ensures { OnOk result (out.new ≡ out.old ++ more_text more.now) }
{
    out.byte(0x01)?;
    out.bytes(more.body.as_slice())
}

#[tactic(auto, unfolding(crate::specs::Exchange::next_factor_text))]
fn write_next_factor(factor: &NextFactor, out: &mut Out) -> Result<(), Memory>
    requires { ¬ Contains factor.now.plugin 0 }
    ensures { OnOk result (out.new ≡ out.old ++ next_factor_text factor.now) }
{
    out.byte(0x02)?;
    out.nul_text(factor.plugin.as_slice())?;
    out.bytes(factor.body.as_slice())
}
