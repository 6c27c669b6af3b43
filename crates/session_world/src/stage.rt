//! What is kept of a replay, and what is done to its sessions.

ghost use Rattle.account_history.specs.Sound.{IsWritten};
ghost use Rattle.client_wire.specs.Clients.{AreClients};
ghost use Rattle.client_wire.specs.UnderWay.{Client, claim_of};
ghost use Rattle.login_client.specs.Claims.{AreFit, AreUsable};
ghost use Rattle.login_client.specs.Zeros.{HasNoZero};
ghost use Rattle.session_world.specs.Replays.{Replay, administers, begins, doing, sends, with_sent};
ghost use Rattle.session_talk.specs.Statements.{statement_in};
ghost use Rattle.session_world.specs.Staged.{Leaves, Stands};
ghost use Rattle.session_world.specs.Worlds.{ToCall, ToExecute, ToFail, ToLeave, ToOpen, ToSend, ToSet};
ghost use Rattle.std.specs.Prelude.{◌≡◌, ◌++◌, ℕ, Option, is_some, true, OnOk};

use crate::calls::{Calls, Peer};
use crate::output::Output;
use crate::state::State;
use crate::telling::{print_idles, print_no_statement};
use client_wire::HeldClient;
use client_wire::clients::{keep, take};
use lg_base::{Memory, Out};
use login_client::Secrets;
use std::alloc::Global;
use std::collections::BTreeMap;
use stmt_rules::Statement;
use stmt_syntax::{SyntaxFault, read};

/// The world of sessions, and the clients of those that have one.
#[derive(Drop)]
pub struct Stage {
    pub state: State,
    pub clients: BTreeMap<u32, HeldClient>,
}

/// The number under which that stands which is done for no session.
const NO_SESSION: u32 = 0;

/// Whether a session has a client.
fn has_client(clients: &BTreeMap<u32, HeldClient>, number: u32) -> bool
    ensures { (all : ℕ → Option Client) → AreClients clients.now all → result ≡ is_some (all number) }
{
    clients.get(&number).is_some()
}

impl Stage {
    /// What a session put out is printed, and its bytes are under way to its client.
    pub fn put(&mut self, number: u32, put: &Output, out: &mut Out) -> Result<(), Memory>
        ensures state { self.new.state ≡ self.old.state }
        ensures clients { (all : ℕ → Option Client) → AreClients self.old.clients all → OnOk result (AreClients self.new.clients (with_sent all number (put.now).sent)) }
        ensures printed { OnOk result (out.new ≡ out.old ++ (put.now).lines) }
    {
        out.bytes(put.lines.as_slice())?;
        match take(&mut self.clients, number) {
            None => Ok(()),
            Some(held) => keep(&mut self.clients, number, held.sent(put.sent.as_slice())?),
        }
    }

    /// The clock is set.
    pub fn set_clock(&mut self, reading: u64)
        ensures { (r : Replay) → Stands self.old r → Stands self.new (doing r (ToSet reading)).replay }
    {
        self.state.table.set_clock(reading);
    }

    /// The next call of the keeper is to fail.
    pub fn fail_keeper(&mut self) -> Result<(), Memory>
        ensures { (r : Replay) → Stands self.old r → OnOk result (Stands self.new (doing r ToFail).replay) }
    {
        self.state.table.fail_keeper()
    }

    /// A statement of the administrator, which is as the grammar has it, is executed.
    fn execute(&mut self, alloc: Global, statement: &Statement, out: &mut Out) -> Result<(), Memory>
        requires { IsWritten statement.now }
        ensures { (r : Replay) → Stands self.old r → OnOk result (Leaves (doing r (ToExecute statement.now)) self.new out.old out.new) }
    {
        let mut put = Output::new(alloc);
        self.state.administer(alloc, statement, &mut put)?;
        self.put(NO_SESSION, &put, out)
    }

    /// A text of the administrator is executed as a statement, if it is one.
    pub fn administer(&mut self, alloc: Global, text: &[u8], out: &mut Out) -> Result<(), Memory>
        ensures { (r : Replay) → Stands self.old r → OnOk result (Leaves (administers r (statement_in text.now)) self.new out.old out.new) }
    {
        match read(alloc, text) {
            Ok(statement) => self.execute(alloc, &statement, out),
            Err(SyntaxFault::At { .. }) => print_no_statement(out),
            Err(SyntaxFault::Memory) => Err(Memory),
        }
    }

    /// A session begins, unless one of its number did.
    pub fn open(&mut self, alloc: Global, number: u32, out: &mut Out) -> Result<(), Memory>
        ensures { (r : Replay) → Stands self.old r → OnOk result (Leaves (doing r (ToOpen number)) self.new out.old out.new) }
    {
        let mut put = Output::new(alloc);
        self.state.open(alloc, number, &mut put)?;
        self.put(number, &put, out)
    }

    /// A session is answered calls of the account store, if it waits for one.
    pub fn call(
        &mut self,
        alloc: Global,
        number: u32,
        calls: Calls,
        out: &mut Out,
    ) -> Result<(), Memory>
        ensures { (r : Replay) → Stands self.old r → OnOk result (Leaves (doing r (ToCall number calls)) self.new out.old out.new) }
    {
        let mut put = Output::new(alloc);
        self.state.call(alloc, number, calls, &mut put)?;
        self.put(number, &put, out)
    }

    /// The peer of a session ends, or its link fails.
    pub fn leave(
        &mut self,
        alloc: Global,
        number: u32,
        peer: Peer,
        out: &mut Out,
    ) -> Result<(), Memory>
        ensures { (r : Replay) → Stands self.old r → OnOk result (Leaves (doing r (ToLeave number peer)) self.new out.old out.new) }
    {
        let mut put = Output::new(alloc);
        self.state.leave(alloc, number, peer, &mut put)?;
        self.put(number, &put, out)
    }

    /// The peer of a session sends bytes.
    fn send(
        &mut self,
        alloc: Global,
        number: u32,
        bytes: &[u8],
        out: &mut Out,
    ) -> Result<(), Memory>
        ensures { (r : Replay) → Stands self.old r → OnOk result (Leaves (doing r (ToSend number bytes.now)) self.new out.old out.new) }
    {
        let mut put = Output::new(alloc);
        self.state.send(alloc, number, bytes, &mut put)?;
        self.put(number, &put, out)
    }

    /// The same, where the peer is the script and no client.
    pub fn from_script(
        &mut self,
        alloc: Global,
        number: u32,
        bytes: &[u8],
        out: &mut Out,
    ) -> Result<(), Memory>
        ensures { (r : Replay) → Stands self.old r → OnOk result (Leaves (sends r number bytes.now (r.clients number)) self.new out.old out.new) }
    {
        if has_client(&self.clients, number) {
            return print_idles(out, number);
        }
        self.send(alloc, number, bytes, out)
    }

    /// A session begins whose peer is a client, unless one of its number did.
    pub fn begin(
        &mut self,
        alloc: Global,
        number: u32,
        flags: u32,
        user: &[u8],
        secrets: &Secrets,
        out: &mut Out,
    ) -> Result<(), Memory>
        requires user { HasNoZero user.now }
        requires secrets { AreFit secrets.now }
        requires options { AreUsable (record { flags = flags; clear = true }) }
        ensures { (r : Replay) → Stands self.old r → OnOk result (Leaves (begins r number (claim_of flags user.now secrets.now)) self.new out.old out.new) }
    {
        if self.state.is_used(number) {
            return print_idles(out, number);
        }
        let mut put = Output::new(alloc);
        self.state.open(alloc, number, &mut put)?;
        out.bytes(put.lines.as_slice())?;
        let held = HeldClient::new(alloc, flags, user, secrets, put.sent.as_slice())?;
        keep(&mut self.clients, number, held)
    }
}
