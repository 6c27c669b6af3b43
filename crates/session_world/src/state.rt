//! What is kept of a world of sessions, and what is done to it.

ghost use Rattle.account_history.specs.Sound.{IsWritten};
ghost use Rattle.session_world.specs.Leading.{with_lines};
ghost use Rattle.session_world.specs.Sessions.{AreBeside, Follows, put_by, world_of};
ghost use Rattle.session_world.specs.Worlds as world;
ghost use Rattle.session_world.specs.Worlds.{AreAt, IsAt, Place, ToExecute, going_on, idle, is_over_at, is_there_at, waits_at};
ghost use Rattle.std.specs.Prelude.{◌≡◌, [], ◌∷◌, ℕ, Option, Some, is_some, OnOk};
ghost use Rattle.world_table.specs.Printing.{Idle};

use crate::calls::{Calls, Peer};
use crate::held::Held;
use crate::keeping::{go, has_ended, is_peer_there, open, waits_for_call, with_bytes, with_peer};
use crate::output::Output;
use crate::sessions::{keep, take};
use lg_base::Memory;
use std::alloc::Global;
use std::collections::BTreeMap;
use stmt_rules::Statement;
use world_table::Table;

/// What all sessions have in common, and the sessions by their numbers.
#[derive(Drop)]
pub struct State {
    pub table: Table,
    pub sessions: BTreeMap<u32, Held>,
}

impl State {
    /// Whether there is a session of a number.
    pub fn is_used(&self, number: u32) -> bool
        ensures { (places : ℕ → Option Place) → AreAt self.now.sessions places → result ≡ is_some (places number) }
    {
        self.sessions.get(&number).is_some()
    }

    /// Whether bytes and the end still come to a session: there is one, it hasn't ended, and its peer is there.
    pub fn is_there(&self, number: u32) -> bool
        ensures { (places : ℕ → Option Place) → AreAt self.now.sessions places → result ≡ is_there_at (places number) }
    {
        match self.sessions.get(&number) {
            None => false,
            Some(held) => is_peer_there(held),
        }
    }

    /// Whether a session waits for a call of the account store.
    pub fn waits(&self, number: u32) -> bool
        ensures { (places : ℕ → Option Place) → AreAt self.now.sessions places → result ≡ waits_at (places number) }
    {
        match self.sessions.get(&number) {
            None => false,
            Some(held) => waits_for_call(held),
        }
    }

    /// Whether a session has ended.
    pub fn is_over(&self, number: u32) -> bool
        ensures { (places : ℕ → Option Place) → AreAt self.now.sessions places → result ≡ is_over_at (places number) }
    {
        match self.sessions.get(&number) {
            None => false,
            Some(held) => has_ended(held),
        }
    }

    /// A session that was taken out goes on with what an event allows, and is put back.
    fn resume(
        &mut self,
        alloc: Global,
        number: u32,
        held: Held,
        calls: Calls,
        out: &mut Output,
    ) -> Result<(), Memory>
        ensures left { (places : ℕ → Option Place) (place : Place) → AreBeside number self.old.sessions places → IsAt number place held → OnOk result (Follows (going_on (world_of self.old.table places) number calls place) self.new.table self.new.sessions) }
        ensures printed { (places : ℕ → Option Place) (place : Place) → IsAt number place held → OnOk result (out.new ≡ put_by (going_on (world_of self.old.table places) number calls place) out.old) }
    {
        let held = go(alloc, held, calls, &mut self.table, out)?;
        keep(&mut self.sessions, number, held)
    }

    /// A session that was taken out is put back as it is, since nothing is to be done.
    fn rest(&mut self, number: u32, held: Held, out: &mut Output) -> Result<(), Memory>
        ensures left { (places : ℕ → Option Place) (place : Place) → AreBeside number self.old.sessions places → places number ≡ Some place → IsAt number place held → OnOk result (Follows (idle (world_of self.old.table places) number) self.new.table self.new.sessions) }
        ensures printed { OnOk result (out.new ≡ with_lines number (Idle ∷ []) out.old) }
    {
        out.put_idle(number)?;
        keep(&mut self.sessions, number, held)
    }

    /// A statement of the administrator, which is as the grammar has it, is executed.
    pub fn administer(
        &mut self,
        alloc: Global,
        statement: &Statement,
        out: &mut Output,
    ) -> Result<(), Memory>
        requires { IsWritten statement.now }
        ensures left { (places : ℕ → Option Place) → AreAt self.old.sessions places → OnOk result (Follows (world.does (world_of self.old.table places) (ToExecute statement.now)) self.new.table self.new.sessions) }
        ensures printed { (places : ℕ → Option Place) → OnOk result (out.new ≡ put_by (world.does (world_of self.old.table places) (ToExecute statement.now)) out.old) }
    {
        self.table.administer(alloc, statement, &mut out.lines)
    }

    /// A session begins, unless one of its number did.
    pub fn open(&mut self, alloc: Global, number: u32, out: &mut Output) -> Result<(), Memory>
        ensures left { (places : ℕ → Option Place) → AreAt self.old.sessions places → OnOk result (Follows (world.moved (world_of self.old.table places) (world.opening (world_of self.old.table places) number (places number))) self.new.table self.new.sessions) }
        ensures printed { (places : ℕ → Option Place) → AreAt self.old.sessions places → OnOk result (out.new ≡ put_by (world.moved (world_of self.old.table places) (world.opening (world_of self.old.table places) number (places number))) out.old) }
    {
        match take(&mut self.sessions, number) {
            Some(held) => self.rest(number, held, out),
            None => {
                let held = open(alloc, number, &mut self.table, out)?;
                keep(&mut self.sessions, number, held)
            }
        }
    }

    /// A session that waits for a call of the account store is answered, as often as is allowed.
    pub fn call(
        &mut self,
        alloc: Global,
        number: u32,
        calls: Calls,
        out: &mut Output,
    ) -> Result<(), Memory>
        ensures left { (places : ℕ → Option Place) → AreAt self.old.sessions places → OnOk result (Follows (world.moved (world_of self.old.table places) (world.calling (world_of self.old.table places) number calls (places number))) self.new.table self.new.sessions) }
        ensures printed { (places : ℕ → Option Place) → AreAt self.old.sessions places → OnOk result (out.new ≡ put_by (world.moved (world_of self.old.table places) (world.calling (world_of self.old.table places) number calls (places number))) out.old) }
    {
        match take(&mut self.sessions, number) {
            None => out.put_idle(number),
            Some(held) => {
                if waits_for_call(&held) {
                    self.resume(alloc, number, held, calls, out)
                } else {
                    self.rest(number, held, out)
                }
            }
        }
    }

    /// The peer of a session sends bytes.
    pub fn send(
        &mut self,
        alloc: Global,
        number: u32,
        bytes: &[u8],
        out: &mut Output,
    ) -> Result<(), Memory>
        ensures left { (places : ℕ → Option Place) → AreAt self.old.sessions places → OnOk result (Follows (world.moved (world_of self.old.table places) (world.sending (world_of self.old.table places) number bytes.now (places number))) self.new.table self.new.sessions) }
        ensures printed { (places : ℕ → Option Place) → AreAt self.old.sessions places → OnOk result (out.new ≡ put_by (world.moved (world_of self.old.table places) (world.sending (world_of self.old.table places) number bytes.now (places number))) out.old) }
    {
        match take(&mut self.sessions, number) {
            None => out.put_idle(number),
            Some(held) => {
                if is_peer_there(&held) {
                    let held = with_bytes(held, bytes)?;
                    self.resume(alloc, number, held, Calls::Nothing, out)
                } else {
                    self.rest(number, held, out)
                }
            }
        }
    }

    /// The peer of a session ends, or its link fails.
    pub fn leave(
        &mut self,
        alloc: Global,
        number: u32,
        peer: Peer,
        out: &mut Output,
    ) -> Result<(), Memory>
        ensures left { (places : ℕ → Option Place) → AreAt self.old.sessions places → OnOk result (Follows (world.moved (world_of self.old.table places) (world.leaving (world_of self.old.table places) number peer (places number))) self.new.table self.new.sessions) }
        ensures printed { (places : ℕ → Option Place) → AreAt self.old.sessions places → OnOk result (out.new ≡ put_by (world.moved (world_of self.old.table places) (world.leaving (world_of self.old.table places) number peer (places number))) out.old) }
    {
        match take(&mut self.sessions, number) {
            None => out.put_idle(number),
            Some(held) => {
                if is_peer_there(&held) {
                    self.resume(alloc, number, with_peer(held, peer), Calls::Nothing, out)
                } else {
                    self.rest(number, held, out)
                }
            }
        }
    }
}
