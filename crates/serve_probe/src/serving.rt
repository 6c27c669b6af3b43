//! A session over a link in memory.

ghost use Rattle.shared_accounts.specs.Sharing.{Sits};

use crate::printing::{print_ending, print_written};
use account_keeper::MemoryKeeper;
use lg_base::{Bytes, Items, Memory, Out};
use lg_outside::MemoryLink;
use server_outside::{CountedDraws, ListClock, NoGate};
use session_serve::serve_session;
use shared_accounts::{Seat, SharedAccounts};
use std::alloc::Global;
use std::sync::Wait;

/// The room of a link for what is written to it.
const ROOM: usize = 1_048_576;

/// What a session's peer has sent, and what the clock reads while the session is served.
#[derive(Drop)]
pub struct Peer {
    pub session: u32,
    pub reading: u64,
    readings: Vec<u64>,
    sent: Vec<u8>,
}

impl Peer {
    /// Before the first session, with a clock that reads 0.
    pub fn new(alloc: Global) -> Peer {
        Peer {
            session: 0,
            reading: 0,
            readings: Vec::new(alloc),
            sent: Vec::new(alloc),
        }
    }

    /// A session begins, and nothing was sent to it.
    pub fn begin(&mut self, alloc: Global, session: u32) -> Result<(), Memory> {
        let mut readings = Vec::new(alloc);
        if readings.push(self.reading).is_err() {
            return Err(Memory);
        }
        self.session = session;
        self.readings = readings;
        self.sent = Vec::new(alloc);
        Ok(())
    }

    /// The clock reads this from now on.
    pub fn read_clock(&mut self, reading: u64) -> Result<(), Memory> {
        self.reading = reading;
        match self.readings.push(reading) {
            Ok(()) => Ok(()),
            Err(_) => Err(Memory),
        }
    }

    /// The peer sends these bytes.
    pub fn send(&mut self, bytes: &[u8]) -> Result<(), Memory> {
        match self.sent.extend_from_slice(bytes) {
            Ok(()) => Ok(()),
            Err(_) => Err(Memory),
        }
    }
}

/// The list of these readings.
fn listed(alloc: Global, readings: &[u64]) -> Result<Items<u64>, Memory> {
    let mut list = Items::new(alloc);
    for reading in readings {
        list.push(*reading)?;
    }
    Ok(list)
}

/// Serves the session, over a link whose calls with these numbers fail.
pub fn serve<R: Wait>(
    rt: &R,
    alloc: Global,
    shared: &SharedAccounts<MemoryKeeper>,
    seat: &mut Seat<MemoryKeeper>,
    draws: &mut CountedDraws,
    failing: Items<u64>,
    peer: &Peer,
    out: &mut Out,
) -> Result<(), Memory>
    requires own { Sits shared.now seat.old }
    ensures own { Sits shared.now seat.new }
{
    let sent = Bytes::copy(alloc, peer.sent.as_slice())?;
    let mut link = MemoryLink::new(alloc, sent, ROOM, true, failing)?;
    let mut clock = ListClock::new(listed(alloc, peer.readings.as_slice())?);
    let session = peer.session;
    let how = serve_session(
        rt, alloc, shared, seat, &mut link, &mut clock, draws, &NoGate, session,
    );
    print_written(out, session, link.written())?;
    print_ending(out, session, how)
}
