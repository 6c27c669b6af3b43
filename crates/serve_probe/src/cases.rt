//! The events of a case, one by one.

ghost use Rattle.shared_accounts.specs.Sharing.{Sits};
ghost use Rattle.std.specs.Prelude.{◌≡◌, IfOk};

use crate::administering::administer;
use crate::serving::{Peer, serve};
use account_keeper::MemoryKeeper;
use account_machine::Accounts;
use lg_base::{Items, Memory, Out};
use script_text::{Event, Script, ScriptFault};
use server_outside::CountedDraws;
use shared_accounts::{Seat, SharedAccounts};
use std::alloc::Global;
use std::sync::Wait;

/// Why a case wasn't run.
#[derive(Debug, Drop)]
pub enum Fault {
    /// It is no script, or has an event that no case has.
    Case,
    Memory,
}

impl From<Memory> for Fault {
    fn from(_want: Memory) -> Fault {
        Fault::Memory
    }
}

/// The numbers of a line `calls`, of which `-` is none.
fn numbers(alloc: Global, line: &str) -> Result<Items<u64>, Fault> {
    let mut numbers = Items::new(alloc);
    let (_, words) = line.split_once(' ').unwrap_or(("", "-"));
    if words == "-" {
        return Ok(numbers);
    }
    for word in words.split(',') {
        match word.parse::<u64>() {
            Ok(number) => numbers.push(number)?,
            Err(_) => return Err(Fault::Case),
        }
    }
    Ok(numbers)
}

/// The accounts of a script's start, with a keeper in memory that has no rows.
fn begin(
    alloc: Global,
    script: &Script,
) -> Result<(SharedAccounts<MemoryKeeper>, Seat<MemoryKeeper>), Memory>
    ensures own { IfOk result (λ made. Sits made.0 made.1) }
{
    let setup = script.setup();
    let accounts = Accounts::opening(alloc, setup.accounts.as_slice(), setup.settings)?;
    let keeper = MemoryKeeper::new(Items::new(alloc), Items::new(alloc));
    SharedAccounts::new(alloc, accounts, keeper)
}

/// What an event does to the accounts and to the session that has begun.
fn happen<R: Wait>(
    rt: &R,
    alloc: Global,
    shared: &SharedAccounts<MemoryKeeper>,
    seat: &mut Seat<MemoryKeeper>,
    draws: &mut CountedDraws,
    calls: &str,
    peer: &mut Peer,
    event: &Event,
    out: &mut Out,
) -> Result<(), Fault>
    requires own { Sits shared.now seat.old }
    ensures own { Sits shared.now seat.new }
{
    match event {
        Event::Clock { reading } => Ok(peer.read_clock(*reading)?),
        Event::Admin { text } => {
            let reading = peer.reading;
            administer(rt, alloc, shared, seat, draws, text.as_slice(), reading).ok_or(
                Fault::Memory,
            )
        }
        Event::Open { session } => Ok(peer.begin(alloc, *session)?),
        Event::FromPeer { bytes, .. } => Ok(peer.send(bytes.as_slice())?),
        Event::Run { .. } => {
            let failing = numbers(alloc, calls)?;
            Ok(serve(rt, alloc, shared, seat, draws, failing, peer, out)?)
        }
        _ => Err(Fault::Case),
    }
}

/// Runs the case of a script, and prints what its sessions wrote and how they ended.
pub fn run_case<R: Wait>(
    rt: &R,
    alloc: Global,
    calls: &str,
    text: &[u8],
    out: &mut Out,
) -> Result<(), Fault> {
    let script = match Script::read(alloc, text) {
        Ok(script) => script,
        Err(ScriptFault::BadLine { .. }) => return Err(Fault::Case),
        Err(ScriptFault::Memory) => return Err(Fault::Memory),
    };
    let (shared, mut seat) = begin(alloc, &script)?;
    let mut draws = CountedDraws::new();
    let mut peer = Peer::new(alloc);
    for event in script.events() {
        happen(
            rt, alloc, &shared, &mut seat, &mut draws, calls, &mut peer, event, out,
        )?;
    }
    Ok(())
}
