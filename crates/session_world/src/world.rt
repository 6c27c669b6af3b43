//! A world as a whole: the events of a script happen in it one by one.

ghost use Rattle.script_text.specs.EventLines.{IsEvent};
ghost use Rattle.script_text.specs.Reading.{IsSetup};
ghost use Rattle.session_world.specs.Replays.{Replay, happens, new_replay, printed_text};
ghost use Rattle.session_world.specs.Standing.{HasFailed, Mirrors, last_text, summary_text};
ghost use Rattle.std.specs.Prelude.{◌≡◌, ◌++◌, IfOk, OnErr, OnOk, IsErr};

use crate::stage::Stage;
use crate::state::State;
use lg_base::{Memory, Out};
use script_text::{Event, Setup};
use std::alloc::Global;
use std::collections::BTreeMap;
use world_table::Table;
use world_table::printing::{print_last, print_summary};

/// Accounts with their history, a clock, draws, and sessions by their numbers, some with a login client.
#[derive(Drop)]
pub struct World {
    stage: Stage,
    failed: bool,
    alloc: Global,
}

impl World {
    /// The world of a start, before any event.
    #[tactic(auto, unfolding(crate::specs::Standing::Mirrors))]
    pub fn new(alloc: Global, setup: &Setup) -> Result<World, Memory>
        requires { IsSetup setup.now }
        ensures { IfOk result (λ made. Mirrors made (new_replay (setup.now).accounts (setup.now).settings)) }
    {
        let table = Table::new(alloc, setup.accounts.as_slice(), setup.settings)?;
        let state = State {
            table,
            sessions: BTreeMap::new(alloc),
        };
        let stage = Stage {
            state,
            clients: BTreeMap::new(alloc),
        };
        Ok(World {
            stage,
            failed: false,
            alloc,
        })
    }

    /// An event happens, and its lines are added to `out`. After `Memory` no line is added, and the world has failed:
    /// each further event is answered so.
    #[tactic(auto, unfolding(crate::specs::Standing::HasFailed, crate::specs::Standing::Mirrors))]
    pub fn step(&mut self, event: &Event, out: &mut Out) -> Result<(), Memory>
        requires { IsEvent event.now }
        ensures left { (r : Replay) → Mirrors self.old r → OnOk result (Mirrors self.new (happens r event.now).replay) }
        ensures printed { (r : Replay) → Mirrors self.old r → OnOk result (out.new ≡ out.old ++ printed_text (happens r event.now).printed) }
        ensures unprinted { OnErr result (out.new ≡ out.old) }
        ensures failed { OnErr result (HasFailed self.new) }
        ensures stays { HasFailed self.old → IsErr result }
    {
        if self.failed {
            return Err(Memory);
        }
        self.failed = true;
        let mut lines = Out::new(self.alloc);
        self.stage.happen(self.alloc, event, &mut lines)?;
        out.bytes(lines.as_slice())?;
        self.failed = false;
        Ok(())
    }

    /// Adds the last line: how many entries the history has. After `Memory` nothing is added. A world that has failed
    /// answers so.
    #[tactic(auto, unfolding(crate::specs::Standing::HasFailed, crate::specs::Standing::Mirrors))]
    pub fn finish(&self, out: &mut Out) -> Result<(), Memory>
        ensures printed { (r : Replay) → Mirrors self.now r → OnOk result (out.new ≡ out.old ++ last_text r) }
        ensures unprinted { OnErr result (out.new ≡ out.old) }
        ensures stays { HasFailed self.now → IsErr result }
    {
        if self.failed {
            return Err(Memory);
        }
        let mut line = Out::new(self.alloc);
        print_last(&mut line, self.stage.state.table.entries())?;
        out.bytes(line.as_slice())
    }

    /// Adds the line that sums up the history: how many entries it has, how many attempts that opened, and how many others.
    /// After `Memory` nothing is added. A world that has failed answers so.
    #[tactic(auto, unfolding(crate::specs::Standing::HasFailed, crate::specs::Standing::Mirrors))]
    pub fn summary(&self, out: &mut Out) -> Result<(), Memory>
        ensures printed { (r : Replay) → Mirrors self.now r → OnOk result (out.new ≡ out.old ++ summary_text r) }
        ensures unprinted { OnErr result (out.new ≡ out.old) }
        ensures stays { HasFailed self.now → IsErr result }
    {
        if self.failed {
            return Err(Memory);
        }
        let table = &self.stage.state.table;
        let mut line = Out::new(self.alloc);
        print_summary(&mut line, table.entries(), table.opened(), table.refused())?;
        out.bytes(line.as_slice())
    }
}
