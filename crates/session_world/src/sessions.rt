//! The sessions of a world, by their numbers.

ghost use Rattle.session_world.specs.Sessions.{AreBeside, IsTaken};
ghost use Rattle.session_world.specs.Worlds.{AreAt, IsAt, Place, with_place};
ghost use Rattle.std.specs.Prelude.{ℕ, Option, OnOk};

use crate::held::Held;
use lg_base::Memory;
use std::collections::BTreeMap;

/// Takes the session of a number out, if there is one.
pub fn take(sessions: &mut BTreeMap<u32, Held>, number: u32) -> Option<Held>
    ensures { (places : ℕ → Option Place) → AreAt sessions.old places → IsTaken number places sessions.new result }
{
    sessions.remove(&number)
}

/// Puts a session where none of its number is.
pub fn keep(sessions: &mut BTreeMap<u32, Held>, number: u32, held: Held) -> Result<(), Memory>
    ensures { (places : ℕ → Option Place) (place : Place) → AreBeside number sessions.old places → IsAt number place held → OnOk result (AreAt sessions.new (with_place places number place)) }
{
    match sessions.insert(number, held) {
        Ok(_) => Ok(()),
        Err(_) => Err(Memory),
    }
}
