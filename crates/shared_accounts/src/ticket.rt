//! Tickets and stale answers.

ghost use Rattle.shared_accounts.specs.Tickets.{LateOf, TicketOf};
ghost use Rattle.std.specs.Prelude.{◌≡◌, ◌+◌, ◌<◌, ◌≤◌};

use account_history::Who;
use factor_chain::Look;
use ghost_value::{Denotes, GhostValue};
use std::marker::Model;

/// Whose look it is.
#[derive(Drop)]
struct WhoNote<'a> {
    who: &'a Who,
}

impl<'a> Denotes<Who> for WhoNote<'a> {
    ghost denoted = { λ n. n.who.now };
}

/// A look.
#[derive(Drop)]
struct LookNote<'a> {
    look: &'a Look,
}

impl<'a> Denotes<Look> for LookNote<'a> {
    ghost denoted = { λ n. n.look.now };
}

/// What a look gives the right to: one call that is prepared on it. It keeps the look's stamp, and how many stale answers
/// there were, 0 or 1. Contracts see the look, and whose it is.
#[derive(Drop)]
pub struct Ticket {
    who: GhostValue<Who>,
    look: GhostValue<Look>,
    stamp: u64,
    number: u8,
}

impl Model for Ticket {
    ghost use Rattle.shared_accounts.specs.Tickets.{TicketOf};
    ghost use Rattle.std.specs.Prelude.{◌≡◌, ◌≤◌};

    ghost Value = { TicketOf };

    ghost view = { λ t. record { who = t.who.value; look = t.look.value; number = t.number } };

    ghost invariant = { λ t. (t.stamp ≡ t.look.value.stamp) × (t.number ≤ 1) };
}

impl Ticket {
    /// The stamp of the look.
    pub fn stamp(&self) -> u64
        ensures { result ≡ self.now.look.stamp }
    {
        self.stamp
    }

    /// How many stale answers there were.
    pub fn number(&self) -> u8
        ensures number { result ≡ self.now.number }
        ensures most { result ≤ 1 }
    {
        self.number
    }

    /// A ticket for a look, after so many stale answers.
    pub(crate) fn of(who: &Who, look: &Look, number: u8) -> Ticket
        requires { number ≤ 1 }
        ensures { result ≡ record { who = who.now; look = look.now; number = number } }
    {
        Ticket {
            who: GhostValue::of(&WhoNote { who }),
            look: GhostValue::of(&LookNote { look }),
            stamp: look.stamp,
            number,
        }
    }

    /// The stale answer with a greater stamp.
    pub(crate) fn into_late(self, stamp: u64) -> Late
        requires { self.look.stamp < stamp }
        ensures { result ≡ record { who = self.who; stamp = stamp; number = self.number + 1 } }
    {
        let Ticket {
            who,
            look: _,
            stamp: _,
            number,
        } = self;
        Late {
            who,
            stamp,
            number: number + 1,
        }
    }
}

/// A stale answer: it keeps the greater stamp that was seen, and which answer it is, 1 or 2. Contracts see whose it is.
#[derive(Drop)]
pub struct Late {
    who: GhostValue<Who>,
    stamp: u64,
    number: u8,
}

impl Model for Late {
    ghost use Rattle.shared_accounts.specs.Tickets.{LateOf};
    ghost use Rattle.std.specs.Prelude.{◌≤◌};

    ghost Value = { LateOf };

    ghost view = { λ l. record { who = l.who.value; stamp = l.stamp; number = l.number } };

    ghost invariant = { λ l. (1 ≤ l.number) × (l.number ≤ 2) };
}

impl Late {
    /// The greater stamp that was seen.
    pub fn stamp(&self) -> u64
        ensures { result ≡ self.now.stamp }
    {
        self.stamp
    }

    /// Which stale answer it is.
    pub fn number(&self) -> u8
        ensures number { result ≡ self.now.number }
        ensures least { 1 ≤ result }
        ensures most { result ≤ 2 }
    {
        self.number
    }
}
