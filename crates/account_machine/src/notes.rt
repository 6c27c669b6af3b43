//! What a call adds to the history, as a value that only contracts read.

ghost use Rattle.account_history.specs.Histories.{history, noted};
ghost use Rattle.account_history.specs.declared.entries.Entry.TheVariants.{Attempted, Executed, Observed};
ghost use Rattle.account_machine.specs.Committing.{execution_of};
ghost use Rattle.account_machine.specs.Openings.{opening_start};
ghost use Rattle.std.specs.Prelude.{[]};

use account_history::{Log, Opening, Reply, StmtReply, Who};
use account_rules::Settings;
use factor_chain::{Evidences, Look};
use ghost_value::{Denotes, GhostValue};
use stmt_rules::Statement;

/// A history that starts with these accounts beside `root`.
#[derive(Drop)]
pub struct StartNote<'a> {
    pub extra: &'a [Opening],
    pub settings: Settings,
}

impl<'a> Denotes<Log> for StartNote<'a> {
    ghost denoted = { λ n. record { start = opening_start n.extra.now n.settings; entries = [] } };
}

/// A history without entries, whose start has this count of faults of the keeper.
#[derive(Drop)]
pub struct CountNote<'a> {
    pub log: &'a GhostValue<Log>,
    pub count: u64,
}

impl<'a> Denotes<Log> for CountNote<'a> {
    ghost denoted = { λ n. record { start = record (n.log.now.value).start { count = n.count }; entries = [] } };
}

/// A history with one look more.
#[derive(Drop)]
pub struct LookNote<'a> {
    pub log: &'a GhostValue<Log>,
    pub who: &'a Who,
    pub look: &'a Look,
}

impl<'a> Denotes<Log> for LookNote<'a> {
    ghost denoted = { λ n. noted n.log.now.value (Observed n.who.now n.look.now) };
}

/// A history with one attempt more.
#[derive(Drop)]
pub struct AttemptNote<'a> {
    pub log: &'a GhostValue<Log>,
    pub user: &'a [u8],
    pub evidences: &'a Evidences,
    pub flags: u32,
    pub reading: u64,
    pub reply: &'a Reply,
}

impl<'a> Denotes<Log> for AttemptNote<'a> {
    ghost denoted = { λ n. noted n.log.now.value (Attempted (record {
      user = n.user.now;
      evidences = n.evidences.now;
      flags = n.flags;
      reading = n.reading;
      reply = n.reply.now;
    })) };
}

/// A history with one statement more.
#[derive(Drop)]
pub struct StatementNote<'a> {
    pub log: &'a GhostValue<Log>,
    pub statement: &'a Statement,
    pub salt: &'a [u8; 20],
    pub actor: u64,
    pub reading: u64,
    pub count: u64,
    pub reply: &'a StmtReply,
}

impl<'a> Denotes<Log> for StatementNote<'a> {
    ghost denoted = { λ n. noted n.log.now.value (Executed (execution_of (history n.log.now.value)
        n.statement.now n.salt.now n.actor n.reading n.count n.reply.now)) };
}
