//! What all sessions of a world have in common: the accounts with their history and their keeper, the clock, the draws.

ghost use Rattle.account_history.specs.declared.entries.Entry.TheVariants.{Executed, Observed};
ghost use Rattle.account_history.specs.Replies.{opens};
ghost use Rattle.account_history.specs.Sound.{IsWritten};
ghost use Rattle.sha256_crypt.specs.Alphabet.{IsSaltByte};
ghost use Rattle.std.specs.List.{All};
ghost use Rattle.world_table.specs.Attempts.{opened_in, refused_in};
ghost use Rattle.world_table.specs.Drawing.{drawn_nonce};
ghost use Rattle.world_table.specs.Statements.{administered, executed, executes, executes_salted, executes_seen, with_execution};
ghost use Rattle.world_table.specs.Table.{attempted, is_stale, next_number, replied, seen, with_draw, with_entry, with_failure};
ghost use Rattle.world_table.specs.Printing.{entry_line, lines_text};
ghost use Rattle.account_machine.specs.Openings.{are_openings, opening_start};
ghost use Rattle.session_talk.specs.Turns.{has_few_labels};
ghost use Rattle.std.specs.Prelude.{◌≡◌, ◌+◌, ◌<◌, ◌^◌, ◌++◌, [], cond, false, length, IfOk, IsTrue, OnOk, ◌&&◌, not, if◌then◌else◌};

use crate::printing::{print_attempt, print_look, print_statement};
use crate::statements::{has_by, is_keeper_fault, is_preparable, no_salt, was_called, who_of};
use account_history::{Opening, Reply, StmtReply, Who};
use account_keeper::MemoryKeeper;
use account_machine::Accounts;
use account_rules::Settings;
use factor_chain::{Evidences, Look};
use lg_base::{Items, Memory, Out};
use lg_outside::Keeper;
use std::alloc::Global;
use std::marker::Model;
use stmt_rules::Statement;

/// The digits of a nonce.
const DIGITS: usize = 20;

/// The number of the account whose statements a script tells.
const ADMINISTRATOR: u64 = 1;

/// The accounts and their keeper, the reading of the clock, and how many nonces and salts were drawn.
#[derive(Drop)]
pub struct Table {
    accounts: Accounts,
    keeper: MemoryKeeper,
    /// Whether the keeper's next call fails.
    fails: bool,
    clock: u64,
    drawn: u64,
    entries: u64,
    /// The attempts among them that opened, and the others.
    opened: u64,
    refused: u64,
    /// The faults of the keeper that the history tells.
    faults: u64,
}

impl Model for Table {
    ghost use Rattle.world_table.specs.Table.{AreCounted, Common};

    ghost Value = { Common };

    ghost view = { λ t. record { log = t.accounts; clock = t.clock; drawn = t.drawn; fails = t.fails } };

    ghost invariant = { λ t. AreCounted t.entries t.opened t.refused t.faults t.accounts t.keeper.plan.faults };
}

/// The nonce of a draw: its number, in 20 digits.
#[tactic(auto, unfolding(crate::specs::Drawing::drawn_nonce))]
fn nonce_of(number: u64) -> [u8; 20]
    ensures { result ≡ drawn_nonce number }
{
    let mut text = [b'0'; DIGITS];
    let mut rest = number;
    let mut place = DIGITS;
    'digits: while place > 0 {
        place -= 1;
        text[place] = b'0' + (rest % 10) as u8;
        rest /= 10;
    }
    text
}

/// The number after this one.
fn one_more(number: u64) -> Result<u64, Memory>
    ensures { IfOk result (λ next. next ≡ number + 1) }
{
    match number.checked_add(1) {
        Some(next) => Ok(next),
        None => Err(Memory),
    }
}

/// One more where the one that came is counted.
fn more_where(count: u64, counts: bool) -> u64
    requires { count + 1 < 2 ^ 64 }
    ensures { result ≡ count + cond counts 1 0 }
{
    count + u64::from(counts)
}

/// Whether a session opens, also one that is in a sandbox.
fn opens(reply: Reply) -> bool
    ensures { result ≡ opens reply }
{
    matches!(reply, Reply::Opened { .. } | Reply::Sandbox { .. })
}

/// Tests that the keeper went as it was told: it failed exactly where it was called and was to fail, and its count, which was
/// `before`, tells so.
fn test_keeper(
    before: u64,
    count: u64,
    fails: bool,
    called: bool,
    failed: bool,
) -> Result<(), Memory>
    ensures told { OnOk result (failed ≡ (called && fails)) }
    ensures counted { OnOk result (count ≡ (if failed then before + 1 else before)) }
{
    if failed != (called && fails) {
        return Err(Memory);
    }
    let due = if failed { one_more(before)? } else { before };
    if count == due { Ok(()) } else { Err(Memory) }
}

/// Whether a failure that was told is still to come, once a statement was answered.
fn is_left(fails: bool, called: bool) -> bool
    ensures { result ≡ (fails && not called) }
{
    fails && !called
}

impl Table {
    /// The accounts of a start, before any event.
    pub fn new(alloc: Global, extra: &[Opening], settings: Settings) -> Result<Table, Memory>
        requires { IsTrue (are_openings extra.now) }
        ensures { IfOk result (λ made. made ≡ record { log = record { start = opening_start extra.now settings; entries = [] }; clock = 0; drawn = 0; fails = false }) }
    {
        Ok(Table {
            accounts: Accounts::opening(alloc, extra, settings)?,
            keeper: MemoryKeeper::new(Items::new(alloc), Items::new(alloc)),
            fails: false,
            clock: 0,
            drawn: 0,
            entries: 0,
            opened: 0,
            refused: 0,
            faults: 0,
        })
    }

    /// Sets the clock.
    pub fn set_clock(&mut self, reading: u64)
        ensures { self.new ≡ record self.old { clock = reading } }
    {
        self.clock = reading;
    }

    /// The keeper's next call fails.
    pub fn fail_keeper(&mut self) -> Result<(), Memory>
        ensures { OnOk result (self.new ≡ with_failure self.old) }
    {
        self.keeper.fail_next()?;
        self.fails = true;
        Ok(())
    }

    /// How many entries the history has.
    pub fn entries(&self) -> u64
        ensures { result ≡ length self.now.log.entries }
    {
        self.entries
    }

    /// How many attempts of the history opened, also those in a sandbox.
    pub fn opened(&self) -> u64
        ensures { result ≡ opened_in self.now.log }
    {
        self.opened
    }

    /// How many other attempts the history has.
    pub fn refused(&self) -> u64
        ensures { result ≡ refused_in self.now.log }
    {
        self.refused
    }

    /// Draws a nonce or a salt.
    #[tactic(auto, using(crate::proofs::Lettered::drawn_letters))]
    pub fn draw(&mut self) -> Result<[u8; 20], Memory>
        ensures nonce { IfOk result (λ nonce. nonce ≡ drawn_nonce (self.old.drawn + 1)) }
        ensures letters { IfOk result (All IsSaltByte) }
        ensures drawn { OnOk result (self.new ≡ with_draw self.old) }
    {
        let drawn = self.drawn.checked_add(1).ok_or(Memory)?;
        self.drawn = drawn;
        Ok(nonce_of(drawn))
    }

    /// Whether a user's credentials have changed since a look.
    pub fn is_stale(&self, look: &Look) -> bool
        ensures { result ≡ is_stale self.now look.now }
    {
        look.stamp < self.accounts.stamp(look.user.as_slice())
    }

    /// Looks at an account, which is an entry of the history, and prints its line.
    #[tactic(auto, using(crate::proofs::Labels::few_labels))]
    pub fn look(&mut self, alloc: Global, who: &Who, out: &mut Out) -> Result<Look, Memory>
        ensures look { IfOk result (λ look. look ≡ seen self.old who.now) }
        ensures labels { IfOk result (λ look. IsTrue (has_few_labels look.in_force)) }
        ensures entry { OnOk result (self.new ≡ with_entry self.old (Observed who.now (seen self.old who.now))) }
        ensures printed { OnOk result (out.new ≡ out.old ++ entry_line (next_number self.old) (Observed who.now (seen self.old who.now))) }
    {
        let look = self.accounts.observe(alloc, who)?;
        let entries = one_more(self.entries)?;
        print_look(out, entries, look.user.as_slice())?;
        self.accounts.observed(who, &look);
        self.entries = entries;
        Ok(look)
    }

    /// Settles an attempt, whose evidence is checked in the same step, and prints its line.
    pub fn settle(
        &mut self,
        user: &[u8],
        evidences: &Evidences,
        flags: u32,
        out: &mut Out,
    ) -> Result<Reply, Memory>
        ensures reply { IfOk result (λ reply. reply ≡ replied self.old user.now evidences.now flags) }
        ensures entry { OnOk result (self.new ≡ with_entry self.old (attempted self.old user.now evidences.now flags)) }
        ensures printed { OnOk result (out.new ≡ out.old ++ entry_line (next_number self.old) (attempted self.old user.now evidences.now flags)) }
    {
        let entries = one_more(self.entries)?;
        let reading = self.clock;
        let reply = self.accounts.attempt_here(user, evidences, flags, reading);
        let opened = opens(reply);
        self.entries = entries;
        self.opened = more_where(self.opened, opened);
        self.refused = more_where(self.refused, !opened);
        print_attempt(out, entries, user, reply)?;
        Ok(reply)
    }

    /// Executes an account statement, which is an entry of the history, and prints its line. `actor` is the number of the
    /// account that asks for it, and `salt` what a new password of the caching method takes. The statement is as the grammar
    /// has it.
    pub fn execute(
        &mut self,
        alloc: Global,
        statement: &Statement,
        salt: &[u8; 20],
        actor: u64,
        out: &mut Out,
    ) -> Result<StmtReply, Memory>
        requires written { IsWritten statement.now }
        requires letters { All IsSaltByte salt.now }
        ensures reply { IfOk result (λ reply. reply ≡ (executed self.old statement.now salt.now actor).reply) }
        ensures entry { OnOk result (self.new ≡ with_execution self.old (executed self.old statement.now salt.now actor)) }
        ensures printed { OnOk result (out.new ≡ out.old ++ entry_line (next_number self.old) (Executed (executed self.old statement.now salt.now actor))) }
    {
        let entries = one_more(self.entries)?;
        let (before, fails, reading) = (self.faults, self.fails, self.clock);
        let reply = self
            .accounts
            .commit_here(alloc, statement, salt, actor, reading, &mut self.keeper)?;
        let count = self.keeper.faults();
        self.entries = entries;
        self.faults = count;
        let called = was_called(&reply, statement);
        let failed = is_keeper_fault(&reply);
        // The accounts tell of any keeper that it may fail; this one fails where it was told to, and there alone.
        test_keeper(before, count, fails, called, failed)?;
        self.fails = is_left(fails, called);
        print_statement(out, entries, &reply)?;
        Ok(reply)
    }

    /// Executes a statement of the administrator with this salt.
    #[tactic(auto, unfolding(crate::specs::Printing::line_text))]
    fn execute_with(
        &mut self,
        alloc: Global,
        statement: &Statement,
        salt: &[u8; 20],
        out: &mut Out,
    ) -> Result<(), Memory>
        requires written { IsWritten statement.now }
        requires letters { All IsSaltByte salt.now }
        ensures common { OnOk result (self.new ≡ (executes self.old statement.now salt.now).common) }
        ensures printed { OnOk result (out.new ≡ out.old ++ lines_text 0 (executes self.old statement.now salt.now).lines) }
    {
        let _reply = self.execute(alloc, statement, salt, ADMINISTRATOR, out)?;
        Ok(())
    }

    /// Executes a statement of the administrator, with a salt that is drawn where one is wanted.
    fn execute_salted(
        &mut self,
        alloc: Global,
        statement: &Statement,
        wanted: bool,
        out: &mut Out,
    ) -> Result<(), Memory>
        requires { IsWritten statement.now }
        ensures common { OnOk result (self.new ≡ (executes_salted wanted self.old statement.now).common) }
        ensures printed { OnOk result (out.new ≡ out.old ++ lines_text 0 (executes_salted wanted self.old statement.now).lines) }
    {
        if !wanted {
            return self.execute_with(alloc, statement, &no_salt(), out);
        }
        let salt = self.draw()?;
        self.execute_with(alloc, statement, &salt, out)
    }

    /// Executes a statement of the administrator that is prepared, on a look at the account that it is about.
    #[tactic(auto, unfolding(crate::specs::Printing::line_text))]
    fn execute_seen(
        &mut self,
        alloc: Global,
        statement: &Statement,
        who: &Who,
        out: &mut Out,
    ) -> Result<(), Memory>
        requires { IsWritten statement.now }
        ensures common { OnOk result (self.new ≡ (executes_seen self.old statement.now who.now).common) }
        ensures printed { OnOk result (out.new ≡ out.old ++ lines_text 0 (executes_seen self.old statement.now who.now).lines) }
    {
        let _look = self.look(alloc, who, out)?;
        self.execute_salted(alloc, statement, has_by(statement), out)
    }

    /// Executes a statement of the administrator, as the grammar has it. Its entries are those of no session.
    pub fn administer(
        &mut self,
        alloc: Global,
        statement: &Statement,
        out: &mut Out,
    ) -> Result<(), Memory>
        requires { IsWritten statement.now }
        ensures common { OnOk result (self.new ≡ (administered self.old statement.now).common) }
        ensures printed { OnOk result (out.new ≡ out.old ++ lines_text 0 (administered self.old statement.now).lines) }
    {
        if !is_preparable(statement) {
            return self.execute_with(alloc, statement, &no_salt(), out);
        }
        let who = who_of(alloc, ADMINISTRATOR, statement)?;
        self.execute_seen(alloc, statement, &who, out)
    }
}
