//! The accounts with their keeper.

ghost use Rattle.account_history.specs.Preparing.{is_preparable, who_of};
ghost use Rattle.account_history.specs.Sound.{IsWritten};
ghost use Rattle.account_history.specs.declared.entries.Who.TheVariants.{Account};
ghost use Rattle.sha256_crypt.specs.Alphabet.{IsSaltByte};
ghost use Rattle.std.specs.List.{All};
ghost use Rattle.std.specs.Prelude.{◌≡◌, IfOk};

use account_history::laws::accounts_are_sound;
use account_history::{Prepared, Reply, StmtReply, Who, prepare};
use account_keeper::MemoryKeeper;
use account_machine::{Accounts, MachineFault};
use account_rules::Settings;
use factor_chain::{Evidences, Look, check};
use lg_base::{Bytes, Memory, Name};
use lg_outside::{Keeper, Row};
use std::alloc::Global;
use std::marker::Model;
use stmt_rules::{Statement, Target};
use stmt_syntax::{SyntaxFault, read};

/// Accounts, the keeper of their records, and the settings that they are loaded with. Its type keeps that the keeper's count
/// of faults isn't below the last one of the history.
#[derive(Drop)]
pub struct Site {
    accounts: Accounts,
    keeper: MemoryKeeper,
    settings: Settings,
}

impl Model for Site {
    ghost use Rattle.account_history.specs.declared.entries.Log.{Log};
    ghost use Rattle.account_history.specs.Histories.{history};
    ghost use Rattle.account_history.specs.Legal.{last_count};
    ghost use Rattle.std.specs.Prelude.{◌≤◌};

    ghost Value = { Log };

    ghost view = { λ s. s.accounts };

    ghost invariant = { λ s. last_count (history s.accounts) ≤ s.keeper.plan.faults };
}

/// What a line with a statement comes to.
#[derive(Debug, Drop)]
pub enum Outcome {
    /// It was executed and answered so.
    Answered(StmtReply),
    /// It is no statement from this place on.
    NoStatement(usize),
    Memory,
}

/// The salt that each new password takes: twenty full stops.
fn salt() -> [u8; 20]
    ensures { All IsSaltByte result }
{
    [b'.'; 20]
}

/// The statement of a text.
fn statement_of(alloc: Global, text: &[u8]) -> Result<Statement, SyntaxFault>
    ensures { IfOk result IsWritten }
{
    accounts_are_sound();
    let statement = read(alloc, text)?;
    Ok(statement)
}

/// The accounts of the keeper's rows.
pub fn begin(
    alloc: Global,
    mut keeper: MemoryKeeper,
    settings: Settings,
) -> Result<Site, MachineFault> {
    let Ok(rows) = keeper.load() else {
        return Err(MachineFault::Memory);
    };
    let accounts = Accounts::load(alloc, rows.as_slice(), settings)?;
    Ok(Site {
        accounts,
        keeper,
        settings,
    })
}

/// Whether a statement may set a password.
fn is_preparable(statement: &Statement) -> bool
    ensures { result ≡ is_preparable statement.now }
{
    match statement {
        Statement::Create { .. } => true,
        Statement::Alter { .. } => true,
        Statement::Drop { .. } => false,
        Statement::Flush => false,
        Statement::Grant { .. } => false,
        Statement::Revoke { .. } => false,
    }
}

fn named(alloc: Global, name: &Name) -> Result<Who, Memory>
    ensures { IfOk result (λ who. who ≡ Account name.now) }
{
    Ok(Who::Account(Name {
        user: Bytes::copy(alloc, name.user.as_slice())?,
        host: name.host,
    }))
}

/// Whose account a statement is about.
fn who_of(alloc: Global, statement: &Statement, actor: u64) -> Result<Who, Memory>
    ensures { IfOk result (λ who. who ≡ who_of actor statement.now) }
{
    match statement {
        Statement::Create { name, .. } => named(alloc, name),
        Statement::Alter { target, .. } => match target {
            Target::Own => Ok(Who::Own(actor)),
            Target::Named(name) => named(alloc, name),
        },
        Statement::Drop { name } => named(alloc, name),
        Statement::Flush => Ok(Who::Own(actor)),
        Statement::Grant { name, .. } => named(alloc, name),
        Statement::Revoke { name, .. } => named(alloc, name),
    }
}

impl Site {
    ghost use Rattle.account_history.specs.Answers.{look_of};
    ghost use Rattle.account_history.specs.Histories.{history};
    ghost use Rattle.account_history.specs.Preparing.{is_preparable, who_of};
    ghost use Rattle.account_history.specs.Sound.{IsWritten};
    ghost use Rattle.std.specs.Prelude.{◌≡◌, IfOk, IsTrue};

    /// Loads the keeper's rows again.
    pub fn restart(&mut self, alloc: Global) -> bool {
        let Ok(rows) = self.keeper.load() else {
            return false;
        };
        match Accounts::load(alloc, rows.as_slice(), self.settings) {
            Ok(accounts) => {
                self.accounts = accounts;
                true
            }
            Err(_) => false,
        }
    }

    /// Lets the next call of the keeper fail.
    pub fn plan_failure(&mut self) -> bool {
        self.keeper.fail_next().is_ok()
    }

    /// Executes the statement of a text.
    pub fn execute(&mut self, alloc: Global, text: &[u8], actor: u64, reading: u64) -> Outcome {
        match statement_of(alloc, text) {
            Ok(statement) => self.commit(alloc, &statement, actor, reading),
            Err(SyntaxFault::At { place }) => Outcome::NoStatement(place),
            Err(SyntaxFault::Memory) => Outcome::Memory,
        }
    }

    /// Executes the statement of a text, which is prepared on a look where it may set a password.
    pub fn execute_prepared(
        &mut self,
        alloc: Global,
        text: &[u8],
        actor: u64,
        reading: u64,
    ) -> Outcome {
        match statement_of(alloc, text) {
            Ok(statement) => {
                if is_preparable(&statement) {
                    return self.commit_prepared(alloc, statement, actor, reading);
                }
                self.commit(alloc, &statement, actor, reading)
            }
            Err(SyntaxFault::At { place }) => Outcome::NoStatement(place),
            Err(SyntaxFault::Memory) => Outcome::Memory,
        }
    }

    fn prepared(&self, alloc: Global, statement: Statement, actor: u64) -> Result<Prepared, Memory>
        requires written { IsWritten statement }
        requires kind { IsTrue (is_preparable statement) }
        ensures look { IfOk result (λ p. p.look ≡ look_of (history self.now) (who_of actor statement)) }
        ensures statement { IfOk result (λ p. p.statement ≡ statement) }
        ensures actor { IfOk result (λ p. p.actor ≡ actor) }
    {
        let who = who_of(alloc, &statement, actor)?;
        let look = self.accounts.observe(alloc, &who)?;
        prepare(alloc, look, statement, &salt(), actor)
    }

    fn commit_prepared(
        &mut self,
        alloc: Global,
        statement: Statement,
        actor: u64,
        reading: u64,
    ) -> Outcome
        requires written { IsWritten statement }
        requires kind { IsTrue (is_preparable statement) }
    {
        let Ok(prepared) = self.prepared(alloc, statement, actor) else {
            return Outcome::Memory;
        };
        match self
            .accounts
            .commit(alloc, &prepared, actor, reading, &mut self.keeper)
        {
            Ok(reply) => Outcome::Answered(reply),
            Err(Memory) => Outcome::Memory,
        }
    }

    fn commit(&mut self, alloc: Global, statement: &Statement, actor: u64, reading: u64) -> Outcome
        requires { IsWritten statement.now }
    {
        let salt = salt();
        match self
            .accounts
            .commit_here(alloc, statement, &salt, actor, reading, &mut self.keeper)
        {
            Ok(reply) => Outcome::Answered(reply),
            Err(Memory) => Outcome::Memory,
        }
    }

    /// One attempt to log in.
    pub fn attempt(
        &mut self,
        user: &[u8],
        evidences: &Evidences,
        flags: u32,
        reading: u64,
    ) -> Reply {
        self.accounts.attempt_here(user, evidences, flags, reading)
    }

    /// One attempt to log in, whose evidence is checked on a look.
    pub fn settle(
        &mut self,
        alloc: Global,
        user: &[u8],
        evidences: Evidences,
        flags: u32,
        reading: u64,
    ) -> Result<Reply, Memory> {
        let who = Who::Login(Bytes::copy(alloc, user)?);
        let look = self.accounts.observe(alloc, &who)?;
        let checked = check(look, evidences);
        Ok(self.accounts.attempt(&checked, flags, reading))
    }

    /// A look at an account.
    pub fn look(&mut self, alloc: Global, who: &Who) -> Result<Look, Memory> {
        let look = self.accounts.observe(alloc, who)?;
        self.accounts.observed(who, &look);
        Ok(look)
    }

    /// The keeper's rows.
    pub fn rows(&self) -> &[Row] {
        self.keeper.rows()
    }
}
