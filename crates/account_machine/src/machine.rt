//! The account machine: one object that stands for a history of looks, attempts and account statements.

use crate::attempting::attempt_on;
use crate::committing::{next_change, perform};
use crate::executing::{Numbers, next_numbers};
use crate::forgetting::make_room;
use crate::loading::{LoadNote, MachineFault, load_rows};
use crate::looks::look_at;
use crate::notes::{AttemptNote, CountNote, LookNote, StartNote, StatementNote};
use crate::openings::opening_rows;
use crate::rows::Row;
use crate::stamps::Stamps;
use crate::targets::first_refusal;
use account_history::{Log, Opening, Prepared, Reply, StmtReply, Who};
use account_rules::Settings;
use digest_cache::Digests;
use factor_chain::{Checked, Evidences, Look};
use ghost_value::GhostValue;
use lg_base::{Code, Memory};
use lg_outside::Keeper;
use std::alloc::Global;
use std::marker::Model;
use stmt_rules::Statement;

/// The accounts with their tallies. Contracts see the history that they stand for.
#[derive(Drop)]
pub struct Accounts {
    rows: Vec<Row>,
    settings: Settings,
    moment: u64,
    /// The greatest numbers that were ever given.
    numbers: Numbers,
    stamps: Stamps,
    /// The digests of passwords that users have logged in with.
    digests: Digests,
    /// How often a stamp was raised: no stamp is greater.
    changes: u64,
    log: GhostValue<Log>,
}

impl Model for Accounts {
    ghost use Rattle.account_history.specs.declared.entries.Log.{Log};
    ghost use Rattle.account_history.specs.Histories.{history};
    ghost use Rattle.account_machine.specs.Digesting.{AreDigests};
    ghost use Rattle.account_machine.specs.Stands.{Stands};

    ghost Value = { Log };

    ghost view = { λ a. a.log.value };

    ghost invariant = { λ a. Stands a.rows.items a.settings a.moment a.numbers a.stamps a.changes (history a.log.value)
        × AreDigests a.digests (history a.log.value) };
}

impl Accounts {
    ghost use Rattle.account_history.specs.Answers.{attempt_reply, look_of, statement_refusal, statement_reply};
    ghost use Rattle.account_history.specs.Given.{given};
    ghost use Rattle.account_history.specs.Histories.{history, moment, noted};
    ghost use Rattle.account_history.specs.Legal.{IsExecuted, IsLegal, calls_keeper, changes_accounts, last_count};
    ghost use Rattle.account_history.specs.Numbers.{RiseTo};
    ghost use Rattle.account_history.specs.Records.{records};
    ghost use Rattle.account_history.specs.Sound.{IsWritten};
    ghost use Rattle.account_history.specs.Stamps.{stamp};
    ghost use Rattle.account_history.specs.declared.entries.Entry.TheVariants.{Attempted, Executed, Observed};
    ghost use Rattle.account_history.specs.declared.entries.StmtReply.TheVariants.{Refused};
    ghost use Rattle.account_history.specs.declared.entries.Who.TheVariants.{Login};
    ghost use Rattle.account_machine.specs.Agreeing.{Agrees};
    ghost use Rattle.account_machine.specs.Committing.{execution_of, has_failed, told_after};
    ghost use Rattle.account_machine.specs.Labels.{ShowsFewLabels};
    ghost use Rattle.account_machine.specs.Loading.{AreLoadable, IsFault, IsFirstBad, IsLoaded, Loads, Refuses, loaded};
    ghost use Rattle.account_machine.specs.Openings.{are_openings, opening_start};
    ghost use Rattle.account_history.specs.Preparing.{who_of};
    ghost use Rattle.account_rules.specs.declared.accounts.Account.{Account};
    ghost use Rattle.lg_outside.specs.Faults.{Rose};
    ghost use Rattle.lg_outside.specs.Keeping.{Ascend};
    ghost use Rattle.sha256_crypt.specs.Alphabet.{IsSaltByte};
    ghost use Rattle.std.specs.List.{All};
    ghost use Rattle.std.specs.Prelude.{◌≡◌, ◌≤◌, max, [], false, None, IfErr, IfOk, IfSome, IsTrue, List, OnErr, ℕ};

    /// The accounts of a start: `'root'@'localhost'` with number 1, without a password and with both
    /// privileges, and a native account at `localhost` for each of `extra`, with the next numbers. Each
    /// credential has its account's number.
    pub fn opening(alloc: Global, extra: &[Opening], settings: Settings) -> Result<Accounts, Memory>
        requires { IsTrue (are_openings extra.now) }
        ensures { IfOk result (λ made. made ≡ record { start = opening_start extra.now settings; entries = [] }) }
    {
        let rows = opening_rows(alloc, extra)?;
        let last = extra.len() as u64 + 1;
        let mut digests = Digests::new(alloc);
        make_room(&mut digests, rows.len())?;
        Ok(Accounts {
            rows,
            settings,
            moment: 0,
            numbers: Numbers {
                account: last,
                credential: last,
            },
            stamps: Stamps::new(alloc),
            digests,
            changes: 0,
            log: GhostValue::of(&StartNote { extra, settings }),
        })
    }

    /// The accounts whose records the rows of a keeper are, with the rows' keys as their numbers, or `'root'@'localhost'` alone
    /// where there is no row. The numbers of their passwords are given anew, from 1 on, in order. A row is bad that is no
    /// record, or whose account has the name of an earlier one; the fault names the first.
    pub fn load(
        alloc: Global,
        rows: &[lg_outside::Row],
        settings: Settings,
    ) -> Result<Accounts, MachineFault>
        requires { Ascend rows.now }
        ensures loaded { IfOk result (IsLoaded rows.now settings) }
        ensures bad { IfErr result (IsFault rows.now) }
        ensures found { (accounts : List Account) → AreLoadable rows.now accounts → Loads (λ made. made ≡ loaded accounts settings) result }
        ensures first { (key : ℕ) → IsFirstBad rows.now key → Refuses key result }
    {
        let made = load_rows(alloc, rows)?;
        let mut digests = Digests::new(alloc);
        make_room(&mut digests, made.rows.len())?;
        let log = GhostValue::of(&LoadNote {
            rows: made.rows.as_slice(),
            settings,
        });
        Ok(Accounts {
            rows: made.rows,
            settings,
            moment: made.moment,
            numbers: made.numbers,
            stamps: Stamps::new(alloc),
            digests,
            changes: 0,
            log,
        })
    }

    /// Says how many faults the keeper of the accounts had at the start. It is for accounts whose history has no entry yet.
    pub fn begin_with(&mut self, count: u64)
        requires { self.old.entries ≡ [] }
        ensures { self.new ≡ record { start = record self.old.start { count = count }; entries = [] } }
    {
        self.log = GhostValue::of(&CountNote {
            log: &self.log,
            count,
        });
    }

    /// What is seen of an account, which has at most two further factors. The history has an entry of it once
    /// [`Accounts::observed`] is told.
    pub fn observe(&self, alloc: Global, who: &Who) -> Result<Look, Memory>
        ensures look { IfOk result (λ look. look ≡ look_of (history self.now) who.now) }
        ensures labels { IfOk result (λ look. IfSome look.in_force ShowsFewLabels) }
    {
        let _log = &self.log;
        let _changes = self.changes;
        look_at(
            alloc,
            self.rows.as_slice(),
            &self.digests,
            &self.stamps,
            who,
        )
    }

    /// Notes that a look was answered. It has no effect but the entry of the history.
    pub fn observed(&mut self, who: &Who, look: &Look)
        requires { look.now ≡ look_of (history self.old) who.now }
        ensures { self.new ≡ noted self.old (Observed who.now look.now) }
    {
        self.log = GhostValue::of(&LookNote {
            log: &self.log,
            who,
            look,
        });
    }

    /// The stamp of a user: how often what the user logs in with has changed.
    pub fn stamp(&self, user: &[u8]) -> u64
        ensures { result ≡ stamp (history self.now) user.now }
    {
        let _log = &self.log;
        let _changes = self.changes;
        self.stamps.of(user)
    }

    /// That the history is legal, and the numbers of its accounts rise up to the greatest that was given.
    pub fn is_legal(&self)
        ensures legal { IsLegal (history self.now) }
        ensures rising { RiseTo 0 (given (history self.now)).account (records (history self.now)) }
    {
        let _log = &self.log;
    }

    /// One attempt to log in, whose evidence was checked on a look at the accounts as they are.
    pub fn attempt(&mut self, checked: &Checked, flags: u32, reading: u64) -> Reply
        requires { Agrees (history self.old) (Login checked.now.look.user) checked.now.look }
        ensures reply { result ≡ attempt_reply (history self.old) checked.now.look.user checked.now.evidences flags reading }
        ensures entry { self.new ≡ noted self.old (Attempted (record {
          user = checked.now.look.user;
          evidences = checked.now.evidences;
          flags = flags;
          reading = reading;
          reply = result;
        })) }
    {
        let user = checked.look().user.as_slice();
        self.attempt_here(user, checked.evidences(), flags, reading)
    }

    /// One attempt to log in.
    pub fn attempt_here(
        &mut self,
        user: &[u8],
        evidences: &Evidences,
        flags: u32,
        reading: u64,
    ) -> Reply
        ensures reply { result ≡ attempt_reply (history self.old) user.now evidences.now flags reading }
        ensures entry { self.new ≡ noted self.old (Attempted (record {
          user = user.now;
          evidences = evidences.now;
          flags = flags;
          reading = reading;
          reply = result;
        })) }
    {
        let now = self.moment.max(reading);
        let settings = self.settings;
        let reply = attempt_on(
            &mut self.rows,
            &mut self.digests,
            &settings,
            user,
            evidences,
            flags,
            now,
        );
        self.moment = now;
        self.log = GhostValue::of(&AttemptNote {
            log: &self.log,
            user,
            evidences,
            flags,
            reading,
            reply: &reply,
        });
        reply
    }

    /// Executes an account statement that the account with the number `actor` asks for. `salt` is what a new password of
    /// the caching method takes. The statement is refused, or done, or the keeper fails; where there is a refusal, or the
    /// statement is FLUSH PRIVILEGES, the keeper isn't called. After `Memory` nothing has changed here, and at the keeper
    /// neither a row that it tells nor its count of faults. `Memory` is also answered where a number, or the count of
    /// changes, is at the end of its type. The statement is one that the grammar gives, and the salt is of the alphabet of
    /// salts.
    pub fn commit_here<K: Keeper>(
        &mut self,
        alloc: Global,
        statement: &Statement,
        salt: &[u8; 20],
        actor: u64,
        reading: u64,
        keeper: &mut K,
    ) -> Result<StmtReply, Memory>
        requires written { IsWritten statement.now }
        requires letters { All IsSaltByte salt.now }
        requires count { last_count (history self.old) ≤ K.fault_count keeper.old }
        ensures entry { IfOk result (λ reply. self.new ≡ noted self.old (Executed
            (execution_of (history self.old) statement.now salt.now actor reading (K.fault_count keeper.new) reply))) }
        ensures reply { IfOk result (λ reply. reply ≡ statement_reply (history self.old) statement.now actor reading
            (has_failed (history self.old) statement.now actor reading reply)) }
        ensures cause { IfOk result (λ reply. IsTrue (has_failed (history self.old) statement.now actor reading reply)
            → IsTrue (changes_accounts statement.now) × Rose (K.fault_count keeper.old) (K.fault_count keeper.new)) }
        ensures rows { IfOk result (λ reply. K.told_rows keeper.new
            ≡ told_after (history self.old) statement.now salt.now actor reading reply (K.told_rows keeper.old)) }
        ensures rising { K.fault_count keeper.old ≤ K.fault_count keeper.new }
        ensures count { last_count (history self.new) ≤ K.fault_count keeper.new }
        ensures err { OnErr result (self.new ≡ self.old) }
        ensures err_rows { OnErr result (K.told_rows keeper.new ≡ K.told_rows keeper.old) }
        ensures err_count { OnErr result (K.fault_count keeper.new ≡ K.fault_count keeper.old) }
        ensures uncalled { calls_keeper (statement_refusal (history self.old) statement.now actor reading) statement.now ≡ false → keeper.new ≡ keeper.old }
    {
        match self.refusal(alloc, statement, actor, reading) {
            Ok(Some(code)) => {
                let count = keeper.faults();
                Ok(self.refuse(statement, salt, actor, reading, count, code))
            }
            Ok(None) => self.carry_out(alloc, statement, salt, actor, reading, keeper),
            Err(fault) => Err(fault),
        }
    }

    /// Executes a CREATE USER or an ALTER USER that was prepared on a look at the account that it is about, as it is now.
    /// The rest is as with [`Accounts::commit_here`].
    pub fn commit<K: Keeper>(
        &mut self,
        alloc: Global,
        prepared: &Prepared,
        actor: u64,
        reading: u64,
        keeper: &mut K,
    ) -> Result<StmtReply, Memory>
        requires look { Agrees (history self.old) (who_of actor prepared.now.statement) prepared.now.look }
        requires actor { actor ≡ prepared.now.actor }
        requires count { last_count (history self.old) ≤ K.fault_count keeper.old }
        ensures entry { IfOk result (λ reply. self.new ≡ noted self.old (Executed
            (execution_of (history self.old) prepared.now.statement prepared.now.salt actor reading (K.fault_count keeper.new) reply))) }
        ensures reply { IfOk result (λ reply. reply ≡ statement_reply (history self.old) prepared.now.statement actor reading
            (has_failed (history self.old) prepared.now.statement actor reading reply)) }
        ensures cause { IfOk result (λ reply. IsTrue (has_failed (history self.old) prepared.now.statement actor reading reply)
            → IsTrue (changes_accounts prepared.now.statement) × Rose (K.fault_count keeper.old) (K.fault_count keeper.new)) }
        ensures rows { IfOk result (λ reply. K.told_rows keeper.new
            ≡ told_after (history self.old) prepared.now.statement prepared.now.salt actor reading reply (K.told_rows keeper.old)) }
        ensures rising { K.fault_count keeper.old ≤ K.fault_count keeper.new }
        ensures count { last_count (history self.new) ≤ K.fault_count keeper.new }
        ensures err { OnErr result (self.new ≡ self.old) }
        ensures err_rows { OnErr result (K.told_rows keeper.new ≡ K.told_rows keeper.old) }
        ensures err_count { OnErr result (K.fault_count keeper.new ≡ K.fault_count keeper.old) }
        ensures uncalled { calls_keeper (statement_refusal (history self.old) prepared.now.statement actor reading) prepared.now.statement ≡ false
            → keeper.new ≡ keeper.old }
    {
        self.commit_here(
            alloc,
            prepared.statement(),
            prepared.salt(),
            actor,
            reading,
            keeper,
        )
    }

    /// The moment of an entry at a reading of the clock: not earlier than the one before.
    fn moment_at(&self, reading: u64) -> u64
        ensures { result ≡ max reading (moment (history self.now)) }
    {
        let _log = &self.log;
        self.moment.max(reading)
    }

    /// Why a statement is refused.
    fn refusal(
        &self,
        alloc: Global,
        statement: &Statement,
        actor: u64,
        reading: u64,
    ) -> Result<Option<Code>, Memory>
        ensures { IfOk result (λ r. r ≡ statement_refusal (history self.now) statement.now actor reading) }
    {
        let now = self.moment_at(reading);
        let settings = self.settings;
        let refusal = first_refusal(
            alloc,
            self.rows.as_slice(),
            &settings,
            statement,
            actor,
            now,
        )?;
        Ok(refusal)
    }

    /// Notes a statement that changes no account.
    fn refuse(
        &mut self,
        statement: &Statement,
        salt: &[u8; 20],
        actor: u64,
        reading: u64,
        count: u64,
        code: Code,
    ) -> StmtReply
        requires { IsExecuted (history self.old) (execution_of (history self.old) statement.now salt.now actor reading count (Refused code)) }
        ensures entry { self.new ≡ noted self.old (Executed
            (execution_of (history self.old) statement.now salt.now actor reading count (Refused code))) }
        ensures reply { result ≡ Refused code }
    {
        let reply = StmtReply::Refused(code);
        self.moment = self.moment_at(reading);
        self.log = GhostValue::of(&StatementNote {
            log: &self.log,
            statement,
            salt,
            actor,
            reading,
            count,
            reply: &reply,
        });
        reply
    }

    /// Does a statement that isn't refused.
    fn carry_out<K: Keeper>(
        &mut self,
        alloc: Global,
        statement: &Statement,
        salt: &[u8; 20],
        actor: u64,
        reading: u64,
        keeper: &mut K,
    ) -> Result<StmtReply, Memory>
        requires refusal { statement_refusal (history self.old) statement.now actor reading ≡ None }
        requires written { IsWritten statement.now }
        requires letters { All IsSaltByte salt.now }
        requires count { last_count (history self.old) ≤ K.fault_count keeper.old }
        ensures entry { IfOk result (λ reply. self.new ≡ noted self.old (Executed
            (execution_of (history self.old) statement.now salt.now actor reading (K.fault_count keeper.new) reply))) }
        ensures reply { IfOk result (λ reply. reply ≡ statement_reply (history self.old) statement.now actor reading
            (has_failed (history self.old) statement.now actor reading reply)) }
        ensures cause { IfOk result (λ reply. IsTrue (has_failed (history self.old) statement.now actor reading reply)
            → IsTrue (changes_accounts statement.now) × Rose (K.fault_count keeper.old) (K.fault_count keeper.new)) }
        ensures rows { IfOk result (λ reply. K.told_rows keeper.new
            ≡ told_after (history self.old) statement.now salt.now actor reading reply (K.told_rows keeper.old)) }
        ensures rising { K.fault_count keeper.old ≤ K.fault_count keeper.new }
        ensures err { OnErr result (self.new ≡ self.old) }
        ensures err_rows { OnErr result (K.told_rows keeper.new ≡ K.told_rows keeper.old) }
        ensures err_count { OnErr result (K.fault_count keeper.new ≡ K.fault_count keeper.old) }
        ensures uncalled { changes_accounts statement.now ≡ false → keeper.new ≡ keeper.old }
    {
        let now = self.moment_at(reading);
        let numbers = next_numbers(&self.numbers, statement)?;
        let changes = next_change(self.changes)?;
        let done = perform(
            alloc,
            &mut self.rows,
            &mut self.stamps,
            &mut self.digests,
            &self.numbers,
            statement,
            salt,
            actor,
            now,
            keeper,
        )?;
        let count = keeper.faults();
        if !done {
            return Ok(self.refuse(statement, salt, actor, reading, count, Code::KeeperFault));
        }
        let reply = StmtReply::Done;
        self.moment = now;
        self.numbers = numbers;
        self.changes = changes;
        self.log = GhostValue::of(&StatementNote {
            log: &self.log,
            statement,
            salt,
            actor,
            reading,
            count,
            reply: &reply,
        });
        Ok(reply)
    }
}
