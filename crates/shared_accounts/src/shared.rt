//! The calls on shared accounts.

ghost use Rattle.account_history.specs.Histories.{history};
ghost use Rattle.account_history.specs.Legal.{last_count};
ghost use Rattle.account_history.specs.Preparing.{is_preparable, who_of};
ghost use Rattle.account_history.specs.Records.{records};
ghost use Rattle.account_history.specs.Sound.{IsWritten};
ghost use Rattle.account_history.specs.declared.entries.Who.TheVariants.{Login};
ghost use Rattle.account_machine.specs.Restarts.{rows_kept};
ghost use Rattle.sha256_crypt.specs.Alphabet.{IsSaltByte};
ghost use Rattle.shared_accounts.specs.Beginnings.{BeganRecorded};
ghost use Rattle.shared_accounts.specs.Desks.{desk_start};
ghost use Rattle.shared_accounts.specs.Sharing.{Extends, FailedLook, HasLook, IsCommitted, IsCommittedLocked, IsSettled, IsSettledLocked, Looked, OwnHasStood, Sits, no_salt, seen};
ghost use Rattle.std.specs.List.{All};
ghost use Rattle.std.specs.Prelude.{◌≡◌, ◌≤◌, [], false, List, ℕ, IfErr, IfOk, IfSome, IsSome, Some};
ghost use Rattle.turn_book.specs.Book.{Joined, began, view};
ghost use Rattle.turn_book.specs.Views.{CarriesAll, entries_seen, first_view, left, left_behind, mine, right};

use crate::calls::{
    AttemptCall, CommitCall, LockedAttemptCall, LockedCommitCall, LookCall, Outcome,
};
use crate::desk::Desk;
use crate::ticket::{Late, Ticket};
use account_history::{Prepared, Reply, StmtReply, Who};
use account_machine::Accounts;
use factor_chain::{Checked, Evidences, Look};
use lg_base::Memory;
use lg_outside::Keeper;
use std::alloc::Global;
use std::sync::Wait;
use stmt_rules::Statement;
use turn_book::{TurnBook, TurnFault};

/// The right to draw turns, and what its holder has seen of the history.
pub type Seat<K> = turn_book::Seat<Desk<K>>;

/// What an attempt to log in is answered.
#[derive(Drop)]
pub enum Settled {
    Done(Reply),
    /// The user's stamp has risen since the look. The evidence comes back.
    Stale(Late, Evidences),
    /// No turn of the book is left.
    BookEnd,
}

/// What an account statement is answered.
#[derive(Drop)]
pub enum Committed {
    Done(StmtReply),
    /// The user's stamp has risen since the look. The statement comes back.
    Stale(Late, Statement),
    /// No memory was to be had, and nothing changed.
    Memory,
    /// No turn of the book is left.
    BookEnd,
}

/// Accounts that threads share, with the keeper of their records.
#[derive(Drop)]
pub struct SharedAccounts<K: Keeper + Drop> {
    pub(crate) book: TurnBook<Desk<K>>,
}

impl<K: Keeper + Drop> SharedAccounts<K> {
    /// A book of the accounts, and its first seat, which has seen their history. The keeper's count of faults isn't below the
    /// history's: after `opening` and `load` the start has the count that it is told.
    pub fn new(
        alloc: Global,
        accounts: Accounts,
        keeper: K,
    ) -> Result<(SharedAccounts<K>, Seat<K>), Memory>
        requires { last_count (history accounts) ≤ K.fault_count keeper }
        ensures own { IfOk result (λ made. Sits made.0 made.1) }
        ensures began { IfOk result (λ made. began desk_start made.0.book ≡ record { log = accounts; rows = K.told_rows keeper }) }
        ensures seat { IfOk result (λ made. view made.1 ≡ first_view (began desk_start made.0.book) accounts.entries) }
        ensures seen { IfOk result (λ made. seen made.0 made.1 ≡ accounts) }
    {
        accounts.is_legal();
        let (book, seat) = TurnBook::new(alloc, Desk::new(accounts, keeper))?;
        Ok((SharedAccounts { book }, seat))
    }

    /// Splits a seat off, which has seen as much, made nothing and drawn nothing.
    pub fn split(&self, seat: &mut Seat<K>) -> Seat<K>
        requires own { Sits self.now seat.old }
        ensures own { Sits self.now seat.new × Sits self.now result }
        ensures old { view seat.new ≡ left (view seat.old) }
        ensures new { view result ≡ right (view seat.old) }
        ensures unmade { mine (view result) ≡ [] }
    {
        self.book.split(seat)
    }

    /// Takes another seat in. The seat has then seen what either had seen, and carries the numbers of both.
    pub fn meet(&self, seat: &mut Seat<K>, other: Seat<K>)
        requires own { Sits self.now seat.old }
        requires other { Sits self.now other }
        ensures own { Sits self.now seat.new }
        ensures joined { Joined (view seat.old) (view other) (view seat.new) }
    {
        self.book.meet(seat, other);
    }

    /// Looks at an account. The look is an entry, and the ticket gives the right to one call that is prepared on it.
    pub fn observe<R: Wait>(
        &self,
        rt: &R,
        alloc: Global,
        seat: &mut Seat<K>,
        who: &Who,
    ) -> Result<(Look, Ticket), TurnFault>
        requires own { Sits self.now seat.old }
        ensures own { Sits self.now seat.new }
        ensures number { (view seat.new).carried ≡ (view seat.old).carried }
        ensures look { IfOk result (λ r. Looked (began desk_start self.now.book) (view seat.old) (view seat.new) who.now r.0) }
        ensures here { IfOk result (λ r. HasLook (entries_seen (view seat.new)) who.now r.0) }
        ensures ticket { IfOk result (λ r. r.1 ≡ record { who = who.now; look = r.0; number = 0 }) }
        ensures fault { IfErr result (FailedLook (began desk_start self.now.book) (view seat.old) (view seat.new)) }
    {
        let look = self.look(rt, alloc, seat, who)?;
        let ticket = Ticket::of(who, &look, 0);
        Ok((look, ticket))
    }

    /// Looks again after the first stale answer.
    pub fn renew<R: Wait>(
        &self,
        rt: &R,
        alloc: Global,
        seat: &mut Seat<K>,
        late: Late,
        who: &Who,
    ) -> Result<(Look, Ticket), TurnFault>
        requires own { Sits self.now seat.old }
        requires late { (late.number ≡ 1) × (late.who ≡ who.now) }
        ensures own { Sits self.now seat.new }
        ensures number { (view seat.new).carried ≡ (view seat.old).carried }
        ensures look { IfOk result (λ r. Looked (began desk_start self.now.book) (view seat.old) (view seat.new) who.now r.0) }
        ensures here { IfOk result (λ r. HasLook (entries_seen (view seat.new)) who.now r.0) }
        ensures ticket { IfOk result (λ r. r.1 ≡ record { who = who.now; look = r.0; number = 1 }) }
        ensures fault { IfErr result (FailedLook (began desk_start self.now.book) (view seat.old) (view seat.new)) }
    {
        drop(late);
        let look = self.look(rt, alloc, seat, who)?;
        let ticket = Ticket::of(who, &look, 1);
        Ok((look, ticket))
    }

    /// Settles an attempt whose evidence was checked on the ticket's look.
    pub fn settle<R: Wait>(
        &self,
        rt: &R,
        seat: &mut Seat<K>,
        ticket: Ticket,
        checked: Checked,
        flags: u32,
        reading: u64,
    ) -> Settled
        requires own { Sits self.now seat.old }
        requires look { checked.look ≡ ticket.look }
        requires login { (user : List ℕ) × (ticket.who ≡ Login user) }
        requires seen { HasLook (entries_seen (view seat.old)) ticket.who ticket.look }
        ensures own { Sits self.now seat.new }
        ensures number { (view seat.new).carried ≡ (view seat.old).carried }
        ensures settled { IsSettled (began desk_start self.now.book) (view seat.old) (view seat.new) ticket checked flags reading result }
    {
        let mut call = AttemptCall {
            checked: &checked,
            flags,
            reading,
        };
        match self.book.turn(rt, seat, &mut call) {
            Ok(Outcome::Done(reply)) => Settled::Done(reply),
            Ok(Outcome::Stale(stamp)) => {
                Settled::Stale(ticket.into_late(stamp), checked.into_evidences())
            }
            Err(TurnFault::Memory) => unreachable!(),
            Err(TurnFault::BookEnd) => Settled::BookEnd,
        }
    }

    /// Settles an attempt after the second stale answer. The evidence is checked in the turn.
    pub fn settle_locked<R: Wait>(
        &self,
        rt: &R,
        seat: &mut Seat<K>,
        late: Late,
        user: &[u8],
        evidences: Evidences,
        flags: u32,
        reading: u64,
    ) -> Settled
        requires own { Sits self.now seat.old }
        requires late { (late.number ≡ 2) × (late.who ≡ Login user.now) }
        ensures own { Sits self.now seat.new }
        ensures number { (view seat.new).carried ≡ (view seat.old).carried }
        ensures settled { IsSettledLocked (began desk_start self.now.book) (view seat.old) (view seat.new) user.now evidences flags reading result }
    {
        drop(late);
        let mut call = LockedAttemptCall {
            user,
            evidences: &evidences,
            flags,
            reading,
        };
        match self.book.turn(rt, seat, &mut call) {
            Ok(reply) => Settled::Done(reply),
            Err(TurnFault::Memory) => unreachable!(),
            Err(TurnFault::BookEnd) => Settled::BookEnd,
        }
    }

    /// Executes a CREATE USER or an ALTER USER that was prepared on the ticket's look.
    pub fn commit<R: Wait>(
        &self,
        rt: &R,
        alloc: Global,
        seat: &mut Seat<K>,
        ticket: Ticket,
        prepared: Prepared,
        actor: u64,
        reading: u64,
    ) -> Committed
        requires own { Sits self.now seat.old }
        requires look { prepared.look ≡ ticket.look }
        requires whose { ticket.who ≡ who_of actor prepared.statement }
        requires actor { actor ≡ prepared.actor }
        requires seen { HasLook (entries_seen (view seat.old)) ticket.who ticket.look }
        requires stood { OwnHasStood (began desk_start self.now.book) (entries_seen (view seat.old)) ticket.who ticket.look }
        ensures own { Sits self.now seat.new }
        ensures number { (view seat.new).carried ≡ (view seat.old).carried }
        ensures committed { IsCommitted (began desk_start self.now.book) (view seat.old) (view seat.new) ticket prepared actor reading result }
    {
        let mut call = CommitCall {
            alloc,
            prepared: &prepared,
            actor,
            reading,
        };
        match self.book.turn(rt, seat, &mut call) {
            Ok(Outcome::Done(ran)) => Committed::Done(ran.reply),
            Ok(Outcome::Stale(stamp)) => {
                Committed::Stale(ticket.into_late(stamp), prepared.into_statement())
            }
            Err(TurnFault::Memory) => Committed::Memory,
            Err(TurnFault::BookEnd) => Committed::BookEnd,
        }
    }

    /// Prepares and executes a CREATE USER or an ALTER USER in one turn, after the second stale answer.
    pub fn commit_locked<R: Wait>(
        &self,
        rt: &R,
        alloc: Global,
        seat: &mut Seat<K>,
        late: Late,
        statement: Statement,
        salt: &[u8; 20],
        actor: u64,
        reading: u64,
    ) -> Committed
        requires own { Sits self.now seat.old }
        requires late { late.number ≡ 2 }
        requires written { IsWritten statement }
        requires letters { All IsSaltByte salt.now }
        ensures own { Sits self.now seat.new }
        ensures number { (view seat.new).carried ≡ (view seat.old).carried }
        ensures committed { IsCommittedLocked (began desk_start self.now.book) (view seat.old) (view seat.new) statement salt.now actor reading result }
    {
        drop(late);
        self.commit_in_turn(rt, alloc, seat, &statement, salt, actor, reading)
    }

    /// Executes a DROP USER, a FLUSH PRIVILEGES, a GRANT or a REVOKE. It has no password, so its salt is of no use.
    pub fn commit_plain<R: Wait>(
        &self,
        rt: &R,
        alloc: Global,
        seat: &mut Seat<K>,
        statement: Statement,
        actor: u64,
        reading: u64,
    ) -> Committed
        requires own { Sits self.now seat.old }
        requires kind { is_preparable statement ≡ false }
        requires written { IsWritten statement }
        ensures own { Sits self.now seat.new }
        ensures number { (view seat.new).carried ≡ (view seat.old).carried }
        ensures committed { IsCommittedLocked (began desk_start self.now.book) (view seat.old) (view seat.new) statement no_salt actor reading result }
    {
        let salt = [b'.'; 20];
        self.commit_in_turn(rt, alloc, seat, &statement, &salt, actor, reading)
    }

    /// Takes the book apart. The accounts and the keeper come back but where a drawn turn wasn't passed on, which can't be
    /// where the seat carries all numbers. Where the keeper told the records of the accounts when the book was made, it tells
    /// them now.
    pub fn close(self, seat: &mut Seat<K>) -> Option<(Accounts, K)>
        requires own { Sits self seat.old }
        ensures some { IfSome result (λ r. Extends (seen self seat.old) r.0) }
        ensures all { CarriesAll (view seat.old).carried → IfSome result (λ r. r.0 ≡ seen self seat.old) }
        ensures never { CarriesAll (view seat.old).carried → IsSome result }
        ensures rows { BeganRecorded (began desk_start self.book) → IfSome result (λ r. K.told_rows r.1 ≡ Some (rows_kept (records (history r.0)))) }
        ensures seat { view seat.new ≡ left_behind (view seat.old) }
    {
        let SharedAccounts { book } = self;
        let desk = book.close(seat)?;
        Some(desk.into_parts())
    }

    // One look in a turn.
    fn look<R: Wait>(
        &self,
        rt: &R,
        alloc: Global,
        seat: &mut Seat<K>,
        who: &Who,
    ) -> Result<Look, TurnFault>
        requires own { Sits self.now seat.old }
        ensures own { Sits self.now seat.new }
        ensures number { (view seat.new).carried ≡ (view seat.old).carried }
        ensures look { IfOk result (Looked (began desk_start self.now.book) (view seat.old) (view seat.new) who.now) }
        ensures here { IfOk result (HasLook (entries_seen (view seat.new)) who.now) }
        ensures fault { IfErr result (FailedLook (began desk_start self.now.book) (view seat.old) (view seat.new)) }
    {
        let mut call = LookCall { alloc, who };
        match self.book.turn(rt, seat, &mut call) {
            Ok(look) => Ok(look),
            Err(TurnFault::Memory) => Err(TurnFault::Memory),
            Err(TurnFault::BookEnd) => Err(TurnFault::BookEnd),
        }
    }

    // One statement that is prepared and executed in a turn.
    fn commit_in_turn<R: Wait>(
        &self,
        rt: &R,
        alloc: Global,
        seat: &mut Seat<K>,
        statement: &Statement,
        salt: &[u8; 20],
        actor: u64,
        reading: u64,
    ) -> Committed
        requires own { Sits self.now seat.old }
        requires written { IsWritten statement.now }
        requires letters { All IsSaltByte salt.now }
        ensures own { Sits self.now seat.new }
        ensures number { (view seat.new).carried ≡ (view seat.old).carried }
        ensures committed { IsCommittedLocked (began desk_start self.now.book) (view seat.old) (view seat.new) statement.now salt.now actor reading result }
    {
        let mut call = LockedCommitCall {
            alloc,
            statement,
            salt,
            actor,
            reading,
        };
        match self.book.turn(rt, seat, &mut call) {
            Ok(ran) => Committed::Done(ran.reply),
            Err(TurnFault::Memory) => Committed::Memory,
            Err(TurnFault::BookEnd) => Committed::BookEnd,
        }
    }
}
