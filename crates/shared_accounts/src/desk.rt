//! What the book shares: the accounts and their keeper.

ghost use Rattle.account_history.specs.Histories.{history};
ghost use Rattle.account_history.specs.Legal.{last_count};
ghost use Rattle.account_history.specs.Records.{records};
ghost use Rattle.account_machine.specs.Restarts.{rows_kept};
ghost use Rattle.shared_accounts.specs.Beginnings.{BeganRecorded};
ghost use Rattle.std.specs.Prelude.{◌≡◌, ◌≤◌, Some};

use account_history::{Entry, Log};
use account_machine::Accounts;
use ghost_value::{Denotes, GhostValue};
use lg_base::Items;
use lg_outside::{Keeper, Row};
use turn_book::Object;

/// What a book of accounts began with. No value of it is made: contracts see it.
#[derive(Debug, Drop)]
pub struct Begun {
    /// The history that the accounts stood for.
    pub log: Log,
    /// The rows of the keeper, where it tells them.
    pub rows: Option<Items<Row>>,
}

/// What a book of these accounts and this keeper begins with.
#[derive(Drop)]
pub struct BegunNote<'a, K: Keeper> {
    pub accounts: &'a Accounts,
    pub keeper: &'a K,
}

impl<'a, K: Keeper> Denotes<Begun> for BegunNote<'a, K> {
    ghost denoted = { λ n. record { log = n.accounts.now; rows = K.told_rows n.keeper.now } };
}

/// The accounts and their keeper, whose count of faults is never below the history's, and whose rows stay the records of the
/// accounts.
#[derive(Drop)]
pub struct Desk<K: Keeper> {
    pub(crate) accounts: Accounts,
    pub(crate) keeper: K,
    pub(crate) begun: GhostValue<Begun>,
    pub ghost start: { accounts.start ≡ begun.value.log.start },
    pub ghost counted: { last_count (history accounts) ≤ K.fault_count keeper },
    pub ghost recorded: { BeganRecorded begun.value → K.told_rows keeper ≡ Some (rows_kept (records (history accounts))) },
}

impl<K: Keeper + Drop> Desk<K> {
    ghost use Rattle.account_history.specs.Histories.{history};
    ghost use Rattle.account_history.specs.Legal.{last_count};
    ghost use Rattle.std.specs.Prelude.{◌≡◌, ◌≤◌};

    pub(crate) fn new(accounts: Accounts, keeper: K) -> Desk<K>
        requires { last_count (history accounts) ≤ K.fault_count keeper }
        ensures accounts { result.accounts ≡ accounts }
        ensures begun { result.begun.value ≡ record { log = accounts; rows = K.told_rows keeper } }
    {
        let begun = GhostValue::of(&BegunNote {
            accounts: &accounts,
            keeper: &keeper,
        });
        Desk {
            accounts,
            keeper,
            begun,
        }
    }

    pub(crate) fn into_parts(self) -> (Accounts, K)
        ensures { (result.0 ≡ self.accounts) × (result.1 ≡ self.keeper) }
    {
        let Desk {
            accounts,
            keeper,
            begun: _,
        } = self;
        (accounts, keeper)
    }
}

impl<K: Keeper + Drop> Object for Desk<K> {
    ghost use Rattle.shared_accounts.specs.Desks.{desk_start, desk_entries};

    type Start = Begun;

    type Entry = Entry;

    ghost start = { desk_start };

    ghost entries = { desk_entries };

    ghost opening = { λ _ _. Unit {0} };
}
