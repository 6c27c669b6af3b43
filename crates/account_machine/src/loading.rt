//! Accounts that are loaded from the rows of a keeper.

ghost use Rattle.account_history.specs.Given.{greatest_given};
ghost use Rattle.account_history.specs.Histories.{latest_moment as latest_moment_of, latest_past as latest_past_of};
ghost use Rattle.account_history.specs.Naming.{is_named};
ghost use Rattle.account_machine.specs.Loading.{AreLoadable, IsFault, IsFirstBad, IsRowFault, IsRowOf, Keeps, Loads, Refuses, last_number, loaded_accounts, numbered_account, numbered_rows, numbered_secondary as numbered_secondary_of, passwords_of as passwords_of_secondary, numbered as numbered_accounts};
ghost use Rattle.account_machine.specs.Looks.{accounts_of};
ghost use Rattle.account_machine.specs.Rows.{new_rows};
ghost use Rattle.account_rules.specs.declared.accounts.Account.{Account};
ghost use Rattle.std.specs.Prelude.{◌≡◌, ◌+◌, ◌<◌, ◌^◌, [], find, IfOk, IfErr, None, List, ℕ};

use crate::executing::Numbers;
use crate::looks::find_named;
use crate::openings::opening_rows;
use crate::rows::Row;
use account_history::Log;
use account_keeper::{RecordFault, read_record};
use account_rules::{Account, Settings};
use factor_chain::{PastRecord, Stored};
use ghost_value::Denotes;
use lg_base::{Items, Memory};
use login_lock::Tally;
use std::alloc::Global;

/// Why no accounts were loaded.
#[derive(Clone, Copy, Debug, PartialEq, Eq)]
pub enum MachineFault {
    /// The row under this key is no record, or an earlier row has its account's name.
    BadRow { key: u64 },
    /// No memory was to be had.
    Memory,
}

impl From<Memory> for MachineFault {
    ghost use Rattle.account_machine.specs.declared.loading.MachineFault.TheVariants as fault;

    ghost from_gives = { λ _ e. e ≡ fault.Memory };

    fn from(_refused: Memory) -> MachineFault {
        MachineFault::Memory
    }
}

/// What the machine keeps of the accounts that were loaded.
#[derive(Drop)]
pub struct Loaded {
    pub rows: Vec<Row>,
    pub numbers: Numbers,
    pub moment: u64,
}

/// Reads the record of a row that stands behind those of these accounts.
fn read_row(alloc: Global, rows: &[Row], kept: &lg_outside::Row) -> Result<Account, MachineFault>
    ensures record_of { IfOk result (IsRowOf kept.now) }
    ensures only { IfOk result (λ made. (a : Account) → IsRowOf kept.now a → made ≡ a) }
    ensures new { IfOk result (λ a. find (is_named a.name) (accounts_of rows.now) ≡ None) }
    ensures bad { IfErr result (IsRowFault (accounts_of rows.now) kept.now) }
    ensures found { (a : Account) → IsRowOf kept.now a → find (is_named a.name) (accounts_of rows.now) ≡ None → Loads (λ made. made ≡ a) result }
{
    let bad = MachineFault::BadRow { key: kept.key };
    match read_record(alloc, kept.key, kept.bytes.as_slice()) {
        Ok(account) => match find_named(rows, &account.name) {
            Some(_) => Err(bad),
            None => Ok(account),
        },
        Err(RecordFault::Bad) => Err(bad),
        Err(RecordFault::Memory) => Err(MachineFault::Memory),
    }
}

/// Reads the records of all rows.
fn read_rows(alloc: Global, kept: &[lg_outside::Row]) -> Result<Vec<Row>, MachineFault>
    ensures loadable { IfOk result (λ rows. AreLoadable kept.now (accounts_of rows.items)) }
    ensures rows { IfOk result (λ rows. rows.items ≡ new_rows (accounts_of rows.items)) }
    ensures bad { IfErr result (IsFault kept.now) }
    ensures found { (accounts : List Account) → AreLoadable kept.now accounts → Loads (λ rows. accounts_of rows.items ≡ accounts) result }
    ensures first { (key : ℕ) → IsFirstBad kept.now key → Refuses key result }
{
    let mut rows = Items::new(alloc);
    for row in kept {
        let account = read_row(alloc, rows.as_slice(), row)?;
        rows.push(Row {
            account,
            tally: Tally::new(),
        })?;
    }
    Ok(rows.into_vec())
}

/// How many passwords an account has with this secondary one.
fn passwords_of(secondary: &Option<(Stored, u64)>) -> u64
    ensures { result ≡ passwords_of_secondary secondary.now }
{
    match secondary {
        Some(_) => 2,
        None => 1,
    }
}

fn numbered_secondary(secondary: &Option<(Stored, u64)>, id: u64) -> Option<(Stored, u64)>
    ensures { result ≡ numbered_secondary_of id secondary.now }
{
    match secondary {
        Some((stored, _)) => Some((*stored, id)),
        None => None,
    }
}

/// Gives the passwords of an account the next numbers behind the last.
fn number_account(account: &mut Account, last: u64)
    requires { last + 2 < 2 ^ 64 }
    ensures { account.new ≡ numbered_account last account.old }
{
    account.primary_id = last + 1;
    account.secondary = numbered_secondary(&account.secondary, last + 2);
}

/// Gives the passwords of all accounts the numbers from 1 on, and answers the last number.
fn number_rows(rows: &mut [Row]) -> u64
    ensures rows { rows.new ≡ numbered_rows 0 rows.old }
    ensures last { result ≡ last_number 0 (accounts_of rows.old) }
{
    let mut last: u64 = 0;
    for row in rows.iter_mut() {
        let count = passwords_of(&row.account.secondary);
        number_account(&mut row.account, last);
        last += count;
    }
    last
}

/// The greatest number of an account.
fn greatest_number(rows: &[Row]) -> u64
    ensures { result ≡ (greatest_given (accounts_of rows.now)).account }
{
    let mut greatest: u64 = 0;
    for row in rows {
        greatest = greatest.max(row.account.id);
    }
    greatest
}

fn latest_past(past: &[PastRecord]) -> u64
    ensures { result ≡ latest_past_of past.now }
{
    let mut latest: u64 = 0;
    for entry in past {
        latest = latest.max(entry.moment);
    }
    latest
}

/// The latest moment in the accounts.
fn latest_moment(rows: &[Row]) -> u64
    ensures { result ≡ latest_moment_of (accounts_of rows.now) }
{
    let mut latest: u64 = 0;
    for row in rows {
        let past = latest_past(row.account.past.as_slice());
        latest = latest.max(row.account.changed.max(past));
    }
    latest
}

/// What is kept of accounts that were read, once their passwords have numbers.
fn numbered(mut rows: Vec<Row>) -> Loaded
    requires { rows.items ≡ new_rows (accounts_of rows.items) }
    ensures { Keeps result (numbered_accounts 0 (accounts_of rows.items)) }
{
    let account = greatest_number(rows.as_slice());
    let moment = latest_moment(rows.as_slice());
    let credential = number_rows(rows.as_mut_slice());
    Loaded {
        rows,
        numbers: Numbers {
            account,
            credential,
        },
        moment,
    }
}

/// The root account alone.
fn root_alone(alloc: Global) -> Result<Loaded, Memory>
    ensures { IfOk result (λ made. Keeps made (loaded_accounts [])) }
{
    let rows = opening_rows(alloc, &[])?;
    Ok(Loaded {
        rows,
        numbers: Numbers {
            account: 1,
            credential: 1,
        },
        moment: 0,
    })
}

/// Loads the accounts whose records the rows are.
pub fn load_rows(alloc: Global, kept: &[lg_outside::Row]) -> Result<Loaded, MachineFault>
    ensures loaded { IfOk result (λ made. (accounts : List Account) × AreLoadable kept.now accounts × Keeps made (loaded_accounts accounts)) }
    ensures bad { IfErr result (IsFault kept.now) }
    ensures found { (accounts : List Account) → AreLoadable kept.now accounts → Loads (λ made. Keeps made (loaded_accounts accounts)) result }
    ensures first { (key : ℕ) → IsFirstBad kept.now key → Refuses key result }
{
    let rows = read_rows(alloc, kept)?;
    if rows.is_empty() {
        let made = root_alone(alloc)?;
        return Ok(made);
    }
    Ok(numbered(rows))
}

/// A history without entries that starts with the accounts of these rows.
#[derive(Drop)]
pub struct LoadNote<'a> {
    pub rows: &'a [Row],
    pub settings: Settings,
}

impl<'a> Denotes<Log> for LoadNote<'a> {
    ghost denoted = { λ n. record { start = record { accounts = accounts_of n.rows.now; settings = n.settings; count = 0 }; entries = [] } };
}
