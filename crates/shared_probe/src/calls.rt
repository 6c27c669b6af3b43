//! Whole calls on shared accounts: an attempt to log in, and a change of an account, each with its stale answers.

ghost use Rattle.account_history.specs.Preparing.{is_preparable, who_of};
ghost use Rattle.account_history.specs.Sound.{IsWritten};
ghost use Rattle.account_history.specs.declared.entries.Who.TheVariants.{Account, Login};
ghost use Rattle.sha256_crypt.specs.Alphabet.{IsSaltByte};
ghost use Rattle.shared_accounts.specs.Sharing.{Sits};
ghost use Rattle.std.specs.List.{All};
ghost use Rattle.std.specs.Prelude.{◌≡◌, IfOk, IfSome, IsTrue, List, ℕ};

use account_history::laws::accounts_are_sound;
use account_history::{Prepared, Reply, StmtReply, Who, prepare};
use account_keeper::MemoryKeeper;
use account_machine::Accounts;
use account_rules::Settings;
use factor_chain::{Evidence, Evidences, Look, check};
use lg_base::{Bytes, Host, Items, Memory, Name};
use lg_outside::Keeper;
use native_scramble::respond;
use shared_accounts::{Committed, Late, Seat, Settled, SharedAccounts};
use std::alloc::Global;
use std::sync::Wait;
use std::sync::atomic::{AtomicU64, Ordering};
use std::thread;
use stmt_rules::{Statement, Target};
use stmt_syntax::{SyntaxFault, read};

/// The capability flags of the clients: CLIENT_CAN_HANDLE_EXPIRED_PASSWORDS and the protocol's of version 4.1.
pub const FLAGS: u32 = 0x00a2_8210;
/// The nonce that answers are to.
const NONCE: [u8; 20] = *b"00000000000000000001";
/// How often an attempt lets other threads run before it is settled.
const YIELDS: u32 = 50;
/// The number of `'root'@'localhost'`, who asks for each statement.
const ROOT: u64 = 1;

const SETTINGS: Settings = Settings {
    lifetime: 0,
    disconnect: true,
    history: 0,
    reuse: 0,
};

/// What an attempt was answered.
#[derive(Drop)]
pub struct Tried {
    pub reply: Reply,
    /// The last stamp of the user that was told before.
    pub stamp: u64,
    /// The number of the newest password that was known to be set when the attempt was last about to be settled.
    pub set: u64,
}

/// Shared accounts of `'root'@'localhost'` alone, without a password.
pub fn begin(alloc: Global) -> Result<(SharedAccounts<MemoryKeeper>, Seat<MemoryKeeper>), Memory>
    ensures own { IfOk result (λ made. Sits made.0 made.1) }
{
    let accounts = Accounts::opening(alloc, &[], SETTINGS)?;
    let keeper = MemoryKeeper::new(Items::new(alloc), Items::new(alloc));
    SharedAccounts::new(alloc, accounts, keeper)
}

/// The evidence of a native answer that is made with this password.
pub fn native(alloc: Global, password: &[u8]) -> Result<Evidences, Memory> {
    let response = respond(password, &NONCE);
    let response = Bytes::copy(alloc, response.as_slice())?;
    Evidences::new(
        alloc,
        Evidence::Native {
            nonce: NONCE,
            response,
        },
    )
}

/// One attempt to log in with a native answer that is made with this password.
pub fn try_password<K: Keeper + Drop, R: Wait>(
    rt: &R,
    alloc: Global,
    shared: &SharedAccounts<K>,
    seat: &mut Seat<K>,
    user: &[u8],
    password: &[u8],
    reading: u64,
    newest: &AtomicU64,
) -> Option<Tried>
    requires own { Sits shared.now seat.old }
    ensures own { Sits shared.now seat.new }
{
    let evidences = native(alloc, password).ok()?;
    attempt(rt, alloc, shared, seat, user, evidences, reading, newest)
}

/// The evidence of no password.
pub fn no_password(alloc: Global) -> Result<Evidences, Memory> {
    Evidences::new(alloc, Evidence::Empty)
}

/// The account in force for a user that logs in.
pub fn login_of(alloc: Global, user: &[u8]) -> Result<Who, Memory>
    ensures { IfOk result (λ who. who ≡ Login user.now) }
{
    Ok(Who::Login(Bytes::copy(alloc, user)?))
}

/// The number of the newest password that is known to be set, after other threads had time to set one. 0 says that none sets
/// one, and that no time is wanted.
fn set_by_now(newest: &AtomicU64) -> u64 {
    if newest.load(Ordering::SeqCst) == 0 {
        return 0;
    }
    for _ in 0..YIELDS {
        thread::yield_now();
    }
    newest.load(Ordering::SeqCst)
}

/// One attempt to log in. The evidence is checked on a look; after the first stale answer on another, after the second in
/// the turn. `newest` has the number of the newest password that is known to be set. `None` where memory or the book's turns are at their end.
pub fn attempt<K: Keeper + Drop, R: Wait>(
    rt: &R,
    alloc: Global,
    shared: &SharedAccounts<K>,
    seat: &mut Seat<K>,
    user: &[u8],
    evidences: Evidences,
    reading: u64,
    newest: &AtomicU64,
) -> Option<Tried>
    requires own { Sits shared.now seat.old }
    ensures own { Sits shared.now seat.new }
{
    let Ok(who) = login_of(alloc, user) else {
        return None;
    };
    let Ok((look, ticket)) = shared.observe(rt, alloc, seat, &who) else {
        return None;
    };
    let stamp = ticket.stamp();
    let checked = check(look, evidences);
    let set = set_by_now(newest);
    match shared.settle(rt, seat, ticket, checked, FLAGS, reading) {
        Settled::Done(reply) => Some(Tried { reply, stamp, set }),
        Settled::Stale(late, evidences) => {
            attempt_again(
                rt, alloc, shared, seat, user, late, evidences, reading, newest,
            )
        }
        Settled::BookEnd => None,
    }
}

/// The attempt after its first stale answer.
pub fn attempt_again<K: Keeper + Drop, R: Wait>(
    rt: &R,
    alloc: Global,
    shared: &SharedAccounts<K>,
    seat: &mut Seat<K>,
    user: &[u8],
    late: Late,
    evidences: Evidences,
    reading: u64,
    newest: &AtomicU64,
) -> Option<Tried>
    requires own { Sits shared.now seat.old }
    requires late { (late.number ≡ 1) × (late.who ≡ Login user.now) }
    ensures own { Sits shared.now seat.new }
{
    let Ok(who) = login_of(alloc, user) else {
        return None;
    };
    let Ok((look, ticket)) = shared.renew(rt, alloc, seat, late, &who) else {
        return None;
    };
    let stamp = ticket.stamp();
    let checked = check(look, evidences);
    let set = set_by_now(newest);
    match shared.settle(rt, seat, ticket, checked, FLAGS, reading) {
        Settled::Done(reply) => Some(Tried { reply, stamp, set }),
        Settled::Stale(late, evidences) => {
            attempt_locked(rt, shared, seat, user, late, evidences, reading, newest)
        }
        Settled::BookEnd => None,
    }
}

/// The attempt after its second stale answer.
pub fn attempt_locked<K: Keeper + Drop, R: Wait>(
    rt: &R,
    shared: &SharedAccounts<K>,
    seat: &mut Seat<K>,
    user: &[u8],
    late: Late,
    evidences: Evidences,
    reading: u64,
    newest: &AtomicU64,
) -> Option<Tried>
    requires own { Sits shared.now seat.old }
    requires late { (late.number ≡ 2) × (late.who ≡ Login user.now) }
    ensures own { Sits shared.now seat.new }
{
    let stamp = late.stamp();
    let set = set_by_now(newest);
    match shared.settle_locked(rt, seat, late, user, evidences, FLAGS, reading) {
        Settled::Done(reply) => Some(Tried { reply, stamp, set }),
        Settled::Stale(_late, _evidences) => None,
        Settled::BookEnd => None,
    }
}

/// The salt that each new password takes: twenty full stops.
fn salt() -> [u8; 20]
    ensures { All IsSaltByte result }
{
    [b'.'; 20]
}

/// The statement of a text.
fn statement_of(alloc: Global, text: &[u8]) -> Result<Statement, SyntaxFault>
    ensures { IfOk result IsWritten }
{
    accounts_are_sound();
    let statement = read(alloc, text)?;
    Ok(statement)
}

/// The account that a CREATE USER or an ALTER USER names.
fn named_in<'a>(statement: &'a Statement) -> Option<&'a Name>
    ensures named { IfSome result (λ name. (actor : ℕ) → who_of actor statement.now ≡ Account name.now) }
    ensures kind { IfSome result (λ name. IsTrue (is_preparable statement.now)) }
{
    match statement {
        Statement::Create { name, .. } => Some(name),
        Statement::Alter { target, .. } => match target {
            Target::Own => None,
            Target::Named(name) => Some(name),
        },
        Statement::Drop { .. } => None,
        Statement::Flush => None,
        Statement::Grant { .. } => None,
        Statement::Revoke { .. } => None,
    }
}

fn who_named(alloc: Global, name: &Name) -> Result<Who, Memory>
    ensures { IfOk result (λ who. who ≡ Account name.now) }
{
    Ok(Who::Account(Name {
        user: Bytes::copy(alloc, name.user.as_slice())?,
        host: name.host,
    }))
}

/// Executes the CREATE USER or the ALTER USER of a text, which root asks for. `None` where it isn't answered: it is no such
/// statement or is stale, or memory or the book's turns are at their end.
pub fn execute<K: Keeper + Drop, R: Wait>(
    rt: &R,
    alloc: Global,
    shared: &SharedAccounts<K>,
    seat: &mut Seat<K>,
    text: &[u8],
) -> Option<StmtReply>
    requires own { Sits shared.now seat.old }
    ensures own { Sits shared.now seat.new }
{
    let statement = statement_of(alloc, text).ok()?;
    let who = who_named(alloc, named_in(&statement)?).ok()?;
    let Ok((look, ticket)) = shared.observe(rt, alloc, seat, &who) else {
        return None;
    };
    let prepared = prepare(alloc, look, statement, &salt(), ROOT).ok()?;
    match shared.commit(rt, alloc, seat, ticket, prepared, ROOT, 0) {
        Committed::Done(reply) => Some(reply),
        Committed::Stale(_late, _statement) => None,
        Committed::Memory => None,
        Committed::BookEnd => None,
    }
}

/// The same, of a statement that is to be done: `None` also where it is refused.
pub fn perform<K: Keeper + Drop, R: Wait>(
    rt: &R,
    alloc: Global,
    shared: &SharedAccounts<K>,
    seat: &mut Seat<K>,
    text: &[u8],
) -> Option<()>
    requires own { Sits shared.now seat.old }
    ensures own { Sits shared.now seat.new }
{
    match execute(rt, alloc, shared, seat, text) {
        Some(StmtReply::Done) => Some(()),
        Some(StmtReply::Refused(_code)) => None,
        None => None,
    }
}
