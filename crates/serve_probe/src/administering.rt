//! The account statements of root.

ghost use Rattle.account_history.specs.Preparing.{is_preparable, who_of};
ghost use Rattle.account_history.specs.Sound.{IsWritten};
ghost use Rattle.account_history.specs.declared.entries.Who.TheVariants.{Account};
ghost use Rattle.sha256_crypt.specs.Alphabet.{IsSaltByte};
ghost use Rattle.shared_accounts.specs.Sharing.{Sits};
ghost use Rattle.std.specs.List.{All};
ghost use Rattle.std.specs.Prelude.{◌≡◌, IfOk, IfSome, IsTrue, ℕ};

use account_history::laws::accounts_are_sound;
use account_history::{Who, prepare};
use account_keeper::MemoryKeeper;
use lg_base::{Bytes, Memory, Name};
use server_outside::{CountedDraws, Draws};
use shared_accounts::{Committed, Seat, SharedAccounts};
use std::alloc::Global;
use std::sync::Wait;
use stmt_rules::{Statement, Target};
use stmt_syntax::{SyntaxFault, read};
use world_table::statements::{has_by, is_preparable, no_salt};

/// The number of `'root'@'localhost'`.
const ROOT: u64 = 1;

/// The statement of a text.
fn statement_of(alloc: Global, text: &[u8]) -> Result<Statement, SyntaxFault>
    ensures { IfOk result IsWritten }
{
    accounts_are_sound();
    let statement = read(alloc, text)?;
    Ok(statement)
}

/// The account that a CREATE USER or an ALTER USER names.
fn named_in<'a>(statement: &'a Statement) -> Option<&'a Name>
    ensures named { IfSome result (λ name. (actor : ℕ) → who_of actor statement.now ≡ Account name.now) }
    ensures kind { IfSome result (λ name. IsTrue (is_preparable statement.now)) }
{
    match statement {
        Statement::Create { name, .. } => Some(name),
        Statement::Alter { target, .. } => match target {
            Target::Own => None,
            Target::Named(name) => Some(name),
        },
        Statement::Drop { .. } => None,
        Statement::Flush => None,
        Statement::Grant { .. } => None,
        Statement::Revoke { .. } => None,
    }
}

fn who_named(alloc: Global, name: &Name) -> Result<Who, Memory>
    ensures { IfOk result (λ who. who ≡ Account name.now) }
{
    Ok(Who::Account(Name {
        user: Bytes::copy(alloc, name.user.as_slice())?,
        host: name.host,
    }))
}

/// The salt of a statement: a draw where a password stands behind BY.
fn salt_of(draws: &mut CountedDraws, statement: &Statement) -> [u8; 20]
    ensures letters { All IsSaltByte result }
{
    if has_by(statement) {
        return draws.draw();
    }
    no_salt()
}

/// Whether a statement was answered.
fn is_answered(committed: Committed) -> Option<()> {
    match committed {
        Committed::Done(_reply) => Some(()),
        Committed::Stale(_late, _statement) => None,
        Committed::Memory => None,
        Committed::BookEnd => None,
    }
}

/// Executes the statement of a text; a text that is none changes nothing. `None` where it isn't answered, or changes the
/// account that asks for it without naming it.
pub fn administer<R: Wait>(
    rt: &R,
    alloc: Global,
    shared: &SharedAccounts<MemoryKeeper>,
    seat: &mut Seat<MemoryKeeper>,
    draws: &mut CountedDraws,
    text: &[u8],
    reading: u64,
) -> Option<()>
    requires own { Sits shared.now seat.old }
    ensures own { Sits shared.now seat.new }
{
    let Ok(statement) = statement_of(alloc, text) else {
        return Some(());
    };
    if !is_preparable(&statement) {
        return is_answered(shared.commit_plain(rt, alloc, seat, statement, ROOT, reading));
    }
    let Some(name) = named_in(&statement) else {
        return None;
    };
    let Ok(who) = who_named(alloc, name) else {
        return None;
    };
    let Ok((look, ticket)) = shared.observe(rt, alloc, seat, &who) else {
        return None;
    };
    let salt = salt_of(draws, &statement);
    let Ok(prepared) = prepare(alloc, look, statement, &salt, ROOT) else {
        return None;
    };
    is_answered(shared.commit(rt, alloc, seat, ticket, prepared, ROOT, reading))
}
