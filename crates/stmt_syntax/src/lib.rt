//! Account statements as texts: `CREATE USER`, `ALTER USER`, `DROP USER`, `FLUSH PRIVILEGES`, `GRANT`
//! and `REVOKE`, read and printed.
//!
//! **[`read`] gives the one statement that a text is, or the place of the first token at which no statement
//! fits: what stands before it goes on to some statement, and with it the text goes on to none.** [`print`]
//! writes a statement in one form, and what it writes is read back as that statement.
//!
//! The grammar is a part of the one in the MySQL 8.0 Reference Manual, "Account Management
//! Statements", with its tokens as in "String Literals" and "Schema Object Names". A text is first
//! cut into tokens (`stmt_tokens`), and the tokens are then read one rule of the grammar after another
//! (`stmt_rules`). These two, `lg_base` and `thiserror` stand below.
#![tactic(auto)]

ghost use Rattle.std.specs.Prelude.{◌≡◌, ◌++◌, IfOk, OnOk, OnErr};
ghost use Rattle.stmt_syntax.specs.Printing.{printed};
ghost use Rattle.stmt_syntax.specs.Reading.{Accepts, IsReadable, IsText, Reads};

pub mod laws;
mod printing;

use lg_base::{Memory, Out};
use std::alloc::Global;
use stmt_rules::{Cursor, Fault};
pub use stmt_rules::{
    Auth, Bound, Change, Expire, FactorAuth, Options, Privileges, Statement, Target, Time,
};
use stmt_tokens::tokens;
use thiserror::Error;

/// Why a text is read to no statement.
#[derive(Debug, PartialEq, Eq, Drop, Error)]
pub enum SyntaxFault {
    /// The token that begins at `place`, counted from 0, is the first at which no statement fits: at the
    /// text's length where the text ends too early.
    #[error("no statement fits at place {place}")]
    At { place: usize },
    /// No memory was to be had.
    #[error("no memory was to be had")]
    Memory,
}

impl From<Memory> for SyntaxFault {
    ghost use Rattle.std.specs.Prelude.{◌≡◌};
    ghost use Rattle.stmt_syntax.specs.declared.SyntaxFault.TheVariants as fault;

    ghost from_gives = { λ _ made. made ≡ fault.Memory };

    fn from(_refused: Memory) -> SyntaxFault {
        SyntaxFault::Memory
    }
}

/// The statement that a text is. Words stand in any case, and options may stand several times: the last
/// one of a kind counts. No text is two statements.
pub fn read(alloc: Global, text: &[u8]) -> Result<Statement, SyntaxFault>
    ensures reads { Reads text.now result }
    ensures accepts { Accepts text.now result }
    ensures readable { IfOk result IsReadable }
{
    read_tokens(alloc, text)
}

/// Cuts the text into tokens, and reads them by the grammar.
fn read_tokens(alloc: Global, text: &[u8]) -> Result<Statement, SyntaxFault>
    ensures { Reads text.now result }
{
    let tokens = tokens(alloc, text)?;
    let mut cursor = Cursor::new(tokens.as_slice());
    match cursor.statement(alloc) {
        Ok(statement) => Ok(statement),
        Err(Fault::Here) => Err(SyntaxFault::At {
            place: cursor.place(text.len()),
        }),
        Err(Fault::Memory) => Err(SyntaxFault::Memory),
    }
}

/// Adds the text of a statement at the end of `out`: keywords in upper case, one space between tokens,
/// names and strings in `'`. What is added is read back as the same statement. After `Memory` nothing was
/// added.
///
/// The statement is one that [`read`] can give.
pub fn print(statement: &Statement, out: &mut Out) -> Result<(), Memory>
    requires { IsReadable statement.now }
    ensures ok { OnOk result (out.new ≡ out.old ++ printed statement.now) }
    ensures read_back { IsText statement.now (printed statement.now) }
    ensures err { OnErr result (out.new ≡ out.old) }
{
    let mut text = out.beside();
    printing::put_statement(statement, &mut text)?;
    out.bytes(text.as_slice())
}
