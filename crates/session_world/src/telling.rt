//! The lines of a client's result, of an event that does nothing, and of a text that is no statement.

ghost use Rattle.session_world.specs.Replays.{NoStatement, Of, no_statement_line, printed_text, result_line, tells_if};
ghost use Rattle.std.specs.Prelude.{◌≡◌, [], ◌∷◌, ◌++◌, OnOk};
ghost use Rattle.world_table.specs.Printing.{Idle};

use client_wire::add_words;
use lg_base::{Memory, Out};
use login_client::LoginEnd;
use world_table::printing::{add_numbered, print_idle};

/// Nothing can be done for a session.
pub fn print_idles(out: &mut Out, session: u32) -> Result<(), Memory>
    ensures { OnOk result (out.new ≡ out.old ++ printed_text (Of session Idle ∷ [])) }
{
    print_idle(out, session)
}

/// A text of the administrator is no statement.
#[tactic(auto, unfolding(crate::specs::Replays::no_statement_line))]
pub fn print_no_statement(out: &mut Out) -> Result<(), Memory>
    ensures { OnOk result (out.new ≡ out.old ++ printed_text (NoStatement ∷ [])) }
{
    out.bytes(b"admin 1064\n")
}

/// The line of a client's result.
#[tactic(auto, unfolding(crate::specs::Replays::result_line))]
fn print_result(out: &mut Out, session: u32, how: LoginEnd) -> Result<(), Memory>
    ensures { OnOk result (out.new ≡ out.old ++ result_line session how) }
{
    add_numbered(out, b"login ", u64::from(session), b' ')?;
    add_words(out, how)?;
    out.byte(b'\n')
}

/// The line of a client's result, if it has just come to one.
pub fn print_if_told(out: &mut Out, session: u32, told: Option<LoginEnd>) -> Result<(), Memory>
    ensures { OnOk result (out.new ≡ out.old ++ printed_text (tells_if session told)) }
{
    match told {
        None => Ok(()),
        Some(how) => print_result(out, session, how),
    }
}
