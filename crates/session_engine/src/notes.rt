//! What a session asked about, as values that only contracts read.

ghost use Rattle.std.specs.Prelude.{◌≡◌};

use account_history::Prepared;
use factor_chain::{Checked, Evidences, Look};
use ghost_value::{Denotes, GhostValue};
use stmt_rules::Statement;

/// A look.
#[derive(Drop)]
pub struct LookNote<'a> {
    look: &'a Look,
}

impl<'a> Denotes<Look> for LookNote<'a> {
    ghost denoted = { λ n. n.look.now };
}

/// The evidence of an attempt.
#[derive(Drop)]
pub struct EvidencesNote<'a> {
    evidences: &'a Evidences,
}

impl<'a> Denotes<Evidences> for EvidencesNote<'a> {
    ghost denoted = { λ n. n.evidences.now };
}

/// What was checked.
#[derive(Drop)]
pub struct CheckedNote<'a> {
    checked: &'a Checked,
}

impl<'a> Denotes<Checked> for CheckedNote<'a> {
    ghost denoted = { λ n. n.checked.now };
}

/// A statement.
#[derive(Drop)]
pub struct StatementNote<'a> {
    statement: &'a Statement,
}

impl<'a> Denotes<Statement> for StatementNote<'a> {
    ghost denoted = { λ n. n.statement.now };
}

/// A statement that was prepared.
#[derive(Drop)]
pub struct PreparedNote<'a> {
    prepared: &'a Prepared,
}

impl<'a> Denotes<Prepared> for PreparedNote<'a> {
    ghost denoted = { λ n. n.prepared.now };
}

/// The look, as contracts see it.
pub fn note_look(look: &Look) -> GhostValue<Look>
    ensures { result.value ≡ look.now }
{
    GhostValue::of(&LookNote { look })
}

/// The evidence, as contracts see it.
pub fn note_evidences(evidences: &Evidences) -> GhostValue<Evidences>
    ensures { result.value ≡ evidences.now }
{
    GhostValue::of(&EvidencesNote { evidences })
}

/// What was checked, as contracts see it.
pub fn note_checked(checked: &Checked) -> GhostValue<Checked>
    ensures { result.value ≡ checked.now }
{
    GhostValue::of(&CheckedNote { checked })
}

/// The statement, as contracts see it.
pub fn note_statement(statement: &Statement) -> GhostValue<Statement>
    ensures { result.value ≡ statement.now }
{
    GhostValue::of(&StatementNote { statement })
}

/// The statement that was prepared, as contracts see it.
pub fn note_prepared(prepared: &Prepared) -> GhostValue<Prepared>
    ensures { result.value ≡ prepared.now }
{
    GhostValue::of(&PreparedNote { prepared })
}
