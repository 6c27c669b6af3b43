//! Where the execution of an account statement stands.

ghost use Rattle.session_engine.specs.Standing.{stage_talk};
ghost use Rattle.session_talk.specs.Turns as turn;
ghost use Rattle.session_talk.specs.declared.open_session.OpenSession.{OpenSession};
ghost use Rattle.std.specs.Prelude.{◌≡◌};

use crate::answering::{is_draw, is_look};
use account_history::Prepared;
use factor_chain::Look;
use ghost_value::GhostValue;
use session_talk::Input;
use stmt_rules::Statement;

/// What the execution of a statement waits for. What it asked about is kept as values that only contracts read.
#[derive(Drop)]
pub enum Stage {
    /// The look at the account that the statement is about.
    Looking {
        statement: Statement,
    },
    /// The salt of the new password.
    Salting {
        look: Look,
        statement: Statement,
    },
    /// The preparing, on the first look or again.
    Preparing {
        again: bool,
        look: GhostValue<Look>,
        statement: GhostValue<Statement>,
        salt: [u8; 20],
    },
    /// The execution of what was prepared.
    Committing {
        again: bool,
        salt: [u8; 20],
        prepared: GhostValue<Prepared>,
    },
    /// The second look, after a stale answer.
    Renewing {
        statement: Statement,
        salt: [u8; 20],
    },
    /// The execution in one step with the preparing.
    Locking {
        statement: GhostValue<Statement>,
        salt: [u8; 20],
    },
    /// The execution of a statement that has nothing to prepare.
    Plain {
        statement: GhostValue<Statement>,
    },
}

impl Stage {
    /// Whether an input is of the kind that is waited for.
    #[tactic(auto, unfolding(crate::specs::Standing::stage_talk, session_talk::specs::Turns::is_answer))]
    pub fn is_answered_by(&self, input: &Input) -> bool
        ensures { (opened : OpenSession) → result ≡ turn.is_answer (stage_talk opened self.now) input.now }
    {
        match self {
            Stage::Looking { .. } => is_look(input),
            Stage::Salting { .. } => is_draw(input),
            Stage::Preparing { .. } => matches!(input, Input::Prepared(_)),
            Stage::Committing { .. } => matches!(input, Input::StaleStatement(_) | Input::Ran(_)),
            Stage::Renewing { .. } => is_look(input),
            Stage::Locking { .. } => matches!(input, Input::Ran(_)),
            Stage::Plain { .. } => matches!(input, Input::Ran(_)),
        }
    }
}
