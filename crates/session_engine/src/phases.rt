//! Where a session stands: what it waits for, and what it needs to go on.

use crate::stages::Stage;
use factor_chain::{Checked, Evidences, Look};
use ghost_value::GhostValue;
use session_talk::{Attempting, Claim, OpenSession, SessionEnd};

/// What a session waits for. What it asked about is kept as values that only contracts read.
#[derive(Drop)]
pub enum Phase {
    /// The nonce that a new session begins with.
    Fresh {
        id: u32,
    },
    /// The response to the greeting.
    Greeted {
        nonce: [u8; 20],
    },
    /// The look at the user's account.
    Looking {
        attempt: Attempting,
        claim: Claim,
    },
    /// A fresh nonce for the account's method.
    Switching {
        attempt: Attempting,
        look: Look,
    },
    /// The answer to that nonce.
    Switched {
        attempt: Attempting,
        look: Look,
        nonce: [u8; 20],
    },
    /// The password in the clear.
    Clearing {
        attempt: Attempting,
        look: Look,
    },
    /// The check of the evidence, on the first look or again.
    Checking {
        attempt: Attempting,
        again: bool,
        look: GhostValue<Look>,
        evidences: GhostValue<Evidences>,
    },
    /// The settling of the attempt.
    Settling {
        attempt: Attempting,
        again: bool,
        checked: GhostValue<Checked>,
    },
    /// The second look, after a stale answer.
    Renewing {
        attempt: Attempting,
        evidences: Evidences,
    },
    /// The settling in one step with the check.
    Locking {
        attempt: Attempting,
        evidences: GhostValue<Evidences>,
    },
    /// A command of an open session.
    Commanding {
        opened: OpenSession,
    },
    /// A statement of an open session.
    Executing {
        opened: OpenSession,
        stage: Stage,
    },
    /// Nothing more: the session has ended.
    Over(SessionEnd),
}
