//! What a session is given.

use account_history::{Prepared, Reply, StmtReply};
use factor_chain::{Checked, Evidences, Look};
use packet_frame::{FrameFault, Packet};
use stmt_rules::Statement;

/// The answer to what a session asked for last.
#[derive(Debug, Drop)]
pub enum Input {
    /// A new session begins with this nonce.
    Start { nonce: [u8; 20] },
    /// A packet was read.
    Packet(Packet),
    /// The bytes that were read show a fault of framing.
    Frame(FrameFault),
    /// The peer closed the connection, within a packet where `cut` is true.
    End { cut: bool },
    /// Reading failed.
    LinkFailed,
    /// A nonce was drawn.
    Drawn([u8; 20]),
    /// A look was answered.
    Looked(Look),
    /// The evidence was checked on the look.
    Checked(Checked),
    /// The attempt wasn't settled, since the user's credentials may have changed since the look. The evidence is
    /// handed back.
    Stale(Evidences),
    /// The attempt was settled.
    Settled(Reply),
    /// The statement was prepared on the look.
    Prepared(Prepared),
    /// The statement wasn't executed, since what it was prepared on may have changed since the look. The statement is
    /// handed back.
    StaleStatement(Statement),
    /// The statement was executed, or refused.
    Ran(StmtReply),
}
