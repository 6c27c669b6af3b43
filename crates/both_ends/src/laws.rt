//! Laws of both ends. Each function does nothing: its contract is the law.

ghost use Rattle.both_ends.specs.Laws.{EndedAtOnce, EndedByReply, OpenedByReply, PayloadsAreHeard, RefusedByError, RefusedByReply};

/// Each payload that a session sends says one thing to a client: what the session means by it.
pub fn payloads_are_heard()
    ensures { PayloadsAreHeard }
{}

/// A client that gets the payloads that a session sends opens only where the reply to the session's first attempt
/// opens.
pub fn opened_by_reply()
    ensures { OpenedByReply }
{}

/// It is refused with a number only where the session sent an error with that number.
pub fn refused_by_error()
    ensures { RefusedByError }
{}

/// A client that got all that a session sends up to the end of its first attempt, and any payloads after that, has ended
/// as the reply to that attempt tells, or since it would have to write the password in the clear to another machine.
pub fn ended_by_reply()
    ensures { EndedByReply }
{}

/// As soon as it got an OK or an ERR of such a session, a client has ended so.
pub fn ended_at_once()
    ensures { EndedAtOnce }
{}

/// Where that attempt has a reply, a client that was refused was refused with the number that the reply tells.
pub fn refused_by_reply()
    ensures { RefusedByReply }
{}
