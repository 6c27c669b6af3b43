//! Laws of the model. Each function does nothing: its contract is the law.

ghost use Rattle.session_talk.specs.Transcript.{WiredIsOwed};
ghost use Rattle.session_talk.specs.Doable.{AsksCanBeDone};
ghost use Rattle.session_talk.specs.Hearing.{ReadingIsHeard};
ghost use Rattle.session_talk.specs.Laws.{AsksAreAnswered, ConversationsAreRuns, OwedGoesOn, ReadingIsDetermined, RunsAreOwed, RunsAreTranscripts, RunsEndAsOwed, SessionsAreBounded, StaleChangesNothing, StaleStatementsChangeNothing, WhatFitsIsAsked, WiredGoesOn};

/// What is owed goes on with further packets and answers, and over bytes however they are cut.
pub fn what_is_owed_goes_on()
    ensures packets { OwedGoesOn }
    ensures bytes { WiredGoesOn }
{}

/// Over inputs that answer what was asked, a session sends what is owed for them, as long as reading hasn't ended.
pub fn runs_are_owed()
    ensures { RunsAreOwed }
{}

/// Where reading ends, it is with the last input, and a session sends what is owed for the inputs before it and the
/// error of a fault of framing, and has ended.
pub fn runs_end_as_owed()
    ensures { RunsEndAsOwed }
{}

/// An attempt is a conversation exactly where it is the beginning of a session that ends in a settling and in what is
/// sent because of it.
pub fn conversations_are_runs()
    ensures { ConversationsAreRuns }
{}

/// A stale answer changes nothing of what is sent: not for an attempt, nor for a statement.
pub fn stale_changes_nothing()
    ensures attempts { StaleChangesNothing }
    ensures statements { StaleStatementsChangeNothing }
{}

/// What is owed over bytes is what is owed for the packets among them, and the error of a fault of framing.
pub fn wired_is_owed()
    ensures { WiredIsOwed }
{}

/// Where a packet is waited for, bytes and the peer behind them give one input, or none exactly where nothing more comes
/// of them.
pub fn reading_is_determined()
    ensures { ReadingIsDetermined }
{}

/// A session that waits for a payload goes on with what is read as its text says: with a payload, and where reading ended.
#[tactic(auto, using(crate::proofs::Hearing::reading_is_heard))]
pub fn reading_is_heard()
    ensures { ReadingIsHeard }
{}

/// What a session sends and how it ends, over the inputs that bytes, a peer behind them and entries of the history
/// give, stands in their transcript.
pub fn runs_are_transcripts()
    ensures { RunsAreTranscripts }
{}

/// What answers the question that a session asked, answers the session.
pub fn asks_are_answered()
    ensures kind { AsksAreAnswered }
    ensures fits { WhatFitsIsAsked }
{}

/// A session asks for what can be done: each statement in an ask is one that a text is read to, and each salt is of the
/// alphabet of salts.
#[tactic(auto, using(crate::proofs::Putting::asks_can_be_done))]
pub fn asks_can_be_done()
    ensures { AsksCanBeDone }
{}

/// A session asks at most eight questions between two packets.
pub fn sessions_are_bounded()
    ensures { SessionsAreBounded }
{}
