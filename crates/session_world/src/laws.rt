//! Laws of replays. Each function does nothing: its contract is the law.

ghost use Rattle.session_world.specs.Events.{EventsAreDone, HistoriesAreLegal, IdleChangesNothing, RunsComeToRest, SessionsAreTranscripts};
ghost use Rattle.session_world.specs.Replies.{RepliesAreTold};

/// What events come to is what they do to the world of sessions, one thing after another.
pub fn events_are_done()
    ensures { EventsAreDone }
{}

/// After any events the history is legal, and its entries are those that are printed.
pub fn histories_are_legal()
    ensures { HistoriesAreLegal }
{}

/// After any events, what is printed of each session is a transcript over the bytes that came to it.
pub fn sessions_are_transcripts()
    ensures { SessionsAreTranscripts }
{}

/// After any events, right behind each attempt and each statement of a session it has sent OK where the reply opens it or the
/// statement was done, and else the error of the rule that refuses; after the refusal of an attempt the session has ended.
pub fn replies_are_told()
    ensures { RepliesAreTold }
{}

/// An event that prints that it is idle changes nothing.
pub fn idle_events_change_nothing()
    ensures { IdleChangesNothing }
{}

/// After a run nothing is left that its session and client could go on with.
pub fn runs_come_to_rest()
    ensures { RunsComeToRest }
{}
