//! Laws of every talk, over every handler. Each function does nothing: its contract is the law.

ghost use Rattle.interaction.specs.Laws.{AnswersChangeNothing, CuttingChangesNothing, DriversKeepTheRun, ListsAreUsedInOrder, RunsAreOverBytes, RunsAreOwed, RunsAreScripted, RunsGoByTurns, RunsGoOn, RunsStop, TurnsAreTaken, WhatHasComeGoesFurther};

/// A run goes on: where a handler gives what another gave and then more, it is the run before, and the run from where
/// that stood.
#[tactic(auto, using(crate::proofs::GoingOn::runs_go_on))]
pub fn runs_go_on<State, Other, Question, Answer, Entry, End>()
    ensures { RunsGoOn State Other Question Answer Entry End }
{}

/// Over bytes, cutting them changes nothing: what is done for more bytes and further answers is what was done before, and
/// what is then done for them, also where the peer ends behind them.
#[tactic(auto, using(crate::proofs::Cutting::cutting_changes_nothing))]
pub fn cutting_changes_nothing<Question, Answer, Entry, End>()
    ensures { CuttingChangesNothing Question Answer Entry End }
{}

/// Further answers change nothing of what was done, however the peer's bytes go on.
#[tactic(auto, using(crate::proofs::Cutting::answers_change_nothing))]
pub fn answers_change_nothing<Question, Answer, Entry, End>()
    ensures { AnswersChangeNothing Question Answer Entry End }
{}

/// A run over any handler is the run over the script of what it gave, all of which is used.
#[tactic(auto, using(crate::proofs::Scripting::runs_are_scripted))]
pub fn runs_are_scripted<State, Question, Answer, Entry, End>()
    ensures { RunsAreScripted State Question Answer Entry End }
{}

/// A run over a handler that reads bytes is the run over these bytes and its answers, all of which are used.
#[tactic(auto, using(crate::proofs::Scripting::runs_are_over_bytes))]
pub fn runs_are_over_bytes<State, Question, Answer, Entry, End>()
    ensures { RunsAreOverBytes State Question Answer Entry End }
{}

/// What has come goes further: where a talk has used some answers over bytes, and a handler goes on with what is left of
/// them, with more bytes or without, the talk does the same over all bytes and all answers.
#[tactic(auto, using(crate::proofs::Scripting::what_has_come_goes_further))]
pub fn what_has_come_goes_further<State, Question, Answer, Entry, End>()
    ensures { WhatHasComeGoesFurther State Question Answer Entry End }
{}

/// What is done until reading ends is owed for the packets that were received and the answers until then. Where reading
/// hasn't ended, that is the whole run, and all of them are used.
#[tactic(auto, using(crate::proofs::Owing::runs_are_owed))]
pub fn runs_are_owed<State, Question, Answer, Entry, End>()
    ensures { RunsAreOwed State Question Answer Entry End }
{}

/// What stands in lists is used in order, from the front: of a script, of packets and answers, and of answers beside bytes.
#[tactic(auto, using(crate::proofs::Using::lists_are_used_in_order))]
pub fn lists_are_used_in_order<Question, Answer, Entry, End>()
    ensures { ListsAreUsedInOrder Question Answer Entry End }
{}

/// A run stops where the talk has ended, or waits for what the handler doesn't have.
#[tactic(auto, using(crate::proofs::GoingOn::runs_stop))]
pub fn runs_stop<State, Question, Answer, Entry, End>()
    ensures { RunsStop State Question Answer Entry End }
{}

/// A run of a talk that waits is its first turn, and the run from where that leaves it.
#[tactic(auto, using(crate::proofs::Turning::runs_go_by_turns))]
pub fn runs_go_by_turns<State, Question, Answer, Entry, End>()
    ensures { RunsGoByTurns State Question Answer Entry End }
{}

/// An answered question takes one of the turns that are left, the end of reading takes one, and a packet gives all anew.
#[tactic(auto, using(crate::proofs::Turning::turns_are_taken))]
pub fn turns_are_taken<State, Question, Answer, Entry, End>()
    ensures { TurnsAreTaken State Question Answer Entry End }
{}

/// A loop that drives a talk keeps the talk's run: at its begin, where it writes what the talk says, gives an answer,
/// reads what stands at the front of the bytes, and gets more bytes.
#[tactic(auto, using(crate::proofs::Driving::drivers_keep_the_run))]
pub fn drivers_keep_the_run<Question, Answer, Entry, End>()
    ensures { DriversKeepTheRun Question Answer Entry End }
{}
