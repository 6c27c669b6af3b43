//! Laws of the history that threads share. Each function does nothing: its contract is the law.

ghost use Rattle.shared_accounts.specs.Laws.{FailuresCountOnce};

/// An attempt that fails and counts is one more failure of the account that is in force at its place, and of no other
/// account; a look counts for nobody. An attempt that opens fits an account that is in force at its place.
pub fn failures_count_once()
    ensures { FailuresCountOnce }
{}
