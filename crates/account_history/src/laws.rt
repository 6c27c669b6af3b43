//! Laws of the model. Each function does nothing: its contract is the law.

ghost use Rattle.account_history.specs.Deciding.{AttemptsAreDecided};
ghost use Rattle.account_history.specs.Examples.{ExpiryExample, LockExample};
ghost use Rattle.account_history.specs.Numbers.{NumbersRise, NumbersStayGone};
ghost use Rattle.account_history.specs.Sound.{AccountsAreSound, GrammarIsWritten, PasswordsStayGone};
ghost use Rattle.account_history.specs.Telling.{StampsTell};

/// A session opens exactly where an account is in force for the user, no lock after failed logins is in force on it, each
/// factor verifies, it isn't locked, and its password hasn't expired beyond use. Else the reply names the first of these
/// conditions that doesn't hold.
pub fn attempts_are_decided()
    ensures { AttemptsAreDecided }
{}

/// An equal stamp after further entries tells that a user logs in with the same, and that what was known of the user's
/// passwords is known still. The accounts at the start are sound, and the history is legal.
pub fn stamps_tell()
    ensures { StampsTell }
{}

/// The numbers of accounts rise in every history, and none is given twice: a look at one's own account by its number
/// never shows another.
pub fn numbers_are_given_once()
    ensures rise { NumbersRise }
    ensures gone { NumbersStayGone }
{}

/// Every legal history keeps the accounts of its start sound: no two accounts have one number or one name, no two passwords
/// have one number, and each account has at most two further factors. No number of a password is given twice. Of a statement
/// the law takes what the grammar of statements gives.
pub fn accounts_are_sound()
    ensures sound { AccountsAreSound }
    ensures gone { PasswordsStayGone }
    ensures grammar { GrammarIsWritten }
{}

/// Worked examples: a lock after three failures, and an expiry.
pub fn examples_hold()
    ensures lock { LockExample }
    ensures expiry { ExpiryExample }
{}
