//! A law of reuse. The function does nothing: its contract is the law.

ghost use Rattle.password_history.specs.Laws.{ForbiddenByUse};

/// Where no empty password is recorded, which records a password fits tells whether it is forbidden.
pub fn forbidden_by_use()
    ensures { ForbiddenByUse }
{}
