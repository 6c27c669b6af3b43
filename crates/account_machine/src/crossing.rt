//! That the accounts may go from thread to thread and be used by several at once.

ghost use Rattle.std.specs.Prelude.{◌≡◌};

use crate::machine::Accounts;
use lg_base::crosses;

/// Accounts cross threads.
pub fn accounts_cross(accounts: Accounts) -> Accounts
    ensures { result ≡ accounts }
{
    crosses(accounts)
}
