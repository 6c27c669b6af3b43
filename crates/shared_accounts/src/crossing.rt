//! That shared accounts may go from thread to thread and be used by several at once.

ghost use Rattle.std.specs.Prelude.{◌≡◌};

use crate::desk::Desk;
use crate::shared::SharedAccounts;
use lg_base::crosses;
use lg_outside::Keeper;

/// A desk crosses threads where its keeper does.
pub fn desk_crosses<K: Keeper + Drop + Send + Sync>(desk: Desk<K>) -> Desk<K>
    ensures { result ≡ desk }
{
    crosses(desk)
}

/// Shared accounts cross threads where their keeper may go to another thread.
pub fn shared_accounts_cross<K: Keeper + Drop + Send>(
    shared: SharedAccounts<K>,
) -> SharedAccounts<K>
    ensures { result ≡ shared }
{
    crosses(shared)
}
