//! A keeper may be given to another thread.

ghost use Rattle.std.specs.Prelude.{◌≡◌};

use crate::keeper::FileKeeper;

/// What may be given to another thread.
fn sent<T: Send>(given: T) -> T
    ensures { result ≡ given }
{
    given
}

/// The keeper itself. That this is proved shows that a keeper over a file of the disk may be given to another thread.
pub fn sent_keeper(keeper: FileKeeper) -> FileKeeper
    ensures { result ≡ keeper }
{
    sent(keeper)
}
