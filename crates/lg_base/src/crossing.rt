//! What may go from thread to thread and be used by several at once. A type's own crate asks this of the type, so that its
//! proof stands there and not at the first thread that takes a value of it along.

ghost use Rattle.std.specs.Prelude.{◌≡◌};

use crate::byte_list::Bytes;
use crate::item_list::Items;

/// `given`, of a type that may cross threads.
pub fn crosses<T: Send + Sync>(given: T) -> T
    ensures { result ≡ given }
{
    given
}

/// Bytes cross threads.
pub fn bytes_cross(bytes: Bytes) -> Bytes
    ensures { result ≡ bytes }
{
    crosses(bytes)
}

/// Items cross threads where each of them does.
pub fn items_cross<T: Send + Sync>(items: Items<T>) -> Items<T>
    ensures { result ≡ items }
{
    crosses(items)
}
