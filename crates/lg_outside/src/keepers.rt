//! Keepers of rows: where what is to outlive the server is kept, as bytes under keys.

ghost use Rattle.lg_outside.specs.Keeping.{Ascend, Changes, IsCaused, IsLoaded, put_row, remove_row};
ghost use Rattle.lg_outside.specs.declared.keepers.Row.{Row};
ghost use Rattle.std.specs.Prelude.{◌≡◌, ℕ, ◌≤◌, List, Option, IfOk};

use lg_base::{Bytes, Items, Memory};

/// Bytes under a key.
#[derive(Debug, PartialEq, Eq, Drop)]
pub struct Row {
    pub key: u64,
    pub bytes: Bytes,
}

/// Why a keeper didn't do what it was asked for.
#[derive(Clone, Copy, Debug, PartialEq, Eq)]
pub enum KeepFault {
    /// The call failed. The keeper's count of faults rose, or stands at its end.
    Failed,
    /// No memory was to be had. The keeper's count of faults is as it was.
    Memory,
}

impl From<Memory> for KeepFault {
    ghost use Rattle.lg_outside.specs.declared.keepers.KeepFault.TheVariants as fault;

    ghost from_gives = { λ _ e. e ≡ fault.Memory };

    fn from(_refused: Memory) -> KeepFault {
        KeepFault::Memory
    }
}

/// Where rows are kept, each key once. A keeper keeps the allocator that its calls take memory from.
pub trait Keeper {
    // The rows in ascending order of their keys, where the keeper tells them. Whether it does never changes.
    ghost told_rows: { Self → Option (List Row) };

    ghost fault_count: { Self → ℕ };

    /// Turns to the place where the rows are kept. Told rows stay as they were, whatever the answer is.
    fn attach(&mut self, place: &str) -> Result<(), KeepFault>
        ensures rows { told_rows self.new ≡ told_rows self.old }
        ensures cause { IsCaused (fault_count self.old) (fault_count self.new) result }
        ensures rising { fault_count self.old ≤ fault_count self.new };

    /// All rows, in ascending order of their keys.
    fn load(&mut self) -> Result<Items<Row>, KeepFault>
        ensures ascend { IfOk result Ascend }
        ensures told { IsLoaded (told_rows self.old) result }
        ensures rows { told_rows self.new ≡ told_rows self.old }
        ensures cause { IsCaused (fault_count self.old) (fault_count self.new) result }
        ensures rising { fault_count self.old ≤ fault_count self.new };

    /// Keeps these bytes under the key, in place of what stood there. A call that doesn't succeed changes no
    /// row.
    fn put(&mut self, key: u64, bytes: &[u8]) -> Result<(), KeepFault>
        ensures rows { Changes (put_row key bytes.now) (told_rows self.old) (told_rows self.new) result }
        ensures cause { IsCaused (fault_count self.old) (fault_count self.new) result }
        ensures rising { fault_count self.old ≤ fault_count self.new };

    /// Takes the row under the key out, if there is one. A call that doesn't succeed changes no row.
    fn remove(&mut self, key: u64) -> Result<(), KeepFault>
        ensures rows { Changes (remove_row key) (told_rows self.old) (told_rows self.new) result }
        ensures cause { IsCaused (fault_count self.old) (fault_count self.new) result }
        ensures rising { fault_count self.old ≤ fault_count self.new };

    /// How many faults there were. It never falls.
    fn faults(&self) -> u64
        ensures { result ≡ fault_count self.now };
}
