//! A keeper over an SQLite file. It tells nothing of its rows.

ghost use Rattle.lg_outside.specs.Keeping.{Ascend, Changes, IsCaused, IsLoaded, put_row, remove_row};
ghost use Rattle.sqlite_keeper.specs.Counts.{count_after, count_of, fault_kind, untold_rows};
ghost use Rattle.sqlite_keeper.specs.Runs.{RunsOnFile};
ghost use Rattle.sqlite.specs.declared.types.Value.TheVariants.{Blob, Int};
ghost use Rattle.std.specs.Prelude.{◌≡◌, ◌≤◌, ◌^◌, [], ◌∷◌, Err, IfOk, IsSome, None, OnErr, OnOk, is_some, pos};

use crate::opening::open;
use crate::statements::{PUT, REMOVE, load_from, put_into, remove_from};
use lg_base::Items;
use lg_outside::{KeepFault, Keeper, Row};
use sqlite::{Alter, Connection, Error, ErrorCode, FileFrom, FileStore, Wary};

/// The store of a file of the disk, of whose torn writes nothing is supposed.
pub type Disk = FileStore<FileFrom<Wary>>;

/// A keeper of rows in a database, once it was attached.
#[derive(Drop)]
pub struct SqliteKeeper<S: Alter> {
    rt: HostRuntime,
    file: Option<Connection<S>>,
    faults: u64,
}

/// A keeper of rows in a file of the disk.
pub type FileKeeper = SqliteKeeper<Disk>;

impl<S: Alter> SqliteKeeper<S> {
    /// A keeper that isn't attached yet. Until it is, each call but `attach` fails.
    pub fn new(rt: HostRuntime) -> SqliteKeeper<S>
        ensures { result ≡ record { rt = rt; file = None; faults = 0 } }
    {
        SqliteKeeper {
            rt,
            file: None,
            faults: 0,
        }
    }

    /// What a refusal of the database is answered, once it was counted. Want of memory isn't counted.
    fn fault_of(&mut self, refusal: Error) -> KeepFault
        ensures kind { result ≡ fault_kind refusal }
        ensures count { self.new.faults ≡ count_of self.old.faults result }
        ensures rising { self.old.faults ≤ self.new.faults }
        ensures file { self.new.file ≡ self.old.file }
    {
        if let Error::SqliteFailure(ErrorCode::OutOfMemory) = refusal {
            return KeepFault::Memory;
        }
        self.faults = self.faults.saturating_add(1);
        KeepFault::Failed
    }
}

impl Keeper for SqliteKeeper<Disk> {
    ghost told_rows = { λ _. untold_rows };

    ghost fault_count = { λ k. k.faults };

    // The file that was open before is closed first. After a call that doesn't succeed none is open.
    fn attach(&mut self, place: &str) -> Result<(), KeepFault>
        ensures rows { untold_rows ≡ untold_rows }
        ensures cause { IsCaused self.old.faults self.new.faults result }
        ensures rising { self.old.faults ≤ self.new.faults }

        ensures count { self.new.faults ≡ count_after self.old.faults result }
        ensures attached { OnOk result (IsSome self.new.file) }
        ensures closed { OnErr result (self.new.file ≡ None) }
    {
        self.file = None;
        match open(&self.rt, place, Wary) {
            Ok(file) => {
                self.file = Some(file);
                Ok(())
            }
            Err(refusal) => Err(self.fault_of(refusal)),
        }
    }

    fn load(&mut self) -> Result<Items<Row>, KeepFault>
        ensures ascend { IfOk result Ascend }
        ensures told { IsLoaded untold_rows result }
        ensures rows { untold_rows ≡ untold_rows }
        ensures cause { IsCaused self.old.faults self.new.faults result }
        ensures rising { self.old.faults ≤ self.new.faults }

        ensures count { self.new.faults ≡ count_after self.old.faults result }
        ensures stays { is_some self.new.file ≡ is_some self.old.file }
        ensures unattached { self.old.file ≡ None → result ≡ Err KeepFault.Failed }
    {
        match load_from(self.rt.alloc(), &mut self.file) {
            Ok(rows) => Ok(rows),
            Err(refusal) => Err(self.fault_of(refusal)),
        }
    }

    fn put(&mut self, key: u64, bytes: &[u8]) -> Result<(), KeepFault>
        ensures rows { Changes (put_row key bytes.now) untold_rows untold_rows result }
        ensures cause { IsCaused self.old.faults self.new.faults result }
        ensures rising { self.old.faults ≤ self.new.faults }

        ensures count { self.new.faults ≡ count_after self.old.faults result }
        ensures stays { is_some self.new.file ≡ is_some self.old.file }
        ensures unattached { self.old.file ≡ None → result ≡ Err KeepFault.Failed }
        ensures large { 2 ^ 63 ≤ key → result ≡ Err KeepFault.Failed }
        ensures runs { OnOk result (RunsOnFile PUT.now (Int (pos key) ∷ Blob bytes.now ∷ []) self.old.file self.new.file) }
    {
        match put_into(&mut self.file, key, bytes) {
            Ok(()) => Ok(()),
            Err(refusal) => Err(self.fault_of(refusal)),
        }
    }

    fn remove(&mut self, key: u64) -> Result<(), KeepFault>
        ensures rows { Changes (remove_row key) untold_rows untold_rows result }
        ensures cause { IsCaused self.old.faults self.new.faults result }
        ensures rising { self.old.faults ≤ self.new.faults }

        ensures count { self.new.faults ≡ count_after self.old.faults result }
        ensures stays { is_some self.new.file ≡ is_some self.old.file }
        ensures unattached { self.old.file ≡ None → result ≡ Err KeepFault.Failed }
        ensures large { 2 ^ 63 ≤ key → result ≡ Err KeepFault.Failed }
        ensures runs { OnOk result (RunsOnFile REMOVE.now (Int (pos key) ∷ []) self.old.file self.new.file) }
    {
        match remove_from(&mut self.file, key) {
            Ok(()) => Ok(()),
            Err(refusal) => Err(self.fault_of(refusal)),
        }
    }

    fn faults(&self) -> u64 {
        self.faults
    }
}
