//! Laws of what is kept of accounts. Each function does nothing: its contract is the law.

ghost use Rattle.account_machine.specs.Restarts.{RecordsFit, RestartsKeepAccounts, RowsAreRecords};
ghost use Rattle.account_machine.specs.SoundStarts.{LoadedAreSound, LoadedFit, OpenedAreSound, OpenedFit};

/// Each account after a legal history has a record, where each one at its start has.
pub fn records_fit()
    ensures { RecordsFit }
{}

/// The rows that a keeper tells after a run, which began with those of the accounts at its start, are the records of the
/// accounts; and they are loaded as these accounts, whose passwords have new numbers.
pub fn restarts_keep_accounts()
    ensures rows { RowsAreRecords }
    ensures loaded { RestartsKeepAccounts }
{}

/// The accounts of every start are sound, and each has a record that fits: those that `Accounts::opening` gives, and those
/// that `Accounts::load` finds in the rows of a keeper.
pub fn starts_are_sound()
    ensures opened { OpenedAreSound }
    ensures loaded { LoadedAreSound }
    ensures opened_records { OpenedFit }
    ensures loaded_records { LoadedFit }
{}
