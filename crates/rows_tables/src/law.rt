//! Laws of this crate: facts about its definitions that the check proves. Nothing calls them.

ghost use Rattle.rows_tables.specs.Crashes.{CrashesFindLastCommit};
ghost use Rattle.rows_tables.specs.Devices.{AreOfOneMap};
ghost use Rattle.rows_tables.specs.ReadBack.{RowsAreReadBack};
ghost use Rattle.rows_tables.specs.SameRows.{SameByKeyIsSameByTable};

use sqlite::Alter;

/// A row that was written for a value is read back as that value.
pub fn rows_are_read_back()
    ensures { RowsAreReadBack }
{}

/// Two databases that agree on the rows of an account, key by key, have the same rows of it, table
/// by table, and the other way round: those whose account is exactly the text, each as often, in
/// any order.
pub fn same_by_key_is_same_by_table()
    ensures { SameByKeyIsSameByTable }
{}

/// Rows of devices that are sound are those of one map from names to devices.
pub fn device_rows_are_of_one_map()
    ensures { AreOfOneMap }
{}

/// While a connection is open, an open after a crash finds its last commit and nothing else: no
/// earlier one, and nothing of a transaction that is under way.
pub fn crashes_find_last_commit<S: Alter>()
    ensures { CrashesFindLastCommit S.Store }
{}
