//! A law of this crate: a fact about its definitions that the check proves. Nothing calls it.

ghost use Rattle.rows_checks.specs.Checks.{RowsInOrderAreSound};

/// Where every row that the keys lead to is in order, the rows of the account are sound: those of a
/// room.
pub fn checked_rows_are_sound()
    ensures { RowsInOrderAreSound }
{}
