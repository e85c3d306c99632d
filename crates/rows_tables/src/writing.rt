//! `write` and `put`: how every statement that changes rows is run, inside a savepoint.

ghost use Rattle.std.specs.Prelude.{◌≡◌, Err, OnOk};
ghost use Rattle.sqlite.specs.State.{HasCleanDisk};
ghost use Rattle.sqlite.specs.Held.{state};
ghost use Rattle.sqlite.specs.Values.{bound};
ghost use Rattle.rows_tables.specs.Calls.{HasRun, IsTaken, WritesInSavepoint};

use crate::fault::TableFault;
use sqlite::{Alter, Error, Savepoint};
use sqlite_value::value::ValueRef;

/// Runs a statement that changes rows. How many rows it changed is not told: its text says which.
pub fn write<S: Alter>(
    savepoint: &mut Savepoint<'_, S>,
    text: &str,
    params: &[ValueRef<'_>],
) -> Result<(), Error>
    ensures runs { HasCleanDisk (state S.Store savepoint.new.conn.now)
        → OnOk result (HasRun text.now (bound params.now)
        (state S.Store savepoint.old.conn.now) (state S.Store savepoint.new.conn.now)) }
    ensures inside { WritesInSavepoint savepoint.old savepoint.new result }
{
    savepoint.execute(text, params)?;
    Ok(())
}

/// Runs an INSERT of one row. `Damaged` where the table has a row of the same key already; nothing
/// is changed then.
pub fn put<S: Alter>(
    savepoint: &mut Savepoint<'_, S>,
    text: &str,
    params: &[ValueRef<'_>],
) -> Result<(), TableFault>
    ensures runs { HasCleanDisk (state S.Store savepoint.new.conn.now)
        → OnOk result (HasRun text.now (bound params.now)
        (state S.Store savepoint.old.conn.now) (state S.Store savepoint.new.conn.now)) }
    ensures taken { HasCleanDisk (state S.Store savepoint.new.conn.now)
        → result ≡ Err TableFault.Damaged → IsTaken text.now (bound params.now)
        (state S.Store savepoint.old.conn.now) (state S.Store savepoint.new.conn.now) }
    ensures inside { WritesInSavepoint savepoint.old savepoint.new result }
{
    match savepoint.execute(text, params) {
        Ok(_) => Ok(()),
        Err(error) => Err(TableFault::of_put(error)),
    }
}
