//! `find_row`: a query that shows one row at most.

ghost use Rattle.sqlite.specs.State.{HasCleanDisk};
ghost use Rattle.sqlite.specs.Held.{state};
ghost use Rattle.sqlite.specs.Values.{bound};
ghost use Rattle.rows_tables.specs.Calls.{KeepsOpen};
ghost use Rattle.rows_tables.specs.Queries.{Finds};

use sqlite::{Alter, Connection, Error, Row};
use sqlite_value::value::ValueRef;

/// Runs a query with its parameters and reads its first row. `None` where it shows no row.
pub fn find_row<S: Alter>(
    connection: &mut Connection<S>,
    text: &str,
    params: &[ValueRef<'_>],
) -> Result<Option<Row>, Error>
    ensures finds { HasCleanDisk (state S.Store connection.new)
        → Finds (state S.Store connection.old) (state S.Store connection.new) text.now
        (bound params.now) result }
    ensures connection { KeepsOpen S.Store connection.old connection.new result }
{
    match connection.query_row(text, params) {
        Ok(row) => Ok(Some(row)),
        Err(error) => match error {
            Error::QueryReturnedNoRows => Ok(None),
            _ => Err(error),
        },
    }
}
