//! `walk`: how every query that shows many rows is read, row by row, into a `Gather`.

ghost use Rattle.std.specs.Prelude.{◌≡◌, Err, OnOk};
ghost use Rattle.rows_tables.specs.Calls.{KeepsOpen};
ghost use Rattle.sqlite.specs.State.{HasCleanDisk};
ghost use Rattle.sqlite.specs.Held.{state};
ghost use Rattle.sqlite.specs.Values.{bound};
ghost use Rattle.rows_statements.specs.Walks.{HasGathered, Walks};

use rows_tables::TableFault;
use sqlite::{Alter, Connection, Row};
use sqlite_value::value::ValueRef;

/// What gathers rows on a walk: a list, a sum or a count.
pub trait Gather: Sized {
    ghost use Rattle.sqlite_value.specs.Order.{Row as Values};

    // What it becomes by one more row.
    ghost step: { Self → Values → Self → Type 0 };

    // The rows that cannot be gathered.
    ghost refuses: { Self → Values → Type 0 };

    /// Takes in one more row. `Damaged` where the row is broken, or is too much for what was
    /// gathered.
    fn gather(&mut self, row: &Row) -> Result<(), TableFault>
        ensures gathered { OnOk result (step self.old row.now self.new) }
        ensures refused { result ≡ Err TableFault.Damaged → refuses self.old row.now };
}

/// Runs a query and hands each row that it shows to `gathered`, one at a time. No list of rows is
/// kept.
pub fn walk<S: Alter, G: Gather>(
    connection: &mut Connection<S>,
    text: &str,
    params: &[ValueRef<'_>],
    gathered: &mut G,
) -> Result<(), TableFault>
    ensures gathers { OnOk result (HasGathered G.step gathered.old gathered.new) }
    ensures walks { HasCleanDisk (state S.Store connection.new)
        → Walks G.step G.refuses (state S.Store connection.old) (state S.Store connection.new)
        text.now (bound params.now) gathered.old gathered.new result }
    ensures connection { KeepsOpen S.Store connection.old connection.new result }
{
    let mut rows = connection.query(text, params)?;
    // No table has as many rows as this.
    'rows: for _ in 0..u64::MAX {
        let Some(row) = rows.next()? else {
            return Ok(());
        };
        gathered.gather(row)?;
    }
    Err(TableFault::Storage)
}
