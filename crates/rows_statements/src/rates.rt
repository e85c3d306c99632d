//! Statements on the table `rates`: how many units of quota a device counts for an impression.

ghost use Rattle.std.specs.Prelude.{◌≡◌, ◌≢◌, ◌≤◌, ℕ, [], ◌∷◌, Err, option_map, IfOk, IfSome, IsTrue};
ghost use Rattle.rows_statements.specs.Prelude.{Changes, GetsRow, IfOurTables, IsRowOf, KeepsOpen, ReadsStore, SetsRow, WritesInSavepoint, column, number};
ghost use Rattle.account_rules.specs.Limits.{most_rate, IsRate};
ghost use Rattle.account_rules.specs.Names.{is_name};
ghost use Rattle.rows_tables.specs.Places.{rate_column, cell};
ghost use Rattle.rows_tables.specs.Tables.{rates as rates_table};
ghost use Rattle.rows_tables.specs.Cells.{units_cells};
ghost use Rattle.rows_tables.specs.Devices.{rate_at};

use crate::reads::Reads;
use account_rules::{MOST_RATE, Name};
use rows_tables::values::{number, number_at};
use rows_tables::{TableFault, write};
use sqlite::{Alter, Error, Row, Savepoint};
use sqlite_value::value::ValueRef;

/// Reads the units, 1 to 100, that an impression counts on the device. `None` where it has no rate;
/// `Damaged` where the row is broken.
pub fn find_rate<R: Reads>(connection: &mut R, name: Name) -> Result<Option<u32>, TableFault>
    ensures found { IfOurTables R.S.Store (R.held connection.old) (R.held connection.new)
        (λ db. IfOk result (λ found. rate_at db name ≡ option_map (units_cells name) found)) }
    ensures in_range { IfOk result
        (λ found. IfSome found IsRate) }
    ensures damaged { IfOurTables R.S.Store (R.held connection.old) (R.held connection.new) (λ db.
        result ≡ Err TableFault.Damaged
        → IsRowOf (units_cells name) IsRate (rate_at db name)
        → ⊥) }
    ensures reads { ReadsStore R.S.Store (R.held connection.old) (R.held connection.new) result }
{
    match rate_row(connection, name)? {
        Some(row) => Ok(Some(units_from(&row)?)),
        None => Ok(None),
    }
}

/// Runs the query of `find_rate`.
fn rate_row<R: Reads>(connection: &mut R, name: Name) -> Result<Option<Row>, Error>
    ensures gets { GetsRow R.S.Store (R.held connection.old) (R.held connection.new)
        (λ db. rate_at db name)
        (λ cells. cell rate_column.units cells ∷ []) result }
    ensures connection { KeepsOpen R.S.Store (R.held connection.old)
        (R.held connection.new) result }
{
    connection.find_row(
        "SELECT units FROM rates WHERE device = ?1",
        &[ValueRef::Text(name.bytes())],
    )
}

/// Reads the units from the row of that query. `Damaged` where they are out of range.
fn units_from(row: &Row) -> Result<u32, TableFault>
    ensures read { IfOk result (λ units. column row.now 0 ≡ number units) }
    ensures in_range { IfOk result IsRate }
    ensures damaged { result ≡ Err TableFault.Damaged → (units : ℕ) → 1 ≤ units → units ≤ most_rate
        → column row.now 0 ≢ number units }
{
    let units = number_at(row, 0)?;
    if units < 1 || units > MOST_RATE as u64 {
        return Err(TableFault::Damaged);
    }
    Ok(units as u32)
}

/// Inserts or replaces the units that an impression counts on the device, inside a savepoint.
pub fn set_rate<S: Alter>(
    savepoint: &mut Savepoint<'_, S>,
    name: Name,
    units: u32,
) -> Result<(), Error>
    ensures sets { Changes S.Store savepoint.old.conn.now savepoint.new.conn.now result
        (SetsRow rates_table (units_cells name units)) }
    ensures name { IsTrue (is_name name) }
    ensures inside { WritesInSavepoint savepoint.old savepoint.new result }
{
    write(
        savepoint,
        "INSERT INTO rates (device, units) VALUES (?1, ?2) ON CONFLICT (device) DO UPDATE SET units = excluded.units",
        &[ValueRef::Text(name.bytes()), number(units as u64)],
    )
}
