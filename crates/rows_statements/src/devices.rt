//! Statements on the table `device`, which tells of each device whether it takes jobs.

ghost use Rattle.std.specs.Prelude.{◌≡◌, ◌↔◌, ℕ, Bool, ⊤, List, true, [], ◌∷◌, map, Some, Err, option_map, IfOk, IsTrue, IsPermutation};
ghost use Rattle.rows_statements.specs.Prelude.{Changes, GetsRow, IfOurTables, IsRowOf, KeepsOpen, ReadsStore, SetsRow, WalksStore, WritesInSavepoint, column};
ghost use Rattle.account_rules.specs.Devices.{Devices, is_some_on};
ghost use Rattle.account_rules.specs.Names.{is_name};
ghost use Rattle.rows_tables.specs.Places.{device_column, cell};
ghost use Rattle.rows_tables.specs.Tables.{device as device_table};
ghost use Rattle.rows_tables.specs.Cells.{on_cells};
ghost use Rattle.rows_tables.specs.Devices.{device_at, HoldsDevices};
ghost use Rattle.rows_statements.specs.Totals.{GathersOn, refuses_flag};
ghost use Rattle.rows_statements.specs.SoundRows.{device_rows, AreRowsOf};

use crate::reads::Reads;
use crate::walking::Gather;
use account_rules::Name;
use rows_tables::values::{flag, flag_at};
use rows_tables::{TableFault, write};
use sqlite::{Alter, Error, Row, Savepoint};
use sqlite_value::value::ValueRef;

/// Reads whether the device takes jobs now. `None` where no device has the name; `Damaged` where
/// its row is broken.
pub fn find_device<R: Reads>(connection: &mut R, name: Name) -> Result<Option<bool>, TableFault>
    ensures found { IfOurTables R.S.Store (R.held connection.old) (R.held connection.new)
        (λ db. IfOk result (λ found. device_at db name ≡ option_map (on_cells name) found)) }
    ensures damaged { IfOurTables R.S.Store (R.held connection.old) (R.held connection.new) (λ db.
        result ≡ Err TableFault.Damaged
        → IsRowOf (on_cells name) (λ _. ⊤) (device_at db name) → ⊥) }
    ensures reads { ReadsStore R.S.Store (R.held connection.old) (R.held connection.new) result }
{
    match device_row(connection, name)? {
        Some(row) => Ok(Some(flag_at(&row, 0)?)),
        None => Ok(None),
    }
}

/// Runs the query of `find_device`.
fn device_row<R: Reads>(connection: &mut R, name: Name) -> Result<Option<Row>, Error>
    ensures gets { GetsRow R.S.Store (R.held connection.old) (R.held connection.new)
        (λ db. device_at db name)
        (λ cells. cell device_column.accepting cells ∷ []) result }
    ensures connection { KeepsOpen R.S.Store (R.held connection.old)
        (R.held connection.new) result }
{
    connection.find_row(
        "SELECT accepting FROM device WHERE name = ?1",
        &[ValueRef::Text(name.bytes())],
    )
}

/// Whether any device takes jobs now, which the printer's attributes tell. `Damaged` where a row is
/// broken.
pub fn is_device_on<R: Reads>(connection: &mut R) -> Result<bool, TableFault>
    ensures found { IfOurTables R.S.Store (R.held connection.old) (R.held connection.new)
        (λ db. IfOk result
        (λ on. IsTrue on ↔ ((name : List ℕ) × (device_at db name ≡ Some (on_cells name true))))) }
    ensures of_map { IfOurTables R.S.Store (R.held connection.old) (R.held connection.new)
        (λ db. IfOk result
        (λ on. (devices : Devices) → HoldsDevices db devices → on ≡ is_some_on devices)) }
    ensures damaged { IfOurTables R.S.Store (R.held connection.old) (R.held connection.new) (λ db.
        result ≡ Err TableFault.Damaged
        → AreRowsOf (λ (it : List ℕ × Bool). on_cells it.0 it.1) (λ _. ⊤) (device_rows db) → ⊥) }
    ensures reads { ReadsStore R.S.Store (R.held connection.old) (R.held connection.new) result }
{
    let mut found = AnyOn { is_on: false };
    walk_devices(connection, &mut found)?;
    Ok(found.is_on)
}

/// Whether one of the devices that were read so far takes jobs.
#[derive(Drop)]
struct AnyOn {
    is_on: bool,
}

impl Gather for AnyOn {
    ghost use Rattle.rows_statements.specs.Totals.{GathersOn, refuses_flag};

    ghost step = { λ first row last. GathersOn first.is_on row last.is_on };

    ghost refuses = { λ first row. refuses_flag row };

    fn gather(&mut self, row: &Row) -> Result<(), TableFault> {
        if flag_at(row, 0)? {
            self.is_on = true;
        }
        Ok(())
    }
}

/// Reads all devices into `found`.
fn walk_devices<R: Reads>(connection: &mut R, found: &mut AnyOn) -> Result<(), TableFault>
    ensures walks { WalksStore
        (λ first row last. GathersOn first.is_on row last.is_on) (λ first row. refuses_flag row)
        R.S.Store (R.held connection.old) (R.held connection.new)
        (λ db. IsPermutation
        (map (λ row. column row device_column.accepting ∷ []) (db.trees device_table.tree)))
        found.old found.new result }
    ensures connection { KeepsOpen R.S.Store (R.held connection.old)
        (R.held connection.new) result }
{
    connection.walk("SELECT accepting FROM device", &[], found)
}

/// Inserts or replaces a device's row, which tells whether it takes jobs, inside a savepoint.
pub fn set_device<S: Alter>(
    savepoint: &mut Savepoint<'_, S>,
    name: Name,
    on: bool,
) -> Result<(), Error>
    ensures sets { Changes S.Store savepoint.old.conn.now savepoint.new.conn.now result
        (SetsRow device_table (on_cells name on)) }
    ensures name { IsTrue (is_name name) }
    ensures inside { WritesInSavepoint savepoint.old savepoint.new result }
{
    write(
        savepoint,
        "INSERT INTO device (name, accepting) VALUES (?1, ?2) ON CONFLICT (name) DO UPDATE SET accepting = excluded.accepting",
        &[ValueRef::Text(name.bytes()), flag(on)],
    )
}
