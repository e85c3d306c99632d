//! Reading all devices with their rates, as an operator, the pages and a backup list them.

ghost use Rattle.std.specs.Prelude.{◌≡◌, ℕ, Some, Err, IfOk};
ghost use Rattle.std.specs.FinMap.{values};
ghost use Rattle.account_rules.specs.Devices.{Devices};
ghost use Rattle.account_rules.specs.Limits.{IsRate};
ghost use Rattle.rows_statements.specs.DeviceLists.{HasRate, ListsSwitch, ShowsDevices, refuses_switch, switch_of};
ghost use Rattle.rows_statements.specs.Prelude.{IfOurTables, KeepsOpen, ReadsStore, WalksStore};
ghost use Rattle.rows_statements.specs.SoundRows.{CanBeListed};
ghost use Rattle.rows_tables.specs.Cells.{units_cells};
ghost use Rattle.rows_tables.specs.Devices.{rate_at, HoldsDevices};

use crate::rates::find_rate;
use crate::reads::Reads;
use crate::walking::Gather;
use account_rules::{Device, Name};
use ipp_coding::List;
use rows_tables::TableFault;
use rows_tables::values::{flag_at, name_at};
use sqlite::Row;
use std::alloc::Global;

/// Reads all devices with their rates, by name. `Damaged` where a row is broken, or a device has no
/// rate.
pub fn list_devices<R: Reads>(alloc: Global, connection: &mut R) -> Result<List<Device>, TableFault>
    ensures listed { IfOurTables R.S.Store (R.held connection.old) (R.held connection.new) (λ db.
        (devices : Devices) → HoldsDevices db devices
        → IfOk result (λ listed. listed ≡ values devices)) }
    ensures damaged { IfOurTables R.S.Store (R.held connection.old) (R.held connection.new)
        (λ db. result ≡ Err TableFault.Damaged → CanBeListed db → ⊥) }
    ensures reads { ReadsStore R.S.Store (R.held connection.old) (R.held connection.new) result }
{
    // The connection can read nothing else while the walk is under way.
    let mut switches = List {
        items: Vec::new(alloc),
    };
    walk_switches(connection, &mut switches)?;
    let mut items = Vec::new(alloc);
    for (name, on) in switches.as_slice() {
        items.push(with_rate(connection, *name, *on)?)?;
    }
    Ok(List { items })
}

/// Gathers each device's name, and whether it takes jobs.
fn walk_switches<R: Reads>(
    connection: &mut R,
    switches: &mut List<(Name, bool)>,
) -> Result<(), TableFault>
    ensures walks { WalksStore ListsSwitch (λ _ row. refuses_switch row)
        R.S.Store (R.held connection.old)
        (R.held connection.new) ShowsDevices switches.old switches.new result }
    ensures connection { KeepsOpen R.S.Store (R.held connection.old)
        (R.held connection.new) result }
{
    connection.walk(
        "SELECT name, accepting FROM device ORDER BY name",
        &[],
        switches,
    )
}

// Gathers each device's name, and whether it takes jobs.
impl Gather for List<(Name, bool)> {
    ghost use Rattle.rows_statements.specs.DeviceLists.{ListsSwitch, refuses_switch};

    ghost step = { λ first row last. ListsSwitch first row last };

    ghost refuses = { λ first row. refuses_switch row };

    fn gather(&mut self, row: &Row) -> Result<(), TableFault> {
        let name = name_at(row, 0)?;
        let on = flag_at(row, 1)?;
        self.items.push((name, on))?;
        Ok(())
    }
}

/// Adds its rate to a device. `Damaged` where it has none, or the row of the rate is broken.
fn with_rate<R: Reads>(connection: &mut R, name: Name, on: bool) -> Result<Device, TableFault>
    ensures told { IfOk result (λ device. switch_of device ≡ (name, on)) }
    ensures rated { IfOurTables R.S.Store (R.held connection.old) (R.held connection.new)
        (λ db. IfOk result (HasRate db)) }
    ensures damaged { IfOurTables R.S.Store (R.held connection.old) (R.held connection.new) (λ db.
        result ≡ Err TableFault.Damaged
        → (units : ℕ) → IsRate units → rate_at db name ≡ Some (units_cells name units) → ⊥) }
    ensures reads { ReadsStore R.S.Store (R.held connection.old) (R.held connection.new) result }
{
    match find_rate(connection, name)? {
        Some(rate) => Ok(Device { name, on, rate }),
        None => Err(TableFault::Damaged),
    }
}
