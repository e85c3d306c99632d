//! Copying the devices, which is the last slice of a copy.

ghost use Rattle.std.specs.Prelude.{◌≡◌, Err};
ghost use Rattle.store_copy.specs.Copies.{CopiesDevices};
ghost use Rattle.store_copy.specs.ProofRows.{AddsDevice, AddsDevices};
ghost use Rattle.store_copy.specs.ProofSavepoints.{KeepsSavepoint};
ghost use Rattle.rows_statements.specs.SoundRows.{CanBeListed};
ghost use Rattle.rows_tables.specs.Calls.{Changes, IfOurTables, ReadsStore, WritesInSavepoint};
ghost use Rattle.rows_tables.specs.declared.fault.TableFault.TheVariants.{Damaged};

use account_rules::Device;
use rows_statements::{TableFault, list_devices, set_device, set_rate};
use sqlite::{Alter, Error, Savepoint};
use std::alloc::Global;
use store_rounds::Rounds;

/// Copies all devices with their rates, as they are in the source now.
pub(crate) fn copy_devices<S: Alter, T: Alter>(
    alloc: Global,
    source: &mut Rounds<S>,
    savepoint: &mut Savepoint<'_, T>,
) -> Result<(), TableFault>
    ensures copies { Changes T.Store savepoint.old.conn.now savepoint.new.conn.now result
        (λ before after. IfOurTables S.Store source.old source.new
        (λ db. CopiesDevices db before after)) }
    ensures inside { KeepsSavepoint savepoint.old savepoint.new result }
    ensures damaged { IfOurTables S.Store source.old source.new
        (λ db. result ≡ Err Damaged → CanBeListed db → ⊥) }
    ensures reads { ReadsStore S.Store source.old source.new result }
{
    let devices = list_devices(alloc, source)?;
    Ok(add_devices(savepoint, devices.as_slice())?)
}

/// Writes the devices into the copy.
fn add_devices<T: Alter>(savepoint: &mut Savepoint<'_, T>, devices: &[Device]) -> Result<(), Error>
    ensures adds { Changes T.Store savepoint.old.conn.now savepoint.new.conn.now result
        (AddsDevices devices.now) }
    ensures inside { KeepsSavepoint savepoint.old savepoint.new result }
{
    for device in devices {
        add_device(savepoint, device)?;
    }
    Ok(())
}

/// Writes both rows of a device into the copy.
fn add_device<T: Alter>(savepoint: &mut Savepoint<'_, T>, device: &Device) -> Result<(), Error>
    ensures adds { Changes T.Store savepoint.old.conn.now savepoint.new.conn.now result
        (AddsDevice device.now) }
    ensures inside { WritesInSavepoint savepoint.old savepoint.new result }
{
    set_device(savepoint, device.name, device.on)?;
    set_rate(savepoint, device.name, device.rate)
}
