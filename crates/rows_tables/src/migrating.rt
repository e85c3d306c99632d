//! Migrating a database of version 1 to version 2.

ghost use Rattle.std.specs.Prelude.{◌≡◌, ◌⊎◌, [], false, OnOk, IfErr};
ghost use Rattle.sqlite.specs.State.{HasCleanDisk};
ghost use Rattle.sqlite.specs.Held.{state};
ghost use Rattle.rows_tables.specs.Tables.{room_schema, rates, first_version};
ghost use Rattle.rows_tables.specs.Calls.{AllOrNothing, MakesIfHonest, IfDiskHonest, WritesInSavepoint};
ghost use Rattle.rows_tables.specs.Making.{HasVersion, OpensTables};
ghost use Rattle.rows_tables.specs.Migrating.{IsFirstVersion, IsMigrated, IsMigrateFault, RatesDevices, NotesVersionTwo};

use crate::fault::OpenFault;
use crate::making::extend_tables;
use crate::opening::add_index;
use crate::version::{Lack, lack_of};
use crate::writing::write;
use sqlite::{Alter, Connection, Error, Savepoint};

/// Makes a database of version 1 one of version 2. One of version 2 is opened, as by `open_tables`.
pub fn migrate_tables<S: Alter>(connection: &mut Connection<S>) -> Result<(), OpenFault>
    ensures migrated { HasCleanDisk (state S.Store connection.new)
        → OnOk result (OpensTables (state S.Store connection.old) (state S.Store connection.new)
        ⊎ IsMigrated (state S.Store connection.old).now (state S.Store connection.new).now) }
    ensures fault { IfDiskHonest S.Store connection.old connection.new
        (λ db. IfErr result (IsMigrateFault db)) }
    ensures whole { AllOrNothing S.Store connection.old connection.new result }
{
    match lack_of(connection)? {
        Lack::Nothing => {}
        Lack::Index => add_index(connection)?,
        Lack::Version => add_rates(connection)?,
    }
    Ok(())
}

/// Migrates version 1 to version 2, in one transaction: it gets the table of rates, the index on
/// jobs, rate 1 for each device, and the new version number.
fn add_rates<S: Alter>(connection: &mut Connection<S>) -> Result<(), Error>
    ensures migrated { MakesIfHonest S.Store connection.old connection.new result
        (λ before after. IsFirstVersion before → IsMigrated before after) }
    ensures whole { AllOrNothing S.Store connection.old connection.new result }
{
    let mut savepoint = connection.savepoint()?;
    become_version_two(&mut savepoint)?;
    savepoint.commit()
}

/// Migrates version 1 to version 2, inside a savepoint.
fn become_version_two<S: Alter>(savepoint: &mut Savepoint<'_, S>) -> Result<(), Error>
    ensures migrated { MakesIfHonest S.Store savepoint.old.conn.now savepoint.new.conn.now
        result (λ before after. IsFirstVersion before → IsMigrated before after) }
    ensures inside { WritesInSavepoint savepoint.old savepoint.new result }
{
    extend_tables(savepoint)?;
    rate_devices(savepoint)?;
    note_version_two(savepoint)
}

/// Gives each device rate 1.
fn rate_devices<S: Alter>(savepoint: &mut Savepoint<'_, S>) -> Result<(), Error>
    ensures rates { MakesIfHonest S.Store savepoint.old.conn.now savepoint.new.conn.now result
        (λ before after. before.schema ≡ room_schema → before.trees rates.tree ≡ []
        → RatesDevices before after) }
    ensures inside { WritesInSavepoint savepoint.old savepoint.new result }
{
    write(
        savepoint,
        "INSERT INTO rates (device, units) SELECT name, 1 FROM device",
        &[],
    )
}

/// Sets the version number in `meta` to 2.
fn note_version_two<S: Alter>(savepoint: &mut Savepoint<'_, S>) -> Result<(), Error>
    ensures notes { MakesIfHonest S.Store savepoint.old.conn.now savepoint.new.conn.now result
        (λ before after. before.schema ≡ room_schema → HasVersion before first_version
        → NotesVersionTwo before after) }
    ensures inside { WritesInSavepoint savepoint.old savepoint.new result }
{
    write(savepoint, "UPDATE meta SET version = 2 WHERE id = 1", &[])
}
