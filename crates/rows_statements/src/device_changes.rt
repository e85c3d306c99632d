//! Changes of devices, each in one savepoint: turning one on or off, and setting its rate.

ghost use Rattle.std.specs.Prelude.{IsTrue};
ghost use Rattle.rows_statements.specs.Prelude.{Changes, ChangesWhole, SetsRow, WritesInSavepoint};
ghost use Rattle.account_rules.specs.Limits.{IsRate};
ghost use Rattle.account_rules.specs.Names.{is_name};
ghost use Rattle.rows_tables.specs.Cells.{units_cells};
ghost use Rattle.rows_tables.specs.Tables.{rates as rates_table};
ghost use Rattle.rows_statements.specs.Changed.{RatesDevice, SwitchesDevice};
ghost use Rattle.rows_statements.specs.Rows.{SetsDevice};

use crate::{set_device, set_rate};
use account_rules::Name;
use sqlite::{Alter, Connection, Error, Savepoint};

/// Switches the device on or off. Where it is new (`is_new`) it is added, and gets rate 1.
pub fn switch_device<S: Alter>(
    connection: &mut Connection<S>,
    name: Name,
    on: bool,
    is_new: bool,
) -> Result<(), Error>
    ensures turns { ChangesWhole S.Store connection.old connection.new result
        (SwitchesDevice name on is_new) }
{
    put_device(connection, name, on, is_new)
}

/// The work of `switch_device`, in one savepoint.
fn put_device<S: Alter>(
    connection: &mut Connection<S>,
    name: Name,
    on: bool,
    is_new: bool,
) -> Result<(), Error>
    ensures turns { ChangesWhole S.Store connection.old connection.new result
        (SetsDevice name on is_new) }
    ensures name { IsTrue (is_name name) }
{
    let mut savepoint = connection.savepoint()?;
    switch(&mut savepoint, name, on, is_new)?;
    savepoint.commit()
}

/// The work of `switch_device`, inside a savepoint.
fn switch<S: Alter>(
    savepoint: &mut Savepoint<'_, S>,
    name: Name,
    on: bool,
    is_new: bool,
) -> Result<(), Error>
    ensures turns { Changes S.Store savepoint.old.conn.now savepoint.new.conn.now result
        (SetsDevice name on is_new) }
    ensures name { IsTrue (is_name name) }
    ensures inside { WritesInSavepoint savepoint.old savepoint.new result }
{
    set_device(savepoint, name, on)?;
    if is_new {
        set_rate(savepoint, name, 1)?;
    }
    Ok(())
}

/// Sets the units, 1 to 100, that an impression counts on the device from now on.
pub fn rate_device<S: Alter>(
    connection: &mut Connection<S>,
    name: Name,
    units: u32,
) -> Result<(), Error>
    requires units { IsRate units }
    ensures rates { ChangesWhole S.Store connection.old connection.new result
        (RatesDevice name units) }
{
    put_rate(connection, name, units)
}

/// The work of `rate_device`, in one savepoint.
fn put_rate<S: Alter>(connection: &mut Connection<S>, name: Name, units: u32) -> Result<(), Error>
    ensures sets { ChangesWhole S.Store connection.old connection.new result
        (SetsRow rates_table (units_cells name units)) }
    ensures name { IsTrue (is_name name) }
{
    let mut savepoint = connection.savepoint()?;
    set_rate(&mut savepoint, name, units)?;
    savepoint.commit()
}
