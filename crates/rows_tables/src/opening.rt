//! Opening a database of version 2. Only the index on jobs is added to it, where the file is older
//! than that index.

ghost use Rattle.std.specs.Prelude.{◌≡◌, false, IfErr, OnOk};
ghost use Rattle.sqlite.specs.State.{HasCleanDisk};
ghost use Rattle.sqlite.specs.Held.{state};
ghost use Rattle.rows_tables.specs.Calls.{AllOrNothing, IfDiskHonest, MakesIfHonest};
ghost use Rattle.rows_tables.specs.Making.{AddsIndex, IsOpened, IsOpenFault, LacksIndex, OpensTables};

use crate::fault::OpenFault;
use crate::making::make_job_ended_index;
use crate::version::lacks_index;
use sqlite::{Alter, Connection, Error};

/// Checks that the database is of version 2, and adds its index on jobs where that is missing. Any
/// other database is refused and left as it is.
pub fn open_tables<S: Alter>(connection: &mut Connection<S>) -> Result<(), OpenFault>
    ensures opened { HasCleanDisk (state S.Store connection.new) → OnOk result
        (OpensTables (state S.Store connection.old) (state S.Store connection.new)) }
    ensures fault { IfDiskHonest S.Store connection.old connection.new
        (λ db. IfErr result (IsOpenFault db)) }
    ensures whole { AllOrNothing S.Store connection.old connection.new result }
{
    if lacks_index(connection)? {
        add_index(connection)?;
    }
    Ok(())
}

/// Adds the index on jobs to a database of version 2, in one transaction.
pub(crate) fn add_index<S: Alter>(connection: &mut Connection<S>) -> Result<(), Error>
    ensures adds { MakesIfHonest S.Store connection.old connection.new result (λ before after.
        LacksIndex before → IsOpened after × AddsIndex before after) }
    ensures whole { AllOrNothing S.Store connection.old connection.new result }
{
    let mut savepoint = connection.savepoint()?;
    make_job_ended_index(&mut savepoint)?;
    savepoint.commit()
}
