//! `knock`: the test whether a connection can still be used.

ghost use Rattle.std.specs.Prelude.{◌≡◌, Ok, Err, IsTrue, OnErr, OnOk};
ghost use Rattle.sqlite.specs.Held.{state};
ghost use Rattle.sqlite.specs.State.{HasCleanDisk, Survives};
ghost use Rattle.store_rounds.specs.Prelude.{LooksUp};
ghost use Rattle.rows_tables.specs.Calls.{IsUnchanged, IsUndone};

use rows_tables::TableFault;
use sqlite::{Alter, Connection};

/// Tests whether the connection can still be used, by preparing an empty statement. A fault of the
/// disk may have shut it. A failure here undoes a transaction that is under way.
pub(crate) fn knock<S: Alter>(connection: &mut Connection<S>) -> Result<(), TableFault>
    ensures looks { LooksUp S.Store connection.old connection.new result }
    ensures opened { HasCleanDisk (state S.Store connection.new)
        → OnOk result (IsTrue (state S.Store connection.old).is_open) }
    ensures same { HasCleanDisk (state S.Store connection.new) → OnOk result
        (IsUnchanged (state S.Store connection.old) (state S.Store connection.new)) }
    ensures undone { HasCleanDisk (state S.Store connection.new) → OnErr result
        (IsUndone (state S.Store connection.old) (state S.Store connection.new)) }
    ensures survives { Survives (state S.Store connection.old) (state S.Store connection.new)
        (λ _. ⊥) }
    ensures damaged { result ≡ Err TableFault.Damaged → ⊥ }
{
    match connection.prepare("") {
        Ok(_) => Ok(()),
        Err(error) => Err(TableFault::from(error)),
    }
}
