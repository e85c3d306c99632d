//! `copy_all`: the whole copy at once, as `copy` makes it of a file that no program has open.

ghost use Rattle.std.specs.Prelude.{◌≡◌, Err, OnOk};
ghost use Rattle.sqlite.specs.Held.{state};
ghost use Rattle.store_copy.specs.All.{AreAllSound, CopiesAll};
ghost use Rattle.rows_tables.specs.Calls.{Changes, IfOurTables, IsUnchanged, KeepsConnection};
ghost use Rattle.rows_tables.specs.declared.fault.TableFault.TheVariants.{Damaged};

use crate::slices::{Progress, copy_slice};
use rows_statements::TableFault;
use sqlite::{Alter, Connection};
use std::alloc::Global;
use store_rounds::Rounds;

/// Copies all accounts and the devices into a database whose tables are new. Nobody else has the
/// source open. Each account has a commit of its own, and the devices have one. Where it fails,
/// what was copied before stands in the copy, which is then of no use. `Damaged` where rows of the
/// source are not sound; `Storage` where a disk failed, or the copy's tables were not new.
pub fn copy_all<S: Alter, T: Alter>(
    alloc: Global,
    source: &mut Rounds<S>,
    copy: &mut Connection<T>,
) -> Result<(), TableFault>
    ensures copies { Changes T.Store copy.old copy.new result (λ before after.
        IfOurTables S.Store source.old source.new (λ db. CopiesAll db before after)) }
    ensures unchanged { IfOurTables S.Store source.old source.new (λ db.
        OnOk result (IsUnchanged (state S.Store source.old) (state S.Store source.new))) }
    ensures damaged { IfOurTables S.Store source.old source.new
        (λ db. result ≡ Err Damaged → AreAllSound db → ⊥) }
    ensures source { KeepsConnection (state S.Store source.old) (state S.Store source.new) }
    ensures copy { KeepsConnection (state T.Store copy.old) (state T.Store copy.new) }
{
    let mut progress = Progress::UpTo(None);
    // No store has as many accounts as this.
    for _ in 0..u64::MAX {
        let Some(further) = copy_slice(alloc, source, copy, &progress, None)? else {
            return Ok(());
        };
        progress = further;
    }
    Err(TableFault::Storage)
}
