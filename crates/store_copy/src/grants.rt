//! Copying the grants of one account.

ghost use Rattle.std.specs.Prelude.{◌≡◌, Err};
ghost use Rattle.store_copy.specs.ProofParts.{CopiesMore, HasGrants};
ghost use Rattle.store_copy.specs.ProofRows.{AddsGrants};
ghost use Rattle.store_copy.specs.ProofSavepoints.{KeepsSavepoint};
ghost use Rattle.rows_statements.specs.SoundRows.{AccountsRead};
ghost use Rattle.rows_tables.specs.Calls.{Changes, IfOurTables, ReadsStore};
ghost use Rattle.rows_tables.specs.declared.fault.TableFault.TheVariants.{Damaged};

use account_rules::{Grant, Name};
use rows_statements::{TableFault, list_grants, set_grant};
use sqlite::{Alter, Error, Savepoint};
use std::alloc::Global;
use store_rounds::Rounds;

/// Copies all grants of the account.
pub(crate) fn copy_grants<S: Alter, T: Alter>(
    alloc: Global,
    source: &mut Rounds<S>,
    savepoint: &mut Savepoint<'_, T>,
    account: Name,
) -> Result<(), TableFault>
    ensures copies { Changes T.Store savepoint.old.conn.now savepoint.new.conn.now result
        (λ before after. IfOurTables S.Store source.old source.new
        (λ db. CopiesMore account HasGrants db before after)) }
    ensures inside { KeepsSavepoint savepoint.old savepoint.new result }
    ensures damaged { IfOurTables S.Store source.old source.new
        (λ db. result ≡ Err Damaged → AccountsRead db account → ⊥) }
    ensures reads { ReadsStore S.Store source.old source.new result }
{
    let grants = list_grants(alloc, source, account)?;
    Ok(set_grants(savepoint, account, grants.as_slice())?)
}

/// Writes the grants of the account into the copy.
fn set_grants<T: Alter>(
    savepoint: &mut Savepoint<'_, T>,
    account: Name,
    grants: &[Grant],
) -> Result<(), Error>
    ensures adds { Changes T.Store savepoint.old.conn.now savepoint.new.conn.now result
        (AddsGrants account grants.now) }
    ensures inside { KeepsSavepoint savepoint.old savepoint.new result }
{
    for grant in grants {
        set_grant(savepoint, account, grant.month, grant.pages)?;
    }
    Ok(())
}
