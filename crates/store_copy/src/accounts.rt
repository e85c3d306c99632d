//! Copying one account: its own row, its jobs with their documents, and last its grants.

ghost use Rattle.std.specs.Prelude.{◌≡◌, Err, IfOk, None, Some};
ghost use Rattle.store_copy.specs.ProofSavepoints.{KeepsSavepoint};
ghost use Rattle.store_copy.specs.Slices.{AreAtMost, BeginsAtMost, ComesFurther, CopiesFurther, IsDone, end_of, reached};
ghost use Rattle.store_copy.specs.Sources.{LeavesSource};
ghost use Rattle.rows_statements.specs.SoundRows.{AccountsRead};
ghost use Rattle.rows_tables.specs.Calls.{Changes, IfOurTables};
ghost use Rattle.rows_tables.specs.declared.fault.TableFault.TheVariants.{Damaged};

use crate::grants::copy_grants;
use crate::jobs::copy_jobs;
use crate::slices::Progress;
use account_rules::Name;
use rows_statements::{TableFault, set_account};
use sqlite::{Alter, Savepoint};
use std::alloc::Global;
use store_rounds::{Rounds, find_account};

/// Begins an account: copies its own row and its first jobs, and its grants if these were all its
/// jobs. An account that is not in the source is passed over. It answers how far the copy has come.
pub(crate) fn begin_account<S: Alter, T: Alter>(
    alloc: Global,
    source: &mut Rounds<S>,
    savepoint: &mut Savepoint<'_, T>,
    account: Name,
    most: Option<u32>,
) -> Result<Progress, TableFault>
    ensures copies { Changes T.Store savepoint.old.conn.now savepoint.new.conn.now result
        (λ before after. IfOurTables S.Store source.old source.new (λ db. IfOk result
        (λ to. CopiesFurther account (Progress.Anew account) to db before after))) }
    ensures further { IfOk result (ComesFurther 1) }
    ensures whole { most ≡ None → IfOk result IsDone }
    ensures at_most { IfOurTables S.Store source.old source.new
        (λ db. IfOk result (λ to. BeginsAtMost most to db)) }
    ensures inside { KeepsSavepoint savepoint.old savepoint.new result }
    ensures damaged { IfOurTables S.Store source.old source.new
        (λ db. result ≡ Err Damaged → AccountsRead db account → ⊥) }
    ensures source { LeavesSource S.Store source.old source.new result }
{
    let Some(row) = find_account(source, account)? else {
        return Ok(Progress::UpTo(Some(account)));
    };
    set_account(savepoint, account, row)?;
    go_on(alloc, source, savepoint, account, row.next_job, 1, most)
}

/// Goes on with an account from the number `job` on, `most` jobs at most; where none is left it
/// copies the grants. `next` is the number that the account's next job gets. It answers how far the
/// copy has come.
pub(crate) fn go_on<S: Alter, T: Alter>(
    alloc: Global,
    source: &mut Rounds<S>,
    savepoint: &mut Savepoint<'_, T>,
    account: Name,
    next: u32,
    job: u32,
    most: Option<u32>,
) -> Result<Progress, TableFault>
    ensures copies { Changes T.Store savepoint.old.conn.now savepoint.new.conn.now result
        (λ before after. IfOurTables S.Store source.old source.new (λ db. IfOk result
        (λ to. CopiesFurther account (Progress.Within account next job) to db before after))) }
    ensures further { IfOk result (ComesFurther job) }
    ensures whole { most ≡ None → IfOk result IsDone }
    ensures at_most { IfOk result (λ to. AreAtMost most job (end_of next to)) }
    ensures account { IfOk result (λ to. reached to ≡ Some account) }
    ensures inside { KeepsSavepoint savepoint.old savepoint.new result }
    ensures damaged { IfOurTables S.Store source.old source.new
        (λ db. result ≡ Err Damaged → AccountsRead db account → ⊥) }
    ensures source { LeavesSource S.Store source.old source.new result }
{
    let further = copy_jobs(alloc, source, savepoint, account, job, next, most)?;
    if further < next {
        return Ok(Progress::Within {
            account,
            next,
            job: further,
        });
    }
    copy_grants(alloc, source, savepoint, account)?;
    Ok(Progress::UpTo(Some(account)))
}
