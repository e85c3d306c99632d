//! Copying jobs of one account, as many as a slice takes.

ghost use Rattle.std.specs.Prelude.{◌≡◌, ◌<◌, Err, IfOk, IfSome, None, false};
ghost use Rattle.store_copy.specs.Parts.{AddsJobs};
ghost use Rattle.store_copy.specs.ProofParts.{CopiesMore, HasWholeJob};
ghost use Rattle.store_copy.specs.ProofSavepoints.{KeepsSavepoint};
ghost use Rattle.store_copy.specs.Slices.{AreAtMost};
ghost use Rattle.store_copy.specs.Sources.{LeavesSource};
ghost use Rattle.account_rules.specs.Standings.{IsStanding};
ghost use Rattle.rows_statements.specs.SoundRows.{AccountsRead};
ghost use Rattle.rows_tables.specs.Calls.{Changes, IfOurTables, ReadsStore, WritesInSavepoint};
ghost use Rattle.rows_tables.specs.Cells.{job_cells};
ghost use Rattle.rows_tables.specs.Keyed.{SetsRow};
ghost use Rattle.rows_tables.specs.Tables.{job as job_table};
ghost use Rattle.rows_tables.specs.declared.fault.TableFault.TheVariants.{Damaged};

use crate::documents::copy_documents;
use account_rules::{Job, Name};
use rows_statements::{TableFault, add_job, find_job};
use sqlite::{Alter, Savepoint};
use std::alloc::Global;
use store_rounds::Rounds;

/// Copies jobs of the account from the number `first` up to below `next`, `most` of them at most,
/// and ends behind the first that has documents. It answers the number that is to be copied next.
/// With no `most` it copies all.
pub(crate) fn copy_jobs<S: Alter, T: Alter>(
    alloc: Global,
    source: &mut Rounds<S>,
    savepoint: &mut Savepoint<'_, T>,
    account: Name,
    first: u32,
    next: u32,
    most: Option<u32>,
) -> Result<u32, TableFault>
    ensures copies { Changes T.Store savepoint.old.conn.now savepoint.new.conn.now result
        (λ before after. IfOurTables S.Store source.old source.new
        (λ db. IfOk result (λ further. AddsJobs account first further db before after))) }
    ensures further { IfOk result (λ further. further < next → first < further) }
    ensures whole { most ≡ None → IfOk result (λ further. further ≡ next) }
    ensures at_most { IfOk result (AreAtMost most first) }
    ensures inside { KeepsSavepoint savepoint.old savepoint.new result }
    ensures damaged { IfOurTables S.Store source.old source.new
        (λ db. result ≡ Err Damaged → AccountsRead db account → ⊥) }
    ensures source { LeavesSource S.Store source.old source.new result }
{
    for number in first..next {
        let has_documents = copy_job(alloc, source, savepoint, account, number)?;
        if is_enough(most, number + 1 - first, has_documents) {
            return Ok(number + 1);
        }
    }
    Ok(next)
}

/// Whether a slice ends here: after `most` numbers, or behind a job with documents.
fn is_enough(most: Option<u32>, jobs: u32, has_documents: bool) -> bool
    ensures whole { most ≡ None → result ≡ false }
    ensures enough { result ≡ false → IfSome most (λ most. jobs < most) }
{
    match most {
        Some(most) => has_documents || jobs >= most,
        None => false,
    }
}

/// Copies the job of this number with its documents, if the account has one, and answers whether it
/// has documents.
fn copy_job<S: Alter, T: Alter>(
    alloc: Global,
    source: &mut Rounds<S>,
    savepoint: &mut Savepoint<'_, T>,
    account: Name,
    number: u32,
) -> Result<bool, TableFault>
    ensures copies { Changes T.Store savepoint.old.conn.now savepoint.new.conn.now result
        (λ before after. IfOurTables S.Store source.old source.new
        (λ db. CopiesMore account (HasWholeJob number) db before after)) }
    ensures inside { KeepsSavepoint savepoint.old savepoint.new result }
    ensures damaged { IfOurTables S.Store source.old source.new
        (λ db. result ≡ Err Damaged → AccountsRead db account → ⊥) }
    ensures reads { ReadsStore S.Store source.old source.new result }
{
    let Some(job) = find_job(source, account, number)? else {
        return Ok(false);
    };
    put_job(savepoint, account, &job)?;
    copy_documents(alloc, source, savepoint, account, number)
}

/// Inserts a job into the copy. `Storage` where the copy has one of its number already, since
/// `Damaged` is said of the source alone.
fn put_job<T: Alter>(
    savepoint: &mut Savepoint<'_, T>,
    account: Name,
    job: &Job,
) -> Result<(), TableFault>
    requires { IsStanding job.now.standing }
    ensures sets { Changes T.Store savepoint.old.conn.now savepoint.new.conn.now result
        (SetsRow job_table (job_cells account job.now)) }
    ensures undamaged { result ≡ Err Damaged → ⊥ }
    ensures inside { WritesInSavepoint savepoint.old savepoint.new result }
{
    let put = add_job(savepoint, account, job);
    match put {
        Err(TableFault::Damaged) => Err(TableFault::Storage),
        _ => put,
    }
}
