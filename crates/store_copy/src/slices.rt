//! `copy_slice`: a copy that is made in slices, between which the source may change, as `serve`
//! makes a backup.

ghost use Rattle.std.specs.Prelude.{◌≡◌, Err, IfOk, IfSome, None};
ghost use Rattle.store_copy.specs.All.{AreAllSound};
ghost use Rattle.store_copy.specs.ProofSavepoints.{KeepsSavepoint};
ghost use Rattle.store_copy.specs.Slices.{BeginsAtMost, ComesFurther, ComesNext, CopiesAtMost, CopiesSlice, IfNamed, IsDone, next_job};
ghost use Rattle.store_copy.specs.Sources.{LeavesSource};
ghost use Rattle.rows_statements.specs.SoundRows.{AreNamed};
ghost use Rattle.rows_tables.specs.Calls.{Changes, ChangesWhole, IfOurTables, ReadsStore};
ghost use Rattle.rows_tables.specs.declared.fault.TableFault.TheVariants.{Damaged};

use crate::accounts::{begin_account, go_on};
use crate::devices::copy_devices;
use account_rules::Name;
use rows_statements::{TableFault, next_accounts};
use sqlite::{Alter, Connection, Savepoint};
use std::alloc::Global;
use store_rounds::Rounds;

/// How far a copy has come. Accounts are copied in the order of their names' bytes, and the devices
/// last.
#[derive(Clone, Copy)]
pub enum Progress {
    /// The accounts up to this one are done, or none is.
    UpTo(Option<Name>),
    /// The accounts before this one are done, and nothing is there of this one, which is next.
    Anew(Name),
    /// The accounts before this one are done, and of this one the jobs before the number `job` with
    /// their documents. The number of its own next job is `next`.
    Within { account: Name, next: u32, job: u32 },
}

/// Copies the next slice, in one savepoint of the copy, and answers how far the copy has come, or
/// `None` where it is whole. A slice is `most` jobs of one account at most, and ends behind a job
/// that has documents; where no account is left it is the devices. With no `most` it is a whole
/// account.
///
/// Between two slices the source may change. Where that changed the account that is half copied,
/// the copy has to go on from `start_again`.
///
/// `Damaged` where rows of the source are not sound. `Storage` where a disk failed, or the copy had
/// a row of the account that was none of this copy's. All documents of one job are in memory at a
/// time.
pub fn copy_slice<S: Alter, T: Alter>(
    alloc: Global,
    source: &mut Rounds<S>,
    copy: &mut Connection<T>,
    progress: &Progress,
    most: Option<u32>,
) -> Result<Option<Progress>, TableFault>
    ensures copies { ChangesWhole T.Store copy.old copy.new result (λ before after.
        IfOurTables S.Store source.old source.new (λ db. IfNamed db
        (IfOk result (λ to. CopiesSlice progress.now to db before after)))) }
    ensures further { IfOk result (λ to. IfSome to (ComesFurther (next_job progress.now))) }
    ensures whole { most ≡ None → IfOk result (λ to. IfSome to IsDone) }
    ensures at_most { IfOurTables S.Store source.old source.new (λ db.
        IfOk result (λ to. IfSome to (λ to. CopiesAtMost most progress.now to db))) }
    ensures damaged { IfOurTables S.Store source.old source.new
        (λ db. result ≡ Err Damaged → AreAllSound db → ⊥) }
    ensures source { LeavesSource S.Store source.old source.new result }
{
    let mut savepoint = copy.savepoint()?;
    let further = copy_part(alloc, source, &mut savepoint, progress, most)?;
    savepoint.commit()?;
    Ok(further)
}

/// The work of `copy_slice`, inside the savepoint.
fn copy_part<S: Alter, T: Alter>(
    alloc: Global,
    source: &mut Rounds<S>,
    savepoint: &mut Savepoint<'_, T>,
    progress: &Progress,
    most: Option<u32>,
) -> Result<Option<Progress>, TableFault>
    ensures copies { Changes T.Store savepoint.old.conn.now savepoint.new.conn.now result
        (λ before after. IfOurTables S.Store source.old source.new (λ db. IfNamed db
        (IfOk result (λ to. CopiesSlice progress.now to db before after)))) }
    ensures further { IfOk result (λ to. IfSome to (ComesFurther (next_job progress.now))) }
    ensures whole { most ≡ None → IfOk result (λ to. IfSome to IsDone) }
    ensures at_most { IfOurTables S.Store source.old source.new (λ db.
        IfOk result (λ to. IfSome to (λ to. CopiesAtMost most progress.now to db))) }
    ensures inside { KeepsSavepoint savepoint.old savepoint.new result }
    ensures damaged { IfOurTables S.Store source.old source.new
        (λ db. result ≡ Err Damaged → AreAllSound db → ⊥) }
    ensures source { LeavesSource S.Store source.old source.new result }
{
    match progress {
        Progress::UpTo(last) => copy_next(alloc, source, savepoint, *last, most),
        Progress::Anew(account) => {
            let further = begin_account(alloc, source, savepoint, *account, most)?;
            Ok(Some(further))
        }
        Progress::Within { account, next, job } => {
            let further = go_on(alloc, source, savepoint, *account, *next, *job, most)?;
            Ok(Some(further))
        }
    }
}

/// Begins the account behind the `last` one; where there is none, it copies the devices, which
/// makes the copy whole.
fn copy_next<S: Alter, T: Alter>(
    alloc: Global,
    source: &mut Rounds<S>,
    savepoint: &mut Savepoint<'_, T>,
    last: Option<Name>,
    most: Option<u32>,
) -> Result<Option<Progress>, TableFault>
    ensures copies { Changes T.Store savepoint.old.conn.now savepoint.new.conn.now result
        (λ before after. IfOurTables S.Store source.old source.new (λ db. IfNamed db
        (IfOk result (λ to. CopiesSlice (Progress.UpTo last) to db before after)))) }
    ensures further { IfOk result (λ to. IfSome to (ComesFurther 1)) }
    ensures whole { most ≡ None → IfOk result (λ to. IfSome to IsDone) }
    ensures at_most { IfOurTables S.Store source.old source.new
        (λ db. IfOk result (λ to. IfSome to (λ to. BeginsAtMost most to db))) }
    ensures inside { KeepsSavepoint savepoint.old savepoint.new result }
    ensures damaged { IfOurTables S.Store source.old source.new
        (λ db. result ≡ Err Damaged → AreAllSound db → ⊥) }
    ensures source { LeavesSource S.Store source.old source.new result }
{
    let Some(account) = next_account(alloc, source, last)? else {
        copy_devices(alloc, source, savepoint)?;
        return Ok(None);
    };
    let further = begin_account(alloc, source, savepoint, account, most)?;
    Ok(Some(further))
}

/// The name of the account that comes behind the `last` one, if one does.
fn next_account<S: Alter>(
    alloc: Global,
    source: &mut Rounds<S>,
    last: Option<Name>,
) -> Result<Option<Name>, TableFault>
    ensures next { IfOurTables S.Store source.old source.new
        (λ db. IfNamed db (IfOk result (ComesNext last db))) }
    ensures damaged { IfOurTables S.Store source.old source.new
        (λ db. result ≡ Err Damaged → AreNamed db → ⊥) }
    ensures reads { ReadsStore S.Store source.old source.new result }
{
    let page = next_accounts(alloc, source, last)?;
    Ok(page.as_slice().first().copied())
}
