//! The part of the check that reads jobs: whether each is in order and has all its documents.

ghost use Rattle.std.specs.Prelude.{◌≡◌, ℕ, ◌&&◌, nat_le, ℤ, Err, IfOk, None, OnOk, Some};
ghost use Rattle.account_state.specs.RoomRules.{has_document};
ghost use Rattle.rows_checks.specs.Checks.{AreOfNoRoom, JobHasDocuments, JobIsInOrder, JobsAreInOrder};
ghost use Rattle.rows_statements.specs.Prelude.{IfOurTables, ReadsStore};
ghost use Rattle.rows_tables.specs.Accounts.{job_at};

use crate::documents::check_there;
use crate::keys::{Nothing, Numbers, walk_jobs};
use account_rules::{Job, Name};
use rows_statements::{Reads, find_job};
use rows_tables::TableFault;
use std::alloc::Global;

/// Checks that the account has no job. `Damaged` where it has one.
pub(crate) fn check_no_job<R: Reads>(connection: &mut R, account: Name) -> Result<(), TableFault>
    ensures none { IfOurTables R.S.Store (R.held connection.old) (R.held connection.new)
        (λ db. OnOk result ((number : ℤ) → job_at db account number ≡ None)) }
    ensures damaged { IfOurTables R.S.Store (R.held connection.old) (R.held connection.new)
        (λ db. result ≡ Err TableFault.Damaged
        → ((number : ℤ) → job_at db account number ≡ None) → ⊥) }
    ensures reads { ReadsStore R.S.Store (R.held connection.old) (R.held connection.new) result }
{
    let mut nothing = Nothing {};
    walk_jobs(connection, account, &mut nothing)
}

/// Checks each job of the account, whose next job gets the number `next_job`, and its documents.
/// `Damaged` where the rows are not sound.
pub(crate) fn check_jobs<R: Reads>(
    alloc: Global,
    connection: &mut R,
    account: Name,
    next_job: u32,
) -> Result<(), TableFault>
    ensures in_order { IfOurTables R.S.Store (R.held connection.old) (R.held connection.new)
        (λ db. OnOk result (JobsAreInOrder db account next_job)) }
    ensures damaged { IfOurTables R.S.Store (R.held connection.old) (R.held connection.new)
        (λ db. result ≡ Err TableFault.Damaged → AreOfNoRoom db account next_job) }
    ensures reads { ReadsStore R.S.Store (R.held connection.old) (R.held connection.new) result }
{
    // The connection can read nothing else while the walk is under way.
    let mut numbers = Numbers {
        items: Vec::new(alloc),
    };
    walk_jobs(connection, account, &mut numbers)?;
    for number in numbers.as_slice() {
        check_job(connection, account, next_job, *number)?;
    }
    Ok(())
}

/// Checks that the job has a number below `next_job`, and that all its documents are there.
/// `Damaged` where not.
fn check_job<R: Reads>(
    connection: &mut R,
    account: Name,
    next_job: u32,
    number: u32,
) -> Result<(), TableFault>
    ensures in_order { IfOurTables R.S.Store (R.held connection.old) (R.held connection.new)
        (λ db. OnOk result (JobIsInOrder db account next_job number)) }
    ensures damaged { IfOurTables R.S.Store (R.held connection.old) (R.held connection.new)
        (λ db. result ≡ Err TableFault.Damaged → AreOfNoRoom db account next_job) }
    ensures reads { ReadsStore R.S.Store (R.held connection.old) (R.held connection.new) result }
{
    let documents = count_documents(connection, account, next_job, number)?;
    for before in 0..documents {
        check_there(connection, account, number, before + 1)?;
    }
    Ok(())
}

/// How many documents of the job have to be in the table: 0 where it has ended or is not there.
/// `Damaged` where its row is broken, or its number is not below `next_job`.
fn count_documents<R: Reads>(
    connection: &mut R,
    account: Name,
    next_job: u32,
    number: u32,
) -> Result<u32, TableFault>
    ensures found { IfOurTables R.S.Store (R.held connection.old) (R.held connection.new)
        (λ db. IfOk result (JobHasDocuments db account next_job number)) }
    ensures damaged { IfOurTables R.S.Store (R.held connection.old) (R.held connection.new)
        (λ db. result ≡ Err TableFault.Damaged → AreOfNoRoom db account next_job) }
    ensures reads { ReadsStore R.S.Store (R.held connection.old) (R.held connection.new) result }
{
    match find_job(connection, account, number)? {
        Some(_) if number < 1 || number >= next_job => Err(TableFault::Damaged),
        Some(it) => Ok(documents_of(&it)),
        None => Ok(0),
    }
}

/// How many documents a job has in the table: none once it has ended.
fn documents_of(job: &Job) -> u32
    ensures { (document : ℕ) → has_document (Some job.now) document
        ≡ (nat_le 1 document && nat_le document result) }
{
    if job.standing.state.is_unfinished() {
        job.standing.documents
    } else {
        0
    }
}
