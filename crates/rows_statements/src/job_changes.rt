//! The changes of jobs, each in one savepoint: a job is made, its standing changes, or it ends. The
//! contract of each public function says what becomes of the account's room. The private function
//! behind it (`put_..`) does the work, and its contract says what becomes of the rows.

ghost use Rattle.std.specs.Prelude.{◌≡◌, ◌<◌, ◌+◌, pos, None, Some, Err};
ghost use Rattle.rows_statements.specs.Prelude.{Changes, ChangesWhole, IfOurTables, WritesInSavepoint};
ghost use Rattle.account_rules.specs.Limits.{last_next_job};
ghost use Rattle.account_rules.specs.Standings.{IsStanding};
ghost use Rattle.rows_tables.specs.Accounts.{job_at};
ghost use Rattle.rows_statements.specs.Changed.{FinishesJob, MakesJob, RestandsJob};
ghost use Rattle.rows_statements.specs.NewDocuments.{document_of, first_of};
ghost use Rattle.rows_statements.specs.Rows.{AddsJob, EndsJob, IsFree, Restands};
ghost use Rattle.rows_statements.specs.Updates.{SetsNextJob};

use crate::new_document::NewDocument;
use crate::{TableFault, add_document, add_job, remove_documents, set_next_job, set_standing};
use account_rules::{Job, Name, Standing};
use sqlite::{Alter, Connection, Error, Savepoint};

/// Inserts the job, whose number is at most 999999, with its first document or with none. The
/// account's next job gets the number after it. `Damaged` where the job or the document is there
/// already.
pub fn make_job<S: Alter>(
    connection: &mut Connection<S>,
    account: Name,
    job: &Job,
    document: Option<NewDocument<'_>>,
) -> Result<(), TableFault>
    requires standing { IsStanding job.now.standing }
    requires number { job.now.job < last_next_job }
    ensures makes { ChangesWhole S.Store connection.old connection.new result
        (MakesJob account job.now (first_of job.now.job document.entry)) }
    ensures damaged { IfOurTables S.Store connection.old connection.new
        (λ db. result ≡ Err TableFault.Damaged → job_at db account (pos job.now.job) ≡ None →
        IsFree account (first_of job.now.job document.entry) db → ⊥) }
{
    put_job(connection, account, job, document)
}

/// The work of `make_job`, in one savepoint.
fn put_job<S: Alter>(
    connection: &mut Connection<S>,
    account: Name,
    job: &Job,
    document: Option<NewDocument<'_>>,
) -> Result<(), TableFault>
    requires standing { IsStanding job.now.standing }
    requires number { job.now.job < last_next_job }
    ensures adds { ChangesWhole S.Store connection.old connection.new result
        (AddsJob account job.now (first_of job.now.job document.entry)) }
    ensures damaged { IfOurTables S.Store connection.old connection.new
        (λ db. result ≡ Err TableFault.Damaged → job_at db account (pos job.now.job) ≡ None →
        IsFree account (first_of job.now.job document.entry) db → ⊥) }
{
    let mut savepoint = connection.savepoint()?;
    add(&mut savepoint, account, job, document)?;
    Ok(savepoint.commit()?)
}

/// The work of `make_job`, inside a savepoint.
fn add<S: Alter>(
    savepoint: &mut Savepoint<'_, S>,
    account: Name,
    job: &Job,
    document: Option<NewDocument<'_>>,
) -> Result<(), TableFault>
    requires standing { IsStanding job.now.standing }
    requires number { job.now.job < last_next_job }
    ensures adds { Changes S.Store savepoint.old.conn.now savepoint.new.conn.now result
        (AddsJob account job.now (first_of job.now.job document.entry)) }
    ensures damaged { IfOurTables S.Store savepoint.old.conn.now savepoint.new.conn.now
        (λ db. result ≡ Err TableFault.Damaged → job_at db account (pos job.now.job) ≡ None →
        IsFree account (first_of job.now.job document.entry) db → ⊥) }
    ensures inside { WritesInSavepoint savepoint.old savepoint.new result }
{
    match document {
        Some(first) => add_with_document(savepoint, account, job, first),
        None => add_without_document(savepoint, account, job),
    }
}

/// The work of `make_job` for a job that comes with its first document, as by Print-Job.
fn add_with_document<S: Alter>(
    savepoint: &mut Savepoint<'_, S>,
    account: Name,
    job: &Job,
    first: NewDocument<'_>,
) -> Result<(), TableFault>
    requires standing { IsStanding job.now.standing }
    requires number { job.now.job < last_next_job }
    ensures adds { Changes S.Store savepoint.old.conn.now savepoint.new.conn.now result
        (AddsJob account job.now (Some (document_of job.now.job first.entry))) }
    ensures damaged { IfOurTables S.Store savepoint.old.conn.now savepoint.new.conn.now
        (λ db. result ≡ Err TableFault.Damaged → job_at db account (pos job.now.job) ≡ None →
        IsFree account (Some (document_of job.now.job first.entry)) db → ⊥) }
    ensures inside { WritesInSavepoint savepoint.old savepoint.new result }
{
    add_job(savepoint, account, job)?;
    add_document(
        savepoint,
        account,
        job.job,
        first.number,
        first.format,
        first.bytes,
    )?;
    advance_next_job(savepoint, account, job)
}

/// The work of `make_job` for a job that comes without a document, as by Create-Job.
fn add_without_document<S: Alter>(
    savepoint: &mut Savepoint<'_, S>,
    account: Name,
    job: &Job,
) -> Result<(), TableFault>
    requires standing { IsStanding job.now.standing }
    requires number { job.now.job < last_next_job }
    ensures adds { Changes S.Store savepoint.old.conn.now savepoint.new.conn.now result
        (AddsJob account job.now None) }
    ensures damaged { IfOurTables S.Store savepoint.old.conn.now savepoint.new.conn.now
        (λ db. result ≡ Err TableFault.Damaged → job_at db account (pos job.now.job) ≡ None → ⊥) }
    ensures inside { WritesInSavepoint savepoint.old savepoint.new result }
{
    add_job(savepoint, account, job)?;
    advance_next_job(savepoint, account, job)
}

/// Sets the number of the account's next job to the one after this job's.
fn advance_next_job<S: Alter>(
    savepoint: &mut Savepoint<'_, S>,
    account: Name,
    job: &Job,
) -> Result<(), TableFault>
    requires { job.now.job < last_next_job }
    ensures counts { Changes S.Store savepoint.old.conn.now savepoint.new.conn.now result
        (SetsNextJob account (job.now.job + 1)) }
    ensures undamaged { result ≡ Err TableFault.Damaged → ⊥ }
    ensures inside { WritesInSavepoint savepoint.old savepoint.new result }
{
    Ok(set_next_job(savepoint, account, job.job + 1)?)
}

/// Gives a job that is there another standing, and adds its next document, if one is given.
/// `Damaged` where a document of its number is there already.
pub fn restand_job<S: Alter>(
    connection: &mut Connection<S>,
    account: Name,
    number: u32,
    standing: &Standing,
    document: Option<NewDocument<'_>>,
) -> Result<(), TableFault>
    requires standing { IsStanding standing.now }
    ensures restands { ChangesWhole S.Store connection.old connection.new result
        (RestandsJob account number standing.now (first_of number document.entry)) }
    ensures damaged { IfOurTables S.Store connection.old connection.new
        (λ db. result ≡ Err TableFault.Damaged →
        IsFree account (first_of number document.entry) db → ⊥) }
{
    put_standing(connection, account, number, standing, document)
}

/// The work of `restand_job`, in one savepoint.
fn put_standing<S: Alter>(
    connection: &mut Connection<S>,
    account: Name,
    number: u32,
    standing: &Standing,
    document: Option<NewDocument<'_>>,
) -> Result<(), TableFault>
    requires standing { IsStanding standing.now }
    ensures restands { ChangesWhole S.Store connection.old connection.new result
        (Restands account number standing.now (first_of number document.entry)) }
    ensures damaged { IfOurTables S.Store connection.old connection.new
        (λ db. result ≡ Err TableFault.Damaged →
        IsFree account (first_of number document.entry) db → ⊥) }
{
    let mut savepoint = connection.savepoint()?;
    restand(&mut savepoint, account, number, standing, document)?;
    Ok(savepoint.commit()?)
}

/// The work of `restand_job`, inside a savepoint.
fn restand<S: Alter>(
    savepoint: &mut Savepoint<'_, S>,
    account: Name,
    number: u32,
    standing: &Standing,
    document: Option<NewDocument<'_>>,
) -> Result<(), TableFault>
    requires { IsStanding standing.now }
    ensures restands { Changes S.Store savepoint.old.conn.now savepoint.new.conn.now result
        (Restands account number standing.now (first_of number document.entry)) }
    ensures damaged { IfOurTables S.Store savepoint.old.conn.now savepoint.new.conn.now
        (λ db. result ≡ Err TableFault.Damaged →
        IsFree account (first_of number document.entry) db → ⊥) }
    ensures inside { WritesInSavepoint savepoint.old savepoint.new result }
{
    match document {
        Some(next) => restand_with_document(savepoint, account, number, standing, next),
        None => restand_without_document(savepoint, account, number, standing),
    }
}

/// The work of `restand_job` where the job gets a document, as by Send-Document.
fn restand_with_document<S: Alter>(
    savepoint: &mut Savepoint<'_, S>,
    account: Name,
    number: u32,
    standing: &Standing,
    next: NewDocument<'_>,
) -> Result<(), TableFault>
    requires { IsStanding standing.now }
    ensures restands { Changes S.Store savepoint.old.conn.now savepoint.new.conn.now result
        (Restands account number standing.now (Some (document_of number next.entry))) }
    ensures damaged { IfOurTables S.Store savepoint.old.conn.now savepoint.new.conn.now
        (λ db. result ≡ Err TableFault.Damaged →
        IsFree account (Some (document_of number next.entry)) db → ⊥) }
    ensures inside { WritesInSavepoint savepoint.old savepoint.new result }
{
    add_document(
        savepoint,
        account,
        number,
        next.number,
        next.format,
        next.bytes,
    )?;
    Ok(set_standing(savepoint, account, number, standing)?)
}

/// The work of `restand_job` where the job gets no document.
fn restand_without_document<S: Alter>(
    savepoint: &mut Savepoint<'_, S>,
    account: Name,
    number: u32,
    standing: &Standing,
) -> Result<(), TableFault>
    requires { IsStanding standing.now }
    ensures restands { Changes S.Store savepoint.old.conn.now savepoint.new.conn.now result
        (Restands account number standing.now None) }
    ensures undamaged { result ≡ Err TableFault.Damaged → ⊥ }
    ensures inside { WritesInSavepoint savepoint.old savepoint.new result }
{
    Ok(set_standing(savepoint, account, number, standing)?)
}

/// Gives a job that is there a standing in which it has ended, and deletes its documents.
pub fn end_job<S: Alter>(
    connection: &mut Connection<S>,
    account: Name,
    number: u32,
    standing: &Standing,
) -> Result<(), Error>
    requires standing { IsStanding standing.now }
    ensures ends { ChangesWhole S.Store connection.old connection.new result
        (FinishesJob account number standing.now) }
{
    put_ended(connection, account, number, standing)
}

/// The work of `end_job`, in one savepoint.
fn put_ended<S: Alter>(
    connection: &mut Connection<S>,
    account: Name,
    number: u32,
    standing: &Standing,
) -> Result<(), Error>
    requires standing { IsStanding standing.now }
    ensures ends { ChangesWhole S.Store connection.old connection.new result
        (EndsJob account number standing.now) }
{
    let mut savepoint = connection.savepoint()?;
    end(&mut savepoint, account, number, standing)?;
    savepoint.commit()
}

/// The work of `end_job`, inside a savepoint.
fn end<S: Alter>(
    savepoint: &mut Savepoint<'_, S>,
    account: Name,
    number: u32,
    standing: &Standing,
) -> Result<(), Error>
    requires { IsStanding standing.now }
    ensures ends { Changes S.Store savepoint.old.conn.now savepoint.new.conn.now result
        (EndsJob account number standing.now) }
    ensures inside { WritesInSavepoint savepoint.old savepoint.new result }
{
    set_standing(savepoint, account, number, standing)?;
    remove_documents(savepoint, account, number)
}
