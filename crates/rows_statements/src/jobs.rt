//! Statements on the table `job`, which has one row for each job of an account.

ghost use Rattle.std.specs.Prelude.{◌≡◌, None, Some, Err, pos, IfOk, IfSome, option_map, OnOk, OnErr, IfErr};
ghost use Rattle.rows_statements.specs.Prelude.{Changes, GetsRow, IfOurTables, IsRowOf, KeepsOpen, ReadsStore, SetsRow, WritesInSavepoint};
ghost use Rattle.account_rules.specs.Standings.{HasRanges, IsStanding};
ghost use Rattle.account_rules.specs.declared.job.Job.{Job as JobValue};
ghost use Rattle.account_rules.specs.declared.job.Standing.{Standing as StandingValue};
ghost use Rattle.rows_tables.specs.Tables.{job as job_table};
ghost use Rattle.rows_tables.specs.Cells.{job_cells};
ghost use Rattle.rows_tables.specs.Accounts.{job_at};
ghost use Rattle.account_rules.specs.Names.{IsNameOrNone};
ghost use Rattle.rows_statements.specs.Shown.{behind_key, ShowsStanding, ShowsJob, IsJob};
ghost use Rattle.rows_statements.specs.Updates.{SetsStanding};

use crate::reads::Reads;
use account_rules::{Job, LONGEST_JOB_NAME, LONGEST_PASSWORD, Name, Standing};
use rows_tables::values::{
    bytes_at, device_at, device_text, flag, flag_at, moment, moment_at, number, number_at,
    number_of_state, short_at, state_at,
};
use rows_tables::{TableFault, find_row, put, write};
use sqlite::{Alter, Error, Row, Savepoint};
use sqlite_value::value::ValueRef;

/// Reads the account's job of this number. `None` where there is none; `Damaged` where its row is
/// broken.
pub fn find_job<R: Reads>(
    connection: &mut R,
    account: Name,
    number: u32,
) -> Result<Option<Job>, TableFault>
    ensures found { IfOurTables R.S.Store (R.held connection.old) (R.held connection.new) (λ db.
        IfOk result
        (λ found. job_at db account (pos number) ≡ option_map (job_cells account) found)) }
    ensures in_range { IfOk result (λ found. IfSome found (λ job. (job.job ≡ number) × IsJob job)) }
    ensures damaged { IfOurTables R.S.Store (R.held connection.old) (R.held connection.new) (λ db.
        result ≡ Err TableFault.Damaged
        → IsRowOf (job_cells account) (λ job. (job.job ≡ number) × IsJob job)
        (job_at db account (pos number)) → ⊥) }
    ensures reads { ReadsStore R.S.Store (R.held connection.old) (R.held connection.new) result }
{
    match job_row(connection, account, number)? {
        Some(row) => Ok(Some(job_from(&row, number)?)),
        None => Ok(None),
    }
}

/// Runs the query of `find_job`. `job_from` knows the order of its columns.
fn job_row<R: Reads>(connection: &mut R, account: Name, job: u32) -> Result<Option<Row>, Error>
    ensures gets { GetsRow R.S.Store (R.held connection.old) (R.held connection.new)
        (λ db. job_at db account (pos job)) behind_key result }
    ensures connection { KeepsOpen R.S.Store (R.held connection.old)
        (R.held connection.new) result }
{
    connection.find_row(
        "SELECT name, password, state, open, stopping, copies, impressions, reserved, charged, documents, rate, device, created, started, ended FROM job WHERE account = ?1 AND job = ?2",
        &[ValueRef::Text(account.bytes()), number(job as u64)],
    )
}

/// Reads a job from a row whose columns are those of the table from `name` on. `Damaged` where a
/// value is out of range. Get-Jobs reads its rows by it too.
pub(crate) fn job_from(row: &Row, number: u32) -> Result<Job, TableFault>
    ensures numbered { IfOk result (λ job. job.job ≡ number) }
    ensures read { IfOk result (ShowsJob row.now) }
    ensures in_range { IfOk result IsJob }
    ensures damaged { result ≡ Err TableFault.Damaged → (job : JobValue) → IsJob job
        → ShowsJob row.now job → ⊥ }
{
    let name = bytes_at(row, 0)?;
    let password = bytes_at(row, 1)?;
    let standing = standing_from(row)?;
    if name.items.len() > LONGEST_JOB_NAME || password.items.len() > LONGEST_PASSWORD {
        return Err(TableFault::Damaged);
    }
    Ok(Job {
        job: number,
        name,
        password,
        standing,
    })
}

/// Reads the job's standing from the row, whose first two columns are its name and its password.
/// `Damaged` where no job can have it.
fn standing_from(row: &Row) -> Result<Standing, TableFault>
    ensures read { IfOk result (ShowsStanding row.now) }
    ensures in_range { IfOk result IsStanding }
    ensures damaged { result ≡ Err TableFault.Damaged → (s : StandingValue) → IsStanding s
        → ShowsStanding row.now s → ⊥ }
{
    let standing = columns_from(row)?;
    check_range(&standing)?;
    Ok(standing)
}

/// Checks that a job can have the standing. `Damaged` where none can.
fn check_range(standing: &Standing) -> Result<(), TableFault>
    ensures in_range { OnOk result (IsStanding standing.now) }
    ensures damaged { OnErr result (IsStanding standing.now → ⊥) }
    ensures fault { IfErr result (λ fault. fault ≡ TableFault.Damaged) }
{
    if standing.is_in_range() {
        Ok(())
    } else {
        Err(TableFault::Damaged)
    }
}

/// Reads the fields of the standing, whether they go together or not. `Damaged` where a column has
/// a value of another kind.
fn columns_from(row: &Row) -> Result<Standing, TableFault>
    ensures read { IfOk result (ShowsStanding row.now) }
    ensures named { IfOk result (λ s. IsNameOrNone s.device) }
    ensures damaged { result ≡ Err TableFault.Damaged → (s : StandingValue) → HasRanges s
        → IsNameOrNone s.device → ShowsStanding row.now s → ⊥ }
{
    Ok(Standing {
        state: state_at(row, 2)?,
        is_open: flag_at(row, 3)?,
        stopping: flag_at(row, 4)?,
        copies: short_at(row, 5)?,
        impressions: short_at(row, 6)?,
        reserved: number_at(row, 7)?,
        charged: number_at(row, 8)?,
        documents: short_at(row, 9)?,
        rate: short_at(row, 10)?,
        device: device_at(row, 11)?,
        created: number_at(row, 12)?,
        started: moment_at(row, 13)?,
        ended: moment_at(row, 14)?,
    })
}

/// Inserts a job of the account, inside a savepoint. `Damaged` where the account has a job of this
/// number already.
pub fn add_job<S: Alter>(
    savepoint: &mut Savepoint<'_, S>,
    account: Name,
    job: &Job,
) -> Result<(), TableFault>
    requires { IsStanding job.now.standing }
    ensures sets { Changes S.Store savepoint.old.conn.now savepoint.new.conn.now result
        (SetsRow job_table (job_cells account job.now)) }
    ensures free { IfOurTables S.Store savepoint.old.conn.now savepoint.new.conn.now
        (λ db. OnOk result (job_at db account (pos job.now.job) ≡ None)) }
    ensures taken { IfOurTables S.Store savepoint.old.conn.now savepoint.new.conn.now
        (λ db. result ≡ Err TableFault.Damaged → job_at db account (pos job.now.job) ≡ None → ⊥) }
    ensures inside { WritesInSavepoint savepoint.old savepoint.new result }
{
    let s = &job.standing;
    put(
        savepoint,
        "INSERT INTO job (account, job, name, password, state, open, stopping, copies, impressions, reserved, charged, documents, rate, device, created, started, ended) VALUES (?1, ?2, ?3, ?4, ?5, ?6, ?7, ?8, ?9, ?10, ?11, ?12, ?13, ?14, ?15, ?16, ?17)",
        &[
            ValueRef::Text(account.bytes()),
            number(job.job as u64),
            ValueRef::Blob(job.name.as_slice()),
            ValueRef::Blob(job.password.as_slice()),
            number_of_state(s.state),
            flag(s.is_open),
            flag(s.stopping),
            number(s.copies as u64),
            number(s.impressions as u64),
            number(s.reserved),
            number(s.charged),
            number(s.documents as u64),
            number(s.rate as u64),
            device_text(&s.device),
            number(s.created),
            moment(s.started),
            moment(s.ended),
        ],
    )
}

/// Replaces the standing of a job that is there, inside a savepoint. Its number, name and password
/// stay.
pub fn set_standing<S: Alter>(
    savepoint: &mut Savepoint<'_, S>,
    account: Name,
    job: u32,
    standing: &Standing,
) -> Result<(), Error>
    requires { IsStanding standing.now }
    ensures sets { Changes S.Store savepoint.old.conn.now savepoint.new.conn.now result
        (SetsStanding account job standing.now) }
    ensures inside { WritesInSavepoint savepoint.old savepoint.new result }
{
    write(
        savepoint,
        "UPDATE job SET state = ?3, open = ?4, stopping = ?5, copies = ?6, impressions = ?7, reserved = ?8, charged = ?9, documents = ?10, rate = ?11, device = ?12, created = ?13, started = ?14, ended = ?15 WHERE account = ?1 AND job = ?2",
        &[
            ValueRef::Text(account.bytes()),
            number(job as u64),
            number_of_state(standing.state),
            flag(standing.is_open),
            flag(standing.stopping),
            number(standing.copies as u64),
            number(standing.impressions as u64),
            number(standing.reserved),
            number(standing.charged),
            number(standing.documents as u64),
            number(standing.rate as u64),
            device_text(&standing.device),
            number(standing.created),
            moment(standing.started),
            moment(standing.ended),
        ],
    )
}
