//! Reading the jobs of an account in the two orders of Get-Jobs: unfinished jobs, and ended ones.

ghost use Rattle.std.specs.Prelude.{◌≡◌, Err, IfOk, OnOk};
ghost use Rattle.rows_statements.specs.Prelude.{HasGathered, HoldsRoom, IfOurTables, KeepsOpen, ReadsStore, RoomValue, WalksStore};
ghost use Rattle.std.specs.List.{AllByRecursion};
ghost use Rattle.std.specs.FinMap.{values};
ghost use Rattle.account_state.specs.Queues.{not_completed, completed, first_jobs};
ghost use Rattle.rows_tables.specs.Cells.{job_cells};
ghost use Rattle.sqlite_value.specs.Value.{owned};
ghost use Rattle.sqlite_value.specs.declared.value.Value.TheVariants.{Int};
ghost use Rattle.rows_statements.specs.Queues.{by_falling_end, by_rising_number, limit_number, IsNumbered, ShowsNumbered, ListsJob, refuses_numbered, AreListed};
ghost use Rattle.rows_statements.specs.SoundRows.{ended_rows, unfinished_rows, FirstAreRowsOf};

use crate::jobs::job_from;
use crate::reads::Reads;
use crate::walking::Gather;
use account_rules::{Job, LAST_JOB, Name};
use ipp_coding::List;
use rows_tables::TableFault;
use rows_tables::values::short_at;
use sqlite::Row;
use sqlite_value::value::ValueRef;
use std::alloc::Global;

/// Reads the jobs of the account that have not ended, by rising number: the first `limit` of them,
/// or all. `Damaged` where one of their rows is broken.
pub fn unfinished_jobs<R: Reads>(
    alloc: Global,
    connection: &mut R,
    account: Name,
    limit: Option<u32>,
) -> Result<List<Job>, TableFault>
    ensures listed { IfOurTables R.S.Store (R.held connection.old) (R.held connection.new) (λ db.
        (room : RoomValue) → HoldsRoom db account room
        → IfOk result (λ jobs. jobs ≡ first_jobs limit (not_completed (values room.jobs)))) }
    ensures numbered { IfOk result (AllByRecursion IsNumbered) }
    ensures damaged { IfOurTables R.S.Store (R.held connection.old) (R.held connection.new) (λ db.
        result ≡ Err TableFault.Damaged
        → FirstAreRowsOf (job_cells account) IsNumbered by_rising_number limit
        (unfinished_rows db account) → ⊥) }
    ensures reads { ReadsStore R.S.Store (R.held connection.old) (R.held connection.new) result }
{
    let mut jobs = List {
        items: Vec::new(alloc),
    };
    walk_unfinished(connection, account, limit, &mut jobs)?;
    Ok(jobs)
}

/// Gathers the unfinished jobs. An `ended` of -1 says that a job has not ended.
fn walk_unfinished<R: Reads>(
    connection: &mut R,
    account: Name,
    limit: Option<u32>,
    jobs: &mut List<Job>,
) -> Result<(), TableFault>
    ensures gathers { OnOk result (HasGathered ListsJob jobs.old jobs.new) }
    ensures walks { WalksStore ListsJob (λ _ row. refuses_numbered row)
        R.S.Store (R.held connection.old) (R.held connection.new)
        (λ db. AreListed (λ all. first_jobs limit (not_completed all)) by_rising_number limit
        (unfinished_rows db account) db account)
        jobs.old jobs.new result }
    ensures connection { KeepsOpen R.S.Store (R.held connection.old)
        (R.held connection.new) result }
{
    connection.walk(
        "SELECT name, password, state, open, stopping, copies, impressions, reserved, charged, documents, rate, device, created, started, ended, job FROM job WHERE account = ?1 AND ended = -1 ORDER BY job LIMIT ?2",
        &[ValueRef::Text(account.bytes()), limit_of(limit)],
        jobs,
    )
}

/// Reads the jobs of the account that have ended, the last to end first; of those that ended at one
/// moment the highest number is first. It reads the first `limit` of them, or all. `Damaged` where
/// one of their rows is broken.
pub fn ended_jobs<R: Reads>(
    alloc: Global,
    connection: &mut R,
    account: Name,
    limit: Option<u32>,
) -> Result<List<Job>, TableFault>
    ensures listed { IfOurTables R.S.Store (R.held connection.old) (R.held connection.new) (λ db.
        (room : RoomValue) → HoldsRoom db account room
        → IfOk result (λ jobs. jobs ≡ first_jobs limit (completed (values room.jobs)))) }
    ensures numbered { IfOk result (AllByRecursion IsNumbered) }
    ensures damaged { IfOurTables R.S.Store (R.held connection.old) (R.held connection.new) (λ db.
        result ≡ Err TableFault.Damaged
        → FirstAreRowsOf (job_cells account) IsNumbered by_falling_end limit
        (ended_rows db account) → ⊥) }
    ensures reads { ReadsStore R.S.Store (R.held connection.old) (R.held connection.new) result }
{
    let mut jobs = List {
        items: Vec::new(alloc),
    };
    walk_ended(connection, account, limit, &mut jobs)?;
    Ok(jobs)
}

/// Gathers the ended jobs.
fn walk_ended<R: Reads>(
    connection: &mut R,
    account: Name,
    limit: Option<u32>,
    jobs: &mut List<Job>,
) -> Result<(), TableFault>
    ensures gathers { OnOk result (HasGathered ListsJob jobs.old jobs.new) }
    ensures walks { WalksStore ListsJob (λ _ row. refuses_numbered row)
        R.S.Store (R.held connection.old) (R.held connection.new)
        (λ db. AreListed (λ all. first_jobs limit (completed all)) by_falling_end limit
        (ended_rows db account) db account)
        jobs.old jobs.new result }
    ensures connection { KeepsOpen R.S.Store (R.held connection.old)
        (R.held connection.new) result }
{
    connection.walk(
        "SELECT name, password, state, open, stopping, copies, impressions, reserved, charged, documents, rate, device, created, started, ended, job FROM job WHERE account = ?1 AND ended >= 0 ORDER BY ended DESC, job DESC LIMIT ?2",
        &[ValueRef::Text(account.bytes()), limit_of(limit)],
        jobs,
    )
}

/// Gathers jobs: adds that of each row to the list.
impl Gather for List<Job> {
    ghost use Rattle.rows_statements.specs.Queues.{ListsJob, refuses_numbered};

    ghost step = { λ first row last. ListsJob first row last };

    ghost refuses = { λ first row. refuses_numbered row };

    fn gather(&mut self, row: &Row) -> Result<(), TableFault> {
        let job = numbered_job(row)?;
        self.items.push(job)?;
        Ok(())
    }
}

/// Reads a job from a row whose last column is its number. `Damaged` where a value is out of range.
fn numbered_job(row: &Row) -> Result<Job, TableFault>
    ensures read { IfOk result (ShowsNumbered row.now) }
    ensures numbered { IfOk result IsNumbered }
    ensures damaged { result ≡ Err TableFault.Damaged → refuses_numbered row.now }
{
    let number = short_at(row, 15)?;
    if number < 1 || number > LAST_JOB {
        return Err(TableFault::Damaged);
    }
    job_from(row, number)
}

/// A limit as a parameter of LIMIT. -1 is none.
fn limit_of<'a>(limit: Option<u32>) -> ValueRef<'a>
    ensures { owned result ≡ Int (limit_number limit) }
{
    match limit {
        None => ValueRef::Int(-1),
        Some(limit) => ValueRef::Int(limit as i64),
    }
}
