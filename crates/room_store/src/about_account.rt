//! Questions of an operator about one account: its quota, its statement of a month, its jobs and
//! its grants. `questions` has asked before whether the account is open. `Reply::Line` takes
//! answers of many lines too.

ghost use Rattle.std.specs.Prelude.{◌≡◌, ◌≤◌, Some, None, Err, IfOk};
ghost use Rattle.std.specs.FinMap.{values};
ghost use Rattle.account_asks.specs.declared.ask.Which.TheVariants.{NotCompleted, Completed};
ghost use Rattle.account_state.specs.Summaries.{summary_of};
ghost use Rattle.account_questions.specs.declared.question.About.TheVariants as about;
ghost use Rattle.account_rules.specs.Limits.{most_units};
ghost use Rattle.account_state.specs.Sums.{charged_in, granted_to, reserved_in};
ghost use Rattle.room_store.specs.Questions.{GrantsAreReadable, StatementIsReadable, SumsAreReadable, TellsAbout};
ghost use Rattle.room_store.specs.Prelude.{HoldsRoom, IfOurTables, LooksUp, RoomValue};
ghost use Rattle.store_events.specs.Reading.{JobsAreReadable};

use account_machine::{Name, Reply};
use account_questions::{Summary, grants_lines, jobs_lines, quota_line, statement_line};
use rows_statements::{ended_jobs, granted_to, list_grants, summarize, unfinished_jobs};
use rows_tables::TableFault;
use sqlite::Alter;
use std::alloc::Global;
use store_rounds::{Rounds, sum_up};

/// Answers the account's quota up to a month, in one line: what was granted, reserved and charged,
/// and what is left.
pub(crate) fn tell_left<S: Alter>(
    alloc: Global,
    connection: &mut Rounds<S>,
    account: Name,
    month: u32,
) -> Result<Reply, TableFault>
    ensures told { TellsAbout S.Store connection.old connection.new account (about.Left month) result }
    ensures damaged { IfOurTables S.Store connection.old connection.new
        (λ db. result ≡ Err TableFault.Damaged → SumsAreReadable account month db → ⊥) }
    ensures looks { LooksUp S.Store connection.old connection.new result }
{
    let quota = read_quota(connection, account, month)?;
    let line = quota_line(alloc, quota.granted, quota.reserved, quota.charged)?;
    Ok(Reply::Line(line))
}

/// The quota of an account, in units.
#[derive(Clone, Copy)]
pub(crate) struct Quota {
    /// What was granted.
    pub(crate) granted: u64,
    /// What jobs reserve.
    pub(crate) reserved: u64,
    /// What jobs were charged.
    pub(crate) charged: u64,
}

/// Reads the account's quota: what was granted for all months up to `month`, and what its jobs
/// reserve and were charged.
pub(crate) fn read_quota<S: Alter>(
    connection: &mut Rounds<S>,
    account: Name,
    month: u32,
) -> Result<Quota, TableFault>
    ensures told { IfOurTables S.Store connection.old connection.new (λ db.
        (room : RoomValue) → HoldsRoom db account room → IfOk result (λ quota.
        (quota.granted ≡ granted_to room month) × (quota.reserved ≡ reserved_in room)
        × (quota.charged ≡ charged_in room))) }
    ensures bounds { IfOk result (λ quota. (quota.granted ≤ most_units)
        × (quota.reserved ≤ most_units) × (quota.charged ≤ most_units)) }
    ensures damaged { IfOurTables S.Store connection.old connection.new
        (λ db. result ≡ Err TableFault.Damaged → SumsAreReadable account month db → ⊥) }
    ensures looks { LooksUp S.Store connection.old connection.new result }
{
    let sums = sum_up(connection, account)?;
    let granted = granted_to(connection, account, month)?;
    Ok(Quota {
        granted,
        reserved: sums.reserved,
        charged: sums.charged,
    })
}

/// Answers the account's statement of a month, in one line.
pub(crate) fn tell_statement<S: Alter>(
    alloc: Global,
    connection: &mut Rounds<S>,
    account: Name,
    month: u32,
) -> Result<Reply, TableFault>
    ensures told { TellsAbout S.Store connection.old connection.new account (about.Statement month) result }
    ensures damaged { IfOurTables S.Store connection.old connection.new
        (λ db. result ≡ Err TableFault.Damaged → StatementIsReadable account month db → ⊥) }
    ensures looks { LooksUp S.Store connection.old connection.new result }
{
    let (granted, summary) = read_statement(connection, account, month)?;
    Ok(Reply::Line(statement_line(alloc, granted, summary)?))
}

/// Reads what the account was granted up to the month, and what its jobs come to for the statement.
fn read_statement<S: Alter>(
    connection: &mut Rounds<S>,
    account: Name,
    month: u32,
) -> Result<(u64, Summary), TableFault>
    ensures told { IfOurTables S.Store connection.old connection.new (λ db.
        (room : RoomValue) → HoldsRoom db account room → IfOk result (λ told.
        (told.0 ≡ granted_to room month) × (told.1 ≡ summary_of month (values room.jobs)))) }
    ensures bounds { IfOk result (λ told. (told.0 ≤ most_units)
        × (told.1.reserved ≤ most_units) × (told.1.charged ≤ most_units)) }
    ensures damaged { IfOurTables S.Store connection.old connection.new
        (λ db. result ≡ Err TableFault.Damaged → StatementIsReadable account month db → ⊥) }
    ensures looks { LooksUp S.Store connection.old connection.new result }
{
    let summary = summarize(connection, account, month)?;
    let granted = granted_to(connection, account, month)?;
    Ok((granted, summary))
}

/// Answers the jobs that have not ended, one in a line.
pub(crate) fn tell_unfinished<S: Alter>(
    alloc: Global,
    connection: &mut Rounds<S>,
    account: Name,
) -> Result<Reply, TableFault>
    ensures told { TellsAbout S.Store connection.old connection.new account about.Jobs result }
    ensures damaged { IfOurTables S.Store connection.old connection.new
        (λ db. result ≡ Err TableFault.Damaged → JobsAreReadable account NotCompleted None db → ⊥) }
    ensures looks { LooksUp S.Store connection.old connection.new result }
{
    let jobs = unfinished_jobs(alloc, connection, account, None)?;
    Ok(Reply::Line(jobs_lines(alloc, jobs.as_slice())?))
}

/// Answers the jobs that ended last, `most` of them at most, one in a line.
pub(crate) fn tell_ended<S: Alter>(
    alloc: Global,
    connection: &mut Rounds<S>,
    account: Name,
    most: u32,
) -> Result<Reply, TableFault>
    ensures told { TellsAbout S.Store connection.old connection.new account (about.Ended most) result }
    ensures damaged { IfOurTables S.Store connection.old connection.new (λ db.
        result ≡ Err TableFault.Damaged → JobsAreReadable account Completed (Some most) db → ⊥) }
    ensures looks { LooksUp S.Store connection.old connection.new result }
{
    let jobs = ended_jobs(alloc, connection, account, Some(most))?;
    Ok(Reply::Line(jobs_lines(alloc, jobs.as_slice())?))
}

/// Answers the grants of the account, one in a line.
pub(crate) fn tell_grants<S: Alter>(
    alloc: Global,
    connection: &mut Rounds<S>,
    account: Name,
) -> Result<Reply, TableFault>
    ensures told { TellsAbout S.Store connection.old connection.new account about.Grants result }
    ensures damaged { IfOurTables S.Store connection.old connection.new
        (λ db. result ≡ Err TableFault.Damaged → GrantsAreReadable account db → ⊥) }
    ensures looks { LooksUp S.Store connection.old connection.new result }
{
    let grants = list_grants(alloc, connection, account)?;
    Ok(Reply::Line(grants_lines(alloc, grants.as_slice())?))
}
