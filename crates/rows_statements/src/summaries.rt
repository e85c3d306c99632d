//! Adding up the jobs of an account for an operator's statement of a month.

ghost use Rattle.std.specs.Prelude.{◌≡◌, ◌≤◌, ℕ, map, Err, IfOk, IfSome, None, OnOk, Option, IsPermutation};
ghost use Rattle.std.specs.FinMap.{values};
ghost use Rattle.account_state.specs.Summaries.{beyond, is_held, is_in_month, is_pending, summary_of};
ghost use Rattle.account_state.specs.declared.summary.Summary.{Summary as SummaryValue};
ghost use Rattle.account_rules.specs.Limits.{most_units, IsMoment};
ghost use Rattle.rows_statements.specs.Prelude.{HasGathered, HoldsRoom, IfOurTables, KeepsOpen, ReadsStore, RoomValue, WalksStore, column};
ghost use Rattle.rows_statements.specs.SoundRows.{job_rows, CanBeSummed};
ghost use Rattle.rows_statements.specs.Summed.{gathers_summed, refuses_summed, sum_of, summary_of_job, summed_cells, IsInBounds, TellsBeyond, TellsSummary};
ghost use Rattle.rows_tables.specs.Cells.{moment};

use crate::reads::Reads;
use crate::walking::Gather;
use account_rules::{JobState, Moment, Name, month_of};
use account_state::{Summary, sum_of_units};
use rows_tables::TableFault;
use rows_tables::values::{moment_at, number_at, state_at};
use sqlite::Row;
use sqlite_value::value::ValueRef;

/// Adds up the jobs of the account for a statement of the month, in one walk over all of them: the
/// units that they reserve and were charged and how many jobs are in each state, and apart what was
/// charged and how many ended in the month. `Damaged` where a row is broken, or a sum is more than
/// an account can have.
pub fn summarize<R: Reads>(
    connection: &mut R,
    account: Name,
    month: u32,
) -> Result<Summary, TableFault>
    ensures told { IfOurTables R.S.Store (R.held connection.old) (R.held connection.new)
        (λ db. (room : RoomValue)
        → HoldsRoom db account room
        → IfOk result (λ summary. summary ≡ summary_of month (values room.jobs))) }
    ensures bounds { IfOk result
        (λ summary. (summary.reserved ≤ most_units) × (summary.charged ≤ most_units)) }
    ensures damaged { IfOurTables R.S.Store (R.held connection.old) (R.held connection.new)
        (λ db. result ≡ Err TableFault.Damaged → CanBeSummed account (job_rows db account) → ⊥) }
    ensures reads { ReadsStore R.S.Store (R.held connection.old) (R.held connection.new) result }
{
    let mut summed = Summed {
        month,
        summary: Summary {
            reserved: 0,
            charged: 0,
            charged_then: 0,
            beyond_then: 0,
            held: 0,
            pending: 0,
            processing: 0,
            ended_then: 0,
        },
    };
    walk_jobs(connection, account, &mut summed)?;
    Ok(summed.summary)
}

/// A summary under way: its month, and what the jobs that were read so far come to.
#[derive(Drop)]
struct Summed {
    month: u32,
    summary: Summary,
}

impl Gather for Summed {
    ghost use Rattle.rows_statements.specs.Summed.{gathers_summed, refuses_summed};

    ghost step = { gathers_summed };

    ghost refuses = { refuses_summed };

    fn gather(&mut self, row: &Row) -> Result<(), TableFault> {
        match sum_of(self.summary, summary_on(row, self.month)?) {
            Some(summary) => self.summary = summary,
            // No account's jobs come to so much.
            None => return Err(TableFault::Damaged),
        }
        Ok(())
    }
}

/// Adds all jobs of the account up in `summed`.
fn walk_jobs<R: Reads>(
    connection: &mut R,
    account: Name,
    summed: &mut Summed,
) -> Result<(), TableFault>
    ensures gathers { OnOk result (HasGathered gathers_summed summed.old summed.new) }
    ensures walks { WalksStore gathers_summed refuses_summed
        R.S.Store (R.held connection.old) (R.held connection.new)
        (λ db. IsPermutation (map summed_cells (job_rows db account)))
        summed.old summed.new result }
    ensures connection { KeepsOpen R.S.Store (R.held connection.old)
        (R.held connection.new) result }
{
    connection.walk(
        "SELECT state, reserved, charged, ended, impressions, copies, rate FROM job WHERE account = ?1",
        &[ValueRef::Text(account.bytes())],
        summed,
    )
}

/// Adds two summaries, number by number. `None` exactly where a sum would pass 10^18, which neither
/// the units nor the jobs of an account reach.
fn sum_of(summary: Summary, more: Summary) -> Option<Summary>
    ensures sum { IfSome result (λ sum. sum ≡ sum_of summary more) }
    ensures bounds { IfSome result IsInBounds }
    ensures none { result ≡ None → IsInBounds (sum_of summary more) → ⊥ }
{
    Some(Summary {
        reserved: sum_of_units(summary.reserved, more.reserved)?,
        charged: sum_of_units(summary.charged, more.charged)?,
        charged_then: sum_of_units(summary.charged_then, more.charged_then)?,
        beyond_then: sum_of_units(summary.beyond_then, more.beyond_then)?,
        held: sum_of_units(summary.held, more.held)?,
        pending: sum_of_units(summary.pending, more.pending)?,
        processing: sum_of_units(summary.processing, more.processing)?,
        ended_then: sum_of_units(summary.ended_then, more.ended_then)?,
    })
}

/// Reads what the job of a row adds to the summary of the month.
fn summary_on(row: &Row, month: u32) -> Result<Summary, TableFault>
    ensures told { IfOk result (TellsSummary month row.now) }
    ensures damaged { result ≡ Err TableFault.Damaged → (job : SummaryValue)
        → TellsSummary month row.now job → ⊥ }
{
    let state = state_at(row, 0)?;
    let reserved = number_at(row, 1)?;
    let charged = number_at(row, 2)?;
    let ended = end_at(row, 3)?;
    let further = beyond_on(row, charged)?;
    Ok(summary_of_job(month, state, reserved, charged, further, ended))
}

/// Reads from a job's row how many units it was charged beyond what its release let it cost.
fn beyond_on(row: &Row, charged: u64) -> Result<u64, TableFault>
    ensures told { IfOk result (TellsBeyond row.now charged) }
    ensures damaged { result ≡ Err TableFault.Damaged → (charges further : ℕ)
        → TellsBeyond row.now charges further → ⊥ }
{
    Ok(beyond(
        charged,
        number_at(row, 4)?,
        number_at(row, 5)?,
        number_at(row, 6)?,
    ))
}

/// The units of a charge beyond impressions x copies x rate, which is what the release let the job
/// cost. A product of more than a `u64` can hold is more than any charge.
fn beyond(charged: u64, impressions: u64, copies: u64, rate: u64) -> u64
    ensures { result ≡ beyond charged impressions copies rate }
{
    charged.saturating_sub(impressions.saturating_mul(copies).saturating_mul(rate))
}

/// Reads the moment at which a job ended from a column; `None` for a job that has not. `Damaged`
/// where the column has anything else.
fn end_at(row: &Row, at: usize) -> Result<Option<Moment>, TableFault>
    ensures read { IfOk result (λ found. column row.now at ≡ moment found) }
    ensures in_range { IfOk result (λ found. IfSome found IsMoment) }
    ensures damaged { result ≡ Err TableFault.Damaged → (found : Option ℕ) → IfSome found IsMoment
        → column row.now at ≡ moment found → ⊥ }
{
    let Some(seconds) = moment_at(row, at)? else {
        return Ok(None);
    };
    match Moment::new(seconds) {
        Some(end) => Ok(Some(end)),
        None => Err(TableFault::Damaged),
    }
}

/// What one job adds to the summary of the month. `further` is what it was charged beyond its
/// release.
fn summary_of_job(
    month: u32,
    state: JobState,
    reserved: u64,
    charged: u64,
    further: u64,
    ended: Option<Moment>,
) -> Summary
    ensures { result ≡ summary_of_job month state reserved charged further ended }
{
    let ended_then = is_in_month(month, ended);
    Summary {
        reserved,
        charged,
        charged_then: if ended_then { charged } else { 0 },
        beyond_then: if ended_then { further } else { 0 },
        held: is_held(state) as u64,
        pending: is_pending(state) as u64,
        processing: state.is_processing() as u64,
        ended_then: ended_then as u64,
    }
}

/// Whether the job has ended, and in the month.
fn is_in_month(month: u32, ended: Option<Moment>) -> bool
    ensures { result ≡ is_in_month month ended }
{
    match ended {
        None => false,
        Some(at) => month_of(at) == month,
    }
}

fn is_held(state: JobState) -> bool
    ensures { result ≡ is_held state }
{
    matches!(state, JobState::Held)
}

fn is_pending(state: JobState) -> bool
    ensures { result ≡ is_pending state }
{
    matches!(state, JobState::Pending)
}
