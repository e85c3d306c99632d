//! Rows of the print room's page, made of what one account and its jobs are.

ghost use Rattle.std.specs.Prelude.{◌≡◌};
ghost use Rattle.page_overview.specs.Lines.{account_line, begun_at, begun_line, longest_line};
ghost use Rattle.page_overview.specs.Surveys.{IsInBounds};

use crate::survey::Survey;
use account_rules::{Job, Name};
use page_pages::{AccountLine, BegunLine, LongestLine, phase_of};

/// Makes the row of an account: what is left of its units, and how many jobs have not ended.
pub(crate) fn account_line(account: Name, survey: &Survey) -> AccountLine
    requires { IsInBounds survey.now }
    ensures { result ≡ account_line account survey.now }
{
    let granted = survey.granted as i64;
    AccountLine {
        account,
        left: granted - survey.summary.reserved as i64 - survey.summary.charged as i64,
        waiting: survey.unfinished.items.len() as u64,
    }
}

/// Makes the row of a job that has not ended, if a device began it.
pub(crate) fn begun_line(account: Name, job: &Job) -> Option<BegunLine>
    ensures { result ≡ begun_line account job.now }
{
    if !job.standing.state.is_processing() {
        return None;
    }
    begun_at(account, job.job, job.standing.device, job.standing.started)
}

/// Makes the row, if the job tells both its device and when that began it.
fn begun_at(
    account: Name,
    job: u32,
    device: Option<Name>,
    started: Option<u64>,
) -> Option<BegunLine>
    ensures { result ≡ begun_at account job device started }
{
    let device = device?;
    let started = started?;
    Some(BegunLine {
        account,
        job,
        device,
        started,
    })
}

/// Makes the row of a job that has not ended, if no device began it: it waits.
pub(crate) fn longest_line(account: Name, job: &Job) -> Option<LongestLine>
    ensures { result ≡ longest_line account job.now }
{
    if job.standing.state.is_processing() {
        return None;
    }
    Some(LongestLine {
        account,
        job: job.job,
        phase: phase_of(job),
        created: job.standing.created,
    })
}
