//! Reckons for a statement: which grants and jobs move an account's units in its months, what was
//! granted and charged before, and the balances.

ghost use Rattle.std.specs.Prelude.{◌≡◌, ◌-◌, ◌≤◌};
ghost use Rattle.std.specs.List.{sum_by};
ghost use Rattle.account_rules.specs.Limits.{most_units};
ghost use Rattle.page_pages.specs.Movements.{balance, charged_since, is_since, is_then, is_within, pages_within};

use account_rules::{Grant, Job, left, month_of};
use page_markup::known;

/// The first month of a grant that gives no pages back: January 2000. Pages are given back by a
/// grant for a month before.
pub(crate) const FIRST_OF_GRANTS: u32 = 24_000;

/// Whether a month is none before the first and none behind the last.
pub(crate) fn is_within(first: u32, last: u32, month: u32) -> bool
    ensures { result ≡ is_within first last month }
{
    first <= month && month <= last
}

/// Whether a job that ended at this moment did so in one of the months. One that goes on did not.
pub(crate) fn is_then(first: u32, last: u32, ended: Option<u64>) -> bool
    ensures { result ≡ is_then first last ended }
{
    match ended {
        Some(at) => is_within(first, last, month_of(known(at))),
        None => false,
    }
}

/// Whether a job that ended at this moment did so in the month or later. One that goes on did not.
fn is_since(month: u64, ended: Option<u64>) -> bool
    ensures { result ≡ is_since month ended }
{
    match ended {
        Some(at) => month <= month_of(known(at)) as u64,
        None => false,
    }
}

/// Gives the pages of a grant, if it is for one of the months.
fn pages_within(first: u32, last: u32, grant: &Grant) -> u64
    ensures { result ≡ pages_within first last grant.now }
{
    if is_within(first, last, grant.month) {
        grant.pages as u64
    } else {
        0
    }
}

/// Gives what a job was charged, if it ended in the month or later.
fn charged_since(month: u64, job: &Job) -> u64
    ensures { result ≡ charged_since month job.now }
{
    if is_since(month, job.standing.ended) {
        job.standing.charged
    } else {
        0
    }
}

/// Gives what was granted for months before the first: of all that was granted up to the last, what
/// none of these grants gave.
pub(crate) fn granted_before(first: u32, last: u32, granted: u64, grants: &[Grant]) -> u64
    ensures value { result ≡ granted - sum_by (pages_within first last) grants.now }
    ensures bound { result ≤ granted }
{
    let mut rest = granted;
    for grant in grants {
        rest = rest.saturating_sub(pages_within(first, last, grant));
    }
    rest
}

/// Gives what jobs were charged that ended before the month: of all that was charged, what none of
/// these jobs was that ended in it or later.
pub(crate) fn charged_before(month: u64, charged: u64, jobs: &[Job]) -> u64
    ensures value { result ≡ charged - sum_by (charged_since month) jobs.now }
    ensures bound { result ≤ charged }
{
    let mut rest = charged;
    for job in jobs {
        rest = rest.saturating_sub(charged_since(month, job));
    }
    rest
}

/// Gives the balance: what was granted less what was charged.
pub(crate) fn balance(granted: u64, charged: u64) -> i64
    requires granted { granted ≤ most_units }
    requires charged { charged ≤ most_units }
    ensures { result ≡ balance granted charged }
{
    left(granted as i64, 0, charged as i64)
}
