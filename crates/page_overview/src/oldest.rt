//! Lists of the oldest jobs of all accounts: those that devices began, and those that wait.

ghost use Rattle.std.specs.Prelude.{◌≡◌, ◌≤◌, fold, insert, length, OnOk};
ghost use Rattle.page_overview.specs.Overviews.{put_in, put_oldest};
ghost use Rattle.page_overview.specs.ProofOldest.{put_any, put_begun_line, put_longest_line};

use crate::line::{begun_line, longest_line};
use account_rules::{Job, Name};
use page_pages::{BegunLine, LongestLine};
use std::alloc::AllocError;

/// How many rows a list of the oldest keeps.
pub(crate) const MOST_OLDEST: usize = 20;

/// A row that tells of a job.
pub(crate) trait Aged: Sized {
    ghost use Rattle.std.specs.Prelude.{ℕ};

    // The moment from which its age counts.
    ghost from: { Self → ℕ };

    /// Gives the moment from which its age counts, in seconds since 1970-01-01T00:00:00Z.
    fn from(&self) -> u64
        ensures from { result ≡ from self.now };
}

impl Aged for BegunLine {
    ghost use Rattle.page_overview.specs.Overviews.{begun_at};

    ghost from = { begun_at };

    fn from(&self) -> u64 {
        self.started
    }
}

impl Aged for LongestLine {
    ghost use Rattle.page_overview.specs.Overviews.{made_at};

    ghost from = { made_at };

    fn from(&self) -> u64 {
        self.created
    }
}

/// Puts a row in its place by age, and keeps the oldest `MOST_OLDEST`. The older stands first, and
/// of two that are as old the one that was put in before.
fn put_oldest<L: Aged + Drop>(lines: &mut Vec<L>, line: L) -> Result<(), AllocError>
    ensures { OnOk result (lines.new.items ≡ put_oldest L.from lines.old.items line) }
{
    let place = place_of(lines.as_slice(), &line);
    lines.insert(place, line)?;
    lines.truncate(MOST_OLDEST);
    Ok(())
}

/// Finds the place of the first row that is younger, or the place behind all.
fn place_of<L: Aged>(lines: &[L], line: &L) -> usize
    ensures place { put_in L.from lines.now line.now ≡ insert lines.now result line.now }
    ensures within { result ≤ length lines.now }
{
    for (place, other) in lines.iter().enumerate() {
        if line.from() < other.from() {
            return place;
        }
    }
    lines.len()
}

/// Puts in a row, if there is one.
fn put_any<L: Aged + Drop>(lines: &mut Vec<L>, line: Option<L>) -> Result<(), AllocError>
    ensures { OnOk result (lines.new.items ≡ put_any L.from lines.old.items line) }
{
    match line {
        Some(line) => put_oldest(lines, line),
        None => Ok(()),
    }
}

/// Puts in the rows of those of an account's jobs that a device began.
pub(crate) fn put_begun(
    lines: &mut Vec<BegunLine>,
    account: Name,
    jobs: &[Job],
) -> Result<(), AllocError>
    ensures { OnOk result (lines.new.items
        ≡ fold (put_begun_line account) lines.old.items jobs.now) }
{
    for job in jobs {
        put_any(lines, begun_line(account, job))?;
    }
    Ok(())
}

/// Puts in the rows of those of an account's jobs that wait.
pub(crate) fn put_longest(
    lines: &mut Vec<LongestLine>,
    account: Name,
    jobs: &[Job],
) -> Result<(), AllocError>
    ensures { OnOk result (lines.new.items
        ≡ fold (put_longest_line account) lines.old.items jobs.now) }
{
    for job in jobs {
        put_any(lines, longest_line(account, job))?;
    }
    Ok(())
}
