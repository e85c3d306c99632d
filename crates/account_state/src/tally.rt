//! `Tally`: a count over the jobs of an account, to which one job after another is added.

ghost use Rattle.std.specs.Prelude.{◌≡◌, ◌+◌, [], nat_le, if◌then◌else◌};
ghost use Rattle.account_rules.specs.JobStates.{is_unfinished, is_processing};
ghost use Rattle.account_rules.specs.Limits.{most_unfinished, most_units};
ghost use Rattle.account_state.specs.Tallies.{tally_of, counted_in_bounds};

use account_rules::{JobState, MOST_UNFINISHED, MOST_UNITS};

/// What is counted of jobs, one after another: how many are unfinished, and the units that they
/// take.
#[derive(Clone, Copy, PartialEq, Eq)]
pub struct Tally {
    /// Jobs that have not ended.
    pub unfinished: u32,
    /// Whether a job is processing.
    pub is_processing: bool,
    /// Units of the quota that their releases took.
    pub reserved: u64,
    /// Units of the quota that were charged when they ended.
    pub charged: u64,
}

impl Tally {
    /// The tally of no jobs.
    pub fn new() -> Tally
        ensures { result ≡ tally_of [] }
    {
        Tally {
            unfinished: 0,
            is_processing: false,
            reserved: 0,
            charged: 0,
        }
    }

    /// Counts one job more. None exactly where more than 100 had not ended, or a sum would pass
    /// 10^18 units, which no account's jobs come to.
    pub fn with(self, state: JobState, reserved: u64, charged: u64) -> Option<Tally>
        ensures { result ≡ counted_in_bounds self state reserved charged }
    {
        Some(Tally {
            unfinished: count_of_unfinished(self.unfinished, state)?,
            is_processing: self.is_processing || state.is_processing(),
            reserved: sum_of_units(self.reserved, reserved)?,
            charged: sum_of_units(self.charged, charged)?,
        })
    }
}

/// Counts one job more of the state, if that is an unfinished one. None past 100.
fn count_of_unfinished(count: u32, state: JobState) -> Option<u32>
    ensures { result
        ≡ (if nat_le (count + (if is_unfinished state then 1 else 0)) most_unfinished
        then Some (count + (if is_unfinished state then 1 else 0))
        else None) }
{
    count
        .checked_add(state.is_unfinished() as u32)
        .filter(|sum| *sum <= MOST_UNFINISHED)
}

/// Adds units. None exactly where the sum would pass 10^18.
pub fn sum_of_units(units: u64, more: u64) -> Option<u64>
    ensures { result ≡ (if nat_le (units + more) most_units then Some (units + more) else None) }
{
    units.checked_add(more).filter(|sum| *sum <= MOST_UNITS)
}
