//! Places of days in a month: how many there are, and which is a moment's.

ghost use Rattle.std.specs.Prelude.{◌≡◌};
ghost use Rattle.page_overview.specs.Surveys.{place_of_day};

use account_rules::{Moment, month_of};
use page_markup::day_in_month;

/// The days of the longest month.
pub const MOST_DAYS: usize = 31;

/// Gives the place of a moment's day in its month, from 0, or `None` where the moment (in seconds
/// since 1970-01-01T00:00:00Z) lies in another month or past the last that there is.
pub fn place_of_day(month: u32, at: u64) -> Option<usize>
    ensures { result ≡ place_of_day month at }
{
    let at = Moment::new(at)?;
    if month_of(at) != month {
        return None;
    }
    Some((day_in_month(at) as usize).saturating_sub(1))
}
