//! Reckons what is left of an account's quota, from what it was granted and the tally of its jobs.

ghost use Rattle.std.specs.Prelude.{◌≡◌, ◌≤◌, pos, ◌≤ℤ◌};
ghost use Rattle.account_rules.specs.Limits.{most_units};
ghost use Rattle.account_rules.specs.Quota.{left_of, least_left, most_left};

use account_rules::left;
use account_state::Tally;

/// The units that are left of those that were granted (up to 10^18), less what the jobs reserve and
/// were charged.
pub fn left_with(granted: i64, tally: &Tally) -> i64
    requires granted { (pos 0 ≤ℤ granted) × (granted ≤ℤ pos most_units) }
    requires reserved { tally.now.reserved ≤ most_units }
    requires charged { tally.now.charged ≤ most_units }
    ensures left { result ≡ left_of granted (pos tally.now.reserved) (pos tally.now.charged) }
    ensures low { least_left ≤ℤ result }
    ensures high { result ≤ℤ most_left }
{
    left(granted, tally.reserved as i64, tally.charged as i64)
}
