//! Reckons with units of the quota: what a release needs, what a job is charged, what is left.

ghost use Rattle.std.specs.Prelude.{◌≡◌, ◌*◌, ◌%◌, ◌≤◌, pos, ◌≤ℤ◌};
ghost use Rattle.account_rules.specs.Limits.{most_impressions, most_copies, most_rate, most_need, most_units, IsRate};
ghost use Rattle.account_rules.specs.Quota.{need_of, left_of, exceeds};
ghost use Rattle.account_rules.specs.StateLaws.{within_quota};

use crate::job::Standing;
use crate::limits::MOST_NEED;
use crate::refusal::{Refusal, Word};

/// So many units that, with these left, the quota refuses no release: the most that one can need.
pub const ENOUGH_LEFT: i64 = MOST_NEED as i64;

/// What is left of an account's quota, in units: what it was granted, less what its jobs reserve
/// and what they were charged. Each is from 0 to 10^18. It is negative where the charges went past
/// the grants.
pub fn left(granted: i64, reserved: i64, charged: i64) -> i64
    requires granted { (pos 0 ≤ℤ granted) × (granted ≤ℤ pos most_units) }
    requires reserved { (pos 0 ≤ℤ reserved) × (reserved ≤ℤ pos most_units) }
    requires charged { (pos 0 ≤ℤ charged) × (charged ≤ℤ pos most_units) }
    ensures { result ≡ left_of granted reserved charged }
{
    granted - reserved - charged
}

/// The units that a release needs: the impressions of one copy (up to 2147483647), times the copies
/// (up to 999), times the units that an impression counts (up to 100).
pub(crate) fn need(impressions: u32, copies: u32, rate: u32) -> u64
    requires impressions { impressions ≤ most_impressions }
    requires copies { copies ≤ most_copies }
    requires rate { rate ≤ most_rate }
    ensures need { result ≡ need_of impressions copies rate }
    ensures bound { result ≤ most_need }
{
    impressions as u64 * copies as u64 * rate as u64
}

/// The units that are charged for the impressions that a device completed (up to 2147483647), at
/// the job's rate (1 to 100).
pub(crate) fn charge(completed: u32, rate: u32) -> u64
    requires completed { completed ≤ most_impressions }
    requires rate { IsRate rate }
    ensures charge { result ≡ completed * rate }
    ensures whole { result % rate ≡ 0 }
    ensures bound { result ≤ most_impressions * rate }
{
    completed as u64 * rate as u64
}

/// Whether a release needs more units than are left, which may be fewer than none.
pub(crate) fn exceeds(need: u64, left: i64) -> bool
    ensures { result ≡ exceeds need left }
{
    left < 0 || (left as u64) < need
}

/// Keeps a release to the quota: takes the job as a release made it that was asked with
/// `ENOUGH_LEFT` units, and refuses it as `Quota` where it reserves more than is left. So what is
/// left need not be summed up for a release that something else refuses.
pub fn within_quota(released: Standing, left: i64) -> Result<Standing, Refusal>
    ensures { result ≡ within_quota released left }
{
    let need = released.reserved;
    if exceeds(need, left) {
        return Err(Refusal::not_possible(Word::Quota { need, left }));
    }
    Ok(released)
}
