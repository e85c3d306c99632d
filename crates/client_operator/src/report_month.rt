//! The months that `report` may be asked for.
ghost use Rattle.std.specs.Prelude.{◌≤◌};
ghost use Rattle.account_rules.specs.Limits.{last_month};

use crate::grant::AFTER_REFUNDS;
use account_rules::LAST_MONTH;

/// The first month of which there is a report: 2000-01. Grants of earlier months are refunds.
pub const FIRST_REPORT: u32 = AFTER_REFUNDS;

/// A month of which there is a report: 2000-01 to 2099-12. Its number is twelve times the year, and
/// 0 for January to 11 for December.
#[derive(Clone, Copy)]
pub struct ReportMonth {
    pub month: u32,
    pub ghost first: { 24000 ≤ month },
    pub ghost last: { month ≤ last_month },
}

impl ReportMonth {
    ghost use Rattle.std.specs.Prelude.{◌≡◌, ◌&&◌, Some, None, if◌then◌else◌, nat_le, option_map};

    /// Gives the month of that number, or `None` where there is no report of it.
    pub fn of(month: u32) -> Option<ReportMonth>
        ensures { option_map (λ found. found.month) result
            ≡ (if nat_le 24000 month && nat_le month last_month then Some month else None) }
    {
        if FIRST_REPORT <= month && month <= LAST_MONTH {
            Some(ReportMonth { month })
        } else {
            None
        }
    }
}
