//! Finds the month of a moment, by the Gregorian calendar in UTC.

ghost use Rattle.std.specs.Prelude.{◌≡◌, ◌+◌, ◌*◌, ◌≤◌, pos, ◌+ℤ◌, ◌*ℤ◌, ◌≤ℤ◌};
ghost use Rattle.account_rules.specs.Months.{IsMonthOf, month_at};

use crate::moment::Moment;
use jiff_core::civil::Date;

const SECONDS_OF_A_DAY: u64 = 86_400;

/// The month of a moment in UTC: the year times 12, and 0 for January to 11 for December.
pub fn month_of(now: Moment) -> u32
    ensures month { result ≡ month_at now }
    ensures calendar { IsMonthOf now result }
{
    let day = now.seconds() / SECONDS_OF_A_DAY;
    let date = Date::from_unix_epoch_day(day as i64).unwrap();
    number(date.year, date.month)
}

/// Numbers a month of a year from 1970 on: the year times 12, and 0 for January (`month` 1) to 11
/// for December (`month` 12).
fn number(year: i16, month: u8) -> u32
    requires year { pos 1970 ≤ℤ year }
    requires month { (1 ≤ month) × (month ≤ 12) }
    ensures { pos (result + 1) ≡ (pos 12 *ℤ year) +ℤ pos month }
{
    year as u32 * 12 + month as u32 - 1
}
