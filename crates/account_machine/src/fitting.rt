//! Whether the numbers of an event lie within their limits, which callers have to see to.

ghost use Rattle.std.specs.Prelude.{◌≡◌, ◌&&◌, nat_le};
ghost use Rattle.account_machine.specs.Events.{plain_event};
ghost use Rattle.account_machine.specs.Fits.{fits};
ghost use Rattle.account_rules.specs.Limits.{first_month, last_month, most_pages};

use crate::event::Event;
use account_rules::{FIRST_MONTH, LAST_MONTH, MOST_IMPRESSIONS, MOST_PAGES, MOST_RATE};

/// Whether the event's impressions (up to 2147483647), month (January 1970 to December 2099), pages
/// (up to 1000000000) and units (1 to 100) lie within their limits. An event without any of these
/// does.
pub fn fits(e: &Event<'_>) -> bool
    ensures { result ≡ fits (plain_event e.now) }
{
    match *e {
        Event::Release { impressions, .. } => impressions <= MOST_IMPRESSIONS,
        Event::Settle { impressions, .. } => impressions <= MOST_IMPRESSIONS,
        Event::Grant { month, pages, .. } => is_grant(month, pages),
        Event::Rate { units, .. } => 1 <= units && units <= MOST_RATE,
        Event::Open { .. } | Event::Ipp { .. } | Event::Start { .. } | Event::Device { .. } => true,
    }
}

/// Whether a grant of so many pages for the month lies within the limits.
fn is_grant(month: u32, pages: u32) -> bool
    ensures { result ≡
        (nat_le first_month month && nat_le month last_month && nat_le pages most_pages) }
{
    FIRST_MONTH <= month && month <= LAST_MONTH && pages <= MOST_PAGES
}
