//! Reads grants of lines of the answer to `grants`, and finds which of them are refunds.
ghost use Rattle.std.specs.Prelude.{◌≡◌, ◌<◌, ◌≤◌, IfOk, IfSome, false, map, nat_lt, true};
ghost use Rattle.client_operator.specs.Refunds.{GivesBack, HasGrant, HasNoGrant, IsLatestFree, TellsGrant, after_refunds};
ghost use Rattle.account_rules.specs.Limits.{first_month, last_month};

use crate::words::Words;
use account_rules::{FIRST_MONTH, MOST_PAGES};
use client_lines::ClientFault;
use input_fields::{month, number};

/// January 2000, the first month that is not for refunds: a grant of an earlier month gives pages
/// back (the command `refund`), and `report` tells it as that.
pub(crate) const AFTER_REFUNDS: u32 = 24_000;

/// Pages that were granted for a month.
#[derive(Clone, Copy, PartialEq, Eq)]
pub(crate) struct Granted {
    pub(crate) month: u32,
    pub(crate) pages: u32,
}

impl Granted {
    /// Reads a line `grant YYYY-MM PAGES`. `Broken` where it is any other.
    pub(crate) fn read(line: &[u8]) -> Result<Granted, ClientFault>
        ensures { IfOk result (λ granted. TellsGrant line.now granted) }
    {
        let mut words = Words::of(line);
        words.skip(b"grant")?;
        let month = month(words.take()?).ok_or(ClientFault::Broken)?;
        let pages = number(words.last(), 0, MOST_PAGES).ok_or(ClientFault::Broken)?;
        Ok(Granted { month, pages })
    }

    /// Whether the grant gave pages back: its month is before 2000-01.
    fn is_refund(self) -> bool
        ensures { result ≡ nat_lt self.month after_refunds }
    {
        self.month < AFTER_REFUNDS
    }
}

/// Adds up the pages that the grants gave back. Each line tells one grant.
pub(crate) fn refunded(lines: &[Vec<u8>]) -> Result<u64, ClientFault>
    ensures { IfOk result (λ sum. GivesBack (map (λ line. line.items) lines.now) sum) }
{
    match lines {
        [] => Ok(0),
        [line, rest @ ..] => {
            let granted = Granted::read(line.as_slice())?;
            let others = refunded(rest)?;
            if !granted.is_refund() {
                return Ok(others);
            }
            others
                .checked_add(u64::from(granted.pages))
                .ok_or(ClientFault::Broken)
        }
    }
}

/// Finds the month by which the next refund is granted. A month has one grant, so each refund needs
/// a month of its own: the latest before 2000-01 of which no line tells a grant. `None` where each
/// such month has one.
pub(crate) fn unused_refund_month(lines: &[Vec<u8>]) -> Result<Option<u32>, ClientFault>
    ensures latest { IfOk result (λ found. IfSome found
        (λ month. IsLatestFree (map (λ line. line.items) lines.now) month)) }
    ensures first { IfOk result (λ found. IfSome found (λ month. first_month ≤ month)) }
    ensures last { IfOk result (λ found. IfSome found (λ month. month < AFTER_REFUNDS)) }
{
    for back in 0..AFTER_REFUNDS - FIRST_MONTH {
        let month = AFTER_REFUNDS - 1 - back;
        let has = has_grant(lines, month)?;
        if !has {
            return Ok(Some(month));
        }
    }
    Ok(None)
}

/// Whether one of the lines tells a grant of the month.
fn has_grant(lines: &[Vec<u8>], month: u32) -> Result<bool, ClientFault>
    ensures some { IfOk result (λ has. has ≡ true
        → HasGrant (map (λ line. line.items) lines.now) month) }
    ensures none { IfOk result (λ has. has ≡ false
        → HasNoGrant (map (λ line. line.items) lines.now) month) }
{
    match lines {
        [] => Ok(false),
        [line, rest @ ..] => {
            let granted = Granted::read(line.as_slice())?;
            if granted.month == month {
                return Ok(true);
            }
            has_grant(rest, month)
        }
    }
}
