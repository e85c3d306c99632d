//! One record of a file of grants: account, month, pages.

ghost use Rattle.std.specs.Prelude.{◌≡◌, ◌≤◌, IfSome};
ghost use Rattle.csv.specs.Records.{fields_of};
ghost use Rattle.input_fields.specs.Fields.{month_said};
ghost use Rattle.account_rules.specs.Limits.{most_pages};
ghost use Rattle.input_fields.specs.GrantLines.{IsInRange, good_line, grant_line, account_said, pages_said};

use crate::{month, number};
use account_rules::{MOST_PAGES, Name};
use csv::ByteRecord;

/// What one record of a file of grants says.
#[derive(Clone, Copy, PartialEq)]
pub enum GrantLine {
    /// The account is granted pages once, to be used in the month or later. The month is the year
    /// times 12, and 0 for January to 11 for December.
    Good {
        account: Name,
        month: u32,
        pages: u32,
    },
    /// The record of this number, counted from 1, is no grant.
    Bad(u32),
}

/// Reads a record: `Bad` where it is not an account's name, a month and a number of pages. `number`
/// is its place in the file, from 1.
pub(crate) fn grant_line(number: u32, row: &ByteRecord) -> GrantLine
    ensures said { result ≡ grant_line number (fields_of row.now) }
    ensures range { IsInRange result }
{
    if row.len() != 3 {
        return GrantLine::Bad(number);
    }
    let (Some(account), Some(month), Some(pages)) = (row.get(0), row.get(1), row.get(2)) else {
        return GrantLine::Bad(number);
    };
    match good_line(account, month, pages) {
        Some(line) => line,
        None => GrantLine::Bad(number),
    }
}

/// The grant of the three fields. `None` where one is malformed.
fn good_line(account: &[u8], month_text: &[u8], pages: &[u8]) -> Option<GrantLine>
    ensures said { result
        ≡ good_line (account_said account.now) (month_said month_text.now) (pages_said pages.now) }
    ensures range { IfSome result IsInRange }
{
    Some(GrantLine::Good {
        account: Name::read(account)?,
        month: month(month_text)?,
        pages: pages_in(pages)?,
    })
}

/// Reads a number of pages, 0 to `MOST_PAGES`.
fn pages_in(text: &[u8]) -> Option<u32>
    ensures said { result ≡ pages_said text.now }
    ensures most { IfSome result (λ pages. pages ≤ most_pages) }
{
    number(text, 0, MOST_PAGES)
}
