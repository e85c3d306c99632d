//! Reads the query of a page, and the form of an act.
ghost use Rattle.std.specs.Prelude.{◌≡◌};
ghost use Rattle.serve_web.specs.Queries.{act_asked, act_in, behind_in, copies_in, counts_asked, month_in, months_in, owner_asked, pages_in, print_asked, room_asked, room_behind, statement_asked, year_in, year_of};

use crate::asked::{Asked, Months};
use crate::digits::number;
use crate::outcome_query::came_in;
use account_rules::{MOST_COPIES, Name};
use client_owner::JobAct;
use input_fields::month;
use input_http::before;
use page_pages::Form;

/// Reads the query of the print room's page: `front=TEXT`, with which the names of the listed
/// accounts begin, and `&behind=NAME`, behind which they come.
pub(crate) fn room_asked(query: &[u8]) -> Asked
    ensures { result ≡ room_asked query.now }
{
    match query.strip_prefix(b"front=".as_slice()) {
        Some(rest) => room_behind(rest),
        None => Asked::Room {
            front: None,
            behind: None,
        },
    }
}

/// Reads what stands behind `front=`.
fn room_behind(rest: &[u8]) -> Asked
    ensures { result ≡ room_behind rest.now }
{
    let word = before(b'&', rest);
    Asked::Room {
        front: Name::read(word),
        behind: behind_in(&rest[word.len()..]),
    }
}

/// Reads the name behind `&behind=`, if there is one.
fn behind_in(part: &[u8]) -> Option<Name>
    ensures { result ≡ behind_in part.now }
{
    Name::read(part.strip_prefix(b"&behind=".as_slice())?)
}

/// Reads the query of an owner's page: what came of the last act, or `still`, by which the page is
/// not to load itself anew.
pub(crate) fn owner_asked(account: Name, query: &[u8]) -> Asked
    ensures { result ≡ owner_asked account query.now }
{
    Asked::Owner {
        account,
        came: came_in(query),
        stays: query == b"still".as_slice(),
    }
}

/// Reads the query of a statement: `month=YYYY-MM`, `year=YYYY`, or nothing for the month that it
/// is.
pub fn statement_asked(account: Name, form: Form, query: &[u8]) -> Option<Asked>
    ensures { result ≡ statement_asked account form query.now }
{
    if query.is_empty() {
        return Some(Asked::Statement {
            account,
            form,
            months: None,
        });
    }
    let months = months_in(query)?;
    Some(Asked::Statement {
        account,
        form,
        months: Some(months),
    })
}

/// Reads the month or the year of a statement.
fn months_in(query: &[u8]) -> Option<Months>
    ensures { result ≡ months_in query.now }
{
    match query.strip_prefix(b"month=".as_slice()) {
        Some(text) => month_in(text),
        None => year_in(query.strip_prefix(b"year=".as_slice())?),
    }
}

/// Reads a month, as `2026-11`.
fn month_in(text: &[u8]) -> Option<Months>
    ensures { result ≡ month_in text.now }
{
    let month = month(text)?;
    Some(Months {
        first: month,
        last: month,
    })
}

/// Reads a year: four digits, from 1970 to 2099.
fn year_in(text: &[u8]) -> Option<Months>
    ensures { result ≡ year_in text.now }
{
    if text.len() != 4 {
        return None;
    }
    year_of(number(text)?)
}

/// Gives the months of a year from 1970 to 2099.
fn year_of(year: u32) -> Option<Months>
    ensures { result ≡ year_of year }
{
    if year < 1970 || year > 2099 {
        return None;
    }
    Some(Months {
        first: year * 12,
        last: year * 12 + 11,
    })
}

/// Reads the form of an act on a job.
pub(crate) fn act_asked(account: Name, job: u32, form: &[u8]) -> Option<Asked>
    ensures { result ≡ act_asked account job form.now }
{
    let act = act_in(form)?;
    Some(Asked::Act { account, act, job })
}

/// Reads `act=release`, `act=hold` or `act=cancel`.
fn act_in(form: &[u8]) -> Option<JobAct>
    ensures { result ≡ act_in form.now }
{
    if form == b"act=release".as_slice() {
        Some(JobAct::Release)
    } else if form == b"act=hold".as_slice() {
        Some(JobAct::Hold)
    } else if form == b"act=cancel".as_slice() {
        Some(JobAct::Cancel)
    } else {
        None
    }
}

/// Reads the query that prints a file: `name=TEXT&copies=NUMBER&pages=NUMBER`, where that of the
/// pages may be empty. (`file_name` reads the name.)
pub(crate) fn print_asked(account: Name, query: &[u8]) -> Option<Asked>
    ensures { result ≡ print_asked account query.now }
{
    let rest = query.strip_prefix(b"name=".as_slice())?;
    let name = before(b'&', rest);
    counts_asked(
        account,
        rest[name.len()..].strip_prefix(b"&copies=".as_slice())?,
    )
}

/// Reads what stands behind `&copies=`: how many copies, and how many pages one has.
fn counts_asked(account: Name, rest: &[u8]) -> Option<Asked>
    ensures { result ≡ counts_asked account rest.now }
{
    let digits = before(b'&', rest);
    let copies = copies_in(digits)?;
    let pages = pages_in(rest[digits.len()..].strip_prefix(b"&pages=".as_slice())?)?;
    Some(Asked::Print {
        account,
        copies,
        pages,
    })
}

/// Reads how many copies: 1 to `MOST_COPIES`.
fn copies_in(digits: &[u8]) -> Option<u32>
    ensures { result ≡ copies_in digits.now }
{
    let copies = number(digits)?;
    if copies == 0 || copies > MOST_COPIES {
        return None;
    }
    Some(copies)
}

/// Reads how many pages a copy has: a number, or nothing where that is not known.
fn pages_in(text: &[u8]) -> Option<Option<u32>>
    ensures { result ≡ pages_in text.now }
{
    if text.is_empty() {
        return Some(None);
    }
    let pages = number(text)?;
    Some(Some(pages))
}
