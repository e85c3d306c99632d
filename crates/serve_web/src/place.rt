//! Reads the path of a request: which page, account or job it leads to.
ghost use Rattle.std.specs.Prelude.{◌≡◌};
ghost use Rattle.serve_web.specs.Places.{job_in, place_behind, place_in, place_of};

use crate::digits::number;
use account_rules::Name;
use input_http::before;

/// What a path leads to.
#[derive(Clone, Copy)]
pub(crate) enum Place {
    /// The print room's page.
    Room,
    /// The style sheet.
    Style,
    /// The script of the pages.
    Script,
    /// The page of an account's owner.
    Owner(Name),
    /// A statement of an account, as a page.
    Statement(Name),
    /// A statement of an account, as a table.
    Table(Name),
    /// Where a file is handed in.
    Print(Name),
    /// A job, on which an act is to be done.
    Job { account: Name, job: u32 },
}

/// Reads what the path leads to. `None` where it leads to nothing here. Nothing is percent-decoded.
pub(crate) fn place_of(path: &[u8]) -> Option<Place>
    ensures { result ≡ place_of path.now }
{
    if path == b"/".as_slice() {
        return Some(Place::Room);
    }
    if path == b"/style.css".as_slice() {
        return Some(Place::Style);
    }
    if path == b"/page.js".as_slice() {
        return Some(Place::Script);
    }
    place_behind(path.strip_prefix(b"/".as_slice())?)
}

/// Reads a path of an account, behind its first `/`.
fn place_behind(rest: &[u8]) -> Option<Place>
    ensures { result ≡ place_behind rest.now }
{
    let name = before(b'/', rest);
    place_in(Name::read(name)?, &rest[name.len()..])
}

/// Reads what follows the account in a path: nothing, `/statement`,
/// `/statement.csv`, `/print` or a job.
fn place_in(account: Name, part: &[u8]) -> Option<Place>
    ensures { result ≡ place_in account part.now }
{
    if part.is_empty() {
        return Some(Place::Owner(account));
    }
    if part == b"/statement".as_slice() {
        return Some(Place::Statement(account));
    }
    if part == b"/statement.csv".as_slice() {
        return Some(Place::Table(account));
    }
    if part == b"/print".as_slice() {
        return Some(Place::Print(account));
    }
    job_in(account, part.strip_prefix(b"/".as_slice())?)
}

/// Reads the job's number at the end of a path.
fn job_in(account: Name, digits: &[u8]) -> Option<Place>
    ensures { result ≡ job_in account digits.now }
{
    match number(digits) {
        Some(job) => Some(Place::Job { account, job }),
        None => None,
    }
}
