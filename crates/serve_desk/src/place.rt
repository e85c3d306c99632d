//! Reads the path of a request at the desk: which page or account it leads to.
ghost use Rattle.std.specs.Prelude.{◌≡◌};
ghost use Rattle.serve_desk.specs.Places.{listed_behind, listed_in, place_behind, place_in, place_of};
ghost use Rattle.serve_web.specs.Queries.{behind_in};

use account_rules::Name;
use input_http::before;

/// What a path leads to.
#[derive(Clone, Copy)]
pub(crate) enum Place {
    /// The desk's first page.
    Room,
    /// The page of devices.
    Devices,
    /// The style sheet.
    Style,
    /// The script of all pages.
    Script,
    /// The script of the desk.
    DeskScript,
    /// Where a form asks its line.
    Line,
    /// The page of an account.
    Account(Name),
    /// A statement of an account, as a page.
    Statement(Name),
    /// A statement of an account, as a table.
    Table(Name),
}

/// Which accounts the first page lists: those whose names begin with `front` and come behind the
/// name `behind`, where these are given.
#[derive(Clone, Copy)]
pub(crate) struct Listed {
    pub(crate) front: Option<Name>,
    pub(crate) behind: Option<Name>,
}

/// Reads what the path leads to. `None` where it leads to nothing here. Nothing is percent-decoded.
/// No name has a dot, so no account has the path of another page.
pub(crate) fn place_of(path: &[u8]) -> Option<Place>
    ensures { result ≡ place_of path.now }
{
    if path == b"/".as_slice() {
        return Some(Place::Room);
    }
    if path == b"/devices.html".as_slice() {
        return Some(Place::Devices);
    }
    if path == b"/style.css".as_slice() {
        return Some(Place::Style);
    }
    if path == b"/page.js".as_slice() {
        return Some(Place::Script);
    }
    if path == b"/desk.js".as_slice() {
        return Some(Place::DeskScript);
    }
    if path == b"/line.html".as_slice() {
        return Some(Place::Line);
    }
    place_behind(path.strip_prefix(b"/".as_slice())?)
}

/// Reads a path of an account, behind its first `/`.
fn place_behind(rest: &[u8]) -> Option<Place>
    ensures { result ≡ place_behind rest.now }
{
    let name = before(b'/', rest);
    place_in(Name::read(name)?, &rest[name.len()..])
}

/// Reads what follows the account in a path: nothing, `/statement` or `/statement.csv`.
fn place_in(account: Name, part: &[u8]) -> Option<Place>
    ensures { result ≡ place_in account part.now }
{
    if part.is_empty() {
        Some(Place::Account(account))
    } else if part == b"/statement".as_slice() {
        Some(Place::Statement(account))
    } else if part == b"/statement.csv".as_slice() {
        Some(Place::Table(account))
    } else {
        None
    }
}

/// Reads which accounts the first page lists: `front=TEXT`, and `&behind=NAME`. Another query lists
/// all.
pub(crate) fn listed_in(query: &[u8]) -> Listed
    ensures { result ≡ listed_in query.now }
{
    match query.strip_prefix(b"front=".as_slice()) {
        Some(rest) => listed_behind(rest),
        None => Listed {
            front: None,
            behind: None,
        },
    }
}

/// Reads what stands behind `front=`.
fn listed_behind(rest: &[u8]) -> Listed
    ensures { result ≡ listed_behind rest.now }
{
    let word = before(b'&', rest);
    Listed {
        front: Name::read(word),
        behind: behind_in(&rest[word.len()..]),
    }
}

/// Reads the name behind `&behind=`, if there is one.
fn behind_in(part: &[u8]) -> Option<Name>
    ensures { result ≡ behind_in part.now }
{
    Name::read(part.strip_prefix(b"&behind=".as_slice())?)
}
