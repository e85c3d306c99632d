//! Reads what a request at the desk asks for, by its path, method, query and body.
ghost use Rattle.std.specs.Prelude.{◌≡◌};
ghost use Rattle.serve_desk.specs.Requests.{asked, asked_at, body_refusal, judged, line_refusal, other_method, shown, takes, wish};
ghost use Rattle.serve_web.specs.Requests.{foreign_or};

use crate::place::{Listed, Place, listed_in, place_of};
use account_rules::Name;
use bytes::Bytes;
use http::Request;
use input_http::{is_foreign, is_post};
use page_pages::{Form, Refusal};
use serve_web::{Asked as PageAsked, form_refusal, query_of, statement_asked};

/// What a request at the desk asks for.
#[derive(Clone, Copy)]
pub(crate) enum Asked {
    /// The style sheet.
    Style,
    /// The script of all pages.
    Script,
    /// The script of the desk.
    DeskScript,
    /// The first page, which lists these accounts.
    Room(Listed),
    /// The page of devices.
    Devices,
    /// The page of an account.
    Account(Name),
    /// A statement, as the pages show it.
    Statement(PageAsked),
    /// The line that the form spells.
    Line,
}

/// Reads what the request asks for, or gives the first refusal that applies: `BadRequest` (where the
/// path takes the method), `Forbidden`, `NotFound`, `OnlyRead` or `OnlyPost`, `WrongType`.
pub(crate) fn asked_by(request: &Request<Bytes>) -> Result<Asked, Refusal>
    ensures { result ≡ asked request.now }
{
    match place_of(request.uri().path().as_bytes()) {
        Some(place) => asked_at(request, &place),
        None => Err(foreign_or(request, Refusal::NotFound)),
    }
}

/// Reads what the request asks for at its place, or gives the first refusal that applies.
fn asked_at(request: &Request<Bytes>, place: &Place) -> Result<Asked, Refusal>
    ensures { result ≡ asked_at request.now place.now }
{
    if !takes(place, request.method().as_str().as_bytes()) {
        return Err(foreign_or(request, other_method(place)));
    }
    match wish(request, place) {
        Some(asked) => judged(request, asked),
        None => Err(Refusal::BadRequest),
    }
}

/// Gives what is asked for, or refuses it: where another site may have sent it, or its body is no
/// form.
fn judged(request: &Request<Bytes>, asked: Asked) -> Result<Asked, Refusal>
    ensures { result ≡ judged request.now asked }
{
    if is_foreign(request) {
        return Err(Refusal::Forbidden);
    }
    match body_refusal(request, &asked) {
        Some(refusal) => Err(refusal),
        None => Ok(asked),
    }
}

/// Gives `Forbidden` where another site may have sent the request, else this refusal.
fn foreign_or(request: &Request<Bytes>, refusal: Refusal) -> Refusal
    ensures { result ≡ foreign_or request.now refusal }
{
    if is_foreign(request) {
        Refusal::Forbidden
    } else {
        refusal
    }
}

/// Whether the place takes the method: POST where a line is asked, else GET and HEAD.
fn takes(place: &Place, method: &[u8]) -> bool
    ensures { result ≡ takes place.now method.now }
{
    match place {
        Place::Line => is_post(method),
        _ => method == b"GET".as_slice() || method == b"HEAD".as_slice(),
    }
}

/// Gives the refusal of a method that the place does not take.
fn other_method(place: &Place) -> Refusal
    ensures { result ≡ other_method place.now }
{
    match place {
        Place::Line => Refusal::OnlyPost,
        _ => Refusal::OnlyRead,
    }
}

/// Reads what is asked for at the place. `None` where the query is none of that place.
fn wish(request: &Request<Bytes>, place: &Place) -> Option<Asked>
    ensures { result ≡ wish request.now place.now }
{
    match place {
        Place::Room => Some(Asked::Room(listed_in(query_of(request)))),
        Place::Devices => Some(Asked::Devices),
        Place::Style => Some(Asked::Style),
        Place::Script => Some(Asked::Script),
        Place::DeskScript => Some(Asked::DeskScript),
        Place::Line => Some(Asked::Line),
        Place::Account(account) => Some(Asked::Account(*account)),
        Place::Statement(account) => shown(statement_asked(
            *account,
            Form::Paper,
            query_of(request),
        )),
        Place::Table(account) => shown(statement_asked(*account, Form::Csv, query_of(request))),
    }
}

/// A statement, if one is asked for.
fn shown(asked: Option<PageAsked>) -> Option<Asked>
    ensures { result ≡ shown asked }
{
    match asked {
        Some(asked) => Some(Asked::Statement(asked)),
        None => None,
    }
}

/// The most bytes of a form that spells a line.
const MOST_FORM: usize = 4_096;

/// Why the body of what is asked is refused, if it is: a line comes as a form, which is short.
fn body_refusal(request: &Request<Bytes>, asked: &Asked) -> Option<Refusal>
    ensures { result ≡ body_refusal request.now asked.now }
{
    match asked {
        Asked::Line => line_refusal(request),
        _ => None,
    }
}

/// Gives the refusal of the body of a line, if it is too long or is not sent as a form.
fn line_refusal(request: &Request<Bytes>) -> Option<Refusal>
    ensures { result ≡ line_refusal request.now }
{
    if request.body().len() > MOST_FORM {
        return Some(Refusal::BadRequest);
    }
    form_refusal(request)
}
