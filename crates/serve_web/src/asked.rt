//! Reads what a request of a browser asks for, by its path, method, query and body.
ghost use Rattle.std.specs.Prelude.{◌≡◌, option_copied};
ghost use Rattle.serve_web.specs.Requests.{asked, asked_at, body_refusal, file_refusal, foreign_or, form_refusal, has_type, is_type, is_type_value, judged, other_method, query_of, takes, wish};

use crate::place::{Place, place_of};
use crate::query::{act_asked, owner_asked, print_asked, room_asked, statement_asked};
use account_rules::{LONGEST_DOCUMENT, Name};
use bytes::Bytes;
use client_owner::JobAct;
use http::{HeaderValue, Request};
use input_http::{before, is_foreign, is_post, without_margin};
use page_pages::{Form, Outcome, Refusal};

/// The months of a statement: one, or the twelve of a year.
#[derive(Clone, Copy)]
pub struct Months {
    pub first: u32,
    pub last: u32,
}

/// What a request of a browser asks for.
#[derive(Clone, Copy)]
pub enum Asked {
    /// The style sheet.
    Style,
    /// The script of the pages.
    Script,
    /// The print room's page. It lists accounts whose names begin with `front` and come behind the
    /// name `behind`, if these are given.
    Room {
        front: Option<Name>,
        behind: Option<Name>,
    },
    /// The page of an account's owner, with what came of the last act. `stays`: it is not to load
    /// itself anew.
    Owner {
        account: Name,
        came: Option<Outcome>,
        stays: bool,
    },
    /// A statement of these months, or with `None` of the month that it is.
    Statement {
        account: Name,
        form: Form,
        months: Option<Months>,
    },
    /// To release, hold or cancel a job.
    Act {
        account: Name,
        act: JobAct,
        job: u32,
    },
    /// To print the file that is the body, in so many copies, each of so many pages, if that is
    /// known.
    Print {
        account: Name,
        copies: u32,
        pages: Option<u32>,
    },
}

/// Reads what the request asks for, or gives the first refusal that applies: `BadRequest` (where the
/// path takes the method), `Forbidden`, `NotFound`, `OnlyRead` or `OnlyPost`, `TooLarge`,
/// `WrongType`.
pub(crate) fn asked_by(request: &Request<Bytes>) -> Result<Asked, Refusal>
    ensures { result ≡ asked request.now }
{
    match place_of(request.uri().path().as_bytes()) {
        Some(place) => asked_at(request, &place),
        None => Err(foreign_or(request, Refusal::NotFound)),
    }
}

/// Reads what the request asks for at its place, or gives the first refusal that applies.
fn asked_at(request: &Request<Bytes>, place: &Place) -> Result<Asked, Refusal>
    ensures { result ≡ asked_at request.now place.now }
{
    if !takes(place, request.method().as_str().as_bytes()) {
        return Err(foreign_or(request, other_method(place)));
    }
    match wish(request, place) {
        Some(asked) => judged(request, asked),
        None => Err(Refusal::BadRequest),
    }
}

/// Gives what is asked for, or refuses it: where another site may have sent it, or its body is not
/// of its kind.
fn judged(request: &Request<Bytes>, asked: Asked) -> Result<Asked, Refusal>
    ensures { result ≡ judged request.now asked }
{
    if is_foreign(request) {
        return Err(Refusal::Forbidden);
    }
    match body_refusal(request, &asked) {
        Some(refusal) => Err(refusal),
        None => Ok(asked),
    }
}

/// Gives `Forbidden` where another site may have sent the request, else this refusal.
fn foreign_or(request: &Request<Bytes>, refusal: Refusal) -> Refusal
    ensures { result ≡ foreign_or request.now refusal }
{
    if is_foreign(request) {
        Refusal::Forbidden
    } else {
        refusal
    }
}

/// Whether the place takes the method: POST where something is to be done, else GET and HEAD.
fn takes(place: &Place, method: &[u8]) -> bool
    ensures { result ≡ takes place.now method.now }
{
    match place {
        Place::Print(_) | Place::Job { .. } => is_post(method),
        _ => method == b"GET".as_slice() || method == b"HEAD".as_slice(),
    }
}

/// Gives the refusal of a method that the place does not take.
fn other_method(place: &Place) -> Refusal
    ensures { result ≡ other_method place.now }
{
    match place {
        Place::Print(_) | Place::Job { .. } => Refusal::OnlyPost,
        _ => Refusal::OnlyRead,
    }
}

/// Reads what is asked for at the place. `None` where the query or the form is not one of that
/// place.
fn wish(request: &Request<Bytes>, place: &Place) -> Option<Asked>
    ensures { result ≡ wish request.now place.now }
{
    match place {
        Place::Room => Some(room_asked(query_of(request))),
        Place::Style => Some(Asked::Style),
        Place::Script => Some(Asked::Script),
        Place::Owner(account) => Some(owner_asked(*account, query_of(request))),
        Place::Statement(account) => statement_asked(*account, Form::Paper, query_of(request)),
        Place::Table(account) => statement_asked(*account, Form::Csv, query_of(request)),
        Place::Print(account) => print_asked(*account, query_of(request)),
        Place::Job { account, job } => act_asked(*account, *job, request.body().as_slice()),
    }
}

/// Gives the query of a request, which is empty where it has none.
pub fn query_of(request: &Request<Bytes>) -> &[u8]
    ensures { result.now ≡ query_of request.now }
{
    match request.uri().query() {
        Some(query) => query.as_bytes(),
        None => b"",
    }
}

/// Why the body of what is asked is refused, if it is.
fn body_refusal(request: &Request<Bytes>, asked: &Asked) -> Option<Refusal>
    ensures { result ≡ body_refusal request.now asked.now }
{
    match asked {
        Asked::Act { .. } => form_refusal(request),
        Asked::Print { .. } => file_refusal(request),
        _ => None,
    }
}

/// Gives the refusal of an act's body, if it is not sent as a form.
pub fn form_refusal(request: &Request<Bytes>) -> Option<Refusal>
    ensures { result ≡ form_refusal request.now }
{
    if has_type(request, b"application/x-www-form-urlencoded") {
        None
    } else {
        Some(Refusal::WrongType)
    }
}

/// Gives the refusal of a file that is too large, or is sent as a form, which would have more
/// around it. It may be of any other type.
fn file_refusal(request: &Request<Bytes>) -> Option<Refusal>
    ensures { result ≡ file_refusal request.now }
{
    if request.body().len() > LONGEST_DOCUMENT {
        return Some(Refusal::TooLarge);
    }
    if has_type(request, b"application/x-www-form-urlencoded")
        || has_type(request, b"multipart/form-data")
    {
        return Some(Refusal::WrongType);
    }
    None
}

/// Whether the request's field Content-Type says the type `name`. Without the field it does not.
fn has_type(request: &Request<Bytes>, name: &[u8]) -> bool
    ensures { result ≡ has_type request.now name.now }
{
    is_type_value(request.headers().get("content-type"), name)
}

/// Whether the field Content-Type, if there is one, says the type `name`.
fn is_type_value(value: Option<&HeaderValue>, name: &[u8]) -> bool
    ensures { result ≡ is_type_value (option_copied value.entry) name.now }
{
    match value {
        None => false,
        Some(value) => is_type(value.as_bytes(), name),
    }
}

/// Whether the bytes of a Content-Type say the type `name`, in any case, whatever stands behind a
/// `;` (RFC 9110 section 8.3.1).
fn is_type(value: &[u8], name: &[u8]) -> bool
    ensures { result ≡ is_type value.now name.now }
{
    without_margin(b" ", before(b';', value)).eq_ignore_ascii_case(name)
}
