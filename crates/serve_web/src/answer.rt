//! Writes the answers to browsers: pages, refusals, the style sheet, and redirects after an act.
ghost use Rattle.std.specs.Prelude.{◌≡◌, ◌⊎◌, ◌++◌, codes, decimal, IfOk, IsTrue, OnOk};
ghost use Rattle.http_header.specs.FieldValue.{is_visible_text};
ghost use Rattle.http_server.specs.Response.{IsBlank, IsResponse};
ghost use Rattle.serve_web.specs.Responses.{IsDone, IsLost, IsPage, IsRedirect, IsRefusal, IsShown, fragment, is_no_account, is_not_open, location, tells_no_account};
ghost use Rattle.serve_web.specs.Fields.{sheet_fields};

use crate::fields::{
    put_common_fields, put_more_fields, put_page_fields, put_sheet_fields, put_shown_fields,
};
use crate::outcome::outcome_told;
use crate::outcome_query::put_outcome;
use crate::refusal::status_of;
use account_machine::{Answered, Reply};
use account_rules::Name;
use bytes::Bytes;
use http::{HeaderValue, StatusCode, header};
use http_server::Response;
use itoa::Buffer;
use page_pages::{Act, Outcome, Refusal, put_refusal_page};
use std::alloc::{AllocError, Global};
use store_rounds::StoreFault;

/// Answers with a refusal: its status, and the page that explains it. `closes`: the connection ends
/// with the answer.
pub fn refuse(response: &mut Response, refusal: Refusal, closes: bool) -> Result<(), AllocError>
    requires { IsBlank response.old }
    ensures { OnOk result (IsRefusal refusal closes response.new) }
{
    let mut text = Vec::new(*response.headers.allocator());
    put_refusal_page(&mut text, refusal)?;
    response.status = status_of(refusal);
    put_more_fields(response, refusal)?;
    put_page_fields(response, closes)?;
    response.body.push(shared(text)?)?;
    Ok(())
}

/// Answers with the style sheet or the script, whose text is not copied. `kind` is its
/// Content-Type.
pub fn put_sheet(
    response: &mut Response,
    kind: &'static str,
    text: &'static str,
    closes: bool,
) -> Result<(), AllocError>
    requires blank { IsBlank response.old }
    requires kind { IsTrue (is_visible_text kind.now) }
    ensures { OnOk result
        (IsResponse 200 (sheet_fields kind.now closes) text.now response.new) }
{
    put_sheet_fields(response, kind, closes)?;
    response.body.push(Bytes::from_static(text.as_bytes()))
}

/// Answers with the page or the table that the store gave, or `500 Internal Server Error` where
/// there is no memory for it. `kind` is its Content-Type.
pub fn show(
    response: &mut Response,
    kind: &'static str,
    told: Result<Reply, StoreFault>,
    closes: bool,
)
    requires blank { IsBlank response.old }
    requires kind { IsTrue (is_visible_text kind.now) }
    ensures { IsShown kind.now closes told response.new ⊎ IsLost response.new }
{
    if put_shown(response, kind, told, closes).is_err() {
        lose(response);
    }
}

/// Answers with the page, or with the refusal `Failed` where the store gave something else.
fn put_shown(
    response: &mut Response,
    kind: &'static str,
    told: Result<Reply, StoreFault>,
    closes: bool,
) -> Result<(), AllocError>
    requires blank { IsBlank response.old }
    requires kind { IsTrue (is_visible_text kind.now) }
    ensures { OnOk result (IsShown kind.now closes told response.new) }
{
    match told {
        Ok(Reply::Line(text)) => put_page(response, kind, text.items, closes),
        Ok(Reply::Ipp(_)) => refuse(response, Refusal::Failed, closes),
        Ok(Reply::NoAccount) => refuse(response, Refusal::Failed, closes),
        Ok(Reply::Documents(_)) => refuse(response, Refusal::Failed, closes),
        Ok(Reply::Short) => refuse(response, Refusal::Failed, closes),
        Err(_) => refuse(response, Refusal::Failed, closes),
    }
}

/// Answers with a page or a table, whose bytes are moved and not copied. Of an account that is not
/// open there is none, which is refused.
fn put_page(
    response: &mut Response,
    kind: &'static str,
    text: Vec<u8>,
    closes: bool,
) -> Result<(), AllocError>
    requires blank { IsBlank response.old }
    requires kind { IsTrue (is_visible_text kind.now) }
    ensures { OnOk result (IsPage kind.now closes text.items response.new) }
{
    if is_no_account(text.as_slice()) {
        refuse(response, Refusal::NotFound, closes)?;
        return Ok(());
    }
    put_shown_fields(response, kind, closes)?;
    response.body.push(shared(text)?)?;
    Ok(())
}

/// Whether the text is the word `no-account`: the account is not open.
fn is_no_account(text: &[u8]) -> bool
    ensures { result ≡ is_no_account text.now }
{
    text == b"no-account".as_slice()
}

/// Makes bytes that the answer shares, without a copy.
pub fn shared(bytes: Vec<u8>) -> Result<Bytes, AllocError>
    ensures { IfOk result (λ shared. shared ≡ bytes.items) }
{
    match Bytes::from_vec(bytes) {
        Ok(shared) => Ok(shared),
        Err(_) => Err(AllocError),
    }
}

/// Sends the browser to the owner's page with what came of an act, or answers `500 Internal Server
/// Error` where there is no memory for that.
pub(crate) fn tell(
    response: &mut Response,
    account: Name,
    act: Act,
    job: u32,
    told: Result<Answered, StoreFault>,
    closes: bool,
)
    requires { IsBlank response.old }
    ensures { IsDone account act job closes told response.new ⊎ IsLost response.new }
{
    if put_told(response, account, act, job, &told, closes).is_err() {
        lose(response);
    }
}

/// Sends the browser to the owner's page with what came of an act. An account that is not open is
/// refused.
fn put_told(
    response: &mut Response,
    account: Name,
    act: Act,
    job: u32,
    told: &Result<Answered, StoreFault>,
    closes: bool,
) -> Result<(), AllocError>
    requires { IsBlank response.old }
    ensures { OnOk result (IsDone account act job closes told.now response.new) }
{
    if is_not_open(told) {
        return refuse(response, Refusal::NotFound, closes);
    }
    let outcome = outcome_told(act, job, told);
    redirect(response, account, &outcome, closes)
}

/// Whether the act found that the account is not open.
fn is_not_open(told: &Result<Answered, StoreFault>) -> bool
    ensures { result ≡ is_not_open told.now }
{
    match told {
        Ok(answered) => tells_no_account(&answered.reply),
        Err(_) => false,
    }
}

/// Whether a reply tells that the account is not open.
fn tells_no_account(reply: &Reply) -> bool
    ensures { result ≡ tells_no_account reply.now }
{
    matches!(reply, Reply::NoAccount)
}

/// Answers `303 See Other` with the owner's page, whose query tells what came of an act (RFC 9110
/// section 15.4.4).
fn redirect(
    response: &mut Response,
    account: Name,
    outcome: &Outcome,
    closes: bool,
) -> Result<(), AllocError>
    requires { IsBlank response.old }
    ensures { OnOk result
        (IsRedirect (location account outcome.now) closes response.new) }
{
    let place = location(*response.headers.allocator(), account, outcome)?;
    response.status = StatusCode::SEE_OTHER;
    response.add_header(header::LOCATION, value_of(place)?)?;
    put_common_fields(response, closes)
}

/// Makes the path of the owner's page, with what came of an act as its query, and where it tells that.
#[tactic(auto, using(std::proofs::Common::append_assoc), unfolding(crate::specs::Responses::location))]
fn location(alloc: Global, account: Name, outcome: &Outcome) -> Result<Vec<u8>, AllocError>
    ensures { IfOk result (λ place. place.items ≡ location account outcome.now) }
{
    let mut place = Vec::new(alloc);
    place.push(b'/')?;
    place.extend_from_slice(account.bytes())?;
    place.push(b'?')?;
    put_outcome(&mut place, outcome)?;
    put_fragment(&mut place, outcome)?;
    Ok(place)
}

/// Appends where on the owner's page is told what came of the act.
fn put_fragment(out: &mut Vec<u8>, outcome: &Outcome) -> Result<(), AllocError>
    ensures { OnOk result (out.new.items ≡ out.old.items ++ fragment outcome.now) }
{
    match outcome {
        Outcome::Done {
            act: Act::Cancel,
            ..
        } => out.extend_from_slice(b"#waiting"),
        Outcome::Refused {
            act: Act::Print,
            ..
        } => out.extend_from_slice(b"#hand-in"),
        Outcome::Done { job, .. } | Outcome::Refused { job, .. } => put_row(out, *job),
        Outcome::Failed => Ok(()),
    }
}

/// Appends the fragment of the row of a job.
fn put_row(out: &mut Vec<u8>, job: u32) -> Result<(), AllocError>
    ensures { OnOk result (out.new.items ≡ out.old.items ++ (codes "#job-" ++ decimal job)) }
{
    let mut digits = Buffer::new();
    out.extend_from_slice(b"#job-")?;
    out.extend_from_slice(digits.format(job).as_bytes())
}

/// Makes the value of a field. Each byte of a `location` may stand in one.
fn value_of(text: Vec<u8>) -> Result<HeaderValue, AllocError>
    ensures { IfOk result (λ value. value.bytes ≡ text.items) }
{
    match HeaderValue::from_vec(text) {
        Ok(value) => Ok(value),
        Err(_) => Err(AllocError),
    }
}

/// Answers `500 Internal Server Error` and nothing else, where memory ran out.
pub fn lose(response: &mut Response)
    ensures { IsLost response.new }
{
    response.clear();
    response.status = StatusCode::INTERNAL_SERVER_ERROR;
}
