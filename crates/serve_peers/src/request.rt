//! What a request over HTTP asks for: whose queue it is for, or why it is refused; and whether it
//! brings a job or a document.
ghost use Rattle.std.specs.Prelude.{◌≡◌, option_copied};
ghost use Rattle.serve_peers.specs.Requests.{asked, has_ipp, has_long_body, is_ipp_value};
ghost use Rattle.serve_peers.specs.Space.{brings_job, needs_space};

use account_machine::Name;
use bytes::Bytes;
use http::{HeaderValue, Request, header};
use input_http::{Refusal, account_of, is_ipp_type, is_of_browser, is_post};
use ipp_coding::{HEADER_LENGTH, header_in};

/// A body of more bytes ends the connection, which would keep the memory that it took.
const LONG_BODY: usize = 1_048_576;

/// Whose queue the message in the request is for, or the first refusal that applies: `Forbidden`
/// where a browser sent it, `MethodNotAllowed`, `NotFound` for a path of no queue,
/// `UnsupportedMediaType`, and `BadRequest` for a body that ends within the header of its message.
pub(crate) fn asked(request: &Request<Bytes>) -> Result<Name, Refusal>
    ensures { result ≡ asked request.now }
{
    if is_of_browser(request) {
        return Err(Refusal::Forbidden);
    }
    if !is_post(request.method().as_str().as_bytes()) {
        return Err(Refusal::MethodNotAllowed);
    }
    let Some(account) = account_of(request.uri().path().as_bytes()) else {
        return Err(Refusal::NotFound);
    };
    if !has_ipp(request) {
        return Err(Refusal::UnsupportedMediaType);
    }
    if request.body().len() < HEADER_LENGTH {
        return Err(Refusal::BadRequest);
    }
    Ok(account)
}

/// Whether the request says that its body is a message of IPP.
fn has_ipp(request: &Request<Bytes>) -> bool
    ensures { result ≡ has_ipp request.now }
{
    is_ipp_value(request.headers().get(header::CONTENT_TYPE))
}

/// Whether this is the type of content of IPP; where the request has none, it is not.
fn is_ipp_value(value: Option<&HeaderValue>) -> bool
    ensures { result ≡ is_ipp_value (option_copied value.entry) }
{
    match value {
        None => false,
        Some(value) => is_ipp_type(value.as_bytes()),
    }
}

/// Whether the body is so long that the connection ends behind it: the buffer would keep the memory
/// that it took.
pub fn has_long_body(request: &Request<Bytes>) -> bool
    ensures { result ≡ has_long_body request.now }
{
    request.body().len() > LONG_BODY
}

/// Whether the body is a message of IPP that brings a job or a document, for which the disk has to
/// have space.
pub(crate) fn needs_space(body: &[u8]) -> bool
    ensures { result ≡ needs_space body.now }
{
    body.len() >= HEADER_LENGTH && brings_job(header_in(body).code)
}

/// Whether the body is a message of Cancel-Job (RFC 8011 section 5.4.15).
pub(crate) fn cancels(body: &[u8]) -> bool {
    body.len() >= HEADER_LENGTH && header_in(body).code == 0x0008
}

/// Whether it is the operation-id of Print-Job, Create-Job or Send-Document (RFC 8011 section
/// 5.4.15).
fn brings_job(id: u16) -> bool
    ensures { result ≡ brings_job id }
{
    id == 0x0002 || id == 0x0005 || id == 0x0006
}
