//! The queues' service of HTTP: each request is one message of IPP that is applied, or is refused.
ghost use Rattle.std.specs.Prelude.{◌≡◌, ◌⊎◌, ◌≤◌, ◌++◌, [], length, OnErr, OnOk};
ghost use Rattle.http.specs.Request.{body_of};
ghost use Rattle.http_server.specs.Response.{IsBlank, IsResponse, fields_of};
ghost use Rattle.ipp_coding.specs.Limits.{header_length};
ghost use Rattle.account_replies.specs.Replies.{internal_error_text};
ghost use Rattle.serve_peers.specs.Requests.{has_long_body};
ghost use Rattle.serve_peers.specs.Answers.{Answers, IsLost, IsRefusal, IsTold, Sends, answer_fields, close_fields};

use crate::entry::Entry;
use crate::into_bytes::into_bytes;
use crate::outcome::reply_of;
use crate::request::{asked, has_long_body};
use crate::served::Served;
use account_machine::{Name, Reply, internal_error};
use bytes::{BufMut, Bytes};
use http::{HeaderValue, Request, StatusCode, header};
use http_server::{Response, Service};
use input_http::Refusal;
use ipp_coding::{Header, header_in};
use sqlite::Alter;
use std::alloc::AllocError;
use store_rounds::StoreFault;

impl<S: Alter> Service for Served<S> {
    ghost answers = { Answers S.Store };

    /// Answers one request over HTTP: refuses it, or applies its message.
    fn call(
        &mut self,
        request: &Request<Bytes>,
        response: &mut Response,
    ) -> Result<(), AllocError> {
        match asked(request) {
            Err(refusal) => self.refuse_and_log(refusal, request, response),
            Ok(_) if self.lacks_space(request) => {
                self.refuse_and_log(Refusal::NoSpace, request, response)
            }
            Ok(account) => self.answer(account, request, response),
        }
    }
}

impl<S: Alter> Served<S> {
    /// Refuses a request, which changes nothing, and has the log tell it.
    fn refuse_and_log(
        &mut self,
        refusal: Refusal,
        request: &Request<Bytes>,
        response: &mut Response,
    ) -> Result<(), AllocError>
        requires { IsBlank response.old }
        ensures ok { OnOk result
            (IsRefusal refusal (has_long_body request.now) response.new) }
        ensures same { self.new ≡ self.old }
    {
        self.log_refusal(refusal, request.uri().path().as_bytes());
        refuse(response, refusal, has_long_body(request))
    }

    /// Applies the message in a request, once, and puts what that came to into the response.
    fn answer(
        &mut self,
        account: Name,
        request: &Request<Bytes>,
        response: &mut Response,
    ) -> Result<(), AllocError>
        requires blank { IsBlank response.old }
        requires long { header_length ≤ length (body_of request.now) }
        ensures ok { OnOk result
            (Sends S.Store account self.old request.now response.new self.new) }
        ensures err { OnErr result (self.new ≡ self.old) }
    {
        let body = request.body().clone()?;
        let entry = Entry::Message {
            moment: self.moment,
            account,
            body,
        };
        let told = self.apply(entry)?;
        let header = header_in(request.body().as_slice());
        tell(response, reply_of(told), header, has_long_body(request));
        Ok(())
    }
}

/// Puts what a message came to into the response, or `500 Internal Server Error` where there is no
/// memory for its text: then the answer is lost, though the message was applied.
fn tell(response: &mut Response, told: Result<Reply, StoreFault>, header: Header, closes: bool)
    requires { IsBlank response.old }
    ensures { IsTold header closes told response.new ⊎ IsLost response.new }
{
    if put_told(response, told, header, closes).is_err() {
        response.clear();
        response.status = StatusCode::INTERNAL_SERVER_ERROR;
    }
}

/// Puts what a message came to into the response: an answer of IPP, or `404 Not Found` where there
/// is no account. No message is answered by anything else, so that would be an internal error.
fn put_told(
    response: &mut Response,
    told: Result<Reply, StoreFault>,
    header: Header,
    closes: bool,
) -> Result<(), AllocError>
    requires { IsBlank response.old }
    ensures { OnOk result (IsTold header closes told response.new) }
{
    match told {
        Ok(Reply::Ipp(answer)) => put_answer(response, answer.items, closes),
        Ok(Reply::NoAccount) => refuse(response, Refusal::NotFound, closes),
        Ok(Reply::Line(_)) => put_internal_error(response, header, closes),
        Ok(Reply::Documents(_)) => put_internal_error(response, header, closes),
        Ok(Reply::Short) => put_internal_error(response, header, closes),
        Err(_) => put_internal_error(response, header, closes),
    }
}

/// Puts an answer of IPP into the response. Its bytes are moved, not copied.
fn put_answer(response: &mut Response, answer: Vec<u8>, closes: bool) -> Result<(), AllocError>
    requires { IsBlank response.old }
    ensures { OnOk result (IsResponse 200 (answer_fields closes) answer.items response.new) }
{
    put_head(response, closes)?;
    response.body.push(into_bytes(answer)?)
}

/// Puts the answer of IPP that says that the message could not be carried out,
/// `server-error-internal-error` (RFC 8011 section B.1.5.1).
fn put_internal_error(
    response: &mut Response,
    header: Header,
    closes: bool,
) -> Result<(), AllocError>
    requires { IsBlank response.old }
    ensures { OnOk result
        (IsResponse 200 (answer_fields closes) (internal_error_text header) response.new) }
{
    put_head(response, closes)?;
    response.body.put_slice(&internal_error(header))
}

/// Puts the header fields of an answer of IPP. `closes`: with one that ends the connection.
fn put_head(response: &mut Response, closes: bool) -> Result<(), AllocError>
    requires { IsBlank response.old }
    ensures { OnOk result (IsResponse 200 (answer_fields closes) [] response.new) }
{
    let kind = HeaderValue::from_static("application/ipp");
    response.add_header(header::CONTENT_TYPE, kind)?;
    put_close(response, closes)
}

/// Adds `Connection: close`, where the connection is to end.
pub fn put_close(response: &mut Response, closes: bool) -> Result<(), AllocError>
    ensures status { response.new.status ≡ response.old.status }
    ensures body { response.new.body ≡ response.old.body }
    ensures fields { OnOk result
        (fields_of response.new ≡ fields_of response.old ++ close_fields closes) }
{
    if closes {
        let close = HeaderValue::from_static("close");
        response.add_header(header::CONNECTION, close)?;
    }
    Ok(())
}

/// Puts a refusal, which has no body. That of another method names the one that there is, and that
/// for want of space tells to ask again after a minute.
fn refuse(response: &mut Response, refusal: Refusal, closes: bool) -> Result<(), AllocError>
    requires { IsBlank response.old }
    ensures { OnOk result (IsRefusal refusal closes response.new) }
{
    response.status = refusal.status();
    match refusal {
        Refusal::MethodNotAllowed => {
            let post = HeaderValue::from_static("POST");
            response.add_header(header::ALLOW, post)?;
        }
        Refusal::NoSpace => {
            let minute = HeaderValue::from_static("60");
            response.add_header(header::RETRY_AFTER, minute)?;
        }
        _ => {}
    }
    put_close(response, closes)
}
