//! Judging a head: why it is refused, or what it orders.
ghost use Rattle.std.specs.Prelude.{◌≡◌, IfOk, codes, map};
ghost use Rattle.std.specs.List.{list_any};
ghost use Rattle.listen_http.specs.Fields.{plain_field, values_named};
ghost use Rattle.listen_http.specs.Judging.{FitsLimit, closes, expects, is_close, is_expectation, is_ipp, passes_limit, judged, said};

use crate::fields::{Field, Found, find_field};
use crate::framing::{Framing, framing_of};
use crate::words::lists;
use account_rules::Name;
use input_http::{BODY_LIMIT, Refusal, account_of, is_ipp_type, is_post};

/// The head of a request, in its parts.
#[derive(Clone, Copy)]
pub struct Request<'a> {
    pub method: &'a [u8],
    pub target: &'a [u8],
    /// Of its version, HTTP/1.0 or HTTP/1.1.
    pub minor: u8,
    pub fields: &'a [Field<'a>],
}

/// What a head that is not refused asks for.
#[derive(Clone, Copy)]
pub struct Order {
    /// Whose queue the message is for.
    pub account: Name,
    /// Where its body ends.
    pub framing: Framing,
    /// Whether the client waits for `100 Continue` before it sends the body.
    pub expects: bool,
    /// Whether the connection ends with the answer.
    pub closes: bool,
}

/// Judges a head: what it orders, or the first refusal that applies. `BadRequest` where its fields
/// do not frame a body, `MethodNotAllowed`, `NotFound` for a path of no queue,
/// `UnsupportedMediaType`, `PayloadTooLarge` for a Content-Length past `BODY_LIMIT`.
#[tactic(auto, unfolding(crate::specs::Judging::judged))]
pub fn judge(request: &Request<'_>) -> Result<Order, Refusal>
    ensures value { result ≡ judged (said request.now) }
    ensures fits { IfOk result (λ order. FitsLimit order.framing) }
{
    let Some(framing) = framing_of(request.fields) else {
        return Err(Refusal::BadRequest);
    };
    if !is_post(request.method) {
        return Err(Refusal::MethodNotAllowed);
    }
    let Some(account) = account_of(request.target) else {
        return Err(Refusal::NotFound);
    };
    if !is_ipp(request.fields) {
        return Err(Refusal::UnsupportedMediaType);
    }
    if framing.passes_limit() {
        return Err(Refusal::PayloadTooLarge);
    }
    Ok(Order {
        account,
        framing,
        expects: request.expects(),
        closes: request.closes(),
    })
}

/// Whether the first Content-Type is `application/ipp`, whatever stands after a `;`.
fn is_ipp(fields: &[Field<'_>]) -> bool
    ensures { result ≡ is_ipp (values_named (codes "content-type") (map plain_field fields.now)) }
{
    match find_field(fields, b"content-type") {
        Found::Absent => false,
        Found::One(value) => is_ipp_type(value),
        Found::Many(first) => is_ipp_type(first),
    }
}

impl Framing {
    /// Whether a Content-Length is more than a body may have.
    fn passes_limit(self) -> bool
        ensures { result ≡ passes_limit self }
    {
        match self {
            Framing::Length(size) => size > BODY_LIMIT as u64,
            Framing::Chunked => false,
        }
    }
}

impl Request<'_> {
    /// Whether the client waits for `100 Continue` before it sends the body (RFC 9110 section
    /// 10.1.1). One of HTTP/1.0 never does.
    fn expects(&self) -> bool
        ensures { result ≡ expects (said self.now) }
    {
        self.minor == 1 && has_expectation(self.fields)
    }

    /// Whether the connection ends with the answer: always of HTTP/1.0, and where the client says
    /// so (RFC 9112 section 9.6).
    fn closes(&self) -> bool
        ensures { result ≡ closes (said self.now) }
    {
        self.minor == 0 || has_close(self.fields)
    }
}

/// Whether a field is `Expect: 100-continue`.
fn has_expectation(fields: &[Field<'_>]) -> bool
    ensures { result ≡ list_any (λ field. is_expectation (plain_field field)) fields.now }
{
    fields.iter().any(|field| field.is_expectation())
}

/// Whether a field is a `Connection` that lists `close`.
fn has_close(fields: &[Field<'_>]) -> bool
    ensures { result ≡ list_any (λ field. is_close (plain_field field)) fields.now }
{
    fields.iter().any(|field| field.is_close())
}

impl Field<'_> {
    /// Whether it is `Expect: 100-continue`.
    fn is_expectation(&self) -> bool
        ensures { result ≡ is_expectation (plain_field self.now) }
    {
        self.is_named(b"expect") && self.value.eq_ignore_ascii_case(b"100-continue")
    }

    /// Whether it is a `Connection` field that lists `close`.
    fn is_close(&self) -> bool
        ensures { result ≡ is_close (plain_field self.now) }
    {
        self.is_named(b"connection") && lists(b"close", self.value)
    }
}
