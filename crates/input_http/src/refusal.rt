//! `Refusal`: why an HTTP message is refused, with the status of each.

ghost use Rattle.std.specs.Prelude.{◌≡◌, ◌≤◌, [], length, unwrap_or};
ghost use Rattle.input_http.specs.Limits.{longest_phrase};
ghost use Rattle.http.specs.StatusCode.{reason_phrase};
ghost use Rattle.input_http.specs.Texts.{status_of};

use http::StatusCode;

/// Why an HTTP message is not carried out. The connection ends with it.
#[derive(Clone, Copy, PartialEq, Eq)]
pub enum Refusal {
    /// What came is no message of HTTP, or none of this profile.
    BadRequest,
    /// A page of some site sent it.
    Forbidden,
    /// The path is of no queue, or of one that is not open.
    NotFound,
    /// It is no POST.
    MethodNotAllowed,
    /// Its body is longer than 16842752 bytes.
    PayloadTooLarge,
    /// Its body is no message of IPP.
    UnsupportedMediaType,
    /// Its head is longer than 16384 bytes.
    HeadTooLarge,
    /// The disk has no space for what it brings. Only who keeps space refuses so.
    NoSpace,
}

impl Refusal {
    /// The status of its answer (RFC 9110 section 15.5, and 15.6.4 for `NoSpace`; RFC 6585 section
    /// 5 for `HeadTooLarge`).
    pub fn status(self) -> StatusCode
        ensures value { result ≡ status_of self }
        ensures phrase { length (unwrap_or (reason_phrase result) []) ≤ longest_phrase }
    {
        match self {
            Refusal::BadRequest => StatusCode::BAD_REQUEST,
            Refusal::Forbidden => StatusCode::FORBIDDEN,
            Refusal::NotFound => StatusCode::NOT_FOUND,
            Refusal::MethodNotAllowed => StatusCode::METHOD_NOT_ALLOWED,
            Refusal::PayloadTooLarge => StatusCode::PAYLOAD_TOO_LARGE,
            Refusal::UnsupportedMediaType => StatusCode::UNSUPPORTED_MEDIA_TYPE,
            Refusal::HeadTooLarge => StatusCode::REQUEST_HEADER_FIELDS_TOO_LARGE,
            Refusal::NoSpace => StatusCode::SERVICE_UNAVAILABLE,
        }
    }
}
