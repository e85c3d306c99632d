//! The HTTP statuses of refusals.
ghost use Rattle.std.specs.Prelude.{◌≡◌};
ghost use Rattle.serve_web.specs.Refusals.{status_of};

use http::StatusCode;
use page_pages::Refusal;

/// Gives the HTTP status of a refusal (RFC 9110 section 15).
pub fn status_of(refusal: Refusal) -> StatusCode
    ensures { result ≡ status_of refusal }
{
    match refusal {
        Refusal::BadRequest => StatusCode::BAD_REQUEST,
        Refusal::Misdirected => StatusCode::MISDIRECTED_REQUEST,
        Refusal::Forbidden => StatusCode::FORBIDDEN,
        Refusal::NoOperator => StatusCode::FORBIDDEN,
        Refusal::NotFound => StatusCode::NOT_FOUND,
        Refusal::OnlyRead => StatusCode::METHOD_NOT_ALLOWED,
        Refusal::OnlyPost => StatusCode::METHOD_NOT_ALLOWED,
        Refusal::TooLarge => StatusCode::PAYLOAD_TOO_LARGE,
        Refusal::WrongType => StatusCode::UNSUPPORTED_MEDIA_TYPE,
        Refusal::NoPassword => StatusCode::BAD_REQUEST,
        Refusal::NoSpace => StatusCode::SERVICE_UNAVAILABLE,
        Refusal::Busy => StatusCode::SERVICE_UNAVAILABLE,
        Refusal::Failed => StatusCode::INTERNAL_SERVER_ERROR,
    }
}
