//! How the header fields tell where the body of a message ends (RFC 9112 section 6).

ghost use Rattle.std.specs.Prelude.{◌≡◌, map};
ghost use Rattle.listen_http.specs.Fields.{plain_field};
ghost use Rattle.listen_http.specs.Framing.{framing_of};

use crate::digits::short_number;
use crate::fields::{Field, Found, find_field};

/// How a body is told to end.
#[derive(Clone, Copy, PartialEq, Eq)]
pub enum Framing {
    /// It has so many bytes.
    Length(u64),
    /// It comes in chunks.
    Chunked,
}

/// How the fields say that the body ends: by one Content-Length of 1 to 18 digits, or by one
/// Transfer-Encoding, which is `chunked`. With neither the body is empty. `None` where they say
/// anything else.
pub(crate) fn framing_of(fields: &[Field<'_>]) -> Option<Framing>
    ensures { result ≡ framing_of (map plain_field fields.now) }
{
    let length = find_field(fields, b"content-length");
    let coding = find_field(fields, b"transfer-encoding");
    match (length, coding) {
        (Found::Absent, Found::Absent) => Some(Framing::Length(0)),
        (Found::One(digits), Found::Absent) => Some(Framing::Length(short_number(digits)?)),
        (Found::Absent, Found::One(coding)) if coding.eq_ignore_ascii_case(b"chunked") => {
            Some(Framing::Chunked)
        }
        _ => None,
    }
}
