//! What a request is for, by its method, its path and its content type.
ghost use Rattle.std.specs.Prelude.{◌≡◌, ◌≤◌, bytes_eq, codes, length};
ghost use Rattle.input_http.specs.Targets.{account_of, is_ipp_type, is_job_part, queue_in};

use crate::digits::are_digits;
use crate::words::{before, without_margin};
use account_rules::{Name, QUEUES};

/// Whether the method is POST, which is compared with case (RFC 9110 section 9.1).
pub fn is_post(method: &[u8]) -> bool
    ensures { result ≡ bytes_eq method.now (codes "POST") }
{
    method == b"POST".as_slice()
}

/// The account that the target of a request names, open or not: `/ipp/print/NAME`, or
/// `/ipp/print/NAME/` and 1 to 6 digits, up to the first `?`. `None` for any other. Nothing is
/// percent-decoded.
pub fn account_of(target: &[u8]) -> Option<Name>
    ensures { result ≡ account_of target.now }
{
    queue_in(before(b'?', target).strip_prefix(QUEUES)?)
}

/// The account's name in what stands behind `/ipp/print/`.
fn queue_in(rest: &[u8]) -> Option<Name>
    ensures { result ≡ queue_in rest.now }
{
    let name = before(b'/', rest);
    if is_job_part(&rest[name.len()..]) {
        Name::read(name)
    } else {
        None
    }
}

/// Whether this may stand behind the name of a queue: nothing, or `/` and 1 to 6 digits.
fn is_job_part(part: &[u8]) -> bool
    ensures { result ≡ is_job_part part.now }
{
    match part {
        [] => true,
        [_, digits @ ..] => !digits.is_empty() && digits.len() <= 6 && are_digits(digits),
    }
}

/// Whether a value of Content-Type is `application/ipp`, whatever stands after a `;` (RFC 9110
/// section 8.3.1).
pub fn is_ipp_type(value: &[u8]) -> bool
    ensures { result ≡ is_ipp_type value.now }
{
    without_margin(b" ", before(b';', value)).eq_ignore_ascii_case(b"application/ipp")
}
