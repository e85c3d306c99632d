//! The number of a Content-Length.
ghost use Rattle.std.specs.Prelude.{◌≡◌, None, Some, if◌then◌else◌};
ghost use Rattle.std.specs.Str.Parse.{digits_value};
ghost use Rattle.listen_http.specs.Framing.{is_short_number};

use input_http::{are_digits, number_of};

/// The number that 1 to 18 decimal digits write. `None` for anything else.
pub(crate) fn short_number(digits: &[u8]) -> Option<u64>
    ensures { result
        ≡ (if is_short_number digits.now then Some (digits_value 10 digits.now) else None) }
{
    if digits.is_empty() || digits.len() > 18 || !are_digits(digits) {
        return None;
    }
    Some(number_of(digits))
}
