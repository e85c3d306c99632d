//! Reads the numbers of a path or a query.
ghost use Rattle.std.specs.Prelude.{◌≡◌, ◌<◌, IfSome};
ghost use Rattle.serve_web.specs.Numbers.{is_number, large_said, number_said};

use input_http::{are_digits, number_of};

/// Reads a number of 1 to 8 digits. `None` where the text is anything else.
pub(crate) fn number(digits: &[u8]) -> Option<u32>
    ensures { result ≡ number_said digits.now }
{
    if is_number(8, digits) {
        Some(number_of(digits) as u32)
    } else {
        None
    }
}

/// Reads a number of 1 to 18 digits. `None` where the text is anything else.
pub(crate) fn large_number(digits: &[u8]) -> Option<u64>
    ensures said { result ≡ large_said digits.now }
    ensures within { IfSome result (λ number. number < 1000000000000000000) }
{
    if is_number(18, digits) {
        Some(number_of(digits))
    } else {
        None
    }
}

/// Whether the text has digits alone: at least one, and at most so many.
fn is_number(most: usize, digits: &[u8]) -> bool
    ensures { result ≡ is_number most digits.now }
{
    !digits.is_empty() && digits.len() <= most && are_digits(digits)
}
