//! Writes months as lines have them: `YYYY-MM`.
ghost use Rattle.std.specs.Prelude.{◌≡◌, ◌+◌, ◌<◌, ◌≤◌, slice_index};
ghost use Rattle.input_fields.specs.Fields.{digit_said, month_said, two_digits_said};
ghost use Rattle.account_rules.specs.Limits.{first_month, last_month};
ghost use Rattle.client_lines.specs.Grants.{month_text, two_digits};

/// Writes a month as `YYYY-MM`. Its number is twelve times the year, and 0 for January to 11 for
/// December.
pub fn month_text(month: u32) -> [u8; 7]
    requires first { first_month ≤ month }
    requires last { month ≤ last_month }
    ensures text { result ≡ month_text month }
    ensures reads { month_said result ≡ Some month }
{
    let year = month / 12;
    let [a, b] = two_digits(year / 100);
    let [c, d] = two_digits(year % 100);
    let [e, f] = two_digits(month % 12 + 1);
    [a, b, c, d, b'-', e, f]
}

/// Writes a number below 100 with two digits.
fn two_digits(number: u32) -> [u8; 2]
    requires { number < 100 }
    ensures text { result ≡ two_digits number }
    ensures reads { two_digits_said (slice_index result 0) (slice_index result 1) ≡ Some number }
{
    [digit(number / 10), digit(number % 10)]
}

/// Writes a number below 10 as its digit.
fn digit(number: u32) -> u8
    requires { number < 10 }
    ensures text { result ≡ 48 + number }
    ensures reads { digit_said result ≡ Some number }
{
    b'0' + number as u8
}
