//! Decimal digits, without a sign.
ghost use Rattle.std.specs.Prelude.{◌≡◌, ◌≤◌, ◌<◌, ◌^◌, length, IsTrue};
ghost use Rattle.std.specs.Char.{is_ascii_digit};
ghost use Rattle.std.specs.List.{list_all};
ghost use Rattle.std.specs.Str.Parse.{digits_value};

/// Whether all bytes are decimal digits.
pub fn are_digits(bytes: &[u8]) -> bool
    ensures { result ≡ list_all is_ascii_digit bytes.now }
{
    bytes.iter().all(|byte| byte.is_ascii_digit())
}

/// The number that at most 18 decimal digits write.
pub fn number_of(digits: &[u8]) -> u64
    requires are_digits { IsTrue (list_all is_ascii_digit digits.now) }
    requires few { length digits.now ≤ 18 }
    ensures value { result ≡ digits_value 10 digits.now }
    ensures within { result < 10 ^ length digits.now }
{
    let mut number = 0;
    for digit in digits {
        number = number * 10 + u64::from(*digit - b'0');
    }
    number
}
