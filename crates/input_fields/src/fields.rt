//! Parsers for single fields: numbers, months, choices and bytes.

ghost use Rattle.std.specs.Prelude.{◌≡◌, ◌≤◌, ◌<◌, ◌^◌, IfSome, IfOk, OnOk, IsErr, IsErrOf, Ok, length};
ghost use Rattle.std.specs.Option.{SomeIff};
ghost use Rattle.std.specs.Str.Parse.{digits_value};
ghost use Rattle.hex.specs.Hex.{decode_of};
ghost use Rattle.input_fields.specs.Fields.{IsDecimal, choice_said, digit_said, first_month, last_month, two_digits_said, month_said};

use hex::FromHexError;
use std::alloc::Global;
use std::str;
use thiserror::Error;

/// Why a field could not be read.
#[derive(Clone, Copy, Debug, PartialEq, Eq, Error)]
pub enum FieldFault {
    /// The bytes are not in the field's grammar.
    #[error("the field is malformed")]
    Malformed,
    #[error("memory ran out")]
    Memory,
}

/// Reads a number in decimal: `0`, or digits of which the first is not 0. `None` for anything else,
/// also for a sign, a leading zero, or 2^64 and more.
pub fn decimal(text: &[u8]) -> Option<u64>
    ensures { SomeIff result (IsDecimal text.now × (digits_value 10 text.now < 2 ^ 64))
        (digits_value 10 text.now) }
{
    match text {
        [b'0'] => Some(0),
        [b'1'..=b'9', ..] => {
            let Ok(digits) = str::from_utf8(text) else {
                return None;
            };
            digits.parse().ok()
        }
        _ => None,
    }
}

/// Reads a number in decimal, from `least` to `most`.
pub fn number(text: &[u8], least: u32, most: u32) -> Option<u32>
    ensures { SomeIff result
        (IsDecimal text.now × (least ≤ digits_value 10 text.now)
        × (digits_value 10 text.now ≤ most)) (digits_value 10 text.now) }
{
    let number = u32::try_from(decimal(text)?).ok()?;
    if least <= number && number <= most {
        Some(number)
    } else {
        None
    }
}

/// Reads a month as `YYYY-MM`, from 1970-01 to 2099-12. Its number is twelve times the year, and 0
/// for January to 11 for December.
pub fn month(text: &[u8]) -> Option<u32>
    ensures said { result ≡ month_said text.now }
    ensures within { IfSome result (λ m. (first_month ≤ m) × (m ≤ last_month)) }
{
    let [a, b, c, d, b'-', e, f] = text else {
        return None;
    };
    let year = two_digits(*a, *b)? * 100 + two_digits(*c, *d)?;
    let month = two_digits(*e, *f)?;
    if 1970 <= year && year <= 2099 && 1 <= month && month <= 12 {
        Some(year * 12 + month - 1)
    } else {
        None
    }
}

/// The number that two digits write. `None` where one is no digit.
fn two_digits(tens: u8, ones: u8) -> Option<u32>
    ensures said { result ≡ two_digits_said tens ones }
    ensures low { IfSome result (λ n. n < 100) }
{
    Some(digit(tens)? * 10 + digit(ones)?)
}

/// The value of a digit, 0 to 9. `None` for any other byte.
fn digit(byte: u8) -> Option<u32>
    ensures said { result ≡ digit_said byte }
    ensures low { IfSome result (λ n. n < 10) }
{
    match byte {
        b'0'..=b'9' => Some(u32::from(byte - b'0')),
        _ => None,
    }
}

/// Reads one of two words: whether it is `yes`, and `None` where it is neither. The two are
/// different.
pub fn choice(text: &[u8], yes: &[u8], no: &[u8]) -> Option<bool>
    ensures { result ≡ choice_said yes.now no.now text.now }
{
    if text == yes {
        Some(true)
    } else if text == no {
        Some(false)
    } else {
        None
    }
}

/// Reads bytes in hexadecimal: one or more pairs of digits, in lower or upper case.
pub fn bytes(alloc: Global, text: &[u8]) -> Result<Vec<u8>, FieldFault>
    ensures read { IfOk result (λ bytes. decode_of text.now ≡ Ok bytes.items) }
    ensures pairs { OnOk result (0 < length text.now) }
    ensures malformed { IsErrOf result FieldFault.Malformed → 0 < length text.now
        → IsErr (decode_of text.now) }
{
    if text.is_empty() {
        return Err(FieldFault::Malformed);
    }
    match hex::decode(alloc, text) {
        Ok(bytes) => Ok(bytes),
        Err(FromHexError::OutOfMemory) => Err(FieldFault::Memory),
        Err(_) => Err(FieldFault::Malformed),
    }
}
