//! `Syntax`: what a value has to be under its attribute, and the readers of names and numbers.

ghost use Rattle.std.specs.Prelude.{◌≡◌, ◌≤◌, IfSome, map, option_copied, option_map};
ghost use Rattle.std.specs.List.{list_all};
ghost use Rattle.ipp_coding.specs.Plain.{plain_value};
ghost use Rattle.account_rules.specs.Limits.{most_impressions};
ghost use Rattle.account_asks.specs.Requests.{lone_value};
ghost use Rattle.account_asks.specs.declared.syntax.Syntax.TheVariants.{Keywords};
ghost use Rattle.account_asks.specs.Syntaxes.{is_lone, name_said, is_name_tag, from_zero, from_one, integer_said, count_said, positive_said, is_value_of, are_values_of};

use ipp_coding::tags::{
    INTEGER, KEYWORD, MIME_MEDIA_TYPE, NAME_WITH_LANGUAGE, NAME_WITHOUT_LANGUAGE, OCTET_STRING,
};
use ipp_coding::{Value, bool_of, int_of, text_of};

/// What a value of an attribute has to be (RFC 8011 section 5.1).
#[derive(Clone, Copy, PartialEq, Eq)]
pub(crate) enum Syntax {
    /// With or without a language.
    Name,
    Boolean,
    /// An integer that is at least 0.
    Count,
    /// An integer that is at least 1.
    Positive,
    Octets,
    Keyword,
    /// One or more.
    Keywords,
    MediaType,
}

impl Syntax {
    /// Whether the values of an attribute are of the syntax.
    pub(crate) fn fits(self, values: &[Value<'_>]) -> bool
        ensures { result ≡ are_values_of self (map plain_value values.now) }
    {
        match self {
            Syntax::Keywords => are_keywords(values),
            _ => self.fits_lone(values),
        }
    }

    /// Whether there is one value, and it is of the syntax.
    fn fits_lone(self, values: &[Value<'_>]) -> bool
        ensures { result ≡ is_lone self (lone_value (map plain_value values.now)) }
    {
        match lone_value(values) {
            Some(value) => self.fits_value(value),
            None => false,
        }
    }

    /// Whether the value is of the syntax; of `Keywords`, whether it can be one of them. Of octets,
    /// keywords and media types the tag tells.
    fn fits_value(self, value: Value<'_>) -> bool
        ensures { result ≡ is_value_of self (plain_value value.entry) }
    {
        match self {
            Syntax::Name => name_of(value).is_some(),
            Syntax::Boolean => bool_of(value).is_some(),
            Syntax::Count => count_of(value).is_some(),
            Syntax::Positive => positive_of(value).is_some(),
            Syntax::Octets => value.tag == OCTET_STRING,
            Syntax::Keyword | Syntax::Keywords => is_keyword(&value),
            Syntax::MediaType => value.tag == MIME_MEDIA_TYPE,
        }
    }
}

fn are_keywords(values: &[Value<'_>]) -> bool
    ensures { result ≡ list_all (λ v. is_value_of Keywords (plain_value v)) values.now }
{
    values.iter().all(|value| is_keyword(value))
}

/// Whether the value has the tag of a keyword. Its bytes are not looked at.
fn is_keyword(value: &Value<'_>) -> bool
    ensures { result ≡ is_value_of Keywords (plain_value value.now) }
{
    value.tag == KEYWORD
}

/// The value of an attribute that has just one. None where it has several.
pub fn lone_value<'a>(values: &[Value<'a>]) -> Option<Value<'a>>
    ensures { option_map plain_value result ≡ lone_value (map plain_value values.now) }
{
    match values {
        [value] => Some(*value),
        _ => None,
    }
}

/// The bytes of a name, without its language. None for a value of another syntax.
pub(crate) fn name_of<'a>(value: Value<'a>) -> Option<&'a [u8]>
    ensures { option_map (λ text. text.now) result ≡ name_said (plain_value value.entry) }
{
    if is_name_tag(value.tag) {
        text_of(value)
    } else {
        None
    }
}

/// Whether the tag is that of a name, with or without a language.
fn is_name_tag(tag: u8) -> bool
    ensures { result ≡ is_name_tag tag }
{
    tag == NAME_WITHOUT_LANGUAGE || tag == NAME_WITH_LANGUAGE
}

/// Reads an integer that is at least 0. None for any other value.
pub(crate) fn count_of(value: Value<'_>) -> Option<u32>
    ensures said { result ≡ count_said (plain_value value.entry) }
    ensures within { IfSome result (λ count. count ≤ most_impressions) }
{
    from_zero(integer_of(value)?)
}

/// Reads an integer that is at least 1. None for any other value.
pub(crate) fn positive_of(value: Value<'_>) -> Option<u32>
    ensures said { result ≡ positive_said (plain_value value.entry) }
    ensures within { IfSome result (λ count. 1 ≤ count) }
{
    from_one(count_of(value)?)
}

/// The number, where it is at least 0.
fn from_zero(number: i32) -> Option<u32>
    ensures value { result ≡ from_zero number }
    ensures within { IfSome result (λ count. count ≤ most_impressions) }
{
    u32::try_from(number).ok()
}

/// The number, where it is at least 1.
fn from_one(count: u32) -> Option<u32>
    ensures value { result ≡ from_one count }
    ensures within { IfSome result (λ count. 1 ≤ count) }
{
    if count == 0 { None } else { Some(count) }
}

/// Reads an integer. None for any other value, an enum among them.
pub(crate) fn integer_of(value: Value<'_>) -> Option<i32>
    ensures { result ≡ integer_said (plain_value value.entry) }
{
    if value.tag == INTEGER {
        int_of(value)
    } else {
        None
    }
}
