//! A value as the notation shows it (`Shown`), and the comment behind it that people read
//! (`Meaning`).

use crate::digits::Digits;
use crate::numbers::number_name;
use crate::syntaxes::{DateTime, Range, Resolution};
use crate::value_tag::{
    BOOLEAN, DATE_TIME, ENUM, INTEGER, NAME_WITH_LANGUAGE, RANGE_OF_INTEGER, RESOLUTION,
    TEXT_WITH_LANGUAGE, ValueTag,
};
use ipp_coding::{Value, bool_of, int_of, text_of};
use std::{fmt, str};

/// What begins a comment after something.
const COMMENT: &str = "  #";

/// A value in the notation: `""` where it is empty, hexadecimal digits where it is a number, a
/// truth, a date, a resolution or a range, and otherwise in quotes, or in hexadecimal digits where
/// it cannot stand in quotes.
#[derive(Clone, Copy)]
pub(crate) enum Shown<'a> {
    Digits(&'a [u8]),
    Text(&'a str),
    WithLanguage { language: &'a str, text: &'a str },
}

impl<'a> Shown<'a> {
    /// How this value is shown.
    pub(crate) fn of(value: Value<'a>) -> Shown<'a> {
        let bytes = value.bytes;
        let shown = match value.tag {
            _ if bytes.is_empty() => Some(Shown::Text("")),
            INTEGER | BOOLEAN | ENUM | DATE_TIME | RESOLUTION | RANGE_OF_INTEGER => None,
            TEXT_WITH_LANGUAGE | NAME_WITH_LANGUAGE => with_language(value),
            _ => quotable(bytes).map(Shown::Text),
        };
        shown.unwrap_or(Shown::Digits(bytes))
    }
}

impl fmt::Display for Shown<'_> {
    fn fmt<W: fmt::Write>(&self, f: &mut fmt::Formatter<W>) -> fmt::Result {
        match self {
            Shown::Digits(bytes) => write!(f, "{}", Digits(bytes)),
            Shown::Text(text) => write!(f, "\"{text}\""),
            Shown::WithLanguage { language, text } => {
                let (first, second) = (language.len(), text.len());
                write!(f, "{first:04x} \"{language}\" {second:04x} \"{text}\"")
            }
        }
    }
}

/// The two parts of a text or a name with its language, where both are texts that can stand in
/// quotes.
fn with_language(value: Value<'_>) -> Option<Shown<'_>> {
    let text = text_of(value)?;
    let (language, _) = value
        .bytes
        .get(2..)?
        .split_at_checked(value.bytes.len().checked_sub(4 + text.len())?)?;
    Some(Shown::WithLanguage {
        language: quotable(language)?,
        text: quotable(text)?,
    })
}

/// The text that the bytes are, where it can stand in quotes: ASCII without a quote or a control
/// character, and without what begins a comment.
fn quotable(bytes: &[u8]) -> Option<&str> {
    let text = str::from_utf8(bytes).ok()?;
    let is_plain = bytes
        .iter()
        .all(|byte| matches!(*byte, b' ' | b'!' | b'#'..=b'~'));
    if is_plain && !text.contains(COMMENT) {
        Some(text)
    } else {
        None
    }
}

/// What people read of a value of the attribute: the name of its tag, and what its digits say, if
/// it is shown in digits. A value that is none of its syntax is told to be malformed.
#[derive(Clone, Copy)]
pub(crate) struct Meaning<'a> {
    pub attribute: &'a [u8],
    pub value: Value<'a>,
    pub shown: Shown<'a>,
}

impl fmt::Display for Meaning<'_> {
    fn fmt<W: fmt::Write>(&self, f: &mut fmt::Formatter<W>) -> fmt::Result {
        let value = self.value;
        let tag = ValueTag(value.tag);
        write!(f, "{tag}")?;
        match value.tag {
            INTEGER => tell(f, int_of(value)),
            BOOLEAN => tell(f, bool_of(value)),
            ENUM => {
                let number = int_of(value);
                tell(f, number)?;
                match number.and_then(|number| number_name(self.attribute, number)) {
                    Some(name) => write!(f, " {name}"),
                    None => Ok(()),
                }
            }
            DATE_TIME => tell(f, DateTime::read(value.bytes)),
            RESOLUTION => tell(f, Resolution::read(value.bytes)),
            RANGE_OF_INTEGER => tell(f, Range::read(value.bytes)),
            TEXT_WITH_LANGUAGE | NAME_WITH_LANGUAGE if text_of(value).is_none() => {
                f.write_str(", malformed")
            }
            _ => match self.shown {
                Shown::Digits(_) => tell_text(f, text_of(value)),
                Shown::Text(_) | Shown::WithLanguage { .. } => Ok(()),
            },
        }
    }
}

/// Writes what the value says, or that it is malformed.
fn tell<W: fmt::Write, S: fmt::Display + Drop>(
    f: &mut fmt::Formatter<W>,
    said: Option<S>,
) -> fmt::Result {
    match said {
        Some(said) => write!(f, " {said}"),
        None => f.write_str(", malformed"),
    }
}

/// Writes the text of a value that is shown in digits, if it is a text.
fn tell_text<W: fmt::Write>(f: &mut fmt::Formatter<W>, text: Option<&[u8]>) -> fmt::Result {
    let Some(text) = text else {
        return Ok(());
    };
    match str::from_utf8(text) {
        Ok(text) => write!(f, " {text:?}"),
        Err(_) => f.write_str(", no UTF-8"),
    }
}
