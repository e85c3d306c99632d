//! Reads from a query the word that tells why something was refused.
ghost use Rattle.std.specs.Prelude.{◌≡◌, find, option_copied};
ghost use Rattle.serve_web.specs.Words.{names_word, quota_in, word_in, word_named};
ghost use Rattle.serve_web.specs.Numbers.{signed_said};
ghost use Rattle.serve_web.specs.declared.word.TheConstants.{WORDS};

use crate::digits::large_number;
use account_replies::word_name;
use account_rules::Word;
use input_http::before;

/// The words of refusals that have no numbers.
const WORDS: [Word; 38] = [
    Word::Version,
    Word::Operation,
    Word::Malformed,
    Word::CharsetAndLanguage,
    Word::Charset,
    Word::Target,
    Word::TargetTooLong,
    Word::NotThisQueue,
    Word::Syntax,
    Word::Compression,
    Word::DocumentFormat,
    Word::WhichJobs,
    Word::PasswordEncryptionMissing,
    Word::PasswordEncryption,
    Word::PasswordTooLong,
    Word::JobNameTooLong,
    Word::Template,
    Word::DocumentTooLarge,
    Word::NoJob,
    Word::NotAccepting,
    Word::Closed,
    Word::TooManyDocuments,
    Word::Stopping,
    Word::Ended,
    Word::Printing,
    Word::Incomplete,
    Word::Password,
    Word::ImpressionsUnknown,
    Word::NotHeld,
    Word::NotPending,
    Word::NotProcessing,
    Word::OtherDevice,
    Word::Rate,
    Word::NoAccount,
    Word::NoDevice,
    Word::DeviceOff,
    Word::Exists,
    Word::Same,
];

/// Reads the word of a text. The numbers of a quota stand behind its word, each behind a `+`.
pub(crate) fn word_in(text: &[u8]) -> Option<Word>
    ensures { result ≡ word_in text.now }
{
    match text.strip_prefix(b"quota+".as_slice()) {
        Some(numbers) => quota_in(numbers),
        None => word_named(text),
    }
}

/// Finds the word that has this text.
fn word_named(text: &[u8]) -> Option<Word>
    ensures { result ≡ word_named text.now }
{
    first_named(text).copied()
}

/// Finds the first of `WORDS` that has this text.
fn first_named(text: &[u8]) -> Option<&'static Word>
    ensures { option_copied result ≡ find (names_word text.now) WORDS }
{
    WORDS.iter().find(|word| names_word(text, word))
}

/// Whether the text is that of the word.
fn names_word(text: &[u8], word: &Word) -> bool
    ensures { result ≡ names_word text.now word.now }
{
    text == word_name(*word)
}

/// Reads the numbers of a quota: the units that were needed, a `+`, and the units that were left.
fn quota_in(numbers: &[u8]) -> Option<Word>
    ensures { result ≡ quota_in numbers.now }
{
    let digits = before(b'+', numbers);
    let need = large_number(digits)?;
    let left = signed(numbers[digits.len()..].strip_prefix(b"+".as_slice())?)?;
    Some(Word::Quota { need, left })
}

/// Reads a number of 1 to 18 digits, with a `-` before them where it is negative.
fn signed(text: &[u8]) -> Option<i64>
    ensures { result ≡ signed_said text.now }
{
    match text {
        [b'-', digits @ ..] => Some(-(large_number(digits)? as i64)),
        _ => Some(large_number(text)? as i64),
    }
}
