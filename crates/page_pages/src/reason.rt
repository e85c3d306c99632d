//! Why something was refused, in plain words for an account's owner.

ghost use Rattle.std.specs.Prelude.{◌≡◌, ◌++◌, OnOk};
ghost use Rattle.std.specs.Fmt.{signed_decimal};
ghost use Rattle.page_markup.specs.Parts.{html};
ghost use Rattle.page_pages.specs.Reasons.{quota_reason, reason, sentence_of};

use crate::texts::{
    NOTHING, QUOTA_ADVICE, UNITS_HAD, UNITS_NEEDED, WHY_CLOSED, WHY_CONFLICT, WHY_DEVICE_OFF,
    WHY_DOCUMENT_FORMAT, WHY_DOCUMENT_TOO_LARGE, WHY_ENDED, WHY_EXISTS, WHY_IMPRESSIONS_UNKNOWN,
    WHY_INCOMPLETE, WHY_JOB_NAME_TOO_LONG, WHY_NO_DEVICE, WHY_NO_JOB, WHY_NOT_ACCEPTING,
    WHY_OTHER_DEVICE, WHY_PASSWORD, WHY_PASSWORD_TOO_LONG, WHY_PRINTING, WHY_PROTOCOL, WHY_RATE,
    WHY_STATE, WHY_STOPPING, WHY_TARGET, WHY_TEMPLATE, WHY_TOO_MANY_DOCUMENTS,
};
use account_rules::Word;
use page_markup::{Piece, put_all, signed_text};
use std::alloc::AllocError;

/// Appends the sentence that tells why something was refused.
pub(crate) fn put_reason(out: &mut Vec<u8>, word: Word) -> Result<(), AllocError>
    ensures { OnOk result (out.new.items ≡ out.old.items ++ reason word) }
{
    match word {
        Word::Quota { need, left } => put_quota(out, need, left),
        _ => out.extend_from_slice(sentence_of(word).as_bytes()),
    }
}

/// Appends how many units were needed, and how many were left, which may be fewer than none.
pub(crate) fn put_quota(out: &mut Vec<u8>, need: u64, left: i64) -> Result<(), AllocError>
    ensures { OnOk result
        (out.new.items ≡ out.old.items ++ html (quota_reason need (signed_decimal left))) }
{
    let left = signed_text(*out.allocator(), left)?;
    put_quota_reason(out, need, left.as_str())
}

/// Gives the sentence of a word. That of the quota is empty: it has numbers, which `put_quota`
/// appends.
fn sentence_of(word: Word) -> &'static str
    ensures { result.now ≡ sentence_of word }
{
    match word {
        Word::Version
        | Word::Operation
        | Word::Malformed
        | Word::CharsetAndLanguage
        | Word::Charset
        | Word::Syntax
        | Word::Compression
        | Word::WhichJobs
        | Word::PasswordEncryptionMissing
        | Word::PasswordEncryption => WHY_PROTOCOL,
        Word::Target | Word::TargetTooLong | Word::NotThisQueue | Word::NoAccount => WHY_TARGET,
        Word::DocumentFormat => WHY_DOCUMENT_FORMAT,
        Word::PasswordTooLong => WHY_PASSWORD_TOO_LONG,
        Word::JobNameTooLong => WHY_JOB_NAME_TOO_LONG,
        Word::Template => WHY_TEMPLATE,
        Word::DocumentTooLarge => WHY_DOCUMENT_TOO_LARGE,
        Word::NoJob => WHY_NO_JOB,
        Word::NotAccepting => WHY_NOT_ACCEPTING,
        Word::Closed => WHY_CLOSED,
        Word::TooManyDocuments => WHY_TOO_MANY_DOCUMENTS,
        Word::Stopping => WHY_STOPPING,
        Word::Ended => WHY_ENDED,
        Word::Printing => WHY_PRINTING,
        Word::Incomplete => WHY_INCOMPLETE,
        Word::Password => WHY_PASSWORD,
        Word::ImpressionsUnknown => WHY_IMPRESSIONS_UNKNOWN,
        Word::Quota { .. } => NOTHING,
        Word::NotHeld | Word::NotPending | Word::NotProcessing => WHY_STATE,
        Word::OtherDevice => WHY_OTHER_DEVICE,
        Word::Rate => WHY_RATE,
        Word::NoDevice => WHY_NO_DEVICE,
        Word::DeviceOff => WHY_DEVICE_OFF,
        Word::Exists | Word::Same => WHY_EXISTS,
        Word::Conflict { .. } => WHY_CONFLICT,
    }
}

/// Appends the sentence of the quota. What was left comes as a text.
fn put_quota_reason(out: &mut Vec<u8>, need: u64, left: &str) -> Result<(), AllocError>
    ensures { OnOk result (out.new.items ≡ out.old.items ++ html (quota_reason need left.now)) }
{
    put_all(
        out,
        &[
            Piece::Mark(UNITS_NEEDED),
            Piece::Number(need),
            Piece::Mark(UNITS_HAD),
            Piece::Mark(left),
            Piece::Mark(QUOTA_ADVICE),
        ],
    )
}
