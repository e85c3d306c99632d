//! The text of each word that tells why something is refused.

ghost use Rattle.std.specs.Prelude.{◌≡◌, ◌≤◌, length};
ghost use Rattle.account_replies.specs.Words.{word_name};

use account_rules::Word;

/// The text of the word, as lines and the status-message have it, without the numbers that may
/// follow.
pub fn word_name(word: Word) -> &'static [u8]
    ensures name { result.now ≡ word_name word }
    ensures short { length result.now ≤ 27 }
{
    match word {
        Word::Version => b"version",
        Word::Operation => b"operation",
        Word::Malformed => b"malformed",
        Word::CharsetAndLanguage => b"charset-and-language",
        Word::Charset => b"charset",
        Word::Target => b"target",
        Word::TargetTooLong => b"target-too-long",
        Word::NotThisQueue => b"not-this-queue",
        Word::Syntax => b"syntax",
        Word::Compression => b"compression",
        Word::DocumentFormat => b"document-format",
        Word::WhichJobs => b"which-jobs",
        Word::PasswordEncryptionMissing => b"password-encryption-missing",
        Word::PasswordEncryption => b"password-encryption",
        Word::PasswordTooLong => b"password-too-long",
        Word::JobNameTooLong => b"job-name-too-long",
        Word::Template => b"template",
        Word::DocumentTooLarge => b"document-too-large",
        Word::NoJob => b"no-job",
        Word::NotAccepting => b"not-accepting",
        Word::Closed => b"closed",
        Word::TooManyDocuments => b"too-many-documents",
        Word::Stopping => b"stopping",
        Word::Ended => b"ended",
        Word::Printing => b"printing",
        Word::Incomplete => b"incomplete",
        Word::Password => b"password",
        Word::ImpressionsUnknown => b"impressions-unknown",
        Word::Quota { .. } => b"quota",
        Word::NotHeld => b"not-held",
        Word::NotPending => b"not-pending",
        Word::NotProcessing => b"not-processing",
        Word::OtherDevice => b"other-device",
        Word::Rate => b"rate",
        Word::NoAccount => b"no-account",
        Word::NoDevice => b"no-device",
        Word::DeviceOff => b"device-off",
        Word::Exists => b"exists",
        Word::Same => b"same",
        Word::Conflict { .. } => b"conflict",
    }
}
