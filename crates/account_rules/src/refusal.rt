//! Why something is refused: a word, and the IPP status code that goes with it.

ghost use Rattle.std.specs.Prelude.{◌≡◌};
ghost use Rattle.account_rules.specs.declared.refusal.Word.TheVariants.{TooManyDocuments};

/// The word that tells why something is refused.
#[derive(Clone, Copy, PartialEq, Eq)]
pub enum Word {
    // Requests.
    Version,
    Operation,
    Malformed,
    CharsetAndLanguage,
    Charset,
    Target,
    TargetTooLong,
    NotThisQueue,
    Syntax,
    Compression,
    DocumentFormat,
    WhichJobs,
    PasswordEncryptionMissing,
    PasswordEncryption,
    PasswordTooLong,
    JobNameTooLong,
    Template,
    DocumentTooLarge,
    NoJob,
    NotAccepting,
    // Acts on a job.
    Closed,
    TooManyDocuments,
    Stopping,
    Ended,
    Printing,
    Incomplete,
    Password,
    ImpressionsUnknown,
    /// The units that a release needs are more than what is left.
    Quota { need: u64, left: i64 },
    NotHeld,
    NotPending,
    NotProcessing,
    OtherDevice,
    Rate,
    // Stations, accounts and grants.
    NoAccount,
    NoDevice,
    DeviceOff,
    Exists,
    Same,
    /// The month has a grant of other pages, which are held.
    Conflict { held: u32 },
}

/// Why something is refused: a word, and the IPP status code that goes with it (RFC 8011 appendix
/// B).
#[derive(Clone, Copy, PartialEq, Eq)]
pub struct Refusal {
    pub status: u16,
    pub word: Word,
}

impl Refusal {
    /// Refuses for the reason that the word says, as client-error-not-possible.
    pub(crate) fn not_possible(word: Word) -> Refusal
        ensures { result ≡ record { status = 0x0404; word = word } }
    {
        Refusal {
            status: 0x0404,
            word,
        }
    }

    /// Refuses a further document of a job that has as many as it may have.
    pub(crate) fn too_many_documents() -> Refusal
        ensures { result ≡ record { status = 0x0509; word = TooManyDocuments } }
    {
        Refusal {
            status: 0x0509,
            word: Word::TooManyDocuments,
        }
    }
}
