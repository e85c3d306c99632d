//! What the first line of an answer says: done, refused, failed, or how much follows.
ghost use Rattle.std.specs.Prelude.{◌≡◌, option_map};
ghost use Rattle.std.specs.List.{list_all};
ghost use Rattle.client_lines.specs.Answers.{after_list_word, answer_said, document_count_said, is_ok, is_text, is_text_byte, line_count_said, list_or_told};
ghost use Rattle.client_lines.specs.Replies.{lines_said};

use input_fields::number;

/// The most lines that may follow the first.
const MOST_LINES: u32 = 999_999;

/// What the first line of an answer says, as far as the client has to know.
#[derive(Clone, Copy, PartialEq, Eq)]
pub(crate) enum Answer {
    /// The event failed.
    Failed,
    /// The line that was sent is none of the grammar.
    BadLine,
    /// So many documents follow, at most 8.
    Documents(u8),
    /// So many lines follow, at most 999999.
    Lines(u32),
    /// It was done: `ok`, with what is told of it, or the rows are `sound`.
    Told,
    /// It was not done, for the reason that is this line.
    Refused,
}

impl Answer {
    /// Reads the first line of an answer. `None` where the line is to say how many documents or
    /// lines follow and does not.
    pub(crate) fn read(line: &[u8]) -> Option<Answer>
        ensures { result ≡ answer_said line.now }
    {
        if line == b"failed".as_slice() {
            return Some(Answer::Failed);
        }
        if line == b"bad-line".as_slice() {
            return Some(Answer::BadLine);
        }
        match line.strip_prefix(b"documents ") {
            Some(count) => Some(Answer::Documents(count_said(count)?)),
            None => list_or_told(line),
        }
    }

    /// How many lines follow the first, apart from those of documents.
    pub(crate) fn lines(self) -> u32
        ensures { result ≡ lines_said self }
    {
        match self {
            Answer::Lines(count) => count,
            _ => 0,
        }
    }
}

/// Reads how many documents follow: one digit, 0 to 8.
fn count_said(text: &[u8]) -> Option<u8>
    ensures { result ≡ document_count_said text.now }
{
    match text {
        [digit @ b'0'..=b'8'] => Some(*digit - b'0'),
        _ => None,
    }
}

/// Reads a line that tells of no documents: how many lines follow, or whether what was asked was
/// done. `None` where it begins with the word of a list, and no number follows.
fn list_or_told(line: &[u8]) -> Option<Answer>
    ensures { result ≡ list_or_told line.now (after_list_word line.now) }
{
    match after_list_word(line) {
        Some(count) => Some(Answer::Lines(line_count_said(count)?)),
        None if is_ok(line) => Some(Answer::Told),
        None => Some(Answer::Refused),
    }
}

/// Whether the line tells that what was asked was done: it is `ok`, begins with `ok` and a space,
/// or is `sound`.
fn is_ok(line: &[u8]) -> bool
    ensures { result ≡ is_ok line.now }
{
    line == b"ok".as_slice() || line.starts_with(b"ok ") || line == b"sound".as_slice()
}

/// Gives what comes behind the word of a list (`jobs`, `grants`, `accounts` or `devices`) and a
/// space, or `None` where the line begins with none.
fn after_list_word(line: &[u8]) -> Option<&[u8]>
    ensures { option_map (λ rest. rest.now) result ≡ after_list_word line.now }
{
    line.strip_prefix(b"jobs ")
        .or(line.strip_prefix(b"grants "))
        .or(line.strip_prefix(b"accounts "))
        .or(line.strip_prefix(b"devices "))
}

/// Reads how many lines follow: 0 to 999999 in decimal.
fn line_count_said(text: &[u8]) -> Option<u32>
    ensures { result ≡ line_count_said text.now }
{
    number(text, 0, MOST_LINES)
}

/// Whether a line may be printed: it is not empty, and has only spaces and printable ASCII.
pub fn is_text(line: &[u8]) -> bool
    ensures { result ≡ is_text line.now }
{
    if line.is_empty() {
        return false;
    }
    are_text_bytes(line)
}

/// Whether all bytes are spaces or printable ASCII.
fn are_text_bytes(line: &[u8]) -> bool
    ensures { result ≡ list_all is_text_byte line.now }
{
    line.iter().all(|byte| is_text_byte(*byte))
}

/// Whether the byte is a space or printable ASCII.
fn is_text_byte(byte: u8) -> bool
    ensures { result ≡ is_text_byte byte }
{
    b' ' <= byte && byte <= b'~'
}
