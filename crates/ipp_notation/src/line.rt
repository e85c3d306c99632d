//! Which lines of a text have a message, and the message's bytes.

ghost use Rattle.std.specs.Prelude.{◌≡◌, ◌↔◌, List, ℕ, IfOk, IfSome, IsNone, IsTrue, Ok, None};
ghost use Rattle.ipp_notation.specs.Lines.{HasMessage, HasNoMessage, IsOfScript, IsParted};

use crate::operation::Operation;
use crate::status::Status;
use input_fields::FieldFault;
use memchr::{memchr, memrchr};
use std::alloc::{AllocError, Global};
use std::fmt;

/// Where the line with a message comes from.
#[derive(Clone, Copy, PartialEq, Eq)]
enum Origin {
    /// `MOMENT ipp ACCOUNT DIGITS`, of a script: a request.
    Script,
    /// `ipp DIGITS`, of its output: a response.
    Output,
    /// The digits alone: a request where the code is an operation's, and otherwise a response.
    Alone,
}

/// A line that has a message, or what should be one.
#[derive(Drop)]
pub(crate) struct MessageLine<'a> {
    origin: Origin,
    /// What stands before the digits, without the space.
    pub words: &'a [u8],
    /// What the digits stand for.
    pub bytes: Vec<u8>,
}

impl<'a> MessageLine<'a> {
    /// Reads a line, without what ends it. `None` where it has no message: digits are one or more
    /// pairs of hexadecimal digits, and the moment and the account may be any words.
    pub(crate) fn read(alloc: Global, line: &'a [u8]) -> Result<Option<MessageLine<'a>>, AllocError>
        ensures message { IfOk result (λ found. IfSome found
            (λ m. HasMessage m.origin m.words.now m.bytes.items line.now)) }
        ensures other { result ≡ Ok None → HasNoMessage line.now }
    {
        let Some((origin, words, digits)) = parted(line) else {
            return Ok(None);
        };
        match input_fields::bytes(alloc, digits) {
            Ok(bytes) => Ok(Some(MessageLine {
                origin,
                words,
                bytes,
            })),
            Err(FieldFault::Malformed) => Ok(None),
            Err(FieldFault::Memory) => Err(AllocError),
        }
    }

    /// What the code of the line's message says: an operation, or a status.
    pub(crate) fn said(&self, code: u16) -> Said {
        match self.origin {
            Origin::Script => Said::Operation(Operation(code)),
            Origin::Alone if Operation(code).name().is_some() => Said::Operation(Operation(code)),
            Origin::Output | Origin::Alone => Said::Status(Status(code)),
        }
    }
}

/// Parts a line: where it is from, the words before its last one, and the last, which need be no
/// digits. `None` where the words are of none of the three forms.
fn parted(line: &[u8]) -> Option<(Origin, &[u8], &[u8])>
    ensures parted { IfSome result (λ x. IsParted x.0 x.1.now x.2.now line.now) }
    ensures other { IsNone result →
        (o : Origin) (words digits : List ℕ) → IsParted o words digits line.now → ⊥ }
{
    let Some(space) = memrchr(b' ', line) else {
        return Some((Origin::Alone, b"", line));
    };
    let (words, digits) = (&line[..space], &line[space + 1..]);
    if words == b"ipp".as_slice() {
        Some((Origin::Output, words, digits))
    } else if is_of_script(words) {
        Some((Origin::Script, words, digits))
    } else {
        None
    }
}

/// Whether they are three words, the second of which is `ipp`.
fn is_of_script(words: &[u8]) -> bool
    ensures { IsTrue result ↔ IsOfScript words.now }
{
    let Some(space) = memchr(b' ', words) else {
        return false;
    };
    match words[space..].strip_prefix(b" ipp ") {
        Some(account) => memchr(b' ', account).is_none(),
        None => false,
    }
}

/// What the code of a message says: of a request an operation, of a response a status.
#[derive(Clone, Copy)]
pub(crate) enum Said {
    Operation(Operation),
    Status(Status),
}

impl fmt::Display for Said {
    fn fmt<W: fmt::Write>(&self, f: &mut fmt::Formatter<W>) -> fmt::Result {
        match self {
            Said::Operation(operation) => write!(f, "{operation}"),
            Said::Status(status) => write!(f, "{status}"),
        }
    }
}
