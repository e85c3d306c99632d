//! Takes one line of a reader, of no more bytes than a line may have.

ghost use Rattle.std.specs.Prelude.{◌≡◌, ◌≢◌, ◌+◌, ◌<◌, ◌≤◌, ℕ, List, All, IfOk, IfErr, IfSome, IfNone, codes, length, take, ◌++◌, Ok};
ghost use Rattle.std.specs.Io.KnownBytes.{Consumes};
ghost use Rattle.client_lines.specs.Sending.{IsAtKnownEnd};
ghost use Rattle.client_lines.specs.ProofTaking.{Adds, TakesInput};

use crate::fault::ClientFault;
use std::alloc::{AllocError, Global};
use std::io;
use std::io::{BufRead, ErrorKind};

/// The most bytes of a line, sent or received, without the line feed that ends it.
pub(crate) const MOST_LINE: usize = 65_536;

/// What was taken of a reader.
#[derive(Drop)]
pub(crate) enum Taken {
    /// A line, and the line feed after it.
    Line(Vec<u8>),
    /// All that was left, in which is no line feed.
    Last(Vec<u8>),
    /// More bytes than a line may have, in which is no line feed.
    Long,
}

/// What was added to a line at once.
#[derive(Clone, Copy, PartialEq, Eq)]
pub(crate) enum Piece {
    /// Some bytes, in which is no line feed.
    Part,
    /// The last bytes of the line, after which a line feed was taken.
    Line,
    /// None, since none are left.
    End,
}

/// Takes the next line. No more is taken of one that is too long.
pub(crate) fn take_line<R: BufRead>(alloc: Global, reader: &mut R) -> Result<Taken, ClientFault>
    ensures taken { IfOk result (TakesInput (R.remaining reader.old) (R.remaining reader.new)) }
    ensures fault { IfErr result (λ fault. fault ≢ ClientFault.TooLong) }
{
    let mut line = Vec::new(alloc);
    for _ in 0..u64::MAX {
        let room = MOST_LINE + 1 - line.len();
        match take_piece(reader, room, &mut line)? {
            Piece::Line => return Ok(Taken::Line(line)),
            Piece::End => return Ok(Taken::Last(line)),
            Piece::Part => {}
        }
        if line.len() > MOST_LINE {
            return Ok(Taken::Long);
        }
    }
    Err(ClientFault::Io)
}

/// Takes what the reader has at hand of the line, at most `room` bytes, and adds it to the line.
fn take_piece<R: BufRead>(
    reader: &mut R,
    room: usize,
    line: &mut Vec<u8>,
) -> Result<Piece, ClientFault>
    requires { 0 < room }
    ensures took { IfOk result (λ piece. (bytes : List ℕ)
        × Consumes (R.remaining reader.old) (R.remaining reader.new) bytes
        × (length bytes ≤ room) × Adds bytes line.old.items line.new.items piece) }
    ensures end { result ≡ Ok Piece.End
        → IsAtKnownEnd (R.remaining reader.old) (R.remaining reader.new) }
    ensures fault { IfErr result (λ fault. fault ≢ ClientFault.TooLong) }
{
    let shown = match reader.fill_buf() {
        Ok(shown) => shown,
        Err(error) => return none_shown(error),
    };
    let (count, piece) = add_front(shown, room, line)?;
    reader.consume(count);
    Ok(piece)
}

/// Goes on where a signal interrupted the call, so that it is made again. Any other error is the
/// fault.
fn none_shown(error: io::Error) -> Result<Piece, ClientFault>
    ensures none { IfOk result (λ piece. piece ≡ Piece.Part) }
    ensures fault { IfErr result (λ fault. fault ≢ ClientFault.TooLong) }
{
    if error.kind() == ErrorKind::Interrupted {
        return Ok(Piece::Part);
    }
    Err(ClientFault::from(error))
}

/// Adds the front of what is shown to the line, up to the first line feed there but at most `room`
/// bytes. Gives how many bytes are done with, that line feed among them.
fn add_front(shown: &[u8], room: usize, line: &mut Vec<u8>) -> Result<(usize, Piece), AllocError>
    requires { 0 < room }
    ensures shown { IfOk result (λ added. added.0 ≤ length shown.now) }
    ensures room { IfOk result (λ added. added.0 ≤ room) }
    ensures adds { IfOk result
        (λ added. Adds (take added.0 shown.now) line.old.items line.new.items added.1) }
    ensures goes_on { IfOk result (λ added. 0 < length shown.now → 0 < added.0) }
    ensures end { IfOk result (λ added. added.1 ≡ Piece.End → length shown.now ≡ 0) }
{
    let front = &shown[..shown.len().min(room)];
    if front.is_empty() {
        return Ok((0, Piece::End));
    }
    match line_feed_in(front) {
        Some(end) => {
            line.extend_from_slice(&front[..end])?;
            Ok((end + 1, Piece::Line))
        }
        None => {
            line.extend_from_slice(front)?;
            Ok((front.len(), Piece::Part))
        }
    }
}

/// Finds the first line feed.
fn line_feed_in(bytes: &[u8]) -> Option<usize>
    ensures bound { IfSome result (λ end. end < length bytes.now) }
    ensures found { IfSome result
        (λ end. take (end + 1) bytes.now ≡ take end bytes.now ++ codes "\n") }
    ensures before { IfSome result (λ end. All (λ byte. byte ≢ 10) (take end bytes.now)) }
    ensures none { IfNone result (All (λ byte. byte ≢ 10) bytes.now) }
{
    bytes.iter().position(|byte| *byte == b'\n')
}
