//! `explain`: prints the lines of a text, and those with a message in the notation.

ghost use Rattle.std.specs.Prelude.{◌≡◌, ◌∷◌, ◌++◌, [], OnOk};
ghost use Rattle.std.specs.Io.KnownBytes.{Appends};
ghost use Rattle.ipp_notation.specs.Lines.{HasNoMessage};

use crate::front::{closed, end_of_reading};
use crate::line::MessageLine;
use crate::parts::{print_end, print_parts, print_rest};
use ipp_coding::{ReadFault, read_message};
use std::alloc::{AllocError, Global};
use std::io;
use std::io::Write;

const LINE_FEED: u8 = b'\n';

/// What begins the line of a document, after which a line of its bytes comes.
const DOCUMENT: &[u8] = b"document ";

/// Prints each line of the text: one with a message in the notation, a part on each line, with what
/// people read of it after `#`, and every other line as it is. A message stands on a line of a
/// script, `MOMENT ipp ACCOUNT DIGITS`, on a line of its output, `ipp DIGITS`, or is a line of
/// hexadecimal digits by itself. The bytes of a document, which are the line after a line that
/// begins with `document `, are no message.
///
/// The words before a message are printed on a line of their own, and its parts after two spaces
/// then. Of bytes that are no message the whole parts at the front are explained, and the rest is
/// printed in digits, with the place in the bytes at which it begins.
pub fn explain<W: Write>(alloc: Global, text: &[u8], output: &mut W) -> io::Result<()> {
    if text.is_empty() {
        return Ok(());
    }
    let mut is_document = false;
    for line in text
        .strip_suffix(b"\n")
        .unwrap_or(text)
        .split(|byte| *byte == b'\n')
    {
        if is_document {
            print_line(output, line)?;
        } else {
            explain_line(alloc, line, output)?;
        }
        is_document = !is_document && line.starts_with(DOCUMENT);
    }
    Ok(())
}

/// Prints one line as it is, or, if it has a message, its words and the message explained.
fn explain_line<W: Write>(alloc: Global, line: &[u8], output: &mut W) -> io::Result<()>
    // A line without a message is printed as it is.
    ensures same { HasNoMessage line.now → OnOk result
        (Appends (W.contents output.old) (W.contents output.new) (line.now ++ LINE_FEED ∷ [])) }
{
    let Some(line) = MessageLine::read(alloc, line)? else {
        return print_line(output, line);
    };
    if line.words.is_empty() {
        return explain_message(alloc, output, "", &line);
    }
    print_line(output, line.words)?;
    explain_message(alloc, output, "  ", &line)
}

/// Prints the message of a line, each part on a line behind the indent.
fn explain_message<W: Write>(
    alloc: Global,
    output: &mut W,
    indent: &str,
    line: &MessageLine<'_>,
) -> io::Result<()> {
    let bytes = line.bytes.as_slice();
    match read_message(alloc, bytes) {
        Ok(message) => {
            print_parts(output, indent, &message, line.said(message.code))?;
            print_end(output, indent, message.payload)
        }
        Err(ReadFault::Malformed) => explain_front(alloc, output, indent, line),
        Err(ReadFault::Memory) => Err(io::Error::from(AllocError)),
    }
}

/// Prints bytes that are no message: the whole parts at their front, and the rest in digits.
fn explain_front<W: Write>(
    alloc: Global,
    output: &mut W,
    indent: &str,
    line: &MessageLine<'_>,
) -> io::Result<()> {
    let bytes = line.bytes.as_slice();
    let place = end_of_reading(alloc, bytes)?;
    let front = closed(alloc, &bytes[..place])?;
    match read_message(alloc, front.as_slice()) {
        Ok(message) => print_parts(output, indent, &message, line.said(message.code))?,
        // Then no part is whole.
        Err(ReadFault::Malformed) => {}
        Err(ReadFault::Memory) => return Err(io::Error::from(AllocError)),
    }
    print_rest(output, indent, &bytes[place..], place)
}

/// Prints a line as it is, and a line feed.
fn print_line<W: Write>(output: &mut W, line: &[u8]) -> io::Result<()>
    ensures { OnOk result
        (Appends (W.contents output.old) (W.contents output.new) (line.now ++ LINE_FEED ∷ [])) }
{
    output.write_all(line)?;
    output.write_all(&[LINE_FEED])
}
