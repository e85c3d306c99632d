//! What the program prints of the answer to each event, without taking memory.
ghost use Rattle.std.specs.Prelude.{◌++◌, codes, option_copied, OnOk};
ghost use Rattle.std.specs.Io.KnownBytes.{Appends};
ghost use Rattle.std.specs.List.{flat_map};
ghost use Rattle.hex.specs.Hex.{encode_lower};
ghost use Rattle.input_lines.specs.Printed.{answer_lines, part_lines};

use account_machine::{Part, Reply};
use input_fields::print_hex;
use std::io;
use std::io::Write;

/// Prints the answer to an event as a line; documents as two lines each, its own and one of its
/// bytes in hexadecimal. Of an event that failed, which has no answer, it prints `failed`.
pub fn print_answer<W: Write>(output: &mut W, answer: Option<&Reply>) -> io::Result<()>
    ensures { OnOk result (Appends (W.contents output.old) (W.contents output.new)
        (answer_lines (option_copied answer.entry))) }
{
    match answer {
        Some(Reply::Ipp(message)) => print_message(output, message.items.as_slice()),
        Some(Reply::Line(text)) => print_line(output, text.items.as_slice()),
        Some(Reply::Documents(parts)) => print_parts(output, parts.items.as_slice()),
        Some(Reply::NoAccount) => output.write_all(b"no-account\n"),
        Some(Reply::Short) => output.write_all(b"short\n"),
        None => output.write_all(b"failed\n"),
    }
}

/// Prints an IPP response: `ipp` and its bytes in hexadecimal.
fn print_message<W: Write>(output: &mut W, message: &[u8]) -> io::Result<()>
    ensures { OnOk result (Appends (W.contents output.old) (W.contents output.new)
        (codes "ipp " ++ encode_lower message.now ++ codes "\n")) }
{
    output.write_all(b"ipp ")?;
    print_hex(output, message)?;
    output.write_all(b"\n")
}

/// Prints a text and a line feed.
fn print_line<W: Write>(output: &mut W, text: &[u8]) -> io::Result<()>
    ensures { OnOk result (Appends (W.contents output.old) (W.contents output.new)
        (text.now ++ codes "\n")) }
{
    output.write_all(text)?;
    output.write_all(b"\n")
}

/// Prints documents, each as two lines.
fn print_parts<W: Write>(output: &mut W, parts: &[Part]) -> io::Result<()>
    ensures { OnOk result (Appends (W.contents output.old) (W.contents output.new)
        (flat_map part_lines parts.now)) }
{
    for part in parts {
        print_part(output, part)?;
    }
    Ok(())
}

/// Prints a document: its line, and a line of its bytes in hexadecimal.
fn print_part<W: Write>(output: &mut W, part: &Part) -> io::Result<()>
    ensures { OnOk result (Appends (W.contents output.old) (W.contents output.new)
        (part_lines part.now)) }
{
    print_line(output, part.line.items.as_slice())?;
    print_hex(output, part.bytes.items.as_slice())?;
    output.write_all(b"\n")
}
