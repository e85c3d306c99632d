//! Prints lines, texts and CSV records.
ghost use Rattle.std.specs.Prelude.{OnOk};
ghost use Rattle.std.specs.Io.KnownBytes.{Appends};
ghost use Rattle.client_lines.specs.Replies.{whole_line};
ghost use Rattle.client_operator.specs.Csv.{record_text, texts};

use crate::csv::put_record;
use client_lines::ClientFault;
use std::alloc::Global;
use std::io::Write;

/// Prints a line, with the line feed that ends it.
pub(crate) fn print_line<O: Write>(line: &[u8], output: &mut O) -> Result<(), ClientFault>
    ensures { OnOk result (Appends (O.contents output.old) (O.contents output.new)
        (whole_line line.now)) }
{
    output.write_all(line)?;
    output.write_all(b"\n")?;
    Ok(output.flush()?)
}

/// Prints a text as it is.
pub(crate) fn print_text<O: Write>(text: &[u8], output: &mut O) -> Result<(), ClientFault>
    ensures { OnOk result (Appends (O.contents output.old) (O.contents output.new) text.now) }
{
    output.write_all(text)?;
    Ok(output.flush()?)
}

/// Prints a record of at least one field. It may wait in the output's buffer until that is flushed.
pub(crate) fn print_record<O: Write>(
    alloc: Global,
    fields: &[&[u8]],
    output: &mut O,
) -> Result<(), ClientFault>
    ensures { OnOk result (Appends (O.contents output.old) (O.contents output.new)
        (record_text (texts fields.now))) }
{
    let mut record = Vec::new(alloc);
    put_record(&mut record, fields)?;
    Ok(output.write_all(record.as_slice())?)
}
