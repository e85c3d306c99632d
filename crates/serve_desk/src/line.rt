//! The line that a form spells: the values of its fields, in order, with a space between them.
ghost use Rattle.std.specs.Prelude.{◌≡◌, ◌++◌, IfOk, IfSome, OnOk};
ghost use Rattle.input_lines.specs.Saying.{IsLineOf};
ghost use Rattle.input_lines.specs.declared.lines.Grammar.TheVariants.{Operator};
ghost use Rattle.serve_desk.specs.Lines.{line_of, value_of};
ghost use Rattle.serve_desk.specs.ProofLines.{behind_space};

use input_fields::FieldFault;
use input_http::before;
use input_lines::{Grammar, Line};
use serve_peers::MOST_LINE;
use std::alloc::{AllocError, Global};

/// Makes the line that a form spells (`application/x-www-form-urlencoded`). Nothing is decoded: what
/// a form has to encode stands in no line.
pub(crate) fn line_of(alloc: Global, form: &[u8]) -> Result<Vec<u8>, AllocError>
    ensures { IfOk result (λ line. line.items ≡ line_of form.now) }
{
    let mut line = Vec::new(alloc);
    let mut is_first = true;
    for field in form.split(|byte| *byte == b'&') {
        put_value(&mut line, is_first, value_of(field))?;
        is_first = false;
    }
    Ok(line)
}

/// Appends the value of a field, behind a space where it is not the first.
fn put_value(line: &mut Vec<u8>, is_first: bool, value: &[u8]) -> Result<(), AllocError>
    ensures { OnOk result (line.new.items ≡ line.old.items ++ behind_space is_first value.now) }
{
    if !is_first {
        line.push(b' ')?;
    }
    line.extend_from_slice(value)
}

/// Gives the value of a field: what stands behind its first `=`.
fn value_of(field: &[u8]) -> &[u8]
    ensures { result.now ≡ value_of field.now }
{
    let name = before(b'=', field);
    match field[name.len()..].strip_prefix(b"=".as_slice()) {
        Some(value) => value,
        None => b"",
    }
}

/// Reads the line as one that an operator asks at the moment. `None` where it asks for no event.
pub(crate) fn read_line(alloc: Global, moment: u64, text: &[u8]) -> Result<Option<Line>, AllocError>
    ensures { IfOk result (λ read. IfSome read (IsLineOf (Operator moment) text.now)) }
{
    if text.len() > MOST_LINE {
        return Ok(None);
    }
    match (Grammar::Operator { moment }).read_line(alloc, text) {
        Ok(line) => Ok(Some(line)),
        Err(FieldFault::Malformed) => Ok(None),
        Err(FieldFault::Memory) => Err(AllocError),
    }
}
