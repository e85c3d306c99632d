//! Writes records of comma-separated values (RFC 4180 section 2), for tables that are printed.
ghost use Rattle.std.specs.Prelude.{◌≡◌, ◌++◌, OnOk};
ghost use Rattle.client_operator.specs.Csv.{doubled, field_text, needs_quotes, record_text, texts};

use std::alloc::AllocError;

/// Appends a record of comma-separated values (at least one field), with the line end behind it.
pub fn put_record(out: &mut Vec<u8>, fields: &[&[u8]]) -> Result<(), AllocError>
    ensures { OnOk result (out.new.items ≡ out.old.items ++ record_text (texts fields.now)) }
{
    match fields {
        [] => out.extend_from_slice(b"\r\n"),
        [last] => {
            put_field(out, last)?;
            out.extend_from_slice(b"\r\n")
        }
        [first, rest @ ..] => {
            put_field(out, first)?;
            out.push(b',')?;
            put_record(out, rest)
        }
    }
}

/// Appends a field, in double quotes where it needs them.
fn put_field(out: &mut Vec<u8>, field: &[u8]) -> Result<(), AllocError>
    ensures { OnOk result (out.new.items ≡ out.old.items ++ field_text field.now) }
{
    if !needs_quotes(field) {
        return out.extend_from_slice(field);
    }
    out.push(b'"')?;
    put_doubled(out, field)?;
    Ok(out.push(b'"')?)
}

/// Appends the bytes of a field, each double quote twice.
fn put_doubled(out: &mut Vec<u8>, field: &[u8]) -> Result<(), AllocError>
    ensures { OnOk result (out.new.items ≡ out.old.items ++ doubled field.now) }
{
    for byte in field {
        if *byte == b'"' {
            out.push(b'"')?;
        }
        out.push(*byte)?;
    }
    Ok(())
}

/// Whether a field has a double quote, a comma or a byte of a line end in it.
fn needs_quotes(field: &[u8]) -> bool
    ensures { result ≡ needs_quotes field.now }
{
    field
        .iter()
        .any(|byte| matches!(*byte, b'"' | b',' | b'\r' | b'\n'))
}
