//! The parts of a message in the notation, each on a line, with what people read of it as a
//! comment.

use crate::digits::Digits;
use crate::group_tag::GroupTag;
use crate::line::Said;
use crate::meaning::{Meaning, Shown};
use crate::value_tag::{BEG_COLLECTION, END_COLLECTION};
use ipp_coding::{Attribute, Message, Value};
use std::io::Write;
use std::{io, str};

/// Prints the header and the groups of the message after the indent.
pub(crate) fn print_parts<W: Write>(
    output: &mut W,
    indent: &str,
    message: &Message<'_>,
    said: Said,
) -> io::Result<()> {
    let (major, minor) = (message.major, message.minor);
    let (code, id) = (message.code, message.request_id);
    write!(output, "{indent}{major:02x}{minor:02x} {code:04x} {id:08x}")?;
    writeln!(output, "  # IPP {major}.{minor}, {said}, request {id}")?;
    for group in message.groups.as_slice() {
        let tag = group.tag;
        let name = GroupTag(tag);
        writeln!(output, "{indent}{tag:02x}  # {name}")?;
        for attribute in group.attributes.as_slice() {
            print_attribute(output, indent, attribute)?;
        }
    }
    Ok(())
}

/// Prints the end tag, and the data after it, if there are some.
pub(crate) fn print_end<W: Write>(output: &mut W, indent: &str, data: &[u8]) -> io::Result<()> {
    writeln!(output, "{indent}03  # end")?;
    if data.is_empty() {
        return Ok(());
    }
    let (digits, length) = (Digits(data), data.len());
    let bytes = if length == 1 { "byte" } else { "bytes" };
    writeln!(output, "{indent}{digits}  # {length} {bytes} of data")
}

/// Prints the bytes from `place` on that are no part of a message.
pub(crate) fn print_rest<W: Write>(
    output: &mut W,
    indent: &str,
    rest: &[u8],
    place: usize,
) -> io::Result<()> {
    if rest.is_empty() {
        return writeln!(output, "{indent}# no message from byte {place} on");
    }
    let digits = Digits(rest);
    writeln!(
        output,
        "{indent}{digits}  # no message from byte {place} on"
    )
}

/// Prints each value of the attribute, the first with the attribute's name.
fn print_attribute<W: Write>(
    output: &mut W,
    indent: &str,
    attribute: &Attribute<'_>,
) -> io::Result<()> {
    let mut depth = 0u64;
    for (index, value) in attribute.values.as_slice().iter().enumerate() {
        let is_member = depth > 0;
        match value.tag {
            BEG_COLLECTION => depth = depth.saturating_add(1),
            END_COLLECTION => depth = depth.saturating_sub(1),
            _ => {}
        }
        if index == 0 {
            print_first(output, indent, attribute.name, *value)?;
        } else if is_member {
            print_further(output, indent, b"", *value, "")?;
        } else {
            print_further(output, indent, attribute.name, *value, ", one more value")?;
        }
    }
    Ok(())
}

/// Prints a value with the name of its attribute. One whose name the notation does not have is
/// printed as words of digits: the tag, the length of the name, the name, the length of the value
/// and the value.
fn print_first<W: Write>(
    output: &mut W,
    indent: &str,
    attribute: &[u8],
    value: Value<'_>,
) -> io::Result<()> {
    let tag = value.tag;
    if let Some(name) = legible(attribute) {
        let shown = Shown::of(value);
        let meaning = Meaning {
            attribute,
            value,
            shown,
        };
        return writeln!(output, "{indent}{tag:02x} {name} = {shown}  # {meaning}");
    }
    let (name, digits) = (Digits(attribute), Digits(value.bytes));
    let (name_length, length) = (attribute.len(), value.bytes.len());
    write!(
        output,
        "{indent}{tag:02x} {name_length:04x} {name} {length:04x}"
    )?;
    if length > 0 {
        write!(output, " {digits}")?;
    }
    let meaning = Meaning {
        attribute,
        value,
        shown: Shown::Digits(value.bytes),
    };
    write!(output, "  # {meaning}")?;
    match str::from_utf8(attribute) {
        Ok(name) => writeln!(output, ", of the name {name:?}"),
        Err(_) => writeln!(output, ", of a name that is no UTF-8"),
    }
}

/// Prints a value that follows another of its attribute, and `more` behind the comment.
fn print_further<W: Write>(
    output: &mut W,
    indent: &str,
    attribute: &[u8],
    value: Value<'_>,
    more: &str,
) -> io::Result<()> {
    let (tag, shown) = (value.tag, Shown::of(value));
    let meaning = Meaning {
        attribute,
        value,
        shown,
    };
    writeln!(output, "{indent}{tag:02x} = {shown}  # {meaning}{more}")
}

/// The name as the notation has it, where it is made of letters, digits, `-`, `.` and `_` (RFC 8011
/// section 5.1.4).
fn legible(name: &[u8]) -> Option<&str> {
    let is_legible = name.iter().all(|byte| byte.is_ascii_alphanumeric()
        || matches!(*byte, b'-' | b'.' | b'_'));
    if is_legible {
        str::from_utf8(name).ok()
    } else {
        None
    }
}
