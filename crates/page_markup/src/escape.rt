//! Escapes text from outside for HTML, so that none of it becomes markup.

ghost use Rattle.std.specs.Prelude.{◌≡◌, ◌++◌, OnOk, flat_map};
ghost use Rattle.page_markup.specs.Escaping.{escaped, is_control, shown_byte};

use std::alloc::AllocError;

/// Appends a text from outside, escaped for HTML, for an element or a quoted attribute. What is no
/// UTF-8, and each control, goes out as U+FFFD.
pub(crate) fn put_escaped(out: &mut Vec<u8>, text: &[u8]) -> Result<(), AllocError>
    ensures { OnOk result (out.new.items ≡ out.old.items ++ escaped text.now) }
{
    let readable = String::from_utf8_lossy(*out.allocator(), text)?;
    put_readable(out, readable.as_bytes())
}

/// Appends a text that is UTF-8, with each byte escaped that HTML would take for markup.
fn put_readable(out: &mut Vec<u8>, text: &[u8]) -> Result<(), AllocError>
    ensures { OnOk result (out.new.items ≡ out.old.items ++ flat_map shown_byte text.now) }
{
    for byte in text {
        put_byte(out, *byte)?;
    }
    Ok(())
}

/// Appends one byte: a control as U+FFFD, one that HTML would take for markup as a character
/// reference, and any other as it is.
fn put_byte(out: &mut Vec<u8>, byte: u8) -> Result<(), AllocError>
    ensures { OnOk result (out.new.items ≡ out.old.items ++ shown_byte byte) }
{
    if is_control(byte) {
        return out.extend_from_slice(&[0xEF, 0xBF, 0xBD]);
    }
    match byte {
        b'&' => out.extend_from_slice(b"&amp;"),
        b'<' => out.extend_from_slice(b"&lt;"),
        b'>' => out.extend_from_slice(b"&gt;"),
        b'"' => out.extend_from_slice(b"&quot;"),
        b'\'' => out.extend_from_slice(b"&#39;"),
        _ => out.extend_from_slice(&[byte]),
    }
}

/// Whether the byte is a control of ASCII: below 32, or 127.
pub fn is_control(byte: u8) -> bool
    ensures { result ≡ is_control byte }
{
    byte < 32 || byte == 127
}
